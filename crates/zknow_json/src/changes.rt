//! The lines of changes between two saved files.
ghost use Rattle.std.specs.Prelude.{◌≡◌, ◌++◌, OnOk, OnErr, IfOk, string_bytes};
ghost use Rattle.std.specs.List.{flat_map};
ghost use Rattle.std.specs.Str.{IsUtf8};
ghost use Rattle.zknow_json.specs.Changes.{change_line, change_lines};

use crate::line::Line;
use crate::records::{kind_of, put_body, put_row_head};
use std::alloc::{AllocError, Global};
use zknow::Names;
use zknow_changes::{Change, names_for};

/// Appends the line of a change.
#[tactic(auto, unfolding(crate::specs::Changes::change_line))]
fn put_change(
    alloc: Global,
    earlier: &Names,
    later: &Names,
    change: &Change,
    out: &mut String,
) -> Result<(), AllocError>
    ensures { OnOk result (string_bytes out.new
        ≡ string_bytes out.old ++ change_line earlier.now later.now change.now) }
{
    let names = names_for(earlier, later, change.kind);
    let mut line = Line::new(alloc)?;
    line.put_text("change", change.kind.name())?;
    put_row_head(kind_of(&change.rec.body), names, &change.row, &mut line)?;
    put_body(alloc, None, &change.rec, &mut line)?;
    line.finish(out)
}

/// Appends the line of each change.
fn put_changes(
    alloc: Global,
    earlier: &Names,
    later: &Names,
    changes: &[Change],
    out: &mut String,
) -> Result<(), AllocError>
    ensures { OnOk result (string_bytes out.new
        ≡ string_bytes out.old ++ flat_map (change_line earlier.now later.now) changes.now) }
{
    for change in changes {
        put_change(alloc, earlier, later, change, out)?;
    }
    Ok(())
}

/// Returns the lines of all changes.
#[tactic(auto, unfolding(crate::specs::Changes::change_lines))]
fn lines(
    alloc: Global,
    changes: &[Change],
    earlier: &Names,
    later: &Names,
) -> Result<String, AllocError>
    ensures { IfOk result (λ text. string_bytes text ≡ change_lines earlier.now later.now changes.now) }
{
    let mut text = String::new(alloc);
    put_changes(alloc, earlier, later, changes, &mut text)?;
    Ok(text)
}

/// Appends the changes between two saved files as lines of JSON, one object each, in their order. An object has
/// `change` with the word for its kind, and then the members that `print_json` gives the record at its position if no
/// character set is known. `earlier` and `later` are the names of the two files.
///
/// Returns `AllocError` if no memory is found; nothing is appended.
pub fn print_change_lines(
    alloc: Global,
    changes: &[Change],
    earlier: &Names,
    later: &Names,
    out: &mut Vec<u8>,
) -> Result<(), AllocError>
    ensures ok { OnOk result (out.new.items ≡ out.old.items ++ change_lines earlier.now later.now changes.now) }
    ensures err { OnErr result (out.new.items ≡ out.old.items) }
    ensures utf8 { OnOk result (IsUtf8 (change_lines earlier.now later.now changes.now)) }
{
    let text = lines(alloc, changes, earlier, later)?;
    out.extend_from_slice(text.as_str().as_bytes())
}
