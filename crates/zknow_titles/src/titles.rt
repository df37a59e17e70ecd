//! The view for readers.
ghost use Rattle.std.specs.Prelude.{◌≡◌, ◌++◌, OnOk, OnErr, IfOk, map, string_bytes};
ghost use Rattle.std.specs.List.{flat_map};
ghost use Rattle.zknow_titles.specs.Laws.{IsSafeView, HasNameColumns};
ghost use Rattle.zknow_titles.specs.Lines.{ended};
ghost use Rattle.zknow_titles.specs.Rows.{row_lines};
ghost use Rattle.zknow_titles.specs.Titles.{between, title_lines, view, titles, whole_records};

use crate::filled::Filled;
use crate::heads::show_head;
use crate::names::show_names;
use crate::rows::{Widths, find_widths, put_row};
use crate::wholes::Extent;
use std::alloc::{AllocError, Global};
use zknow::{Knowledge, Names, RowKey, SetKey};
use zknow_stops::Stop;
use zmarc::Charset;

/// Appends an empty line where there are a head and rows.
fn put_between(head: &[u8], rows: &[RowKey], out: &mut Vec<u8>) -> Result<(), AllocError>
    ensures { OnOk result (out.new.items ≡ out.old.items ++ ended (between head.now rows.now)) }
{
    if head.is_empty() || rows.is_empty() {
        return Ok(());
    }
    out.extend_from_slice(b"\n")
}

/// Appends the lines of each row.
pub(crate) fn put_rows(
    alloc: Global,
    extent: Extent,
    w: &Widths,
    shown: &[String],
    charsets: &[Option<Charset>],
    knowledge: &Knowledge,
    rows: &[RowKey],
    out: &mut Vec<u8>,
) -> Result<(), AllocError>
    ensures { OnOk result (out.new.items ≡ out.old.items
        ++ ended (flat_map (row_lines extent w.now (map string_bytes shown.now) charsets.now knowledge.now) rows.now)) }
{
    for key in rows {
        put_row(alloc, extent, w, shown, charsets, knowledge, key, out)?;
    }
    Ok(())
}

/// Appends the lines of the targets and of the rows.
fn put_lines(
    alloc: Global,
    extent: Extent,
    shown: &[String],
    charsets: &[Option<Charset>],
    knowledge: &Knowledge,
    stops: &[Option<Stop>],
    sets: &[SetKey],
    rows: &[RowKey],
    out: &mut Vec<u8>,
) -> Result<(), AllocError>
    ensures { OnOk result (out.new.items
        ≡ out.old.items ++ ended (title_lines extent (map string_bytes shown.now) charsets.now stops.now knowledge.now
        sets.now rows.now)) }
{
    let head = show_head(alloc, Filled::Known, shown, knowledge, stops, sets)?;
    out.extend_from_slice(&head)?;
    put_between(&head, rows, out)?;
    let w = find_widths(alloc, shown, rows)?;
    put_rows(alloc, extent, &w, shown, charsets, knowledge, rows, out)
}

/// Returns the view as a text of its own.
fn view(
    alloc: Global,
    extent: Extent,
    knowledge: &Knowledge,
    names: &Names,
    charsets: &[Option<Charset>],
    stops: &[Option<Stop>],
) -> Result<Vec<u8>, AllocError>
    ensures { IfOk result (λ text. text.items ≡ view extent names.now charsets.now stops.now knowledge.now) }
{
    let mut text = Vec::new(alloc);
    let shown = show_names(alloc, names)?;
    let sets = knowledge.sets()?;
    let rows = knowledge.rows()?;
    put_lines(
        alloc, extent, &shown, charsets, knowledge, stops, &sets, &rows, &mut text,
    )?;
    Ok(text)
}

/// Appends the view. It has a line for each target's set of which a count, a failure or a diagnostic is known, by
/// target and set. Behind an empty line it has the position, the name, the year and the title of each record that is
/// known, by position, target and set. Of several records at a position it says how many they are, and then shows
/// each.
///
/// Entry `c` of `stops` says why the connection of target `c` stopped; without an entry it did not. These words stand
/// behind the line of the target's last set. If the target was not reached, or no set of it has a line, they are a line
/// of its own behind those of its sets.
///
/// Entry `c` of `charsets` is the character set of the records of target `c`, if that is known: MARC records and SUTRS
/// are read in it, whatever they say themselves. Without it, MARC records are read as `put_brief` of `zmarc` has it,
/// and SUTRS as UTF-8. Copies are read as UTF-8.
///
/// A target has its name in `names`, else `#` and its number. The name of a row takes at most 24 columns of a terminal,
/// by the widths of `unicode_width`, and is filled up to as many columns as the widest.
///
/// Whatever the names, the character sets, the stops, the diagnostics and the records are, the text is safe to print on
/// a terminal: its lines are UTF-8 of safe characters alone (`IsSafeText` of `zmarc`).
///
/// Returns `AllocError` if no memory is found; nothing is appended.
#[tactic(auto, unfolding(crate::specs::Titles::titles))]
pub fn print_titles(
    alloc: Global,
    knowledge: &Knowledge,
    names: &Names,
    charsets: &[Option<Charset>],
    stops: &[Option<Stop>],
    out: &mut Vec<u8>,
) -> Result<(), AllocError>
    ensures ok { OnOk result (out.new.items ≡ out.old.items ++ titles names.now charsets.now stops.now knowledge.now) }
    ensures err { OnErr result (out.new.items ≡ out.old.items) }
    ensures safe { IsSafeView (titles names.now charsets.now stops.now knowledge.now) }
    ensures columns { HasNameColumns names.now knowledge.now }
{
    let text = view(alloc, Extent::Title, knowledge, names, charsets, stops)?;
    out.extend_from_slice(&text)
}

/// Appends the view as `print_titles` does, and below the line of each record the whole record, indented as the lines
/// of copies are, also below each of several records at a position. It has these lines:
///
/// - Of octets of ISO 2709 those of `zmarc`'s `gather_lines`: the leader, and each field.
/// - Of SUTRS each line of its text.
/// - Of a record of the syntax OPAC those of its bibliographic record; then, as in `print_titles`, its copies.
/// - Of others none.
///
/// What `print_titles` says of stops, character sets, names and safe text, it says of this view too.
///
/// Returns `AllocError` if no memory is found; nothing is appended.
#[tactic(auto, unfolding(crate::specs::Titles::whole_records))]
pub fn print_fields(
    alloc: Global,
    knowledge: &Knowledge,
    names: &Names,
    charsets: &[Option<Charset>],
    stops: &[Option<Stop>],
    out: &mut Vec<u8>,
) -> Result<(), AllocError>
    ensures ok { OnOk result (out.new.items
        ≡ out.old.items ++ whole_records names.now charsets.now stops.now knowledge.now) }
    ensures err { OnErr result (out.new.items ≡ out.old.items) }
    ensures safe { IsSafeView (whole_records names.now charsets.now stops.now knowledge.now) }
    ensures columns { HasNameColumns names.now knowledge.now }
{
    let text = view(alloc, Extent::Whole, knowledge, names, charsets, stops)?;
    out.extend_from_slice(&text)
}
