//! The lines of all that is known.
ghost use Rattle.std.specs.Prelude.{◌≡◌, ◌++◌, OnOk, OnErr, IfOk, string_bytes};
ghost use Rattle.std.specs.List.{flat_map};
ghost use Rattle.std.specs.Str.{IsUtf8};
ghost use Rattle.zknow_json.specs.Lines.{json_lines};
ghost use Rattle.zknow_json.specs.Records.{row_line};
ghost use Rattle.zknow_json.specs.Sets.{set_lines};

use crate::records::put_row;
use crate::sets::put_set_lines;
use crate::stops::put_stops;
use std::alloc::{AllocError, Global};
use zknow::{Knowledge, Names, RowKey, SetKey};
use zknow_stops::Stop;
use zmarc::Charset;

/// Appends the lines of each set.
fn put_sets(
    alloc: Global,
    names: &Names,
    knowledge: &Knowledge,
    sets: &[SetKey],
    out: &mut String,
) -> Result<(), AllocError>
    ensures { OnOk result (string_bytes out.new
        ≡ string_bytes out.old ++ flat_map (set_lines names.now knowledge.now) sets.now) }
{
    for key in sets {
        put_set_lines(alloc, names, knowledge, key, out)?;
    }
    Ok(())
}

/// Appends the line of each row.
fn put_rows(
    alloc: Global,
    names: &Names,
    charsets: &[Option<Charset>],
    knowledge: &Knowledge,
    rows: &[RowKey],
    out: &mut String,
) -> Result<(), AllocError>
    ensures { OnOk result (string_bytes out.new
        ≡ string_bytes out.old ++ flat_map (row_line names.now charsets.now knowledge.now) rows.now) }
{
    for key in rows {
        put_row(alloc, names, charsets, knowledge, key, out)?;
    }
    Ok(())
}

/// Returns all lines.
#[tactic(auto, unfolding(crate::specs::Lines::json_lines))]
fn lines(
    alloc: Global,
    knowledge: &Knowledge,
    names: &Names,
    charsets: &[Option<Charset>],
    stops: &[Option<Stop>],
) -> Result<String, AllocError>
    ensures { IfOk result (λ text. string_bytes text ≡ json_lines names.now charsets.now stops.now knowledge.now) }
{
    let mut text = String::new(alloc);
    let sets = knowledge.sets()?;
    put_sets(alloc, names, knowledge, &sets, &mut text)?;
    put_stops(alloc, names, stops, &mut text)?;
    let rows = knowledge.rows()?;
    put_rows(alloc, names, charsets, knowledge, &rows, &mut text)?;
    Ok(text)
}

/// Appends what is known as lines of JSON, one object each, in the order of the list. A target's set has an object for
/// each count, for its failure and for each diagnostic. After all sets, each target that stopped has an object: entry
/// `c` of `stops` says why the connection of target `c` did; without an entry it did not. Then each position at which a
/// record is known has an object, by position, target and set. If different records are known at a position, its
/// object has all of them.
///
/// Entry `c` of `charsets` is the character set of the records of target `c`, if that is known: the fields of MARC
/// records are read in it, whatever these say themselves. Without it they are read as `put_brief` of `zmarc` has it.
/// Copies are read as UTF-8.
///
/// A target has its name in `names`, else its number. What stands for octets that are not UTF-8, and which members each
/// object has, is in `CALLING.md`.
///
/// Returns `AllocError` if no memory is found; nothing is appended.
pub fn print_json(
    alloc: Global,
    knowledge: &Knowledge,
    names: &Names,
    charsets: &[Option<Charset>],
    stops: &[Option<Stop>],
    out: &mut Vec<u8>,
) -> Result<(), AllocError>
    ensures ok { OnOk result (out.new.items
        ≡ out.old.items ++ json_lines names.now charsets.now stops.now knowledge.now) }
    ensures err { OnErr result (out.new.items ≡ out.old.items) }
    ensures utf8 { OnOk result (IsUtf8 (json_lines names.now charsets.now stops.now knowledge.now)) }
{
    let text = lines(alloc, knowledge, names, charsets, stops)?;
    out.extend_from_slice(text.as_str().as_bytes())
}
