//! The list of changes.
ghost use Rattle.std.specs.Prelude.{◌≡◌, ◌++◌, OnOk, OnErr};
ghost use Rattle.std.specs.List.{flat_map};
ghost use Rattle.zknow.specs.List.Listing.{is_hex};
ghost use Rattle.zknow_changes.specs.Lists.{kind_name, place_text, names_for, change_text, change_list};

use crate::between::{Change, ChangeKind};
use std::alloc::{AllocError, Global};
use zapdu::print_record;
use zber::text::put_number;
use zknow::{Mode, Names, RowKey, put_name, put_natural};

impl ChangeKind {
    /// Returns the word for it: `new`, `changed` or `gone`.
    pub fn name(self) -> &'static str
        ensures { result.now ≡ kind_name self }
    {
        match self {
            ChangeKind::New => "new",
            ChangeKind::Changed => "changed",
            ChangeKind::Gone => "gone",
        }
    }
}

/// Appends where a record stands: its position, its catalogue and the number of the set.
fn put_place(
    alloc: Global,
    names: &Names,
    row: &RowKey,
    out: &mut Vec<u8>,
) -> Result<(), AllocError>
    ensures { OnOk result (out.new.items ≡ out.old.items ++ place_text names.now row.now) }
{
    put_number(alloc, row.position, out)?;
    out.extend_from_slice(b" ")?;
    put_name(alloc, names, row.target, out)?;
    out.extend_from_slice(b" ")?;
    put_natural(alloc, row.set, out)
}

/// Returns the names of the file that a change is found in.
pub fn names_for<'a>(earlier: &'a Names, later: &'a Names, kind: ChangeKind) -> &'a Names
    ensures { result.now ≡ names_for earlier.now later.now kind }
{
    match kind {
        ChangeKind::New | ChangeKind::Changed => later,
        ChangeKind::Gone => earlier,
    }
}

/// Appends the line of a change.
fn put_line(
    alloc: Global,
    earlier: &Names,
    later: &Names,
    hex: bool,
    change: &Change,
    out: &mut Vec<u8>,
) -> Result<(), AllocError>
    ensures { OnOk result (out.new.items ≡ out.old.items ++ change_text earlier.now later.now hex change.now) }
{
    out.extend_from_slice(change.kind.name().as_bytes())?;
    out.extend_from_slice(b" ")?;
    put_place(
        alloc,
        names_for(earlier, later, change.kind),
        &change.row,
        out,
    )?;
    out.extend_from_slice(b" ")?;
    print_record(alloc, &change.rec, hex, out)?;
    out.extend_from_slice(b"\n")
}

/// Appends the line of each change.
fn put_lines(
    alloc: Global,
    earlier: &Names,
    later: &Names,
    hex: bool,
    changes: &[Change],
    out: &mut Vec<u8>,
) -> Result<(), AllocError>
    ensures { OnOk result (out.new.items
        ≡ out.old.items ++ flat_map (change_text earlier.now later.now hex) changes.now) }
{
    for change in changes {
        put_line(alloc, earlier, later, hex, change, out)?;
    }
    Ok(())
}

/// Appends a line for each change: its kind, and then the position, the catalogue, the set and the record as the list
/// of all that is known has them (`print_list` of `zknow`). `earlier` and `later` are the names of the two files.
/// Returns `AllocError` if no memory is found; nothing is appended.
pub fn print_changes(
    alloc: Global,
    changes: &[Change],
    earlier: &Names,
    later: &Names,
    mode: Mode,
    out: &mut Vec<u8>,
) -> Result<(), AllocError>
    ensures ok { OnOk result (out.new.items
        ≡ out.old.items ++ change_list earlier.now later.now mode changes.now) }
    ensures err { OnErr result (out.new.items ≡ out.old.items) }
{
    let hex = mode == Mode::Hex;
    let mut text = Vec::new(alloc);
    put_lines(alloc, earlier, later, hex, changes, &mut text)?;
    out.extend_from_slice(&text)
}
