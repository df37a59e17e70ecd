//! The command `new`: what one saved file has that an earlier one has not.
ghost use Rattle.std.specs.Prelude.{◌≡◌, ◌++◌, List, [], IfOk, OnOk};
ghost use Rattle.zknow_changes.specs.Changes.{AreChanges, AreAddable};
ghost use Rattle.zknow_changes.specs.declared.between.Change.{Change};
ghost use Rattle.zmeta_devices.specs.Devices.{output_device, outputs};
ghost use Rattle.zmeta_offline.specs.New.{count_text, HasPart, HasParts, HasPage, IsChangesText, IsStatusOfBoth, LoadTwoResult, NewResult, AfterNew};

use crate::join::{load_named, put_list};
use crate::view::print_view;
use std::alloc::{AllocError, Global};
use std::io::Write;
use zknow::{Knowledge, Mode, Names};
use zknow_changes::{Change, ChangeKind, changes, count_part, part_of, print_changes};
use zknow_html::{ChangedParts, print_change_page};
use zknow_json::print_change_lines;
use zmeta_args::View;
use zmeta_devices::fault::{Fault, Status, end};
use zmeta_devices::files::Folder;
use zmeta_devices::output::Output;

/// Prints which records the saved file at the path `later` has that the one at `earlier` has not, and which are gone.
///
/// If a file is refused, writes the reason on `errors` and prints nothing. The earlier file is read first.
///
/// Returns `Failed` if one of the files has a search or an association that failed.
pub fn new_named<'a, 'o: 'a, F: Folder, W: Write, E: Write>(
    alloc: Global,
    files: &'a F,
    earlier: &'a str,
    later: &'a str,
    view: View<'_>,
    output: &mut Output<'o, W>,
    errors: &mut Output<'_, E>,
) -> Status
    ensures { AfterNew (F.octets files.now) earlier.entry.now later.entry.now view.entry
        (outputs W.contents E.contents output.old errors.old)
        (outputs W.contents E.contents output.new errors.new) result }
{
    let answer = new_files(alloc, files, earlier, later, view, output);
    end(answer, errors)
}

/// Prints the changes, and returns the status.
fn new_files<'a, 'o: 'a, F: Folder, W: Write>(
    alloc: Global,
    files: &'a F,
    earlier: &'a str,
    later: &'a str,
    view: View<'_>,
    output: &mut Output<'o, W>,
) -> Result<Status, Fault<'a>>
    ensures { NewResult (F.octets files.now) earlier.entry.now later.entry.now view.entry
        (output_device W.contents output.old) (output_device W.contents output.new) result }
{
    let (before, after) = load_two(alloc, files, earlier, later)?;
    let status = status_of_both(&before.0, &after.0);
    let made = text_of(alloc, &before, &after, view);
    drop(before);
    drop(after);
    let text = made?;
    put_list(output, text.as_slice(), status)
}

/// Returns the facts and names of two saved files.
pub(crate) fn load_two<'a, F: Folder>(
    alloc: Global,
    files: &F,
    earlier: &'a str,
    later: &'a str,
) -> Result<((Knowledge, Names), (Knowledge, Names)), Fault<'a>>
    ensures { LoadTwoResult (F.octets files.now) earlier.entry.now later.entry.now result }
{
    let before = load_named(alloc, files, earlier)?;
    let after = load_named(alloc, files, later)?;
    Ok((before, after))
}

/// Returns the status for the facts of two files: `Failed` if a search or an association failed, else `Done`.
pub(crate) fn status_of_both(earlier: &Knowledge, later: &Knowledge) -> Status
    ensures { IsStatusOfBoth earlier.now later.now result }
{
    if earlier.has_failed() || later.has_failed() {
        Status::Failed
    } else {
        Status::Done
    }
}

/// Returns the text of what changed from one file to the other.
fn text_of(
    alloc: Global,
    before: &(Knowledge, Names),
    after: &(Knowledge, Names),
    view: View<'_>,
) -> Result<Vec<u8>, AllocError>
    ensures { IfOk result (λ text. (found : List Change) × AreChanges before.now.1 before.now.0 after.now.1 after.now.0
        found × IsChangesText view.entry before.now.1 after.now.1 found text.items) }
{
    let found = changes(alloc, &before.1, &before.0, &after.1, &after.0)?;
    let mut text = Vec::new(alloc);
    put_changes(alloc, &found, &before.1, &after.1, view, &mut text)?;
    Ok(text)
}

/// Appends the changes as a view has them. `text` is empty.
fn put_changes(
    alloc: Global,
    found: &[Change],
    earlier: &Names,
    later: &Names,
    view: View<'_>,
    text: &mut Vec<u8>,
) -> Result<(), AllocError>
    requires addable { AreAddable found.now }
    requires empty { text.old.items ≡ [] }
    ensures { OnOk result (IsChangesText view.entry earlier.now later.now found.now text.new.items) }
{
    match view {
        View::Text => print_changes(alloc, found, earlier, later, Mode::Text, text),
        View::Hex => print_changes(alloc, found, earlier, later, Mode::Hex, text),
        View::Json => print_change_lines(alloc, found, earlier, later, text),
        View::Titles => put_parts(alloc, found, earlier, later, View::Titles, text),
        View::Fields => put_parts(alloc, found, earlier, later, View::Fields, text),
        View::Html { heading } => put_page(alloc, found, earlier, later, heading.as_bytes(), text),
    }
}

/// Appends how many changes are of a kind.
fn put_count(
    alloc: Global,
    found: &[Change],
    kind: ChangeKind,
    text: &mut Vec<u8>,
) -> Result<(), AllocError>
    ensures { OnOk result (text.new.items ≡ text.old.items ++ count_text kind found.now) }
{
    let count = count_part(found, kind).to_string(alloc)?;
    text.extend_from_slice(count.as_bytes())?;
    text.extend_from_slice(b" ")?;
    text.extend_from_slice(kind.name().as_bytes())?;
    text.extend_from_slice(b"\n")
}

/// Appends the changes of one kind: how many they are, and their records in a view.
fn put_part(
    alloc: Global,
    found: &[Change],
    kind: ChangeKind,
    names: &Names,
    view: View<'_>,
    text: &mut Vec<u8>,
) -> Result<(), AllocError>
    requires { AreAddable found.now }
    ensures { OnOk result (HasPart view.entry kind names.now found.now text.old.items text.new.items) }
{
    let known = part_of(alloc, found, kind)?;
    put_count(alloc, found, kind, text)?;
    print_view(alloc, &known, names, &[], &[], view, text)
}

/// Appends the changes of each kind, in a view.
fn put_parts(
    alloc: Global,
    found: &[Change],
    earlier: &Names,
    later: &Names,
    view: View<'_>,
    text: &mut Vec<u8>,
) -> Result<(), AllocError>
    requires { AreAddable found.now }
    ensures { OnOk result (HasParts view.entry earlier.now later.now found.now text.old.items text.new.items) }
{
    put_part(alloc, found, ChangeKind::New, later, view, text)?;
    put_part(alloc, found, ChangeKind::Changed, later, view, text)?;
    put_part(alloc, found, ChangeKind::Gone, earlier, view, text)
}

/// Appends the page of the changes.
fn put_page(
    alloc: Global,
    found: &[Change],
    earlier: &Names,
    later: &Names,
    heading: &[u8],
    text: &mut Vec<u8>,
) -> Result<(), AllocError>
    requires { AreAddable found.now }
    ensures { OnOk result (HasPage heading.now earlier.now later.now found.now text.old.items text.new.items) }
{
    let fresh = part_of(alloc, found, ChangeKind::New)?;
    let changed = part_of(alloc, found, ChangeKind::Changed)?;
    let gone = part_of(alloc, found, ChangeKind::Gone)?;
    let parts = ChangedParts {
        fresh: &fresh,
        changed: &changed,
        gone: &gone,
    };
    print_change_page(alloc, heading, earlier, later, parts, text)
}
