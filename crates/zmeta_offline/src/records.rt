//! The command `records`: the octets of the records of saved files.

ghost use Rattle.std.specs.Prelude.{◌≡◌, ◌++◌, ◌∷◌, IfOk, OnOk, Ok, Err};
ghost use Rattle.std.specs.Option.{option_map};
ghost use Rattle.zmeta_devices.specs.Devices.{outputs};
ghost use Rattle.zknow_records.specs.Records.{records_octets, left_out};
ghost use Rattle.zmeta_args.specs.Texts.{texts_of};
ghost use Rattle.zmeta_offline.specs.Records.{SyntaxResult, left_line, left_text, extract, PutRecordsResult, RecordsResult};
ghost use Rattle.zmeta_offline.specs.News.{RecordsCallResult, AfterRecords};
ghost use Rattle.zmeta_offline.specs.Streamed.{IsStatusOf, StreamedResult};

use crate::catalogues::facts_of;
use crate::join::{known_status, load_all};
use crate::news::news_files;
use crate::rows::write_rows;
use crate::scanned::{Marked, Noting, scan_files};
use std::alloc::{AllocError, Global};
use std::io::Write;
use zber::{Oid, OidError};
use zknow::Knowledge;
use zknow_forms::Form;
use zknow_records::{LeftOut, write_records};
use zknow_runs::Taking;
use zmeta_devices::fault::{Fault, Status, end};
use zmeta_devices::files::Folder;
use zmeta_devices::output::Output;
use zmeta_world::search::dotted_syntax;

/// Which records are written.
#[derive(Clone, Copy)]
pub struct Extract<'a, 'w> {
    /// The path of an earlier saved file. If there is one, just the records that are new or changed since then are
    /// written.
    pub since: Option<&'a str>,
    /// The names of their catalogues. If there are none, records of all catalogues are written.
    pub only: &'w [&'a str],
    /// Their record syntax, as a name or an object identifier in dotted form. If there is none, records of any syntax
    /// are written.
    pub syntax: Option<&'a str>,
    /// Whether all records of a position that has several are written. If not, none of them is.
    pub conflicts: bool,
}

/// The paths of saved files.
#[derive(Clone, Copy)]
pub struct SavedFiles<'a, 'w> {
    /// The path of the first.
    pub first: &'a str,
    /// The paths of the others, in order.
    pub others: &'w [&'a str],
}

/// Writes the octets of the records of saved files, one after the other in the order of the list. Writes on
/// `errors` how many records were left out.
///
/// If a file is refused, the syntax is not an object identifier, or no catalogue has a given name, writes the reason on
/// `errors` and nothing else.
///
/// Without an earlier file, files are read twice if all of them can be. If one cannot be read the second time, is not
/// as it was, or no memory is found then, a front of the octets may have been written before the reason.
///
/// With an earlier file, the records of the chosen catalogues are written that are new or changed since then, and no
/// others. That file is read first.
///
/// Returns `Refused` if a file, the syntax or a name is refused, or a stream failed, `errors` too. Else returns
/// `Failed` if a search or an association of the chosen catalogues failed, in the earlier file too.
pub fn records_named<'a, 'o: 'a, F: Folder, W: Write, E: Write>(
    alloc: Global,
    files: &'a F,
    saved: SavedFiles<'a, '_>,
    wanted: Extract<'a, '_>,
    output: &mut Output<'o, W>,
    errors: &mut Output<'_, E>,
) -> Status
    ensures { AfterRecords (extract wanted.entry) (F.octets files.now)
        (saved.entry.first.now ∷ texts_of saved.entry.others.now)
        (outputs W.contents E.contents output.old errors.old)
        (outputs W.contents E.contents output.new errors.new) result }
{
    let answer = write_wanted(alloc, files, saved, wanted, output, errors);
    end(answer, errors)
}

/// Writes all records, or those that are new or changed since the earlier file. Reports what was left out, and returns
/// the status.
fn write_wanted<'a, 'o: 'a, F: Folder, W: Write, E: Write>(
    alloc: Global,
    files: &'a F,
    saved: SavedFiles<'a, '_>,
    wanted: Extract<'a, '_>,
    output: &mut Output<'o, W>,
    errors: &mut Output<'_, E>,
) -> Result<Status, Fault<'a>>
    ensures { RecordsCallResult (option_map (λ text. text.now) wanted.entry.since) (extract wanted.entry)
        (F.octets files.now) (saved.entry.first.now ∷ texts_of saved.entry.others.now)
        (outputs W.contents E.contents output.old errors.old)
        (outputs W.contents E.contents output.new errors.new) result }
{
    match wanted.since {
        None => {
            if are_seekable(files, saved) {
                records_streamed(alloc, files, saved, wanted, output, errors)
            } else {
                records_files(alloc, files, saved, wanted, output, errors)
            }
        }
        Some(earlier) => news_files(alloc, files, earlier, saved, wanted, output, errors),
    }
}

/// Whether all files may be read more than once, and from any octet on.
pub(crate) fn are_seekable<F: Folder>(files: &F, saved: SavedFiles<'_, '_>) -> bool {
    if !files.is_seekable(saved.first) {
        return false;
    }
    for path in saved.others {
        if !files.is_seekable(*path) {
            return false;
        }
    }
    true
}

/// Returns all paths, in order.
pub(crate) fn paths_of<'a>(
    alloc: Global,
    saved: SavedFiles<'a, '_>,
) -> Result<Vec<&'a str>, AllocError>
    ensures { IfOk result (λ paths. texts_of paths.items
        ≡ saved.entry.first.now ∷ texts_of saved.entry.others.now) }
{
    let mut paths = Vec::new(alloc);
    paths.push(saved.first)?;
    for path in saved.others {
        paths.push(*path)?;
    }
    Ok(paths)
}

/// Writes the records of files that may outgrow memory: octets of some of their runs are in memory, and the records of
/// one position. Reports what was left out, and returns the status.
///
/// `Read` and `Memory` can come behind a front of the octets.
fn records_streamed<'a, 'o: 'a, F: Folder, W: Write, E: Write>(
    alloc: Global,
    files: &'a F,
    saved: SavedFiles<'a, '_>,
    wanted: Extract<'a, '_>,
    output: &mut Output<'o, W>,
    errors: &mut Output<'_, E>,
) -> Result<Status, Fault<'a>>
    ensures { StreamedResult (extract wanted.entry) (F.octets files.now)
        (saved.entry.first.now ∷ texts_of saved.entry.others.now)
        (outputs W.contents E.contents output.old errors.old)
        (outputs W.contents E.contents output.new errors.new) result }
{
    let syntax = syntax_of(alloc, wanted.syntax)?;
    let paths = paths_of(alloc, saved)?;
    let Marked {
        chosen,
        runs,
        failed,
        ..
    } = scan_files(
        alloc,
        files,
        paths.as_slice(),
        wanted.only,
        Noting::Failures,
    )?;
    let form = Form::Octets {
        syntax,
        conflicts: wanted.conflicts,
    };
    let taking = Taking {
        chosen: &chosen,
        form: &form,
        head: Vec::new(alloc),
    };
    let (last, tally) = write_rows(
        alloc,
        files,
        paths.as_slice(),
        runs.as_slice(),
        taking,
        output,
    )?;
    let lines = left_lines(alloc, &tally.left)?;
    put_records(last.as_slice(), lines.as_slice(), output, errors)?;
    Ok(status_of(failed))
}

/// Returns the status: `Failed` if a search or an association failed, else `Done`.
pub(crate) fn status_of(failed: bool) -> Status
    ensures { IsStatusOf failed result }
{
    if failed { Status::Failed } else { Status::Done }
}

/// Writes the records, reports what was left out, and returns the status.
fn records_files<'a, 'o: 'a, F: Folder, W: Write, E: Write>(
    alloc: Global,
    files: &'a F,
    saved: SavedFiles<'a, '_>,
    wanted: Extract<'a, '_>,
    output: &mut Output<'o, W>,
    errors: &mut Output<'_, E>,
) -> Result<Status, Fault<'a>>
    ensures { RecordsResult (extract wanted.entry) (F.octets files.now)
        (saved.entry.first.now ∷ texts_of saved.entry.others.now)
        (outputs W.contents E.contents output.old errors.old)
        (outputs W.contents E.contents output.new errors.new) result }
{
    let syntax = syntax_of(alloc, wanted.syntax)?;
    let known = load_all(alloc, files, saved.first, saved.others)?;
    let chosen = facts_of(alloc, &known.0, &known.1, wanted.only);
    drop(known);
    let knowledge = chosen?;
    let status = known_status(&knowledge);
    let taken = take_records(alloc, &knowledge, &syntax, wanted.conflicts);
    drop(knowledge);
    let (octets, left) = taken?;
    let lines = left_lines(alloc, &left)?;
    put_records(octets.as_slice(), lines.as_slice(), output, errors)?;
    Ok(status)
}

/// Returns the octets of the records, and the counts of what was left out.
pub(crate) fn take_records(
    alloc: Global,
    knowledge: &Knowledge,
    syntax: &Option<Oid>,
    conflicts: bool,
) -> Result<(Vec<u8>, LeftOut), AllocError>
    ensures octets { IfOk result (λ taken. taken.0.items ≡ records_octets syntax.now conflicts knowledge.now) }
    ensures left { IfOk result (λ taken. taken.1 ≡ left_out syntax.now conflicts knowledge.now) }
{
    let mut octets = Vec::new(alloc);
    let left = write_records(alloc, knowledge, syntax.as_ref(), conflicts, &mut octets)?;
    Ok((octets, left))
}

/// Returns the object identifier that a text names, or `None` if there is no text.
pub(crate) fn syntax_of<'a>(alloc: Global, text: Option<&'a str>) -> Result<Option<Oid>, Fault<'a>>
    ensures { SyntaxResult (option_map (λ text. text.now) text.entry) result }
{
    let Some(text) = text else {
        return Ok(None);
    };
    match Oid::parse_dotted(alloc, dotted_syntax(text.as_bytes())) {
        Ok(oid) => Ok(Some(oid)),
        Err(e) if e == OidError::Memory => Err(Fault::Memory),
        Err(_) => Err(Fault::NotOid(text)),
    }
}

/// Appends the line for the things of one kind that were left out, if there are any.
fn put_left(alloc: Global, kind: &str, count: u64, text: &mut Vec<u8>) -> Result<(), AllocError>
    ensures { OnOk result (text.new.items ≡ text.old.items ++ left_line kind.now count) }
{
    if count == 0 {
        return Ok(());
    }
    let number = count.to_string(alloc)?;
    text.extend_from_slice(b"zmeta: ")?;
    text.extend_from_slice(kind.as_bytes())?;
    text.extend_from_slice(b" left out: ")?;
    text.extend_from_slice(number.as_bytes())?;
    text.extend_from_slice(b"\n")
}

/// Returns the lines for what was left out.
pub(crate) fn left_lines(alloc: Global, left: &LeftOut) -> Result<Vec<u8>, AllocError>
    ensures { IfOk result (λ text. text.items ≡ left_text left.now) }
{
    let mut text = Vec::new(alloc);
    put_left(
        alloc,
        "positions with several records",
        left.conflicts,
        &mut text,
    )?;
    put_left(alloc, "diagnostics", left.diagnostics, &mut text)?;
    put_left(alloc, "records of another syntax", left.syntaxes, &mut text)?;
    put_left(
        alloc,
        "structured records (as OPAC and GRS-1)",
        left.others,
        &mut text,
    )?;
    Ok(text)
}

/// Writes the octets, and the lines on `errors`.
pub(crate) fn put_records<'o, W: Write, E: Write>(
    octets: &[u8],
    lines: &[u8],
    output: &mut Output<'o, W>,
    errors: &mut Output<'_, E>,
) -> Result<(), Fault<'o>>
    ensures { PutRecordsResult octets.now lines.now (outputs W.contents E.contents output.old errors.old)
        (outputs W.contents E.contents output.new errors.new) result }
{
    output.put(octets)?;
    errors.put_lines(lines);
    Ok(())
}
