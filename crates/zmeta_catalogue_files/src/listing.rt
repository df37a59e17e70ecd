//! The command `catalogues`: the catalogues of a file, or its mistakes.

ghost use Rattle.std.specs.Prelude.{length, IfOk, IfErr, IfSome, OnOk};
ghost use Rattle.zmeta_devices.specs.Devices.{output_device, outputs};
ghost use Rattle.zmeta_catalogue_files.specs.Listing.{AreToldOf, HasErrorLines, PutTextResult, PutListResult, TellResult, ListResult, IsListFault, AfterCatalogues};

use crate::lines::catalogue_lines;
use crate::paths::octets_at;
use crate::refusal::put_error;
use std::alloc::{AllocError, Global};
use std::io::Write;
use zmeta_catalogues::{CatalogueError, Catalogues, mistakes_of, read_catalogues};
use zmeta_devices::fault::{Fault, Status, end};
use zmeta_devices::files::Folder;
use zmeta_devices::output::Output;

/// Prints the catalogues of the file at a path, a line for each in the order of their lines in the file: what the file
/// says of it.
///
/// If the file is refused, writes each of its mistakes as a line on `errors`, in the order of their lines, and prints
/// nothing. The status is then `Refused`.
pub fn catalogues_named<'a, 'o: 'a, F: Folder, W: Write, E: Write>(
    alloc: Global,
    files: &F,
    path: &'a str,
    output: &mut Output<'o, W>,
    errors: &mut Output<'_, E>,
) -> Status
    ensures { AfterCatalogues path.entry.now (F.octets files.now path.entry.now)
        (outputs W.contents E.contents output.old errors.old)
        (outputs W.contents E.contents output.new errors.new) result }
{
    let answer = list_file(alloc, files, path, output, errors);
    end(answer, errors)
}

/// Prints the catalogues of the file at a path, or its mistakes.
#[tactic(auto, using(crate::proofs::Listed::list_results))]
fn list_file<'a, 'o: 'a, F: Folder, W: Write, E: Write>(
    alloc: Global,
    files: &F,
    path: &'a str,
    output: &mut Output<'o, W>,
    errors: &mut Output<'_, E>,
) -> Result<Status, Fault<'a>>
    ensures says { IfSome (F.octets files.now path.entry.now) (λ octets. ListResult path.entry.now octets
        (outputs W.contents E.contents output.old errors.old)
        (outputs W.contents E.contents output.new errors.new) result) }
    ensures fault { IfErr result (IsListFault path.entry.now) }
{
    match octets_at(alloc, files, path) {
        Ok(octets) => list_octets(alloc, octets.as_slice(), path, output, errors),
        Err(fault) => Err(fault),
    }
}

/// Prints the catalogues of a file with these octets, or its mistakes, with this path.
#[tactic(auto, using(crate::proofs::Listed::tell_results))]
fn list_octets<'a, 'o: 'a, W: Write, E: Write>(
    alloc: Global,
    octets: &[u8],
    path: &'a str,
    output: &mut Output<'o, W>,
    errors: &mut Output<'_, E>,
) -> Result<Status, Fault<'a>>
    ensures says { ListResult path.entry.now octets.now (outputs W.contents E.contents output.old errors.old)
        (outputs W.contents E.contents output.new errors.new) result }
    ensures fault { IfErr result (IsListFault path.entry.now) }
{
    match read_catalogues(alloc, octets) {
        Ok(file) => put_list(alloc, &file, output),
        Err(CatalogueError::Memory) => Err(Fault::Memory),
        Err(error) => tell_mistakes(alloc, octets, error, path, errors),
    }
}

/// Prints a text.
pub(crate) fn put_text<'o, W: Write>(
    output: &mut Output<'o, W>,
    text: &[u8],
) -> Result<Status, Fault<'o>>
    ensures { PutTextResult text.now (output_device W.contents output.old) (output_device W.contents output.new)
        result }
{
    match output.put(text) {
        Ok(()) => Ok(Status::Done),
        Err(fault) => Err(fault),
    }
}

/// Prints the lines of the catalogues of a file.
#[tactic(auto, using(crate::proofs::Listed::list_put))]
fn put_list<'o, W: Write>(
    alloc: Global,
    file: &Catalogues,
    output: &mut Output<'o, W>,
) -> Result<Status, Fault<'o>>
    ensures { PutListResult file.now.list (output_device W.contents output.old) (output_device W.contents output.new)
        result }
{
    match catalogue_lines(alloc, file.list.as_slice()) {
        Ok(text) => put_text(output, text.as_slice()),
        Err(_) => Err(Fault::Memory),
    }
}

/// Appends the lines of errors of the file at a path.
#[tactic(auto, using(crate::proofs::ErrorLines::no_errors))]
fn put_errors(
    alloc: Global,
    path: &str,
    mistakes: &[CatalogueError],
    lines: &mut Vec<u8>,
) -> Result<(), AllocError>
    ensures { OnOk result (HasErrorLines path.now (length mistakes.now) lines.old.items lines.new.items) }
{
    for mistake in mistakes {
        put_error(alloc, path, mistake, lines)?;
    }
    Ok(())
}

/// Returns the mistakes of a file with these octets: this one if no other is found.
fn all_mistakes(
    alloc: Global,
    octets: &[u8],
    error: CatalogueError,
) -> Result<Vec<CatalogueError>, AllocError>
    ensures { IfOk result (λ all. AreToldOf octets.now (length all.items)) }
{
    let mut all = mistakes_of(alloc, octets)?;
    if all.is_empty() {
        all.push(error)?;
        return Ok(all);
    }
    Ok(all)
}

/// Writes a line for each mistake of a file with these octets on `errors`.
fn tell_mistakes<'e, E: Write>(
    alloc: Global,
    octets: &[u8],
    error: CatalogueError,
    path: &str,
    errors: &mut Output<'_, E>,
) -> Result<Status, Fault<'e>>
    ensures { TellResult path.now octets.now (output_device E.contents errors.old)
        (output_device E.contents errors.new) result }
{
    let all = all_mistakes(alloc, octets, error)?;
    let mut lines = Vec::new(alloc);
    put_errors(alloc, path, all.as_slice(), &mut lines)?;
    errors.put_lines(lines.as_slice());
    Ok(Status::Refused)
}
