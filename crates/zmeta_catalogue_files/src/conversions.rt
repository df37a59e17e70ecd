//! The command `catalogues` for conversions: a file of catalogues as a world file, and a world file as a file of
//! catalogues.

ghost use Rattle.std.specs.Prelude.{◌≡◌, ◌<◌, ◌^◌, length, IfOk, IfSome};
ghost use Rattle.zmeta_devices.specs.Devices.{output_device, outputs};
ghost use Rattle.zmeta_catalogue_files.specs.Refusals.{AfterLine};
ghost use Rattle.zmeta_catalogue_files.specs.Conversions.{unsaid_words, no_table_words, unsaid_text, no_table_text, made_text, TextOfWorldResult, WorldTextResult, TableTextResult, AfterConversionFault, AfterConversion, AfterWorldOf, AfterCataloguesOf};

use crate::listing::put_text;
use crate::refusal::{UnionFault, put, put_catalogue, put_line};
use crate::unions::union_at;
use bytes::Bytes;
use std::alloc::{AllocError, Global};
use std::io::Write;
use zapdu::quote;
use zmeta_args::SearchOptions;
use zmeta_conversions::{
    CatalogueFileError, NoTable, Unsaid, WorldFileError, catalogue_file, world_file,
};
use zmeta_devices::fault::{Fault, Status, end};
use zmeta_devices::files::{Folder, file_at};
use zmeta_devices::output::Output;
use zmeta_world::world::{World, WorldError, read_world};

/// Why a file is not converted.
#[derive(Drop)]
pub enum ConversionFault<'a> {
    /// The file is not read, or its catalogues cannot be asked.
    Union(UnionFault<'a>),
    /// A world file cannot say the catalogue of this name, for this reason.
    Unsaid {
        name: Bytes,
        reason: Unsaid,
    },
    /// The question of this name, on this line, has no table in a file of catalogues, for this reason.
    NoTable {
        line: u64,
        name: Bytes,
        reason: NoTable,
    },
}

/// Returns why a world file cannot say a catalogue, in words.
fn unsaid_words(reason: Unsaid) -> &'static str
    ensures { result.now ≡ unsaid_words reason }
{
    match reason {
        Unsaid::Databases => "a world file asks one database of each",
        Unsaid::Elements => "a world file has no element set names",
        Unsaid::Query => "its query has no text",
        Unsaid::LineFeed => "a world file has no line feeds in its texts",
    }
}

/// Returns why a question has no table, in words.
fn no_table_words(reason: NoTable) -> &'static str
    ensures { result.now ≡ no_table_words reason }
{
    match reason {
        NoTable::Target => "a target in memory; a file of catalogues has hosts",
        NoTable::Name => "no catalogue can have this name",
        NoTable::Address => "the address is empty, or no UTF-8",
        NoTable::Database => "the name of the database is empty, or no UTF-8",
        NoTable::Elements => "an element set name",
        NoTable::Query => "the query is no UTF-8",
    }
}

/// Returns the world file of a world.
fn text_of_world<'a>(alloc: Global, world: &World) -> Result<Vec<u8>, ConversionFault<'a>>
    ensures { TextOfWorldResult world.now (made_text (λ t. t.items) result) }
{
    match world_file(alloc, world) {
        Ok(text) => Ok(text),
        Err(WorldFileError::Unsaid { name, reason }) => {
            Err(ConversionFault::Unsaid { name, reason })
        }
        Err(WorldFileError::Memory) => {
            Err(ConversionFault::Union(UnionFault::Fault(Fault::Memory)))
        }
    }
}

/// Returns the world file that the search of the options asks of the catalogues of the file at a path.
#[tactic(auto, using(crate::proofs::Converted::world_refused, crate::proofs::Converted::world_of_union))]
fn world_text<'a, F: Folder>(
    alloc: Global,
    files: &F,
    path: &'a str,
    search: &SearchOptions<'a>,
) -> Result<Vec<u8>, ConversionFault<'a>>
    ensures { IfSome (F.octets files.now path.entry.now)
        (λ octets. WorldTextResult octets search.now (made_text (λ t. t.items) result)) }
{
    match union_at(alloc, files, path, search) {
        Ok(union) => text_of_world(alloc, &union.world),
        Err(fault) => Err(ConversionFault::Union(fault)),
    }
}

/// Returns the file of catalogues of a world file with these octets.
fn table_text<'a>(alloc: Global, octets: &[u8]) -> Result<Vec<u8>, ConversionFault<'a>>
    requires { length octets.now < 2 ^ 32 }
    ensures { TableTextResult octets.now (made_text (λ t. t.items) result) }
{
    let world = match read_world(alloc, octets) {
        Ok(world) => world,
        Err(WorldError::Refused { line }) => {
            return Err(ConversionFault::Union(UnionFault::Fault(Fault::Line(line))));
        }
        Err(WorldError::Memory) => {
            return Err(ConversionFault::Union(UnionFault::Fault(Fault::Memory)));
        }
    };
    match catalogue_file(alloc, &world) {
        Ok(text) => Ok(text),
        Err(CatalogueFileError::NoTable { line, name, reason }) => {
            Err(ConversionFault::NoTable { line, name, reason })
        }
        Err(CatalogueFileError::Memory) => {
            Err(ConversionFault::Union(UnionFault::Fault(Fault::Memory)))
        }
    }
}

/// Returns the file of catalogues of the world file at a path.
fn table_text_at<'a, F: Folder>(
    alloc: Global,
    files: &F,
    path: &'a str,
) -> Result<Vec<u8>, ConversionFault<'a>>
    ensures { IfSome (F.octets files.now path.entry.now)
        (λ octets. TableTextResult octets (made_text (λ t. t.items) result)) }
{
    match file_at(files, path).read_all(alloc) {
        Ok(octets) => table_text(alloc, octets.as_slice()),
        Err(fault) => Err(ConversionFault::Union(UnionFault::Fault(fault))),
    }
}

/// Returns why a world file cannot say the catalogue of this name.
fn unsaid_text(alloc: Global, name: &Bytes, reason: Unsaid) -> Result<Vec<u8>, AllocError>
    ensures { IfOk result (λ text. text.items ≡ unsaid_text name.now reason) }
{
    let mut text = Vec::new(alloc);
    put_catalogue(alloc, name.as_slice(), &mut text)?;
    put(": ", &mut text)?;
    put(unsaid_words(reason), &mut text)?;
    Ok(text)
}

/// Returns why the question of this name, on this line, has no table.
fn no_table_text(
    alloc: Global,
    line: u64,
    name: &Bytes,
    reason: NoTable,
) -> Result<Vec<u8>, AllocError>
    ensures { IfOk result (λ text. text.items ≡ no_table_text line name.now reason) }
{
    let mut text = Vec::new(alloc);
    let digits = line.to_string(alloc)?;
    put("line ", &mut text)?;
    put(digits.as_str(), &mut text)?;
    put(": ", &mut text)?;
    quote(alloc, name.as_slice(), &mut text)?;
    put(": ", &mut text)?;
    put(no_table_words(reason), &mut text)?;
    Ok(text)
}

/// Writes one line about the file at a path, with this text, on `errors`, or that no memory was found for it.
#[tactic(auto, using(crate::proofs::Reported::text_told, crate::proofs::Reported::memory_told))]
fn tell_text<E: Write>(alloc: Global, path: &str, text: &[u8], errors: &mut Output<'_, E>) -> Status
    ensures { AfterLine path.now (λ told. told ≡ text.now) (output_device E.contents errors.old)
        (output_device E.contents errors.new) result }
{
    let mut line = Vec::new(alloc);
    match put_line(path, text, &mut line) {
        Ok(()) => {
            errors.put_lines(line.as_slice());
            Status::Refused
        }
        Err(_) => Fault::Memory.report(errors),
    }
}

/// Writes why a world file cannot say the catalogue of this name as one line about the file at a path on `errors`.
#[tactic(auto, using(crate::proofs::Converted::made_told, crate::proofs::Reported::memory_told))]
fn report_unsaid<E: Write>(
    alloc: Global,
    path: &str,
    name: &Bytes,
    reason: Unsaid,
    errors: &mut Output<'_, E>,
) -> Status
    ensures { AfterLine path.now (λ text. text ≡ unsaid_text name.now reason) (output_device E.contents errors.old)
        (output_device E.contents errors.new) result }
{
    match unsaid_text(alloc, name, reason) {
        Ok(text) => tell_text(alloc, path, text.as_slice(), errors),
        Err(_) => Fault::Memory.report(errors),
    }
}

/// Writes why a question has no table as one line about the file at a path on `errors`.
#[tactic(auto, using(crate::proofs::Converted::made_told, crate::proofs::Reported::memory_told))]
fn report_no_table<E: Write>(
    alloc: Global,
    path: &str,
    line: u64,
    name: &Bytes,
    reason: NoTable,
    errors: &mut Output<'_, E>,
) -> Status
    ensures { AfterLine path.now (λ text. text ≡ no_table_text line name.now reason)
        (output_device E.contents errors.old) (output_device E.contents errors.new) result }
{
    match no_table_text(alloc, line, name, reason) {
        Ok(text) => tell_text(alloc, path, text.as_slice(), errors),
        Err(_) => Fault::Memory.report(errors),
    }
}

/// Writes why the file at a path is not converted as one line on `errors`, and returns the status.
fn report<E: Write>(
    alloc: Global,
    path: &str,
    fault: &ConversionFault<'_>,
    errors: &mut Output<'_, E>,
) -> Status
    ensures { AfterConversionFault path.now fault.now (output_device E.contents errors.old)
        (output_device E.contents errors.new) result }
{
    match fault {
        ConversionFault::Union(fault) => fault.report(alloc, path, errors),
        ConversionFault::Unsaid { name, reason } => {
            report_unsaid(alloc, path, name, *reason, errors)
        }
        ConversionFault::NoTable { line, name, reason } => {
            report_no_table(alloc, path, *line, name, *reason, errors)
        }
    }
}

/// Prints the text that was made of the file at a path, or says why there is none.
fn conclude<'a, 'o: 'a, W: Write, E: Write>(
    alloc: Global,
    path: &'a str,
    text: Result<Vec<u8>, ConversionFault<'a>>,
    output: &mut Output<'o, W>,
    errors: &mut Output<'_, E>,
) -> Status
    ensures { AfterConversion path.entry.now (made_text (λ t. t.items) text.entry)
        (outputs W.contents E.contents output.old errors.old)
        (outputs W.contents E.contents output.new errors.new) result }
{
    match text {
        Ok(text) => {
            let put = put_text(output, text.as_slice());
            end(put, errors)
        }
        Err(fault) => report(alloc, path, &fault, errors),
    }
}

/// Prints the world file of what the search of the options asks of the catalogues of the file at a path. Waiting times
/// are not said there.
///
/// If the file or the search is refused, as by `union_at`, or a world file cannot say a catalogue, writes one line on
/// `errors` and prints nothing. The status is then `Refused`.
pub fn world_of_catalogues<'a, 'o: 'a, F: Folder, W: Write, E: Write>(
    alloc: Global,
    files: &F,
    path: &'a str,
    search: &SearchOptions<'a>,
    output: &mut Output<'o, W>,
    errors: &mut Output<'_, E>,
) -> Status
    ensures { AfterWorldOf path.entry.now (F.octets files.now path.entry.now) search.now
        (outputs W.contents E.contents output.old errors.old)
        (outputs W.contents E.contents output.new errors.new) result }
{
    let text = world_text(alloc, files, path, search);
    conclude(alloc, path, text, output, errors)
}

/// Prints the file of catalogues of the world file at a path.
///
/// If a line of it is refused, or a question has no table, writes one line on `errors` and prints nothing. The status
/// is then `Refused`.
pub fn catalogues_of_world<'a, 'o: 'a, F: Folder, W: Write, E: Write>(
    alloc: Global,
    files: &F,
    path: &'a str,
    output: &mut Output<'o, W>,
    errors: &mut Output<'_, E>,
) -> Status
    ensures { AfterCataloguesOf path.entry.now (F.octets files.now path.entry.now)
        (outputs W.contents E.contents output.old errors.old)
        (outputs W.contents E.contents output.new errors.new) result }
{
    let text = table_text_at(alloc, files, path);
    conclude(alloc, path, text, output, errors)
}
