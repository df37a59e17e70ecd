//! The union of the catalogues of a file, as a search by options asks it.

ghost use Rattle.std.specs.Prelude.{◌≡◌, ℕ, ◌<◌, ◌^◌, List, length, map, IfOk, IfErr, IfSome};
ghost use Rattle.zmeta_world.specs.InMemoryRuns.{IsFit};
ghost use Rattle.zmeta_catalogue_files.specs.Unions.{waits_of, set_of, charset_of, of_asking, AskedResult, UnionOfResult, UnionInResult, UnionResult, IsOfUnion};

use crate::options::world_of;
use crate::paths::octets_at;
use crate::refusal::UnionFault;
use std::alloc::{AllocError, Global};
use zmarc::Charset as RecordCharset;
use zmeta_args::SearchOptions;
use zmeta_catalogues::{AskError, Catalogue, Catalogues, Charset, read_catalogues};
use zmeta_devices::fault::Fault;
use zmeta_devices::files::Folder;
use zmeta_world::world::World;

/// How long a catalogue is waited for, in seconds, 1 to 3,600. `None` where its file does not say.
#[derive(Clone, Copy, PartialEq, Eq)]
pub struct CatalogueWaits {
    /// How long connecting may take.
    pub connect: Option<u32>,
    /// How long it may be silent.
    pub patience: Option<u32>,
}

/// The catalogues of a file, as a search asks them.
#[derive(Drop)]
pub struct Union {
    /// The world: each catalogue is a host, with one question, in the order of their lines in the file.
    pub world: World,
    /// The waits of each catalogue, in the same order.
    pub waits: Vec<CatalogueWaits>,
    /// The set of characters of each catalogue's records, in the same order. `None` where the file gives none.
    pub charsets: Vec<Option<RecordCharset>>,
}

/// Returns the waits of each catalogue, in order.
fn waits_of(alloc: Global, catalogues: &[Catalogue]) -> Result<Vec<CatalogueWaits>, AllocError>
    ensures { IfOk result (λ waits. waits.items ≡ map waits_of catalogues.now) }
{
    let mut waits = Vec::new(alloc);
    for catalogue in catalogues {
        waits.push(CatalogueWaits {
            connect: catalogue.settings.connect,
            patience: catalogue.settings.patience,
        })?;
    }
    Ok(waits)
}

/// Returns the set of characters that records in this charset are read in.
fn set_of(charset: Charset) -> RecordCharset
    ensures { result ≡ set_of charset }
{
    match charset {
        Charset::Utf8 => RecordCharset::Utf8,
        Charset::Latin1 => RecordCharset::Latin1,
    }
}

/// Returns the set of characters that the records of a catalogue are read in, if its file gives one.
fn charset_of(catalogue: &Catalogue) -> Option<RecordCharset>
    ensures { result ≡ charset_of catalogue.now }
{
    match catalogue.settings.charset {
        Some(charset) => Some(set_of(charset)),
        None => None,
    }
}

/// Returns that of each catalogue, in order.
fn charsets_of(
    alloc: Global,
    catalogues: &[Catalogue],
) -> Result<Vec<Option<RecordCharset>>, AllocError>
    ensures { IfOk result (λ charsets. charsets.items ≡ map charset_of catalogues.now) }
{
    let mut charsets = Vec::new(alloc);
    for catalogue in catalogues {
        charsets.push(charset_of(catalogue))?;
    }
    Ok(charsets)
}

/// Returns the fault for a search that cannot be put to the catalogues, with the text of the option that is at fault.
fn of_asking<'a>(options: &SearchOptions<'a>, error: AskError) -> UnionFault<'a>
    ensures { result ≡ of_asking options.now error }
{
    match error {
        AskError::Query { kind, at } => UnionFault::Fault(Fault::Query {
            kind,
            at,
            text: options.query,
        }),
        AskError::Records => UnionFault::Fault(Fault::Wanted(options.records)),
        AskError::Syntax => UnionFault::Fault(Fault::Syntax(options.syntax)),
        AskError::Memory => UnionFault::Fault(Fault::Memory),
        error => UnionFault::Unasked(error),
    }
}

/// Returns the world that the search of the options asks of catalogues, or why it cannot be put to them.
#[tactic(auto, using(crate::proofs::Faults::not_asked, crate::proofs::Faults::asking_fault))]
fn asked_world<'a>(
    alloc: Global,
    file: &Catalogues,
    options: &SearchOptions<'a>,
) -> Result<World, UnionFault<'a>>
    requires { length file.now.list < 2 ^ 32 }
    ensures says { AskedResult options.now file.now.list result }
    ensures fit { IfOk result IsFit }
    ensures path { (path : List ℕ) → IfErr result (IsOfUnion path) }
{
    match world_of(alloc, file, options) {
        Ok(world) => Ok(world),
        Err(error) => Err(of_asking(options, error)),
    }
}

/// Returns the union of catalogues, or why the search of the options cannot be put to them.
#[tactic(auto, using(crate::proofs::Files::union_not_asked, crate::proofs::Faults::asking_fault))]
fn union_of<'a>(
    alloc: Global,
    file: &Catalogues,
    options: &SearchOptions<'a>,
) -> Result<Union, UnionFault<'a>>
    requires { length file.now.list < 2 ^ 32 }
    ensures says { UnionOfResult options.now file.now.list result }
    ensures fit { IfOk result (λ union. IsFit union.world) }
    ensures path { (path : List ℕ) → IfErr result (IsOfUnion path) }
{
    match asked_world(alloc, file, options) {
        Ok(world) => match waits_of(alloc, file.list.as_slice()) {
            Ok(waits) => match charsets_of(alloc, file.list.as_slice()) {
                Ok(charsets) => Ok(Union {
                    world,
                    waits,
                    charsets,
                }),
                Err(_) => Err(of_asking(options, AskError::Memory)),
            },
            Err(_) => Err(of_asking(options, AskError::Memory)),
        },
        Err(fault) => Err(fault),
    }
}

/// Returns the union of the catalogues of a file with these octets.
#[tactic(auto, using(crate::proofs::Files::made_unions))]
fn union_in<'a>(
    alloc: Global,
    octets: &[u8],
    options: &SearchOptions<'a>,
) -> Result<Union, UnionFault<'a>>
    ensures says { UnionInResult octets.now options.now result }
    ensures fit { IfOk result (λ union. IsFit union.world) }
    ensures path { (path : List ℕ) → IfErr result (IsOfUnion path) }
{
    match read_catalogues(alloc, octets) {
        Ok(file) => union_of(alloc, &file, options),
        Err(error) => Err(UnionFault::from(error)),
    }
}

/// Reads the file of catalogues at a path, and returns the world that the search of the options asks of its catalogues,
/// which can be planned by `network`, with their waits and the sets of characters of their records.
///
/// The faults: `Fault(Read)` if the file cannot be read; `Refused` if it is refused; `Fault` of an option whose text is
/// refused as it is: `Query`, `Wanted`, `Syntax`; `Unasked` if the search cannot be put to a catalogue for another
/// reason; `Fault(Memory)` if no memory is found.
#[tactic(auto, using(crate::proofs::Files::read_unions))]
pub fn union_at<'a, F: Folder>(
    alloc: Global,
    files: &F,
    path: &'a str,
    search: &SearchOptions<'a>,
) -> Result<Union, UnionFault<'a>>
    ensures says { IfSome (F.octets files.now path.entry.now) (λ octets. UnionResult octets search.now result) }
    ensures fit { IfOk result (λ union. IsFit union.world) }
    ensures path { IfErr result (IsOfUnion path.entry.now) }
{
    match octets_at(alloc, files, path) {
        Ok(octets) => union_in(alloc, octets.as_slice(), search),
        Err(fault) => Err(UnionFault::Fault(fault)),
    }
}
