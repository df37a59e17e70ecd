//! Reads world files for the commands.

ghost use Rattle.std.specs.Prelude.{◌≡◌, ◌<◌, ◌^◌, length, IfOk, IfErr, IfSome};
ghost use Rattle.zmeta_world.specs.InMemoryRuns.{IsFit};
ghost use Rattle.zmeta_commands.specs.Finished.{IsOfFile, IsOfTexts, IsOfWorld, IsOfSearchedWorld};
ghost use Rattle.zmeta_world.specs.Search.{search_texts};
ghost use Rattle.zmeta_searches.specs.Searches.{search_of};
ghost use Rattle.zmeta_commands.specs.Worlds.{WorldResult, SearchedResult, PlanResult, told_of};

use crate::finished::NAME;
use bytes::Bytes;
use std::alloc::Global;
use zmeta_args::SearchOptions;
use zmeta_devices::fault::Fault;
use zmeta_devices::files::{Folder, file_at};
use zmeta_devices::input::Input;
use zmeta_devices::readable::Readable;
use zmeta_searches::copy_search;
use zmeta_world::network::NetworkRun;
use zmeta_world::search::Search;
use zmeta_world::world::{World, read_world};

/// Reads the world of a file.
pub(crate) fn world_in<'a, R: Readable>(
    alloc: Global,
    file: &mut Input<'a, R>,
) -> Result<World, Fault<'a>>
    ensures world { IfSome (R.remaining file.old.reader) (λ octets. WorldResult octets result) }
    ensures fit { IfOk result IsFit }
    ensures fault { IfErr result (IsOfWorld file.old.path.now) }
{
    let octets = file.read_all(alloc)?;
    Ok(read_world(alloc, octets.as_slice())?)
}

/// Reads the world of a file, and puts a search to every question.
fn searched_world<'a, R: Readable>(
    alloc: Global,
    file: &mut Input<'a, R>,
    search: &Search<'_>,
) -> Result<World, Fault<'a>>
    ensures world { IfSome (R.remaining file.old.reader)
        (λ octets. SearchedResult (search_texts search.now) octets result) }
    ensures fit { IfOk result IsFit }
    ensures fault { IfErr result (IsOfSearchedWorld file.old.path.now) }
{
    let world = world_in(alloc, file)?;
    Ok(world.with_search(alloc, search)?)
}

/// Reads the world of the file at a path, and puts the search of the options to every question. `run`, `ask` and `loop`
/// all begin here.
pub(crate) fn world_at<'a, F: Folder>(
    alloc: Global,
    files: &F,
    path: &'a str,
    search: &SearchOptions<'a>,
) -> Result<World, Fault<'a>>
    ensures world { IfSome (F.octets files.now path.entry.now)
        (λ octets. SearchedResult (search_of search.now) octets result) }
    ensures fit { IfOk result IsFit }
    ensures fault { IfErr result (IsOfSearchedWorld path.entry.now) }
{
    let copy = copy_search(alloc, search)?;
    let mut file = file_at(files, path);
    let answer = searched_world(alloc, &mut file, &copy.texts());
    of_options(search, answer)
}

/// Reads the octets of the file at a path: fewer than 2^32.
pub(crate) fn octets_at<'a, F: Folder>(
    alloc: Global,
    files: &F,
    path: &'a str,
) -> Result<Bytes, Fault<'a>>
    ensures octets { IfOk result (λ octets. IfSome (F.octets files.now path.entry.now) (λ known. octets ≡ known)) }
    ensures short { IfOk result (λ octets. length octets < 2 ^ 32) }
    ensures fault { IfErr result (IsOfFile (F.octets files.now path.entry.now) path.entry.now) }
{
    let octets = file_at(files, path).read_all(alloc)?;
    match Bytes::from_vec(octets) {
        Ok(octets) => Ok(octets),
        Err(_) => Err(Fault::Memory),
    }
}

/// Reads the world of these octets, fewer than 2^32, and puts a search to every question.
pub(crate) fn searched_in<'a>(
    alloc: Global,
    octets: &[u8],
    search: &Search<'_>,
) -> Result<World, Fault<'a>>
    requires { length octets.now < 2 ^ 32 }
    ensures search { SearchedResult (search_texts search.now) octets.now result }
    ensures fit { IfOk result IsFit }
    ensures fault { IfErr result IsOfTexts }
{
    let world = read_world(alloc, octets)?;
    Ok(world.with_search(alloc, search)?)
}

/// Does so for the search of the options, which has these texts.
pub(crate) fn searched_by<'a>(
    alloc: Global,
    octets: &[u8],
    search: &SearchOptions<'a>,
    texts: &Search<'_>,
) -> Result<World, Fault<'a>>
    requires short { length octets.now < 2 ^ 32 }
    requires same { search_texts texts.now ≡ search_of search.now }
    ensures search { SearchedResult (search_of search.now) octets.now result }
    ensures fit { IfOk result IsFit }
    ensures fault { IfErr result IsOfTexts }
{
    let answer = searched_in(alloc, octets, texts);
    of_options(search, answer)
}

/// Plans a network run of a world.
pub(crate) fn plan<'a>(alloc: Global, world: World) -> Result<NetworkRun, Fault<'a>>
    requires { IsFit world }
    ensures { PlanResult world result }
{
    let name = Bytes::copy_from_slice(alloc, NAME)?;
    Ok(world.network(alloc, name)?)
}

/// Returns the result with the text of the option that its fault speaks of.
fn of_options<'a>(
    search: &SearchOptions<'a>,
    answer: Result<World, Fault<'a>>,
) -> Result<World, Fault<'a>>
    ensures { result ≡ told_of search.now answer.entry }
{
    match answer {
        Ok(world) => Ok(world),
        Err(fault) => Err(fault.of_options(search)),
    }
}
