//! The command `run`: puts the questions of a world file to its targets in memory.

ghost use Rattle.std.specs.Prelude.{◌≡◌, ◌<◌, ◌^◌, length, IfOk, IfErr, IfSome};
ghost use Rattle.std.specs.Option.{option_map};
ghost use Rattle.zoom.specs.Askable.{AreFit, AreAskable};
ghost use Rattle.zoom.specs.NewTargets.{AreNew};
ghost use Rattle.zoom.specs.Run.{IsRun};
ghost use Rattle.zoom.specs.RunMade.{IsMovedRunInMemory};
ghost use Rattle.zoom.specs.RunRounds.{IsCompleteRun};
ghost use Rattle.zmeta_devices.specs.Devices.{outputs};
ghost use Rattle.zmeta_devices.specs.Files.{folder};
ghost use Rattle.zmeta_commands.specs.Finished.{HasNames, IsOfSearchedWorld};
ghost use Rattle.zmeta_world.specs.InMemoryRuns.{CanBeRun};
ghost use Rattle.zmeta_searches.specs.Searches.{search_of};
ghost use Rattle.zmeta_commands.specs.Run.{ReadInMemoryResult, IsCompleteListedRun, RunFileResult, AfterRun};

use crate::begun::begin_saving;
use crate::finished::{Finished, ListTerms, NAME, Paths, conclude};
use crate::worlds::world_at;
use bytes::Bytes;
use std::alloc::{AllocError, Global};
use std::io::Write;
use zmeta_args::{SearchOptions, View};
use zmeta_devices::fault::{Fault, Status, end};
use zmeta_devices::files::Folder;
use zmeta_devices::output::Output;
use zmeta_world::in_memory::InMemoryRun;
use zoom::{InMemory, Limits, Meta, MetaSettings, Move, Question, run_over};
use ztarget::Target;

/// Puts the questions of a world file to its targets in memory, and prints what is known: as the list, the view for
/// readers or lines of JSON, as `view` says. If `search` has a query, wanted positions, an element set or a syntax, it
/// replaces that of every question.
///
/// Writes a line on `errors` for each connection that failed. If `paths` has a path `saved`, then makes one file
/// there, the saved file of the facts, and returns `Done` or `Failed` only if it holds them all. Changes no other file.
/// If nothing is printed or not all is saved, writes the reason on `errors`; nothing is done if no draft of that file
/// can be begun, or if it is the world file.
///
/// Returns `Refused` if a file or a stream failed, `errors` too. Else returns `Failed` if a search, an association or a
/// connection failed, a target closed a connection first, or a question was not asked.
pub fn run_named<'a, 'o: 'a, F: Folder, W: Write, E: Write>(
    alloc: Global,
    files: &mut F,
    paths: Paths<'a>,
    search: &SearchOptions<'a>,
    view: View<'_>,
    output: &mut Output<'o, W>,
    errors: &mut Output<'_, E>,
) -> Status
    ensures { AfterRun (search_of search.now) view.entry paths.entry.world.now
        (option_map (λ path. path.now) paths.entry.saved) (F.octets files.old paths.entry.world.now)
        (folder F.octets F.are_one F.steps files.old) (folder F.octets F.are_one F.steps files.new)
        (outputs W.contents E.contents output.old errors.old)
        (outputs W.contents E.contents output.new errors.new) result }
{
    let saving = match begin_saving(files, paths.world, paths.saved) {
        Ok(saving) => saving,
        Err(fault) => return end(Err(fault), errors),
    };
    let asked = run_file(alloc, files, paths.world, search, view);
    conclude(alloc, files, asked, saving, output, errors)
}

/// Runs the world of the file at a path.
fn run_file<'a, F: Folder>(
    alloc: Global,
    files: &F,
    path: &'a str,
    search: &SearchOptions<'a>,
    view: View<'_>,
) -> Result<Finished, Fault<'a>>
    ensures ran { IfSome (F.octets files.now path.entry.now)
        (λ octets. RunFileResult (search_of search.now) view.entry octets result) }
    ensures names { IfOk result HasNames }
    ensures fault { IfErr result (IsOfSearchedWorld path.entry.now) }
{
    let run = read_in_memory(alloc, files, path, search)?;
    Ok(run_in_memory(alloc, run, view)?)
}

/// Reads the file at a path, puts the search to its questions, and plans an in-memory run of its world.
pub(crate) fn read_in_memory<'a, F: Folder>(
    alloc: Global,
    files: &F,
    path: &'a str,
    search: &SearchOptions<'a>,
) -> Result<InMemoryRun, Fault<'a>>
    ensures in_memory_run { IfSome (F.octets files.now path.entry.now)
        (λ octets. ReadInMemoryResult (search_of search.now) octets result) }
    ensures fit { IfOk result CanBeRun }
    ensures fault { IfErr result (IsOfSearchedWorld path.entry.now) }
{
    let world = world_at(alloc, files, path, search)?;
    let name = Bytes::copy_from_slice(alloc, NAME)?;
    Ok(world.in_memory(alloc, name)?)
}

/// Makes these moves, and then puts each question to its target, within memory.
fn run_all(
    alloc: Global,
    questions: Vec<Question>,
    settings: MetaSettings,
    targets: Vec<Target>,
    moves: &[Move],
) -> Result<Meta, AllocError>
    requires some { length questions.items < 2 ^ 32 }
    requires askable { AreAskable questions.items }
    requires fit { AreFit settings }
    requires new { AreNew targets.items }
    requires equal { length targets.items ≡ length questions.items }
    ensures is_run { IfOk result (λ meta. IsRun questions.items settings targets.items meta) }
    ensures moved { IfOk result
        (λ meta. IsMovedRunInMemory questions.items settings targets.items moves.now meta) }
    ensures whole { IfOk result (λ meta. IsCompleteRun questions.items settings targets.items meta) }
    ensures size { IfOk result (λ meta. length meta.pool.connections ≡ length questions.items) }
{
    run_over(alloc, questions, settings, targets, &mut InMemory, moves)
}

/// Runs a planned world, and makes its list.
fn run_in_memory(alloc: Global, run: InMemoryRun, view: View<'_>) -> Result<Finished, AllocError>
    requires { CanBeRun run }
    ensures run { IfOk result (IsCompleteListedRun view.entry run) }
    ensures names { IfOk result HasNames }
{
    let InMemoryRun {
        questions,
        settings,
        targets,
        names,
        moves,
    } = run;
    let meta = run_all(
        alloc,
        questions.into_vec(),
        settings,
        targets.into_vec(),
        moves.as_slice(),
    )?;
    let limits = Limits::default();
    let terms = ListTerms {
        view,
        waits: &[],
        charsets: &[],
    };
    Finished::new(alloc, meta, names, Vec::new(alloc), &[], &limits, terms)
}
