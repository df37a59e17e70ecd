//! The command `loop`: as `run`, but over TCP on 127.0.0.1.

ghost use Rattle.std.specs.Prelude.{IfOk, IfErr, IfSome};
ghost use Rattle.std.specs.Option.{option_map};
ghost use Rattle.zmeta_devices.specs.Devices.{outputs};
ghost use Rattle.zmeta_devices.specs.Files.{folder};
ghost use Rattle.zmeta_commands.specs.Finished.{HasNames};
ghost use Rattle.zmeta_searches.specs.Searches.{search_of};
ghost use Rattle.zmeta_commands.specs.Loop.{IsOfNetwork, IsOfLoop, IsListedLoop, LoopFileResult, AfterLoop};
ghost use Rattle.zmeta_world.specs.InMemoryRuns.{CanBeRun};

use crate::begun::begin_saving;
use crate::finished::{Finished, ListTerms, Paths, conclude};
use crate::run::read_in_memory;
use crate::serve::fault_of;
use std::alloc::Global;
use std::io::Write;
use std::net::Net;
use zmeta_args::{SearchOptions, View};
use zmeta_devices::fault::{Fault, Status, end};
use zmeta_devices::files::Folder;
use zmeta_devices::output::Output;
use zmeta_world::in_memory::InMemoryRun;
use zoom::{Limits, run_loopback};

/// Puts the questions of a world file to its targets, as `run_named` does, but each connection goes over TCP on
/// 127.0.0.1, with both of its ends in this process. The moves of the file are ignored.
///
/// `search`, `view` and the path `saved` mean what they mean in `run_named`, and so does the status. If a connection
/// cannot be made, prints nothing and writes the reason on `errors`.
pub fn loop_named<'a, 'o: 'a, S: Folder + Net, W: Write, E: Write>(
    alloc: Global,
    system: &mut S,
    paths: Paths<'a>,
    search: &SearchOptions<'a>,
    view: View<'_>,
    output: &mut Output<'o, W>,
    errors: &mut Output<'_, E>,
) -> Status
    ensures { AfterLoop S.Stream (search_of search.now) view.entry paths.entry.world.now
        (option_map (λ path. path.now) paths.entry.saved) (S.octets system.old paths.entry.world.now)
        (folder S.octets S.are_one S.steps system.old) (folder S.octets S.are_one S.steps system.new)
        (outputs W.contents E.contents output.old errors.old)
        (outputs W.contents E.contents output.new errors.new) result }
{
    let saving = match begin_saving(system, paths.world, paths.saved) {
        Ok(saving) => saving,
        Err(fault) => return end(Err(fault), errors),
    };
    let asked = loop_file(alloc, system, paths.world, search, view);
    conclude(alloc, system, asked, saving, output, errors)
}

/// Runs the world of the file at a path.
fn loop_file<'a, S: Folder + Net>(
    alloc: Global,
    system: &S,
    path: &'a str,
    search: &SearchOptions<'a>,
    view: View<'_>,
) -> Result<Finished, Fault<'a>>
    ensures ran { IfSome (S.octets system.now path.entry.now)
        (λ octets. LoopFileResult S.Stream (search_of search.now) view.entry octets result) }
    ensures names { IfOk result HasNames }
    ensures fault { IfErr result (IsOfLoop path.entry.now) }
{
    let run = read_in_memory(alloc, system, path, search)?;
    loop_in_memory(alloc, system, run, view)
}

/// Runs a planned world, and makes its list.
fn loop_in_memory<'a, N: Net>(
    alloc: Global,
    net: &N,
    run: InMemoryRun,
    view: View<'_>,
) -> Result<Finished, Fault<'a>>
    requires { CanBeRun run }
    ensures run { IfOk result (IsListedLoop N.Stream view.entry run) }
    ensures names { IfOk result HasNames }
    ensures network { IfErr result IsOfNetwork }
{
    let InMemoryRun {
        questions,
        settings,
        targets,
        names,
        moves: _,
    } = run;
    let meta = match run_loopback(
        alloc,
        net,
        questions.into_vec(),
        settings,
        targets.into_vec(),
    ) {
        Ok(meta) => meta,
        Err(error) => return Err(fault_of(error)),
    };
    let limits = Limits::default();
    let terms = ListTerms {
        view,
        waits: &[],
        charsets: &[],
    };
    Ok(Finished::new(alloc, meta, names, Vec::new(alloc), &[], &limits, terms)?)
}
