//! The command `replay`: prints again what `ask` printed, from its trace.

ghost use Rattle.std.specs.Prelude.{◌≡◌, ◌||◌, not, length, Ok, Err, IfOk, IfErr, IfSome, MatchResult};
ghost use Rattle.std.specs.Option.{option_map};
ghost use Rattle.zmeta_args.specs.Texts.{texts_of};
ghost use Rattle.zmeta_devices.specs.Devices.{output_device, outputs};
ghost use Rattle.zmeta_devices.specs.Files.{folder};
ghost use Rattle.zmeta_trace.specs.Heads.{head_texts};
ghost use Rattle.zmeta_commands.specs.Ask.{CanBeAsked};
ghost use Rattle.zmeta_commands.specs.Finished.{HasNames};
ghost use Rattle.zmeta_commands.specs.Replay.{AreNames, HeadNetworkResult, ChosenResult, IsChoice, TraceFileResult, ReplayTraceResult, ReplayEntriesResult, ReplayFileResult, AreLimitsBy, IsOfReplay, IsOfTrace, AfterCut, cut_status, fault_of, at_world, AfterReplay};

use crate::begun::begin_saving;
use crate::choice::addresses_of;
use crate::finished::{Finished, ListTerms, conclude};
use crate::worlds::{octets_at, plan, searched_in};
use bytes::Bytes;
use std::alloc::{AllocError, Global};
use std::io::Write;
use std::time::Duration;
use zmeta_args::View;
use zmeta_devices::fault::{Fault, Status, end};
use zmeta_devices::files::Folder;
use zmeta_devices::output::Output;
use zmeta_trace::{Begun, Head, Replayed, read_head, replay};
use zmeta_world::network::NetworkRun;
use zoom::{Family, Limits, Trace, TraceError, read_trace};

/// The line of a trace that has the world file.
const WORLD_LINE: u64 = 2;

/// A world file has fewer octets.
const TOO_LARGE: u64 = 1 << 32;

/// What is told of a trace that ends before all was over.
const CUT: &[u8] = b"zmeta: the trace is cut off\n";

/// Finished connections of a trace.
struct Playback {
    finished: Finished,
    /// Whether the trace ends before all was over.
    is_cut: bool,
}

/// The paths of a replay.
#[derive(Clone, Copy)]
pub struct ReplayPaths<'a> {
    /// The path of the trace.
    pub trace: &'a str,
    /// The path of the saved file, if the facts are to be saved.
    pub saved: Option<&'a str>,
}

/// Prints what is known of the hosts after what the trace at a path says was reported, as `ask_named` prints it, and
/// saves it if there is a path `saved`. Nobody is asked.
///
/// If the trace ends within a line, or before each connection was over, says so on `errors`, and the status is `Failed`
/// where it would be `Done`.
///
/// `Line` with its number if a line of the trace is refused: it is none that `ask` writes, is out of place in the head,
/// or speaks of a connection that is not there. Line 2, which has the world file, is refused also if the head makes no
/// search: the world file is refused, or has 2^32 octets or more; or what is put to its questions is refused; or no
/// question has a name that was chosen.
/// Nothing is printed then, nor if no draft of the file at `saved` can be begun, or if that is the trace.
pub fn replay_named<'a, 'o: 'a, F: Folder, W: Write, E: Write>(
    alloc: Global,
    files: &mut F,
    paths: ReplayPaths<'a>,
    view: View<'_>,
    output: &mut Output<'o, W>,
    errors: &mut Output<'_, E>,
) -> Status
    ensures { AfterReplay view.entry paths.entry.trace.now (option_map (λ path. path.now) paths.entry.saved)
        (F.octets files.old paths.entry.trace.now)
        (folder F.octets F.are_one F.steps files.old) (folder F.octets F.are_one F.steps files.new)
        (outputs W.contents E.contents output.old errors.old)
        (outputs W.contents E.contents output.new errors.new) result }
{
    let saving = match begin_saving(files, paths.trace, paths.saved) {
        Ok(saving) => saving,
        Err(fault) => return end(Err(fault), errors),
    };
    match replay_file(alloc, files, paths.trace, view) {
        Ok(replay) => {
            let Playback { finished, is_cut } = replay;
            tell_cut(is_cut, errors);
            let status = conclude(alloc, files, Ok(finished), saving, output, errors);
            cut_status(is_cut, status)
        }
        Err(fault) => conclude(alloc, files, Err(fault), saving, output, errors),
    }
}

/// Says that the trace is cut off, if it is.
fn tell_cut<E: Write>(is_cut: bool, errors: &mut Output<'_, E>)
    ensures { AfterCut is_cut (output_device E.contents errors.old) (output_device E.contents errors.new) }
{
    if is_cut {
        errors.put_lines(CUT);
    }
}

/// The status of a replay that would end with this one, by whether the trace is cut off.
fn cut_status(is_cut: bool, status: Status) -> Status
    ensures { result ≡ cut_status is_cut status }
{
    match status {
        Status::Done if is_cut => Status::Failed,
        other => other,
    }
}

/// Replays the trace of the file at a path.
#[tactic(auto, using(crate::proofs::Replaying::file_faults))]
fn replay_file<'a, F: Folder>(
    alloc: Global,
    files: &F,
    path: &'a str,
    view: View<'_>,
) -> Result<Playback, Fault<'a>>
    ensures replayed { IfSome (F.octets files.now path.entry.now)
        (λ octets. ReplayFileResult view.entry octets result) }
    ensures names { IfOk result (λ replay. HasNames replay.finished) }
    ensures fault { IfErr result (IsOfReplay path.entry.now) }
{
    let octets = octets_at(alloc, files, path)?;
    let trace = trace_in(alloc, octets.as_slice())?;
    drop(octets);
    replay_trace(alloc, &trace, view)
}

/// Returns the fault of a trace that is refused.
pub(crate) fn fault_of<'a>(error: TraceError) -> Fault<'a>
    ensures { result ≡ fault_of error }
{
    match error {
        TraceError::Refused { line } => Fault::Line(line),
        TraceError::Memory => Fault::Memory,
    }
}

/// Reads the trace in octets.
pub(crate) fn trace_in<'a>(alloc: Global, octets: &[u8]) -> Result<Trace, Fault<'a>>
    ensures { TraceFileResult octets.now result }
{
    match read_trace(alloc, octets) {
        Ok(trace) => Ok(trace),
        Err(error) => Err(fault_of(error)),
    }
}

/// Returns the names as texts. `None` if one is not UTF-8.
fn names_of<'t>(alloc: Global, only: &[&'t [u8]]) -> Result<Option<Vec<&'t str>>, AllocError>
    ensures { IfOk result (λ names. AreNames (texts_of only.now) (option_map (λ names. texts_of names.items) names)) }
{
    let mut names = Vec::new(alloc);
    for name in only {
        let Ok(name) = str::from_utf8(*name) else {
            return Ok(None);
        };
        names.push(name)?;
    }
    Ok(Some(names))
}

/// Plans the network run of a head. `Line(2)` if it has none, or if its world file has 2^32 octets or more.
#[tactic(auto, using(crate::proofs::Replaying::head_plans))]
pub(crate) fn network_of<'a>(alloc: Global, head: &Head<'_>) -> Result<NetworkRun, Fault<'a>>
    ensures network { HeadNetworkResult (head_texts head.now) result }
    ensures fit { IfOk result CanBeAsked }
{
    if head.world.len() as u64 >= TOO_LARGE {
        return Err(Fault::Line(WORLD_LINE));
    }
    let searched = match searched_in(alloc, head.world, &head.search) {
        Ok(world) => world,
        Err(fault) => return Err(at_world(fault)),
    };
    match plan(alloc, searched) {
        Ok(network) => Ok(network),
        Err(fault) => Err(at_world(fault)),
    }
}

/// Returns the fault of the line that has the world file, but `Memory` as it is.
fn at_world<'a>(fault: Fault<'_>) -> Fault<'a>
    ensures { result ≡ at_world fault.entry }
{
    match fault {
        Fault::Memory => Fault::Memory,
        _ => Fault::Line(WORLD_LINE),
    }
}

/// Returns the addresses of the chosen questions. `Line(2)` if no question has a name that was chosen.
#[tactic(auto, using(crate::proofs::Replaying::no_choice))]
pub(crate) fn chosen_in<'a>(
    alloc: Global,
    only: &[&[u8]],
    names: &[Bytes],
    addresses: &[Bytes],
) -> Result<Vec<Option<Bytes>>, Fault<'a>>
    requires { length names.now ≡ length addresses.now }
    ensures { MatchResult result (λ chosen. ChosenResult (texts_of only.now) names.now addresses.now
        (Ok chosen.items))
        (λ fault. ChosenResult (texts_of only.now) names.now addresses.now (Err fault)) }
{
    let Some(texts) = names_of(alloc, only)? else {
        return Err(Fault::Line(WORLD_LINE));
    };
    match addresses_of(alloc, texts.as_slice(), names, addresses) {
        Ok(chosen) => Ok(chosen),
        Err(fault) => Err(at_world(fault)),
    }
}

/// Returns the limits that a head says. Which addresses were used is not said, and does not matter here.
fn limits_by(begun: &Begun) -> Limits
    ensures { AreLimitsBy begun.now result }
{
    Limits {
        connect: Duration::from_nanos(begun.connect),
        patience: Duration::from_nanos(begun.patience),
        total: match begun.total {
            Some(total) => Some(Duration::from_nanos(total)),
            None => None,
        },
        family: Family::Any,
    }
}

/// Replays a trace.
#[tactic(auto, using(crate::proofs::Replaying::entries_replayed, crate::proofs::Replaying::head_unplanned))]
fn replay_trace<'a>(alloc: Global, trace: &Trace, view: View<'_>) -> Result<Playback, Fault<'a>>
    ensures replayed { ReplayTraceResult view.entry trace.now result }
    ensures names { IfOk result (λ replay. HasNames replay.finished) }
    ensures fault { IfErr result IsOfTrace }
{
    let head = match read_head(alloc, trace.entries.as_slice()) {
        Ok(head) => head,
        Err(error) => return Err(fault_of(error)),
    };
    match network_of(alloc, &head) {
        Ok(network) => replay_network(alloc, trace, &head, network, view),
        Err(fault) => Err(fault),
    }
}

/// Replays a trace with this head, whose world has this plan.
fn replay_network<'a>(
    alloc: Global,
    trace: &Trace,
    head: &Head<'_>,
    network: NetworkRun,
    view: View<'_>,
) -> Result<Playback, Fault<'a>>
    requires { CanBeAsked network }
    ensures replayed { ReplayEntriesResult view.entry trace.now (head_texts head.now) network result }
    ensures names { IfOk result (λ replay. HasNames replay.finished) }
    ensures fault { IfErr result IsOfTrace }
{
    let names = network.names.as_slice();
    let addresses = network.addresses.as_slice();
    match chosen_in(alloc, head.only.as_slice(), names, addresses) {
        Ok(chosen) => replay_chosen(alloc, trace, head, network, chosen, view),
        Err(fault) => Err(fault),
    }
}

/// Whether a trace is cut off: it ends within a line, or before all was over.
fn is_cut(trace: &Trace, is_over: bool) -> bool
    ensures { result ≡ trace.now.is_cut || not is_over }
{
    trace.is_cut || !is_over
}

/// Replays a trace with this head, whose world has this plan, with these addresses of the chosen questions.
fn replay_chosen<'a>(
    alloc: Global,
    trace: &Trace,
    head: &Head<'_>,
    network: NetworkRun,
    chosen: Vec<Option<Bytes>>,
    view: View<'_>,
) -> Result<Playback, Fault<'a>>
    requires fit { CanBeAsked network }
    requires chosen { IsChoice (head_texts head.now) network chosen.items }
    ensures replayed { ReplayEntriesResult view.entry trace.now (head_texts head.now) network result }
    ensures names { IfOk result (λ replay. HasNames replay.finished) }
    ensures fault { IfErr result IsOfTrace }
{
    let NetworkRun {
        questions,
        settings,
        addresses: _,
        names,
    } = network;
    let begun = &head.begun;
    let replayed = match replay(
        alloc,
        trace.entries.as_slice(),
        begun,
        questions.into_vec(),
        settings,
        chosen.as_slice(),
    ) {
        Ok(replayed) => replayed,
        Err(error) => return Err(fault_of(error)),
    };
    let Replayed {
        meta,
        notices,
        is_over,
    } = replayed;
    let limits = limits_by(begun);
    let terms = ListTerms {
        view,
        waits: &[],
        charsets: &[],
    };
    let finished = Finished::new(
        alloc,
        meta,
        names,
        chosen,
        notices.as_slice(),
        &limits,
        terms,
    )?;
    Ok(Playback {
        finished,
        is_cut: is_cut(trace, is_over),
    })
}
