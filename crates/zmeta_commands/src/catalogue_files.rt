//! The command `ask` for a file of catalogues: puts one search to all of them.

ghost use Rattle.std.specs.Prelude.{◌≡◌, IfOk, IfErr, IfSome, None};
ghost use Rattle.std.specs.Option.{option_map};
ghost use Rattle.zmeta_catalogue_files.specs.declared.refusal.UnionFault.TheVariants as unions;
ghost use Rattle.zmeta_devices.specs.Devices.{output_device, outputs};
ghost use Rattle.zmeta_devices.specs.Files.{folder};
ghost use Rattle.zmeta_offline.specs.Saved.{IsBegunIf, saving_path};
ghost use Rattle.zmeta_commands.specs.Ask.{CanBeAsked};
ghost use Rattle.zmeta_commands.specs.CatalogueFiles.{own_seconds, IsSpan, IsOwnWait, AreOwnWaits, PlanUnionResult, AskUnionResult, IsOfUnionPlan, IsOfUnionAsk, AfterUnionAsked, AfterUnionAsk, trace_line, AfterTraceRefused};
ghost use Rattle.zmeta_commands.specs.Choice.{choice_texts};
ghost use Rattle.zmeta_commands.specs.Finished.{HasNames};

use crate::ask::{Answered, AskOptions, HostTerms, ask_chosen, chosen_of};
use crate::begun::{begin_saving, discard};
use crate::choice::seconds;
use crate::finished::{Finished, ListTerms, conclude};
use crate::worlds::plan;
use std::alloc::{AllocError, Global};
use std::io::Write;
use std::net::Net;
use std::time::{Clock, Duration};
use zmarc::Charset;
use zmeta_args::{LimitOptions, SearchOptions};
use zmeta_catalogue_files::{CatalogueWaits, Union, UnionFault, union_at};
use zmeta_devices::fault::{Fault, Status, end};
use zmeta_devices::files::Folder;
use zmeta_devices::output::Output;
use zmeta_offline::saved::Saving;
use zmeta_world::network::NetworkRun;
use zoom::{HostWaits, Tracer};

/// The network run of the catalogues of a file, the waiting times that its hosts have of their own, and the character
/// sets of their records.
struct UnionRun {
    network: NetworkRun,
    waits: Vec<HostWaits>,
    charsets: Vec<Option<Charset>>,
}

/// The seconds that a catalogue has of its own: those that its file says, if no option gives them for all.
fn own_seconds(given: Option<u32>, said: Option<u32>) -> Option<u32>
    ensures { result ≡ own_seconds given said }
{
    match given {
        Some(_) => None,
        None => said,
    }
}

/// So many seconds, or none.
fn span_of(count: Option<u32>) -> Option<Duration>
    ensures { IsSpan count result }
{
    match count {
        Some(count) => Some(seconds(count)),
        None => None,
    }
}

/// The waiting times that a catalogue has of its own, beside those that the options give for all. Without a time for
/// connecting, that is its patience.
fn own_wait(given: &LimitOptions, said: &CatalogueWaits) -> HostWaits
    ensures { IsOwnWait given.now said.now result }
{
    let patience = own_seconds(given.patience, said.patience);
    let connect = own_seconds(given.connect, said.connect.or(patience));
    HostWaits {
        connect: span_of(connect),
        patience: span_of(patience),
    }
}

/// The same of each catalogue, in order.
fn own_waits(
    alloc: Global,
    given: &LimitOptions,
    said: &[CatalogueWaits],
) -> Result<Vec<HostWaits>, AllocError>
    ensures { IfOk result (λ waits. AreOwnWaits given.now said.now waits.items) }
{
    let mut waits = Vec::new(alloc);
    for each in said {
        waits.push(own_wait(given, each))?;
    }
    Ok(waits)
}

/// Reads the file of catalogues at a path, puts the search to each, and plans a network run of them.
#[tactic(auto, using(crate::proofs::Unions::plan_faults))]
fn plan_union<'a, F: Folder>(
    alloc: Global,
    files: &F,
    path: &'a str,
    given: &LimitOptions,
    search: &SearchOptions<'a>,
) -> Result<UnionRun, UnionFault<'a>>
    ensures planned { IfSome (F.octets files.now path.entry.now)
        (λ octets. PlanUnionResult given.now search.now octets result) }
    ensures fit { IfOk result (λ run. CanBeAsked run.network) }
    ensures fault { IfErr result (IsOfUnionPlan path.entry.now) }
{
    let union = union_at(alloc, files, path, search)?;
    let Union {
        world,
        waits,
        charsets,
    } = union;
    let network = match plan(alloc, world) {
        Ok(network) => network,
        Err(fault) => return Err(UnionFault::Fault(fault)),
    };
    let waits = own_waits(alloc, given, waits.as_slice())?;
    Ok(UnionRun {
        network,
        waits,
        charsets,
    })
}

/// Asks the chosen catalogues of the file at the path `paths.world`, and makes the list. A catalogue is waited for as
/// an option says; if none does, as its file says; else as `choice` does. The records of a catalogue are read in the
/// charset that its file gives, if it gives one.
#[tactic(auto, using(crate::proofs::Unions::ask_faults))]
fn ask_union<'a, S: Folder + Net + Clock, P: Write + Drop>(
    alloc: Global,
    system: &S,
    options: AskOptions<'a, '_>,
    screen: Option<P>,
) -> Result<Finished, UnionFault<'a>>
    ensures asked { IfSome (S.octets system.now options.entry.paths.world.now)
        (λ octets. AskUnionResult (choice_texts options.entry.choice) options.entry.given.now
        options.entry.search.now options.entry.view octets result) }
    ensures names { IfOk result HasNames }
    ensures fault { IfErr result (IsOfUnionAsk options.entry.paths.world.now) }
{
    let path = options.paths.world;
    let run = plan_union(alloc, system, path, options.given, options.search)?;
    let UnionRun {
        network,
        waits,
        charsets,
    } = run;
    let chosen = match chosen_of(alloc, options.choice.only, &network) {
        Ok(chosen) => chosen,
        Err(fault) => return Err(UnionFault::Fault(fault)),
    };
    let list = ListTerms {
        view: options.view,
        waits: waits.as_slice(),
        charsets: charsets.as_slice(),
    };
    let terms = HostTerms {
        choice: options.choice,
        list,
    };
    let untraced: Option<Tracer<S::Log>> = None;
    let answered = ask_chosen(alloc, system, network, chosen, terms, untraced, screen)?;
    let Answered { finished, trace: _ } = answered;
    Ok(finished)
}

/// Asks the chosen catalogues of the file at the path `paths.world`, prints the list, reports failed connections and
/// saves the facts, or reports the fault. No trace is written.
pub(crate) fn ask_catalogues<
    'a,
    'o: 'a,
    S: Folder + Net + Clock,
    W: Write,
    E: Write,
    P: Write + Drop,
>(
    alloc: Global,
    system: &mut S,
    options: AskOptions<'a, '_>,
    screen: Option<P>,
    output: &mut Output<'o, W>,
    errors: &mut Output<'_, E>,
) -> Status
    ensures { AfterUnionAsk (choice_texts options.entry.choice) options.entry.given.now options.entry.search.now
        options.entry.view None options.entry.paths.world.now
        (option_map (λ path. path.now) options.entry.paths.saved) (S.octets system.old options.entry.paths.world.now)
        (folder S.octets S.are_one S.steps system.old) (folder S.octets S.are_one S.steps system.new)
        (outputs W.contents E.contents output.old errors.old)
        (outputs W.contents E.contents output.new errors.new) result }
{
    let paths = options.paths;
    let saving = match begin_saving(system, paths.world, paths.saved) {
        Ok(saving) => saving,
        Err(fault) => return end(Err(fault), errors),
    };
    let asked = ask_union(alloc, system, options, screen);
    conclude_union(alloc, system, asked, paths.world, saving, output, errors)
}

/// Ends asking the catalogues of a file with this result: prints the list, reports failed connections and saves the
/// facts, or reports the fault.
fn conclude_union<'a, 'o: 'a, F: Folder, W: Write, E: Write>(
    alloc: Global,
    files: &mut F,
    asked: Result<Finished, UnionFault<'a>>,
    path: &str,
    saving: Option<Saving<'a, F::Draft>>,
    output: &mut Output<'o, W>,
    errors: &mut Output<'_, E>,
) -> Status
    requires names { IfOk asked HasNames }
    requires begun { IsBegunIf F.Draft.contents (F.steps files.old) saving }
    ensures { AfterUnionAsked path.now asked.entry (saving_path saving.entry)
        (folder F.octets F.are_one F.steps files.old) (folder F.octets F.are_one F.steps files.new)
        (outputs W.contents E.contents output.old errors.old)
        (outputs W.contents E.contents output.new errors.new) result }
{
    match asked {
        Ok(finished) => conclude(alloc, files, Ok(finished), saving, output, errors),
        Err(fault) => {
            discard(files, saving);
            fault.report(alloc, path, errors)
        }
    }
}

/// Returns the line that refuses a trace of asking the catalogues of the file at a path.
fn trace_line(alloc: Global, path: &str) -> Result<Vec<u8>, AllocError>
    ensures { IfOk result (λ line. line.items ≡ trace_line path.now) }
{
    let mut line = Vec::new(alloc);
    line.extend_from_slice(b"zmeta: --trace refused: ")?;
    line.extend_from_slice(path.as_bytes())?;
    line.extend_from_slice(b" is a file of catalogues\n")?;
    Ok(line)
}

/// Refuses a trace of asking the catalogues of the file at a path: a trace holds a world file. Writes the reason on
/// `errors`, and returns `Refused`; `Memory` if no memory is found for that.
pub(crate) fn refuse_trace<E: Write>(
    alloc: Global,
    path: &str,
    errors: &mut Output<'_, E>,
) -> Status
    ensures { AfterTraceRefused path.now (output_device E.contents errors.old)
        (output_device E.contents errors.new) result }
{
    match trace_line(alloc, path) {
        Ok(line) => {
            errors.put_lines(line.as_slice());
            Status::Refused
        }
        Err(_) => Fault::Memory.report(errors),
    }
}
