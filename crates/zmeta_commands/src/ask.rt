//! The command `ask`: puts the questions of a world file to its hosts, or a search to the catalogues of a file.

ghost use Rattle.std.specs.Prelude.{◌≡◌, [], length, Ok, Err, IfOk, IfErr, IfSome, MatchResult};
ghost use Rattle.std.specs.Option.{option_map};
ghost use Rattle.zmeta_world.specs.Search.{search_texts};
ghost use Rattle.zoom.specs.Asking.{IsTracedAsk};
ghost use Rattle.zmeta_devices.specs.Devices.{outputs};
ghost use Rattle.zmeta_devices.specs.Files.{folder};
ghost use Rattle.zmeta_offline.specs.Saved.{IsBegunIf, saving_path};
ghost use Rattle.zmeta_commands.specs.Begun.{IsTraceBegun, IsOpenIf};
ghost use Rattle.zmeta_commands.specs.Finished.{HasNames, IsOfSearchedWorld};
ghost use Rattle.zmeta_args.specs.Texts.{texts_of};
ghost use Rattle.zmeta_commands.specs.Choice.{choice_texts, AddressesResult};
ghost use Rattle.zmeta_searches.specs.Searches.{search_of};
ghost use Rattle.zmeta_commands.specs.Ask.{CanBeAsked, IsAskedAt, AskNetworkResult, AskFileResult, IsOfAsking};
ghost use Rattle.zmeta_commands.specs.CatalogueFiles.{AfterNamedAsk};
ghost use Rattle.zmeta_commands.specs.Traced.{PlannedResult, IsTracedNetwork, IsTracedFile, ConcludeResult, AfterTracedAsk, finished_of};

use crate::begun::{begin_saving, check_trace};
use crate::catalogue_files::{ask_catalogues, refuse_trace};
use crate::choice::{Choice, addresses_of};
use crate::finished::{Finished, ListTerms, Paths, conclude};
use crate::progress::Progress;
use crate::traced::{begin_trace, end_trace};
use crate::worlds::{octets_at, plan, searched_by};
use bytes::Bytes;
use std::alloc::{AllocError, Global};
use std::io::Write;
use std::net::Net;
use std::time::Clock;
use zmeta_args::{LimitOptions, SearchOptions, View};
use zmeta_catalogue_files::is_catalogue_file;
use zmeta_devices::fault::{Fault, Status, end};
use zmeta_devices::files::Folder;
use zmeta_devices::output::Output;
use zmeta_offline::saved::Saving;
use zmeta_searches::copy_search;
use zmeta_world::network::NetworkRun;
use zmeta_world::search::Search;
use zoom::{Asked, Tracer, ask};

/// What the arguments of `ask` say.
#[derive(Clone, Copy)]
pub struct AskOptions<'a, 'w> {
    /// The paths of the file, and of the saved file.
    pub paths: Paths<'a>,
    /// The path of the trace, if one is to be written.
    pub trace: Option<&'a str>,
    /// Which questions are asked, and how.
    pub choice: Choice<'a, 'w>,
    /// The limits as they were given, of which `choice` has those that hold.
    pub given: &'w LimitOptions,
    /// What is put to every question or catalogue.
    pub search: &'w SearchOptions<'a>,
    /// What is printed.
    pub view: View<'a>,
}

/// How the hosts of a plan are asked, and what the list of them goes by.
#[derive(Clone, Copy)]
pub(crate) struct HostTerms<'a, 'w> {
    /// Which of them are asked, and how. If hosts have waiting times of their own, those hold for them.
    pub choice: Choice<'a, 'w>,
    /// What the list goes by.
    pub list: ListTerms<'a, 'w>,
}

/// The octets of a world file, and the network run of its world.
struct Planned {
    world: Bytes,
    network: NetworkRun,
}

/// Finished connections, and the trace of how they were asked, if there is one.
pub(crate) struct Answered<T> {
    /// The finished connections.
    pub finished: Finished,
    /// The trace.
    pub trace: Option<Tracer<T>>,
}

/// Puts each chosen question of the file at the path `paths.world` to its host over TCP, and prints what is known: as
/// the list, the view for readers or lines of JSON, as `view` says. The hosts are asked at once or one after the other,
/// as `choice` says.
///
/// The file is a world file. If `search` has a query, wanted positions, an element set or a syntax, it replaces that of
/// every question. Or the path is that of a file of catalogues (`zmeta_catalogue_files::is_catalogue_file`). Then
/// `search` is put to each catalogue. A waiting time that `given` does not give is the catalogue's own, if its file
/// has one. The records of a catalogue whose file gives a charset are read in it, in all views but the list.
///
/// Writes a line on `errors` for each connection that failed. If `paths` has a path `saved`, then makes one file
/// there, the saved file of the facts, and returns `Done` or `Failed` only if it holds them all. Changes no other file
/// but the trace. If nothing is printed or not all is saved, writes the reason on `errors`.
///
/// If `trace` is a path, begins a log there once the world file is read, and writes in it, while it asks, what was
/// given, and each report and action with its time. If that fails then, it writes the reason on `errors` in the end,
/// and returns `Refused`, unless it returns `Memory`. For a file of catalogues, which no trace can hold, it reads
/// nothing, writes the reason on `errors` and returns `Refused`, or `Memory`.
///
/// If no draft of the saved file can be begun, or no log, or if two of the three paths are those of one file, nobody is
/// asked, and the reason is written on `errors`.
///
/// Returns `Refused` if a file or a stream failed, `errors` too. Else returns `Failed` if a search, an association or a
/// connection failed, a host closed a connection first, or a chosen question was not asked. While it asks, it writes
/// its progress on `screen`, if there is one.
pub fn ask_named<'a, 'o: 'a, S: Folder + Net + Clock, W: Write, E: Write, P: Write + Drop>(
    alloc: Global,
    system: &mut S,
    options: AskOptions<'a, '_>,
    screen: Option<P>,
    output: &mut Output<'o, W>,
    errors: &mut Output<'_, E>,
) -> Status
    ensures { AfterNamedAsk (choice_texts options.entry.choice) options.entry.given.now options.entry.search.now
        options.entry.view (option_map (λ path. path.now) options.entry.trace) options.entry.paths.world.now
        (option_map (λ path. path.now) options.entry.paths.saved) (S.octets system.old options.entry.paths.world.now)
        (folder S.octets S.are_one S.steps system.old) (folder S.octets S.are_one S.steps system.new)
        (outputs W.contents E.contents output.old errors.old)
        (outputs W.contents E.contents output.new errors.new) result }
{
    if !is_catalogue_file(options.paths.world) {
        return ask_world(alloc, system, options, screen, output, errors);
    }
    match options.trace {
        Some(_) => refuse_trace(alloc, options.paths.world, errors),
        None => ask_catalogues(alloc, system, options, screen, output, errors),
    }
}

/// Asks the hosts of the world file, prints the list, reports failed connections and saves the facts, or reports the
/// fault.
fn ask_world<'a, 'o: 'a, S: Folder + Net + Clock, W: Write, E: Write, P: Write + Drop>(
    alloc: Global,
    system: &mut S,
    options: AskOptions<'a, '_>,
    screen: Option<P>,
    output: &mut Output<'o, W>,
    errors: &mut Output<'_, E>,
) -> Status
    ensures { AfterTracedAsk (choice_texts options.entry.choice) (search_of options.entry.search.now)
        options.entry.view (option_map (λ path. path.now) options.entry.trace) options.entry.paths.world.now
        (option_map (λ path. path.now) options.entry.paths.saved) (S.octets system.old options.entry.paths.world.now)
        (folder S.octets S.are_one S.steps system.old) (folder S.octets S.are_one S.steps system.new)
        (outputs W.contents E.contents output.old errors.old)
        (outputs W.contents E.contents output.new errors.new) result }
{
    let paths = options.paths;
    if let Err(fault) = check_trace(system, paths.world, paths.saved, options.trace) {
        return end(Err(fault), errors);
    }
    let saving = match begin_saving(system, paths.world, paths.saved) {
        Ok(saving) => saving,
        Err(fault) => return end(Err(fault), errors),
    };
    let asked = ask_file(alloc, system, options, screen);
    conclude_world(alloc, system, asked, saving, options.trace, output, errors)
}

/// Ends asking the hosts of a world file with this result of `ask_file`: prints the list, reports failed connections
/// and saves the facts, or reports the fault. Then ends the trace, if there is a path for one.
fn conclude_world<'a, 'o: 'a, F: Folder, W: Write, E: Write>(
    alloc: Global,
    files: &mut F,
    asked: Result<Answered<F::Log>, Fault<'a>>,
    saving: Option<Saving<'a, F::Draft>>,
    trace: Option<&str>,
    output: &mut Output<'o, W>,
    errors: &mut Output<'_, E>,
) -> Status
    requires open { IfOk asked (λ _. IsOpenIf (option_map (λ path. path.now) trace) (F.steps files.old)) }
    requires names { IfOk asked (λ answered. HasNames answered.finished) }
    requires begun { IsBegunIf F.Draft.contents (F.steps files.old) saving }
    ensures { ConcludeResult F.Log.contents asked.entry (saving_path saving.entry)
        (option_map (λ path. path.now) trace.entry)
        (folder F.octets F.are_one F.steps files.old) (folder F.octets F.are_one F.steps files.new)
        (outputs W.contents E.contents output.old errors.old)
        (outputs W.contents E.contents output.new errors.new) result }
{
    match asked {
        Ok(answered) => {
            let Answered {
                finished,
                trace: left,
            } = answered;
            let status = conclude(alloc, files, Ok(finished), saving, output, errors);
            end_trace(files, trace, left, status, errors)
        }
        Err(fault) => conclude(alloc, files, Err(fault), saving, output, errors),
    }
}

/// Asks the hosts of the file at a path.
#[tactic(auto, using(crate::proofs::Planning::ask_faults, crate::proofs::Tracing::traced_file))]
fn ask_file<'a, S: Folder + Net + Clock, P: Write + Drop>(
    alloc: Global,
    system: &mut S,
    options: AskOptions<'a, '_>,
    screen: Option<P>,
) -> Result<Answered<S::Log>, Fault<'a>>
    ensures asked { IfSome (S.octets system.old options.entry.paths.world.now)
        (λ octets. AskFileResult (choice_texts options.entry.choice) (search_of options.entry.search.now)
        options.entry.view octets (finished_of result)) }
    ensures traced { IfOk result (λ answered. IsTracedFile S.Log.contents (S.steps system.new)
        (choice_texts options.entry.choice) (search_of options.entry.search.now)
        (S.octets system.old options.entry.paths.world.now) answered.finished answered.trace) }
    ensures begun { IsTraceBegun (option_map (λ path. path.now) options.entry.trace)
        (folder S.octets S.are_one S.steps system.old) (folder S.octets S.are_one S.steps system.new) result }
    ensures names { IfOk result (λ answered. HasNames answered.finished) }
    ensures fault { IfErr result (IsOfAsking (option_map (λ path. path.now) options.entry.trace)
        options.entry.paths.world.now) }
{
    let search = options.search;
    let copy = copy_search(alloc, search)?;
    let planned = read_network(alloc, system, options.paths.world, search, &copy.texts())?;
    ask_network(alloc, system, planned, options, &copy.texts(), screen)
}

/// Reads the file at a path, puts the search to its questions, and plans a network run of its world.
#[tactic(auto, using(crate::proofs::Planning::plan_faults))]
fn read_network<'a, F: Folder>(
    alloc: Global,
    files: &F,
    path: &'a str,
    search: &SearchOptions<'a>,
    texts: &Search<'_>,
) -> Result<Planned, Fault<'a>>
    requires { search_texts texts.now ≡ search_of search.now }
    ensures network { PlannedResult (search_of search.now) (F.octets files.now path.entry.now) result }
    ensures fit { IfOk result (λ planned. CanBeAsked planned.network) }
    ensures fault { IfErr result (IsOfSearchedWorld path.entry.now) }
{
    let world = octets_at(alloc, files, path)?;
    let searched = searched_by(alloc, world.as_slice(), search, texts)?;
    let network = plan(alloc, searched)?;
    Ok(Planned { world, network })
}

/// Asks the hosts of the chosen questions, and makes the list.
#[tactic(auto, using(crate::proofs::Planning::choice_faults, crate::proofs::Tracing::begun_still))]
fn ask_network<'a, S: Folder + Net + Clock, P: Write + Drop>(
    alloc: Global,
    system: &mut S,
    planned: Planned,
    options: AskOptions<'a, '_>,
    texts: &Search<'_>,
    screen: Option<P>,
) -> Result<Answered<S::Log>, Fault<'a>>
    requires { CanBeAsked planned.network }
    ensures asked { AskNetworkResult (choice_texts options.entry.choice) [] options.entry.view planned.network
        (finished_of result) }
    ensures traced { IfOk result (λ answered. IsTracedNetwork S.Log.contents (S.steps system.new)
        (choice_texts options.entry.choice) (search_texts texts.now) planned answered.finished answered.trace) }
    ensures begun { IsTraceBegun (option_map (λ path. path.now) options.entry.trace)
        (folder S.octets S.are_one S.steps system.old) (folder S.octets S.are_one S.steps system.new) result }
    ensures names { IfOk result (λ answered. HasNames answered.finished) }
    ensures fault { IfErr result (IsOfAsking (option_map (λ path. path.now) options.entry.trace)
        options.entry.paths.world.now) }
{
    let Planned { world, network } = planned;
    let choice = options.choice;
    let chosen = chosen_of(alloc, choice.only, &network)?;
    let begun = begin_trace(alloc, system, options.trace, world, texts, choice.only)?;
    let list = ListTerms {
        view: options.view,
        waits: &[],
        charsets: &[],
    };
    let terms = HostTerms { choice, list };
    let answered = ask_chosen(alloc, system, network, chosen, terms, begun, screen)?;
    Ok(answered)
}

/// Returns the address of each chosen question of a plan, and `None` for each other question. `NoQuestion` gives the
/// first name in `only` that no question has.
pub(crate) fn chosen_of<'a>(
    alloc: Global,
    only: &[&'a str],
    network: &NetworkRun,
) -> Result<Vec<Option<Bytes>>, Fault<'a>>
    requires { CanBeAsked network.now }
    ensures { MatchResult result (λ chosen. AddressesResult (texts_of only.now) network.now.names network.now.addresses
        (Ok chosen.items))
        (λ fault. AddressesResult (texts_of only.now) network.now.names network.now.addresses (Err fault)) }
{
    addresses_of(
        alloc,
        only,
        network.names.as_slice(),
        network.addresses.as_slice(),
    )
}

/// Asks the hosts at the addresses of the chosen questions, and makes the list. Shows the progress meanwhile. If hosts
/// have waiting times of their own, no trace is left.
pub(crate) fn ask_chosen<S: Net + Clock, P: Write + Drop, T: Write + Drop>(
    alloc: Global,
    system: &S,
    network: NetworkRun,
    chosen: Vec<Option<Bytes>>,
    terms: HostTerms<'_, '_>,
    trace: Option<Tracer<T>>,
    screen: Option<P>,
) -> Result<Answered<T>, AllocError>
    requires fit { CanBeAsked network }
    requires equal { length chosen.items ≡ length network.addresses }
    ensures asked { IfOk result (λ answered. IsAskedAt (choice_texts terms.entry.choice) terms.entry.list.waits.now
        chosen.items terms.entry.list.view terms.entry.list.charsets.now network answered.finished) }
    ensures traced { IfOk result (λ answered. IsTracedAsk T.contents network.questions network.settings
        terms.entry.choice.manner terms.entry.choice.limits terms.entry.list.waits.now chosen.items trace
        answered.finished.meta answered.trace) }
    ensures names { IfOk result (λ answered. HasNames answered.finished) }
{
    let NetworkRun {
        questions,
        settings,
        addresses: _,
        names,
    } = network;
    let limits = terms.choice.limits;
    let mut progress = Progress::new(alloc, system, screen, names.as_slice(), chosen.as_slice());
    let asked = ask(
        alloc,
        system,
        questions.into_vec(),
        settings,
        chosen.as_slice(),
        terms.choice.manner,
        limits,
        terms.list.waits,
        &mut progress,
        trace,
    )?;
    progress.wipe();
    drop(progress);
    let Asked {
        meta,
        notices,
        trace: left,
    } = asked;
    let noticed = notices.as_slice();
    let finished = Finished::new(alloc, meta, names, chosen, noticed, &limits, terms.list)?;
    Ok(Answered {
        finished,
        trace: left,
    })
}
