//! The end of a command that asks: prints the list, reports failed connections, and saves the facts.

ghost use Rattle.std.specs.Prelude.{◌<◌, ◌^◌, length, IfOk};
ghost use Rattle.zmeta_devices.specs.Devices.{outputs};
ghost use Rattle.zmeta_devices.specs.Files.{folder};
ghost use Rattle.zmeta_offline.specs.Saved.{IsBegunIf, saving_path};
ghost use Rattle.zmeta_commands.specs.Finished.{HasNames, IsListed, PutFinishedResult, SaveResult, FinishResult, AfterAsked};

use crate::begun::discard;
use crate::failures::{Told, failure_lines};
use crate::stops::stops_of;
use crate::trouble::finished_status;
use bytes::Bytes;
use std::alloc::{AllocError, Global};
use std::io::Write;
use std::mem::forget;
use zknow::Names;
use zknow_stops::Stop;
use zmarc::Charset;
use zmeta_args::View;
use zmeta_devices::fault::{Fault, Status, end, report_failure};
use zmeta_devices::files::Folder;
use zmeta_devices::output::Output;
use zmeta_offline::saved::{Saving, save_facts};
use zmeta_offline::view::print_view;
use zoom::{HostWaits, Limits, Meta, Notice};

/// The program's name as an origin.
pub(crate) const NAME: &[u8] = b"zmeta";

/// Finished connections, with their facts and the printed list.
#[derive(Drop)]
pub(crate) struct Finished {
    /// The connections and their facts.
    pub meta: Meta,
    /// The names of the targets or hosts, one for each connection.
    pub names: Names,
    /// The address of each question to a host, or `None` for a question that was not chosen. Empty if targets in
    /// memory were asked.
    pub addresses: Vec<Option<Bytes>>,
    /// Why each connection stopped, or `None`.
    pub stops: Vec<Option<Stop>>,
    /// The printed list of the facts.
    pub list: Vec<u8>,
}

/// The paths of a command that asks.
#[derive(Clone, Copy)]
pub struct Paths<'a> {
    /// The path of the world file.
    pub world: &'a str,
    /// The path of the saved file, if the facts are to be saved.
    pub saved: Option<&'a str>,
}

/// What the list of finished connections goes by, besides the connections.
#[derive(Clone, Copy)]
pub(crate) struct ListTerms<'a, 'w> {
    /// What is printed.
    pub view: View<'a>,
    /// The waiting times that hosts have of their own.
    pub waits: &'w [HostWaits],
    /// The character sets that the records of targets are read in, as far as they are known.
    pub charsets: &'w [Option<Charset>],
}

impl Finished {
    /// Returns finished connections, with the list of their facts, and why they stopped. `noticed` is what was noticed
    /// of the host of each connection, and `limits` are those of the hosts.
    pub(crate) fn new(
        alloc: Global,
        meta: Meta,
        names: Names,
        addresses: Vec<Option<Bytes>>,
        noticed: &[Notice],
        limits: &Limits,
        terms: ListTerms<'_, '_>,
    ) -> Result<Finished, AllocError>
        requires { length meta.pool.connections < 2 ^ 32 }
        ensures { IfOk result (IsListed limits.now terms.entry.waits.now noticed.now meta names addresses.items
            terms.entry.view terms.entry.charsets.now) }
    {
        let stops = stops_of(alloc, &meta, noticed, limits, terms.waits)?;
        let mut list = Vec::new(alloc);
        print_view(
            alloc,
            meta.knowledge(),
            &names,
            terms.charsets,
            stops.as_slice(),
            terms.view,
            &mut list,
        )?;
        Ok(Finished {
            meta,
            names,
            addresses,
            stops,
            list,
        })
    }
}

/// Writes the list, and reports the failed connections.
fn put_finished<'o, W: Write, E: Write>(
    alloc: Global,
    finished: &Finished,
    output: &mut Output<'o, W>,
    errors: &mut Output<'_, E>,
) -> Result<(), Fault<'o>>
    requires { HasNames finished.now }
    ensures { PutFinishedResult finished.now (outputs W.contents E.contents output.old errors.old)
        (outputs W.contents E.contents output.new errors.new) result }
{
    let told = Told {
        explains: errors.explains(),
        addresses: finished.addresses.as_slice(),
        stops: finished.stops.as_slice(),
    };
    let lines = failure_lines(alloc, &finished.meta, finished.names.as_slice(), &told)?;
    output.put(finished.list.as_slice())?;
    errors.put_lines(lines.as_slice());
    Ok(())
}

/// Saves the facts if a draft was begun, in the file that is made of it.
fn save_finished<'a, F: Folder>(
    alloc: Global,
    files: &mut F,
    saving: Option<Saving<'a, F::Draft>>,
    finished: &Finished,
) -> Result<(), Fault<'a>>
    requires { IsBegunIf F.Draft.contents (F.steps files.old) saving }
    ensures { SaveResult finished.now (saving_path saving.entry)
        (folder F.octets F.are_one F.steps files.old) (folder F.octets F.are_one F.steps files.new) result }
{
    match saving {
        None => Ok(()),
        Some(saving) => save_facts(
            alloc,
            files,
            saving,
            finished.meta.knowledge(),
            &finished.names,
        ),
    }
}

/// Prints the list, reports the failed connections, and then saves the facts if a draft was begun, whatever became of
/// the list.
///
/// Returns the status, if standard error does not fail. If both fail, reports why the list failed, and returns why the
/// facts were not saved.
fn finish<'a, 'o: 'a, F: Folder, W: Write, E: Write>(
    alloc: Global,
    files: &mut F,
    finished: &Finished,
    saving: Option<Saving<'a, F::Draft>>,
    output: &mut Output<'o, W>,
    errors: &mut Output<'_, E>,
) -> Result<Status, Fault<'a>>
    requires names { HasNames finished.now }
    requires begun { IsBegunIf F.Draft.contents (F.steps files.old) saving }
    ensures { FinishResult finished.now (saving_path saving.entry)
        (folder F.octets F.are_one F.steps files.old) (folder F.octets F.are_one F.steps files.new)
        (outputs W.contents E.contents output.old errors.old)
        (outputs W.contents E.contents output.new errors.new) result }
{
    let printed = put_finished(alloc, finished, output, errors);
    match save_finished(alloc, files, saving, finished) {
        Ok(()) => {
            printed?;
            Ok(finished_status(finished))
        }
        Err(fault) => {
            report_failure(printed, errors);
            Err(fault)
        }
    }
}

/// Ends a command that asked with this result: prints the list, reports the failed connections and saves the facts, or
/// reports the fault. `run`, `ask` and `loop` all end here.
///
/// If the facts were saved, exactly one file changed: that at the path, which has the octets of the saved file. They
/// are saved also if the list cannot be written.
pub(crate) fn conclude<'a, 'o: 'a, F: Folder, W: Write, E: Write>(
    alloc: Global,
    files: &mut F,
    asked: Result<Finished, Fault<'a>>,
    saving: Option<Saving<'a, F::Draft>>,
    output: &mut Output<'o, W>,
    errors: &mut Output<'_, E>,
) -> Status
    requires names { IfOk asked HasNames }
    requires begun { IsBegunIf F.Draft.contents (F.steps files.old) saving }
    ensures { AfterAsked asked.entry (saving_path saving.entry)
        (folder F.octets F.are_one F.steps files.old) (folder F.octets F.are_one F.steps files.new)
        (outputs W.contents E.contents output.old errors.old)
        (outputs W.contents E.contents output.new errors.new) result }
{
    match asked {
        Ok(finished) => {
            let ended = finish(alloc, files, &finished, saving, output, errors);
            // the program ends soon, and gives all memory back at once
            forget(finished);
            end(ended, errors)
        }
        Err(fault) => {
            discard(files, saving);
            end(Err(fault), errors)
        }
    }
}
