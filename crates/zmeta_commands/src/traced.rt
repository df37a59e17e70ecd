//! The trace that `ask` writes: its beginning and its end.

ghost use Rattle.std.specs.Prelude.{◌≡◌, ◌&&◌, not, IfOk, IfErr, OnOk, List};
ghost use Rattle.std.specs.Option.{option_map};
ghost use Rattle.zmeta_args.specs.Texts.{texts_of};
ghost use Rattle.zmeta_devices.specs.Devices.{output_device};
ghost use Rattle.zmeta_devices.specs.Faults.{refused_status};
ghost use Rattle.zmeta_devices.specs.Files.{folder, WasTaken};
ghost use Rattle.zmeta_devices.specs.Files.FileStep.{logged};
ghost use Rattle.zmeta_trace.specs.Given.{given_entries};
ghost use Rattle.zmeta_world.specs.Search.{search_texts};
ghost use Rattle.zoom.specs.TraceEntry.{TraceEntry};
ghost use Rattle.zoom.specs.Tracing.{IsTracedOn};
ghost use Rattle.zmeta_commands.specs.Begun.{IsTraceFault, IsTraceBegun, IsOpenIf};
ghost use Rattle.zmeta_commands.specs.Traced.{BeginLogResult, IsNew, IsBegun, HasLines, HasLogged, CloseLogResult, CloseResult, AfterTrace, AfterClosing};

use bytes::Bytes;
use std::alloc::{AllocError, Global};
use std::io::Write;
use zmeta_devices::fault::{Fault, Status};
use zmeta_devices::files::Folder;
use zmeta_devices::output::Output;
use zmeta_trace::given_entries;
use zmeta_world::search::Search;
use zoom::{TraceEntry, Tracer};

/// Puts entries into a trace.
#[tactic(auto, using(crate::proofs::Tracing::put_none, crate::proofs::Tracing::put_more))]
fn put_all<T: Write>(
    alloc: Global,
    entries: &[TraceEntry],
    tracer: &mut Tracer<T>,
) -> Result<(), AllocError>
    ensures { OnOk result (IsTracedOn T.contents entries.now tracer.old tracer.new) }
{
    for entry in entries {
        tracer.put(alloc, entry)?;
    }
    Ok(())
}

/// Begins a log at a path. `Write` with the path if that fails.
fn begin_log<'a, F: Folder>(
    alloc: Global,
    files: &mut F,
    path: &'a str,
) -> Result<Tracer<F::Log>, Fault<'a>>
    ensures begun { BeginLogResult (folder F.octets F.are_one F.steps files.old)
        (folder F.octets F.are_one F.steps files.new) path.entry.now result }
    ensures new { IfOk result (IsNew F.Log.contents (F.steps files.new)) }
{
    match files.log(path) {
        Ok(log) => Ok(Tracer::new(alloc, log)),
        Err(_) => Err(Fault::Write(path)),
    }
}

/// Begins the trace of a search, if there is a path for it, with what the search was given: the world file, what is put
/// to every question, and the names that were chosen. `Write` with the path if no log can be begun there.
pub(crate) fn begin_trace<'a, F: Folder>(
    alloc: Global,
    files: &mut F,
    path: Option<&'a str>,
    world: Bytes,
    search: &Search<'_>,
    only: &[&str],
) -> Result<Option<Tracer<F::Log>>, Fault<'a>>
    ensures begun { IfOk result (IsBegun F.Log.contents (F.steps files.new)
        (given_entries world (search_texts search.now) (texts_of only.now))) }
    ensures logged { IsTraceBegun (option_map (λ path. path.now) path.entry)
        (folder F.octets F.are_one F.steps files.old) (folder F.octets F.are_one F.steps files.new) result }
    ensures fault { IfErr result (IsTraceFault (option_map (λ path. path.now) path.entry)) }
{
    let Some(path) = path else {
        return Ok(None);
    };
    let mut tracer = begin_log(alloc, files, path)?;
    let entries = given_entries(alloc, world, search, only)?;
    put_all(alloc, entries.as_slice(), &mut tracer)?;
    Ok(Some(tracer))
}

/// Ends a log, and returns whether it holds what was written to it. If not, it holds a front of that, or is lost.
fn close_log<F: Folder>(files: &mut F, path: &str, log: F::Log) -> bool
    requires { WasTaken (F.steps files.old) (logged path.now) }
    ensures { CloseLogResult (folder F.octets F.are_one F.steps files.old)
        (folder F.octets F.are_one F.steps files.new) path.now (F.Log.contents log) result }
{
    match files.close(path, log) {
        Ok(()) => true,
        Err(_) => false,
    }
}

/// Whether a log holds all lines: it was ended, and no call had failed.
fn is_whole(is_closed: bool, has_failed: bool) -> bool
    ensures { result ≡ is_closed && not has_failed }
{
    is_closed && !has_failed
}

/// Ends the log of a tracer, and returns whether it holds all lines. If not, it holds a front of them, if any.
fn close_tracer<F: Folder>(files: &mut F, path: &str, tracer: Tracer<F::Log>) -> bool
    requires { WasTaken (F.steps files.old) (logged path.now) }
    ensures { (entries : List TraceEntry) → HasLines F.Log.contents (F.steps files.old) entries tracer
        → CloseResult (folder F.octets F.are_one F.steps files.old)
        (folder F.octets F.are_one F.steps files.new) path.now entries result }
{
    let has_failed = tracer.has_failed();
    let is_closed = close_log(files, path, tracer.into_sink());
    is_whole(is_closed, has_failed)
}

/// The same, if there is a tracer.
#[tactic(auto, using(crate::proofs::Tracing::none_closed))]
fn close_trace<F: Folder>(files: &mut F, path: &str, trace: Option<Tracer<F::Log>>) -> bool
    requires { WasTaken (F.steps files.old) (logged path.now) }
    ensures { (entries : List TraceEntry) → HasLogged F.Log.contents (F.steps files.old) entries trace
        → CloseResult (folder F.octets F.are_one F.steps files.old)
        (folder F.octets F.are_one F.steps files.new) path.now entries result }
{
    match trace {
        Some(tracer) => close_tracer(files, path, tracer),
        None => false,
    }
}

/// The status of a command that would end with this one, if its trace was not written.
fn refused(status: Status) -> Status
    ensures { result ≡ refused_status status }
{
    match status {
        Status::Memory => Status::Memory,
        _ => Status::Refused,
    }
}

/// Ends the trace at a path, behind a command that would end with this status. If the trace does not hold all, reports
/// that, and returns `Refused`, unless the status is `Memory`.
fn end_trace_at<F: Folder, E: Write>(
    files: &mut F,
    path: &str,
    trace: Option<Tracer<F::Log>>,
    status: Status,
    errors: &mut Output<'_, E>,
) -> Status
    requires { WasTaken (F.steps files.old) (logged path.now) }
    ensures { (entries : List TraceEntry) → HasLogged F.Log.contents (F.steps files.old) entries trace
        → AfterTrace path.now entries (folder F.octets F.are_one F.steps files.old)
        (folder F.octets F.are_one F.steps files.new) (output_device E.contents errors.old)
        (output_device E.contents errors.new) status result }
{
    if close_trace(files, path, trace) {
        return status;
    }
    errors.write_fault(&Fault::Write(path));
    refused(status)
}

/// The same, if there is a path.
pub(crate) fn end_trace<F: Folder, E: Write>(
    files: &mut F,
    path: Option<&str>,
    trace: Option<Tracer<F::Log>>,
    status: Status,
    errors: &mut Output<'_, E>,
) -> Status
    requires { IsOpenIf (option_map (λ path. path.now) path) (F.steps files.old) }
    ensures { (entries : List TraceEntry) → HasLogged F.Log.contents (F.steps files.old) entries trace
        → AfterClosing (option_map (λ path. path.now) path.entry) entries
        (folder F.octets F.are_one F.steps files.old) (folder F.octets F.are_one F.steps files.new)
        (output_device E.contents errors.old) (output_device E.contents errors.new) status result }
{
    match path {
        Some(path) => end_trace_at(files, path, trace, status, errors),
        None => status,
    }
}
