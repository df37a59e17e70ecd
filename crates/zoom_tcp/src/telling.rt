//! Tells the machine what happened on each connection, and puts it down.
ghost use Rattle.std.specs.Prelude.{◌≡◌, OnOk};
ghost use Rattle.zoom_trace.specs.Recording.{IsRecordedOn};
ghost use Rattle.zoom_tcp.specs.Telling.{is_failure, IsHeardIf, IsToldIf, IsToldAny, IsHappened};

use crate::ready::Ready;
use crate::sockets::Happening;
use std::alloc::AllocError;
use std::io::Write;
use zoom_asking::Report;
use zoom_trace::Recorder;

/// Tells what happened on a connection.
pub(crate) fn happen<R: Ready, T: Write + Drop>(
    ready: &R,
    recorder: &mut Recorder<T>,
    now: u64,
    c: u32,
    happening: Happening,
) -> Result<(), AllocError>
    ensures recorded { OnOk result (IsRecordedOn T.contents recorder.old recorder.new) }
    ensures happened { OnOk result (IsHappened T.contents now c happening recorder.old recorder.new) }
{
    match happening {
        Happening::Report(report) => tell(ready, recorder, now, c, report),
        Happening::Octets(count) => hear(recorder, now, c, ready.piece(count)),
    }
}

/// Reports what happened on a connection, if anything did.
#[tactic(auto, using(zoom_trace::proofs::Recorded::none_recorded))]
pub(crate) fn tell_if<R: Ready, T: Write + Drop>(
    ready: &R,
    recorder: &mut Recorder<T>,
    now: u64,
    c: u32,
    report: Option<Report>,
) -> Result<(), AllocError>
    ensures recorded { OnOk result (IsRecordedOn T.contents recorder.old recorder.new) }
    ensures told { OnOk result (IsToldAny T.contents now c report recorder.old recorder.new) }
{
    match report {
        Some(report) => tell(ready, recorder, now, c, report),
        None => Ok(()),
    }
}

/// Reports what happened on a connection. If the system may tell why, puts down what was noticed of its host.
#[tactic(auto, using(zoom_trace::proofs::Recorded::none_recorded, zoom_trace::proofs::Recorded::one_recorded, crate::proofs::TellingTheory::none_told, crate::proofs::TellingTheory::report_told, crate::proofs::TellingTheory::failure_told))]
pub(crate) fn tell<R: Ready, T: Write + Drop>(
    ready: &R,
    recorder: &mut Recorder<T>,
    now: u64,
    c: u32,
    report: Report,
) -> Result<(), AllocError>
    ensures recorded { OnOk result (IsRecordedOn T.contents recorder.old recorder.new) }
    ensures told { OnOk result (IsToldIf T.contents now c report recorder.old recorder.new) }
{
    if (c as usize) >= recorder.connections() {
        return Ok(());
    }
    recorder.report(now, c, report)?;
    if !is_failure(report) {
        return Ok(());
    }
    let noticed = ready.notice(c);
    recorder.notice(now, c, noticed)?;
    Ok(())
}

/// Whether a report is one of which the system may tell why.
fn is_failure(report: Report) -> bool
    ensures { result ≡ is_failure report }
{
    match report {
        Report::Resolved(count) => count == 0,
        Report::Unreachable(_) | Report::End | Report::Unreadable | Report::Unwritable => true,
        Report::Connected(_) | Report::NoSocket(_) | Report::Taken => false,
    }
}

/// Reports octets that came on a connection.
#[tactic(auto, using(zoom_trace::proofs::Recorded::none_recorded, zoom_trace::proofs::Recorded::one_recorded, crate::proofs::TellingTheory::none_heard, crate::proofs::TellingTheory::octets_heard))]
fn hear<T: Write + Drop>(
    recorder: &mut Recorder<T>,
    now: u64,
    c: u32,
    piece: &[u8],
) -> Result<(), AllocError>
    ensures recorded { OnOk result (IsRecordedOn T.contents recorder.old recorder.new) }
    ensures heard { OnOk result (IsHeardIf T.contents now c piece.now recorder.old recorder.new) }
{
    if (c as usize) < recorder.connections() {
        recorder.octets(now, c, piece)?;
    }
    Ok(())
}
