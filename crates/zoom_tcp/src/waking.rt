//! A wake: what lies ready on sockets is told before time passes.
ghost use Rattle.std.specs.Prelude.{OnOk, IfOk};
ghost use Rattle.zoom_trace.specs.Recording.{IsRecordedOn};
ghost use Rattle.zoom_tcp.specs.Waking.{IsGathered, IsOneTold, AreTold, IsWoken};

use crate::ready::Ready;
use crate::telling::happen;
use std::alloc::AllocError;
use std::io::Write;
use std::time::Duration;
use zoom_trace::Recorder;

/// Waits until sockets are ready, or the time is up. Tells what happened on each that is ready, and then that time has
/// passed: a time that was read before the last look at the sockets. So of a host that is given up at this time nothing
/// lay there, however late the wake is. Returns the time.
pub(crate) fn wake<R: Ready, T: Write + Drop>(
    ready: &mut R,
    recorder: &mut Recorder<T>,
    most: Option<Duration>,
) -> Result<u64, AllocError>
    ensures recorded { OnOk result (IsRecordedOn T.contents recorder.old recorder.new) }
    ensures woken { IfOk result (λ now. IsWoken R.IsTime R.IsPolled R.polls R.queue R.IsServed
        T.contents now recorder.old ready.new recorder.new) }
{
    ready.wait(most)?;
    let now = ready.time();
    gather(ready)?;
    serve_all(ready, recorder, now)?;
    recorder.tick(now)?;
    Ok(now)
}

/// Has all sockets that are ready noted: polls until a poll gives fewer than its most. Those that become ready
/// meanwhile stand behind the others, so as many polls as have room for all are enough.
fn gather<R: Ready>(ready: &mut R) -> Result<(), AllocError>
    ensures { OnOk result (IsGathered R.IsPolled R.polls ready.old ready.new) }
{
    for _ in 0..ready.most_polls() {
        if !ready.poll()? {
            return Ok(());
        }
    }
    Ok(())
}

/// Serves each socket that is to be served once, and tells what happened on it.
#[tactic(auto, using(zoom_trace::proofs::Recorded::none_recorded))]
fn serve_all<R: Ready, T: Write + Drop>(
    ready: &mut R,
    recorder: &mut Recorder<T>,
    now: u64,
) -> Result<(), AllocError>
    ensures recorded { OnOk result (IsRecordedOn T.contents recorder.old recorder.new) }
    ensures told { OnOk result (AreTold R.IsServed T.contents now ready.old recorder.old
        (R.queue ready.old) ready.new recorder.new) }
{
    for _ in 0..ready.queued() {
        serve_next(ready, recorder, now)?;
    }
    Ok(())
}

/// Serves the socket that is to be served first, if there is one, and tells what happened on it.
#[tactic(auto, using(zoom_trace::proofs::Recorded::none_recorded, crate::proofs::WakingTheory::one_happened, crate::proofs::WakingTheory::none_happened))]
fn serve_next<R: Ready, T: Write + Drop>(
    ready: &mut R,
    recorder: &mut Recorder<T>,
    now: u64,
) -> Result<(), AllocError>
    ensures recorded { OnOk result (IsRecordedOn T.contents recorder.old recorder.new) }
    ensures told { OnOk result (IsOneTold R.IsServed T.contents now ready.old recorder.old ready.new recorder.new) }
{
    match ready.serve()? {
        Some((c, happening)) => happen(ready, recorder, now, c, happening),
        None => Ok(()),
    }
}
