//! Whether all chosen questions were asked and answered.
ghost use Rattle.std.specs.Prelude.{◌≡◌, ◌<◌, ◌^◌, not, ◌||◌, length};
ghost use Rattle.zoom.specs.Metas.{IsTranscriptValue};
ghost use Rattle.zmeta_commands.specs.Finished.{is_failed, is_troubled, is_asked, IsTroubledAt, HasTrouble, IsStatusOf, IsFinishedStatus};

use crate::finished::Finished;
use bytes::Bytes;
use zmeta_devices::fault::Status;
use zoom::laws::one_transcript;
use zoom::{Meta, State};

fn is_failed(state: State) -> bool
    ensures { result ≡ is_failed state }
{
    matches!(state, State::Failed(_))
}

fn is_any(failed: bool, complete: bool, skipped: bool) -> bool
    ensures { result ≡ (failed || not complete || skipped) }
{
    failed || !complete || skipped
}

/// Returns whether a connection failed, its target closed it first, or its question was not asked.
fn is_troubled(meta: &Meta, c: u32) -> bool
    requires { c < length meta.now.pool.connections }
    ensures { IsTranscriptValue c meta.now is_troubled result }
{
    one_transcript();
    let failed = is_failed(meta.state(c));
    let complete = meta.complete(c);
    let skipped = meta.skipped(c);
    is_any(failed, complete, skipped)
}

/// Returns whether a question is chosen: `addresses` does not have `None` at its index.
pub(crate) fn is_asked(addresses: &[Option<Bytes>], c: u32) -> bool
    ensures { result ≡ is_asked addresses.now c }
{
    match addresses.get(c as usize) {
        Some(None) => false,
        _ => true,
    }
}

/// Returns whether a question is chosen and its connection has trouble.
fn is_troubled_at(meta: &Meta, addresses: &[Option<Bytes>], c: u32) -> bool
    requires { c < length meta.now.pool.connections }
    ensures { IsTroubledAt addresses.now c meta.now result }
{
    if is_asked(addresses, c) {
        is_troubled(meta, c)
    } else {
        false
    }
}

/// Returns whether the connection of some chosen question has trouble.
fn has_trouble(meta: &Meta, addresses: &[Option<Bytes>]) -> bool
    requires { length meta.now.pool.connections < 2 ^ 32 }
    ensures { HasTrouble addresses.now meta.now result }
{
    for c in 0..meta.connections() {
        if is_troubled_at(meta, addresses, c as u32) {
            return true;
        }
    }
    false
}

/// Returns the status after these connections, for questions at these addresses.
fn status_of(meta: &Meta, addresses: &[Option<Bytes>]) -> Status
    requires { length meta.now.pool.connections < 2 ^ 32 }
    ensures { IsStatusOf addresses.now meta.now result }
{
    if meta.knowledge().has_failed() {
        return Status::Failed;
    }
    if has_trouble(meta, addresses) {
        Status::Failed
    } else {
        Status::Done
    }
}

/// Returns the status after finished connections.
pub(crate) fn finished_status(finished: &Finished) -> Status
    requires { length finished.now.meta.pool.connections < 2 ^ 32 }
    ensures { IsFinishedStatus finished.now result }
{
    status_of(&finished.meta, finished.addresses.as_slice())
}
