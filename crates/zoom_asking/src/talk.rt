//! Talking on one connection: what is due is handed out, and messages are taken.
ghost use Rattle.std.specs.Prelude.{◌≡◌, ◌<◌, ℕ, List, length, IfOk, OnOk};
ghost use Rattle.zoom_asking.specs.Steps.{IsExtended, IsReceived, IsConditionAt, receipt_of};
ghost use Rattle.zoom_asking.specs.Talks.{IsDriven, AreTaken, IsHeard, IsClosed, condition_in};

use std::alloc::AllocError;
use zoom_clock::{Condition, Ending};
use zoom_pool::laws::one_transcript;
use zoom_pool::{Meta, Reason, State, Step, TakeError};

/// The result of taking a message.
#[derive(Clone, Copy, PartialEq, Eq)]
pub(crate) enum Receipt {
    /// A message was taken and accepted.
    Message,
    /// No whole message is there.
    Nothing,
    /// The connection is Closed or Failed.
    Over,
}

/// Makes the calls of a connection that are due, and adds the octets that wait to `unsent`.
pub(crate) fn drive(meta: &mut Meta, c: u32, unsent: &mut Vec<u8>) -> Result<(), AllocError>
    requires { c < length meta.old.pool.connections }
    ensures driven { OnOk result (IsExtended c IsDriven meta.old meta.new unsent.old.items unsent.new.items) }
    ensures size { length meta.new.pool.connections ≡ length meta.old.pool.connections }
{
    one_transcript();
    meta.drive(c)?;
    meta.outgoing(c, unsent)?;
    Ok(())
}

/// Takes a message of a connection.
fn take(meta: &mut Meta, c: u32) -> Result<Receipt, AllocError>
    requires { c < length meta.old.pool.connections }
    ensures received { IfOk result (λ r. (waits : List ℕ) → IsExtended c (IsReceived r) meta.old meta.new waits waits) }
    ensures size { length meta.new.pool.connections ≡ length meta.old.pool.connections }
{
    one_transcript();
    match meta.take(c) {
        Ok(step) => Ok(receipt_of(step)),
        Err(error) => match error {
            TakeError::Memory => Err(AllocError),
            _ => Ok(Receipt::Over),
        },
    }
}

/// The receipt of a take that returned this step.
fn receipt_of(step: Step) -> Receipt
    ensures { result ≡ receipt_of step }
{
    match step {
        Step::Opened | Step::Rejected | Step::Answered | Step::Closed => Receipt::Message,
        Step::Nothing => Receipt::Nothing,
        Step::Ended | Step::Stopped => Receipt::Over,
    }
}

/// Takes messages while there are any, and after each hands out what is due.
fn take_all(meta: &mut Meta, c: u32, unsent: &mut Vec<u8>) -> Result<(), AllocError>
    requires { c < length meta.old.pool.connections }
    ensures taken { OnOk result (IsExtended c AreTaken meta.old meta.new unsent.old.items unsent.new.items) }
    ensures size { length meta.new.pool.connections ≡ length meta.old.pool.connections }
{
    for _ in 0..u64::MAX {
        match take(meta, c)? {
            Receipt::Message => drive(meta, c, unsent)?,
            Receipt::Nothing | Receipt::Over => return Ok(()),
        }
    }
    // More messages came than memory can hold.
    Err(AllocError)
}

/// Octets came: feeds them, and takes messages.
pub(crate) fn hear(
    meta: &mut Meta,
    c: u32,
    piece: &[u8],
    unsent: &mut Vec<u8>,
) -> Result<(), AllocError>
    requires { c < length meta.old.pool.connections }
    ensures heard { OnOk result (IsExtended c (IsHeard piece.now) meta.old meta.new unsent.old.items unsent.new.items) }
    ensures size { length meta.new.pool.connections ≡ length meta.old.pool.connections }
{
    meta.feed(c, piece)?;
    take_all(meta, c, unsent)
}

/// How a connection stands.
pub(crate) fn condition(meta: &Meta, c: u32) -> Condition
    requires { c < length meta.now.pool.connections }
    ensures { IsConditionAt c meta.now result }
{
    one_transcript();
    condition_of(meta.state(c))
}

/// How a connection in this state stands.
fn condition_of(state: State) -> Condition
    ensures { result ≡ condition_in state }
{
    match state {
        State::Closed | State::Failed(_) => Condition::Finished,
        State::Closing => Condition::Leaving,
        _ => Condition::Going,
    }
}

/// Closes a connection that has ended so.
pub(crate) fn close(meta: &mut Meta, c: u32, ending: Ending) -> Result<(), AllocError>
    requires { c < length meta.old.pool.connections }
    ensures closed { OnOk result ((waits : List ℕ) → IsExtended c (IsClosed ending) meta.old meta.new waits waits) }
    ensures size { length meta.new.pool.connections ≡ length meta.old.pool.connections }
{
    match ending {
        Ending::Connect => meta.stop(c, Reason::Connect),
        Ending::Read => meta.stop(c, Reason::Read),
        Ending::Write => meta.stop(c, Reason::Write),
        Ending::Turns => meta.stop(c, Reason::Turns),
        Ending::InputEnded => {
            meta.end(c);
            take(meta, c)?;
        }
        Ending::Finished => {}
    }
    Ok(())
}
