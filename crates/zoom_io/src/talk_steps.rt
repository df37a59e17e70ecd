//! The steps of a talk: writing what is due, and taking one message.
ghost use Rattle.std.specs.Prelude.{◌≡◌, ◌<◌, length, IfOk, OnErr};
ghost use Rattle.zoom_pool.specs.Links.{SameOthers};
ghost use Rattle.zoom_devices.specs.Devices.{HasNoFailure};
ghost use Rattle.zoom_io.specs.Pushing.{IsBroken};
ghost use Rattle.zoom_io.specs.Blameless.{IfPushMemory};
ghost use Rattle.zoom_io.specs.TalkTraces.{Listening};
ghost use Rattle.zoom_io.specs.TalkSteps.{receipt_of, HaltStepAlone, AfterTakeMessage, AfterSendDue, AfterSendAndTake};

use crate::outgoing::{PushError, push};
use std::alloc::{AllocError, Global};
use zoom_devices::Sink;
use zoom_pool::laws::{one_input, one_transcript};
use zoom_pool::{Meta, Step, TakeError};

/// The result of taking a message.
#[derive(Clone, Copy, PartialEq, Eq)]
pub(crate) enum Receipt {
    /// A message was taken and accepted.
    Message,
    /// No complete message is waiting.
    Nothing,
    /// The connection is Closed or Failed.
    Over,
}

/// The receipt of a take that returned this step.
fn receipt_of(step: Step) -> Receipt
    ensures { result ≡ receipt_of step }
{
    match step {
        Step::Opened | Step::Rejected | Step::Answered | Step::Closed => Receipt::Message,
        Step::Nothing => Receipt::Nothing,
        Step::Ended | Step::Stopped => Receipt::Over,
    }
}

/// Takes a message of a connection.
fn take_message(meta: &mut Meta, c: u32) -> Result<Receipt, AllocError>
    requires { c < length meta.old.pool.connections }
    ensures after { IfOk result (λ receipt. AfterTakeMessage c receipt meta.old meta.new) }
    ensures err { OnErr result (HaltStepAlone c Listening meta.old meta.new) }
    ensures others { SameOthers c meta.old.pool meta.new.pool }
{
    one_transcript();
    one_input();
    match meta.take(c) {
        Ok(step) => Ok(receipt_of(step)),
        Err(error) => match error {
            TakeError::Memory => Err(AllocError),
            _ => Ok(Receipt::Over),
        },
    }
}

/// Makes the calls of a connection that are due, and writes what waits.
fn send_due<W: Sink>(alloc: Global, meta: &mut Meta, c: u32, sink: &mut W) -> Result<(), PushError>
    requires { c < length meta.old.pool.connections }
    ensures after { AfterSendDue c result meta.old meta.new (W.state sink.old) (W.state sink.new) }
    ensures no_failure { IfPushMemory result (HasNoFailure (W.state sink.old) (W.state sink.new)) }
    ensures stopped { IsBroken c result meta.new }
    ensures others { SameOthers c meta.old.pool meta.new.pool }
{
    one_transcript();
    meta.drive(c)?;
    push(alloc, meta, c, sink)
}

/// Makes the calls of a connection that are due, writes what waits, and takes a message.
pub(crate) fn send_and_take<W: Sink>(
    alloc: Global,
    meta: &mut Meta,
    c: u32,
    sink: &mut W,
) -> Result<Receipt, PushError>
    requires { c < length meta.old.pool.connections }
    ensures receipt { AfterSendAndTake c result meta.old meta.new (W.state sink.old) (W.state sink.new) }
    ensures no_failure { IfPushMemory result (HasNoFailure (W.state sink.old) (W.state sink.new)) }
    ensures stopped { IsBroken c result meta.new }
    ensures others { SameOthers c meta.old.pool meta.new.pool }
{
    send_due(alloc, meta, c, sink)?;
    Ok(take_message(meta, c)?)
}
