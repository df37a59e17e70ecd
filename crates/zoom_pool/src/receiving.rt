//! Receives the messages of the serving end's octets, one by one.
ghost use Rattle.std.specs.Prelude.{◌≡◌, ◌≢◌, Ok, false, IsErr};
ghost use Rattle.zoom_pool.specs.HostSteps.{ReceiveNextResult, IsReceptionOf, ReceiveAllResult, ReceiveApduResult, ReceiveMessageResult};

use std::alloc::{AllocError, Global};
use zapdu::{Apdu, ApduError, from_node};
use zber::{FrameError, Framer, Node};
use ztarget::{Target, TargetError};

/// What receiving the next message did.
#[derive(Clone, Copy, Drop)]
pub(crate) enum Reception {
    /// The target received it.
    More,
    /// No whole message has come yet.
    Unfinished,
    /// The message stops the serving end, or the octets show a fault.
    Stopping,
}

/// Returns `false` for an APDU that the target refuses, and an error if the target finds no memory.
fn refused_apdu(error: TargetError) -> Result<bool, AllocError>
    ensures memory { error ≡ TargetError.Memory → IsErr result }
    ensures refused { error ≢ TargetError.Memory → result ≡ Ok false }
{
    match error {
        TargetError::Memory => Err(AllocError),
        _ => Ok(false),
    }
}

/// Gives an APDU to the target; returns whether the target takes it.
fn receive_apdu(target: &mut Target, apdu: &Apdu) -> Result<bool, AllocError>
    ensures { ReceiveApduResult apdu.now result target.old target.new }
{
    match target.receive(apdu) {
        Ok(()) => Ok(true),
        Err(error) => refused_apdu(error),
    }
}

/// Returns `false` for a message that is not an APDU, and an error if no memory is found to read it.
fn refused_message(error: ApduError) -> Result<bool, AllocError>
    ensures memory { error ≡ ApduError.Memory → IsErr result }
    ensures refused { error ≢ ApduError.Memory → result ≡ Ok false }
{
    match error {
        ApduError::Memory => Err(AllocError),
        _ => Ok(false),
    }
}

/// Receives a message; returns whether it is an APDU that the target takes.
fn receive_message(alloc: Global, target: &mut Target, node: &Node) -> Result<bool, AllocError>
    ensures { ReceiveMessageResult node.now result target.old target.new }
{
    match from_node(alloc, node) {
        Ok(apdu) => {
            let taken = receive_apdu(target, &apdu);
            drop(apdu);
            taken
        }
        Err(error) => refused_message(error),
    }
}

/// What an error of the framer means: a fault stops the serving end.
fn reception_of(error: FrameError) -> Result<Reception, AllocError>
    ensures { IsReceptionOf error result }
{
    match error {
        FrameError::Fault { .. } => Ok(Reception::Stopping),
        FrameError::Memory => Err(AllocError),
    }
}

/// Receives the next message, if it is whole.
fn receive_next(
    alloc: Global,
    framer: &mut Framer,
    target: &mut Target,
) -> Result<Reception, AllocError>
    ensures { ReceiveNextResult result framer.old.stream framer.new.stream target.old target.new }
{
    match framer.next() {
        Ok(Some(node)) => {
            if receive_message(alloc, target, &node)? {
                Ok(Reception::More)
            } else {
                Ok(Reception::Stopping)
            }
        }
        Ok(None) => Ok(Reception::Unfinished),
        Err(error) => reception_of(error),
    }
}

/// Receives all whole messages, up to one that stops the serving end. Returns whether a message or a fault stops
/// it.
pub(crate) fn receive_all(
    alloc: Global,
    framer: &mut Framer,
    target: &mut Target,
) -> Result<bool, AllocError>
    ensures { ReceiveAllResult result framer.old.stream framer.new.stream target.old target.new }
{
    'messages: loop {
        match receive_next(alloc, framer, target)? {
            Reception::More => {}
            Reception::Unfinished => return Ok(false),
            Reception::Stopping => return Ok(true),
        }
    }
}
