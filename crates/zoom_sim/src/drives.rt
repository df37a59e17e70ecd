//! Drives connections: makes the calls that are due, and takes the messages that came.
ghost use Rattle.std.specs.Prelude.{◌≡◌, ◌<◌, ◌^◌, length, IfOk, OnOk, None};
ghost use Rattle.zoom_pool.specs.Transcripts.{is_message};
ghost use Rattle.zoom_pool.specs.States.{is_stopped};
ghost use Rattle.zoom_pool.specs.Metas.{IsTranscriptValue};
ghost use Rattle.zoom_sim.specs.Run.{is_over};
ghost use Rattle.zoom_sim.specs.RunSteps.{SilentStep, StopOneStep, StopAllStep};
ghost use Rattle.zoom_sim.specs.RunSound.{DriveOneStep, TakeOneStep, TakeAllStep, EndInputStep, DriveAllStep, UnfinishedOnlyStep};
ghost use Rattle.zoom_sim.specs.RunTakeAll.{QuietStep};
ghost use Rattle.zoom_sim.specs.RunMoves.{DrivenStep, InputEndsStep, FailureStep};
ghost use Rattle.zoom_sim.specs.RunMade.{AllInTurn, EndUnlessOver, StopUnlessOver};

use std::alloc::AllocError;
use zoom_laws::laws::exchange_laws;
use zoom_pool::laws::{one_transcript, take_laws};
use zoom_pool::{Meta, Reason, State, Step, TakeError};

/// Makes the calls that are due on connection `c`.
fn drive(meta: &mut Meta, c: u32) -> Result<(), AllocError>
    requires { c < length meta.old.pool.connections }
    ensures silent { OnOk result (SilentStep meta.old meta.new) }
    ensures at { OnOk result (DriveOneStep c meta.old meta.new) }
    ensures own { OnOk result (DrivenStep c meta.old meta.new) }
    ensures size { length meta.new.pool.connections ≡ length meta.old.pool.connections }
{
    meta.drive(c)?;
    Ok(())
}

/// Returns whether the step took a message.
fn is_message(step: Step) -> bool
    ensures { result ≡ is_message step }
{
    matches!(
        step,
        Step::Opened | Step::Rejected | Step::Answered | Step::Closed
    )
}

/// Takes the next message of connection `c`. Returns whether there was one that was accepted.
fn take_one(meta: &mut Meta, c: u32) -> Result<bool, AllocError>
    requires { c < length meta.old.pool.connections }
    ensures silent { OnOk result (SilentStep meta.old meta.new) }
    ensures at { IfOk result (λ taken. TakeOneStep c taken meta.old meta.new) }
    ensures own { OnOk result (DrivenStep c meta.old meta.new) }
    ensures size { length meta.new.pool.connections ≡ length meta.old.pool.connections }
{
    one_transcript();
    match meta.take(c) {
        Ok(step) => Ok(is_message(step)),
        Err(error) => match error {
            TakeError::Memory => Err(AllocError),
            _ => Ok(false),
        },
    }
}

/// Takes each whole message of connection `c`, and makes the calls that are due after each.
pub(crate) fn take_all(meta: &mut Meta, c: u32) -> Result<(), AllocError>
    requires { c < length meta.old.pool.connections }
    // on success
    ensures silent { OnOk result (SilentStep meta.old meta.new) }
    ensures all { OnOk result (TakeAllStep c meta.old meta.new) }
    ensures adds { OnOk result (QuietStep c meta.old meta.new) }
    ensures own { OnOk result (DrivenStep c meta.old meta.new) }
    // in each case
    ensures size { length meta.new.pool.connections ≡ length meta.old.pool.connections }
{
    exchange_laws();
    take_laws();
    one_transcript();
    for _count in 0..u64::MAX {
        if !take_one(meta, c)? {
            return Ok(());
        }
        drive(meta, c)?;
    }
    Ok(())
}

/// Makes the calls that are due on each connection, in order of their numbers.
///
/// Requires fewer than 2^32 connections. Returns `AllocError` if no memory is found; the number of connections is
/// unchanged.
pub fn drive_all(meta: &mut Meta) -> Result<(), AllocError>
    requires { length meta.old.pool.connections < 2 ^ 32 }
    ensures silent { OnOk result (SilentStep meta.old meta.new) }
    ensures starts { OnOk result (DriveAllStep (length meta.old.pool.connections) meta.old meta.new) }
    ensures own { OnOk result (AllInTurn DrivenStep meta.old meta.new) }
    ensures size { length meta.new.pool.connections ≡ length meta.old.pool.connections }
{
    exchange_laws();
    take_laws();
    one_transcript();
    for c in 0..meta.connections() {
        drive(meta, c as u32)?;
    }
    Ok(())
}

/// Returns whether the state is Closed or Failed: nothing more is taken then.
fn is_stopped(state: State) -> bool
    ensures { result ≡ is_stopped state }
{
    matches!(state, State::Closed | State::Failed(_))
}

/// Returns whether connection `c` is finished: Closed or Failed.
fn is_over(meta: &Meta, c: u32) -> bool
    requires { c < length meta.now.pool.connections }
    ensures { IsTranscriptValue c meta.now is_over result }
{
    one_transcript();
    is_stopped(meta.state(c))
}

/// If connection `c` is not finished, ends its input and takes the messages that are left.
fn end_input(meta: &mut Meta, c: u32) -> Result<(), AllocError>
    requires { c < length meta.old.pool.connections }
    ensures silent { OnOk result (SilentStep meta.old meta.new) }
    ensures unfinished_only { OnOk result (UnfinishedOnlyStep meta.old meta.new) }
    ensures own { OnOk result (EndUnlessOver c meta.old meta.new) }
    ensures size { length meta.new.pool.connections ≡ length meta.old.pool.connections }
{
    if is_over(meta, c) {
        return Ok(());
    }
    meta.end(c);
    take_all(meta, c)
}

/// Ends the input of connection `c`, and takes once. It is for a connection of which each whole message was taken.
pub(crate) fn end_taken(meta: &mut Meta, c: u32) -> Result<(), AllocError>
    requires { c < length meta.old.pool.connections }
    ensures silent { OnOk result (SilentStep meta.old meta.new) }
    ensures ends { OnOk result (EndInputStep c meta.old meta.new) }
    ensures own { OnOk result (InputEndsStep c meta.old meta.new) }
    ensures size { length meta.new.pool.connections ≡ length meta.old.pool.connections }
{
    meta.end(c);
    take_one(meta, c)?;
    Ok(())
}

/// Ends the input of each connection that is not finished, and takes the messages that are left.
pub(crate) fn end_inputs(meta: &mut Meta) -> Result<(), AllocError>
    requires { length meta.old.pool.connections < 2 ^ 32 }
    ensures silent { OnOk result (SilentStep meta.old meta.new) }
    ensures unfinished_only { OnOk result (UnfinishedOnlyStep meta.old meta.new) }
    ensures own { OnOk result (AllInTurn EndUnlessOver meta.old meta.new) }
    ensures size { length meta.new.pool.connections ≡ length meta.old.pool.connections }
{
    for c in 0..meta.connections() {
        end_input(meta, c as u32)?;
    }
    Ok(())
}

/// If the channel failed, stops connection `c` for that reason; otherwise changes nothing.
pub(crate) fn stop_for(meta: &mut Meta, c: u32, failure: Option<Reason>)
    requires { c < length meta.old.pool.connections }
    ensures silent { SilentStep meta.old meta.new }
    ensures stops { FailureStep c failure meta.old meta.new }
    ensures same { failure ≡ None → meta.new ≡ meta.old }
    ensures size { length meta.new.pool.connections ≡ length meta.old.pool.connections }
{
    if let Some(reason) = failure {
        meta.stop(c, reason);
    }
}

/// If connection `c` is not finished, stops it.
fn stop(meta: &mut Meta, c: u32)
    requires { c < length meta.old.pool.connections }
    ensures after { StopOneStep c meta.old meta.new }
    ensures unfinished_only { UnfinishedOnlyStep meta.old meta.new }
    ensures own { StopUnlessOver c meta.old meta.new }
    ensures size { length meta.new.pool.connections ≡ length meta.old.pool.connections }
{
    if is_over(meta, c) {
        return;
    }
    meta.stop(c, Reason::Turns);
}

/// Stops each connection that is not finished.
pub(crate) fn stop_all(meta: &mut Meta)
    requires { length meta.old.pool.connections < 2 ^ 32 }
    ensures after { StopAllStep (length meta.old.pool.connections) meta.old meta.new }
    ensures unfinished_only { UnfinishedOnlyStep meta.old meta.new }
    ensures own { AllInTurn StopUnlessOver meta.old meta.new }
    ensures size { length meta.new.pool.connections ≡ length meta.old.pool.connections }
{
    for c in 0..meta.connections() {
        stop(meta, c as u32);
    }
}
