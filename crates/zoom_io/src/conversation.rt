//! Drives one connection over its devices until it ends.
ghost use Rattle.std.specs.Prelude.{◌≡◌, ◌<◌, length, Some, IfErr, OnOk, OnErr};
ghost use Rattle.zoom_pool.specs.declared.state.State.TheVariants as states;
ghost use Rattle.zoom_pool.specs.Links.{stop_at, SameOthers};
ghost use Rattle.zoom_pool.specs.Metas.{MetaTakeStep, MetaIncompleteTake};
ghost use Rattle.zoom_io.specs.declared.conversation.TalkError.TheVariants as errors;
ghost use Rattle.zoom_devices.specs.Devices.{HasNoFailure};
ghost use Rattle.zoom_io.specs.Pushing.{IsBroken};
ghost use Rattle.zoom_io.specs.Blameless.{IfPushMemory, IfTalkMemory};
ghost use Rattle.zoom_io.specs.TalkTraces.{AfterTalk, ended_well, reason_of};
ghost use Rattle.zoom_io.specs.Talking.{talk_error, AfterSettle, AfterListen, AfterFinish, AfterConverse};

use crate::outgoing::PushError;
use crate::talk_steps::{Receipt, send_and_take};
use std::alloc::{AllocError, Global};
use std::fmt::{self, Display};
use thiserror::Error;
use zoom_devices::{Sink, Source};
use zoom_pool::laws::{one_input, one_transcript};
use zoom_pool::{Meta, Reason, State, TakeError};

/// The most octets of one read.
const PIECE: usize = 4096;

/// Why a talk ended before its connection did. The connection has then failed for this reason. What is known is what
/// the messages taken say; after `Memory` perhaps also a part of what the next message says.
#[derive(Clone, Copy, Debug, PartialEq, Eq, Error)]
pub enum TalkError {
    /// A call of the reader failed.
    Read,
    /// A call of the writer failed. How many of the octets handed out last were written is not known.
    Write,
    /// The input ended after a whole message, and the connection was not Closing.
    Ended,
    /// The limit on reads was reached before the connection ended.
    Turns,
    /// No memory was found.
    Memory,
}

impl TalkError {
    /// Returns the fault in words.
    fn text(self) -> &'static str {
        match self {
            TalkError::Read => "the reader failed",
            TalkError::Write => "the writer failed",
            TalkError::Ended => "the input ended",
            TalkError::Turns => "too many reads",
            TalkError::Memory => "out of memory",
        }
    }
}

impl Display for TalkError {
    fn fmt<W: fmt::Write>(&self, f: &mut fmt::Formatter<W>) -> fmt::Result {
        f.write_str(self.text())
    }
}

impl From<AllocError> for TalkError {
    ghost from_gives = { λ _ e. e ≡ errors.Memory };

    fn from(_: AllocError) -> TalkError {
        TalkError::Memory
    }
}

impl From<PushError> for TalkError {
    ghost from_gives = { λ error e. e ≡ talk_error error };

    fn from(error: PushError) -> TalkError {
        match error {
            PushError::Write => TalkError::Write,
            PushError::Memory => TalkError::Memory,
        }
    }
}

/// Makes the calls that are due and writes what waits, first and after each message. Returns whether the connection
/// is Closed or Failed; if not, no complete message is waiting.
fn settle<W: Sink>(alloc: Global, meta: &mut Meta, c: u32, sink: &mut W) -> Result<bool, PushError>
    requires { c < length meta.old.pool.connections }
    ensures settles { AfterSettle c result meta.old meta.new (W.state sink.old) (W.state sink.new) }
    ensures no_failure { IfPushMemory result (HasNoFailure (W.state sink.old) (W.state sink.new)) }
    ensures stopped { IsBroken c result meta.new }
    ensures others { SameOthers c meta.old.pool meta.new.pool }
{
    for _ in 0..u64::MAX {
        match send_and_take(alloc, meta, c, sink)? {
            Receipt::Message => {}
            Receipt::Nothing => return Ok(false),
            Receipt::Over => return Ok(true),
        }
    }
    // More messages came than memory can hold.
    Err(PushError::Memory)
}

/// Reads a piece of octets and feeds it to the connection. Returns `false` if the input has ended.
fn listen<R: Source>(meta: &mut Meta, c: u32, source: &mut R) -> Result<bool, TalkError>
    requires { c < length meta.old.pool.connections }
    ensures listens { AfterListen c result meta.old meta.new (R.state source.old) (R.state source.new) }
    ensures no_failure { IfTalkMemory result (HasNoFailure (R.state source.old) (R.state source.new)) }
    ensures others { SameOthers c meta.old.pool meta.new.pool }
{
    let mut piece = [0u8; PIECE];
    match source.read(&mut piece) {
        Ok(0) => Ok(false),
        Ok(count) => {
            meta.feed(c, &piece[..count])?;
            Ok(true)
        }
        Err(_) => {
            meta.stop(c, Reason::Read);
            Err(TalkError::Read)
        }
    }
}

/// Whether the connection ended for a reason other than the end of its input.
fn ended_well(state: State) -> bool
    ensures { result ≡ ended_well state }
{
    match state {
        State::Closed => true,
        State::Failed(reason) => reason != Reason::Ended,
        _ => false,
    }
}

/// Takes what is left of the input. Fails only if no memory is found.
fn take_last(meta: &mut Meta, c: u32) -> Result<(), AllocError>
    requires { c < length meta.old.pool.connections }
    ensures took { OnOk result (MetaTakeStep c meta.old meta.new) }
    ensures keeps { OnErr result (MetaIncompleteTake c meta.old meta.new) }
    ensures others { SameOthers c meta.old.pool meta.new.pool }
{
    match meta.take(c) {
        Ok(_) => Ok(()),
        Err(error) => match error {
            TakeError::Memory => Err(AllocError),
            _ => Ok(()),
        },
    }
}

/// Ends the input of a connection and takes what is left of it. Refuses with `Ended`, and stops the connection, if
/// that did not end it otherwise.
fn finish(meta: &mut Meta, c: u32) -> Result<(), TalkError>
    requires { c < length meta.old.pool.connections }
    ensures finishes { AfterFinish c result meta.old meta.new }
    ensures others { SameOthers c meta.old.pool meta.new.pool }
{
    one_transcript();
    one_input();
    meta.end(c);
    take_last(meta, c)?;
    if ended_well(meta.state(c)) {
        return Ok(());
    }
    meta.stop(c, Reason::Ended);
    Err(TalkError::Ended)
}

/// Drives a connection over its devices until it ends, a device fails, the limit on reads is reached, or no memory is
/// found. After `Memory` it does not stop the connection.
fn converse<R: Source, W: Sink>(
    alloc: Global,
    meta: &mut Meta,
    c: u32,
    source: &mut R,
    sink: &mut W,
    turns: u32,
) -> Result<(), TalkError>
    requires { c < length meta.old.pool.connections }
    ensures talks { AfterConverse c turns result meta.old meta.new (R.state source.old) (R.state source.new)
        (W.state sink.old) (W.state sink.new) }
    ensures no_failure { IfTalkMemory result (HasNoFailure (R.state source.old) (R.state source.new)
        × HasNoFailure (W.state sink.old) (W.state sink.new)) }
    ensures others { SameOthers c meta.old.pool meta.new.pool }
{
    for _ in 0..turns {
        if settle(alloc, meta, c, sink)? {
            return Ok(());
        }
        if !listen(meta, c, source)? {
            return finish(meta, c);
        }
    }
    if settle(alloc, meta, c, sink)? {
        return Ok(());
    }
    meta.stop(c, Reason::Turns);
    Err(TalkError::Turns)
}

/// Drives connection `c` over its devices until it is Closed or Failed (Z39.50-2003, 3.2). Makes the calls that are
/// due, writes what waits and takes the waiting messages, and repeats the first two after each message. Then reads up
/// to 4,096 octets and goes on; at most `turns` reads give octets. When the reader has no octets left, the
/// connection's input ends.
///
/// Returns `Ok` if the connection is Closed, failed for its messages, or was stopped before. The octets read are
/// those that the connection was fed; the octets written are those that it handed out. This is promised of a device
/// whose octets are known. Before each take, everything sent by then is handed out and written.
///
/// If a take of the connection found no memory before the talk, the first take of the talk completes it, unless the
/// connection was Closed or Failed by then. The result then promises what it promises without that earlier take:
/// `Read`, `Ended` and `Turns` always, `Ok` if the connection was neither Closed nor Failed before the talk, `Write`
/// and `Memory` if a read gave octets.
///
/// Each refusal leaves the connection failed for the same reason. At most one call of a device fails:
///
/// - `Read`, `Write`: one call of that device failed, and none of the other. After `Write`, a front of the octets
///   handed out last was written.
/// - `Ended`: the input ended after a whole message, and the connection was not Closing.
/// - `Turns`: `turns` reads gave octets, and the connection did not end after them.
/// - `Memory`: no memory was found, and no call of a device failed. At most `turns` reads gave octets. The calls made,
///   the octets handed out and written, and the messages taken stand. If memory was wanting for a piece, it was read,
///   and nothing of it was fed. What is known is what the messages taken say; if memory was wanting for a take, perhaps
///   also a part of what the next message says. All calls on the other connections keep their promises, as after a
///   take that found no memory.
///
/// The other connections are unchanged, whatever the result.
pub fn talk<R: Source, W: Sink>(
    alloc: Global,
    meta: &mut Meta,
    c: u32,
    source: &mut R,
    sink: &mut W,
    turns: u32,
) -> Result<(), TalkError>
    requires { c < length meta.old.pool.connections }
    ensures talks { AfterTalk c turns result meta.old meta.new (R.state source.old) (R.state source.new)
        (W.state sink.old) (W.state sink.new) }
    ensures no_failure { IfTalkMemory result (HasNoFailure (R.state source.old) (R.state source.new)
        × HasNoFailure (W.state sink.old) (W.state sink.new)) }
    ensures stopped { IfErr result (λ e. stop_at meta.new.pool c ≡ Some (states.Failed (reason_of e))) }
    ensures others { SameOthers c meta.old.pool meta.new.pool }
{
    match converse(alloc, meta, c, source, sink, turns) {
        Ok(()) => Ok(()),
        Err(error) => match error {
            TalkError::Memory => {
                meta.stop(c, Reason::Memory);
                Err(TalkError::Memory)
            }
            _ => Err(error),
        },
    }
}
