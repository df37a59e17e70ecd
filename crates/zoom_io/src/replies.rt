//! Lets a target in memory answer over devices.
ghost use Rattle.std.specs.Prelude.{◌≡◌, ◌||◌};
ghost use Rattle.zoom_io.specs.declared.replies.AnswerError.TheVariants as errors;
ghost use Rattle.zoom_io.specs.Answering.{AfterReleaseAll, AfterWriteReplies, AfterReplyAll, AfterReadPiece, AfterAnswer};

use crate::outgoing::write_all;
use std::alloc::{AllocError, Global};
use std::fmt::{self, Display};
use thiserror::Error;
use zoom_devices::{Sink, Source};
use zoom_pool::Host;

/// The most octets of one read.
const PIECE: usize = 4096;

/// Why answering ended early. The octets fed and the replies released by then stay in effect at the serving end.
#[derive(Clone, Copy, Debug, PartialEq, Eq, Error)]
pub enum AnswerError {
    /// A call of the reader failed.
    Read,
    /// A call of the writer failed. How many octets of the replies were written is not known.
    Write,
    /// The limit on reads was reached before the serving end was done.
    Turns,
    /// No memory was found.
    Memory,
}

impl AnswerError {
    /// Returns the fault in words.
    fn text(self) -> &'static str {
        match self {
            AnswerError::Read => "the reader failed",
            AnswerError::Write => "the writer failed",
            AnswerError::Turns => "too many reads",
            AnswerError::Memory => "out of memory",
        }
    }
}

impl Display for AnswerError {
    fn fmt<W: fmt::Write>(&self, f: &mut fmt::Formatter<W>) -> fmt::Result {
        f.write_str(self.text())
    }
}

impl From<AllocError> for AnswerError {
    ghost from_gives = { λ _ e. e ≡ errors.Memory };

    fn from(_: AllocError) -> AnswerError {
        AnswerError::Memory
    }
}

/// Releases all replies, in order.
fn release_all(host: &mut Host) -> Result<(), AllocError>
    ensures { AfterReleaseAll result host.old host.new }
{
    for _ in 0..u64::MAX {
        if !host.release(0)? {
            return Ok(());
        }
    }
    // More replies were pending than memory can hold.
    Err(AllocError)
}

/// Writes the octets that wait at the serving end.
fn write_replies<W: Sink>(alloc: Global, host: &mut Host, sink: &mut W) -> Result<(), AnswerError>
    ensures { AfterWriteReplies result host.old host.new (W.state sink.old) (W.state sink.new) }
{
    let mut octets = Vec::new(alloc);
    host.outgoing(&mut octets)?;
    match write_all(sink, &octets) {
        Ok(()) => Ok(()),
        Err(_) => Err(AnswerError::Write),
    }
}

/// Releases all replies, in order, and writes what waits at the serving end.
fn reply_all<W: Sink>(alloc: Global, host: &mut Host, sink: &mut W) -> Result<(), AnswerError>
    ensures { AfterReplyAll result host.old host.new (W.state sink.old) (W.state sink.new) }
{
    release_all(host)?;
    write_replies(alloc, host, sink)
}

/// Whether the serving end stopped, or put its Close out.
fn is_done(host: &Host) -> bool
    ensures { result ≡ (host.now.stopped || host.now.closed) }
{
    host.stopped() || host.closed()
}

/// Reads a piece of octets, and feeds it to the serving end. Returns `false` if the input has ended.
fn read_piece<R: Source>(host: &mut Host, source: &mut R) -> Result<bool, AnswerError>
    ensures { AfterReadPiece result host.old host.new (R.state source.old) (R.state source.new) }
{
    let mut piece = [0u8; PIECE];
    match source.read(&mut piece) {
        Ok(0) => Ok(false),
        Ok(count) => {
            host.feed(&piece[..count])?;
            Ok(true)
        }
        Err(_) => Err(AnswerError::Read),
    }
}

/// Lets a target in memory answer what is read. Releases all replies of the serving end in order, and writes what waits
/// there, first and after each piece. Then reads up to 4,096 octets and feeds them to it, unless it is done. At most
/// `reads` reads give octets.
///
/// Returns `Ok` if the input ended, the serving end put its Close out (Z39.50-2003, 3.2.11.1), or it stopped. The
/// octets read are those that it was fed; the octets written are those that it handed out. This is promised of a
/// device whose octets are known. All replies are written:
/// nothing waits to go out, and no reply is pending unless the serving end stopped. The same holds before each read.
///
/// After a refusal, the octets fed and the replies released by then stay in effect. At most one call of a device
/// fails:
///
/// - `Read`, `Write`: one call of that device failed, and none of the other. After `Read`, all replies are written.
///   After `Write`, all are released, and a front of the octets handed out last was written.
/// - `Turns`: `reads` reads gave octets, and the serving end neither stopped nor put its Close out. All replies are
///   written.
/// - `Memory`: no memory was found. If it was lacking for a piece or a reply, the serving end stopped.
pub fn answer<R: Source, W: Sink>(
    alloc: Global,
    host: &mut Host,
    source: &mut R,
    sink: &mut W,
    reads: u32,
) -> Result<(), AnswerError>
    ensures { AfterAnswer reads result host.old host.new (R.state source.old) (R.state source.new)
        (W.state sink.old) (W.state sink.new) }
{
    for _ in 0..reads {
        reply_all(alloc, host, sink)?;
        if is_done(host) {
            return Ok(());
        }
        if !read_piece(host, source)? {
            return Ok(());
        }
    }
    reply_all(alloc, host, sink)?;
    if is_done(host) {
        return Ok(());
    }
    Err(AnswerError::Turns)
}
