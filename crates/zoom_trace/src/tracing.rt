//! Writes the lines of a trace to a sink.
ghost use Rattle.std.specs.Prelude.{◌≡◌, ◌≤◌, ◌∷◌, [], false, length, IfSome, OnOk};
ghost use Rattle.std.specs.Io.KnownBytes.{Appends};
ghost use Rattle.zoom_trace.specs.Recording.{received, sent};
ghost use Rattle.zoom_trace.specs.Tracing.{IsTracedOn, HasPutFront, HasPutPiece};

use crate::entry::TraceEntry;
use crate::writing::{put_ended, put_received, put_sent};
use std::alloc::{AllocError, Global};
use std::io::{ErrorKind, Write};

/// A sink for a trace, the lines that wait to be written to it, and whether a call of it failed. After that nothing
/// is written to it any more, and lines are dropped.
///
/// After a call that found no memory, no call promises more.
#[derive(Drop)]
pub struct Tracer<W> {
    sink: W,
    lines: Vec<u8>,
    has_failed: bool,
}

impl<W> Tracer<W> {
    /// A sink of which no call failed yet, and no lines.
    pub fn new(alloc: Global, sink: W) -> Tracer<W>
        ensures sink { result.sink ≡ sink }
        ensures lines { result.lines.items ≡ [] }
        ensures no_failure { result.has_failed ≡ false }
    {
        Tracer {
            sink,
            lines: Vec::new(alloc),
            has_failed: false,
        }
    }

    /// Whether a call of the sink failed.
    pub fn has_failed(&self) -> bool
        ensures { result ≡ self.now.has_failed }
    {
        self.has_failed
    }

    /// The sink. Lines that wait are dropped.
    pub fn into_sink(self) -> W
        ensures { result ≡ self.sink }
    {
        self.sink
    }
}

impl<W: Write> Tracer<W> {
    /// Puts the line of an entry behind those that wait. Returns `AllocError` if no memory is found.
    #[tactic(auto, using(crate::proofs::TracedLines::put_lines, crate::proofs::TracedLines::dropped_lines))]
    pub fn put(&mut self, alloc: Global, entry: &TraceEntry) -> Result<(), AllocError>
        ensures { OnOk result (IsTracedOn W.contents (entry.now ∷ []) self.old self.new) }
    {
        if self.has_failed {
            return Ok(());
        }
        put_ended(alloc, entry, &mut self.lines)
    }

    /// The same of octets that came on a connection.
    #[tactic(auto, using(crate::proofs::TracedLines::put_lines, crate::proofs::TracedLines::dropped_lines))]
    pub(crate) fn put_received(
        &mut self,
        alloc: Global,
        at: u64,
        c: u32,
        octets: &[u8],
    ) -> Result<(), AllocError>
        ensures { OnOk result (IsTracedOn W.contents (received at c octets.now) self.old self.new) }
    {
        if self.has_failed {
            return Ok(());
        }
        put_received(alloc, at, c, octets, &mut self.lines)
    }

    /// The same of octets that were handed out to be sent.
    #[tactic(auto, using(crate::proofs::TracedLines::put_lines, crate::proofs::TracedLines::dropped_lines))]
    pub(crate) fn put_sent(
        &mut self,
        alloc: Global,
        at: u64,
        c: u32,
        octets: &[u8],
    ) -> Result<(), AllocError>
        ensures { OnOk result (IsTracedOn W.contents (sent at c octets.now) self.old self.new) }
    {
        if self.has_failed {
            return Ok(());
        }
        put_sent(alloc, at, c, octets, &mut self.lines)
    }

    /// Writes the lines that wait, and flushes the sink. It takes no memory; that of the lines is used again.
    #[tactic(auto, using(crate::proofs::TracedLines::none_traced, crate::proofs::TracedLines::lines_out, crate::proofs::TracedLines::lines_dropped))]
    pub fn write_out(&mut self)
        ensures traced { IsTracedOn W.contents [] self.old self.new }
        ensures none { self.new.lines.items ≡ [] }
    {
        if self.lines.is_empty() {
            return;
        }
        if !self.has_failed {
            self.has_failed = !write_flushed(&mut self.sink, &self.lines);
        }
        self.lines.clear();
    }
}

/// Writes a text and flushes the sink, and returns whether no call failed. If one did, a front is written.
#[tactic(auto, using(crate::proofs::TracedLines::flushed))]
fn write_flushed<W: Write>(sink: &mut W, text: &[u8]) -> bool
    ensures { HasPutFront (W.contents sink.old) (W.contents sink.new) text.now result }
{
    write_pieces(sink, text) && sink.flush().is_ok()
}

/// Writes a text in pieces, and returns whether the sink took all of it. If not, it took a front.
#[tactic(auto, using(crate::proofs::TracedLines::front_put, crate::proofs::TracedLines::stopped_put, crate::proofs::TracedLines::none_put))]
fn write_pieces<W: Write>(sink: &mut W, text: &[u8]) -> bool
    ensures { HasPutFront (W.contents sink.old) (W.contents sink.new) text.now result }
{
    let mut rest = text;
    for _ in 0..u64::MAX {
        if rest.is_empty() {
            return true;
        }
        let Some(count) = write_piece(sink, rest) else {
            return false;
        };
        rest = &rest[count..];
    }
    false
}

/// Writes a front of a text, and returns its length: 0 if the call was interrupted, `None` if it failed.
#[tactic(auto, using(crate::proofs::TracedLines::nothing_put))]
fn write_piece<W: Write>(sink: &mut W, text: &[u8]) -> Option<usize>
    ensures bound { IfSome result (λ count. count ≤ length text.now) }
    ensures bytes { HasPutPiece (W.contents sink.old) (W.contents sink.new) text.now result }
{
    match sink.write(text) {
        Ok(0) => None,
        Ok(count) => Some(count),
        Err(error) => {
            if error.kind() == ErrorKind::Interrupted {
                Some(0)
            } else {
                None
            }
        }
    }
}
