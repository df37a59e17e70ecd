//! Writers with the number of their failed calls.
ghost use Rattle.std.specs.Prelude.{◌≡◌, ◌≤◌, IfSome, length, nat_lt};
ghost use Rattle.zoom_devices.specs.Devices.{next_count, AfterWriteAll};
ghost use Rattle.zmeta_devices.specs.Counted.{counted_state, WritePiecesResult, AfterShow};
ghost use Rattle.zmeta_devices.specs.Pieces.{WritePieceResult};

use std::fmt::Display;
use std::io::{ErrorKind, Write};
use zoom_devices::Failed;

/// A writer, and the number of its failed calls. Only a call of the writer that failed raises the number.
#[derive(Drop)]
pub struct Counted<W> {
    writer: W,
    failures: u64,
}

impl<W> Counted<W> {
    /// A writer with no failed call yet.
    pub(crate) fn new(writer: W) -> Counted<W>
        ensures writer { result.writer ≡ writer }
        ensures no_failure { result.failures ≡ 0 }
    {
        Counted {
            writer,
            failures: 0,
        }
    }

    /// Returns whether a call failed.
    pub(crate) fn has_failed(&self) -> bool
        ensures { result ≡ nat_lt 0 self.now.failures }
    {
        0 < self.failures
    }

    /// Counts a failed call.
    fn fail(&mut self) -> Failed
        ensures writer { self.new.writer ≡ self.old.writer }
        ensures counted { self.new.failures ≡ next_count self.old.failures }
    {
        self.failures = self.failures.saturating_add(1);
        Failed
    }
}

impl<W: Write> Counted<W> {
    /// Writes the whole text. `Failed` if a call failed: a front of the text is then written.
    pub(crate) fn write(&mut self, text: &[u8]) -> Result<(), Failed>
        ensures { AfterWriteAll (counted_state W.contents self.old) (counted_state W.contents self.new) text.now
            result }
    {
        if write_pieces(&mut self.writer, text) {
            Ok(())
        } else {
            Err(self.fail())
        }
    }

    /// Writes a value in its displayed form, without memory. `Failed` if a call failed.
    pub(crate) fn show<D: Display + Drop>(&mut self, value: D) -> Result<(), Failed>
        ensures { AfterShow (counted_state W.contents self.old) (counted_state W.contents self.new) (D.output value)
            result }
    {
        if self.writer.write_fmt(value).is_ok() {
            Ok(())
        } else {
            Err(self.fail())
        }
    }
}

/// Writes a text in pieces, and returns whether the writer took all of it. If not, it took a front.
#[tactic(auto, using(crate::proofs::DeviceSteps::piece_steps))]
fn write_pieces<W: Write>(writer: &mut W, text: &[u8]) -> bool
    ensures { WritePiecesResult (W.contents writer.old) (W.contents writer.new) text.now result }
{
    let mut rest = text;
    for _ in 0..u64::MAX {
        if rest.is_empty() {
            return true;
        }
        let Some(count) = write_piece(writer, rest) else {
            return false;
        };
        rest = &rest[count..];
    }
    false
}

/// Writes a front of the text, and returns its length: 0 if the call was interrupted, `None` if it failed.
#[tactic(auto, using(crate::proofs::DeviceSteps::nothing_put))]
fn write_piece<W: Write>(writer: &mut W, text: &[u8]) -> Option<usize>
    ensures bound { IfSome result (λ count. count ≤ length text.now) }
    ensures bytes { WritePieceResult (W.contents writer.old) (W.contents writer.new) text.now result }
{
    match writer.write(text) {
        Ok(0) => None,
        Ok(count) => Some(count),
        Err(error) => {
            if error.kind() == ErrorKind::Interrupted {
                Some(0)
            } else {
                None
            }
        }
    }
}
