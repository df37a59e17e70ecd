//! What is read piece by piece. Where it is known what is left, no read fails.
ghost use Rattle.std.specs.Prelude.{◌≡◌, ◌<◌, ◌≤◌, List, ℕ, Option, None, Some, IfSome, IfNone, false, length, take};
ghost use Rattle.std.specs.Io.KnownBytes.{Consumes, IsAtEnd};

use std::fs::File;
use std::io::{Read, Stdin};

/// The most reads of a device that one loop makes.
const MOST_READS: u64 = 1_000_000;

/// What is read piece by piece, up to its end.
pub trait Readable {
    /// The octets that are left, if they are known. A failing device is one of which they are not.
    ghost remaining: { Self → Option (List ℕ) } = { λ _. None };

    /// Reads octets into the front of a piece, and returns how many came: 0 only at the end, or if the piece has no
    /// room. `None` if the read fails.
    fn fetch(&mut self, piece: &mut [u8]) -> Option<usize>
        ensures bound { IfSome result (λ count. count ≤ length piece.new) }
        ensures taken { IfSome result (λ count. Consumes (remaining self.old) (remaining self.new)
            (take count piece.new)) }
        ensures end { IfSome result (λ count. count ≡ 0 → 0 < length piece.old → IsAtEnd (remaining self.new)) }
        ensures failed { IfNone result (remaining self.old ≡ None) };

    /// Whether a loop that has made so many reads may make one more. Of a device it makes 1,000,000 at most, and one
    /// more is a failed read.
    fn goes_on(&self, reads: u64) -> bool
        ensures unknown { result ≡ false → remaining self.now ≡ None };
}

/// The kit does not say what a file has.
impl Readable for File {
    fn fetch(&mut self, piece: &mut [u8]) -> Option<usize> {
        self.read(piece).ok()
    }

    fn goes_on(&self, reads: u64) -> bool {
        reads < MOST_READS
    }
}

/// The kit does not say what comes from standard input.
impl Readable for Stdin {
    fn fetch(&mut self, piece: &mut [u8]) -> Option<usize> {
        self.read(piece).ok()
    }

    fn goes_on(&self, reads: u64) -> bool {
        reads < MOST_READS
    }
}

impl Readable for &[u8] {
    ghost remaining = { λ s. Some s.now };

    fn fetch(&mut self, piece: &mut [u8]) -> Option<usize> {
        self.read(piece).ok()
    }

    fn goes_on(&self, _reads: u64) -> bool {
        true
    }
}
