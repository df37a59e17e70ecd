//! Readers and writers of the standard library as devices: TCP streams, and octets in memory.
ghost use Rattle.std.specs.Prelude.{◌≡◌};
ghost use Rattle.zoom_devices.specs.Devices.{next_count};
ghost use Rattle.zoom_devices.specs.Streams.{AfterReadAgain, AfterWriteAgain};

use crate::device::{Failed, Sink, Source};
use std::io::{ErrorKind, Read, Write};

/// A reader, a writer, or both, with a count of its failures: a TCP stream, a slice of octets to read, or a `Vec` to
/// write to. The octets of a stream are not known. An interrupted call is made again. A write that takes no octet of
/// a piece that is not empty is a failure.
#[derive(Drop)]
pub struct Counting<D> {
    inner: D,
    failures: u64,
}

impl<D> Counting<D> {
    /// A device made of a reader or writer, with no failed call yet. It allocates nothing.
    pub fn new(inner: D) -> Counting<D>
        ensures inner { result.inner ≡ inner }
        ensures failures { result.failures ≡ 0 }
    {
        Counting { inner, failures: 0 }
    }

    /// The reader or writer. It allocates nothing.
    pub fn into_inner(self) -> D
        ensures { result ≡ self.inner }
    {
        let Counting { inner, failures: _ } = self;
        inner
    }

    /// Counts a failure.
    fn fail(&mut self) -> Failed
        ensures inner { self.new.inner ≡ self.old.inner }
        ensures next_count { self.new.failures ≡ next_count self.old.failures }
    {
        self.failures = self.failures.saturating_add(1);
        Failed
    }
}

impl<D: Read> Source for Counting<D> {
    ghost state = { λ d. record { octets = D.remaining d.inner; failures = d.failures } };

    fn read(&mut self, piece: &mut [u8]) -> Result<usize, Failed> {
        match read_again(&mut self.inner, piece) {
            Some(count) => Ok(count),
            None => Err(self.fail()),
        }
    }

    fn failures(&self) -> u64 {
        self.failures
    }
}

impl<D: Write> Sink for Counting<D> {
    ghost state = { λ d. record { octets = D.contents d.inner; failures = d.failures } };

    fn write(&mut self, piece: &[u8]) -> Result<usize, Failed> {
        match write_again(&mut self.inner, piece) {
            Some(count) => Ok(count),
            None => Err(self.fail()),
        }
    }

    fn failures(&self) -> u64 {
        self.failures
    }
}

/// Reads, and repeats an interrupted read. Returns `None` if the read failed.
fn read_again<D: Read>(reader: &mut D, piece: &mut [u8]) -> Option<usize>
    ensures { AfterReadAgain (D.remaining reader.old) (D.remaining reader.new) result piece.new }
{
    for _ in 0..u64::MAX {
        match reader.read(piece) {
            Ok(count) => return Some(count),
            Err(error) => {
                if error.kind() != ErrorKind::Interrupted {
                    return None;
                }
            }
        }
    }
    None
}

/// Writes, and repeats an interrupted write. Returns `None` if the write failed, or took no octet of a piece that is
/// not empty.
fn write_again<D: Write>(writer: &mut D, piece: &[u8]) -> Option<usize>
    ensures { AfterWriteAgain (D.contents writer.old) (D.contents writer.new) result piece.now }
{
    for _ in 0..u64::MAX {
        match writer.write(piece) {
            Ok(count) => {
                return if count == 0 && !piece.is_empty() {
                    None
                } else {
                    Some(count)
                };
            }
            Err(error) => {
                if error.kind() != ErrorKind::Interrupted {
                    return None;
                }
            }
        }
    }
    None
}
