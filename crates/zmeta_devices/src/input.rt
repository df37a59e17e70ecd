//! Streams that are read to their end.
ghost use Rattle.std.specs.Prelude.{◌≡◌, ◌<◌, ◌≤◌, ◌*◌, ◌⊎◌, None, IfOk, IfSome, IfErr, OnOk, OnErr, Err, length, take, vec_len, true, false};
ghost use Rattle.std.specs.Io.KnownBytes.{Consumes, IsAtEnd};
ghost use Rattle.zmeta_devices.specs.Input.{HasLostFront, ReadPieceResult};

use crate::fault::Fault;
use crate::readable::Readable;
use std::alloc::Global;

/// There is no memory for so many octets and one more piece. A device has fewer before the last of its 1,000,000 reads.
const TOO_MANY: usize = 4_095_995_905;

/// The most octets of one read.
const PIECE: usize = 4_096;

/// A stream that is read, and whether a read of it failed.
#[derive(Drop)]
pub struct Input<'a, R> {
    /// The path in the messages about it: a file's path, or `-` for standard input.
    pub path: &'a str,
    /// The reader of its octets.
    pub reader: R,
    /// Whether a read failed.
    pub has_failed: bool,
}

impl<'a, R: Readable> Input<'a, R> {
    /// Returns the stream of a reader. No read of it has failed.
    pub fn new(path: &'a str, reader: R) -> Input<'a, R>
        ensures path { result.path ≡ path.entry }
        ensures reader { result.reader ≡ reader }
        ensures no_failure { result.has_failed ≡ false }
    {
        Input {
            path,
            reader,
            has_failed: false,
        }
    }

    /// Reads all that is left of the stream, in reads of at most 4,096 octets. The last of them finds the end.
    ///
    /// `Read` with the stream's path if a read fails, as the one behind 1,000,000 of a device does. The octets read are
    /// lost, and `has_failed` is set. `Memory` if no memory is found; `has_failed` is unchanged.
    ///
    /// Whatever the result, octets are only taken from the front of the stream.
    pub fn read_all(&mut self, alloc: Global) -> Result<Vec<u8>, Fault<'a>>
        // on success
        ensures whole { IfOk result (λ v. IfSome (R.remaining self.old.reader) (λ xs. v.items ≡ xs)) }
        ensures end { OnOk result (IsAtEnd (R.remaining self.new.reader)) }
        ensures short { IfOk result (λ v. vec_len v ≤ 4096 * 1000000) }
        ensures no_failure { OnOk result (self.new.has_failed ≡ self.old.has_failed) }
        // the path, and the faults
        ensures path { self.new.path ≡ self.old.path }
        ensures err { IfErr result (λ f. ((f ≡ Fault.Read self.old.path) × (self.new.has_failed ≡ true)
            × (R.remaining self.old.reader ≡ None)) ⊎ (f ≡ Fault.Memory)) }
        // in each case
        ensures rest { HasLostFront (R.remaining self.old.reader) (R.remaining self.new.reader) }
        // if no memory is found
        ensures kept { result ≡ Err Fault.Memory → self.new.has_failed ≡ self.old.has_failed }
    {
        let answer = read_pieces(alloc, &mut self.reader, self.path);
        if matches!(answer, Err(Fault::Read(_))) {
            self.has_failed = true;
        }
        answer
    }

    /// Reads octets of the stream until there are this many or more, or it ends, in reads of at most 4,096 octets.
    ///
    /// `Read` with the stream's path if a read fails, as the one behind 1,000,000 of a device does. The octets read are
    /// lost, and `has_failed` is set. `Memory` if no memory is found; `has_failed` is unchanged.
    pub fn read_front(&mut self, alloc: Global, least: usize) -> Result<Vec<u8>, Fault<'a>>
        ensures taken { IfOk result (λ v. Consumes (R.remaining self.old.reader) (R.remaining self.new.reader)
            v.items) }
        ensures end { IfOk result (λ v. vec_len v < least → IsAtEnd (R.remaining self.new.reader)) }
        ensures no_failure { OnOk result (self.new.has_failed ≡ self.old.has_failed) }
        ensures path { self.new.path ≡ self.old.path }
        ensures err { IfErr result (λ f. ((f ≡ Fault.Read self.old.path) × (self.new.has_failed ≡ true)
            × (R.remaining self.old.reader ≡ None)) ⊎ (f ≡ Fault.Memory)) }
    {
        let answer = read_until(alloc, &mut self.reader, self.path, least);
        if matches!(answer, Err(Fault::Read(_))) {
            self.has_failed = true;
        }
        answer
    }

    /// Reads octets into the front of the piece, and returns how many came: 0 only at the end of the stream, or if the
    /// piece has no room.
    ///
    /// `Read` with the stream's path if the read fails. Then `has_failed` is set.
    pub fn read_some(&mut self, piece: &mut [u8]) -> Result<usize, Fault<'a>>
        ensures bound { IfOk result (λ count. count ≤ length piece.new) }
        ensures taken { IfOk result (λ count. Consumes (R.remaining self.old.reader) (R.remaining self.new.reader)
            (take count piece.new)) }
        ensures end { IfOk result (λ count. count ≡ 0 → 0 < length piece.old → IsAtEnd (R.remaining self.new.reader)) }
        ensures err { IfErr result (λ f. (f ≡ Fault.Read self.old.path) × (self.new.has_failed ≡ true)) }
        ensures unknown { OnErr result (R.remaining self.old.reader ≡ None) }
        ensures path { self.new.path ≡ self.old.path }
        ensures room { length piece.new ≡ length piece.old }
    {
        match self.reader.fetch(piece) {
            Some(count) => Ok(count),
            None => {
                self.has_failed = true;
                Err(Fault::Read(self.path))
            }
        }
    }
}

/// Reads all that is left of a reader. `Read(path)` if a read fails. `Memory` if no memory is found.
#[tactic(auto, using(crate::proofs::DeviceSteps::unknown_before, crate::proofs::DeviceSteps::lost_before))]
fn read_pieces<'a, R: Readable>(
    alloc: Global,
    reader: &mut R,
    path: &'a str,
) -> Result<Vec<u8>, Fault<'a>>
    ensures whole { IfOk result (λ v. IfSome (R.remaining reader.old) (λ xs. v.items ≡ xs)) }
    ensures end { OnOk result (IsAtEnd (R.remaining reader.new)) }
    ensures short { IfOk result (λ v. vec_len v ≤ 4096 * 1000000) }
    ensures rest { HasLostFront (R.remaining reader.old) (R.remaining reader.new) }
    ensures err { IfErr result (λ f. ((f ≡ Fault.Read path.entry) × (R.remaining reader.old ≡ None))
        ⊎ (f ≡ Fault.Memory)) }
{
    let mut octets = Vec::new(alloc);
    let mut piece = [0u8; PIECE];
    for reads in 0..u64::MAX {
        if !reader.goes_on(reads) {
            return Err(Fault::Read(path));
        }
        if octets.len() >= TOO_MANY {
            return Err(Fault::Memory);
        }
        let Some(count) = read_piece(reader, &mut piece) else {
            return Err(Fault::Read(path));
        };
        if count == 0 {
            return Ok(octets);
        }
        octets.extend_from_slice(&piece[..count])?;
    }
    Err(Fault::Memory)
}

/// Reads octets of a reader until there are this many or more, or it ends. `Read(path)` if a read fails.
#[tactic(auto, using(crate::proofs::DeviceSteps::unknown_before))]
fn read_until<'a, R: Readable>(
    alloc: Global,
    reader: &mut R,
    path: &'a str,
    least: usize,
) -> Result<Vec<u8>, Fault<'a>>
    ensures taken { IfOk result (λ v. Consumes (R.remaining reader.old) (R.remaining reader.new) v.items) }
    ensures end { IfOk result (λ v. vec_len v < least → IsAtEnd (R.remaining reader.new)) }
    ensures err { IfErr result (λ f. ((f ≡ Fault.Read path.entry) × (R.remaining reader.old ≡ None))
        ⊎ (f ≡ Fault.Memory)) }
{
    let mut octets = Vec::new(alloc);
    let mut part = [0u8; PIECE];
    for reads in 0..u64::MAX {
        if octets.len() >= least {
            return Ok(octets);
        }
        if !reader.goes_on(reads) {
            return Err(Fault::Read(path));
        }
        match read_piece(reader, &mut part) {
            None => return Err(Fault::Read(path)),
            Some(0) => return Ok(octets),
            Some(size) => octets.extend_from_slice(&part[..size])?,
        }
    }
    Err(Fault::Memory)
}

/// Reads a piece of at most 4,096 octets, and returns how many came: 0 only at the end, `None` if the read failed.
fn read_piece<R: Readable>(reader: &mut R, piece: &mut [u8]) -> Option<usize>
    requires { length piece.old ≡ 4096 }
    ensures bound { IfSome result (λ count. count ≤ 4096) }
    ensures bytes { ReadPieceResult (R.remaining reader.old) (R.remaining reader.new) piece.new result }
{
    reader.fetch(piece)
}
