//! A saved file that is read in pieces, element by element, and where its facts stand.
ghost use Rattle.std.specs.Prelude.{◌≡◌, ◌+◌, ◌^◌, ◌<◌, length, Some, None, IfOk, IfSome, OnOk, OnErr};
ghost use Rattle.std.specs.Option.{option_map};
ghost use Rattle.zknow_merge.specs.Inputs.{Input, fed, at_end, no_input};
ghost use Rattle.zknow_merge.specs.declared.scan.FactPlace.{FactPlace};
ghost use Rattle.zknow_merge.specs.declared.scan.ScanStep.{ScanStep};
ghost use Rattle.zknow_merge.specs.Scans.{Found, names_octets, last_element_of, kind_number, IsPlaced, last_element};
ghost use Rattle.zknow_merge.specs.Scans.{IsScan, AfterScan, AfterScanRead, IsReadOn};
ghost use Rattle.zknow_merge.specs.Sources.{IsWanting};

use crate::front::LONGEST;
use crate::head::Head;
use crate::source::{Read, Source};
use std::alloc::{AllocError, Global};
use zknow::LoadError;

/// The kind of a fact.
#[derive(Clone, Copy, PartialEq, Eq, Drop)]
pub enum FactKind {
    Count,
    Failed,
    Record,
    Diagnostic,
}

/// A fact of a saved file, without its record or diagnostic, and where its element stands.
#[derive(Clone, Copy, PartialEq, Eq, Drop)]
pub struct FactPlace {
    pub kind: FactKind,
    pub target: u32,
    pub set: u32,
    /// The count, position or place; 0 for a failure.
    pub number: i64,
    /// How many octets of the file stand before the element.
    pub begin: u64,
    /// How many octets stand before the end of the element.
    pub end: u64,
}

/// The most octets that a scan may have read before it reads an element.
const MOST: u64 = u64::MAX - LONGEST as u64;

/// What a scan needs next, or what it found.
#[derive(Clone, Copy, PartialEq, Eq, Drop)]
pub enum ScanStep {
    /// Octets are needed: call `feed` with the next piece of the file, or `end` at its end.
    Need,
    /// The element of the names was read, which is the first: `names` has it.
    Names,
    /// The element of a fact was read.
    Fact(FactPlace),
    /// The file has this fault, as `load` returns it for each file that goes on from here.
    Refused(LoadError),
    /// The file is at its end, and it is the saved file of the names and facts that were read.
    Done,
}

/// A saved file that is read in pieces. It keeps the octets that are not read yet, and at most two elements.
#[derive(Drop)]
pub struct Scan {
    alloc: Global,
    source: Source,
    /// How many octets of the file were read.
    at: u64,
}

/// Returns the kind of this number, in fact order.
fn kind_of(number: u8) -> FactKind
    ensures { number < 4 → kind_number result ≡ number }
{
    match number {
        0 => FactKind::Count,
        1 => FactKind::Failed,
        2 => FactKind::Record,
        _ => FactKind::Diagnostic,
    }
}

/// Returns what orders the fact of a head, with these bounds of its element.
fn place_of(head: &Head, begin: u64, end: u64) -> FactPlace
    ensures { IsPlaced head.now begin end result }
{
    FactPlace {
        kind: kind_of(head.kind),
        target: head.target,
        set: head.set,
        number: head.number,
        begin,
        end,
    }
}

/// Returns the step that read the last fact, or the names if there is none.
fn step_of(last: &Option<Head>, begin: u64, end: u64) -> ScanStep
    ensures names { last.now ≡ None → result ≡ ScanStep.Names }
    ensures fact { IfSome last.now (λ h. (p : FactPlace) × (result ≡ ScanStep.Fact p) × IsPlaced h begin end p) }
{
    match last {
        None => ScanStep::Names,
        Some(head) => ScanStep::Fact(place_of(head, begin, end)),
    }
}

/// Returns how many octets the element has that was read last.
fn last_size(source: &Source) -> usize
    ensures { result ≡ length (last_element source.now) }
{
    match (&source.last, &source.names) {
        (Some(head), _) => head.element.len(),
        (None, Some(names)) => names.len(),
        (None, None) => 0,
    }
}

impl Scan {
    /// Returns the scan of a file of which nothing has come.
    pub fn new(alloc: Global) -> Scan
        ensures { IsScan no_input None result }
    {
        Scan {
            alloc,
            source: Source::new(alloc),
            at: 0,
        }
    }

    /// Takes the next piece of the file. At its end it takes no more. Returns `AllocError` if no memory is found; the
    /// piece may then be fed again.
    pub fn feed(&mut self, piece: &[u8]) -> Result<(), AllocError>
        ensures ok { OnOk result ((i : Input) (found : Found) → IsScan i found self.old
            → IsScan (fed piece.now i) found self.new) }
        ensures err { OnErr result ((i : Input) (found : Found) → IsScan i found self.old → IsScan i found self.new) }
    {
        self.source.feed(piece)
    }

    /// Notes that the file is at its end.
    pub fn end(&mut self)
        ensures { (i : Input) (found : Found) → IsScan i found self.old → IsScan (at_end i) found self.new }
    {
        self.source.end();
    }

    /// Returns the element of the names, if it was read.
    pub fn names(&self) -> Option<&[u8]>
        ensures { (i : Input) (found : Found) → IsScan i found self.now
            → option_map (λ octets. octets.now) result ≡ names_octets found }
    {
        match &self.source.names {
            None => None,
            Some(names) => Some(names.as_slice()),
        }
    }

    /// Returns the element of the fact that was read last, `None` before one was read.
    pub fn element(&self) -> Option<&[u8]>
        ensures { (i : Input) (found : Found) → IsScan i found self.now
            → option_map (λ octets. octets.now) result ≡ last_element_of found }
    {
        match &self.source.last {
            None => None,
            Some(head) => Some(head.element.as_slice()),
        }
    }

    /// Goes one step on: reads the next element, or returns what is needed or how the file ends.
    ///
    /// Returns `AllocError` if no memory is found, or if the file has nearly 2^64 octets. The step can be made again.
    pub fn next(&mut self) -> Result<ScanStep, AllocError>
        ensures ok { IfOk result (λ step. (i : Input) (found : Found) → IsScan i found self.old
            → AfterScan i found step self.new) }
        ensures err { OnErr result ((i : Input) (found : Found) → IsScan i found self.old → IsScan i found self.new) }
    {
        if !self.source.is_wanting() {
            return Ok(ScanStep::Done);
        }
        if self.at > MOST {
            return Err(AllocError);
        }
        match self.read()? {
            Read::Need => Ok(ScanStep::Need),
            Read::Fault(fault) => Ok(ScanStep::Refused(fault)),
            Read::Element => Ok(self.take_element()),
        }
    }

    /// Reads the next element, and stays before it.
    fn read(&mut self) -> Result<Read, AllocError>
        requires { IsWanting self.old.source }
        ensures ok { IfOk result (λ r. (i : Input) (found : Found) → IsScan i found self.old
            → AfterScanRead i found r self.new) }
        ensures err { OnErr result ((i : Input) (found : Found) → IsScan i found self.old → IsScan i found self.new) }
        ensures at { self.new.at ≡ self.old.at }
    {
        let read = self.source.read(self.alloc);
        self.source.waiting = false;
        read
    }

    /// Goes behind the element that was read, and returns what it is.
    fn take_element(&mut self) -> ScanStep
        ensures { (i : Input) (found : Found) → self.old.at + 4194304 < 2 ^ 64 → IsReadOn i found self.old
            → AfterScan i found result self.new }
    {
        let begin = self.at;
        self.at = begin.saturating_add(last_size(&self.source) as u64);
        step_of(&self.source.last, begin, self.at)
    }
}
