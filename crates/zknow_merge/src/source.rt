//! One input of a merge: its octets that are not read yet, and the last fact that was read.
ghost use Rattle.std.specs.Prelude.{◌≡◌, ◌≢◌, ◌↔◌, Ok, ◌+◌, ◌<◌, ◌∷◌, ◌++◌, true, false, List, [], None, length, IsTrue, IfOk, OnOk, OnErr};
ghost use Rattle.std.specs.List.Sorted.{IsStrictlySortedBy};
ghost use Rattle.zknow.specs.declared.fact.Fact.{Fact};
ghost use Rattle.zknow.specs.Facts.{fact_cmp};
ghost use Rattle.zknow_merge.specs.Heads.{IsKeyOf};
ghost use Rattle.zknow_merge.specs.Inputs.{Input, fed, at_end, no_input};
ghost use Rattle.zknow_merge.specs.Sources.{IsLastHead, IsWanting, IsNewSource, IsReadFrom, IsReadStep, IsNextFault, IsNextHead, AfterRead, KeepsNames, left_of};

use crate::front::{FrontError, LONGEST, take_front};
use crate::head::{Head, head_of, is_below};
use crate::names::FileNames;
use crate::plain::plain_head;
use bytes::BytesMut;
use std::alloc::{AllocError, Global};
use zknow::{Fact, LoadError};

/// What a source did to read an element.
#[derive(Clone, Copy, PartialEq, Eq, Drop)]
pub(crate) enum Read {
    /// It needs octets.
    Need,
    /// It found a fault.
    Fault(LoadError),
    /// It read an element.
    Element,
}

/// What was read of one input. The last fact waits until it is merged.
#[derive(Drop)]
pub(crate) struct Source {
    /// The octets behind the elements that were read.
    pub(crate) octets: BytesMut,
    /// Whether the input is at its end.
    pub(crate) ended: bool,
    /// The fewest octets in which the next element is looked for, unless the input is at its end.
    pub(crate) due: usize,
    /// The element of the names.
    pub(crate) names: Option<Vec<u8>>,
    /// The last fact.
    pub(crate) last: Option<Head>,
    /// Whether the last fact was not merged yet.
    pub(crate) waiting: bool,
    /// How many elements were read.
    pub(crate) count: usize,
}

/// Whether a fact is above the last one, if there is one.
fn is_above(last: &Option<Head>, head: &Head) -> bool
    ensures { (facts : List Fact) (f : Fact) → IsLastHead facts last.now → IsKeyOf head.now f
        → IsStrictlySortedBy fact_cmp facts → (IsTrue result ↔ IsStrictlySortedBy fact_cmp (facts ++ f ∷ [])) }
{
    match last {
        None => true,
        Some(last) => is_below(last, head),
    }
}

impl Source {
    /// Returns the source of an input of which nothing has come.
    pub(crate) fn new(alloc: Global) -> Source
        ensures read { IsReadFrom [] no_input result }
        ensures empty { IsNewSource result }
    {
        Source {
            octets: BytesMut::new(alloc),
            ended: false,
            due: 1,
            names: None,
            last: None,
            waiting: false,
            count: 0,
        }
    }

    /// Takes the next piece of the input. At its end it takes no more. Returns `AllocError` if no memory is found; the
    /// source is unchanged.
    pub(crate) fn feed(&mut self, piece: &[u8]) -> Result<(), AllocError>
        ensures ok { OnOk result ((merged : List Fact) (input : Input) → IsReadFrom merged input self.old
            → IsReadFrom merged (fed piece.now input) self.new) }
        ensures names { self.new.names ≡ self.old.names }
        ensures waiting { self.new.waiting ≡ self.old.waiting }
        ensures count { self.new.count ≡ self.old.count }
        ensures err { OnErr result ((merged : List Fact) (input : Input) → IsReadFrom merged input self.old
            → IsReadFrom merged input self.new) }
    {
        if !self.ended {
            self.octets.extend_from_slice(piece)?;
        }
        Ok(())
    }

    /// Notes that the input is at its end.
    pub(crate) fn end(&mut self)
        ensures ended { (merged : List Fact) (input : Input) → IsReadFrom merged input self.old
            → IsReadFrom merged (at_end input) self.new }
        ensures names { self.new.names ≡ self.old.names }
        ensures waiting { self.new.waiting ≡ self.old.waiting }
        ensures count { self.new.count ≡ self.old.count }
    {
        self.ended = true;
    }

    /// Whether the source has to read an element: its last fact was merged, and more may come.
    pub(crate) fn is_wanting(&self) -> bool
        ensures { IsTrue result ↔ IsWanting self.now }
    {
        !self.waiting && !(self.ended && self.octets.is_empty() && self.names.is_some())
    }

    /// Reads the next element: the names, or else a fact. Returns `AllocError` if no memory is found, or if 2^64
    /// elements were read.
    pub(crate) fn read(&mut self, alloc: Global) -> Result<Read, AllocError>
        requires { IsWanting self.old }
        ensures step { IsReadStep self.old result self.new }
        ensures names { KeepsNames self.old self.new }
        ensures further { result ≡ Ok Read.Element → left_of self.new < left_of self.old }
        ensures first { result ≡ Ok Read.Element → self.old.names ≡ None → self.new.count ≡ 1 }
        ensures next { result ≡ Ok Read.Element → self.old.names ≢ None → self.new.count ≡ self.old.count + 1 }
        ensures still { result ≢ Ok Read.Element → self.new.count ≡ self.old.count }
    {
        if !self.ended && self.is_short() {
            return Ok(Read::Need);
        }
        if self.names.is_none() {
            self.read_names(alloc)
        } else {
            self.read_fact(alloc)
        }
    }

    /// Whether there are too few octets to look for an element.
    fn is_short(&self) -> bool
        ensures { result ≡ false → 0 < length self.now.octets.items }
    {
        self.octets.is_empty() || self.octets.len() < self.due
    }

    /// Reads the names.
    fn read_names(&mut self, alloc: Global) -> Result<Read, AllocError>
        requires { self.old.names ≡ None }
        ensures step { IsReadStep self.old result self.new }
        ensures names { KeepsNames self.old self.new }
        ensures further { result ≡ Ok Read.Element → left_of self.new < left_of self.old }
        ensures first { result ≡ Ok Read.Element → self.new.count ≡ 1 }
        ensures still { result ≢ Ok Read.Element → self.new.count ≡ self.old.count }
    {
        match take_front::<FileNames>(alloc, self.octets.as_slice()) {
            Ok((_, element)) => {
                self.octets.advance(element.len());
                self.names = Some(element);
                self.due = 1;
                self.count = 1;
                Ok(Read::Element)
            }
            Err(error) => self.refuse(error),
        }
    }

    /// Reads a fact. Most facts are plain records: they are neither decoded nor encoded again.
    fn read_fact(&mut self, alloc: Global) -> Result<Read, AllocError>
        requires merged { self.old.waiting ≡ false }
        requires named { self.old.names ≢ None }
        requires some { 0 < length self.old.octets.items }
        ensures step { IsReadStep self.old result self.new }
        ensures names { KeepsNames self.old self.new }
        ensures further { result ≡ Ok Read.Element → left_of self.new < left_of self.old }
        ensures next { result ≡ Ok Read.Element → self.new.count ≡ self.old.count + 1 }
        ensures still { result ≢ Ok Read.Element → self.new.count ≡ self.old.count }
    {
        if let Some(head) = plain_head(alloc, &self.octets)? {
            return self.take_head(head);
        }
        self.read_any_fact(alloc)
    }

    /// Reads a fact of any kind and form.
    fn read_any_fact(&mut self, alloc: Global) -> Result<Read, AllocError>
        requires merged { self.old.waiting ≡ false }
        requires named { self.old.names ≢ None }
        requires some { 0 < length self.old.octets.items }
        ensures step { IsReadStep self.old result self.new }
        ensures names { KeepsNames self.old self.new }
        ensures further { result ≡ Ok Read.Element → left_of self.new < left_of self.old }
        ensures next { result ≡ Ok Read.Element → self.new.count ≡ self.old.count + 1 }
        ensures still { result ≢ Ok Read.Element → self.new.count ≡ self.old.count }
    {
        match take_front::<Fact>(alloc, self.octets.as_slice()) {
            Ok((fact, element)) => {
                let head = head_of(alloc, &fact, element)?;
                self.take_head(head)
            }
            Err(error) => self.refuse(error),
        }
    }

    /// Takes the head of the next fact, or refuses it if it is not above the last one.
    fn take_head(&mut self, head: Head) -> Result<Read, AllocError>
        requires merged { self.old.waiting ≡ false }
        requires named { self.old.names ≢ None }
        requires some { 0 < length self.old.octets.items }
        requires head { (f : Fact) × IsNextHead self.old.octets.items head f }
        ensures step { IsReadStep self.old result self.new }
        ensures names { KeepsNames self.old self.new }
        ensures further { result ≡ Ok Read.Element → left_of self.new < left_of self.old }
        ensures next { result ≡ Ok Read.Element → self.new.count ≡ self.old.count + 1 }
        ensures still { result ≢ Ok Read.Element → self.new.count ≡ self.old.count }
    {
        if !is_above(&self.last, &head) {
            return Ok(Read::Fault(LoadError::NotCanonical { at: self.count }));
        }
        if self.count == usize::MAX {
            return Err(AllocError);
        }
        self.octets.advance(head.element.len());
        self.last = Some(head);
        self.waiting = true;
        self.due = 1;
        self.count += 1;
        Ok(Read::Element)
    }

    /// Returns the fault of the next element, or that it needs octets.
    fn refuse(&mut self, error: FrontError) -> Result<Read, AllocError>
        ensures ok { IfOk result (λ r. (merged : List Fact) (input : Input) → IsReadFrom merged input self.old
            → IsNextFault input self.old.count error → AfterRead merged input r self.new) }
        ensures names { self.new.names ≡ self.old.names }
        ensures count { self.new.count ≡ self.old.count }
        ensures further { result ≢ Ok Read.Element }
        ensures err { OnErr result (self.new ≡ self.old) }
    {
        let at = self.count;
        match error {
            FrontError::Memory => Err(AllocError),
            FrontError::NotCanonical => Ok(Read::Fault(LoadError::NotCanonical { at })),
            FrontError::NoValue => Ok(Read::Fault(LoadError::NotKnowledge { at })),
            FrontError::Unfinished => {
                if self.ended {
                    return Ok(Read::Fault(LoadError::NotKnowledge { at }));
                }
                self.due = self.octets.len().saturating_mul(2).min(LONGEST as usize);
                Ok(Read::Need)
            }
        }
    }
}
