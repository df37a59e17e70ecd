//! The merge of several inputs.
ghost use Rattle.std.specs.Prelude.{◌≡◌, ◌≢◌, ◌<◌, ◌++◌, ℕ, List, [], Ok, true, false, length, slice_index_or, IfOk, IfSome, IfNone, OnOk, OnErr};
ghost use Rattle.zknow_merge.specs.Inputs.{Input, fed, at_end, changed_at, fresh};
ghost use Rattle.zknow_merge.specs.Merges.{IsMerge, IsStep, IsHandedOut, AfterNext, IsNextElement, ArePutNames, shown, left};
ghost use Rattle.zknow_merge.specs.declared.source.Source.{Source};
ghost use Rattle.zknow_merge.specs.Sources.{IsElementOption, IsWanting, AreSettled, AreNoneWaiting, IsLeastAt};

use crate::choice::{first_other, first_wanting, least};
use crate::refusal::{Refusal, step_of_refusal};
use crate::source::{Read, Source};
use crate::step::Step;
use std::alloc::{AllocError, Global};

/// A merge of saved files, which are fed to it in pieces. It keeps of each file the octets that are not read yet, and
/// at most two elements.
///
/// Its contracts speak of the inputs, as they were fed so far, and of all octets that were handed out.
#[derive(Drop)]
pub struct Merge {
    alloc: Global,
    /// The sources of the inputs up to the first that is known to be refused.
    sources: Vec<Source>,
    /// The element of the last fact that was merged.
    last: Option<Vec<u8>>,
    /// Whether the names were compared and handed out.
    named: bool,
    /// Why there are no sources for the inputs after these.
    refusal: Option<Refusal>,
}

/// Whether the element is this one.
fn is_element(last: &Option<Vec<u8>>, element: &[u8]) -> bool
    ensures same { result ≡ true → IsElementOption last.now element.now }
    ensures other { result ≡ false → IsElementOption last.now element.now → ⊥ }
{
    match last {
        None => false,
        Some(last) => last.as_slice() == element,
    }
}

/// Returns a copy of the element of the source's last fact, or `None` if it is the element kept. Returns `AllocError`
/// if no memory is found.
fn next_element(last: &Option<Vec<u8>>, source: &Source) -> Result<Option<Vec<u8>>, AllocError>
    ensures { IfOk result (IsNextElement last.now source.now) }
{
    let Some(head) = &source.last else {
        return Ok(None);
    };
    if is_element(last, head.element.as_slice()) {
        return Ok(None);
    }
    Ok(Some(head.element.clone()?))
}

/// Appends an element, unless an input is refused. Returns `AllocError` if no memory is found; `out` is unchanged.
fn put_element(
    refusal: &Option<Refusal>,
    element: &[u8],
    out: &mut Vec<u8>,
) -> Result<(), AllocError>
    ensures ok { OnOk result (out.new.items ≡ out.old.items ++ shown refusal.now element.now) }
    ensures err { OnErr result (out.new.items ≡ out.old.items) }
{
    match refusal {
        None => out.extend_from_slice(element),
        Some(_) => Ok(()),
    }
}

/// Appends the names of the first source, unless an input is refused. Returns `AllocError` if no memory is found; `out`
/// is unchanged.
fn put_names(
    refusal: &Option<Refusal>,
    sources: &[Source],
    out: &mut Vec<u8>,
) -> Result<(), AllocError>
    ensures ok { OnOk result (ArePutNames refusal.now sources.now out.old.items out.new.items) }
    ensures err { OnErr result (out.new.items ≡ out.old.items) }
{
    let Some(source) = sources.first() else {
        return Ok(());
    };
    match &source.names {
        None => Ok(()),
        Some(names) => put_element(refusal, names.as_slice(), out),
    }
}

impl Merge {
    /// Returns a merge of so many inputs, of which nothing has come. Returns `AllocError` if no memory is found.
    pub fn new(alloc: Global, inputs: usize) -> Result<Merge, AllocError>
        requires { 0 < inputs }
        ensures { IfOk result (IsMerge (fresh inputs) []) }
    {
        let mut sources = Vec::new(alloc);
        while sources.len() < inputs {
            sources.push(Source::new(alloc))?;
        }
        Ok(Merge {
            alloc,
            sources,
            last: None,
            named: false,
            refusal: None,
        })
    }

    /// Takes the next piece of an input. An input at its end takes no more.
    ///
    /// Returns `AllocError` if no memory is found; the piece may then be fed again.
    pub fn feed(&mut self, input: usize, piece: &[u8]) -> Result<(), AllocError>
        ensures ok { OnOk result ((inputs : List Input) (written : List ℕ) → IsMerge inputs written self.old
            → input < length inputs → IsMerge (changed_at input (fed piece.now) inputs) written self.new) }
        ensures err { OnErr result ((inputs : List Input) (written : List ℕ) → IsMerge inputs written self.old
            → IsMerge inputs written self.new) }
    {
        if input < self.sources.len() {
            return self.sources[input].feed(piece);
        }
        Ok(())
    }

    /// Notes that an input is at its end.
    pub fn end(&mut self, input: usize)
        ensures { (inputs : List Input) (written : List ℕ) → IsMerge inputs written self.old
            → input < length inputs → IsMerge (changed_at input at_end inputs) written self.new }
    {
        if input < self.sources.len() {
            self.sources[input].end();
        }
    }

    /// Goes one step on: reads an element of an input, or appends an element to `out`, or returns what is needed or how
    /// the merge ended.
    ///
    /// Returns `AllocError` if no memory is found, or if an input has 2^64 elements; nothing is appended, and the step
    /// can be made again.
    pub fn next(&mut self, out: &mut Vec<u8>) -> Result<Step, AllocError>
        ensures ok { IfOk result (λ step. (inputs : List Input) (written : List ℕ) → IsMerge inputs written self.old
            → AfterNext inputs written out.old.items step out.new.items self.new) }
        ensures again { result ≡ Ok Step.Again → left self.new < left self.old }
        ensures err { OnErr result ((inputs : List Input) (written : List ℕ) → IsMerge inputs written self.old
            → IsMerge inputs written self.new) }
        ensures same { OnErr result (out.new.items ≡ out.old.items) }
    {
        if let Some(k) = first_wanting(&self.sources) {
            return self.read(k);
        }
        if !self.named {
            self.begin(out)?;
            return Ok(Step::Again);
        }
        match least(&self.sources) {
            Some(k) => {
                self.merge(k, out)?;
                Ok(Step::Again)
            }
            None => Ok(self.outcome()),
        }
    }

    /// Reads an element of an input.
    fn read(&mut self, k: usize) -> Result<Step, AllocError>
        requires among { k < length self.old.sources.items }
        requires wanting { (d : Source) → IsWanting (slice_index_or self.old.sources.items k d) }
        ensures ok { IfOk result (λ step. (inputs : List Input) (written : List ℕ) → IsMerge inputs written self.old
            → IsMerge inputs written self.new × IsStep inputs written step) }
        ensures again { result ≡ Ok Step.Again → left self.new < left self.old }
        ensures err { OnErr result ((inputs : List Input) (written : List ℕ) → IsMerge inputs written self.old
            → IsMerge inputs written self.new) }
    {
        match self.sources[k].read(self.alloc)? {
            Read::Need => Ok(Step::Need(k)),
            Read::Element => Ok(Step::Again),
            Read::Fault(fault) => {
                self.sources.truncate(k);
                self.refusal = Some(Refusal::Fault(fault));
                Ok(Step::Again)
            }
        }
    }

    /// Compares the names, and hands them out.
    fn begin(&mut self, out: &mut Vec<u8>) -> Result<(), AllocError>
        ensures ok { OnOk result ((inputs : List Input) (written : List ℕ) → IsMerge inputs written self.old
            → AreSettled self.old.sources.items → self.old.named ≡ false
            → IsHandedOut inputs written out.old.items out.new.items self.new) }
        ensures further { OnOk result (self.old.named ≡ false → left self.new < left self.old) }
        ensures err { OnErr result (self.new ≡ self.old) }
        ensures same { OnErr result (out.new.items ≡ out.old.items) }
    {
        match first_other(&self.sources) {
            Some(k) => {
                self.sources.truncate(k + 1);
                self.refusal = Some(Refusal::NamesDiffer);
                self.named = true;
                Ok(())
            }
            None => {
                put_names(&self.refusal, &self.sources, out)?;
                self.named = true;
                Ok(())
            }
        }
    }

    /// Merges the fact of a source: hands it out, unless an equal one was.
    fn merge(&mut self, k: usize, out: &mut Vec<u8>) -> Result<(), AllocError>
        requires among { k < length self.old.sources.items }
        ensures ok { OnOk result ((inputs : List Input) (written : List ℕ) → IsMerge inputs written self.old
            → AreSettled self.old.sources.items → self.old.named ≡ true
            → IsLeastAt self.old.sources.items (length self.old.sources.items) k
            → IsHandedOut inputs written out.old.items out.new.items self.new) }
        ensures further { OnOk result (((d : Source) → (slice_index_or self.old.sources.items k d).waiting ≡ true)
            → left self.new < left self.old) }
        ensures err { OnErr result (self.new ≡ self.old) }
        ensures same { OnErr result (out.new.items ≡ out.old.items) }
    {
        match next_element(&self.last, &self.sources[k])? {
            None => {
                self.sources[k].waiting = false;
                Ok(())
            }
            Some(element) => {
                put_element(&self.refusal, element.as_slice(), out)?;
                self.last = Some(element);
                self.sources[k].waiting = false;
                Ok(())
            }
        }
    }

    /// Returns how the merge ended.
    fn outcome(&self) -> Step
        ensures ended { (inputs : List Input) (written : List ℕ) → IsMerge inputs written self.now
            → AreSettled self.now.sources.items → self.now.named ≡ true
            → AreNoneWaiting self.now.sources.items (length self.now.sources.items)
            → IsStep inputs written result }
        ensures last { result ≢ Step.Again }
    {
        let count = self.sources.len();
        match self.refusal {
            None => Step::Done,
            Some(refusal) => step_of_refusal(refusal, count),
        }
    }
}
