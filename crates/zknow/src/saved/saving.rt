//! Writing a saved file.
ghost use Rattle.std.specs.Prelude.{◌≡◌, ◌∷◌, ◌++◌, List, ℕ, [], Some, false, Contains, map, IfOk, IfErr, OnOk, OnErr};
ghost use Rattle.std.specs.List.{AllByRecursion};
ghost use Rattle.zasn.specs.Place.{IsSpellable};
ghost use Rattle.zknow.specs.Tables.FactRefs.{fact_of};
ghost use Rattle.zknow.specs.Facts.{IsFact};
ghost use Rattle.zknow.specs.Saved.Saved.{saved, longest, IsSaved, IsSaveRefusal, AreWithinLimits};
ghost use Rattle.zknow.specs.Saved.SavedFacts.{saved_fact};
ghost use Rattle.zknow.specs.Saved.Saving.{AfterPut, IsSavedUpTo};
ghost use Rattle.zknow.specs.Saved.Refusals.{save_error_name};

use crate::fact::{Fact, Names};
use crate::knowledge::Knowledge;
use crate::saved::fits::fits;
use crate::saved::saved_fact::fact_node;
use crate::saved::saved_names::SavedNames;
use crate::tables::fact_ref::FactRef;
use std::alloc::{AllocError, Global};
use std::fmt::{self, Display};
use thiserror::Error;
use zasn::{BuildError, Tagged};
use zber::{EncodeError, Node};

/// The most octets that an element of a saved file may have.
pub(crate) const LONGEST: u32 = 4_194_304;

/// Why a knowledge is not saved.
#[derive(Clone, Copy, Debug, PartialEq, Eq, Drop, Error)]
pub enum SaveError {
    /// An element has more than 64 levels of constructed elements.
    TooDeep,
    /// No element is too deep, but one has more than 4,194,304 octets.
    TooLong,
    /// No memory was found.
    Memory,
}

impl SaveError {
    /// Returns the fault in words.
    fn text(self) -> &'static str {
        match self {
            SaveError::TooDeep => "more than 64 constructed elements stand within one another",
            SaveError::TooLong => "an element is longer than 4,194,304 octets",
            SaveError::Memory => "out of memory",
        }
    }
}

impl Display for SaveError {
    fn fmt<W: fmt::Write>(&self, f: &mut fmt::Formatter<W>) -> fmt::Result {
        f.write_str(self.text())
    }
}

impl SaveError {
    /// Returns the variant's name in ASCII letters. It takes no memory.
    pub fn name(&self) -> &'static str
        ensures { result.now ≡ save_error_name self.now }
    {
        match self {
            SaveError::TooDeep => "TooDeep",
            SaveError::TooLong => "TooLong",
            SaveError::Memory => "Memory",
        }
    }
}

impl From<AllocError> for SaveError {
    ghost use Rattle.std.specs.Prelude.{◌≡◌};
    ghost use Rattle.zknow.specs.declared.saved.saving.SaveError.TheVariants.{Memory};

    ghost from_gives = { λ _ e. e ≡ Memory };

    fn from(_: AllocError) -> SaveError {
        SaveError::Memory
    }
}

/// The octets of the elements written so far, and whether one was left out because it is too long.
#[derive(Drop)]
pub(crate) struct Saving {
    octets: Vec<u8>,
    long: bool,
}

/// Returns the element of a value. Returns `AllocError` if no memory is found.
fn element_of<T: Tagged>(alloc: Global, value: &T) -> Result<Node, AllocError>
    requires { IsSpellable T.place value.now }
    ensures { IfOk result (λ n. T.place.spelling value.now ≡ Some n) }
{
    match value.to_element(alloc) {
        Ok(node) => Ok(node),
        Err(BuildError::NotSpellable) => unreachable!(),
        Err(BuildError::Memory) => Err(AllocError),
    }
}

/// Returns the element of a fact. Returns `AllocError` if no memory is found.
fn element_of_fact(alloc: Global, fact: &FactRef<'_>) -> Result<Node, AllocError>
    requires { IsSpellable saved_fact (fact_of fact.now) }
    ensures { IfOk result (λ n. saved_fact.spelling (fact_of fact.now) ≡ Some n) }
{
    match fact_node(alloc, fact) {
        Ok(node) => Ok(node),
        Err(BuildError::NotSpellable) => unreachable!(),
        Err(BuildError::Memory) => Err(AllocError),
    }
}

impl Saving {
    /// Returns a state with nothing written.
    fn new(alloc: Global) -> Saving
        ensures octets { result.octets.items ≡ [] }
        ensures long { result.long ≡ false }
    {
        Saving {
            octets: Vec::new(alloc),
            long: false,
        }
    }

    /// Appends an element, or notes that it is too long. Returns `TooDeep`, or `Memory` if no memory is found.
    fn put<T: Tagged>(&mut self, alloc: Global, node: &Node) -> Result<(), SaveError>
        ensures { (value : T) → T.place.spelling value ≡ Some node.now
            → AfterPut T.place value self.old result self.new }
    {
        match node.encode(alloc, LONGEST, &mut self.octets) {
            Ok(()) => Ok(()),
            Err(EncodeError::TooLong) => {
                self.long = true;
                Ok(())
            }
            Err(EncodeError::TooDeep) => Err(SaveError::TooDeep),
            Err(EncodeError::Memory) => Err(SaveError::Memory),
        }
    }

    /// Appends the names, as the first element.
    fn put_names(&mut self, alloc: Global, names: &Names) -> Result<(), SaveError>
        requires octets { self.old.octets.items ≡ [] }
        requires long { self.old.long ≡ false }
        ensures ok { OnOk result (IsSavedUpTo names.now [] self.new) }
        ensures err { IfErr result (λ e. (facts : List _) → IsSaveRefusal names.now facts e) }
    {
        let names = SavedNames::of(alloc, names)?;
        let node = element_of(alloc, &names)?;
        self.put::<SavedNames>(alloc, &node)
    }

    /// Appends one fact more.
    fn put_fact(&mut self, alloc: Global, fact: &FactRef<'_>) -> Result<(), SaveError>
        requires { IsFact (fact_of fact.now) }
        ensures ok { OnOk result ((names : List (List ℕ)) (facts : List _) → IsSavedUpTo names facts self.old
            → IsSavedUpTo names (facts ++ fact_of fact.now ∷ []) self.new) }
        ensures err { IfErr result (λ e. (names : List (List ℕ)) (facts : List _) → Contains facts (fact_of fact.now)
            → IsSaveRefusal names facts e) }
    {
        fits(fact);
        let node = element_of_fact(alloc, fact)?;
        self.put::<Fact>(alloc, &node)
    }

    /// Appends facts in order.
    fn put_facts(&mut self, alloc: Global, facts: &[FactRef<'_>]) -> Result<(), SaveError>
        requires { AllByRecursion IsFact (map fact_of facts.now) }
        ensures ok { OnOk result ((names : List (List ℕ)) → IsSavedUpTo names [] self.old
            → IsSavedUpTo names (map fact_of facts.now) self.new) }
        ensures err { IfErr result (λ e. (names : List (List ℕ)) → IsSaveRefusal names (map fact_of facts.now) e) }
    {
        for fact in facts {
            self.put_fact(alloc, fact)?;
        }
        Ok(())
    }
}

/// Returns the octets of the saved file, or why there is none.
fn canonical_octets(
    alloc: Global,
    knowledge: &Knowledge,
    names: &Names,
) -> Result<Vec<u8>, SaveError>
    ensures ok { IfOk result (λ octets. IsSaved names.now knowledge.now octets.items) }
    ensures within { OnOk result (AreWithinLimits names.now knowledge.now) }
    ensures refused { IfErr result (IsSaveRefusal names.now knowledge.now) }
{
    let facts = knowledge.fact_refs()?;
    knowledge.lawful();
    let mut saving = Saving::new(alloc);
    saving.put_names(alloc, names)?;
    saving.put_facts(alloc, facts.as_slice())?;
    let Saving { octets, long } = saving;
    if long {
        return Err(SaveError::TooLong);
    }
    Ok(octets)
}

/// Appends the saved file of a knowledge and names: the canonical element of the names, then those of the facts in fact
/// order. `load` returns the same knowledge and names.
///
/// Returns `TooDeep` exactly if an element has more than 64 levels of constructed elements, and `TooLong` exactly if
/// none has and one has more than 4,194,304 octets. If memory runs out before, it returns `Memory`. After an error
/// `out` is unchanged. Its time is proportional to the number of facts and their octets.
pub fn save(
    alloc: Global,
    knowledge: &Knowledge,
    names: &Names,
    out: &mut Vec<u8>,
) -> Result<(), SaveError>
    ensures ok { OnOk result ((file : List ℕ) × (out.new.items ≡ out.old.items ++ file)
        × IsSaved names.now knowledge.now file) }
    ensures within { OnOk result (AreWithinLimits names.now knowledge.now) }
    ensures refused { IfErr result (IsSaveRefusal names.now knowledge.now) }
    ensures err { OnErr result (out.new.items ≡ out.old.items) }
{
    let octets = canonical_octets(alloc, knowledge, names)?;
    out.extend_from_slice(&octets)?;
    Ok(())
}
