//! Reading a saved file.
ghost use Rattle.std.specs.Prelude.{◌≡◌, ◌<◌, List, ℕ, length, IfOk, IfErr, OnOk, MatchResult};
ghost use Rattle.zknow.specs.declared.fact.Fact.{Fact};
ghost use Rattle.zknow.specs.Saved.Saved.{IsSaved};
ghost use Rattle.zknow.specs.Saved.Loaded.{IsLoadFault};
ghost use Rattle.zknow.specs.Saved.Loading.{IsLoadedUpTo, fault_at};
ghost use Rattle.zknow.specs.Saved.Refusals.{load_error_name};

use crate::fact::{Fact, Names};
use crate::fact_order::is_above;
use crate::knowledge::Knowledge;
use crate::saved::front::{FrontError, take_front};
use crate::saved::saved_names::SavedNames;
use std::alloc::{AllocError, Global};
use thiserror::Error;

/// Why a file is not loaded.
#[derive(Clone, Copy, Debug, PartialEq, Eq, Drop, Error)]
pub enum LoadError {
    /// The element with this index is not a whole element of at most 64 levels and 4,194,304 octets; or it is not the
    /// names (index 0) or a fact (index 1 and later); or it has a number out of its range.
    #[error("NotKnowledge at {at}")]
    NotKnowledge { at: usize },
    /// The element with this index is not encoded canonically, or its fact is not above the one before. Indices are as
    /// at `NotKnowledge`.
    #[error("NotCanonical at {at}")]
    NotCanonical { at: usize },
    /// No memory was found.
    #[error("out of memory")]
    Memory,
}

impl LoadError {
    /// Returns the variant's name in ASCII letters. It takes no memory.
    pub fn name(&self) -> &'static str
        ensures { result.now ≡ load_error_name self.now }
    {
        match self {
            LoadError::NotKnowledge { .. } => "NotKnowledge",
            LoadError::NotCanonical { .. } => "NotCanonical",
            LoadError::Memory => "Memory",
        }
    }
}

impl From<AllocError> for LoadError {
    ghost use Rattle.std.specs.Prelude.{◌≡◌};
    ghost use Rattle.zknow.specs.declared.saved.loading.LoadError.TheVariants.{Memory};

    ghost from_gives = { λ _ e. e ≡ Memory };

    fn from(_: AllocError) -> LoadError {
        LoadError::Memory
    }
}

impl FrontError {
    /// Returns the error of the element with this index.
    fn at(self, at: usize) -> LoadError
        ensures { result ≡ fault_at at self }
    {
        match self {
            FrontError::NoValue => LoadError::NotKnowledge { at },
            FrontError::NotCanonical => LoadError::NotCanonical { at },
            FrontError::Memory => LoadError::Memory,
        }
    }
}

/// What was read from a file so far: the names, the facts and the last of them, how many facts, and how many octets.
#[derive(Drop)]
pub(crate) struct Loading {
    names: Names,
    knowledge: Knowledge,
    last: Option<Fact>,
    count: usize,
    at: usize,
}

impl Loading {
    /// Reads the names. Returns the fault of their element, or `Memory`.
    fn start(alloc: Global, file: &[u8]) -> Result<Loading, LoadError>
        ensures ok { IfOk result (IsLoadedUpTo file.now) }
        ensures fault { IfErr result (IsLoadFault file.now) }
    {
        match take_front::<SavedNames>(alloc, file) {
            Ok((names, at)) => Ok(Loading {
                names: names.into_names(),
                knowledge: Knowledge::new(alloc),
                last: None,
                count: 0,
                at,
            }),
            Err(error) => Err(error.at(0)),
        }
    }

    /// Reads one fact more. Returns the fault of its element, or `Memory`.
    fn load_fact(&mut self, alloc: Global, file: &[u8]) -> Result<(), LoadError>
        requires loaded { IsLoadedUpTo file.now self.old }
        requires more { self.old.at < length file.now }
        ensures ok { OnOk result (IsLoadedUpTo file.now self.new) }
        ensures further { OnOk result (self.old.at < self.new.at) }
        ensures fault { IfErr result (IsLoadFault file.now) }
    {
        let (_, rest) = file.split_at(self.at);
        let at = self.count + 1;
        let (fact, size) = match take_front::<Fact>(alloc, rest) {
            Ok(taken) => taken,
            Err(error) => return Err(error.at(at)),
        };
        if !is_above(alloc, &self.last, &fact)? {
            return Err(LoadError::NotCanonical { at });
        }
        self.knowledge.add(&fact)?;
        self.knowledge.lawful();
        self.last = Some(fact);
        self.count = at;
        self.at += size;
        Ok(())
    }
}

/// Reads all elements of a file. Returns the first fault, or `Memory`.
fn load_all(alloc: Global, file: &[u8]) -> Result<Loading, LoadError>
    ensures ok { IfOk result (λ l. IsSaved l.names l.knowledge file.now) }
    ensures fault { IfErr result (IsLoadFault file.now) }
{
    let mut loading = Loading::start(alloc, file)?;
    while loading.at < file.len() {
        loading.load_fact(alloc, file)?;
    }
    Ok(loading)
}

/// Returns the knowledge and the names in a saved file.
///
/// It succeeds exactly on what `save` writes, and returns the same knowledge and names. Else it returns the fault of
/// the first element that has one, `NotKnowledge` before `NotCanonical`. Returns `Memory` if no memory is found. Apart
/// from the searches in the tables, its time is proportional to the number of facts and their octets.
pub fn load(alloc: Global, file: &[u8]) -> Result<(Knowledge, Names), LoadError>
    ensures ok { IfOk result (λ r. IsSaved r.1 r.0 file.now) }
    ensures fault { IfErr result (IsLoadFault file.now) }
    ensures exact { (names : List (List ℕ)) (facts : List Fact) → IsSaved names facts file.now
        → MatchResult result (λ r. (r.0 ≡ facts) × (r.1 ≡ names)) (λ e. e ≡ LoadError.Memory) }
{
    let Loading {
        names,
        knowledge,
        ..
    } = load_all(alloc, file)?;
    Ok((knowledge, names))
}
