//! The fact that octets of a saved file begin with.
ghost use Rattle.std.specs.Prelude.{IfOk, IfErr};
ghost use Rattle.zknow.specs.Saved.Fronts.{IsTakenFront};
ghost use Rattle.zknow.specs.Saved.SavedFacts.{saved_fact};
ghost use Rattle.zknow_merge.specs.Scans.{IsFirstFault};

use crate::front::{FrontError, take_front};
use std::alloc::Global;
use zknow::Fact;

/// Why octets do not begin with the element of a fact.
#[derive(Clone, Copy, PartialEq, Eq, Drop)]
pub enum FirstError {
    /// They begin with no whole element. With more octets behind them they may.
    Unfinished,
    /// Whatever comes after them, they do not begin with the canonical element of a fact.
    NotFact,
    /// No memory was found.
    Memory,
}

/// Returns the fact whose canonical element octets begin with, and how many octets that element has.
/// Returns why there is none, or `Memory`.
pub fn first_fact(alloc: Global, octets: &[u8]) -> Result<(Fact, usize), FirstError>
    ensures ok { IfOk result (λ r. IsTakenFront saved_fact octets.now r.0 r.1) }
    ensures err { IfErr result (IsFirstFault octets.now) }
{
    match take_front::<Fact>(alloc, octets) {
        Ok((fact, element)) => Ok((fact, element.len())),
        Err(FrontError::Unfinished) => Err(FirstError::Unfinished),
        Err(FrontError::NoValue) => Err(FirstError::NotFact),
        Err(FrontError::NotCanonical) => Err(FirstError::NotFact),
        Err(FrontError::Memory) => Err(FirstError::Memory),
    }
}
