//! A fact as a merge keeps it.
ghost use Rattle.std.specs.Prelude.{◌≡◌, ◌↔◌, IsTrue, IfOk};
ghost use Rattle.std.specs.declared.cmp.Ordering.TheVariants.{Less};
ghost use Rattle.zknow.specs.declared.fact.Fact.{Fact};
ghost use Rattle.zknow.specs.Facts.{fact_cmp, fact_kind, fact_target, fact_set, fact_number, encoded_octets};
ghost use Rattle.zknow_merge.specs.Heads.{IsKeyOf, IsLawfulFact, head_key_cmp};

use crate::front::encode;
use std::alloc::{AllocError, Global};
use std::cmp::Ordering;
use zknow::Fact;

/// The number of a fact's kind, in fact order.
fn kind_of(fact: &Fact) -> u8
    ensures { result ≡ fact_kind fact.now }
{
    match fact {
        Fact::Count { .. } => 0,
        Fact::Failed { .. } => 1,
        Fact::Seen { .. } => 2,
        Fact::Diag { .. } => 3,
    }
}

/// The number of the target.
fn target_of(fact: &Fact) -> u32
    ensures { result ≡ fact_target fact.now }
{
    match fact {
        Fact::Count { target, .. } => *target,
        Fact::Failed { target, .. } => *target,
        Fact::Seen { target, .. } => *target,
        Fact::Diag { target, .. } => *target,
    }
}

/// The number of the set.
fn set_of(fact: &Fact) -> u32
    ensures { result ≡ fact_set fact.now }
{
    match fact {
        Fact::Count { set, .. } => *set,
        Fact::Failed { set, .. } => *set,
        Fact::Seen { set, .. } => *set,
        Fact::Diag { set, .. } => *set,
    }
}

/// The count, position or place; 0 for a failure.
fn number_of(fact: &Fact) -> i64
    ensures { result ≡ fact_number fact.now }
{
    match fact {
        Fact::Count { count, .. } => *count,
        Fact::Failed { .. } => 0,
        Fact::Seen { position, .. } => *position,
        Fact::Diag { place, .. } => *place,
    }
}

/// Returns the canonical encoding of the record or diagnostic, empty if there is none. Returns `AllocError` if no
/// memory is found.
fn octets_in(alloc: Global, fact: &Fact) -> Result<Vec<u8>, AllocError>
    ensures octets { IfOk result (λ octets. octets.items ≡ encoded_octets fact.now) }
    ensures lawful { IfOk result (λ _. IsLawfulFact fact.now) }
{
    match fact {
        Fact::Count { .. } => Ok(Vec::new(alloc)),
        Fact::Failed { .. } => Ok(Vec::new(alloc)),
        Fact::Seen { rec, .. } => encode(alloc, rec),
        Fact::Diag { diag, .. } => encode(alloc, diag),
    }
}

/// What orders a fact, and its element.
#[derive(Drop)]
pub(crate) struct Head {
    pub(crate) kind: u8,
    pub(crate) target: u32,
    pub(crate) set: u32,
    pub(crate) number: i64,
    /// The canonical encoding of the record or diagnostic.
    pub(crate) octets: Vec<u8>,
    /// The canonical element of the fact in a saved file.
    pub(crate) element: Vec<u8>,
}

/// Returns the head of a fact with this element. Returns `AllocError` if no memory is found.
pub(crate) fn head_of(alloc: Global, fact: &Fact, element: Vec<u8>) -> Result<Head, AllocError>
    ensures key { IfOk result (λ h. IsKeyOf h fact.now) }
    ensures element { IfOk result (λ h. h.element.items ≡ element.items) }
    ensures lawful { IfOk result (λ _. IsLawfulFact fact.now) }
{
    Ok(Head {
        kind: kind_of(fact),
        target: target_of(fact),
        set: set_of(fact),
        number: number_of(fact),
        octets: octets_in(alloc, fact)?,
        element,
    })
}

/// Compares two facts without their records or diagnostics.
fn compare_keys(mine: &Head, theirs: &Head) -> Ordering
    ensures { result ≡ head_key_cmp mine.now theirs.now }
{
    let numbers = mine.number.cmp(&theirs.number);
    let sets = mine.set.cmp(&theirs.set).then(numbers);
    let targets = mine.target.cmp(&theirs.target).then(sets);
    mine.kind.cmp(&theirs.kind).then(targets)
}

/// Compares the facts of two heads, in fact order.
fn compare(mine: &Head, theirs: &Head) -> Ordering
    ensures { (f g : Fact) → IsKeyOf mine.now f → IsKeyOf theirs.now g → result ≡ fact_cmp f g }
{
    match compare_keys(mine, theirs) {
        Ordering::Less => Ordering::Less,
        Ordering::Greater => Ordering::Greater,
        Ordering::Equal => mine.octets.cmp(&theirs.octets),
    }
}

/// Whether the fact of a head is below that of another, in fact order.
pub(crate) fn is_below(mine: &Head, theirs: &Head) -> bool
    ensures { (f g : Fact) → IsKeyOf mine.now f → IsKeyOf theirs.now g → (IsTrue result ↔ (fact_cmp f g ≡ Less)) }
{
    matches!(compare(mine, theirs), Ordering::Less)
}
