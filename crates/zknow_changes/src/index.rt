//! The contents and the control numbers of the records of a saved file.
ghost use Rattle.std.specs.Prelude.{◌≡◌, Some, Contains, IfOk, OnOk};
ghost use Rattle.zknow.specs.Tables.Join.{IsUnion};
ghost use Rattle.zknow_changes.specs.Records.{held_contents, held_number};
ghost use Rattle.zknow_changes.specs.Indexes.{IsIndexEmpty, IsIndexMore, AreIndexed, is_number_in, presence_in};

use crate::held::{Held, held_contents, held_number, is_in, put};
use std::alloc::{AllocError, Global};
use std::collections::BTreeSet;
use zapdu::Record;
use zknow::{Fact, Knowledge, Names};

/// The contents and the control numbers of the records of a saved file, by catalogue.
#[derive(Drop)]
pub(crate) struct Index {
    /// The contents.
    pub(crate) contents: BTreeSet<Held>,
    /// The control numbers.
    pub(crate) numbers: BTreeSet<Held>,
}

/// Whether the records of a file's catalogue have what a record has.
#[derive(Clone, Copy, PartialEq, Eq)]
pub(crate) enum Presence {
    /// One has its contents.
    Same,
    /// None has its contents, and one has its control number.
    Other,
    /// None has its contents or its control number.
    Absent,
}

/// Adds the contents of a record. Returns `AllocError` if no memory is found.
fn put_contents(
    alloc: Global,
    names: &Names,
    target: u32,
    record: &Record,
    set: &mut BTreeSet<Held>,
) -> Result<(), AllocError>
    ensures { OnOk result (IsUnion (Contains set.old.keys)
        (λ q. q ≡ held_contents names.now target «record».now) (Contains set.new.keys)) }
{
    let held = held_contents(alloc, names, target, record)?;
    put(held, set)
}

/// Adds the control number of a record, if it has one. Returns `AllocError` if no memory is found.
fn put_number(
    alloc: Global,
    names: &Names,
    target: u32,
    record: &Record,
    set: &mut BTreeSet<Held>,
) -> Result<(), AllocError>
    ensures { OnOk result (IsUnion (Contains set.old.keys)
        (λ q. held_number names.now target «record».now ≡ Some q) (Contains set.new.keys)) }
{
    match held_number(alloc, names, target, record)? {
        Some(held) => put(held, set),
        None => Ok(()),
    }
}

/// Adds what a fact tells of a record. Returns `AllocError` if no memory is found.
fn put_fact(alloc: Global, names: &Names, fact: &Fact, index: &mut Index) -> Result<(), AllocError>
    ensures { OnOk result (IsIndexMore names.now fact.now index.old index.new) }
{
    match fact {
        Fact::Seen { target, rec, .. } => {
            put_contents(alloc, names, *target, rec, &mut index.contents)?;
            put_number(alloc, names, *target, rec, &mut index.numbers)
        }
        Fact::Count { .. } | Fact::Failed { .. } | Fact::Diag { .. } => Ok(()),
    }
}

/// Fills two empty sets with the contents, and the control numbers, of the records that facts tell of. Returns
/// `AllocError` if no memory is found.
fn put_facts(
    alloc: Global,
    names: &Names,
    facts: &[Fact],
    index: &mut Index,
) -> Result<(), AllocError>
    requires { IsIndexEmpty index.old }
    ensures { OnOk result (AreIndexed names.now facts.now index.new) }
{
    for fact in facts {
        put_fact(alloc, names, fact, index)?;
    }
    Ok(())
}

/// Returns the contents and the control numbers of the records of a saved file. Returns `AllocError` if no memory is
/// found.
pub(crate) fn index_of(
    alloc: Global,
    names: &Names,
    knowledge: &Knowledge,
) -> Result<Index, AllocError>
    ensures { IfOk result (AreIndexed names.now knowledge.now) }
{
    let facts = knowledge.facts()?;
    let mut index = Index {
        contents: BTreeSet::new(alloc),
        numbers: BTreeSet::new(alloc),
    };
    put_facts(alloc, names, facts.as_slice(), &mut index)?;
    Ok(index)
}

/// Returns whether the set has this control number, if there is one.
fn is_number_in(set: &BTreeSet<Held>, number: &Option<Held>) -> bool
    ensures { result ≡ is_number_in set.now number.now }
{
    match number {
        Some(held) => is_in(set, held),
        None => false,
    }
}

/// Returns whether a file has what a record of a target has. Returns `AllocError` if no memory is found.
pub(crate) fn presence_of(
    alloc: Global,
    index: &Index,
    names: &Names,
    target: u32,
    record: &Record,
) -> Result<Presence, AllocError>
    ensures { IfOk result (λ presence. presence ≡ presence_in index.now names.now target «record».now) }
{
    let contents = held_contents(alloc, names, target, record)?;
    if is_in(&index.contents, &contents) {
        return Ok(Presence::Same);
    }
    let number = held_number(alloc, names, target, record)?;
    if is_number_in(&index.numbers, &number) {
        Ok(Presence::Other)
    } else {
        Ok(Presence::Absent)
    }
}
