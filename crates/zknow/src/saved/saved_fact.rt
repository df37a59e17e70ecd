//! The elements of facts in a saved file.
ghost use Rattle.std.specs.Prelude.{◌≡◌};
ghost use Rattle.zasn.specs.Results.{MeaningResult, BuildResult, BuildStepResult};
ghost use Rattle.zknow.specs.declared.fact.Fact.TheVariants.{Count, Failed, Seen, Diag};
ghost use Rattle.zknow.specs.Tables.FactRefs.{fact_of};
ghost use Rattle.zknow.specs.Saved.SavedFacts.{any_fact, count_parts, diag_parts, failed_parts, fact_in_range, saved_diag, saved_fact, saved_seen, seen_parts};

use crate::fact::Fact;
use crate::saved::natural::Natural;
use crate::tables::fact_ref::FactRef;
use std::alloc::Global;
use zapdu::{DiagRec, Record};
use zasn::{BuildError, PartError, Parts, PartsBuf, Production, Tagged, read_within, write_within};
use zber::{Node, Tag};

/// The contents of the element `[0]` of a count.
#[derive(Drop)]
pub(crate) struct SavedCount {
    pub(crate) target: Natural,
    pub(crate) set: Natural,
    pub(crate) count: i64,
}

/// The contents of the element `[1]` of a failure.
#[derive(Drop)]
pub(crate) struct SavedFailed {
    pub(crate) target: Natural,
    pub(crate) set: Natural,
}

/// The contents of the element `[2]` of a record.
#[derive(Drop)]
pub(crate) struct SavedSeen {
    pub(crate) target: Natural,
    pub(crate) set: Natural,
    pub(crate) position: i64,
    pub(crate) rec: Record,
}

/// The contents of the element `[3]` of a diagnostic.
#[derive(Drop)]
pub(crate) struct SavedDiag {
    pub(crate) target: Natural,
    pub(crate) set: Natural,
    pub(crate) place: i64,
    pub(crate) diag: DiagRec,
}

impl SavedCount {
    fn into_fact(self) -> Fact
        ensures { result ≡ Count self.target.number self.set.number self.count }
    {
        let SavedCount { target, set, count } = self;
        Fact::Count {
            target: target.number,
            set: set.number,
            count,
        }
    }
}

impl SavedFailed {
    fn into_fact(self) -> Fact
        ensures { result ≡ Failed self.target.number self.set.number }
    {
        let SavedFailed { target, set } = self;
        Fact::Failed {
            target: target.number,
            set: set.number,
        }
    }
}

impl SavedSeen {
    fn into_fact(self) -> Fact
        ensures { result ≡ Seen self.target.number self.set.number self.position self.rec }
    {
        let SavedSeen {
            target,
            set,
            position,
            rec,
        } = self;
        Fact::Seen {
            target: target.number,
            set: set.number,
            position,
            rec,
        }
    }
}

impl SavedDiag {
    fn into_fact(self) -> Fact
        ensures { result ≡ Diag self.target.number self.set.number self.place self.diag }
    {
        let SavedDiag {
            target,
            set,
            place,
            diag,
        } = self;
        Fact::Diag {
            target: target.number,
            set: set.number,
            place,
            diag,
        }
    }
}

#[tactic(auto, unfolding(crate::specs::Saved::SavedFacts::count_parts))]
impl Production for SavedCount {
    ghost table = { count_parts };

    fn read(alloc: Global, parts: &mut Parts<'_>) -> Result<Self, PartError> {
        let target = parts.required(alloc, Tag::context(0))?;
        let set = parts.required(alloc, Tag::context(1))?;
        let count = parts.required(alloc, Tag::context(2))?;
        parts.end()?;
        Ok(SavedCount { target, set, count })
    }

    fn write(&self, alloc: Global, out: &mut PartsBuf) -> Result<(), BuildError> {
        out.required(alloc, Tag::context(0), &self.target)?;
        out.required(alloc, Tag::context(1), &self.set)?;
        out.required(alloc, Tag::context(2), &self.count)
    }
}

#[tactic(auto, unfolding(crate::specs::Saved::SavedFacts::failed_parts))]
impl Production for SavedFailed {
    ghost table = { failed_parts };

    fn read(alloc: Global, parts: &mut Parts<'_>) -> Result<Self, PartError> {
        let target = parts.required(alloc, Tag::context(0))?;
        let set = parts.required(alloc, Tag::context(1))?;
        parts.end()?;
        Ok(SavedFailed { target, set })
    }

    fn write(&self, alloc: Global, out: &mut PartsBuf) -> Result<(), BuildError> {
        out.required(alloc, Tag::context(0), &self.target)?;
        out.required(alloc, Tag::context(1), &self.set)
    }
}

#[tactic(auto, unfolding(crate::specs::Saved::SavedFacts::seen_parts))]
impl Production for SavedSeen {
    ghost table = { seen_parts };

    fn read(alloc: Global, parts: &mut Parts<'_>) -> Result<Self, PartError> {
        let target = parts.required(alloc, Tag::context(0))?;
        let set = parts.required(alloc, Tag::context(1))?;
        let position = parts.required(alloc, Tag::context(2))?;
        let rec = parts.required_tagged(alloc)?;
        parts.end()?;
        Ok(SavedSeen {
            target,
            set,
            position,
            rec,
        })
    }

    fn write(&self, alloc: Global, out: &mut PartsBuf) -> Result<(), BuildError> {
        put_seen(
            alloc,
            &self.target,
            &self.set,
            &self.position,
            &self.rec,
            out,
        )
    }
}

#[tactic(auto, unfolding(crate::specs::Saved::SavedFacts::diag_parts))]
impl Production for SavedDiag {
    ghost table = { diag_parts };

    fn read(alloc: Global, parts: &mut Parts<'_>) -> Result<Self, PartError> {
        let target = parts.required(alloc, Tag::context(0))?;
        let set = parts.required(alloc, Tag::context(1))?;
        let place = parts.required(alloc, Tag::context(2))?;
        let diag = parts.required_tagged(alloc)?;
        parts.end()?;
        Ok(SavedDiag {
            target,
            set,
            place,
            diag,
        })
    }

    fn write(&self, alloc: Global, out: &mut PartsBuf) -> Result<(), BuildError> {
        put_diag(alloc, &self.target, &self.set, &self.place, &self.diag, out)
    }
}

fn natural(number: u32) -> Natural
    ensures { result ≡ record { number = number } }
{
    Natural { number }
}

/// Whether the numbers of a fact are in their ranges: a count is at least 0, a position at least 1, a place at least 0.
fn is_in_range(fact: &FactRef<'_>) -> bool
    ensures { result ≡ fact_in_range (fact_of fact.now) }
{
    match fact {
        FactRef::Count { count, .. } => *count >= 0,
        FactRef::Failed { .. } => true,
        FactRef::Seen { position, .. } => *position >= 1,
        FactRef::Diag { place, .. } => *place >= 0,
    }
}

/// Returns the fact of an element, whatever its numbers. Returns `Misfit` if the element has no fact.
fn any_fact_in(alloc: Global, node: &Node) -> Result<Fact, PartError>
    ensures { MeaningResult (any_fact.meaning node.now) result }
{
    if node.tag == Tag::context(0) {
        let saved: SavedCount = read_within(alloc, node)?;
        return Ok(saved.into_fact());
    }
    if node.tag == Tag::context(1) {
        let saved: SavedFailed = read_within(alloc, node)?;
        return Ok(saved.into_fact());
    }
    if node.tag == Tag::context(2) {
        let saved: SavedSeen = read_within(alloc, node)?;
        return Ok(saved.into_fact());
    }
    if node.tag == Tag::context(3) {
        let saved: SavedDiag = read_within(alloc, node)?;
        return Ok(saved.into_fact());
    }
    Err(PartError::Misfit)
}

fn count_node(alloc: Global, target: u32, set: u32, count: i64) -> Result<Node, BuildError>
    ensures { BuildResult (any_fact.spelling (Count target set count)) result }
{
    let saved = SavedCount {
        target: natural(target),
        set: natural(set),
        count,
    };
    write_within(alloc, &saved, Tag::context(0))
}

fn failed_node(alloc: Global, target: u32, set: u32) -> Result<Node, BuildError>
    ensures { BuildResult (any_fact.spelling (Failed target set)) result }
{
    let saved = SavedFailed {
        target: natural(target),
        set: natural(set),
    };
    write_within(alloc, &saved, Tag::context(1))
}

/// Appends the elements of a record.
#[tactic(auto, unfolding(crate::specs::Saved::SavedFacts::seen_parts))]
fn put_seen(
    alloc: Global,
    target: &Natural,
    set: &Natural,
    position: &i64,
    rec: &Record,
    out: &mut PartsBuf,
) -> Result<(), BuildError>
    ensures { let saved = saved_seen target.now set.now position.now rec.now
        in BuildStepResult (seen_parts.spelling saved out.old) result out.new }
{
    out.required(alloc, Tag::context(0), target)?;
    out.required(alloc, Tag::context(1), set)?;
    out.required(alloc, Tag::context(2), position)?;
    out.required_tagged(alloc, rec)
}

/// Appends the elements of a diagnostic.
#[tactic(auto, unfolding(crate::specs::Saved::SavedFacts::diag_parts))]
fn put_diag(
    alloc: Global,
    target: &Natural,
    set: &Natural,
    place: &i64,
    diag: &DiagRec,
    out: &mut PartsBuf,
) -> Result<(), BuildError>
    ensures { let saved = saved_diag target.now set.now place.now diag.now
        in BuildStepResult (diag_parts.spelling saved out.old) result out.new }
{
    out.required(alloc, Tag::context(0), target)?;
    out.required(alloc, Tag::context(1), set)?;
    out.required(alloc, Tag::context(2), place)?;
    out.required_tagged(alloc, diag)
}

fn seen_node(
    alloc: Global,
    target: u32,
    set: u32,
    position: i64,
    rec: &Record,
) -> Result<Node, BuildError>
    ensures { BuildResult (any_fact.spelling (Seen target set position rec.now)) result }
{
    let mut out = PartsBuf::new(alloc);
    put_seen(
        alloc,
        &natural(target),
        &natural(set),
        &position,
        rec,
        &mut out,
    )?;
    Ok(out.into_node(Tag::context(2)))
}

fn diag_node(
    alloc: Global,
    target: u32,
    set: u32,
    place: i64,
    diag: &DiagRec,
) -> Result<Node, BuildError>
    ensures { BuildResult (any_fact.spelling (Diag target set place diag.now)) result }
{
    let mut out = PartsBuf::new(alloc);
    put_diag(
        alloc,
        &natural(target),
        &natural(set),
        &place,
        diag,
        &mut out,
    )?;
    Ok(out.into_node(Tag::context(3)))
}

/// Returns the element of a fact, whatever its numbers.
fn any_fact_node(alloc: Global, fact: &FactRef<'_>) -> Result<Node, BuildError>
    ensures { BuildResult (any_fact.spelling (fact_of fact.now)) result }
{
    match fact {
        FactRef::Count { target, set, count } => count_node(alloc, *target, *set, *count),
        FactRef::Failed { target, set } => failed_node(alloc, *target, *set),
        FactRef::Seen {
            target,
            set,
            position,
            rec,
        } => seen_node(alloc, *target, *set, *position, *rec),
        FactRef::Diag {
            target,
            set,
            place,
            diag,
        } => diag_node(alloc, *target, *set, *place, *diag),
    }
}

/// Returns the element of a fact. It copies no record and no diagnostic.
pub(crate) fn fact_node(alloc: Global, fact: &FactRef<'_>) -> Result<Node, BuildError>
    ensures { BuildResult (saved_fact.spelling (fact_of fact.now)) result }
{
    if !is_in_range(fact) {
        return Err(BuildError::NotSpellable);
    }
    any_fact_node(alloc, fact)
}

impl Tagged for Fact {
    ghost place = { saved_fact };

    fn has(tag: Tag) -> bool {
        tag == Tag::context(0)
            || tag == Tag::context(1)
            || tag == Tag::context(2)
            || tag == Tag::context(3)
    }

    fn of_element(alloc: Global, node: &Node) -> Result<Self, PartError> {
        let fact = any_fact_in(alloc, node)?;
        if !is_in_range(&FactRef::of(&fact)) {
            return Err(PartError::Misfit);
        }
        Ok(fact)
    }

    fn to_element(&self, alloc: Global) -> Result<Node, BuildError> {
        fact_node(alloc, &FactRef::of(self))
    }
}
