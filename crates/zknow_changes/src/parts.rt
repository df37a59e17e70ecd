//! The changes of one kind, as facts.
ghost use Rattle.std.specs.Prelude.{◌≡◌, Some, Contains, IfOk, OnOk};
ghost use Rattle.zknow.specs.Facts.{IsFact};
ghost use Rattle.zknow.specs.Tables.Join.{IsUnion};
ghost use Rattle.zknow_changes.specs.Changes.{change_fact, AreAddable};
ghost use Rattle.zknow_changes.specs.Parts.{is_of, part_fact, part_facts, count_part, IsPart, AreNews};

use crate::between::{Change, ChangeKind};
use std::alloc::{AllocError, Global};
use zknow::{Fact, Knowledge};

/// Returns whether a change is of this kind.
fn is_of(change: &Change, kind: ChangeKind) -> bool
    ensures { result ≡ is_of kind change.now }
{
    match (kind, change.kind) {
        (ChangeKind::New, ChangeKind::New) => true,
        (ChangeKind::Changed, ChangeKind::Changed) => true,
        (ChangeKind::Gone, ChangeKind::Gone) => true,
        _ => false,
    }
}

/// Returns the fact of a change: the record stands at its position. Returns `AllocError` if no memory is found.
fn fact_of(alloc: Global, change: &Change) -> Result<Fact, AllocError>
    ensures { IfOk result (λ fact. fact ≡ change_fact change.now) }
{
    Ok(Fact::Seen {
        target: change.row.target,
        set: change.row.set,
        position: change.row.position,
        rec: change.rec.copy(alloc)?,
    })
}

/// Adds the fact of a change, if it is of this kind. Returns `AllocError` if no memory is found.
fn add_change(
    alloc: Global,
    change: &Change,
    kind: ChangeKind,
    known: &mut Knowledge,
) -> Result<(), AllocError>
    requires { IsFact (change_fact change.now) }
    ensures { OnOk result (IsUnion (Contains known.old) (λ f. part_fact kind change.now ≡ Some f)
        (Contains known.new)) }
{
    if !is_of(change, kind) {
        return Ok(());
    }
    let fact = fact_of(alloc, change)?;
    known.add(&fact)
}

/// Adds the facts of the changes of one kind. Returns `AllocError` if no memory is found.
fn add_part(
    alloc: Global,
    changes: &[Change],
    kind: ChangeKind,
    known: &mut Knowledge,
) -> Result<(), AllocError>
    requires { AreAddable changes.now }
    ensures { OnOk result (IsUnion (Contains known.old) (Contains (part_facts kind changes.now)) (Contains known.new)) }
{
    for change in changes {
        add_change(alloc, change, kind, known)?;
    }
    Ok(())
}

/// Returns the facts of the changes of one kind: where each record stands. Returns `AllocError` if no memory is found.
pub fn part_of(alloc: Global, changes: &[Change], kind: ChangeKind) -> Result<Knowledge, AllocError>
    requires { AreAddable changes.now }
    ensures { IfOk result (IsPart kind changes.now) }
{
    let mut known = Knowledge::new(alloc);
    add_part(alloc, changes, kind, &mut known)?;
    known.lawful();
    Ok(known)
}

/// Returns the facts of the changes that are new or changed: where each record stands. Returns `AllocError` if no
/// memory is found.
pub fn news_of(alloc: Global, changes: &[Change]) -> Result<Knowledge, AllocError>
    requires { AreAddable changes.now }
    ensures { IfOk result (AreNews changes.now) }
{
    let mut known = Knowledge::new(alloc);
    add_part(alloc, changes, ChangeKind::New, &mut known)?;
    add_part(alloc, changes, ChangeKind::Changed, &mut known)?;
    known.lawful();
    Ok(known)
}

/// Returns how many changes are of one kind.
pub fn count_part(changes: &[Change], kind: ChangeKind) -> u64
    ensures { result ≡ count_part kind changes.now }
{
    let mut count = 0;
    for change in changes {
        if is_of(change, kind) {
            count += 1;
        }
    }
    count
}
