//! What a search finds.
ghost use Rattle.std.specs.Prelude.{◌≡◌, ◌+◌, ◌++◌, ◌<◌, ◌^◌, length, map, IfOk, OnOk};
ghost use Rattle.std.specs.List.{AllByRecursion};
ghost use Rattle.ztarget.specs.Asking.{is_satisfied};
ghost use Rattle.ztarget.specs.TargetStates.{criterion_meaning};
ghost use Rattle.ztarget.specs.Counting.{places_in};
ghost use Rattle.ztarget.specs.Keeping.{hit, databases_of, hits_in, hits_by};
ghost use Rattle.ztarget.specs.Searching.{entries_in, places_from};

use crate::criterion::Criterion;
use crate::indexed::Indexed;
use crate::searched_databases::Numbered;
use std::alloc::{AllocError, Global};

/// An entry that a search found: the number of its database among those of the target, and its own number in that
/// database, each counted from 0.
#[derive(Clone, Copy, PartialEq, Eq)]
pub(crate) struct Hit {
    pub(crate) database: usize,
    pub(crate) entry: u32,
}

/// Appends places, each increased by `first`.
fn put_shifted(first: u32, places: &[u32], out: &mut Vec<u32>) -> Result<(), AllocError>
    requires { AllByRecursion (λ place. first + place < 2 ^ 32) places.now }
    ensures { OnOk result (out.new.items ≡ out.old.items ++ map (λ place. first + place) places.now) }
{
    let mut left = places;
    while let [place, others @ ..] = left {
        out.push(first + *place)?;
        left = others;
    }
    Ok(())
}

/// Appends the places of a database's entries that satisfy the criterion. `first` is the place of its first entry.
fn put_found(
    alloc: Global,
    criterion: &Criterion,
    database: &Indexed,
    first: u32,
    places: &mut Vec<u32>,
) -> Result<(), AllocError>
    requires { first + length database.now.entries < 2 ^ 32 }
    ensures { OnOk result (places.new.items ≡ places.old.items
        ++ places_from (is_satisfied (criterion_meaning criterion.now)) first database.now.entries) }
{
    let found = database.evaluate(alloc, criterion)?;
    put_shifted(first, found.as_slice(), places)
}

/// Returns the places of the entries that satisfy the criterion, counted from 0 through the databases.
pub(crate) fn places(
    alloc: Global,
    criterion: &Criterion,
    searched: &[Numbered<'_>],
) -> Result<Vec<u32>, AllocError>
    requires { length (entries_in (databases_of searched.now)) < 2 ^ 32 }
    ensures { IfOk result (λ places. places.items
        ≡ places_in (is_satisfied (criterion_meaning criterion.now)) 0 (databases_of searched.now)) }
{
    let mut places = Vec::new(alloc);
    let mut first = 0;
    let mut left = searched;
    while let [numbered, others @ ..] = left {
        put_found(alloc, criterion, numbered.database, first, &mut places)?;
        first += numbered.database.entries().len() as u32;
        left = others;
    }
    Ok(places)
}

/// Appends the hits of entries of the database with this number.
fn put_entries(database: usize, entries: &[u32], hits: &mut Vec<Hit>) -> Result<(), AllocError>
    ensures { OnOk result (hits.new.items ≡ hits.old.items ++ map (hit database) entries.now) }
{
    hits.reserve(entries.len())?;
    let mut left = entries;
    while let [entry, others @ ..] = left {
        hits.push(Hit {
            database,
            entry: *entry,
        })?;
        left = others;
    }
    Ok(())
}

/// Appends the hits of a database's entries that satisfy the criterion.
fn put_hits(
    alloc: Global,
    criterion: &Criterion,
    numbered: Numbered<'_>,
    hits: &mut Vec<Hit>,
) -> Result<(), AllocError>
    requires { length numbered.database.now.entries < 2 ^ 32 }
    ensures { OnOk result (hits.new.items
        ≡ hits.old.items ++ hits_in (is_satisfied (criterion_meaning criterion.now)) numbered.entry) }
{
    let found = numbered.database.evaluate(alloc, criterion)?;
    put_entries(numbered.number, found.as_slice(), hits)
}

/// Returns the hits of the databases' entries that satisfy the criterion, in order.
#[tactic(auto, using(crate::proofs::Shifted::few_first))]
pub(crate) fn hits(
    alloc: Global,
    criterion: &Criterion,
    searched: &[Numbered<'_>],
) -> Result<Vec<Hit>, AllocError>
    requires { length (entries_in (databases_of searched.now)) < 2 ^ 32 }
    ensures { IfOk result (λ hits. hits.items ≡ hits_by (is_satisfied (criterion_meaning criterion.now)) searched.now) }
{
    let mut hits = Vec::new(alloc);
    let mut left = searched;
    while let [numbered, others @ ..] = left {
        put_hits(alloc, criterion, *numbered, &mut hits)?;
        left = others;
    }
    Ok(hits)
}
