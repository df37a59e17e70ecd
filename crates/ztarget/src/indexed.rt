//! A database with its index.
ghost use Rattle.std.specs.Prelude.{◌≡◌, ◌<◌, ◌^◌, length, IfOk};
ghost use Rattle.ztarget.specs.Asking.{is_satisfied};
ghost use Rattle.ztarget.specs.Indexing.{IsIndexOf};
ghost use Rattle.ztarget.specs.Searching.{entries_in, places_from};
ghost use Rattle.ztarget.specs.TargetStates.{criterion_meaning};

use crate::criterion::Criterion;
use crate::database::{Database, Entry};
use crate::evaluation::Evaluation;
use crate::index::{Index, index_of};
use crate::shared_places::SharedPlaces;
use bytes::Bytes;
use std::alloc::{AllocError, Global};
use std::marker::Model;

/// A database with its index. Contracts see the database.
#[derive(Drop)]
pub(crate) struct Indexed {
    database: Database,
    index: Index,
}

impl Model for Indexed {
    ghost use Rattle.ztarget.specs.declared.database.Database.{Database};
    ghost use Rattle.ztarget.specs.Indexing.{IsIndexOf};

    ghost Value = { Database };

    ghost view = { λ i. i.database };

    ghost invariant = { λ i. IsIndexOf i.database.entries i.index };
}

impl Indexed {
    /// Makes the index of a database.
    pub(crate) fn new(alloc: Global, database: Database) -> Result<Indexed, AllocError>
        requires { length database.entries < 2 ^ 32 }
        ensures { IfOk result (λ indexed. indexed ≡ database) }
    {
        let index = index_of(alloc, database.entries.as_slice())?;
        Ok(Indexed { database, index })
    }

    pub(crate) fn name(&self) -> &Bytes
        ensures { result.now ≡ self.now.name }
    {
        &self.database.name
    }

    pub(crate) fn entries(&self) -> &[Entry]
        ensures { result.now ≡ self.now.entries }
    {
        self.database.entries.as_slice()
    }

    /// Returns the places of the entries that satisfy the criterion, in order.
    pub(crate) fn evaluate(
        &self,
        alloc: Global,
        criterion: &Criterion,
    ) -> Result<SharedPlaces, AllocError>
        ensures { IfOk result (λ places. places
            ≡ places_from (is_satisfied (criterion_meaning criterion.now)) 0 self.now.entries) }
    {
        let mut evaluation = Evaluation::new(alloc, &self.index, self.entries());
        evaluation.evaluate(criterion)
    }
}

/// Returns the databases, each with its index.
pub(crate) fn with_indexes(
    alloc: Global,
    databases: Vec<Database>,
) -> Result<Vec<Indexed>, AllocError>
    requires { length (entries_in databases.items) < 2 ^ 32 }
    ensures { IfOk result (λ indexed. indexed.items ≡ databases.items) }
{
    let mut all = Vec::new(alloc);
    for database in databases {
        all.push(Indexed::new(alloc, database)?)?;
    }
    Ok(all)
}
