//! References to facts in the tables.
ghost use Rattle.std.specs.Prelude.{◌≡◌, IfOk};
ghost use Rattle.zknow.specs.Tables.FactRefs.{fact_of};

use crate::fact::Fact;
use std::alloc::{AllocError, Global};
use zapdu::{DiagRec, Record};

/// A fact whose record or diagnostic is borrowed.
#[derive(Clone, Copy, Drop)]
pub(crate) enum FactRef<'a> {
    Count {
        target: u32,
        set: u32,
        count: i64,
    },
    Failed {
        target: u32,
        set: u32,
    },
    Seen {
        target: u32,
        set: u32,
        position: i64,
        rec: &'a Record,
    },
    Diag {
        target: u32,
        set: u32,
        place: i64,
        diag: &'a DiagRec,
    },
}

impl<'a> FactRef<'a> {
    /// Returns a reference to the fact.
    pub(crate) fn of(fact: &'a Fact) -> FactRef<'a>
        ensures { fact_of result ≡ fact.now }
    {
        match fact {
            Fact::Count { target, set, count } => FactRef::Count {
                target: *target,
                set: *set,
                count: *count,
            },
            Fact::Failed { target, set } => FactRef::Failed {
                target: *target,
                set: *set,
            },
            Fact::Seen {
                target,
                set,
                position,
                rec,
            } => FactRef::Seen {
                target: *target,
                set: *set,
                position: *position,
                rec,
            },
            Fact::Diag {
                target,
                set,
                place,
                diag,
            } => FactRef::Diag {
                target: *target,
                set: *set,
                place: *place,
                diag,
            },
        }
    }

    /// Returns the fact, with a copy of its record or diagnostic. Returns `AllocError` if no memory is found.
    pub(crate) fn to_fact(&self, alloc: Global) -> Result<Fact, AllocError>
        ensures { IfOk result (λ f. f ≡ fact_of self.now) }
    {
        match self {
            FactRef::Count { target, set, count } => Ok(Fact::Count {
                target: *target,
                set: *set,
                count: *count,
            }),
            FactRef::Failed { target, set } => Ok(Fact::Failed {
                target: *target,
                set: *set,
            }),
            FactRef::Seen {
                target,
                set,
                position,
                rec,
            } => Ok(Fact::Seen {
                target: *target,
                set: *set,
                position: *position,
                rec: rec.copy(alloc)?,
            }),
            FactRef::Diag {
                target,
                set,
                place,
                diag,
            } => Ok(Fact::Diag {
                target: *target,
                set: *set,
                place: *place,
                diag: diag.copy(alloc)?,
            }),
        }
    }
}
