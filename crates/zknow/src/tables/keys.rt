//! The keys of the tables, and the mark of a set that failed.
ghost use Rattle.zknow.specs.Tables.Keys.{set_exact, row_exact};

use crate::tables::join::{Join, Key};
use std::alloc::{AllocError, Global};

/// A target's set.
#[derive(Clone, Copy, PartialEq, Eq, PartialOrd, Ord)]
pub struct SetKey {
    /// The number of the target.
    pub target: u32,
    /// The number of the set; 0 stands for the connection.
    pub set: u32,
}

impl Key for SetKey {
    ghost exact = { set_exact };
}

/// A row of the list: a position in a target's set.
#[derive(Clone, Copy, PartialEq, Eq, PartialOrd, Ord)]
pub struct RowKey {
    /// The position, from 1 on.
    pub position: i64,
    /// The number of the target.
    pub target: u32,
    /// The number of the set.
    pub set: u32,
}

impl Key for RowKey {
    ghost exact = { row_exact };
}

impl Key for i64 {
    ghost use Rattle.std.proofs.lemmas.Map.Lookups.{exact_signed};

    ghost exact = { exact_signed };
}

/// Whether something happened. If it did, the mark has one item.
#[derive(Clone, Copy, PartialEq, Eq)]
pub(crate) struct Mark {
    pub(crate) is_set: bool,
}

impl Join for Mark {
    type Item = ();

    ghost use Rattle.zknow.specs.Tables.Keys.{IsMarked, IsAnyMark, same_marks};
    ghost use Rattle.std.specs.Prelude.{⊤};

    ghost holds = { IsMarked };

    ghost is_lawful = { IsAnyMark };

    ghost can_add = { λ _. ⊤ };

    ghost same = { same_marks };

    fn empty(_alloc: Global) -> Self {
        Mark { is_set: false }
    }

    fn add(&mut self, _item: &()) -> Result<(), AllocError> {
        self.is_set = true;
        Ok(())
    }

    fn absorb(&mut self, other: &Self) -> Result<(), AllocError> {
        if other.is_set {
            self.is_set = true;
        }
        Ok(())
    }

    fn lawful(&self) {}
}
