//! Runs that are read, by the positions of their next records.
ghost use Rattle.std.specs.Prelude.{◌≡◌, ◌∷◌, [], IfSome, IfNone, OnOk, OnErr};
ghost use Rattle.zknow_runs.specs.OpenRuns.{IsPutAmong, IsLeast};

use crate::run::Run;
use std::alloc::{AllocError, Global};
use std::collections::BTreeMap;
use std::marker::Model;

/// What orders runs that are read: the position of the next record, and then the order in which they were put.
#[derive(Clone, Copy, PartialEq, Eq, PartialOrd, Ord, Drop)]
struct RunKey {
    position: i64,
    count: u64,
}

/// A run that is read.
#[derive(Clone, Copy, PartialEq, Eq, Drop)]
pub struct OpenRun {
    /// The number of the run, of whatever is left of it.
    pub number: usize,
    /// What is left of the run.
    pub run: Run,
}

/// Runs that are read. Contracts see what is left of each, by position, and of one position in the order in which they
/// were put.
#[derive(Drop)]
pub struct OpenRuns {
    runs: BTreeMap<RunKey, OpenRun>,
    /// How many were put.
    count: u64,
}

impl Model for OpenRuns {
    ghost use Rattle.std.specs.Prelude.{List};
    ghost use Rattle.std.specs.Coded.{codes};
    ghost use Rattle.zknow_runs.specs.declared.run.Run.{Run};
    ghost use Rattle.zknow_runs.specs.contracts.run.Run as run;
    ghost use Rattle.zknow_runs.specs.OpenRuns.{in_order, AreKeyed};

    ghost Value = { List Run };

    ghost coded = { Prim.hlevel (codes, run.the_row.coded) };

    ghost view = { λ k. in_order k.runs };

    ghost invariant = { λ k. AreKeyed k.count k.runs };
}

impl OpenRuns {
    /// Returns no runs.
    pub fn new(alloc: Global) -> OpenRuns
        ensures { result ≡ [] }
    {
        OpenRuns {
            runs: BTreeMap::new(alloc),
            count: 0,
        }
    }

    /// Puts a run. Returns `AllocError` if no memory is found, or if 2^64 runs were put; the runs are unchanged.
    pub fn put(&mut self, run: OpenRun) -> Result<(), AllocError>
        ensures ok { OnOk result (IsPutAmong self.old self.new run.run) }
        ensures err { OnErr result (self.new ≡ self.old) }
    {
        let Some(count) = self.count.checked_add(1) else {
            return Err(AllocError);
        };
        let key = RunKey {
            position: run.run.position,
            count: self.count,
        };
        self.runs.insert(key, run)?;
        self.count = count;
        Ok(())
    }

    /// Takes the run whose next record is at the least position, of several the one that was put first. Returns `None`
    /// if there is no run.
    pub fn take(&mut self) -> Option<OpenRun>
        ensures some { IfSome result (λ o. self.old ≡ o.run ∷ self.new) }
        ensures least { IfSome result (λ o. IsLeast o.run self.new) }
        ensures none { IfNone result (self.old ≡ []) }
        ensures empty { IfNone result (self.new ≡ []) }
    {
        let (_, run) = self.runs.pop_first()?;
        Some(run)
    }
}
