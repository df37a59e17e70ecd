//! Where records stand in saved files.
ghost use Rattle.std.specs.Prelude.{◌≡◌, ◌++◌, ◌∷◌, [], ◌↔◌, List, Some, IsTrue, IfOk, OnOk, OnErr};
ghost use Rattle.zknow_runs.specs.Runs.{GoesOn, HoldsRuns, AreAllRuns};
ghost use Rattle.zknow_runs.specs.declared.run.Run.{Run};

use std::alloc::{AllocError, Global};

/// Records that stand one after the other in one saved file, and whose positions do not fall.
#[derive(Clone, Copy, PartialEq, Eq, Drop)]
pub struct Run {
    /// The position of the first of them.
    pub position: i64,
    /// The number of the file.
    pub file: u32,
    /// How many octets of the file stand before the first of them.
    pub begin: u64,
    /// How many octets stand before the end of the last of them.
    pub end: u64,
}

/// The run that the next record may go on with.
#[derive(Clone, Copy, PartialEq, Eq, Drop)]
struct OpenEnd {
    run: Run,
    /// Its last record.
    last: Run,
}

/// The runs of records that were put, in their order.
#[derive(Drop)]
pub struct RunList {
    /// The runs before the last one.
    closed: Vec<Run>,
    last: Option<OpenEnd>,
}

/// Whether a record goes on with a run: it stands right behind it in the same file, and its position is not below that
/// of the last record.
fn goes_on(reached: &OpenEnd, one: Run) -> bool
    ensures { IsTrue result ↔ GoesOn reached.now one }
{
    reached.run.file == one.file
        && reached.run.end == one.begin
        && reached.last.position <= one.position
}

impl RunList {
    /// Returns a list of no runs.
    pub fn new(alloc: Global) -> RunList
        ensures { HoldsRuns [] result }
    {
        RunList {
            closed: Vec::new(alloc),
            last: None,
        }
    }

    /// Puts a record, as the run of it alone. It goes on with the last run, if it stands right behind it in the same
    /// file and its position is not below the last one's. Else it begins a run.
    ///
    /// Returns `AllocError` if no memory is found; the list is unchanged.
    pub fn put(&mut self, one: Run) -> Result<(), AllocError>
        ensures ok { OnOk result ((records : List Run) → HoldsRuns records self.old
            → HoldsRuns (records ++ one ∷ []) self.new) }
        ensures err { OnErr result ((records : List Run) → HoldsRuns records self.old → HoldsRuns records self.new) }
    {
        match self.last {
            None => {
                self.last = Some(OpenEnd {
                    run: one,
                    last: one,
                });
                Ok(())
            }
            Some(reached) => self.put_behind(reached, one),
        }
    }

    /// Puts a record behind the last run.
    fn put_behind(&mut self, reached: OpenEnd, one: Run) -> Result<(), AllocError>
        requires { self.old.last ≡ Some reached }
        ensures ok { OnOk result ((records : List Run) → HoldsRuns records self.old
            → HoldsRuns (records ++ one ∷ []) self.new) }
        ensures err { OnErr result ((records : List Run) → HoldsRuns records self.old → HoldsRuns records self.new) }
    {
        if goes_on(&reached, one) {
            let mut run = reached.run;
            run.end = one.end;
            self.last = Some(OpenEnd { run, last: one });
            return Ok(());
        }
        self.closed.push(reached.run)?;
        self.last = Some(OpenEnd {
            run: one,
            last: one,
        });
        Ok(())
    }

    /// Returns the runs. Returns `AllocError` if no memory is found.
    pub fn finish(self) -> Result<Vec<Run>, AllocError>
        ensures { IfOk result (λ runs. (records : List Run) → HoldsRuns records self
            → AreAllRuns runs.items records) }
    {
        let RunList { mut closed, last } = self;
        match last {
            None => Ok(closed),
            Some(reached) => {
                closed.push(reached.run)?;
                Ok(closed)
            }
        }
    }
}
