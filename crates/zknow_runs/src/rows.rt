//! The records of runs by position: what is read next, and the text of what was read, in one form.
ghost use Rattle.std.specs.Prelude.{◌≡◌, ◌++◌, ℕ, [], Some, None, List, IfOk, IfSome, IfNone, OnOk};
ghost use Rattle.zknow.specs.Facts.{IsFact};
ghost use Rattle.zknow_runs.specs.Rows.{place_of, is_taken, Sources, AreRunsIn, HoldsOf, AfterReadOf, AreRowsOf, StandNext, IsWanted, AreTaken, IsExcused, left_runs, kept_octets};
ghost use Rattle.zknow_runs.specs.declared.rows.Taking.{Taking};
ghost use Rattle.zknow_runs.specs.RowSteps.{rest_of, AfterGathered, AfterPlaced, AfterTaken, HasAppended, HasTurned};

use crate::open_runs::{OpenRun, OpenRuns};
use crate::run::Run;
use std::alloc::{AllocError, Global};
use zknow::{Fact, Knowledge};
use zknow_forms::{Form, Tally};
use zknow_merge::{FirstError, first_fact};

/// Whose records are taken.
#[derive(Drop)]
pub struct Chosen {
    /// Whether those of the target of this number are.
    pub targets: Vec<bool>,
    /// Whether those of targets of higher numbers are.
    pub others: bool,
}

/// Which records are taken, the form of their text, and what stands before it.
#[derive(Drop)]
pub struct Taking<'t> {
    pub chosen: &'t Chosen,
    pub form: &'t Form,
    /// The octets before the text of the records.
    pub head: Vec<u8>,
}

/// The run of which a record is read next.
#[derive(Clone, Copy, PartialEq, Eq, Drop)]
struct Next {
    number: usize,
    /// What is left of the run.
    run: Run,
    /// Whether its first record is taken. If not, the position of the record is read.
    is_due: bool,
}

/// Octets of a file that are wanted: from one offset on, before another.
#[derive(Clone, Copy, PartialEq, Eq, Drop)]
pub struct Wanted {
    /// The number of the run.
    pub number: usize,
    /// The number of the file.
    pub file: u32,
    pub begin: u64,
    pub end: u64,
}

/// What came of octets that were read.
#[derive(Clone, Copy, PartialEq, Eq, Drop)]
pub enum ReadStep {
    /// They begin with a record, which was taken.
    Taken,
    /// More octets are needed.
    Unfinished,
    /// The file is not as it was when its runs were found.
    Changed,
}

/// The records of runs that are taken by position. Those of one position are in memory.
#[derive(Drop)]
pub struct Rows<'t> {
    alloc: Global,
    chosen: &'t Chosen,
    form: &'t Form,
    runs: OpenRuns,
    next: Option<Next>,
    /// The records at the position.
    gathered: Knowledge,
    position: Option<i64>,
    /// The octets that were not handed out, of what stands before the text and of that of the records at lower
    /// positions.
    octets: Vec<u8>,
    /// What is told of the records at lower positions.
    tally: Tally,
}

/// Returns the target and the position of a record's fact, `None` for another fact.
fn place_of(fact: &Fact) -> Option<(u32, i64)>
    ensures { result ≡ place_of fact.now }
{
    match fact {
        Fact::Seen {
            target,
            position,
            ..
        } => Some((*target, *position)),
        Fact::Count { .. } | Fact::Failed { .. } | Fact::Diag { .. } => None,
    }
}

impl Chosen {
    /// Whether records of this target are taken.
    pub fn is_taken(&self, target: u32) -> bool
        ensures { result ≡ is_taken self.now target }
    {
        match self.targets.get(target as usize) {
            Some(taken) => *taken,
            None => self.others,
        }
    }
}

/// Returns what is left of a run whose record goes up to an offset, `None` if nothing is left.
fn rest_of(next: Next, begin: u64) -> Option<Next>
    ensures { result ≡ rest_of next begin }
{
    if begin >= next.run.end {
        return None;
    }
    let mut run = next.run;
    run.begin = begin;
    Some(Next {
        number: next.number,
        run,
        is_due: false,
    })
}

impl<'t> Rows<'t> {
    /// Returns the records of runs of which nothing was read.
    pub fn new(alloc: Global, taking: Taking<'t>, runs: &[Run]) -> Result<Rows<'t>, AllocError>
        ensures { IfOk result (λ rows. (s : Sources) → AreRunsIn s runs.now → HoldsOf s taking.entry [] rows) }
    {
        let Taking { chosen, form, head } = taking;
        let mut waiting = OpenRuns::new(alloc);
        for (number, run) in runs.iter().enumerate() {
            waiting.put(OpenRun { number, run: *run })?;
        }
        Ok(Rows {
            alloc,
            chosen,
            form,
            runs: waiting,
            next: None,
            gathered: Knowledge::new(alloc),
            position: None,
            octets: head,
            tally: Tally::new(alloc),
        })
    }

    /// Returns which octets are read next: those of a record, and none beyond the run's. Returns `None` if nothing is
    /// left.
    pub fn wanted(&mut self) -> Option<Wanted>
        ensures holds { (s : Sources) (t : Taking) (text : List ℕ) → HoldsOf s t text self.old
            → HoldsOf s t text self.new }
        ensures some { IfSome result (IsWanted self.new) }
        ensures none { IfNone result (left_runs self.new ≡ []) }
    {
        self.turn();
        match self.next {
            None => None,
            Some(next) => Some(Wanted {
                number: next.number,
                file: next.run.file,
                begin: next.run.begin,
                end: next.run.end,
            }),
        }
    }

    /// Turns to the run whose record is next, if none is read.
    fn turn(&mut self)
        ensures holds { (s : Sources) (t : Taking) (text : List ℕ) → HoldsOf s t text self.old
            → HoldsOf s t text self.new }
        ensures none { self.new.next ≡ None → self.new.runs ≡ [] }
    {
        match self.next {
            Some(_) => {}
            None => self.turn_next(),
        }
    }

    /// Turns to the run whose record is next.
    fn turn_next(&mut self)
        requires { self.old.next ≡ None }
        ensures holds { (s : Sources) (t : Taking) (text : List ℕ) → HoldsOf s t text self.old
            → HoldsOf s t text self.new }
        ensures none { self.new.next ≡ None → self.new.runs ≡ [] }
    {
        match self.runs.take() {
            None => {}
            Some(OpenRun { number, run }) => {
                self.next = Some(Next {
                    number,
                    run,
                    is_due: true,
                });
            }
        }
    }

    /// Reads octets that stand where `wanted` says, and takes the record that they begin with.
    ///
    /// Returns `Unfinished` if there is no whole record; nothing was taken. Returns `Changed` if there is none,
    /// whatever comes behind the octets, or if the record goes beyond the run, is at another position, or is not to be
    /// taken: the file is not as it was when its runs were found. Returns `AllocError` if no memory is found, or if a
    /// count of the tally passes 64 bits. After these two, nothing holds of the rows.
    pub fn read(&mut self, octets: &[u8]) -> Result<ReadStep, AllocError>
        ensures holds { IfOk result (λ step. (s : Sources) (t : Taking) (text : List ℕ)
            → StandNext s.files self.old octets.now → HoldsOf s t text self.old → AfterReadOf s t text self.new step) }
        ensures excused { IfOk result (λ step. (s : Sources) (t : Taking) (text : List ℕ) → AreTaken s t
            → StandNext s.files self.old octets.now → HoldsOf s t text self.old
            → IsExcused s.files self.old octets.now step) }
    {
        let Some(next) = self.next else {
            return Ok(ReadStep::Changed);
        };
        match first_fact(self.alloc, octets) {
            Ok((fact, size)) => self.take_fact(next, &fact, size as u64),
            Err(FirstError::Unfinished) => Ok(ReadStep::Unfinished),
            Err(FirstError::NotFact) => Ok(ReadStep::Changed),
            Err(FirstError::Memory) => Err(AllocError),
        }
    }

    /// Takes the fact that the run begins with, whose element has so many octets.
    #[tactic(auto, using(crate::proofs::ExcuseTheory::taken_steps))]
    fn take_fact(&mut self, next: Next, fact: &Fact, size: u64) -> Result<ReadStep, AllocError>
        requires fact { IsFact fact.now }
        ensures { IfOk result (AfterTaken self.old next fact.now size self.new) }
    {
        let Some((target, position)) = place_of(fact) else {
            return Ok(ReadStep::Changed);
        };
        if next.is_due {
            self.gather(next, fact, size, target, position)
        } else {
            self.place(next, position)
        }
    }

    /// Gathers a record that is due: `Changed` if it is not where it was, or not to be taken.
    #[tactic(auto, using(crate::proofs::ExcuseTheory::not_due))]
    fn gather(
        &mut self,
        next: Next,
        fact: &Fact,
        size: u64,
        target: u32,
        position: i64,
    ) -> Result<ReadStep, AllocError>
        requires fact { IsFact fact.now }
        requires place { place_of fact.now ≡ Some (target, position) }
        ensures { IfOk result (AfterGathered self.old next fact.now size self.new) }
    {
        let Some(begin) = next.run.begin.checked_add(size) else {
            return Ok(ReadStep::Changed);
        };
        let is_taken = self.chosen.is_taken(target);
        if !is_taken || position != next.run.position || begin > next.run.end {
            return Ok(ReadStep::Changed);
        }
        self.turn_to(position)?;
        self.gathered.add(fact)?;
        self.gathered.lawful();
        self.next = rest_of(next, begin);
        Ok(ReadStep::Taken)
    }

    /// Puts a run back, whose first record is at a position: `Changed` if that is lower than it was.
    fn place(&mut self, next: Next, position: i64) -> Result<ReadStep, AllocError>
        ensures { IfOk result (AfterPlaced self.old next position self.new) }
    {
        if position < next.run.position {
            return Ok(ReadStep::Changed);
        }
        let mut run = next.run;
        run.position = position;
        self.runs.put(OpenRun {
            number: next.number,
            run,
        })?;
        self.next = None;
        Ok(ReadStep::Taken)
    }

    /// Turns to a position: appends the records that were gathered at another.
    fn turn_to(&mut self, position: i64) -> Result<(), AllocError>
        ensures { OnOk result (HasTurned self.old position self.new) }
    {
        if self.position == Some(position) {
            return Ok(());
        }
        self.append()?;
        self.position = Some(position);
        Ok(())
    }

    /// Appends the text of the records that were gathered, and adds what is told of them.
    fn append(&mut self) -> Result<(), AllocError>
        ensures { OnOk result (HasAppended self.old self.new) }
    {
        self.form.write(
            self.alloc,
            &self.gathered,
            &mut self.octets,
            &mut self.tally,
        )?;
        self.gathered = Knowledge::new(self.alloc);
        Ok(())
    }

    /// Returns the octets that were not handed out.
    pub fn octets(&self) -> &[u8]
        ensures { result.now ≡ kept_octets self.now }
    {
        self.octets.as_slice()
    }

    /// Notes that the octets were handed out.
    pub fn hand_out(&mut self)
        ensures { (s : Sources) (t : Taking) (text : List ℕ) → HoldsOf s t text self.old
            → HoldsOf s t (text ++ kept_octets self.old) self.new }
    {
        self.octets.clear();
    }

    /// Returns the octets that were not handed out, of the last records too, and what is told of all records. Returns
    /// `AllocError` if no memory is found, or if a count of the tally passes 64 bits.
    pub fn finish(mut self) -> Result<(Vec<u8>, Tally), AllocError>
        ensures { IfOk result (λ r. (s : Sources) (t : Taking) (text : List ℕ) → HoldsOf s t text self.entry
            → left_runs self.entry ≡ [] → AreRowsOf s t (text ++ r.0.items) r.1) }
    {
        self.append()?;
        let Rows {
            alloc: _,
            chosen: _,
            form: _,
            runs: _,
            next: _,
            gathered: _,
            position: _,
            octets,
            tally,
        } = self;
        Ok((octets, tally))
    }
}
