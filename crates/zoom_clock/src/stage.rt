//! How far a connection is, and what becomes of it by the rules.
ghost use Rattle.std.specs.Prelude.{◌≡◌, ◌++◌, true, IfOk, OnOk};
ghost use Rattle.zoom_clock.specs.declared.stage.Stage.TheVariants.{Connecting, Talking};
ghost use Rattle.zoom_clock.specs.Actions.{AreAdded};
ghost use Rattle.zoom_clock.specs.Stages.{IsRuling, next_stage, first_stage, resolved, resolving_ruling, beginning_next, failing, giving_up, reading, winning, connecting_late, connecting_ruling, ending_talk, hearing, losing, listening, verdict, talking_ruling, ruling, connect_end, wake_in};
ghost use Rattle.zoom_clock.specs.Attempts.{is_open, with_failed};
ghost use Rattle.zoom_clock.specs.Times.{IsTime};

use crate::action::{Action, Task, put};
use crate::attempts::Attempts;
use crate::limits::{Limits, earlier_of, has_come, later, total_end};
use crate::signal::{Condition, Ending, Signal};
use crate::talk::Talk;
use std::alloc::{AllocError, Global};
use std::collections::VecDeque;

/// How far a connection is.
#[derive(Drop)]
pub enum Stage {
    /// It is not asked.
    NotChosen,
    /// The addresses of its host are not known yet.
    Resolving,
    Connecting(Attempts),
    Talking(Talk),
    Over(Ending),
}

/// When something is told of which connection.
#[derive(Clone, Copy)]
pub(crate) struct Moment {
    /// The number of the connection.
    pub c: u32,
    pub limits: Limits,
    pub start: u64,
    pub time: u64,
    /// Whether octets of it are wanted.
    pub wanted: bool,
}

impl Stage {
    /// The stage at the start.
    pub(crate) fn first(chosen: bool) -> Self
        ensures { result ≡ first_stage chosen }
    {
        if chosen {
            Stage::Resolving
        } else {
            Stage::NotChosen
        }
    }

    /// Returns the first time at which a tick does something, in nanoseconds of the caller's clock. `None` if no limit
    /// runs, or if the time is above `u64::MAX`, so that no clock gets there.
    pub(crate) fn wake_at(&self, limits: &Limits, start: u64, wanted: bool) -> Option<u64>
        ensures { IsTime (wake_in limits.now start wanted self.now) result }
    {
        match self {
            Stage::Resolving => total_end(limits.total, start),
            Stage::Connecting(attempts) => earlier_of(
                connect_end(limits, start, attempts.began),
                attempts.next_at(),
            ),
            Stage::Talking(talk) => talk.ends_at(limits, start, wanted),
            _ => None,
        }
    }

    /// Notes what is told of the connection, at any stage, by the rules: sets the stage, and puts what is to be done
    /// into the queue. A tick is one whose time has come: the caller has told no earlier one. Of a connection that is
    /// over, or not chosen, what is told changes nothing.
    pub(crate) fn note(
        &mut self,
        alloc: Global,
        at: &Moment,
        what: Signal,
        queue: &mut VecDeque<Action>,
    ) -> Result<(), AllocError>
        ensures { OnOk result (IsRuling
            (ruling at.now.limits at.now.start at.now.time at.now.wanted what self.old) at.now.c
            self.new queue.old.items queue.new.items) }
    {
        match self {
            Stage::Resolving => {
                *self = note_resolving(alloc, at, what, queue)?;
                Ok(())
            }
            Stage::Connecting(attempts) => {
                if let Some(stage) = note_connecting(at, what, attempts, queue)? {
                    *self = stage;
                }
                Ok(())
            }
            Stage::Talking(talk) => {
                *self = note_talking(at, what, *talk, queue)?;
                Ok(())
            }
            Stage::NotChosen | Stage::Over(_) => Ok(()),
        }
    }
}

/// Returns when a connection is given up that has not connected, if it began to connect at `began`, in nanoseconds of
/// the caller's clock. `None` if the time is above `u64::MAX`, so that no clock gets there.
fn connect_end(limits: &Limits, start: u64, began: u64) -> Option<u64>
    ensures { IsTime (connect_end limits.now start began) result }
{
    earlier_of(later(began, limits.connect), total_end(limits.total, start))
}

// ---- resolving

/// Returns the stage after the name was resolved to so many addresses: over, if there are none, else connecting, with
/// the first attempt put into the queue.
fn resolve(
    alloc: Global,
    at: &Moment,
    addresses: usize,
    queue: &mut VecDeque<Action>,
) -> Result<Stage, AllocError>
    ensures { IfOk result (λ s. IsRuling (resolved at.now.time addresses) at.now.c s queue.old.items queue.new.items) }
{
    if addresses == 0 {
        return Ok(Stage::Over(Ending::Connect));
    }
    let attempts = Attempts::new(alloc, addresses, at.time)?;
    put(queue, at.c, Task::Connect(0))?;
    Ok(Stage::Connecting(attempts))
}

/// Returns the stage after what is told of a connection whose name was not yet resolved. A tick is one whose time has
/// come: it ends the wait for the name.
fn note_resolving(
    alloc: Global,
    at: &Moment,
    what: Signal,
    queue: &mut VecDeque<Action>,
) -> Result<Stage, AllocError>
    ensures { IfOk result (λ s. IsRuling (resolving_ruling at.now.time what) at.now.c s
        queue.old.items queue.new.items) }
{
    match what {
        Signal::Resolved(addresses) => resolve(alloc, at, addresses, queue),
        Signal::GiveUp => Ok(Stage::Over(Ending::Turns)),
        Signal::Tick => Ok(Stage::Over(Ending::Connect)),
        _ => Ok(Stage::Resolving),
    }
}

// ---- connecting

/// Begins the next attempt, if one is left, and puts it into the queue.
fn begin_next(
    at: &Moment,
    attempts: &mut Attempts,
    queue: &mut VecDeque<Action>,
) -> Result<(), AllocError>
    ensures { OnOk result (IsRuling (beginning_next at.now.time attempts.old) at.now.c (Connecting attempts.new)
        queue.old.items queue.new.items) }
{
    match attempts.next() {
        None => Ok(()),
        Some(k) => {
            put(queue, at.c, Task::Connect(k))?;
            attempts.begin(at.time, k);
            Ok(())
        }
    }
}

/// Ends a connection that has not connected: puts into the queue that the socket of each open attempt is to be closed.
fn give_up(
    at: &Moment,
    ending: Ending,
    attempts: &Attempts,
    queue: &mut VecDeque<Action>,
) -> Result<Stage, AllocError>
    ensures { IfOk result (λ s. IsRuling (giving_up ending attempts.now) at.now.c s queue.old.items queue.new.items) }
{
    attempts.leave_all(at.c, queue)?;
    Ok(Stage::Over(ending))
}

/// Returns the stage after attempt `k` failed, which is noted in `attempts` already: over, if all have failed, else
/// `None`, as it goes on with its attempts. If `k` was begun last, the next attempt begins at once.
fn fail(
    at: &Moment,
    k: usize,
    attempts: &mut Attempts,
    queue: &mut VecDeque<Action>,
) -> Result<Option<Stage>, AllocError>
    ensures { IfOk result (λ s. IsRuling (failing at.now.time k attempts.old) at.now.c (next_stage s attempts.new)
        queue.old.items queue.new.items) }
{
    if attempts.states.have_all_failed() {
        return Ok(Some(Stage::Over(Ending::Connect)));
    }
    if k == attempts.last {
        begin_next(at, attempts, queue)?;
    }
    Ok(None)
}

/// Puts into the queue that octets are wanted, if the turn of the connection has come.
fn read_if_wanted(at: &Moment, queue: &mut VecDeque<Action>) -> Result<(), AllocError>
    ensures { OnOk result (AreAdded at.now.c (reading at.now.wanted) queue.old.items queue.new.items) }
{
    if at.wanted {
        return put(queue, at.c, Task::Read);
    }
    Ok(())
}

/// Returns the stage after attempt `k` connected: talking, by its socket. Puts into the queue that the sockets of the
/// other open attempts are to be closed, and that octets are wanted, if the turn of the connection has come.
fn win(
    at: &Moment,
    k: usize,
    attempts: &mut Attempts,
    queue: &mut VecDeque<Action>,
) -> Result<Stage, AllocError>
    requires { is_open k attempts.old.states ≡ true }
    ensures { IfOk result (λ s. IsRuling (winning at.now.limits at.now.time at.now.wanted k attempts.old) at.now.c s
        queue.old.items queue.new.items) }
{
    attempts.fail(k);
    attempts.leave_all(at.c, queue)?;
    read_if_wanted(at, queue)?;
    Ok(Stage::Talking(Talk::new(&at.limits, at.time, k)))
}

/// Returns the stage after a time of a connection has come that has not connected: over, if it has waited for as long
/// as it may, else `None`, and its next attempt begins, if one is left.
fn note_late(
    at: &Moment,
    attempts: &mut Attempts,
    queue: &mut VecDeque<Action>,
) -> Result<Option<Stage>, AllocError>
    ensures { IfOk result (λ s. IsRuling (connecting_late at.now.limits at.now.start at.now.time attempts.old)
        at.now.c (next_stage s attempts.new) queue.old.items queue.new.items) }
{
    if has_come(connect_end(&at.limits, at.start, attempts.began), at.time) {
        return Ok(Some(give_up(at, Ending::Connect, attempts, queue)?));
    }
    begin_next(at, attempts, queue)?;
    Ok(None)
}

/// Returns the stage after what is told of a connection that has not connected; `None` if it goes on with its attempts.
/// What is told of an attempt that is not open changes nothing. A tick is one whose time has come.
fn note_connecting(
    at: &Moment,
    what: Signal,
    attempts: &mut Attempts,
    queue: &mut VecDeque<Action>,
) -> Result<Option<Stage>, AllocError>
    ensures { IfOk result (λ s. IsRuling
        (connecting_ruling at.now.limits at.now.start at.now.time at.now.wanted what attempts.old)
        at.now.c (next_stage s attempts.new) queue.old.items queue.new.items) }
{
    match what {
        Signal::Connected(k) => {
            if attempts.is_open(k) {
                return Ok(Some(win(at, k, attempts, queue)?));
            }
            Ok(None)
        }
        Signal::Unreachable(k) => {
            if attempts.is_open(k) {
                attempts.fail(k);
                return fail(at, k, attempts, queue);
            }
            Ok(None)
        }
        Signal::NoSocket(k) => {
            if attempts.is_open(k) {
                attempts.wait(at.time, k);
            }
            Ok(None)
        }
        Signal::GiveUp => Ok(Some(give_up(at, Ending::Turns, attempts, queue)?)),
        Signal::Tick => note_late(at, attempts, queue),
        _ => Ok(None),
    }
}

// ---- talking

/// Ends a connection that is talked with: puts into the queue that its socket is to be closed.
fn end_talk(
    at: &Moment,
    talk: &Talk,
    ending: Ending,
    queue: &mut VecDeque<Action>,
) -> Result<Stage, AllocError>
    ensures { IfOk result (λ s. IsRuling (ending_talk talk.now ending) at.now.c s queue.old.items queue.new.items) }
{
    put(queue, at.c, Task::Leave(talk.socket))?;
    Ok(Stage::Over(ending))
}

/// Returns the stage after octets came that left the connection in this condition: over, if they have ended it or no
/// more pieces may come, else talking.
fn hear(
    at: &Moment,
    condition: Condition,
    mut talk: Talk,
    queue: &mut VecDeque<Action>,
) -> Result<Stage, AllocError>
    ensures { IfOk result (λ s. IsRuling (hearing at.now.time condition talk) at.now.c s
        queue.old.items queue.new.items) }
{
    if let Condition::Finished = condition {
        return end_talk(at, &talk, Ending::Finished, queue);
    }
    if talk.hear(at.time, condition) {
        let ending = talk.verdict(Ending::Turns);
        return end_talk(at, &talk, ending, queue);
    }
    Ok(Stage::Talking(talk))
}

/// Returns the stage after a write failed: over, if the connection has all it wanted, else talking, since what still
/// comes is read.
fn lose(at: &Moment, mut talk: Talk, queue: &mut VecDeque<Action>) -> Result<Stage, AllocError>
    ensures { IfOk result (λ s. IsRuling (losing talk) at.now.c s queue.old.items queue.new.items) }
{
    if talk.leaving {
        return end_talk(at, &talk, Ending::InputEnded, queue);
    }
    talk.lost = true;
    Ok(Stage::Talking(talk))
}

/// Returns the stage after the turn of the connection has come: octets are wanted from now on, and its silence counts
/// from now on. If they were wanted before, nothing changes.
fn listen(at: &Moment, mut talk: Talk, queue: &mut VecDeque<Action>) -> Result<Stage, AllocError>
    ensures { IfOk result (λ s. IsRuling (listening at.now.time at.now.wanted talk) at.now.c s
        queue.old.items queue.new.items) }
{
    if at.wanted {
        return Ok(Stage::Talking(talk));
    }
    put(queue, at.c, Task::Read)?;
    talk.heard = at.time;
    Ok(Stage::Talking(talk))
}

/// Ends a connection that is talked with and given up for this reason. One that has all it wanted ends as if its input
/// had ended, and one of which a write failed, for that.
fn end_for(
    at: &Moment,
    talk: &Talk,
    ending: Ending,
    queue: &mut VecDeque<Action>,
) -> Result<Stage, AllocError>
    ensures { IfOk result (λ s. IsRuling (ending_talk talk.now (verdict talk.now ending)) at.now.c s
        queue.old.items queue.new.items) }
{
    let verdict = talk.verdict(ending);
    end_talk(at, talk, verdict, queue)
}

/// Returns the stage after what is told of a connection that is talked with. A tick is one whose time has come: it ends
/// the connection.
fn note_talking(
    at: &Moment,
    what: Signal,
    mut talk: Talk,
    queue: &mut VecDeque<Action>,
) -> Result<Stage, AllocError>
    ensures { IfOk result (λ s. IsRuling (talking_ruling at.now.time at.now.wanted what talk) at.now.c s
        queue.old.items queue.new.items) }
{
    match what {
        Signal::Octets(condition) => hear(at, condition, talk, queue),
        Signal::Taken => {
            talk.heard = at.time;
            Ok(Stage::Talking(talk))
        }
        Signal::End => end_for(at, &talk, Ending::InputEnded, queue),
        Signal::Unreadable | Signal::Tick => end_for(at, &talk, Ending::Read, queue),
        Signal::GiveUp => end_for(at, &talk, Ending::Turns, queue),
        Signal::Unwritable => lose(at, talk, queue),
        Signal::Turn => listen(at, talk, queue),
        _ => Ok(Stage::Talking(talk)),
    }
}
