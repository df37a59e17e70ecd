//! The course of a connection.
ghost use Rattle.std.specs.Prelude.{◌≡◌, max, OnOk};
ghost use Rattle.zoom_clock.specs.Actions.{AreAdded};
ghost use Rattle.zoom_clock.specs.Courses.{event, first_course, step, tasks_of, wake_of, is_settled, is_idle, wanted_after};
ghost use Rattle.zoom_clock.specs.Times.{IsTime};

use crate::action::Action;
use crate::limits::{Limits, has_come};
use crate::signal::Signal;
use crate::stage::{Moment, Stage};
use std::alloc::{AllocError, Global};
use std::collections::VecDeque;

/// What became of a connection, by what was told of it and when.
#[derive(Drop)]
pub struct Course {
    pub limits: Limits,
    /// When it began.
    pub start: u64,
    /// The latest time at which something was told of it.
    pub latest: u64,
    /// Whether octets of it are wanted.
    pub wanted: bool,
    pub stage: Stage,
}

impl Course {
    /// A connection that is asked, or one that is not chosen, from `start` on.
    pub fn new(limits: Limits, chosen: bool, start: u64, wanted: bool) -> Self
        ensures { result ≡ first_course limits chosen start wanted }
    {
        Course {
            limits,
            start,
            latest: start,
            wanted,
            stage: Stage::first(chosen),
        }
    }

    /// Notes what was told of the connection at a time. What is to be done is added to the queue, for connection `c`.
    /// A time that goes back counts as the latest. Returns `AllocError` if no memory is found.
    pub fn note(
        &mut self,
        alloc: Global,
        c: u32,
        at: u64,
        what: Signal,
        queue: &mut VecDeque<Action>,
    ) -> Result<(), AllocError>
        ensures step { OnOk result (self.new ≡ step (event at what) self.old) }
        ensures tasks { OnOk result (AreAdded c (tasks_of (event at what) self.old) queue.old.items queue.new.items) }
    {
        if self.is_idle(at, what) {
            return Ok(());
        }
        let now = self.time_of(at);
        let moment = Moment {
            c,
            limits: self.limits,
            start: self.start,
            time: now,
            wanted: self.wanted,
        };
        self.stage.note(alloc, &moment, what, queue)?;
        self.latest = now;
        self.wanted = wanted_after(what, self.wanted);
        Ok(())
    }

    /// The first time at which a tick does something. `None` if no limit runs, or no clock gets there.
    pub fn wake_at(&self) -> Option<u64>
        ensures { IsTime (wake_of self.now) result }
    {
        self.stage.wake_at(&self.limits, self.start, self.wanted)
    }

    /// Whether it is over, or not chosen.
    pub fn is_settled(&self) -> bool
        ensures { result ≡ is_settled self.now.stage }
    {
        match &self.stage {
            Stage::NotChosen | Stage::Over(_) => true,
            _ => false,
        }
    }

    /// The time at which something is told: not before the latest.
    fn time_of(&self, at: u64) -> u64
        ensures { result ≡ max self.now.latest at }
    {
        if self.latest < at { at } else { self.latest }
    }

    /// Whether what is told changes nothing.
    fn is_idle(&self, at: u64, what: Signal) -> bool
        ensures { result ≡ is_idle (event at what) self.now }
    {
        if self.is_settled() {
            return true;
        }
        match what {
            Signal::Tick => !has_come(self.wake_at(), at),
            _ => false,
        }
    }
}

/// Whether octets are wanted from now on.
fn wanted_after(what: Signal, wanted: bool) -> bool
    ensures { result ≡ wanted_after what wanted }
{
    match what {
        Signal::Turn => true,
        _ => wanted,
    }
}
