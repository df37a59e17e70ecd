//! The courses of many connections: what is to be done, and when to wake.

ghost use Rattle.std.specs.Prelude.{◌≡◌, ◌<◌, ◌^◌, length};

use crate::action::{Action, Task, put};
use crate::course::Course;
use crate::plan::{Plan, first_course};
use crate::signal::Signal;
use crate::turn::first_open;
use crate::wakes::Wakes;
use std::alloc::{AllocError, Global};
use std::collections::VecDeque;

/// The courses of many connections. Times are nanoseconds of the caller's clock.
#[derive(Drop)]
pub struct Clock {
    alloc: Global,
    /// By connection.
    courses: Vec<Course>,
    wakes: Wakes,
    /// What is to be done, the first thing first.
    queue: VecDeque<Action>,
    /// The latest time that is known to have passed.
    passed: u64,
    /// Whether the connections wait for their turns.
    in_order: bool,
    /// The connections before this one are over, or not chosen.
    turn: usize,
    ghost sized: { length wakes ≡ length courses.items },
    ghost few: { length courses.items < 2 ^ 32 },
}

impl Clock {
    ghost use Rattle.std.specs.Prelude.{◌≡◌, ℕ, ◌+◌, ◌<◌, ◌≤◌, ◌^◌, ◌++◌, ◌∷◌, [], ◌↔◌, max, not, true, false, length, slice_get, IfOk, IfSome, IfNone, OnOk, Some, Contains, option_to_list};
    ghost use Rattle.zoom_clock.specs.declared.signal.Signal.TheVariants as signals;
    ghost use Rattle.zoom_clock.specs.Actions.{for_connection};
    ghost use Rattle.zoom_clock.specs.Clocks.{IsOrderly, AfterNote, AfterTurns, AreSettled, SomeIsOpen, IsLeastWake, NoneIsDue, due_count, all_planned};
    ghost use Rattle.zoom_clock.specs.Courses.{event, is_settled, wake_of};
    ghost use Rattle.zoom_clock.specs.Wakes.{IsDueAt};

    /// Connections that are asked from `start` on. If they wait for their turns, octets of none are wanted before its
    /// turn has come. Returns `AllocError` if no memory is found.
    pub fn new(
        alloc: Global,
        plans: &[Plan],
        in_order: bool,
        start: u64,
    ) -> Result<Self, AllocError>
        requires { length plans.now < 2 ^ 32 }
        ensures courses { IfOk result (λ k. k.courses.items ≡ all_planned start (not in_order) plans.now) }
        ensures tasks { IfOk result (λ k. k.queue.items ≡ []) }
        ensures orderly { IfOk result (λ k. IsOrderly k) }
        ensures passed { IfOk result (λ k. k.passed ≡ start) }
        ensures in_order { IfOk result (λ k. k.in_order ≡ in_order) }
    {
        let mut courses = Vec::new(alloc);
        let mut wakes = Wakes::new(alloc, plans.len() as u32)?;
        for c in 0..plans.len() {
            let plan = plans[c];
            let course = first_course(plan, start, !in_order);
            let time = course.wake_at();
            wakes.set(c as u32, time)?;
            courses.push(course)?;
        }
        Ok(Clock {
            alloc,
            courses,
            wakes,
            queue: VecDeque::new(alloc),
            passed: start,
            in_order,
            turn: 0,
        })
    }

    /// How many connections there are.
    pub fn len(&self) -> usize
        ensures { result ≡ length self.now.courses.items }
    {
        self.courses.len()
    }

    /// The course of a connection.
    pub fn course(&self, c: u32) -> &Course
        requires { c < length self.now.courses.items }
        ensures { slice_get self.now.courses.items c ≡ Some result.now }
    {
        &self.courses[c as usize]
    }

    /// Notes that this time has passed, and returns the latest that has.
    pub fn pass(&mut self, at: u64) -> u64
        ensures passed { self.new.passed ≡ max self.old.passed at }
        ensures time { result ≡ self.new.passed }
        ensures wakes { self.new.wakes ≡ self.old.wakes }
        ensures courses { self.new.courses ≡ self.old.courses }
        ensures queue { self.new.queue ≡ self.old.queue }
        ensures in_order { self.new.in_order ≡ self.old.in_order }
        ensures orderly { IsOrderly self.old → IsOrderly self.new }
    {
        if self.passed < at {
            self.passed = at;
        }
        self.passed
    }

    /// The latest time that is known to have passed.
    pub fn passed(&self) -> u64
        ensures { result ≡ self.now.passed }
    {
        self.passed
    }

    /// Notes what was told of a connection at a time. Returns `AllocError` if no memory is found.
    pub fn note(&mut self, c: u32, at: u64, what: Signal) -> Result<(), AllocError>
        requires { c < length self.old.courses.items }
        ensures after { OnOk result (AfterNote c (event at what) self.old self.new) }
        ensures size { length self.new.courses.items ≡ length self.old.courses.items }
        // a tick after which the connection is not due any more
        ensures fewer { OnOk result (what ≡ signals.Tick → IsDueAt self.old.wakes at c
            → due_count at self.new + 1 ≡ due_count at self.old) }
    {
        let course = &mut self.courses[c as usize];
        course.note(self.alloc, c, at, what, &mut self.queue)?;
        let time = course.wake_at();
        self.wakes.set(c, time)?;
        Ok(())
    }

    /// Gives the turn, at a time, to the first connection that is neither over nor not chosen, if the connections wait
    /// for their turns and it does not have it yet. Returns `AllocError` if no memory is found.
    pub fn take_turns(&mut self, at: u64) -> Result<(), AllocError>
        ensures after { OnOk result (AfterTurns at self.old self.new) }
        ensures size { length self.new.courses.items ≡ length self.old.courses.items }
    {
        self.turn = first_open(&self.courses, self.turn);
        if !self.in_order {
            return Ok(());
        }
        if self.turn >= self.courses.len() {
            return Ok(());
        }
        let course = &self.courses[self.turn];
        if course.wanted {
            return Ok(());
        }
        self.note(self.turn as u32, at, Signal::Turn)?;
        Ok(())
    }

    /// Whether each connection is over, or was not chosen. It looks at those that ended since turns were last taken.
    pub fn is_over(&self) -> bool
        ensures over { IsOrderly self.now → result ≡ true → AreSettled self.now.courses.items }
        ensures some { result ≡ false → SomeIsOpen self.now.courses.items }
    {
        first_open(&self.courses, self.turn) >= self.courses.len()
    }

    /// A connection to which a tick at the latest time that has passed does something, if there is one.
    pub fn due(&self) -> Option<u32>
        ensures within { IfSome result (λ c. c < length self.now.courses.items) }
        ensures none { IfNone result (IsOrderly self.now → NoneIsDue self.now.passed self.now.courses.items) }
        ensures some { IfSome result (λ c. IsDueAt self.now.wakes self.now.passed c) }
    {
        self.wakes.first_due(self.passed)
    }

    /// The first time at which a tick does something. `None` if no limit runs, or no clock gets there.
    pub fn wake_at(&self) -> Option<u64>
        ensures { IsOrderly self.now → IsLeastWake self.now.courses.items result }
    {
        self.wakes.least()
    }

    /// Adds a task for a connection, behind all others. Returns `AllocError` if no memory is found.
    pub fn put(&mut self, c: u32, task: Task) -> Result<(), AllocError>
        ensures queue { OnOk result (self.new.queue.items ≡ self.old.queue.items ++ for_connection c task ∷ []) }
        ensures wakes { self.new.wakes ≡ self.old.wakes }
        ensures courses { self.new.courses ≡ self.old.courses }
        ensures passed { self.new.passed ≡ self.old.passed }
        ensures in_order { self.new.in_order ≡ self.old.in_order }
        ensures orderly { IsOrderly self.old → IsOrderly self.new }
    {
        put(&mut self.queue, c, task)
    }

    /// What is to be done next; each task is handed out once, the oldest first. It takes no memory.
    pub fn next_action(&mut self) -> Option<Action>
        ensures queue { self.old.queue.items ≡ option_to_list result ++ self.new.queue.items }
        ensures none { IfNone result (self.old.queue.items ≡ []) }
        ensures wakes { self.new.wakes ≡ self.old.wakes }
        ensures courses { self.new.courses ≡ self.old.courses }
        ensures passed { self.new.passed ≡ self.old.passed }
        ensures in_order { self.new.in_order ≡ self.old.in_order }
        ensures orderly { IsOrderly self.old → IsOrderly self.new }
    {
        self.queue.pop_front()
    }
}
