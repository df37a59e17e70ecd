//! Connecting to one host: its addresses are tried one after the other (RFC 8305, 5).
ghost use Rattle.std.specs.Prelude.{◌≡◌, ◌+◌, ◌<◌, ◌++◌, [], ◌∷◌, IfOk, IfSome, OnOk, length, true, false, slice_set};
ghost use Rattle.std.specs.List.{list_all};
ghost use Rattle.zoom_clock.specs.declared.attempt.Attempt.TheVariants.{Failed};
ghost use Rattle.zoom_clock.specs.declared.action.Task.TheVariants.{Connect};
ghost use Rattle.zoom_clock.specs.Actions.{for_connection, AreAdded};
ghost use Rattle.zoom_clock.specs.Attempts.{is_open, has_failed, next_of, leaves, first_attempts, with_begun, with_failed, with_waiting, next_at};
ghost use Rattle.zoom_clock.specs.Times.{IsTime};

use crate::action::{Action, Task, put};
use crate::attempt::{Attempt, AttemptList};
use crate::limits::later;
use std::alloc::{AllocError, Global};
use std::collections::VecDeque;

/// The connection attempt delay, in nanoseconds: RFC 8305, 5 recommends 250 milliseconds.
pub(crate) const ATTEMPT_DELAY: u64 = 250_000_000;

/// The attempts to connect to a host, in the order of its addresses.
#[derive(Drop)]
pub struct Attempts {
    /// When connecting began.
    pub began: u64,
    /// The number of the attempt that was begun last.
    pub last: usize,
    /// Since when it is waited for, or for a socket.
    pub since: u64,
    pub states: AttemptList,
}

impl Attempts {
    /// The first attempt is begun. Returns `AllocError` if no memory is found.
    pub fn new(alloc: Global, addresses: usize, now: u64) -> Result<Self, AllocError>
        requires { 0 < addresses }
        ensures { IfOk result (λ a. a ≡ first_attempts addresses now) }
    {
        let mut states = AttemptList::new(alloc, addresses)?;
        states.set(0, Attempt::Open);
        Ok(Attempts {
            began: now,
            last: 0,
            since: now,
            states,
        })
    }

    /// Whether the attempt was begun, and neither succeeded nor failed.
    pub fn is_open(&self, k: usize) -> bool
        ensures { result ≡ is_open k self.now.states }
    {
        match self.states.at(k) {
            Attempt::Open => true,
            _ => false,
        }
    }

    /// The attempt to begin next, if one is left.
    pub fn next(&self) -> Option<usize>
        ensures next { result ≡ next_of self.now.states }
        ensures within { IfSome result (λ k. k < length self.now.states) }
    {
        match self.states.first_waiting() {
            Some(k) => Some(k),
            None => self.states.first_ahead(),
        }
    }

    /// When the next attempt is due, if the last does not fail before. `None` if none is left, or no clock gets there.
    pub fn next_at(&self) -> Option<u64>
        ensures { IsTime (next_at self.now) result }
    {
        match self.next() {
            Some(_) => later(self.since, ATTEMPT_DELAY),
            None => None,
        }
    }

    /// An open attempt has failed.
    pub fn fail(&mut self, k: usize)
        requires { is_open k self.old.states ≡ true }
        ensures { self.new ≡ with_failed k self.old }
    {
        self.states.set(k, Attempt::Failed);
    }

    /// The system has no socket for an open attempt.
    pub fn wait(&mut self, now: u64, k: usize)
        requires { is_open k self.old.states ≡ true }
        ensures { self.new ≡ with_waiting now k self.old }
    {
        self.since = now;
        self.states.set(k, Attempt::Waiting);
    }

    /// Begins an attempt.
    pub fn begin(&mut self, now: u64, k: usize)
        requires { k < length self.old.states }
        ensures { self.new ≡ with_begun now k self.old }
    {
        self.last = k;
        self.since = now;
        self.states.set(k, Attempt::Open);
    }

    /// Leaves each open attempt.
    pub fn leave_all(&self, c: u32, queue: &mut VecDeque<Action>) -> Result<(), AllocError>
        ensures { OnOk result (AreAdded c (leaves self.now.states) queue.old.items queue.new.items) }
    {
        for k in 0..self.states.len() {
            if self.is_open(k) {
                put(queue, c, Task::Leave(k))?;
            }
        }
        Ok(())
    }
}
