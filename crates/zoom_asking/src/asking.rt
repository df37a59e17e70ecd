//! Asking many hosts, without sockets and without a clock.

ghost use Rattle.std.specs.Prelude.{◌≡◌, ◌&&◌, not, nat_lt, length, IfOk};
ghost use Rattle.zoom_asking.specs.Buffers.{AreEmpty};

use crate::change::{Change, change_of, kind_of, lost_of};
use crate::inquiry::{AskedHost, Manner, Report, is_in_order, plans_of, signal_of};
use crate::talk::{close, condition, drive, hear};
use std::alloc::{AllocError, Global};
use zber::Seq;
use zoom_clock::{Action, Clock, Condition, Ending, Signal, Task};
use zoom_pool::{Meta, MetaSettings, Question};

/// Asks many hosts: each connection has a question, and a host if it is chosen. It is told what happened and when,
/// and says what to do (`next_action`) and when it wants to be woken (`wake_at`). Times are nanoseconds of its
/// caller's clock; one that goes back counts as the latest that is known.
///
/// Each call that has a `c` requires it to be below `connections()`. After a call that found no memory, besides
/// `outgoing`, no call promises more.
#[derive(Drop)]
pub struct Asking {
    meta: Meta,
    clock: Clock,
    /// The octets of each connection that wait to be sent.
    unsent: Vec<Vec<u8>>,
    ghost clocked: { length clock.courses.items ≡ length meta.pool.connections },
    ghost held: { length unsent.items ≡ length meta.pool.connections },
}

impl Asking {
    ghost use Rattle.std.specs.Prelude.{◌≡◌, ℕ, ◌+◌, ◌<◌, ◌^◌, ◌++◌, [], max, false, length, IfOk, IfNone, OnOk, OnErr, Some, option_to_list};
    ghost use Rattle.zoom_questions.specs.Askable.{AreFit, AreAskable};
    ghost use Rattle.zoom_clock.specs.Wakes.{IsDueAt};
    ghost use Rattle.zoom_clock.specs.Clocks.{IsLeastWake, due_count};
    ghost use Rattle.zoom_clock.specs.declared.signal.Signal.TheVariants as signals;
    ghost use Rattle.zoom_asking.specs.Inquiries.{Reported, Passed, GivenUp, Came, Noted, signal_of, inquiry};
    ghost use Rattle.zoom_asking.specs.Steps.{IsConditionAt};
    ghost use Rattle.zoom_asking.specs.Talks.{IsDriven, IsHeard, IsClosed};
    ghost use Rattle.zoom_asking.specs.Hosts.{AfterChange};
    ghost use Rattle.zoom_asking.specs.Askings.{AskingAfter, IsEntered, KeepsHistories, IsOneTold, IsOneFed, HasTurned, IsTalkedOn, IsSendPut, IsWakeAt, IsOverAt, unsent_at};

    /// Begins to ask, from `now` on: a question and a host for each connection, or `None` if it is not chosen. Of each
    /// host, `Report::Resolved` tells how many addresses it has. `total` is how long all may take, if that has a limit.
    /// Returns `AllocError` if no memory is found.
    pub fn new(
        alloc: Global,
        questions: Seq<Question>,
        settings: MetaSettings,
        hosts: &[Option<AskedHost>],
        manner: Manner,
        total: Option<u64>,
        now: u64,
    ) -> Result<Self, AllocError>
        requires some { length questions < 2 ^ 32 }
        requires askable { AreAskable questions }
        requires fit { AreFit settings }
        requires equal { length hosts.now ≡ length questions }
        ensures after { IfOk result (λ a. AskingAfter (inquiry questions settings hosts.now manner total now) [] a) }
        ensures size { IfOk result (λ a. length a.meta.pool.connections ≡ length questions) }
    {
        let plans = plans_of(alloc, manner, total, hosts)?;
        let meta = Meta::new(alloc, questions, settings)?;
        let clock = Clock::new(alloc, &plans, is_in_order(manner), now)?;
        let unsent = empty_buffers(alloc, hosts.len())?;
        let mut asking = Asking {
            meta,
            clock,
            unsent,
        };
        asking.take_turns(now)?;
        Ok(asking)
    }

    /// What is to be done next, the oldest first. Each action is handed out once. `None` if nothing is to be done. It
    /// takes no memory.
    pub fn next_action(&mut self) -> Option<Action>
        ensures action { self.old.clock.queue.items ≡ option_to_list result ++ self.new.clock.queue.items }
        ensures none { IfNone result (self.old.clock.queue.items ≡ []) }
        ensures after { KeepsHistories self.old self.new }
        ensures meta { self.new.meta ≡ self.old.meta }
        ensures unsent { self.new.unsent ≡ self.old.unsent }
    {
        self.clock.next_action()
    }

    /// Appends the octets that wait to be sent on a connection to `out`, and forgets them. If no memory is found,
    /// nothing changes.
    pub fn outgoing(&mut self, c: u32, out: &mut Vec<u8>) -> Result<(), AllocError>
        requires { c < length self.old.meta.pool.connections }
        ensures gives { OnOk result (out.new.items ≡ out.old.items ++ unsent_at self.old c) }
        ensures none { OnOk result (unsent_at self.new c ≡ []) }
        ensures after { KeepsHistories self.old self.new }
        ensures err { OnErr result (out.new.items ≡ out.old.items) }
        ensures kept { OnErr result (self.new.unsent.items ≡ self.old.unsent.items) }
        ensures meta { self.new.meta ≡ self.old.meta }
        ensures clock { self.new.clock ≡ self.old.clock }
    {
        let unsent = &mut self.unsent[c as usize];
        out.extend_from_slice(unsent)?;
        unsent.clear();
        Ok(())
    }

    /// The first time at which a tick does something. `None` if no limit runs, or no clock of 64 bits gets there. It
    /// takes no memory.
    pub fn wake_at(&self) -> Option<u64>
        ensures { IsWakeAt self.now result }
    {
        self.clock.wake_at()
    }

    /// Whether each connection is over, or was not chosen. It takes no memory.
    pub fn is_over(&self) -> bool
        ensures { IsOverAt self.now result }
    {
        self.clock.is_over()
    }

    /// How many connections there are. It takes no memory.
    pub fn connections(&self) -> usize
        ensures { result ≡ length self.now.meta.pool.connections }
    {
        self.meta.connections()
    }

    /// What is known, and how the connections stand. It takes no memory.
    pub fn meta(&self) -> &Meta
        ensures { result.now ≡ self.now.meta }
    {
        &self.meta
    }

    /// The same, once nothing is asked any more.
    pub fn into_meta(self) -> Meta
        ensures { result ≡ self.meta }
    {
        self.meta
    }

    /// Notes what happened on a connection.
    pub fn report(&mut self, now: u64, c: u32, what: Report) -> Result<(), AllocError>
        requires { c < length self.old.meta.pool.connections }
        ensures after { OnOk result (IsEntered (Reported now c (Noted (signal_of what))) self.old self.new) }
        ensures size { length self.new.meta.pool.connections ≡ length self.old.meta.pool.connections }
    {
        let at = self.time_of(now);
        self.tell(c, at, signal_of(what))?;
        self.take_turns(at)?;
        Ok(())
    }

    /// Octets came on a connection.
    pub fn octets(&mut self, now: u64, c: u32, piece: &[u8]) -> Result<(), AllocError>
        requires { c < length self.old.meta.pool.connections }
        ensures after { OnOk result (IsEntered (Reported now c (Came piece.now)) self.old self.new) }
        ensures size { length self.new.meta.pool.connections ≡ length self.old.meta.pool.connections }
    {
        let at = self.time_of(now);
        self.feed(c, at, piece)?;
        self.take_turns(at)?;
        Ok(())
    }

    /// Nothing happened but that time passed.
    pub fn tick(&mut self, now: u64) -> Result<(), AllocError>
        ensures after { OnOk result (IsEntered (Passed now) self.old self.new) }
        ensures size { length self.new.meta.pool.connections ≡ length self.old.meta.pool.connections }
    {
        let at = self.clock.pass(now);
        while let Some(c) = self.clock.due() {
            self.tell(c, at, Signal::Tick)?;
        }
        self.take_turns(at)?;
        Ok(())
    }

    /// The caller gives up: what is not over stops.
    pub fn give_up(&mut self, now: u64) -> Result<(), AllocError>
        ensures after { OnOk result (IsEntered (GivenUp now) self.old self.new) }
        ensures size { length self.new.meta.pool.connections ≡ length self.old.meta.pool.connections }
    {
        let at = self.clock.pass(now);
        for c in 0..self.connections() {
            self.tell(c as u32, at, Signal::GiveUp)?;
        }
        self.take_turns(at)?;
        Ok(())
    }

    /// The time of a report: not before the time that has passed.
    fn time_of(&self, now: u64) -> u64
        ensures { result ≡ max self.now.clock.passed now }
    {
        let passed = self.clock.passed();
        if passed < now { now } else { passed }
    }

    /// Gives the turn to whom it is due.
    fn take_turns(&mut self, at: u64) -> Result<(), AllocError>
        ensures turned { OnOk result (HasTurned at self.old self.new) }
        ensures passed { OnOk result (self.new.clock.passed ≡ self.old.clock.passed) }
        ensures size { length self.new.meta.pool.connections ≡ length self.old.meta.pool.connections }
    {
        self.clock.take_turns(at)?;
        Ok(())
    }

    /// Tells a connection what happened, and does what that brings.
    fn tell(&mut self, c: u32, at: u64, what: Signal) -> Result<(), AllocError>
        requires { c < length self.old.meta.pool.connections }
        ensures told { OnOk result (IsOneTold c at what self.old self.new) }
        ensures passed { OnOk result (self.new.clock.passed ≡ self.old.clock.passed) }
        ensures size { length self.new.meta.pool.connections ≡ length self.old.meta.pool.connections }
        ensures fewer { OnOk result (what ≡ signals.Tick → IsDueAt self.old.clock.wakes at c
            → due_count at self.new.clock + 1 ≡ due_count at self.old.clock) }
    {
        let before = kind_of(&self.clock.course(c).stage);
        self.clock.note(c, at, what)?;
        let change = change_of(before, &self.clock.course(c).stage);
        self.bring(c, change)?;
        Ok(())
    }

    /// Does what a change brings.
    fn bring(&mut self, c: u32, change: Change) -> Result<(), AllocError>
        requires { c < length self.old.meta.pool.connections }
        ensures talked { OnOk result (IsTalkedOn c (AfterChange change) false self.old self.new) }
        ensures size { length self.new.meta.pool.connections ≡ length self.old.meta.pool.connections }
    {
        match change {
            Change::Same => Ok(()),
            Change::Opened => {
                self.open(c)?;
                Ok(())
            }
            Change::Ended(ending) => {
                self.end(c, ending)?;
                Ok(())
            }
        }
    }

    /// A connection has connected: its first calls are made.
    fn open(&mut self, c: u32) -> Result<(), AllocError>
        requires { c < length self.old.meta.pool.connections }
        ensures talked { OnOk result (IsTalkedOn c IsDriven false self.old self.new) }
        ensures size { length self.new.meta.pool.connections ≡ length self.old.meta.pool.connections }
    {
        let unsent = &mut self.unsent[c as usize];
        let waited = unsent.len();
        drive(&mut self.meta, c, unsent)?;
        let waits = unsent.len();
        self.send_if(c, is_to_send(false, waited, waits))?;
        Ok(())
    }

    /// A connection is over: it is closed.
    fn end(&mut self, c: u32, ending: Ending) -> Result<(), AllocError>
        requires { c < length self.old.meta.pool.connections }
        ensures talked { OnOk result (IsTalkedOn c (IsClosed ending) false self.old self.new) }
        ensures size { length self.new.meta.pool.connections ≡ length self.old.meta.pool.connections }
    {
        close(&mut self.meta, c, ending)?;
        Ok(())
    }

    /// Octets came on a connection that is talked with. Returns how it stands.
    fn hear(&mut self, c: u32, piece: &[u8], lost: bool) -> Result<Condition, AllocError>
        requires { c < length self.old.meta.pool.connections }
        ensures talked { OnOk result (IsTalkedOn c (IsHeard piece.now) lost self.old self.new) }
        ensures condition { IfOk result (λ condition. IsConditionAt c self.new.meta condition) }
        ensures size { length self.new.meta.pool.connections ≡ length self.old.meta.pool.connections }
    {
        let unsent = &mut self.unsent[c as usize];
        let waited = unsent.len();
        hear(&mut self.meta, c, piece, unsent)?;
        let waits = unsent.len();
        self.send_if(c, is_to_send(lost, waited, waits))?;
        Ok(condition(&self.meta, c))
    }

    /// Octets of a connection are to be sent, if any wait.
    fn send_if(&mut self, c: u32, waits: bool) -> Result<(), AllocError>
        ensures put { OnOk result (IsSendPut c waits self.old self.new) }
        ensures meta { self.new.meta ≡ self.old.meta }
        ensures unsent { self.new.unsent ≡ self.old.unsent }
    {
        if waits {
            self.clock.put(c, Task::Send)?;
        }
        Ok(())
    }

    /// Octets came on a connection: if it is talked with, they are heard.
    fn feed(&mut self, c: u32, at: u64, piece: &[u8]) -> Result<(), AllocError>
        requires { c < length self.old.meta.pool.connections }
        ensures fed { OnOk result (IsOneFed c at piece.now self.old self.new) }
        ensures passed { OnOk result (self.new.clock.passed ≡ self.old.clock.passed) }
        ensures size { length self.new.meta.pool.connections ≡ length self.old.meta.pool.connections }
    {
        match lost_of(&self.clock.course(c).stage) {
            None => Ok(()),
            Some(lost) => {
                let condition = self.hear(c, piece, lost)?;
                self.tell(c, at, Signal::Octets(condition))?;
                Ok(())
            }
        }
    }
}

/// Empty buffers, one for each connection.
fn empty_buffers(alloc: Global, count: usize) -> Result<Vec<Vec<u8>>, AllocError>
    ensures { IfOk result (λ v. AreEmpty count v.items) }
{
    let mut buffers = Vec::new(alloc);
    for _k in 0..count {
        buffers.push(Vec::new(alloc))?;
    }
    Ok(buffers)
}

/// Whether octets are to be sent that did not wait before: so many waited, and so many wait.
fn is_to_send(lost: bool, waited: usize, waits: usize) -> bool
    ensures { result ≡ (not lost && nat_lt waited waits) }
{
    !lost && waited < waits
}
