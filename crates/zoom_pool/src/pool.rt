//! A pool of connections, and what is known from them.
ghost use Rattle.std.specs.Prelude.{◌≡◌, ◌<◌, [], ◌++◌, length, OnOk, OnErr, IfOk, Some, Err};
ghost use Rattle.zorigin.specs.Log.{IsMadeCall};
ghost use Rattle.zoom_pool.specs.declared.state.State.TheVariants as states;
ghost use Rattle.zoom_pool.specs.CallsOf.{call_of};
ghost use Rattle.zoom_pool.specs.Transcripts.{Called, Fed, InputEnded, HandedOut, Stopped, HasFoundMemory};
ghost use Rattle.zoom_pool.specs.Learned.{AreStillKnown};
ghost use Rattle.zoom_pool.specs.Links.{waiting_at, stop_at, IsStopAt, SameOthers, SameElse};
ghost use Rattle.zoom_pool.specs.History.{After};
ghost use Rattle.zoom_pool.specs.PoolSteps.{Recorded, IsStateAt, IsCallResult, IsRequestPut, IsTakeResult, IsTakeOutcome, TakeStep, IncompleteTake, HasHandedOutAll, IsPoolFinished};

use crate::call::Call;
use crate::connection::Connection;
use crate::laws::one_input;
use crate::state::{Reason, State, is_stopped};
use crate::step::{Outcome, Step, TakeError, step_of};
use bytes::Bytes;
use std::alloc::{AllocError, Global};
use std::marker::Model;
use zber::Duplicate;
use zber::laws::stream_laws;
use zknow::Knowledge;
use zorigin::{CallRefused, Settings};

/// Connections to targets, numbered from 0, and all that their replies say. A connection has the number of its
/// target; each call that has a `c` requires it to be below `connections()`. A pool does no input or output: its
/// caller feeds octets to it, and fetches the octets that are to go out. Takes alone change what is known.
///
/// Contracts hold for each history, the list of the connections' events so far, that can have left the pool. A
/// call that is refused because no memory was found is no event. After takes that found no memory, all calls keep their
/// promises. A part of what the messages of those takes say may then be known too. The next take of such a
/// connection adds the rest, unless the connection was stopped before.
#[derive(Drop)]
pub struct Pool {
    connections: Vec<Connection>,
    knowledge: Knowledge,
}

impl Model for Pool {
    ghost use Rattle.std.specs.Coded.{codes};
    ghost use Rattle.zber.specs.Coding.{coded_element};
    ghost use Rattle.zknow.specs.contracts.fact.Fact as fact;
    ghost use Rattle.zoom_pool.specs.Links.{Links};

    ghost Value = { Links };

    ghost coded = { Prim.hlevel (codes, coded_element, fact.the_row.coded) };

    ghost view = { λ p. record { connections = p.connections.items; knowledge = p.knowledge } };
}

impl Pool {
    /// Creates `n` connections in state Fresh, with nothing known. `name` is the implementationName of each. An
    /// error only if no memory is found.
    pub fn new(alloc: Global, n: u32, name: &Bytes) -> Result<Self, AllocError>
        ensures after { IfOk result (λ pool. After (record { name = name.now }) [] pool) }
        ensures size { IfOk result (λ pool. length pool.connections ≡ n) }
    {
        let mut connections = Vec::new(alloc);
        for _ in 0..n {
            let settings = Settings {
                name: name.duplicate(alloc)?,
            };
            connections.push(Connection::new(alloc, settings))?;
        }
        let knowledge = Knowledge::new(alloc);
        knowledge.lawful();
        Ok(Pool {
            connections,
            knowledge,
        })
    }

    /// Returns the number of connections: their numbers are below it. It takes no memory.
    pub fn connections(&self) -> usize
        ensures { result ≡ length self.now.connections }
    {
        self.connections.len()
    }

    /// Returns the state of a connection. It takes no memory.
    pub fn state(&self, c: u32) -> State
        requires { c < length self.now.connections }
        ensures state { IsStateAt c self.now result }
        ensures stopped { IsStopAt c self.now result }
    {
        self.connections[c as usize].state()
    }

    /// Makes a call on a connection; the request then waits to go out. It is refused as `CallRefused` says, in its
    /// order, and as `WrongState` if the connection is Closed or Failed. A refused call leaves the pool unchanged.
    pub fn call(&mut self, c: u32, call: &Call) -> Result<(), CallRefused>
        requires { c < length self.old.connections }
        // if memory is found
        ensures returned { IsCallResult c (call_of call.now) self.old result }
        ensures after { IsMadeCall result → Recorded c (Called (call_of call.now)) self.old self.new }
        // on success
        ensures put { OnOk result (IsRequestPut c (call_of call.now) self.old self.new) }
        // if it is refused
        ensures err { OnErr result (self.new ≡ self.old) }
        // in each case
        ensures rest { SameElse c self.old self.new }
    {
        self.connections[c as usize].call(call)
    }

    /// Takes the next piece of octets that came on a connection, cut anywhere. If the connection is Closed or
    /// Failed or its input has ended, the piece is ignored. If no memory is found, the pool is unchanged.
    pub fn feed(&mut self, c: u32, piece: &[u8]) -> Result<(), AllocError>
        requires { c < length self.old.connections }
        ensures after { OnOk result (Recorded c (Fed piece.now) self.old self.new) }
        ensures err { OnErr result (self.new ≡ self.old) }
        ensures waiting { waiting_at self.new c ≡ waiting_at self.old c }
        ensures rest { SameElse c self.old self.new }
    {
        stream_laws();
        self.connections[c as usize].feed(piece)
    }

    /// Takes one message of a connection, and adds what it says to what is known. Whatever the result is, what was
    /// known stays known.
    ///
    /// If it is refused as `Frame`, `Decode` or `Refused`, the connection has failed for that reason, and what is
    /// known stays as it is. If it is refused as `Memory`, the connection keeps the message for its next take, and a
    /// part of what the message says may be known. The connection keeps it even if this or other connections are used
    /// before that take. Its next take that finds memory completes the earlier one, unless the connection was stopped
    /// in between: then all that the message says is known.
    pub fn take(&mut self, c: u32) -> Result<Step, TakeError>
        requires { c < length self.old.connections }
        // if memory is found
        ensures returned { IsTakeResult c self.old result }
        ensures after { HasFoundMemory result → TakeStep c self.old self.new }
        // if no memory is found
        ensures memory { result ≡ Err TakeError.Memory → IncompleteTake c self.old self.new }
        // in each case
        ensures grows { AreStillKnown self.old.knowledge self.new.knowledge }
        ensures waiting { waiting_at self.new c ≡ waiting_at self.old c }
        ensures others { SameOthers c self.old self.new }
    {
        match self.take_outcome(c) {
            Ok(outcome) => Ok(step_of(&outcome)),
            Err(error) => Err(error),
        }
    }

    /// Takes one message of a connection, as `take` does, and returns what the origin took.
    pub(crate) fn take_outcome(&mut self, c: u32) -> Result<Outcome, TakeError>
        requires { c < length self.old.connections }
        // if memory is found
        ensures returned { IsTakeOutcome c self.old result }
        ensures after { HasFoundMemory result → TakeStep c self.old self.new }
        // if no memory is found
        ensures memory { result ≡ Err TakeError.Memory → IncompleteTake c self.old self.new }
        // in each case
        ensures grows { AreStillKnown self.old.knowledge self.new.knowledge }
        ensures waiting { waiting_at self.new c ≡ waiting_at self.old c }
        ensures others { SameOthers c self.old self.new }
    {
        one_input();
        let taken = self.connections[c as usize].take(c, &mut self.knowledge);
        self.knowledge.lawful();
        taken
    }

    /// Notes that no more octets come to a connection. Messages that wait can still be taken. After them a take
    /// returns the fault `Truncated` if octets are left, and `Ended` otherwise. It takes no memory.
    pub fn end(&mut self, c: u32)
        requires { c < length self.old.connections }
        ensures after { Recorded c InputEnded self.old self.new }
        ensures waiting { waiting_at self.new c ≡ waiting_at self.old c }
        ensures rest { SameElse c self.old self.new }
    {
        self.connections[c as usize].end();
    }

    /// Makes a connection Failed for a reason of the caller's, whatever its state was. The octets that wait, the
    /// other connections and what is known are unchanged. It takes no memory.
    pub fn stop(&mut self, c: u32, reason: Reason)
        requires { c < length self.old.connections }
        ensures after { Recorded c (Stopped reason) self.old self.new }
        ensures stopped { stop_at self.new c ≡ Some (states.Failed reason) }
        ensures waiting { waiting_at self.new c ≡ waiting_at self.old c }
        ensures rest { SameElse c self.old self.new }
    {
        self.connections[c as usize].stop(reason);
    }

    /// Appends the octets that wait to go out on a connection to `out`, and forgets them. If no memory is found,
    /// the pool and the content of `out` are unchanged.
    pub fn outgoing(&mut self, c: u32, out: &mut Vec<u8>) -> Result<(), AllocError>
        requires { c < length self.old.connections }
        // on success
        ensures gives { OnOk result (out.new.items ≡ out.old.items ++ waiting_at self.old c) }
        ensures after { OnOk result (Recorded c (HandedOut (waiting_at self.old c)) self.old self.new) }
        ensures all { OnOk result (HasHandedOutAll c self.new) }
        ensures none { OnOk result (waiting_at self.new c ≡ []) }
        // if no memory is found
        ensures err { OnErr result (self.new ≡ self.old) }
        ensures out { OnErr result (out.new.items ≡ out.old.items) }
        // in each case
        ensures rest { SameElse c self.old self.new }
    {
        self.connections[c as usize].outgoing(out)
    }

    /// Whether every connection is Closed or Failed. It takes no memory.
    pub(crate) fn is_finished(&self) -> bool
        ensures { IsPoolFinished self.now result }
    {
        for connection in &self.connections {
            if !is_stopped(connection.state()) {
                return false;
            }
        }
        true
    }

    /// Returns what is known: the union of the facts of the accepted replies. It takes no memory.
    pub fn knowledge(&self) -> &Knowledge
        ensures { result.now ≡ self.now.knowledge }
    {
        &self.knowledge
    }
}
