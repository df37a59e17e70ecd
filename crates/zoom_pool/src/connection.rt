//! One connection.
ghost use Rattle.std.specs.Prelude.{◌≡◌, true, [], ◌++◌, Some, IfSome, OnOk, OnErr};
ghost use Rattle.zorigin.specs.Log.{IsMadeCall};
ghost use Rattle.zoom_pool.specs.declared.state.State.TheVariants as states;
ghost use Rattle.zoom_pool.specs.CallsOf.{call_of};
ghost use Rattle.zoom_pool.specs.Transcripts.{Transcript, Called, Fed, InputEnded, HandedOut, Stopped, empty_transcript, after_call, after_feed, after_stop, state_at, request_octets};
ghost use Rattle.zoom_pool.specs.Connections.{AreConsistent, ConnectionAfter};
ghost use Rattle.zoom_pool.specs.Steps.{IsLinkCallResult, LinkRecorded};

use crate::call::{Call, sent_for};
use crate::state::{Reason, State, is_stopped, state_as};
use crate::waiting::{append_all, put};
use bytes::Bytes;
use std::alloc::{AllocError, Global};
use std::marker::Model;
use zber::laws::stream_laws;
use zber::{Framer, MESSAGE_LIMIT, Node};
use zorigin::{CallRefused, Origin, Sent, Settings};

/// A connection to one target: its origin, the octets that came, and the octets that wait to go out.
#[derive(Drop)]
pub(crate) struct Connection {
    pub(crate) alloc: Global,
    pub(crate) origin: Origin,
    pub(crate) framer: Framer,
    /// The message of a take that found no memory.
    pub(crate) held: Option<Node>,
    /// The octets that wait to go out; each item is a request.
    pub(crate) waiting: Vec<Bytes>,
    pub(crate) ended: bool,
    /// The state in which it was stopped, if its origin did not stop it.
    pub(crate) stop: Option<State>,
}

impl Model for Connection {
    ghost use Rattle.std.specs.Coded.{codes};
    ghost use Rattle.zber.specs.Coding.{coded_element};
    ghost use Rattle.zoom_pool.specs.Links.{Link};

    ghost Value = { Link };

    ghost coded = { Prim.hlevel (codes, coded_element) };

    ghost use Rattle.zoom_pool.specs.Transcripts.{joined};

    ghost view = { λ c. record {
      origin = c.origin;
      framer = c.framer.stream;
      held = c.held;
      waiting = joined c.waiting.items;
      ended = c.ended;
      stop = c.stop;
    } };
}

impl Connection {
    /// Creates a connection in state Fresh. It takes no memory.
    pub(crate) fn new(alloc: Global, settings: Settings) -> Self
        ensures { ConnectionAfter settings [] (empty_transcript settings) result }
    {
        Connection {
            alloc,
            origin: Origin::new(alloc, settings),
            framer: Framer::new(alloc, MESSAGE_LIMIT),
            held: None,
            waiting: Vec::new(alloc),
            ended: false,
            stop: None,
        }
    }

    /// Returns its state. It takes no memory.
    pub(crate) fn state(&self) -> State
        ensures state { (p : Transcript) → AreConsistent p self.now → result ≡ state_at p }
        ensures stopped { IfSome self.now.stop (λ stopped. result ≡ stopped) }
    {
        match self.stop {
            Some(state) => state,
            None => state_as(self.origin.state()),
        }
    }

    /// Makes a call, and puts its request behind the octets that wait. Room for the request is reserved first, so
    /// that a call is never refused once the origin has admitted it. A refused call changes nothing.
    pub(crate) fn call(&mut self, call: &Call) -> Result<(), CallRefused>
        ensures returned { IsLinkCallResult (call_of call.now) result self.old }
        ensures after { IsMadeCall result
            → LinkRecorded (Called (call_of call.now)) (λ p. after_call p (call_of call.now)) self.old self.new }
        ensures put { OnOk result ((p : Transcript)
            → AreConsistent p self.old → self.new.waiting ≡ self.old.waiting ++ request_octets p (call_of call.now)) }
        ensures err { OnErr result (self.new ≡ self.old) }
    {
        if self.stop.is_some() {
            return Err(CallRefused::WrongState);
        }
        self.waiting.reserve(1)?;
        let sent = sent_for(&mut self.origin, call)?;
        let Sent { apdu, octets } = sent;
        drop(apdu);
        put(&mut self.waiting, octets);
        Ok(())
    }

    /// Takes the next piece of octets. If the connection is stopped or its input has ended, the piece is ignored.
    /// If no memory is found, nothing changes.
    pub(crate) fn feed(&mut self, piece: &[u8]) -> Result<(), AllocError>
        ensures after { OnOk result (LinkRecorded (Fed piece.now) (λ p. after_feed p piece.now) self.old self.new) }
        ensures err { OnErr result (self.new ≡ self.old) }
        ensures waiting { self.new.waiting ≡ self.old.waiting }
    {
        if is_stopped(self.state()) || self.ended {
            return Ok(());
        }
        stream_laws();
        self.framer.feed(piece)
    }

    /// Notes that no more octets come. It takes no memory.
    pub(crate) fn end(&mut self)
        ensures after { LinkRecorded InputEnded (λ p. record p { ended = true }) self.old self.new }
        ensures waiting { self.new.waiting ≡ self.old.waiting }
    {
        self.ended = true;
    }

    /// Makes the connection Failed for the reason. It takes no memory.
    pub(crate) fn stop(&mut self, reason: Reason)
        ensures after { LinkRecorded (Stopped reason) (λ p. after_stop p reason) self.old self.new }
        ensures stop { self.new.stop ≡ Some (states.Failed reason) }
        ensures waiting { self.new.waiting ≡ self.old.waiting }
    {
        self.stop = Some(State::Failed(reason));
    }

    /// Appends the octets that wait to `out`, and forgets them. If no memory is found, the connection and the
    /// content of `out` are unchanged.
    pub(crate) fn outgoing(&mut self, out: &mut Vec<u8>) -> Result<(), AllocError>
        ensures gives { OnOk result (out.new.items ≡ out.old.items ++ self.old.waiting) }
        ensures after { OnOk result (LinkRecorded (HandedOut self.old.waiting) (λ p. p) self.old self.new) }
        ensures all { OnOk result (self.new.waiting ≡ []) }
        ensures err { OnErr result (self.new ≡ self.old) }
        ensures out { OnErr result (out.new.items ≡ out.old.items) }
    {
        append_all(self.waiting.as_slice(), out)?;
        self.waiting.clear();
        Ok(())
    }
}
