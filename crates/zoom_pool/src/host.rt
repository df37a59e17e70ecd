//! The serving end: a target in memory behind a stream of octets.
ghost use Rattle.std.specs.Prelude.{◌≡◌, ◌++◌, ◌&&◌, ◌||◌, not, [], true, OnOk, OnErr};
ghost use Rattle.ztarget.specs.Receiving.{is_close};
ghost use Rattle.ztarget.specs.Levels.{HasElement};
ghost use Rattle.zoom_questions.specs.NewTargets.{IsNew};
ghost use Rattle.zoom_pool.specs.Hosts.{HostFed, HostFedPart, HostHandedOut, holdings_of, HostAfter, HostRecorded, ReleaseResult};
ghost use Rattle.zoom_pool.specs.HostSteps.{EncodeReplyResult, PutReplyResult, ReceivePieceResult, is_not_put};

use crate::receiving::receive_all;
use crate::waiting::{append_all, put};
use bytes::Bytes;
use std::alloc::{AllocError, Global};
use std::marker::Model;
use zapdu::{Apdu, BuildError, to_node};
use zber::{EncodeError, Framer, MESSAGE_LIMIT};
use ztarget::Target;

/// Returns the octets of a reply, or `None` if they are more than a message may have.
fn encode_reply(alloc: Global, reply: &Apdu) -> Result<Option<Bytes>, AllocError>
    requires { HasElement reply.now }
    ensures { EncodeReplyResult reply.now result }
{
    let node = match to_node(alloc, reply) {
        Ok(node) => node,
        Err(error) => match error {
            BuildError::NotSpellable => unreachable!(),
            BuildError::Memory => return Err(AllocError),
        },
    };
    let mut octets = Vec::new(alloc);
    match node.encode(alloc, MESSAGE_LIMIT, &mut octets) {
        Ok(()) => Ok(Some(Bytes::from_vec(octets)?)),
        Err(error) => match error {
            EncodeError::TooLong => Ok(None),
            EncodeError::TooDeep => unreachable!(),
            EncodeError::Memory => Err(AllocError),
        },
    }
}

/// Puts the octets of a reply last, and returns `true`; returns `false` if they are more than a message may have.
fn put_reply(alloc: Global, waiting: &mut Vec<Bytes>, reply: &Apdu) -> Result<bool, AllocError>
    requires { HasElement reply.now }
    ensures { PutReplyResult reply.now result waiting.old.items waiting.new.items }
{
    waiting.reserve(1)?;
    match encode_reply(alloc, reply)? {
        Some(octets) => {
            put(waiting, octets);
            Ok(true)
        }
        None => Ok(false),
    }
}

/// Whether the reply was not put.
fn is_not_put(put: &Result<bool, AllocError>) -> bool
    ensures { result ≡ is_not_put put.now }
{
    match put {
        Ok(put) => !*put,
        Err(_) => true,
    }
}

/// Whether a Close was put, after the attempt to put this reply.
fn has_closed(closed: bool, unput: bool, reply: &Apdu) -> bool
    ensures { result ≡ (closed || (not unput && is_close reply.now)) }
{
    match reply {
        Apdu::Close(_) => closed || !unput,
        _ => closed,
    }
}

/// The serving end: a target in memory behind a stream of octets. The target receives the messages of the octets
/// that are fed. The encodings of the replies that it is asked to release wait to go out (Z39.50-2003, 3.2). It
/// does no input or output itself.
///
/// Three things stop it:
/// - octets with a fault of the framing (X.690, 8.1), for messages of at most 2,097,152 octets;
/// - a message that is not an APDU, or an APDU that the target does not take;
/// - no memory in `feed` or `release`, or a released reply of more octets than a message may have. That reply is
///   lost.
///
/// Once stopped, it ignores what is fed and releases nothing. The octets that wait are still handed out.
///
/// Contracts hold for each history, the list of its events so far, that can have left it.
#[derive(Drop)]
pub struct Host {
    alloc: Global,
    target: Target,
    framer: Framer,
    /// The octets that wait to go out; each item is a reply.
    waiting: Vec<Bytes>,
    stopped: bool,
    /// Whether a Close was put to go out.
    closed: bool,
}

impl Model for Host {
    ghost use Rattle.std.specs.Coded.{codes};
    ghost use Rattle.zber.specs.Coding.{coded_element};
    ghost use Rattle.zquery.specs.Coding.{coded_query};
    ghost use Rattle.zoom_pool.specs.Hosts.{HostState};

    ghost Value = { HostState };

    ghost coded = { Prim.hlevel (codes, coded_element, coded_query) };

    ghost use Rattle.zoom_pool.specs.Transcripts.{joined};

    ghost view = { λ h. record {
      target = h.target;
      framer = h.framer.stream;
      waiting = joined h.waiting.items;
      stopped = h.stopped;
      closed = h.closed;
    } };
}

impl Host {
    /// Creates the serving end of a target that has received nothing. It takes no memory.
    pub fn new(alloc: Global, target: Target) -> Self
        requires { IsNew target }
        ensures after { HostAfter (holdings_of target) [] result }
    {
        Host {
            alloc,
            target,
            framer: Framer::new(alloc, MESSAGE_LIMIT),
            waiting: Vec::new(alloc),
            stopped: false,
            closed: false,
        }
    }

    /// Whether it has stopped. It takes no memory.
    pub fn stopped(&self) -> bool
        ensures { result ≡ self.now.stopped }
    {
        self.stopped
    }

    /// Whether its Close was put to go out (Z39.50-2003, 3.2.11.1). It takes no memory.
    pub fn closed(&self) -> bool
        ensures { result ≡ self.now.closed }
    {
        self.closed
    }

    /// Takes the next piece of octets, cut anywhere. The target receives all messages that are now whole, up to
    /// one that stops the serving end. The replies that it owes become pending, in their order. Once stopped, the
    /// serving end ignores the piece.
    ///
    /// An error only if no memory is found: the serving end has then stopped, and its target has received some of
    /// the messages. The octets that wait to go out are unchanged in each case.
    pub fn feed(&mut self, piece: &[u8]) -> Result<(), AllocError>
        ensures fed { OnOk result (HostRecorded (HostFed piece.now) self.old self.new) }
        ensures part { OnErr result (HostRecorded (HostFedPart piece.now) self.old self.new) }
        ensures err { OnErr result (self.new.stopped ≡ true) }
        ensures waiting { self.new.waiting ≡ self.old.waiting }
    {
        if self.stopped {
            return Ok(());
        }
        match self.receive(piece) {
            Ok(stopped) => {
                self.stopped = stopped;
                Ok(())
            }
            Err(error) => {
                self.stopped = true;
                Err(error)
            }
        }
    }

    /// Feeds the framer, and receives what is whole. Returns whether something stops the serving end.
    fn receive(&mut self, piece: &[u8]) -> Result<bool, AllocError>
        ensures { ReceivePieceResult piece.now result self.old self.new }
    {
        self.framer.feed(piece)?;
        receive_all(self.alloc, &mut self.framer, &mut self.target)
    }

    /// Releases pending reply `k`, the first being 0, and puts its encoding behind the octets that wait to go out.
    /// Returns `true` if it did so.
    ///
    /// Returns `false` and changes nothing if there is no such reply, if it is a Close and others are pending
    /// (Z39.50-2003, 3.2.11.1), or if the serving end has stopped. Returns `false` also if the reply has more
    /// octets than a message may have: the serving end has then stopped, and the reply is lost.
    ///
    /// An error only if no memory is found: the serving end has then stopped, and the reply is lost.
    pub fn release(&mut self, k: usize) -> Result<bool, AllocError>
        ensures releases { ReleaseResult k result self.old self.new }
    {
        if self.stopped {
            return Ok(false);
        }
        let Some(reply) = self.target.release(k) else {
            return Ok(false);
        };
        let put = put_reply(self.alloc, &mut self.waiting, &reply);
        self.stopped = is_not_put(&put);
        self.closed = has_closed(self.closed, self.stopped, &reply);
        drop(reply);
        put
    }

    /// Appends the octets that wait to go out to `out`, and forgets them. If no memory is found, the serving end
    /// and the content of `out` are unchanged.
    pub fn outgoing(&mut self, out: &mut Vec<u8>) -> Result<(), AllocError>
        ensures gives { OnOk result (out.new.items ≡ out.old.items ++ self.old.waiting) }
        ensures after { OnOk result (HostRecorded (HostHandedOut self.old.waiting) self.old self.new) }
        ensures all { OnOk result (self.new.waiting ≡ []) }
        ensures err { OnErr result (self.new ≡ self.old) }
        ensures out { OnErr result (out.new.items ≡ out.old.items) }
    {
        append_all(self.waiting.as_slice(), out)?;
        self.waiting.clear();
        Ok(())
    }
}
