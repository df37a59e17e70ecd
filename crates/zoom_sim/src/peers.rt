//! Targets in memory, each at the other end of a connection.
ghost use Rattle.std.specs.Prelude.{◌≡◌, ◌<◌, ◌^◌, ◌-◌, Bool, true, false, not, [], length, OnOk, IfOk};
ghost use Rattle.zoom_pool.specs.Links.{waiting_at};
ghost use Rattle.zoom_questions.specs.NewTargets.{IsNew, AreNew};
ghost use Rattle.zoom_sim.specs.RunSteps.{SilentStep, CarryStep, PeerReleaseStep, IsPeerOf, ArePeersOf};
ghost use Rattle.zoom_sim.specs.RunSound.{PeerStep, PeerRound, PeerEndStep, SoundReleaseStep};
ghost use Rattle.zoom_sim.specs.RunPeers.{CarryAllStep, ReleaseAllStep};
ghost use Rattle.zoom_sim.specs.RunMoves.{is_done, EndIf, IsReleasedAs, AllAreReleased, AfterCarryTo, AfterFeedFrom, AfterCarryFrom, PeerRoundStep, connection_of, AfterMove};

use crate::channels::Channel;
use crate::drives::{end_taken, stop_for, take_all};
use crate::pipes::Pipe;
use std::alloc::{AllocError, Global};
use zoom_laws::laws::{accord_laws, exchange_laws};
use zoom_pool::laws::one_transcript;
use zoom_pool::{Host, Meta, Move};
use zorigin::laws::orderly_logs;
use ztarget::Target;

/// A target in memory at the other end of a connection, with the octets on their way in both directions.
#[derive(Drop)]
pub struct Peer {
    /// The serving end: the target, behind its octets.
    pub host: Host,
    /// Octets that the connection handed out and that were not carried yet.
    pub to: Pipe,
    /// Octets that the serving end handed out and that were not carried yet.
    pub from: Pipe,
}

/// Returns the number of the connection that the move is on.
pub(crate) fn connection_of(step: Move) -> u32
    ensures { result ≡ connection_of step }
{
    match step {
        Move::To { c, .. } => c,
        Move::Release { c, .. } => c,
        Move::From { c, .. } => c,
    }
}

/// Returns how many octets to carry: `k` if the piece arrived, otherwise 0.
fn count_of(came: bool, k: usize) -> usize
    ensures all { came ≡ true → result ≡ k }
    ensures none { came ≡ false → result ≡ 0 }
{
    if came { k } else { 0 }
}

impl Peer {
    /// Makes a peer of a serving end, with no octets on their way. It takes no memory.
    pub fn new(alloc: Global, host: Host) -> Peer
        ensures host { result.host ≡ host }
        ensures to { result.to ≡ [] }
        ensures from { result.from ≡ [] }
    {
        Peer {
            host,
            to: Pipe::new(alloc),
            from: Pipe::new(alloc),
        }
    }

    /// Carries up to `k` octets that wait on connection `c` to the target. Returns whether any arrived.
    fn carry_to<W: Channel>(
        &mut self,
        meta: &mut Meta,
        c: u32,
        channel: &mut W,
        k: usize,
    ) -> Result<bool, AllocError>
        requires { c < length meta.old.pool.connections }
        // over any channel
        ensures carries { OnOk result (CarryStep c meta.old meta.new self.old self.new) }
        // over a sure channel
        ensures steps { W.sure ≡ true
            → OnOk result (PeerStep c true true true meta.old meta.new self.old self.new) }
        ensures all { W.sure ≡ true → k ≡ 2 ^ 64 - 1
            → OnOk result ((self.new.to ≡ []) × (waiting_at meta.new.pool c ≡ [])) }
        // what was carried
        ensures carried { IfOk result (λ any. AfterCarryTo W.carries_to any c k
            channel.old channel.new meta.old meta.new self.old self.new) }
        // in each case
        ensures size { length meta.new.pool.connections ≡ length meta.old.pool.connections }
    {
        exchange_laws();
        one_transcript();
        self.to.take_in_sent(meta, c)?;
        let came = channel.carry_to(c, self.to.next(k));
        let piece = self.to.next(count_of(came, k));
        let n = piece.len();
        self.host.feed(piece)?;
        self.to.pass(n);
        Ok(n > 0)
    }

    /// Carries up to `k` octets that wait at the target to connection `c`. Returns whether any arrived.
    fn feed_from<W: Channel>(
        &mut self,
        meta: &mut Meta,
        c: u32,
        channel: &mut W,
        k: usize,
    ) -> Result<bool, AllocError>
        requires { c < length meta.old.pool.connections }
        // over any channel
        ensures carries { OnOk result (CarryStep c meta.old meta.new self.old self.new) }
        // over a sure channel
        ensures steps { W.sure ≡ true → IfOk result
            (λ carried. PeerStep c true (not carried) (not carried) meta.old meta.new self.old self.new) }
        ensures all { W.sure ≡ true → k ≡ 2 ^ 64 - 1 → OnOk result (CarryAllStep self.old self.new) }
        // what left the target, and what was carried
        ensures none { OnOk result (self.new.host.waiting ≡ []) }
        ensures carried { IfOk result (λ any. AfterFeedFrom W.carries_from any c k
            channel.old channel.new meta.old meta.new self.old self.new) }
        // in each case
        ensures size { length meta.new.pool.connections ≡ length meta.old.pool.connections }
    {
        exchange_laws();
        self.from.take_in_replies(&mut self.host)?;
        let came = channel.carry_from(c, self.from.next(k));
        let piece = self.from.next(count_of(came, k));
        let n = piece.len();
        meta.feed(c, piece)?;
        self.from.pass(n);
        Ok(n > 0)
    }

    /// Ends the input of connection `c` if its target stopped and none of its octets is left to be carried. Each whole
    /// message was taken before.
    fn end_where_stopped(&self, meta: &mut Meta, c: u32) -> Result<(), AllocError>
        requires { c < length meta.old.pool.connections }
        // on success
        ensures silent { OnOk result (SilentStep meta.old meta.new) }
        // if nothing waits at the target
        ensures steps { self.now.host.waiting ≡ []
            → OnOk result (PeerStep c true true true meta.old meta.new self.now self.now) }
        ensures ends { self.now.host.waiting ≡ [] → self.now.from ≡ []
            → OnOk result (PeerEndStep c true meta.old meta.new self.now self.now) }
        // the events of the connection, and the number of connections
        ensures own { OnOk result (EndIf (is_done self.now) c meta.old meta.new) }
        ensures size { length meta.new.pool.connections ≡ length meta.old.pool.connections }
    {
        accord_laws();
        exchange_laws();
        orderly_logs();
        if self.host.stopped() && self.from.is_empty() {
            end_taken(meta, c)?;
        }
        Ok(())
    }

    /// Carries up to `k` octets that wait at the target to connection `c`, which takes each whole message. Returns
    /// whether any arrived. If the channel failed, stops the connection. If the target stopped and none of its octets
    /// is left, ends the connection's input.
    fn carry_from<W: Channel>(
        &mut self,
        meta: &mut Meta,
        c: u32,
        channel: &mut W,
        k: usize,
    ) -> Result<bool, AllocError>
        requires { c < length meta.old.pool.connections }
        // over any channel
        ensures carries { OnOk result (CarryStep c meta.old meta.new self.old self.new) }
        // over a sure channel
        ensures steps { W.sure ≡ true → IfOk result
            (λ carried. PeerStep c true true (not carried) meta.old meta.new self.old self.new) }
        ensures all { W.sure ≡ true → k ≡ 2 ^ 64 - 1 → OnOk result (CarryAllStep self.old self.new) }
        ensures ends { W.sure ≡ true → k ≡ 2 ^ 64 - 1 → IfOk result
            (λ carried. PeerEndStep c (not carried) meta.old meta.new self.old self.new) }
        // what was carried
        ensures carried { IfOk result (λ any. AfterCarryFrom W.carries_from W.fails any c k
            channel.old channel.new meta.old meta.new self.old self.new) }
        // in each case
        ensures size { length meta.new.pool.connections ≡ length meta.old.pool.connections }
    {
        let carried = self.feed_from(meta, c, channel, k)?;
        stop_for(meta, c, channel.failure(c));
        take_all(meta, c)?;
        self.end_where_stopped(meta, c)?;
        Ok(carried)
    }

    /// Releases pending reply `k`. Returns whether there was one to release.
    fn release(&mut self, k: usize) -> Result<bool, AllocError>
        ensures releases { OnOk result (PeerReleaseStep self.old self.new) }
        ensures fine { OnOk result (SoundReleaseStep self.old self.new) }
        ensures released { IfOk result (λ any. IsReleasedAs k any self.old self.new) }
    {
        exchange_laws();
        self.host.release(k)
    }

    /// Releases the first pending reply until none can be released. Returns whether any was released.
    fn release_all(&mut self) -> Result<bool, AllocError>
        ensures releases { OnOk result (PeerReleaseStep self.old self.new) }
        ensures fine { OnOk result (SoundReleaseStep self.old self.new) }
        ensures empties { OnOk result (ReleaseAllStep self.old self.new) }
        ensures all { IfOk result (λ any. AllAreReleased any self.old self.new) }
    {
        exchange_laws();
        let mut released = false;
        for _count in 0..u64::MAX {
            if !self.host.release(0)? {
                return Ok(released);
            }
            released = true;
        }
        Ok(released)
    }

    /// Makes the move on connection `c`. Returns whether anything was carried or released.
    pub(crate) fn make<W: Channel>(
        &mut self,
        meta: &mut Meta,
        c: u32,
        channel: &mut W,
        step: Move,
    ) -> Result<bool, AllocError>
        requires { c < length meta.old.pool.connections }
        ensures carries { OnOk result (CarryStep c meta.old meta.new self.old self.new) }
        ensures steps { W.sure ≡ true
            → OnOk result (PeerStep c true true false meta.old meta.new self.old self.new) }
        ensures moved { IfOk result (λ any. AfterMove W.carries_to W.carries_from W.fails any c step
            channel.old channel.new meta.old meta.new self.old self.new) }
        ensures size { length meta.new.pool.connections ≡ length meta.old.pool.connections }
    {
        match step {
            Move::To { k, .. } => self.carry_to(meta, c, channel, k as usize),
            Move::Release { k, .. } => self.release(k as usize),
            Move::From { k, .. } => self.carry_from(meta, c, channel, k as usize),
        }
    }

    /// Carries all octets to the target, releases all replies in order, and carries all octets to connection `c`.
    ///
    /// Returns whether anything was carried or released, or `AllocError` if no memory is found. The number of
    /// connections is unchanged either way. Requires that connection `c` exists.
    pub fn go_round<W: Channel>(
        &mut self,
        meta: &mut Meta,
        c: u32,
        channel: &mut W,
    ) -> Result<bool, AllocError>
        requires { c < length meta.old.pool.connections }
        ensures carries { OnOk result (CarryStep c meta.old meta.new self.old self.new) }
        ensures rounds { W.sure ≡ true
            → IfOk result (λ moved. PeerRound c moved meta.old meta.new self.old self.new) }
        ensures moved { IfOk result (λ any. PeerRoundStep W.carries_to W.carries_from W.fails any c
            channel.old channel.new meta.old meta.new self.old self.new) }
        ensures size { length meta.new.pool.connections ≡ length meta.old.pool.connections }
    {
        exchange_laws();
        one_transcript();
        let sent = self.carry_to(meta, c, channel, usize::MAX)?;
        let released = self.release_all()?;
        let came = self.carry_from(meta, c, channel, usize::MAX)?;
        Ok(sent | released | came)
    }
}

/// Makes a peer of a target that has received nothing. It takes no memory.
fn peer_of(alloc: Global, target: Target) -> Peer
    requires { IsNew target }
    ensures { IsPeerOf target result }
{
    Peer::new(alloc, Host::new(alloc, target))
}

/// Makes one peer for each target, in order. Each target must have received nothing. Returns `AllocError` if no memory
/// is found.
pub fn peers_of(alloc: Global, targets: Vec<Target>) -> Result<Vec<Peer>, AllocError>
    requires { AreNew targets.items }
    ensures { IfOk result (λ peers. ArePeersOf targets.items peers.items) }
{
    let mut peers = Vec::new(alloc);
    for target in targets {
        peers.push(peer_of(alloc, target))?;
    }
    Ok(peers)
}
