//! Octets on their way from one end to the other.
ghost use Rattle.std.specs.Prelude.{◌≡◌, ◌≤◌, ◌<◌, ◌^◌, ◌-◌, ◌++◌, ◌==◌, [], length, take, drop, OnOk};
ghost use Rattle.zoom_pool.specs.Transcripts.{HandedOut};
ghost use Rattle.zoom_pool.specs.Hosts.{HostHandedOut, HostRecorded};
ghost use Rattle.zoom_pool.specs.Links.{waiting_at};
ghost use Rattle.zoom_pool.specs.Metas.{MetaRecorded};

use std::alloc::{AllocError, Global};
use std::marker::Model;
use zoom_pool::{Host, Meta};

/// Octets on their way in one direction, in order. No octet is copied when a piece is passed.
///
/// In contracts, a pipe is the list of the octets that wait.
#[derive(Drop)]
pub struct Pipe {
    octets: Vec<u8>,
    /// How many of the octets were carried, from the front.
    carried: usize,
}

impl Model for Pipe {
    ghost use Rattle.std.specs.Prelude.{◌≤◌, ℕ, List, length, drop};

    ghost Value = { List ℕ };

    ghost view = { λ p. drop p.carried p.octets.items };

    ghost invariant = { λ p. p.carried ≤ length p.octets.items };
}

impl Pipe {
    /// Makes a pipe in which no octets wait. It takes no memory.
    pub(crate) fn new(alloc: Global) -> Pipe
        ensures { result ≡ [] }
    {
        Pipe {
            octets: Vec::new(alloc),
            carried: 0,
        }
    }

    /// Returns whether no octets wait.
    pub(crate) fn is_empty(&self) -> bool
        ensures { result ≡ (length self.now == 0) }
    {
        self.carried == self.octets.len()
    }

    /// Returns the next `k` octets that wait, or all of them if there are fewer.
    pub(crate) fn next(&self, k: usize) -> &[u8]
        ensures front { result.now ≡ take k self.now }
        ensures whole { k ≡ 2 ^ 64 - 1 → result.now ≡ self.now }
    {
        let waiting = &self.octets[self.carried..];
        if k < waiting.len() {
            &waiting[..k]
        } else {
            waiting
        }
    }

    /// Removes the first `n` octets that wait: they were carried.
    pub(crate) fn pass(&mut self, n: usize)
        requires { n ≤ length self.old }
        ensures { self.new ≡ drop n self.old }
    {
        self.carried += n;
    }

    /// If no octets wait, clears the buffer; the octets that wait are unchanged.
    fn tidy(&mut self)
        ensures { self.new ≡ self.old }
    {
        if self.is_empty() {
            self.octets.clear();
            self.carried = 0;
        }
    }

    /// Appends the octets that wait to go out on connection `c`; none wait there afterwards.
    pub(crate) fn take_in_sent(&mut self, meta: &mut Meta, c: u32) -> Result<(), AllocError>
        requires { c < length meta.old.pool.connections }
        ensures pipe { OnOk result (self.new ≡ self.old ++ waiting_at meta.old.pool c) }
        ensures after { OnOk result (MetaRecorded c (HandedOut (waiting_at meta.old.pool c)) meta.old meta.new) }
        ensures none { OnOk result (waiting_at meta.new.pool c ≡ []) }
        ensures size { length meta.new.pool.connections ≡ length meta.old.pool.connections }
    {
        self.tidy();
        meta.outgoing(c, &mut self.octets)
    }

    /// Appends the octets that wait to go out at the serving end; none wait there afterwards.
    pub(crate) fn take_in_replies(&mut self, host: &mut Host) -> Result<(), AllocError>
        ensures pipe { OnOk result (self.new ≡ self.old ++ host.old.waiting) }
        ensures after { OnOk result (HostRecorded (HostHandedOut host.old.waiting) host.old host.new) }
        ensures none { OnOk result (host.new.waiting ≡ []) }
    {
        self.tidy();
        host.outgoing(&mut self.octets)
    }
}
