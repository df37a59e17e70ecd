//! A connection that is talked with.
ghost use Rattle.std.specs.Prelude.{◌≡◌};
ghost use Rattle.zoom_clock.specs.Stages.{silence_of, silence_end, talk_end, verdict, first_talk, with_piece, is_used_up, less_one, is_leaving};
ghost use Rattle.zoom_clock.specs.Times.{IsTime};

use crate::limits::{Limits, earlier_of, later, total_end};
use crate::signal::{Condition, Ending};

/// How long the Close of the other end is waited for, once a connection has all it wanted, in nanoseconds
/// (Z39.50-2003, 3.2.11).
pub(crate) const CLOSE_PATIENCE: u64 = 2_000_000_000;

/// A connection that is talked with.
#[derive(Clone, Copy, PartialEq, Eq)]
pub struct Talk {
    /// The number of the attempt that connected.
    pub socket: usize,
    /// When its last sign of life came, or when it connected or was first listened to.
    pub heard: u64,
    /// How many more pieces of octets may come, if that has a limit.
    pub left: Option<u32>,
    /// Whether it has all it wanted.
    pub leaving: bool,
    /// Whether a write failed.
    pub lost: bool,
}

impl Talk {
    /// The attempt `socket` has connected.
    pub fn new(limits: &Limits, now: u64, socket: usize) -> Self
        ensures { result ≡ first_talk limits.now now socket }
    {
        Talk {
            socket,
            heard: now,
            left: limits.pieces,
            leaving: false,
            lost: false,
        }
    }

    /// How long it may be silent.
    fn silence(&self, limits: &Limits) -> u64
        ensures { result ≡ silence_of limits.now self.now }
    {
        if self.leaving && CLOSE_PATIENCE < limits.patience {
            CLOSE_PATIENCE
        } else {
            limits.patience
        }
    }

    /// When it is given up. `None` if it is not, or no clock gets there.
    pub fn ends_at(&self, limits: &Limits, start: u64, wanted: bool) -> Option<u64>
        ensures { IsTime (talk_end limits.now start wanted self.now) result }
    {
        earlier_of(
            self.silent_at(limits, wanted),
            total_end(limits.total, start),
        )
    }

    /// When it has been silent for too long. `None` if it is not listened to, or no clock gets there.
    fn silent_at(&self, limits: &Limits, wanted: bool) -> Option<u64>
        ensures { IsTime (silence_end limits.now wanted self.now) result }
    {
        if wanted {
            return later(self.heard, self.silence(limits));
        }
        None
    }

    /// How it ends if it is given up for this reason.
    pub fn verdict(&self, ending: Ending) -> Ending
        ensures { result ≡ verdict self.now ending }
    {
        if self.leaving {
            Ending::InputEnded
        } else if self.lost {
            Ending::Write
        } else {
            ending
        }
    }

    /// Octets came, and this is how the connection stands after them. Returns whether no more may come.
    pub fn hear(&mut self, now: u64, condition: Condition) -> bool
        ensures after { self.new ≡ with_piece now condition self.old }
        ensures used { result ≡ is_used_up self.new.left }
    {
        self.heard = now;
        self.leaving = is_leaving(condition);
        self.left = less_one(self.left);
        match self.left {
            None => false,
            Some(n) => n == 0,
        }
    }
}

/// One piece fewer may come, if that has a limit.
fn less_one(left: Option<u32>) -> Option<u32>
    ensures { result ≡ less_one left }
{
    match left {
        None => None,
        Some(n) => Some(if n == 0 { 0 } else { n - 1 }),
    }
}

/// Whether the connection has all it wanted.
fn is_leaving(condition: Condition) -> bool
    ensures { result ≡ is_leaving condition }
{
    match condition {
        Condition::Leaving => true,
        _ => false,
    }
}
