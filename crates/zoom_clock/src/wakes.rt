//! When each of many connections is next to be looked at.
ghost use Rattle.std.specs.Prelude.{◌≡◌, ℕ, ◌<◌, IfOk, OnOk, OnErr, length, replicate, slice_get, slice_set};
ghost use Rattle.std.specs.Option.{IfSome, IfNone};
ghost use Rattle.zoom_clock.specs.Wakes.{HasTime, NoneBefore, IsDueAt, IsLeastAt};

use std::alloc::{AllocError, Global};
use std::collections::BTreeSet;
use std::marker::Model;

/// The times at which connections are next to be looked at, in nanoseconds; a connection may have none. The least of
/// them is found, and one changed, in the logarithm of their number.
#[derive(Drop)]
pub struct Wakes {
    /// By connection.
    times: Vec<Option<u64>>,
    /// The same, by time.
    order: BTreeSet<(u64, u32)>,
}

impl Model for Wakes {
    ghost use Rattle.std.specs.Prelude.{ℕ, List, Option};
    ghost use Rattle.zoom_clock.specs.Wakes.{IsInOrder};

    ghost Value = { List (Option ℕ) };

    ghost view = { λ w. w.times.items };

    ghost invariant = { λ w. IsInOrder w.times.items w.order };
}

impl Wakes {
    /// `count` connections, of which none is to be looked at. Returns `AllocError` if no memory is found.
    pub fn new(alloc: Global, count: u32) -> Result<Self, AllocError>
        ensures { IfOk result (λ w. w ≡ replicate count None) }
    {
        Ok(Wakes {
            times: vec![in alloc; None; count as usize]?,
            order: BTreeSet::new(alloc),
        })
    }

    /// Changes the time of a connection. If no memory is found, nothing changes.
    pub fn set(&mut self, c: u32, time: Option<u64>) -> Result<(), AllocError>
        requires { c < length self.old }
        ensures ok { OnOk result (self.new ≡ slice_set self.old c time) }
        ensures err { OnErr result (self.new ≡ self.old) }
    {
        let old = self.times[c as usize];
        if old == time {
            return Ok(());
        }
        if let Some(t) = time {
            self.order.insert((t, c))?;
        }
        if let Some(t) = old {
            self.order.remove(&(t, c));
        }
        self.times[c as usize] = time;
        Ok(())
    }

    /// The least of the times, or `None` if no connection has one. It takes no memory.
    pub fn least(&self) -> Option<u64>
        ensures some { IfSome result (λ t. HasTime self.now t × NoneBefore self.now t) }
        ensures none { IfNone result ((c t : ℕ) → slice_get self.now c ≡ Some (Some t) → ⊥) }
    {
        let &(time, _) = self.order.first()?;
        Some(time)
    }

    /// A connection whose time has come, of those the one with the least time, or `None` if no time has come. It takes
    /// no memory.
    pub fn first_due(&self, now: u64) -> Option<u32>
        ensures some { IfSome result (λ c. IsDueAt self.now now c) }
        ensures least { IfSome result (λ c. IsLeastAt self.now c) }
        ensures none { IfNone result ((c t : ℕ) → slice_get self.now c ≡ Some (Some t) → now < t) }
    {
        let &(time, c) = self.order.first()?;
        if time <= now { Some(c) } else { None }
    }
}

#[cfg(test)]
mod tests {
    use super::*;

    // Times are set, changed and cleared.
    #[test]
    fn finds_the_least(rt: HostRuntime) {
        let mut wakes = Wakes::new(rt.alloc(), 4).expect(&rt, "memory");
        assert_eq!(rt; wakes.least(), None);
        assert_eq!(rt; wakes.first_due(u64::MAX), None);
        wakes.set(2, Some(70)).expect(&rt, "memory");
        wakes.set(0, Some(50)).expect(&rt, "memory");
        wakes.set(3, Some(90)).expect(&rt, "memory");
        assert_eq!(rt; wakes.least(), Some(50));
        assert_eq!(rt; wakes.first_due(49), None);
        assert_eq!(rt; wakes.first_due(50), Some(0));
        wakes.set(0, Some(80)).expect(&rt, "memory");
        assert_eq!(rt; wakes.least(), Some(70));
        assert_eq!(rt; wakes.first_due(100), Some(2));
        wakes.set(2, None).expect(&rt, "memory");
        assert_eq!(rt; wakes.least(), Some(80));
        assert_eq!(rt; wakes.first_due(79), None);
        wakes.set(0, None).expect(&rt, "memory");
        wakes.set(3, None).expect(&rt, "memory");
        assert_eq!(rt; wakes.least(), None);
        assert_eq!(rt; wakes.first_due(u64::MAX), None);
    }
}
