//! The time since asking began.

use crate::limits::nanos;
use std::time::{Clock, Instant};

/// A clock that begins at zero.
#[derive(Drop)]
pub(crate) struct Stopwatch<'a, C> {
    clock: &'a C,
    origin: Option<Instant>,
}

impl<'a, C: Clock> Stopwatch<'a, C> {
    /// It begins now.
    pub(crate) fn new(clock: &'a C) -> Stopwatch<'a, C> {
        Stopwatch {
            clock,
            origin: Instant::now(clock).ok(),
        }
    }

    /// The time since it began, in nanoseconds. If the system's clock fails, it is `u64::MAX`, at which all limits are
    /// over.
    pub(crate) fn now(&self) -> u64 {
        match &self.origin {
            Some(origin) => match origin.elapsed(self.clock) {
                Ok(elapsed) => nanos(elapsed),
                Err(_) => u64::MAX,
            },
            None => u64::MAX,
        }
    }
}
