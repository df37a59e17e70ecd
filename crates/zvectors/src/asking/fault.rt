//! What a run shows to be wrong.
use std::alloc::{AllocError, AllocFailed};

/// What went wrong in a run.
#[derive(Clone, Copy)]
pub enum Fault {
    /// There was no memory, or an index was out of range.
    Unread,
    /// An action of this connection may not come when it came.
    Action(u32),
    /// What should change nothing did.
    Moved,
    /// It is not over, and neither waits for an event nor for a time.
    Stuck,
    /// It is not over when the total is.
    Late,
    /// A tick left something due.
    Due,
    /// It takes too many steps.
    Endless,
    /// A socket of this connection was not left.
    Unleft(u32),
    /// This connection did not end as its host deserves.
    End(u32),
    /// What is known of this connection is not what its host has.
    Known(u32),
}

impl Fault {
    /// What a failing test shows: what went wrong, and the connection, or 0.
    pub fn shown(self) -> (&'static str, u32) {
        match self {
            Fault::Unread => ("Unread", 0),
            Fault::Action(c) => ("Action", c),
            Fault::Moved => ("Moved", 0),
            Fault::Stuck => ("Stuck", 0),
            Fault::Late => ("Late", 0),
            Fault::Due => ("Due", 0),
            Fault::Endless => ("Endless", 0),
            Fault::Unleft(c) => ("Unleft", c),
            Fault::End(c) => ("End", c),
            Fault::Known(c) => ("Known", c),
        }
    }
}

impl From<AllocError> for Fault {
    fn from(_error: AllocError) -> Fault {
        Fault::Unread
    }
}

impl<T: Drop> From<AllocFailed<T>> for Fault {
    fn from(_error: AllocFailed<T>) -> Fault {
        Fault::Unread
    }
}
