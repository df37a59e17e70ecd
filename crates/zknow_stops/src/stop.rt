//! Why a connection stopped.
use crate::detail::Detail;

/// Why the connection to a catalogue stopped before its work was done.
#[derive(Clone, Copy, PartialEq, Eq)]
pub struct Stop {
    /// The name of the reason, as programs read it: `Connect`, `Read`, `Ended`, or the name of a fault.
    pub reason: &'static str,
    /// What can be told of it to people.
    pub detail: Detail,
}
