//! The moves of a world in memory.

/// One step of a world in memory. `c` is the number of a connection and of its target.
#[derive(Clone, Copy, PartialEq, Eq)]
pub enum Move {
    /// Carries up to `k` of the octets that wait on the connection to its target.
    To { c: u32, k: u32 },
    /// The target releases pending reply `k`, whose octets then wait at the target.
    Release { c: u32, k: u32 },
    /// Carries up to `k` of the octets that wait at the target to its connection, which takes each whole message.
    From { c: u32, k: u32 },
}
