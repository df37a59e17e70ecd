//! What is told of a connection, and how one ends.

/// What is told of a connection, at a time.
#[derive(Clone, Copy, PartialEq, Eq)]
pub enum Signal {
    /// The name of the host was resolved to this many addresses. With none it cannot be reached.
    Resolved(usize),
    /// The attempt of this number to connect succeeded.
    Connected(usize),
    /// The attempt of this number to connect failed.
    Unreachable(usize),
    /// The system had no socket left for the attempt of this number. It is made again, before any other.
    NoSocket(usize),
    /// Octets came, and were processed.
    Octets(Condition),
    /// The host took octets.
    Taken,
    /// No more octets come.
    End,
    /// A read failed.
    Unreadable,
    /// A write failed.
    Unwritable,
    /// Its turn has come: from now on octets of it are wanted.
    Turn,
    /// It is to be over, whatever it is.
    GiveUp,
    /// Nothing but the time.
    Tick,
}

/// How a connection stands after octets that came.
#[derive(Clone, Copy, PartialEq, Eq)]
pub enum Condition {
    /// It goes on.
    Going,
    /// It has all it wanted, and waits only for the other end to close.
    Leaving,
    /// Its messages have ended it.
    Finished,
}

/// How a connection has ended.
#[derive(Clone, Copy, PartialEq, Eq)]
pub enum Ending {
    /// It could not be reached, or not in time, or its name was not resolved in time.
    Connect,
    /// A read failed, or it was silent for too long, or the total was over.
    Read,
    /// A write failed.
    Write,
    /// It was given up by its caller, or too many pieces came.
    Turns,
    /// No more octets come, or none are waited for, since it has all it wanted.
    InputEnded,
    /// Its messages have ended it.
    Finished,
}
