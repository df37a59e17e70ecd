//! The states of a connection, and why one failed.
ghost use Rattle.std.specs.Prelude.{◌≡◌};
ghost use Rattle.zoom_pool.specs.States.{state_as, is_stopped, is_closing};
ghost use Rattle.zoom_pool.specs.Reasons.{reason_name};

use zapdu::ApduError;
use zber::FaultKind;
use zorigin::Refused;

/// Why a connection failed.
#[derive(Clone, Copy, PartialEq, Eq)]
pub enum Reason {
    /// Its octets showed this fault (X.690, 8.1), `at` octets after the first of a message. If the input ended
    /// within a message, `at` is the number of that message's octets.
    Frame { kind: FaultKind, at: usize },
    /// A message was not an APDU (Z39.50-2003, 4.1).
    Decode(ApduError),
    /// The origin did not accept an APDU, for this reason.
    Refused(Refused),
    /// Its input ended while it was not Closing.
    Ended,
    /// The caller found no way to the target.
    Connect,
    /// The caller could not read octets.
    Read,
    /// The caller could not write octets. It is not known how many of the octets that were handed out went out.
    Write,
    /// The caller's limit on reads was reached before the connection ended.
    Turns,
    /// The caller found no memory.
    Memory,
}

impl Reason {
    /// Returns the name of the fault, of the decoding error or of the origin's reason, or its own name, in ASCII
    /// letters. It takes no memory.
    pub fn name(&self) -> &'static str
        ensures { result.now ≡ reason_name self.now }
    {
        match self {
            Reason::Frame { kind, .. } => kind.name(),
            Reason::Decode(error) => error.name(),
            Reason::Refused(reason) => reason.name(),
            Reason::Ended => "Ended",
            Reason::Connect => "Connect",
            Reason::Read => "Read",
            Reason::Write => "Write",
            Reason::Turns => "Turns",
            Reason::Memory => "Memory",
        }
    }
}

/// The state of a connection (Z39.50-2003, 3.2 and 3.4).
#[derive(Clone, Copy, PartialEq, Eq)]
pub enum State {
    /// Init was not called.
    Fresh,
    /// Init was called, and its answer has not come.
    Initialising,
    /// The target accepted the association. An option is in force if the origin offered it and the target's answer
    /// has it.
    Ready {
        /// Whether version 3 is in force.
        v3: bool,
        /// Whether concurrent operations are in force.
        concurrent: bool,
        /// Whether named result sets are in force.
        named: bool,
    },
    /// Close was called; outstanding replies are still taken.
    Closing,
    /// The target rejected the association, the origin took its Close, or the input ended after Close was called.
    Closed,
    /// The connection failed for this reason.
    Failed(Reason),
}

/// Returns the connection's state for the origin's.
pub(crate) fn state_as(state: zorigin::State) -> State
    ensures { result ≡ state_as state }
{
    match state {
        zorigin::State::Fresh => State::Fresh,
        zorigin::State::Initialising => State::Initialising,
        zorigin::State::Ready {
            v3,
            concurrent,
            named,
        } => State::Ready {
            v3,
            concurrent,
            named,
        },
        zorigin::State::Closing => State::Closing,
        zorigin::State::Closed => State::Closed,
        zorigin::State::Failed(reason) => State::Failed(Reason::Refused(reason)),
    }
}

/// Whether a connection in this state takes nothing more.
pub(crate) fn is_stopped(state: State) -> bool
    ensures { result ≡ is_stopped state }
{
    matches!(state, State::Closed | State::Failed(_))
}

pub(crate) fn is_closing(state: State) -> bool
    ensures { result ≡ is_closing state }
{
    matches!(state, State::Closing)
}
