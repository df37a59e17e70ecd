//! What a take returns.
ghost use Rattle.std.specs.Prelude.{◌≡◌, Some};
ghost use Rattle.zoom_pool.specs.Transcripts.{reason_of, step_of};
ghost use Rattle.zoom_pool.specs.Reasons.{error_name, error_text};

use crate::state::Reason;
use std::error::Error;
use std::fmt;
use zapdu::ApduError;
use zber::FaultKind;
use zorigin::{Refused, Taken};

/// What a take did.
#[derive(Clone, Copy, PartialEq, Eq)]
pub enum Step {
    /// No whole message has come yet.
    Nothing,
    /// The target accepted the association.
    Opened,
    /// The target rejected the association; the connection is Closed.
    Rejected,
    /// The target answered a search or a Present.
    Answered,
    /// The origin took the target's Close; the connection is Closed.
    Closed,
    /// The input has ended, and no octets of it are left. The connection is Closed if it was Closing, and Failed
    /// otherwise.
    Ended,
    /// The connection was Closed or Failed before the take.
    Stopped,
}

/// What a take did, with what the origin took.
#[derive(Drop)]
pub(crate) enum Outcome {
    /// No whole message has come yet.
    Nothing,
    /// The origin took a message.
    Took(Taken),
    /// The input has ended, and no octets of it are left.
    Ended,
    /// The connection was Closed or Failed before the take.
    Stopped,
}

/// Returns the step that a caller sees.
pub(crate) fn step_of(outcome: &Outcome) -> Step
    ensures { result ≡ step_of outcome.now }
{
    match outcome {
        Outcome::Nothing => Step::Nothing,
        Outcome::Took(taken) => match taken {
            Taken::Opened(_) => Step::Opened,
            Taken::Rejected(_) => Step::Rejected,
            Taken::Answered(_) => Step::Answered,
            Taken::Closed => Step::Closed,
        },
        Outcome::Ended => Step::Ended,
        Outcome::Stopped => Step::Stopped,
    }
}

/// Why a take failed. Unless it is `Memory`, the connection has failed for this reason, and what is known stays as
/// it is.
#[derive(Clone, Copy, Debug, PartialEq, Eq)]
pub enum TakeError {
    /// The octets show this fault (X.690, 8.1). `at` is the number of octets from the first of the message at
    /// fault to the faulty header. If the input ended within a message, `at` is the number of that message's
    /// octets.
    Frame { kind: FaultKind, at: usize },
    /// The message is not an APDU (Z39.50-2003, 4.1).
    Decode(ApduError),
    /// The origin did not accept the APDU, for this reason.
    Refused(Refused),
    /// No memory was found. The connection keeps the message; call again. A part of what the message says may be
    /// known.
    Memory,
}

impl TakeError {
    /// Returns the name of the fault, of the decoding error or of the origin's reason, or `Memory`, in ASCII
    /// letters. It takes no memory.
    pub fn name(&self) -> &'static str
        ensures { result.now ≡ error_name self.now }
    {
        match self {
            TakeError::Frame { kind, .. } => kind.name(),
            TakeError::Decode(error) => error.name(),
            TakeError::Refused(reason) => reason.name(),
            TakeError::Memory => "Memory",
        }
    }
}

impl fmt::Display for TakeError {
    ghost output = { λ error. Some (error_text error) };

    fn fmt<W: fmt::Write>(&self, f: &mut fmt::Formatter<W>) -> fmt::Result {
        match self {
            TakeError::Frame { kind, at } => {
                let name = kind.name();
                write!(f, "{name} at {at}")
            }
            TakeError::Decode(_) => write!(f, "not an APDU that is known"),
            TakeError::Refused(_) => write!(f, "not accepted"),
            TakeError::Memory => write!(f, "out of memory"),
        }
    }
}

impl Error for TakeError {}

/// Returns the reason for which the connection fails; `None` for `Memory`.
pub(crate) fn reason_of(error: TakeError) -> Option<Reason>
    ensures { result ≡ reason_of error }
{
    match error {
        TakeError::Frame { kind, at } => Some(Reason::Frame { kind, at }),
        TakeError::Decode(error) => Some(Reason::Decode(error)),
        TakeError::Refused(reason) => Some(Reason::Refused(reason)),
        TakeError::Memory => None,
    }
}
