//! What a signal changed.
ghost use Rattle.std.specs.Prelude.{◌≡◌};
ghost use Rattle.zoom_asking.specs.Changes.{kind_of, change_of, lost_of};

use zoom_clock::{Ending, Stage};

/// What kind of stage a connection was at.
#[derive(Clone, Copy, PartialEq, Eq)]
pub(crate) enum Kind {
    /// It has not connected, and is not over.
    Connecting,
    Talking,
    /// It was over, or not chosen.
    Settled,
}

/// What a signal changed.
#[derive(Clone, Copy, PartialEq, Eq)]
pub(crate) enum Change {
    /// Nothing that the connection's calls depend on.
    Same,
    /// The connection has connected.
    Opened,
    /// It is over.
    Ended(Ending),
}

/// The kind of a stage.
pub(crate) fn kind_of(stage: &Stage) -> Kind
    ensures { result ≡ kind_of stage.now }
{
    match stage {
        Stage::Resolving | Stage::Connecting(_) => Kind::Connecting,
        Stage::Talking(_) => Kind::Talking,
        Stage::NotChosen | Stage::Over(_) => Kind::Settled,
    }
}

/// What changed, by the kind of the stage before, and the stage after.
pub(crate) fn change_of(before: Kind, stage: &Stage) -> Change
    ensures { result ≡ change_of before stage.now }
{
    match stage {
        Stage::Talking(_) => match before {
            Kind::Connecting => Change::Opened,
            _ => Change::Same,
        },
        Stage::Over(ending) => match before {
            Kind::Settled => Change::Same,
            _ => Change::Ended(*ending),
        },
        _ => Change::Same,
    }
}

/// Whether a write failed on a connection that is talked with, or `None` if it is not.
pub(crate) fn lost_of(stage: &Stage) -> Option<bool>
    ensures { result ≡ lost_of stage.now }
{
    match stage {
        Stage::Talking(talk) => Some(talk.lost),
        _ => None,
    }
}
