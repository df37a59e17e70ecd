//! Why inputs are not merged to the end.
ghost use Rattle.std.specs.Prelude.{◌≡◌};
ghost use Rattle.zknow_merge.specs.Refusals.{step_of};

use crate::step::Step;
use zknow::LoadError;

/// Why there are sources only for the inputs before one that is refused, or up to it.
#[derive(Clone, Copy, PartialEq, Eq, Drop)]
pub(crate) enum Refusal {
    /// The input behind those of the sources has this fault.
    Fault(LoadError),
    /// The input of the last source has other names than those before it.
    NamesDiffer,
}

/// Returns the step that says why inputs are not merged, if so many inputs have sources.
pub(crate) fn step_of_refusal(refusal: Refusal, count: usize) -> Step
    ensures { result ≡ step_of refusal count }
{
    match refusal {
        Refusal::Fault(fault) => Step::Refused {
            input: count,
            fault,
        },
        Refusal::NamesDiffer => Step::NamesDiffer {
            input: count.saturating_sub(1),
        },
    }
}
