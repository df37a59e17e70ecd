// What a state, or the step of a take, reads as in a row.
use std::alloc::{AllocError, Global};
use zoom_pool::{Reason, Step};

fn ready(alloc: Global, v3: bool, concurrent: bool, named: bool) -> Result<String, AllocError> {
    format!(in alloc; "Ready {{ v3: {v3}, concurrent: {concurrent}, named: {named} }}")
}

/// An origin's state.
pub(crate) fn origin_text(alloc: Global, state: &zorigin::State) -> Result<String, AllocError> {
    match state {
        zorigin::State::Fresh => String::from_str(alloc, "Fresh"),
        zorigin::State::Initialising => String::from_str(alloc, "Initialising"),
        zorigin::State::Ready {
            v3,
            concurrent,
            named,
        } => ready(alloc, *v3, *concurrent, *named),
        zorigin::State::Closing => String::from_str(alloc, "Closing"),
        zorigin::State::Closed => String::from_str(alloc, "Closed"),
        zorigin::State::Failed(refused) => format!(in alloc; "Failed({refused:?})"),
    }
}

fn failed_text(alloc: Global, reason: &Reason) -> Result<String, AllocError> {
    match reason {
        Reason::Frame { kind, at } => format!(in alloc;
            "Failed(Frame {{ kind: {kind:?}, at: {at} }})"
        ),
        Reason::Decode(error) => format!(in alloc; "Failed(Decode({error:?}))"),
        Reason::Refused(refused) => format!(in alloc; "Failed(Refused({refused:?}))"),
        other => {
            let name = other.name();
            format!(in alloc; "Failed({name})")
        }
    }
}

/// A connection's state.
pub(crate) fn state_text(alloc: Global, state: &zoom_pool::State) -> Result<String, AllocError> {
    match state {
        zoom_pool::State::Fresh => String::from_str(alloc, "Fresh"),
        zoom_pool::State::Initialising => String::from_str(alloc, "Initialising"),
        zoom_pool::State::Ready {
            v3,
            concurrent,
            named,
        } => ready(alloc, *v3, *concurrent, *named),
        zoom_pool::State::Closing => String::from_str(alloc, "Closing"),
        zoom_pool::State::Closed => String::from_str(alloc, "Closed"),
        zoom_pool::State::Failed(reason) => failed_text(alloc, reason),
    }
}

/// The step of a take.
pub(crate) fn step_word(step: &Step) -> &'static str {
    match step {
        Step::Nothing => "Nothing",
        Step::Opened => "Opened",
        Step::Rejected => "Rejected",
        Step::Answered => "Answered",
        Step::Closed => "Closed",
        Step::Ended => "Ended",
        Step::Stopped => "Stopped",
    }
}
