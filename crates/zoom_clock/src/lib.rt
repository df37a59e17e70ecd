//! Whom to wait for and whom to give up, of many connections, by what is told of them and when. It has no sockets and
//! no clock: times are the caller's, in nanoseconds.
#![tactic(auto)]

mod action;
mod attempt;
mod attempts;
mod clock;
mod course;
pub mod laws;
mod limits;
mod plan;
mod signal;
mod stage;
mod talk;
mod turn;
mod wakes;

pub use action::{Action, Task};
pub use attempt::Attempt;
pub use attempts::Attempts;
pub use clock::Clock;
pub use course::Course;
pub use limits::Limits;
pub use plan::Plan;
pub use signal::{Condition, Ending, Signal};
pub use stage::Stage;
pub use talk::Talk;
pub use wakes::Wakes;
