//! Drives connections over devices: writes what is due, reads octets, and takes messages.
#![tactic(auto)]

mod conversation;
mod outgoing;
mod replies;
mod talk_steps;

pub use conversation::{TalkError, talk};
pub use outgoing::{PushError, push};
pub use replies::{AnswerError, answer};
pub use zoom_devices::{Counting, Failed, Sink, Source};
