//! Asks many hosts: whom to try, wait for and give up, and what to send, by what is reported and when. It has no
//! sockets and no clock.
#![tactic(auto)]

mod asking;
mod change;
mod inquiry;
pub mod laws;
mod talk;

pub use asking::Asking;
pub use inquiry::{AskedHost, Manner, Report};
pub use zoom_clock::{Action, Task};
