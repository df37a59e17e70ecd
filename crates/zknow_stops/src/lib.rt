//! Why the connection to a catalogue stopped, in words for people.
#![tactic(auto)]

mod detail;
pub mod laws;
mod stop;

pub use detail::Detail;
pub use stop::Stop;
