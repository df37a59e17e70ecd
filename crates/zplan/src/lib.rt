//! Which requests are due of one target, and a schedule of them that keeps ranges and no single positions.
#![tactic(auto)]

mod clip;
mod entry;
pub mod laws;
mod part;
mod range;
mod schedule;
mod span;
mod trim;
mod uncut;

pub use range::Range;
pub use schedule::Schedule;
