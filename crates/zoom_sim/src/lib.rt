//! Runs connections against targets in memory: moves first, then rounds, until each connection is finished.
#![tactic(auto)]

pub mod channels;
pub mod drives;
pub mod laws;
pub mod peers;
pub mod pipes;
pub mod rounds;
mod run;

pub use run::{run_over, run_world};
