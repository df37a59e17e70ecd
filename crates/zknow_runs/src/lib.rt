//! Runs of records in saved files: where they stand, and which of them is next by its position.
#![tactic(auto)]

pub mod laws;
mod open_runs;
mod rows;
mod run;

pub use rows::{Chosen, ReadStep, Rows, Taking, Wanted};
pub use run::{Run, RunList};
