//! The streams and files of commands, and the faults that they report.
#![tactic(auto)]

mod counted;
mod disk;
pub mod explained;
pub mod fault;
pub mod files;
pub mod input;
pub mod output;
pub mod readable;
