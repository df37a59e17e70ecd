//! The program's commands over any readers, writers, folders and networks.
#![tactic(auto)]

pub mod ask;
mod begun;
mod catalogue_files;
pub mod choice;
pub mod commands;
mod dialogue;
pub mod doors;
pub mod failures;
pub mod finished;
pub mod laws;
pub mod looped;
mod progress;
pub mod replay;
pub mod run;
pub mod serve;
mod stops;
mod traced;
mod trouble;
mod usage;
mod worlds;
