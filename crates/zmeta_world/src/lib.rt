//! World files: reads a file into a `World`, and plans an in-memory or a network run of it.
#![tactic(auto)]

pub mod in_memory;
pub mod laws;
pub mod network;
mod parts;
pub mod search;
pub mod world;
