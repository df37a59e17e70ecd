//! The commands that ask nobody: they read a stream, a query or saved files, and print what these say.
#![tactic(auto)]

mod catalogues;
mod digits;
pub mod join;
mod joined;
pub mod laws;
pub mod merged;
pub mod names;
pub mod new;
mod news;
pub mod pqf;
pub mod records;
mod rows;
pub mod saved;
mod scanned;
pub mod show;
pub mod view;
