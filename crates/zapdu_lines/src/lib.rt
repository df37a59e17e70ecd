//! The APDUs of Z39.50 as lines of text.
#![tactic(auto)]

mod fields;
mod lines;
mod search;

pub use lines::print_apdu;
