//! What tests of APDUs and of the crates above have in common: calls with large values in boxes, and lines of parts.
#![tactic(auto)]

pub mod boxes;
pub mod parts;
