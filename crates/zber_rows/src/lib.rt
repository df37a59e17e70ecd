//! What reads the rows of tables, for the crates of tests: octets, texts and answers; and dice for worlds of no kind in
//! particular.
#![tactic(auto)]

pub mod dice;
pub mod rows;
pub mod unread;
