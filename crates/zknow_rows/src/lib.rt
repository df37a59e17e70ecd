//! What is known as text, for the tests of it and of the crates above.
#![tactic(auto)]

pub mod shown;
