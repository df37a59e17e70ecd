//! What an accepted reply says of the target's result sets, as facts.
#![tactic(auto)]

mod facts;
pub mod laws;

pub use facts::facts_of;
