//! Forms of facts that are written in parts: octets of records, the list, lines of JSON, and the view for readers.
#![tactic(auto)]

mod form;
pub mod laws;
mod tally;

pub use form::Form;
pub use tally::Tally;
