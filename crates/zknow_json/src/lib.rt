//! What is known as lines of JSON, for programs: an object for each line of the list, and for each catalogue that
//! stopped; and the changes between two saved files, an object for each.
#![tactic(auto)]

mod changes;
mod encoding;
mod fields;
mod holdings;
pub mod laws;
mod line;
mod lines;
mod records;
mod sets;
mod stops;

pub use changes::print_change_lines;
pub use lines::print_json;
