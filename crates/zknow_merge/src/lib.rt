//! The join of saved files that outgrow memory: the files are read in pieces, and the saved file of all their facts is
//! handed out in pieces.
#![tactic(auto)]

mod canonical;
mod choice;
mod first;
mod front;
mod head;
pub mod laws;
mod merge;
mod names;
mod plain;
mod refusal;
mod scan;
mod source;
mod step;

pub use first::{FirstError, first_fact};
pub use merge::Merge;
pub use scan::{FactKind, FactPlace, Scan, ScanStep};
pub use step::Step;
