//! What the options of the command line ask: the terms of a search, and the texts that are put to every question.
#![tactic(auto)]

mod asked;
pub mod laws;
mod searches;
mod terms;
mod texts;
mod years;

pub use asked::asked_terms;
pub use searches::{SearchCopy, copy_search};
pub use terms::{Access, SearchTerm};
