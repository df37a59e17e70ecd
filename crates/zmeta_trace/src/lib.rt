//! The trace of a search: what the search was given, what became of it, and its messages for people.
#![tactic(auto)]

mod dialogue;
mod given;
mod head;
pub mod laws;
mod parts;
mod place;
mod replaying;
mod way;

pub use dialogue::{Shown, print_dialogue};
pub use given::given_entries;
pub use head::{Begun, Head, read_head};
pub use replaying::{Replayed, replay};
