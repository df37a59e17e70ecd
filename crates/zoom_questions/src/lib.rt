//! Questions to catalogues, the settings for asking them, and the moves of a world in memory.
#![tactic(auto)]

mod moves;
mod question;

pub use moves::Move;
pub use question::{MetaSettings, Question};
