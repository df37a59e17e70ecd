//! The second line of a fault, in words: what is wrong, and what to write.
#![tactic(auto)]

pub mod laws;
mod lines;
mod mistakes;
mod octets;
mod places;
mod queries;
mod ranges;
mod sentences;
mod shown;
mod stops;
mod syntaxes;
mod tokens;

pub use lines::put_line_words;
pub use mistakes::{Mistake, put_words};
pub use stops::{Stopped, put_stop_words};
