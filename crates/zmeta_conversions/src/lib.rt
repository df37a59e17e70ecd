//! Conversions between world files and files of catalogues: a world of hosts as the text of either.
#![tactic(auto)]

pub mod catalogues;
pub mod laws;
mod strings;
mod tokens;
mod wants;
pub mod worlds;

pub use catalogues::{CatalogueFileError, NoTable, catalogue_file};
pub use worlds::{Unsaid, WorldFileError, world_file};
