//! Files of catalogues for the commands: their catalogues as a world that a search asks, and the command `catalogues`.
#![tactic(auto)]

pub mod conversions;
mod lines;
pub mod listing;
mod options;
mod paths;
pub mod refusal;
pub mod unions;

pub use conversions::{catalogues_of_world, world_of_catalogues};
pub use listing::catalogues_named;
pub use paths::is_catalogue_file;
pub use refusal::UnionFault;
pub use unions::{CatalogueWaits, Union, union_at};
