//! Files of catalogues: reads a file in TOML, and makes the world that a search by options asks of its catalogues.
#![tactic(auto)]

mod address;
mod asked_query;
pub mod catalogue;
pub mod charset;
pub mod error;
pub mod fault;
mod key_lines;
mod lines;
pub mod mistakes;
mod operands;
mod own_values;
mod parts;
mod probes;
mod queries;
pub mod reader;
pub mod search;
mod setting_faults;
mod site;
mod sorted_lines;
mod terms;
mod values;
mod words;
pub mod world;

pub use catalogue::{Catalogue, Settings, Terms};
pub use charset::Charset;
pub use error::CatalogueError;
pub use fault::{FaultKind, Key, SettingFault};
pub use mistakes::mistakes_of;
pub use reader::{Catalogues, read_catalogues};
pub use search::{Access, AskError, CatalogueSearch, Term};
