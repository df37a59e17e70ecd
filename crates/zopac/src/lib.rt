//! OPAC records (Z39.50-2003, Appendix REC: OPACRecord; record syntax 1.2.840.10003.5.102): a bibliographic record with
//! the copies that a library holds, where they stand, and whether they are available. Reads them from elements, builds
//! their elements, and appends a line for each copy that is safe to print on a terminal.
#![tactic(auto)]

mod circulation;
mod copies;
mod holding;
mod holdings;
mod joined;
pub mod laws;
mod opac;
mod shelving;
mod volume;

pub use circulation::Circulation;
pub use copies::{put_copies, put_holding};
pub use holding::Holding;
pub use holdings::HoldingsAndCirc;
pub use opac::{OpacRecord, opac_node, read_opac};
pub use volume::Volume;
pub use zasn::{BuildError, PartError};
