//! The octets of the known records, one record after the other. Records of ISO 2709 begin with their lengths, so tools
//! for such records can read a file of them.
#![tactic(auto)]

pub mod laws;
mod left_out;
mod one_record;
mod taken;
mod write;

pub use left_out::LeftOut;
pub use write::write_records;
