//! The APDUs of Z39.50-2003 that this client speaks, with their records and diagnostics: reads them from elements,
//! builds their elements, and prints their texts.
#![tactic(auto)]

mod apdu;
mod copies;
mod decode;
mod encode;
pub mod laws;
mod productions;
mod text;

pub use apdu::{Apdu, ApduError, Kind};
pub use decode::{diag_of, from_element, from_node, record_of};
pub use encode::{diag_node, record_node, to_node};
pub use productions::close::Close;
pub use productions::diagnostic::{DefaultDiag, DiagRec, Info};
pub use productions::element_set_names::{DatabaseElementSet, ElementSetNames};
pub use productions::external::{Content, External};
pub use productions::init_request::InitRequest;
pub use productions::init_response::InitResponse;
pub use productions::present_request::PresentRequest;
pub use productions::present_response::PresentResponse;
pub use productions::range::Range;
pub use productions::record::{Record, RecordBody, Records};
pub use productions::record_composition::RecordComposition;
pub use productions::search_query::SearchQuery;
pub use productions::search_request::SearchRequest;
pub use productions::search_response::SearchResponse;
pub use text::{
    octet_aligned, print_default_diag, print_diag, print_given_record, print_record, put_hex,
    put_node, quote,
};
pub use zasn::BuildError;
