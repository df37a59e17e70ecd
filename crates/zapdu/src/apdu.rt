//! An APDU of any kind.
ghost use Rattle.std.specs.Prelude.{◌≡◌};
ghost use Rattle.zapdu.specs.Apdus.{apdu_kind_name, apdu_error_name};

use crate::productions::close::Close;
use crate::productions::init_request::InitRequest;
use crate::productions::init_response::InitResponse;
use crate::productions::present_request::PresentRequest;
use crate::productions::present_response::PresentResponse;
use crate::productions::search_request::SearchRequest;
use crate::productions::search_response::SearchResponse;
use thiserror::Error;

/// An APDU (Z39.50-2003, 4.1).
#[derive(Drop)]
pub enum Apdu {
    /// initRequest `[20]`.
    InitRequest(InitRequest),
    /// initResponse `[21]`.
    InitResponse(InitResponse),
    /// searchRequest `[22]`.
    SearchRequest(SearchRequest),
    /// searchResponse `[23]`.
    SearchResponse(SearchResponse),
    /// presentRequest `[24]`.
    PresentRequest(PresentRequest),
    /// presentResponse `[25]`.
    PresentResponse(PresentResponse),
    /// close `[48]`.
    Close(Close),
}

/// The kind of an APDU.
#[derive(Clone, Copy, Debug, PartialEq, Eq)]
pub enum Kind {
    /// initRequest `[20]`.
    InitRequest,
    /// initResponse `[21]`.
    InitResponse,
    /// searchRequest `[22]`.
    SearchRequest,
    /// searchResponse `[23]`.
    SearchResponse,
    /// presentRequest `[24]`.
    PresentRequest,
    /// presentResponse `[25]`.
    PresentResponse,
    /// close `[48]`.
    Close,
}

impl Kind {
    /// Returns the kind's name in the PDU choice of the standard (Z39.50-2003, 4.1), for example `presentResponse`. It
    /// takes no memory.
    pub fn name(self) -> &'static str
        ensures { result.now ≡ apdu_kind_name self }
    {
        match self {
            Kind::InitRequest => "initRequest",
            Kind::InitResponse => "initResponse",
            Kind::SearchRequest => "searchRequest",
            Kind::SearchResponse => "searchResponse",
            Kind::PresentRequest => "presentRequest",
            Kind::PresentResponse => "presentResponse",
            Kind::Close => "close",
        }
    }
}

/// Why an element is no APDU.
#[derive(Clone, Copy, Debug, PartialEq, Eq, Error)]
pub enum ApduError {
    /// The element is primitive, or has the tag of no APDU.
    #[error("not an APDU")]
    NotApdu,
    /// The element has the tag of an APDU of this kind, but stands for none. `at` is the largest number of its first
    /// elements with which some APDU of this kind begins.
    #[error("{kind:?} malformed at {at}")]
    Malformed { kind: Kind, at: usize },
    /// No memory was found.
    #[error("out of memory")]
    Memory,
}

impl ApduError {
    /// Returns the variant's name, for example `NotApdu`. It takes no memory.
    pub fn name(self) -> &'static str
        ensures { result.now ≡ apdu_error_name self }
    {
        match self {
            ApduError::NotApdu => "NotApdu",
            ApduError::Malformed { .. } => "Malformed",
            ApduError::Memory => "Memory",
        }
    }
}
