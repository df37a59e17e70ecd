//! Builds the elements of APDUs, records and diagnostics.
ghost use Rattle.zasn.specs.Results.{BuildResult, WritingResult};
ghost use Rattle.zapdu.specs.Productions.Records.{WritesRecord, record_spelling};
ghost use Rattle.zapdu.specs.Productions.Diagnostics.{WritesDiag, diag_spelling};
ghost use Rattle.zapdu.specs.Writes.{Writes, apdu_spelling};

use crate::apdu::Apdu;
use crate::productions::diagnostic::DiagRec;
use crate::productions::record::Record;
use std::alloc::Global;
use zasn::{BuildError, Tagged, write_within};
use zber::{Node, Tag};

/// Builds the element of an APDU, with the tag of its kind.
fn write_apdu(alloc: Global, apdu: &Apdu) -> Result<Node, BuildError>
    ensures { BuildResult (apdu_spelling apdu.now) result }
{
    match apdu {
        Apdu::InitRequest(value) => write_within(alloc, value, Tag::context(20)),
        Apdu::InitResponse(value) => write_within(alloc, value, Tag::context(21)),
        Apdu::SearchRequest(value) => write_within(alloc, value, Tag::context(22)),
        Apdu::SearchResponse(value) => write_within(alloc, value, Tag::context(23)),
        Apdu::PresentRequest(value) => write_within(alloc, value, Tag::context(24)),
        Apdu::PresentResponse(value) => write_within(alloc, value, Tag::context(25)),
        Apdu::Close(value) => write_within(alloc, value, Tag::context(48)),
    }
}

/// Builds the element that stands for an APDU (Z39.50-2003, 4.1), with the contents octets of the canonical encoding.
/// TRUE is FF, an INTEGER has as few octets as possible, and unused bits are zero. A part that the APDU keeps as an
/// element is copied unchanged.
///
/// Returns `NotSpellable` if a part that the APDU keeps as an element has no lawful tag or form for its place, and
/// `Memory` if no memory is found.
pub fn to_node(alloc: Global, apdu: &Apdu) -> Result<Node, BuildError>
    ensures exact { BuildResult (apdu_spelling apdu.now) result }
    ensures written { WritingResult (Writes apdu.now) result }
{
    write_apdu(alloc, apdu)
}

/// Builds the element that stands for a value.
fn element_of<T: Tagged>(alloc: Global, value: &T) -> Result<Node, BuildError>
    ensures exact { BuildResult (T.place.spelling value.now) result }
    ensures written { WritingResult (T.place.writes value.now) result }
{
    value.to_element(alloc)
}

/// Builds the element that stands for a record (Z39.50-2003, 4.1: NamePlusRecord). Contents octets and errors are as
/// those of `to_node`.
pub fn record_node(alloc: Global, value: &Record) -> Result<Node, BuildError>
    ensures exact { BuildResult (record_spelling value.now) result }
    ensures written { WritingResult (WritesRecord value.now) result }
{
    element_of(alloc, value)
}

/// Builds the element that stands for a diagnostic (Z39.50-2003, 4.1: DiagRec). Contents octets and errors are as those
/// of `to_node`.
pub fn diag_node(alloc: Global, diag: &DiagRec) -> Result<Node, BuildError>
    ensures exact { BuildResult (diag_spelling diag.now) result }
    ensures written { WritingResult (WritesDiag diag.now) result }
{
    element_of(alloc, diag)
}
