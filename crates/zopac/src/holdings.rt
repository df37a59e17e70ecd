//! A copy, as the library's own fields tell of it.
ghost use Rattle.zasn.specs.Places.{within};
ghost use Rattle.zopac.specs.Holdings.{holdings_parts};

use crate::circulation::Circulation;
use crate::shelving::{Notes, Shelving, read_shelving, write_shelving};
use crate::volume::Volume;
use bytes::Bytes;
use std::alloc::Global;
use zasn::{
    BuildError, Contents, PartError, Parts, PartsBuf, Production, read_within, write_within,
};
use zber::{Node, Seq, Tag};

/// A copy: where it stands, which volumes it has, and whether they are available (Z39.50-2003, Appendix REC:
/// HoldingsAndCircData). The first seven fields are codes of MARC 21 for holdings.
#[derive(Drop)]
pub struct HoldingsAndCirc {
    /// typeOfRecord: leader, position 6.
    pub type_of_record: Option<Bytes>,
    /// encodingLevel: leader, position 17.
    pub encoding_level: Option<Bytes>,
    /// format: 007, positions 0 and 1.
    pub format: Option<Bytes>,
    /// receiptAcqStatus: 008, position 6.
    pub receipt_status: Option<Bytes>,
    /// generalRetention: 008, position 12.
    pub general_retention: Option<Bytes>,
    /// completeness: 008, position 16.
    pub completeness: Option<Bytes>,
    /// dateOfReport: 008, positions 26 to 31.
    pub date_of_report: Option<Bytes>,
    /// nucCode: the library, by its code in the National Union Catalogue.
    pub nuc_code: Option<Bytes>,
    /// localLocation: the library or its branch.
    pub local_location: Option<Bytes>,
    /// shelvingLocation: the collection or the room.
    pub shelving_location: Option<Bytes>,
    /// callNumber: the call number.
    pub call_number: Option<Bytes>,
    /// shelvingData: what else is said of where it stands.
    pub shelving_data: Option<Bytes>,
    /// copyNumber: which copy it is.
    pub copy_number: Option<Bytes>,
    /// publicNote: a note for readers.
    pub public_note: Option<Bytes>,
    /// reproductionNote: of what it is a reproduction.
    pub reproduction_note: Option<Bytes>,
    /// termsUseRepro: what governs use and reproduction.
    pub terms_of_use: Option<Bytes>,
    /// enumAndChron: which volumes the copy has, by number and date.
    pub enumeration_and_chronology: Option<Bytes>,
    /// volumes: its volumes, each by itself.
    pub volumes: Option<Seq<Volume>>,
    /// circulationData: whether its items are available.
    pub circulations: Option<Seq<Circulation>>,
}

#[tactic(auto, unfolding(crate::specs::Holdings::holdings_parts))]
impl Production for HoldingsAndCirc {
    ghost table = { holdings_parts };

    fn read(alloc: Global, parts: &mut Parts<'_>) -> Result<Self, PartError> {
        let type_of_record = parts.optional(alloc, Tag::context(1))?;
        let encoding_level = parts.optional(alloc, Tag::context(2))?;
        let format = parts.optional(alloc, Tag::context(3))?;
        let receipt_status = parts.optional(alloc, Tag::context(4))?;
        let general_retention = parts.optional(alloc, Tag::context(5))?;
        let completeness = parts.optional(alloc, Tag::context(6))?;
        let date_of_report = parts.optional(alloc, Tag::context(7))?;
        let Shelving {
            nuc_code,
            local_location,
            shelving_location,
            call_number,
            shelving_data,
            copy_number,
            notes,
        } = read_shelving(alloc, parts)?;
        let Notes {
            public_note,
            reproduction_note,
            terms_of_use,
            enumeration_and_chronology,
            volumes,
            circulations,
        } = notes;
        Ok(HoldingsAndCirc {
            type_of_record,
            encoding_level,
            format,
            receipt_status,
            general_retention,
            completeness,
            date_of_report,
            nuc_code,
            local_location,
            shelving_location,
            call_number,
            shelving_data,
            copy_number,
            public_note,
            reproduction_note,
            terms_of_use,
            enumeration_and_chronology,
            volumes,
            circulations,
        })
    }

    fn write(&self, alloc: Global, out: &mut PartsBuf) -> Result<(), BuildError> {
        out.optional(alloc, Tag::context(1), &self.type_of_record)?;
        out.optional(alloc, Tag::context(2), &self.encoding_level)?;
        out.optional(alloc, Tag::context(3), &self.format)?;
        out.optional(alloc, Tag::context(4), &self.receipt_status)?;
        out.optional(alloc, Tag::context(5), &self.general_retention)?;
        out.optional(alloc, Tag::context(6), &self.completeness)?;
        out.optional(alloc, Tag::context(7), &self.date_of_report)?;
        write_shelving(alloc, out, self)
    }
}

impl Contents for HoldingsAndCirc {
    ghost place = { λ tag. within tag holdings_parts };

    fn of_node(alloc: Global, node: &Node) -> Result<Self, PartError> {
        read_within(alloc, node)
    }

    fn to_node(&self, alloc: Global, tag: Tag) -> Result<Node, BuildError> {
        write_within(alloc, self, tag)
    }
}
