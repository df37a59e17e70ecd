//! The copies of a record of the syntax OPAC, as members of its object.
ghost use Rattle.std.specs.Prelude.{◌≡◌, ◌++◌, codes, unwrap_or, [], OnOk, IfOk, string_bytes};
ghost use Rattle.std.specs.List.{flat_map};
ghost use Rattle.zopac.specs.Opacs.{opac_meaning};
ghost use Rattle.zknow_json.specs.Holdings.{given_member, volume_object, volumes_member, availability_members, item_members, loan_members, circulation_object, circulations_member, leader_members, report_members, code_members, library_members, shelf_members, place_members, note_members, whole_members, copy_members, holding_members, holding_object, holdings_member, opac_of, bibliographic_members, opac_members, members_with, read_members};

use crate::encoding::encode;
use crate::fields::{arcs_of, put_fields};
use crate::line::Line;
use bytes::Bytes;
use std::alloc::{AllocError, Global};
use zapdu::{Content, External, octet_aligned};
use zber::{Node, Oid, Seq};
use zmarc::Charset;
use zopac::{Circulation, Holding, HoldingsAndCirc, OpacRecord, PartError, Volume, read_opac};

/// The syntax of OPAC.
const OPAC: [u32; 6] = [1, 2, 840, 10003, 5, 102];

/// Writes a member with a text that came as octets, if there is one.
#[tactic(auto, unfolding(crate::specs::Holdings::given_member))]
fn put_given(
    alloc: Global,
    name: &str,
    text: &Option<Bytes>,
    line: &mut Line,
) -> Result<(), AllocError>
    ensures { OnOk result (line.new ≡ line.old ++ given_member name.now text.now) }
{
    match text {
        None => Ok(()),
        Some(octets) => {
            let mut octets_name = String::from_str(alloc, name)?;
            octets_name.push_str("Octets")?;
            line.put_received(name, octets_name.as_str(), octets.as_slice())
        }
    }
}

/// Writes a volume.
#[tactic(auto, unfolding(crate::specs::Holdings::volume_object))]
fn put_volume(alloc: Global, volume: &Volume, line: &mut Line) -> Result<(), AllocError>
    ensures { OnOk result (line.new ≡ line.old ++ volume_object volume.now) }
{
    line.begin()?;
    put_given(alloc, "enumeration", &volume.enumeration, line)?;
    put_given(alloc, "chronology", &volume.chronology, line)?;
    let both = &volume.enumeration_and_chronology;
    put_given(alloc, "enumAndChron", both, line)?;
    line.end()
}

/// Writes each volume.
fn put_each_volume(alloc: Global, volumes: &[Volume], line: &mut Line) -> Result<(), AllocError>
    ensures { OnOk result (line.new ≡ line.old ++ flat_map volume_object volumes.now) }
{
    for volume in volumes {
        put_volume(alloc, volume, line)?;
    }
    Ok(())
}

/// Writes the volumes of a copy, if it has this field.
fn put_volumes(
    alloc: Global,
    volumes: &Option<Seq<Volume>>,
    line: &mut Line,
) -> Result<(), AllocError>
    ensures { OnOk result (line.new ≡ line.old ++ volumes_member volumes.now) }
{
    match volumes {
        None => Ok(()),
        Some(volumes) => {
            line.begin_array("volumes")?;
            put_each_volume(alloc, volumes.as_slice(), line)?;
            line.end_array()
        }
    }
}

/// Writes whether an item is available, when, and to whom.
fn put_availability(alloc: Global, item: &Circulation, line: &mut Line) -> Result<(), AllocError>
    ensures { OnOk result (line.new ≡ line.old ++ availability_members item.now) }
{
    line.put_boolean("availableNow", item.available_now)?;
    put_given(alloc, "availabilityDate", &item.availability_date, line)?;
    put_given(alloc, "availableThru", &item.available_through, line)
}

/// Writes who may have an item, and its identifier.
fn put_item(alloc: Global, item: &Circulation, line: &mut Line) -> Result<(), AllocError>
    ensures { OnOk result (line.new ≡ line.old ++ item_members item.now) }
{
    put_given(alloc, "restrictions", &item.restrictions, line)?;
    put_given(alloc, "itemId", &item.item_id, line)
}

/// Writes whether its loan can be renewed, whether it is reserved, which item it is and where it stands.
#[tactic(auto, unfolding(crate::specs::Holdings::loan_members))]
fn put_loan(alloc: Global, item: &Circulation, line: &mut Line) -> Result<(), AllocError>
    ensures { OnOk result (line.new ≡ line.old ++ loan_members item.now) }
{
    line.put_boolean("renewable", item.renewable)?;
    line.put_boolean("onHold", item.on_hold)?;
    put_given(
        alloc,
        "enumAndChron",
        &item.enumeration_and_chronology,
        line,
    )?;
    put_given(alloc, "midspine", &item.midspine, line)?;
    put_given(alloc, "temporaryLocation", &item.temporary_location, line)
}

/// Writes an item.
#[tactic(auto, unfolding(crate::specs::Holdings::circulation_object))]
fn put_circulation(alloc: Global, item: &Circulation, line: &mut Line) -> Result<(), AllocError>
    ensures { OnOk result (line.new ≡ line.old ++ circulation_object item.now) }
{
    line.begin()?;
    put_availability(alloc, item, line)?;
    put_item(alloc, item, line)?;
    put_loan(alloc, item, line)?;
    line.end()
}

/// Writes each item.
fn put_each_circulation(
    alloc: Global,
    items: &[Circulation],
    line: &mut Line,
) -> Result<(), AllocError>
    ensures { OnOk result (line.new ≡ line.old ++ flat_map circulation_object items.now) }
{
    for item in items {
        put_circulation(alloc, item, line)?;
    }
    Ok(())
}

/// Writes the items of a copy, if it has this field.
fn put_circulations(
    alloc: Global,
    items: &Option<Seq<Circulation>>,
    line: &mut Line,
) -> Result<(), AllocError>
    ensures { OnOk result (line.new ≡ line.old ++ circulations_member items.now) }
{
    match items {
        None => Ok(()),
        Some(items) => {
            line.begin_array("circulationData")?;
            put_each_circulation(alloc, items.as_slice(), line)?;
            line.end_array()
        }
    }
}

/// Writes the first codes of MARC 21 for holdings.
fn put_leader(alloc: Global, copy: &HoldingsAndCirc, line: &mut Line) -> Result<(), AllocError>
    ensures { OnOk result (line.new ≡ line.old ++ leader_members copy.now) }
{
    put_given(alloc, "typeOfRecord", &copy.type_of_record, line)?;
    put_given(alloc, "encodingLevel", &copy.encoding_level, line)?;
    put_given(alloc, "format", &copy.format, line)?;
    put_given(alloc, "receiptAcqStatus", &copy.receipt_status, line)
}

/// Writes the other codes.
fn put_report(alloc: Global, copy: &HoldingsAndCirc, line: &mut Line) -> Result<(), AllocError>
    ensures { OnOk result (line.new ≡ line.old ++ report_members copy.now) }
{
    put_given(alloc, "generalRetention", &copy.general_retention, line)?;
    put_given(alloc, "completeness", &copy.completeness, line)?;
    put_given(alloc, "dateOfReport", &copy.date_of_report, line)
}

/// Writes the codes of MARC 21 for holdings.
#[tactic(auto, unfolding(crate::specs::Holdings::code_members))]
fn put_codes(alloc: Global, copy: &HoldingsAndCirc, line: &mut Line) -> Result<(), AllocError>
    ensures { OnOk result (line.new ≡ line.old ++ code_members copy.now) }
{
    put_leader(alloc, copy, line)?;
    put_report(alloc, copy, line)
}

/// Writes the library and the room of a copy.
fn put_library(alloc: Global, copy: &HoldingsAndCirc, line: &mut Line) -> Result<(), AllocError>
    ensures { OnOk result (line.new ≡ line.old ++ library_members copy.now) }
{
    put_given(alloc, "nucCode", &copy.nuc_code, line)?;
    put_given(alloc, "localLocation", &copy.local_location, line)?;
    put_given(alloc, "shelvingLocation", &copy.shelving_location, line)
}

/// Writes the place of a copy on the shelf.
fn put_shelf(alloc: Global, copy: &HoldingsAndCirc, line: &mut Line) -> Result<(), AllocError>
    ensures { OnOk result (line.new ≡ line.old ++ shelf_members copy.now) }
{
    put_given(alloc, "callNumber", &copy.call_number, line)?;
    put_given(alloc, "shelvingData", &copy.shelving_data, line)?;
    put_given(alloc, "copyNumber", &copy.copy_number, line)
}

/// Writes where a copy stands.
#[tactic(auto, unfolding(crate::specs::Holdings::place_members))]
fn put_place(alloc: Global, copy: &HoldingsAndCirc, line: &mut Line) -> Result<(), AllocError>
    ensures { OnOk result (line.new ≡ line.old ++ place_members copy.now) }
{
    put_library(alloc, copy, line)?;
    put_shelf(alloc, copy, line)
}

/// Writes the notes about a copy.
#[tactic(auto, unfolding(crate::specs::Holdings::note_members))]
fn put_notes(alloc: Global, copy: &HoldingsAndCirc, line: &mut Line) -> Result<(), AllocError>
    ensures { OnOk result (line.new ≡ line.old ++ note_members copy.now) }
{
    put_given(alloc, "publicNote", &copy.public_note, line)?;
    put_given(alloc, "reproductionNote", &copy.reproduction_note, line)?;
    put_given(alloc, "termsUseRepro", &copy.terms_of_use, line)?;
    put_given(
        alloc,
        "enumAndChron",
        &copy.enumeration_and_chronology,
        line,
    )
}

/// Writes what is said of a copy as a whole.
#[tactic(auto, unfolding(crate::specs::Holdings::whole_members))]
fn put_whole(alloc: Global, copy: &HoldingsAndCirc, line: &mut Line) -> Result<(), AllocError>
    ensures { OnOk result (line.new ≡ line.old ++ whole_members copy.now) }
{
    put_codes(alloc, copy, line)?;
    put_place(alloc, copy, line)?;
    put_notes(alloc, copy, line)
}

/// Writes the fields of a copy.
#[tactic(auto, unfolding(crate::specs::Holdings::copy_members))]
fn put_copy(alloc: Global, copy: &HoldingsAndCirc, line: &mut Line) -> Result<(), AllocError>
    ensures { OnOk result (line.new ≡ line.old ++ copy_members copy.now) }
{
    put_whole(alloc, copy, line)?;
    put_volumes(alloc, &copy.volumes, line)?;
    put_circulations(alloc, &copy.circulations, line)
}

/// Writes what is said of a copy.
fn put_holding_members(alloc: Global, holding: &Holding, line: &mut Line) -> Result<(), AllocError>
    ensures { OnOk result (line.new ≡ line.old ++ holding_members holding.now) }
{
    match holding {
        Holding::Marc(external) => match octet_aligned(external) {
            Some((_, octets)) => line.put_octets("marcHoldingsRecord", octets.as_slice()),
            None => {
                let octets = encode(alloc, holding)?;
                line.put_octets("encoding", &octets)
            }
        },
        Holding::Copy(copy) => put_copy(alloc, copy, line),
    }
}

/// Writes one of a record's holdings.
#[tactic(auto, unfolding(crate::specs::Holdings::holding_object))]
fn put_holding(alloc: Global, holding: &Holding, line: &mut Line) -> Result<(), AllocError>
    ensures { OnOk result (line.new ≡ line.old ++ holding_object holding.now) }
{
    line.begin()?;
    put_holding_members(alloc, holding, line)?;
    line.end()
}

/// Writes each of a record's holdings.
fn put_each_holding(alloc: Global, holdings: &[Holding], line: &mut Line) -> Result<(), AllocError>
    ensures { OnOk result (line.new ≡ line.old ++ flat_map holding_object holdings.now) }
{
    for holding in holdings {
        put_holding(alloc, holding, line)?;
    }
    Ok(())
}

/// Writes the holdings of a record, if it has this field.
fn put_holdings(
    alloc: Global,
    holdings: &Option<Seq<Holding>>,
    line: &mut Line,
) -> Result<(), AllocError>
    ensures { OnOk result (line.new ≡ line.old ++ holdings_member holdings.now) }
{
    match holdings {
        None => Ok(()),
        Some(holdings) => {
            line.begin_array("holdings")?;
            put_each_holding(alloc, holdings.as_slice(), line)?;
            line.end_array()
        }
    }
}

/// Writes the fields of a bibliographic record, if there is one.
fn put_bibliographic(
    alloc: Global,
    charset: Option<Charset>,
    found: &Option<External>,
    line: &mut Line,
) -> Result<(), AllocError>
    ensures { OnOk result (line.new ≡ line.old ++ bibliographic_members charset found.now) }
{
    match found {
        None => Ok(()),
        Some(external) => put_fields(alloc, charset, external, line),
    }
}

/// Writes the fields of the bibliographic record, then the holdings.
#[tactic(auto, unfolding(crate::specs::Holdings::opac_members))]
fn put_opac(
    alloc: Global,
    charset: Option<Charset>,
    opac: &OpacRecord,
    line: &mut Line,
) -> Result<(), AllocError>
    ensures { OnOk result (line.new ≡ line.old ++ opac_members charset opac.now) }
{
    put_bibliographic(alloc, charset, &opac.bibliographic, line)?;
    put_holdings(alloc, &opac.holdings, line)
}

/// Returns the record with its copies that an element stands for, `None` if it stands for none.
fn read_copies(alloc: Global, element: &Node) -> Result<Option<OpacRecord>, AllocError>
    ensures { IfOk result (λ found. found ≡ opac_meaning element.now) }
{
    match read_opac(alloc, element) {
        Ok(found) => Ok(Some(found)),
        Err(PartError::Misfit) => Ok(None),
        Err(PartError::Memory) => Err(AllocError),
    }
}

/// Returns the record with its copies that a content in a syntax is, `None` if it is none.
fn find_opac(
    alloc: Global,
    direct: &Option<Oid>,
    content: &Content,
) -> Result<Option<OpacRecord>, AllocError>
    ensures { IfOk result (λ found. found ≡ opac_of (unwrap_or direct.now []) content.now) }
{
    match content {
        Content::Single(element) => {
            if arcs_of(direct) == OPAC.as_slice() {
                read_copies(alloc, element)
            } else {
                Ok(None)
            }
        }
        Content::Aligned(_) | Content::Arbitrary(_) => Ok(None),
    }
}

/// Writes what is read in a record with its copies, or in another record its own fields.
fn put_with(
    alloc: Global,
    charset: Option<Charset>,
    external: &External,
    opac: &Option<OpacRecord>,
    line: &mut Line,
) -> Result<(), AllocError>
    ensures { let v = external.now in OnOk result (line.new
        ≡ line.old ++ members_with charset v.direct v.content opac.now) }
{
    match opac {
        None => put_fields(alloc, charset, external, line),
        Some(found) => put_opac(alloc, charset, found, line),
    }
}

/// Writes what is read in a record: its fields, and its holdings where it has them.
#[tactic(auto, unfolding(crate::specs::Holdings::read_members))]
pub(crate) fn put_read(
    alloc: Global,
    charset: Option<Charset>,
    external: &External,
    line: &mut Line,
) -> Result<(), AllocError>
    ensures { OnOk result (line.new ≡ line.old ++ read_members charset external.now.direct external.now.content) }
{
    let opac = find_opac(alloc, &external.direct, &external.content)?;
    put_with(alloc, charset, external, &opac, line)
}
