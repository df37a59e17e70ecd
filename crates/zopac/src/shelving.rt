//! The last elements of a copy: where it stands, notes about it, its volumes, and whether they are available.
ghost use Rattle.std.specs.Prelude.{◌≡◌, [], IfOk};
ghost use Rattle.zasn.specs.Results.{ReadingResult, BuildStepResult};
ghost use Rattle.zopac.specs.Shelvings.{notes, notes_parts, shelving, shelving_parts};

use crate::circulation::Circulation;
use crate::holdings::HoldingsAndCirc;
use crate::volume::Volume;
use bytes::Bytes;
use std::alloc::Global;
use zasn::{BuildError, PartError, Parts, PartsBuf};
use zber::{Seq, Tag};

/// The values of the elements from publicNote on.
#[derive(Drop)]
pub(crate) struct Notes {
    pub public_note: Option<Bytes>,
    pub reproduction_note: Option<Bytes>,
    pub terms_of_use: Option<Bytes>,
    pub enumeration_and_chronology: Option<Bytes>,
    pub volumes: Option<Seq<Volume>>,
    pub circulations: Option<Seq<Circulation>>,
}

/// The values of the elements from nucCode on.
#[derive(Drop)]
pub(crate) struct Shelving {
    pub nuc_code: Option<Bytes>,
    pub local_location: Option<Bytes>,
    pub shelving_location: Option<Bytes>,
    pub call_number: Option<Bytes>,
    pub shelving_data: Option<Bytes>,
    pub copy_number: Option<Bytes>,
    pub notes: Notes,
}

/// Reads the elements from publicNote on, after which there are no more.
#[tactic(auto, unfolding(crate::specs::Shelvings::notes_parts))]
fn read_notes(alloc: Global, parts: &mut Parts<'_>) -> Result<Notes, PartError>
    ensures finds { ReadingResult (notes_parts.at parts.old) result parts.new }
    ensures none { IfOk result (λ _. parts.new ≡ []) }
{
    let public_note = parts.optional(alloc, Tag::context(14))?;
    let reproduction_note = parts.optional(alloc, Tag::context(15))?;
    let terms_of_use = parts.optional(alloc, Tag::context(16))?;
    let enumeration_and_chronology = parts.optional(alloc, Tag::context(17))?;
    let volumes = parts.optional(alloc, Tag::context(18))?;
    let circulations = parts.optional(alloc, Tag::context(19))?;
    parts.end()?;
    Ok(Notes {
        public_note,
        reproduction_note,
        terms_of_use,
        enumeration_and_chronology,
        volumes,
        circulations,
    })
}

/// Adds the elements from publicNote on.
#[tactic(auto, unfolding(crate::specs::Shelvings::notes_parts))]
fn write_notes(alloc: Global, out: &mut PartsBuf, value: &HoldingsAndCirc) -> Result<(), BuildError>
    ensures { BuildStepResult (notes_parts.spelling (notes value.now) out.old) result out.new }
{
    out.optional(alloc, Tag::context(14), &value.public_note)?;
    out.optional(alloc, Tag::context(15), &value.reproduction_note)?;
    out.optional(alloc, Tag::context(16), &value.terms_of_use)?;
    out.optional(alloc, Tag::context(17), &value.enumeration_and_chronology)?;
    out.optional(alloc, Tag::context(18), &value.volumes)?;
    out.optional(alloc, Tag::context(19), &value.circulations)
}

/// Reads the elements from nucCode on, after which there are no more.
#[tactic(auto, unfolding(crate::specs::Shelvings::shelving_parts))]
pub(crate) fn read_shelving(alloc: Global, parts: &mut Parts<'_>) -> Result<Shelving, PartError>
    ensures finds { ReadingResult (shelving_parts.at parts.old) result parts.new }
    ensures none { IfOk result (λ _. parts.new ≡ []) }
{
    let nuc_code = parts.optional(alloc, Tag::context(8))?;
    let local_location = parts.optional(alloc, Tag::context(9))?;
    let shelving_location = parts.optional(alloc, Tag::context(10))?;
    let call_number = parts.optional(alloc, Tag::context(11))?;
    let shelving_data = parts.optional(alloc, Tag::context(12))?;
    let copy_number = parts.optional(alloc, Tag::context(13))?;
    let notes = read_notes(alloc, parts)?;
    Ok(Shelving {
        nuc_code,
        local_location,
        shelving_location,
        call_number,
        shelving_data,
        copy_number,
        notes,
    })
}

/// Adds the elements from nucCode on.
#[tactic(auto, unfolding(crate::specs::Shelvings::shelving_parts))]
pub(crate) fn write_shelving(
    alloc: Global,
    out: &mut PartsBuf,
    value: &HoldingsAndCirc,
) -> Result<(), BuildError>
    ensures { BuildStepResult (shelving_parts.spelling (shelving value.now) out.old) result out.new }
{
    out.optional(alloc, Tag::context(8), &value.nuc_code)?;
    out.optional(alloc, Tag::context(9), &value.local_location)?;
    out.optional(alloc, Tag::context(10), &value.shelving_location)?;
    out.optional(alloc, Tag::context(11), &value.call_number)?;
    out.optional(alloc, Tag::context(12), &value.shelving_data)?;
    out.optional(alloc, Tag::context(13), &value.copy_number)?;
    write_notes(alloc, out, value)
}
