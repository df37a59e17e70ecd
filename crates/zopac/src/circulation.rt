//! Whether an item is available.
ghost use Rattle.std.specs.Prelude.{◌≡◌, [], IfOk};
ghost use Rattle.zasn.specs.Results.{ReadingResult, BuildStepResult};
ghost use Rattle.zopac.specs.Circulations.{circulation_parts, loan, loan_parts, whole_circulation};

use bytes::Bytes;
use std::alloc::Global;
use zasn::{BuildError, PartError, Parts, PartsBuf, Production, Tagged, read_within, write_within};
use zber::{Node, Tag};

/// Whether an item of a copy is available (Z39.50-2003, Appendix REC: CircRecord).
#[derive(Drop)]
pub struct Circulation {
    /// availableNow: whether the item is available now.
    pub available_now: bool,
    /// availablityDate (so spelled in the standard): when it will be available.
    pub availability_date: Option<Bytes>,
    /// availableThru: by whom it is lent.
    pub available_through: Option<Bytes>,
    /// restrictions: who may have it.
    pub restrictions: Option<Bytes>,
    /// itemId: the item's identifier, for example a bar code.
    pub item_id: Option<Bytes>,
    /// renewable: whether a loan of it can be renewed.
    pub renewable: bool,
    /// onHold: whether somebody has reserved it.
    pub on_hold: bool,
    /// enumAndChron: which item it is, by number and date.
    pub enumeration_and_chronology: Option<Bytes>,
    /// midspine: what stands on its spine.
    pub midspine: Option<Bytes>,
    /// temporaryLocation: where it stands for the time being.
    pub temporary_location: Option<Bytes>,
}

/// The values of the last elements.
#[derive(Drop)]
pub(crate) struct Loan {
    pub renewable: bool,
    pub on_hold: bool,
    pub enumeration_and_chronology: Option<Bytes>,
    pub midspine: Option<Bytes>,
    pub temporary_location: Option<Bytes>,
}

/// Reads the last elements, after which there are no more.
#[tactic(auto, unfolding(crate::specs::Circulations::loan_parts))]
fn read_loan(alloc: Global, parts: &mut Parts<'_>) -> Result<Loan, PartError>
    ensures finds { ReadingResult (loan_parts.at parts.old) result parts.new }
    ensures none { IfOk result (λ _. parts.new ≡ []) }
{
    let renewable = parts.required(alloc, Tag::context(6))?;
    let on_hold = parts.required(alloc, Tag::context(7))?;
    let enumeration_and_chronology = parts.optional(alloc, Tag::context(8))?;
    let midspine = parts.optional(alloc, Tag::context(9))?;
    let temporary_location = parts.optional(alloc, Tag::context(10))?;
    parts.end()?;
    Ok(Loan {
        renewable,
        on_hold,
        enumeration_and_chronology,
        midspine,
        temporary_location,
    })
}

/// Adds the last elements.
#[tactic(auto, unfolding(crate::specs::Circulations::loan_parts))]
fn write_loan(alloc: Global, out: &mut PartsBuf, value: &Circulation) -> Result<(), BuildError>
    ensures { BuildStepResult (loan_parts.spelling (loan value.now) out.old) result out.new }
{
    out.required(alloc, Tag::context(6), &value.renewable)?;
    out.required(alloc, Tag::context(7), &value.on_hold)?;
    out.optional(alloc, Tag::context(8), &value.enumeration_and_chronology)?;
    out.optional(alloc, Tag::context(9), &value.midspine)?;
    out.optional(alloc, Tag::context(10), &value.temporary_location)
}

#[tactic(auto, unfolding(crate::specs::Circulations::circulation_parts))]
impl Production for Circulation {
    ghost table = { circulation_parts };

    fn read(alloc: Global, parts: &mut Parts<'_>) -> Result<Self, PartError> {
        let available_now = parts.required(alloc, Tag::context(1))?;
        let availability_date = parts.optional(alloc, Tag::context(2))?;
        let available_through = parts.optional(alloc, Tag::context(3))?;
        let restrictions = parts.optional(alloc, Tag::context(4))?;
        let item_id = parts.optional(alloc, Tag::context(5))?;
        let Loan {
            renewable,
            on_hold,
            enumeration_and_chronology,
            midspine,
            temporary_location,
        } = read_loan(alloc, parts)?;
        Ok(Circulation {
            available_now,
            availability_date,
            available_through,
            restrictions,
            item_id,
            renewable,
            on_hold,
            enumeration_and_chronology,
            midspine,
            temporary_location,
        })
    }

    fn write(&self, alloc: Global, out: &mut PartsBuf) -> Result<(), BuildError> {
        out.required(alloc, Tag::context(1), &self.available_now)?;
        out.optional(alloc, Tag::context(2), &self.availability_date)?;
        out.optional(alloc, Tag::context(3), &self.available_through)?;
        out.optional(alloc, Tag::context(4), &self.restrictions)?;
        out.optional(alloc, Tag::context(5), &self.item_id)?;
        write_loan(alloc, out, self)
    }
}

impl Tagged for Circulation {
    ghost place = { whole_circulation };

    fn has(tag: Tag) -> bool {
        tag == Tag::universal(16)
    }

    fn of_element(alloc: Global, node: &Node) -> Result<Self, PartError> {
        read_within(alloc, node)
    }

    fn to_element(&self, alloc: Global) -> Result<Node, BuildError> {
        write_within(alloc, self, Tag::universal(16))
    }
}
