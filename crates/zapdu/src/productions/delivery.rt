//! The last elements of a PresentRequest: how the target is to deliver the records.
ghost use Rattle.std.specs.Prelude.{◌≡◌, [], IfOk};
ghost use Rattle.zasn.specs.Results.{ReadingResult, BuildStepResult};
ghost use Rattle.zapdu.specs.Productions.Deliveries.{delivery, delivery_parts};

use std::alloc::Global;
use zasn::{BuildError, PartError, Parts, PartsBuf};
use zber::{Node, Oid, Tag};

/// The values of these elements.
#[derive(Drop)]
pub(crate) struct Delivery {
    pub preferred_record_syntax: Option<Oid>,
    pub max_segment_count: Option<Node>,
    pub max_record_size: Option<Node>,
    pub max_segment_size: Option<Node>,
    pub other_info: Option<Node>,
}

/// Reads these elements, after which there are no more.
#[tactic(auto, unfolding(crate::specs::Productions::Deliveries::delivery_parts))]
pub(crate) fn read_delivery(alloc: Global, parts: &mut Parts<'_>) -> Result<Delivery, PartError>
    ensures finds { ReadingResult (delivery_parts.at parts.old) result parts.new }
    ensures none { IfOk result (λ _. parts.new ≡ []) }
{
    let preferred_record_syntax = parts.optional(alloc, Tag::context(104))?;
    let max_segment_count = parts.optional_kept(alloc, Tag::context(204))?;
    let max_record_size = parts.optional_kept(alloc, Tag::context(206))?;
    let max_segment_size = parts.optional_kept(alloc, Tag::context(207))?;
    let other_info = parts.optional(alloc, Tag::context(201))?;
    parts.end()?;
    Ok(Delivery {
        preferred_record_syntax,
        max_segment_count,
        max_record_size,
        max_segment_size,
        other_info,
    })
}

/// Adds these elements.
#[tactic(auto, unfolding(crate::specs::Productions::Deliveries::delivery_parts))]
pub(crate) fn write_delivery(
    alloc: Global,
    out: &mut PartsBuf,
    syntax: &Option<Oid>,
    segments: &Option<Node>,
    record_size: &Option<Node>,
    segment_size: &Option<Node>,
    other: &Option<Node>,
) -> Result<(), BuildError>
    ensures { BuildStepResult (delivery_parts.spelling
        (delivery syntax.now segments.now record_size.now segment_size.now other.now) out.old) result out.new }
{
    out.optional(alloc, Tag::context(104), syntax)?;
    out.optional_kept(alloc, Tag::context(204), segments)?;
    out.optional_kept(alloc, Tag::context(206), record_size)?;
    out.optional_kept(alloc, Tag::context(207), segment_size)?;
    out.optional(alloc, Tag::context(201), other)
}
