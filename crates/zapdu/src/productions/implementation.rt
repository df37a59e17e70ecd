//! The last elements of InitializeRequest and InitializeResponse: the implementation, and what either side may add.
ghost use Rattle.std.specs.Prelude.{◌≡◌, [], IfOk};
ghost use Rattle.zasn.specs.Results.{ReadingResult, BuildStepResult};
ghost use Rattle.zapdu.specs.Productions.Implementations.{implementation, implementation_parts};

use crate::productions::external::External;
use bytes::Bytes;
use std::alloc::Global;
use zasn::{BuildError, PartError, Parts, PartsBuf};
use zber::{Node, Tag};

/// The values of these elements.
#[derive(Drop)]
pub(crate) struct Implementation {
    pub implementation_id: Option<Bytes>,
    pub implementation_name: Option<Bytes>,
    pub implementation_version: Option<Bytes>,
    pub user_information_field: Option<External>,
    pub other_info: Option<Node>,
}

#[tactic(auto, unfolding(crate::specs::Productions::Implementations::implementation_parts))]
pub(crate) fn read_implementation(
    alloc: Global,
    parts: &mut Parts<'_>,
) -> Result<Implementation, PartError>
    ensures finds { ReadingResult (implementation_parts.at parts.old) result parts.new }
    ensures none { IfOk result (λ _. parts.new ≡ []) }
{
    let implementation_id = parts.optional(alloc, Tag::context(110))?;
    let implementation_name = parts.optional(alloc, Tag::context(111))?;
    let implementation_version = parts.optional(alloc, Tag::context(112))?;
    let user_information_field = parts.optional_explicit(
        alloc,
        Tag::context(11),
        Tag::universal(8),
    )?;
    let other_info = parts.optional(alloc, Tag::context(201))?;
    parts.end()?;
    Ok(Implementation {
        implementation_id,
        implementation_name,
        implementation_version,
        user_information_field,
        other_info,
    })
}

/// Adds these elements.
#[tactic(auto, unfolding(crate::specs::Productions::Implementations::implementation_parts))]
pub(crate) fn write_implementation(
    alloc: Global,
    out: &mut PartsBuf,
    id: &Option<Bytes>,
    name: &Option<Bytes>,
    version: &Option<Bytes>,
    information: &Option<External>,
    other: &Option<Node>,
) -> Result<(), BuildError>
    ensures { BuildStepResult (implementation_parts.spelling
        (implementation id.now name.now version.now information.now other.now) out.old) result out.new }
{
    out.optional(alloc, Tag::context(110), id)?;
    out.optional(alloc, Tag::context(111), name)?;
    out.optional(alloc, Tag::context(112), version)?;
    out.optional_explicit(alloc, Tag::context(11), Tag::universal(8), information)?;
    out.optional(alloc, Tag::context(201), other)
}
