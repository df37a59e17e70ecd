//! Elements that a production keeps unchanged.
ghost use Rattle.std.specs.Prelude.{◌≡◌, [], ◌∷◌, Some, None, IfSome, IfNone};
ghost use Rattle.zasn_tables.specs.Within.{any_at, around, sequence_of};
ghost use Rattle.zasn_tables.specs.Place.{Place};
ghost use Rattle.zasn.specs.Results.{MeaningResult, BuildResult};
ghost use Rattle.zasn.specs.Places.{kept};

use crate::build::PartsBuf;
use crate::error::{BuildError, PartError};
use std::alloc::Global;
use zber::{Body, Node, Tag};

/// Returns the one element within an element. Returns `None` if the outer one is primitive, or contains none or
/// several.
pub fn sole(node: &Node) -> Option<&Node>
    ensures some { IfSome result (λ only. sequence_of any_at node.now ≡ Some only.now) }
    ensures none { IfNone result (sequence_of any_at node.now ≡ None) }
{
    match &node.body {
        Body::Prim(_) => None,
        Body::Cons(nodes) => match nodes.as_slice() {
            [] => None,
            [only] => Some(only),
            [_, _, ..] => None,
        },
    }
}

/// Returns a copy of the one element within an element, whatever it is.
///
/// Returns `Misfit` if the outer one is primitive, or contains none or several. Returns `Memory` if no memory is found.
pub fn read_any(alloc: Global, node: &Node) -> Result<Node, PartError>
    ensures { MeaningResult (sequence_of any_at node.now) result }
{
    match sole(node) {
        Some(only) => Ok(only.copy(alloc)?),
        None => Err(PartError::Misfit),
    }
}

/// Returns the element with the tag around this one element. Returns `Memory` if no memory is found, and never
/// `NotSpellable`.
pub fn write_around(alloc: Global, node: Node, tag: Tag) -> Result<Node, BuildError>
    ensures { BuildResult (around tag (Some (node ∷ []))) result }
{
    let mut out = PartsBuf::new(alloc);
    out.push(node)?;
    Ok(out.into_node(tag))
}

/// Returns the element with the tag around a copy of this element. Returns `Memory` if no memory is found, and never
/// `NotSpellable`.
pub fn write_any(alloc: Global, node: &Node, tag: Tag) -> Result<Node, BuildError>
    ensures { BuildResult (around tag (Some (node.now ∷ []))) result }
{
    let copy = node.copy(alloc)?;
    write_around(alloc, copy, tag)
}

/// Returns a copy of an element of either form that has the tag. Returns `NotSpellable` if it has another tag, and
/// `Memory` if no memory is found.
pub(crate) fn write_kept(alloc: Global, node: &Node, tag: Tag) -> Result<Node, BuildError>
    ensures { BuildResult ((kept tag []).spelling node.now) result }
{
    if node.tag != tag {
        return Err(BuildError::NotSpellable);
    }
    Ok(node.copy(alloc)?)
}
