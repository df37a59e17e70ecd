//! Values of several elements in order: a SEQUENCE.
ghost use Rattle.std.specs.Prelude.{◌≡◌, [], ◌∷◌, Some, IfOk};
ghost use Rattle.zasn_tables.specs.Table.{Elements};
ghost use Rattle.zasn_tables.specs.Place.{Place};
ghost use Rattle.zasn_tables.specs.Within.{sequence_of, around, alone_at};
ghost use Rattle.zasn.specs.Results.{ReadingResult, BuildStepResult, MeaningResult, BuildResult};
ghost use Rattle.zasn.specs.Places.{explicit};

use crate::build::PartsBuf;
use crate::contents::{Contents, Tagged};
use crate::error::{BuildError, PartError};
use crate::parts::Parts;
use std::alloc::Global;
use zber::{Body, Node, Tag};

/// A value of several elements in order.
pub trait Production: Sized + Drop {
    /// The table of the production.
    ghost table: { Elements Self };

    /// Returns the value of all elements that are left; then none is left.
    ///
    /// Returns `Misfit` if one misfits; it is the first that is left. Returns `Memory` if no memory is found; nothing
    /// is promised of the elements left.
    fn read(alloc: Global, parts: &mut Parts<'_>) -> Result<Self, PartError>
        ensures finds { ReadingResult (table.at parts.old) result parts.new }
        ensures none { IfOk result (λ _. parts.new ≡ []) };

    /// Adds the elements of the value.
    ///
    /// Returns `NotSpellable` if the value has none, and `Memory` if no memory is found. Then nothing is promised of
    /// `out`.
    fn write(&self, alloc: Global, out: &mut PartsBuf) -> Result<(), BuildError>
        ensures { BuildStepResult (table.spelling self.now out.old) result out.new };
}

/// Returns the value of the elements within one, whatever its tag.
///
/// Returns `Misfit` if the outer one is primitive, or if those within have no such value. Returns `Memory` if no memory
/// is found.
pub fn read_within<T: Production>(alloc: Global, node: &Node) -> Result<T, PartError>
    ensures { MeaningResult (sequence_of T.table.at node.now) result }
{
    match &node.body {
        Body::Prim(_) => Err(PartError::Misfit),
        Body::Cons(nodes) => {
            let mut parts = Parts::new(nodes.as_slice());
            T::read(alloc, &mut parts)
        }
    }
}

/// Returns the element with the tag around the elements of the value. Returns `NotSpellable` if the value has none, and
/// `Memory` if no memory is found.
pub fn write_within<T: Production>(alloc: Global, value: &T, tag: Tag) -> Result<Node, BuildError>
    ensures { BuildResult (around tag (T.table.spelling value.now [])) result }
{
    let mut out = PartsBuf::new(alloc);
    value.write(alloc, &mut out)?;
    Ok(out.into_node(tag))
}

/// Returns the value of the one element within an element, under the tag (explicit tagging).
///
/// Returns `Misfit` if the outer one is primitive, or contains anything but one element of such a value under the tag.
/// Returns `Memory` if no memory is found.
pub fn read_alone<T: Contents>(alloc: Global, node: &Node, tag: Tag) -> Result<T, PartError>
    ensures { MeaningResult (sequence_of (alone_at (tag ∷ []) (T.place tag).meaning) node.now) result }
{
    match &node.body {
        Body::Prim(_) => Err(PartError::Misfit),
        Body::Cons(nodes) => {
            let mut parts = Parts::new(nodes.as_slice());
            let value = parts.required(alloc, tag)?;
            parts.end()?;
            Ok(value)
        }
    }
}

/// Returns the value of the one element within an element, with a tag of its own.
///
/// Returns `Misfit` if the outer one is primitive, or contains anything but one element of such a value. Returns
/// `Memory` if no memory is found.
pub fn read_alone_tagged<T: Tagged>(alloc: Global, node: &Node) -> Result<T, PartError>
    ensures { MeaningResult (sequence_of (alone_at T.place.tags T.place.meaning) node.now) result }
{
    match &node.body {
        Body::Prim(_) => Err(PartError::Misfit),
        Body::Cons(nodes) => {
            let mut parts = Parts::new(nodes.as_slice());
            let value = parts.required_tagged(alloc)?;
            parts.end()?;
            Ok(value)
        }
    }
}

/// Returns the element with the outer tag around the element of the value under the inner tag. Returns `NotSpellable`
/// if the value has none, and `Memory` if no memory is found.
pub fn write_alone<T: Contents>(
    alloc: Global,
    value: &T,
    outer: Tag,
    inner: Tag,
) -> Result<Node, BuildError>
    ensures { BuildResult ((explicit outer (T.place inner)).spelling value.now) result }
{
    let mut out = PartsBuf::new(alloc);
    out.required(alloc, inner, value)?;
    Ok(out.into_node(outer))
}

/// Returns the element with the outer tag around the element of the value, which has a tag of its own. Returns
/// `NotSpellable` if the value has none, and `Memory` if no memory is found.
pub fn write_alone_tagged<T: Tagged>(
    alloc: Global,
    value: &T,
    outer: Tag,
) -> Result<Node, BuildError>
    ensures { BuildResult ((explicit outer T.place).spelling value.now) result }
{
    let mut out = PartsBuf::new(alloc);
    out.required_tagged(alloc, value)?;
    Ok(out.into_node(outer))
}
