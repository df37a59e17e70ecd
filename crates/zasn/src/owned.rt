//! Values of elements that are taken over: what a value keeps of them is moved, and not copied.
ghost use Rattle.std.specs.Prelude.{◌≡◌, [], ◌∷◌, IfOk};
ghost use Rattle.zasn_tables.specs.Table.{Elements};
ghost use Rattle.zasn_tables.specs.Place.{Place};
ghost use Rattle.zasn_tables.specs.Within.{alone_at, any_at, around, sequence_of};
ghost use Rattle.zasn.specs.Results.{ReadingResult, OwnReadingResult, BuildResult, MeaningResult, BuildStepResult};
ghost use Rattle.zasn.specs.Places.{explicit};

use crate::any::write_around;
use crate::build::PartsBuf;
use crate::contents::{Contents, Tagged};
use crate::error::{BuildError, PartError};
use crate::own_parts::OwnParts;
use crate::parts::Parts;
use std::alloc::Global;
use zber::{Body, Node, Tag};

/// A value of several elements in order that takes the elements over.
pub trait Taken: Sized + Drop {
    /// The table of the production.
    ghost table: { Elements Self };

    /// Returns the value of all elements that are left; then none is left.
    ///
    /// Returns `Misfit` if one misfits; as many elements are left as from that one on. Returns `Memory` if no memory is
    /// found; nothing is promised of the elements left.
    fn take(alloc: Global, parts: &mut OwnParts) -> Result<Self, PartError>
        ensures finds { OwnReadingResult (table.at parts.old) result parts.new }
        ensures none { IfOk result (λ _. parts.new ≡ []) };
}

/// A value of several elements in order that the elements take over.
pub trait Given: Sized + Drop {
    /// The table of the production.
    ghost table: { Elements Self };

    /// Adds the elements of the value.
    ///
    /// Returns `NotSpellable` if the value has none, and `Memory` if no memory is found. Then nothing is promised of
    /// `out`.
    fn give(self, alloc: Global, out: &mut PartsBuf) -> Result<(), BuildError>
        ensures { BuildStepResult (table.spelling self out.old) result out.new };
}

/// Returns the value of copies of all elements that are left; then none is left.
///
/// Returns `Misfit` if one misfits; it is the first that is left. Returns `Memory` if no memory is found; nothing is
/// promised of the elements left.
pub fn read_copies<T: Taken>(alloc: Global, parts: &mut Parts<'_>) -> Result<T, PartError>
    ensures finds { ReadingResult (T.table.at parts.old) result parts.new }
    ensures none { IfOk result (λ _. parts.new ≡ []) }
{
    let mut own = parts.copies(alloc)?;
    let answer = T::take(alloc, &mut own);
    parts.leave(own.len());
    answer
}

/// Returns the value of the elements within one, whatever its tag.
///
/// Returns `Misfit` if the outer one is primitive, or if those within have no such value. Returns `Memory` if no memory
/// is found.
pub fn take_within<T: Taken>(alloc: Global, node: Node) -> Result<T, PartError>
    ensures { MeaningResult (sequence_of T.table.at node) result }
{
    match node.body {
        Body::Prim(_) => Err(PartError::Misfit),
        Body::Cons(nodes) => {
            let mut parts = OwnParts::new(nodes);
            T::take(alloc, &mut parts)
        }
    }
}

/// Returns the value of the one element within an element, under the tag (explicit tagging).
///
/// Returns `Misfit` if the outer one is primitive, or contains anything but one element of such a value under the tag.
/// Returns `Memory` if no memory is found.
pub fn take_alone<T: Contents>(alloc: Global, node: Node, tag: Tag) -> Result<T, PartError>
    ensures { MeaningResult (sequence_of (alone_at (tag ∷ []) (T.place tag).meaning) node) result }
{
    match node.body {
        Body::Prim(_) => Err(PartError::Misfit),
        Body::Cons(nodes) => {
            let mut parts = OwnParts::new(nodes);
            let value = parts.required(alloc, tag)?;
            parts.end()?;
            Ok(value)
        }
    }
}

/// Returns the value of the one element within an element, with a tag of its own.
///
/// Returns `Misfit` if the outer one is primitive, or contains anything but one element of such a value. Returns
/// `Memory` if no memory is found.
pub fn take_alone_tagged<T: Tagged>(alloc: Global, node: Node) -> Result<T, PartError>
    ensures { MeaningResult (sequence_of (alone_at T.place.tags T.place.meaning) node) result }
{
    match node.body {
        Body::Prim(_) => Err(PartError::Misfit),
        Body::Cons(nodes) => {
            let mut parts = OwnParts::new(nodes);
            let value = parts.required_tagged(alloc)?;
            parts.end()?;
            Ok(value)
        }
    }
}

/// Returns the one element within an element, whatever it is. Returns `None` if the outer one is primitive, or contains
/// none or several.
pub fn take_any(node: Node) -> Option<Node>
    ensures { result ≡ sequence_of any_at node }
{
    match node.body {
        Body::Prim(_) => None,
        Body::Cons(nodes) => {
            let mut parts = OwnParts::new(nodes);
            let only = parts.next()?;
            if parts.len() == 0 { Some(only) } else { None }
        }
    }
}

/// Returns the element with the tag around the elements of the value. Returns `NotSpellable` if the value has none, and
/// `Memory` if no memory is found.
pub fn give_within<T: Given>(alloc: Global, value: T, tag: Tag) -> Result<Node, BuildError>
    ensures { BuildResult (around tag (T.table.spelling value [])) result }
{
    let mut out = PartsBuf::new(alloc);
    value.give(alloc, &mut out)?;
    Ok(out.into_node(tag))
}

/// Returns the element with the outer tag around the element of the value under the inner tag. Returns `NotSpellable`
/// if the value has none, and `Memory` if no memory is found.
pub fn give_alone<T: Contents>(
    alloc: Global,
    value: T,
    outer: Tag,
    inner: Tag,
) -> Result<Node, BuildError>
    ensures { BuildResult ((explicit outer (T.place inner)).spelling value) result }
{
    let node = value.into_node(alloc, inner)?;
    write_around(alloc, node, outer)
}

/// Returns the element with the outer tag around the element of the value, which has a tag of its own. Returns
/// `NotSpellable` if the value has none, and `Memory` if no memory is found.
pub fn give_alone_tagged<T: Tagged>(alloc: Global, value: T, outer: Tag) -> Result<Node, BuildError>
    ensures { BuildResult ((explicit outer T.place).spelling value) result }
{
    let node = value.into_element(alloc)?;
    write_around(alloc, node, outer)
}
