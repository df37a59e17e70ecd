//! SEQUENCE OF: values in order, each in an element with a tag of its own.
ghost use Rattle.std.specs.Prelude.{◌≡◌};
ghost use Rattle.zasn_tables.specs.Within.{all_meanings, all_spellings, whole_of};
ghost use Rattle.zasn.specs.Results.{MeaningResult, BuildResult};
ghost use Rattle.zasn.specs.Places.{list};

use crate::build::PartsBuf;
use crate::contents::{Contents, Tagged};
use crate::error::{BuildError, PartError};
use std::alloc::Global;
use zber::{Body, Node, Seq, Tag};

/// Returns the values of elements, in order.
fn all_in<T: Tagged>(alloc: Global, nodes: &[Node]) -> Result<Seq<T>, PartError>
    ensures { MeaningResult (all_meanings (whole_of T.place) nodes.now) result }
{
    let mut values = Vec::new(alloc);
    for node in nodes {
        if !T::has(node.tag) {
            return Err(PartError::Misfit);
        }
        let value = T::of_element(alloc, node)?;
        values.push(value)?;
    }
    Ok(Seq::from_vec(values))
}

/// Does the same with elements that it takes over.
fn all_taken<T: Tagged>(alloc: Global, nodes: Vec<Node>) -> Result<Seq<T>, PartError>
    ensures { MeaningResult (all_meanings (whole_of T.place) nodes.items) result }
{
    let mut values = Vec::new(alloc);
    for given in nodes {
        if !T::has(given.tag) {
            return Err(PartError::Misfit);
        }
        let value = T::take_element(alloc, given)?;
        values.push(value)?;
    }
    Ok(Seq::from_vec(values))
}

/// Returns the elements of values, in order.
fn all_of_them<T: Tagged>(alloc: Global, values: &[T]) -> Result<PartsBuf, BuildError>
    ensures { BuildResult (all_spellings T.place.spelling values.now) result }
{
    let mut out = PartsBuf::new(alloc);
    for value in values {
        let node = value.to_element(alloc)?;
        out.push(node)?;
    }
    Ok(out)
}

impl<T: Tagged> Contents for Seq<T> {
    ghost place = { λ tag. list tag T.place };

    fn of_node(alloc: Global, node: &Node) -> Result<Self, PartError> {
        match &node.body {
            Body::Prim(_) => Err(PartError::Misfit),
            Body::Cons(nodes) => all_in(alloc, nodes.as_slice()),
        }
    }

    fn take_node(alloc: Global, node: Node) -> Result<Self, PartError> {
        match node.body {
            Body::Prim(_) => Err(PartError::Misfit),
            Body::Cons(nodes) => all_taken(alloc, nodes),
        }
    }

    fn to_node(&self, alloc: Global, tag: Tag) -> Result<Node, BuildError> {
        let out = all_of_them(alloc, self.as_slice())?;
        Ok(out.into_node(tag))
    }
}
