//! The element of the names of targets in a saved file.
ghost use Rattle.std.specs.Prelude.{◌≡◌, IfOk};
ghost use Rattle.zasn.specs.Within.{all_meanings, list_meaning, whole_of};
ghost use Rattle.zasn.specs.Results.{MeaningResult};
ghost use Rattle.zknow.specs.Saved.SavedFacts.{saved_name, saved_names};

use crate::fact::Names;
use bytes::Bytes;
use std::alloc::{AllocError, Global};
use std::marker::Model;
use zasn::{BuildError, PartError, Tagged, write_texts};
use zber::{Body, Duplicate, Node, Seq, Tag};

/// Returns the name in a primitive element `[0]`. Returns `Misfit` for another element.
fn name_in(_alloc: Global, node: &Node) -> Result<Bytes, PartError>
    ensures { MeaningResult (whole_of saved_name node.now) result }
{
    if node.tag != Tag::context(0) {
        return Err(PartError::Misfit);
    }
    match &node.body {
        Body::Prim(octets) => Ok(octets.clone()?),
        Body::Cons(_) => Err(PartError::Misfit),
    }
}

/// Returns the names in elements, in order.
fn names_in(alloc: Global, nodes: &[Node]) -> Result<Names, PartError>
    ensures { MeaningResult (all_meanings (whole_of saved_name) nodes.now) result }
{
    let mut names = Vec::new(alloc);
    for node in nodes {
        let name = name_in(alloc, node)?;
        names.push(name)?;
    }
    Ok(Seq::from_vec(names))
}

/// Returns the names in the elements within a constructed element. Returns `Misfit` if it is primitive.
fn names_within(alloc: Global, node: &Node) -> Result<Names, PartError>
    ensures { MeaningResult (list_meaning (whole_of saved_name) node.now) result }
{
    match &node.body {
        Body::Prim(_) => Err(PartError::Misfit),
        Body::Cons(nodes) => names_in(alloc, nodes.as_slice()),
    }
}

/// The names of targets, in an element `[4]` with a primitive element `[0]` for each.
#[derive(Drop)]
pub(crate) struct SavedNames {
    names: Names,
}

impl Model for SavedNames {
    ghost use Rattle.std.specs.Prelude.{List, ℕ};

    ghost Value = { List (List ℕ) };

    ghost view = { λ s. s.names };
}

impl SavedNames {
    /// Returns equal names. Returns `AllocError` if no memory is found.
    pub(crate) fn of(alloc: Global, names: &Names) -> Result<SavedNames, AllocError>
        ensures { IfOk result (λ s. s ≡ names.now) }
    {
        Ok(SavedNames {
            names: names.duplicate(alloc)?,
        })
    }

    /// Returns the names.
    pub(crate) fn into_names(self) -> Names
        ensures { result ≡ self }
    {
        let SavedNames { names } = self;
        names
    }
}

impl Tagged for SavedNames {
    ghost place = { saved_names };

    fn has(tag: Tag) -> bool {
        tag == Tag::context(4)
    }

    fn of_element(alloc: Global, node: &Node) -> Result<Self, PartError> {
        Ok(SavedNames {
            names: names_within(alloc, node)?,
        })
    }

    fn to_element(&self, alloc: Global) -> Result<Node, BuildError> {
        write_texts(alloc, &self.names, Tag::context(4), Tag::context(0))
    }
}
