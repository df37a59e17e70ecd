//! The element of the names of targets in a saved file.
ghost use Rattle.zasn_tables.specs.Within.{all_meanings, list_meaning, whole_of};
ghost use Rattle.zasn.specs.Results.{MeaningResult};
ghost use Rattle.zknow.specs.Saved.SavedFacts.{saved_name, saved_names};

use bytes::Bytes;
use std::alloc::Global;
use std::marker::Model;
use zasn::{BuildError, PartError, Tagged, write_texts};
use zber::{Body, Node, Seq, Tag};

/// Returns the name in a primitive element `[0]`. Returns `Misfit` for another element.
fn name_in(_alloc: Global, node: &Node) -> Result<Bytes, PartError>
    ensures { MeaningResult (whole_of saved_name node.now) result }
{
    if node.tag != Tag::context(0) {
        return Err(PartError::Misfit);
    }
    match &node.body {
        Body::Prim(octets) => Ok(octets.clone()?),
        Body::Cons(_) => Err(PartError::Misfit),
    }
}

/// Returns the names in elements, in order.
fn names_in(alloc: Global, nodes: &[Node]) -> Result<Seq<Bytes>, PartError>
    ensures { MeaningResult (all_meanings (whole_of saved_name) nodes.now) result }
{
    let mut names = Vec::new(alloc);
    for node in nodes {
        let name = name_in(alloc, node)?;
        names.push(name)?;
    }
    Ok(Seq::from_vec(names))
}

/// Returns the names in the elements within a constructed element. Returns `Misfit` if it is primitive.
fn names_within(alloc: Global, node: &Node) -> Result<Seq<Bytes>, PartError>
    ensures { MeaningResult (list_meaning (whole_of saved_name) node.now) result }
{
    match &node.body {
        Body::Prim(_) => Err(PartError::Misfit),
        Body::Cons(nodes) => names_in(alloc, nodes.as_slice()),
    }
}

/// The names of targets, in an element `[4]` with a primitive element `[0]` for each, as `zknow` saves them.
#[derive(Drop)]
pub(crate) struct FileNames {
    names: Seq<Bytes>,
}

impl Model for FileNames {
    ghost use Rattle.std.specs.Prelude.{List, ℕ};

    ghost Value = { List (List ℕ) };

    ghost view = { λ s. s.names };
}

impl Tagged for FileNames {
    ghost place = { saved_names };

    fn has(tag: Tag) -> bool {
        tag == Tag::context(4)
    }

    fn of_element(alloc: Global, node: &Node) -> Result<Self, PartError> {
        Ok(FileNames {
            names: names_within(alloc, node)?,
        })
    }

    fn to_element(&self, alloc: Global) -> Result<Node, BuildError> {
        write_texts(alloc, &self.names, Tag::context(4), Tag::context(0))
    }
}
