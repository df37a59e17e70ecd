//! Record composition: which elements the records of a response are to have.
ghost use Rattle.zapdu.specs.Productions.RecordCompositions.{record_composition};

use crate::productions::element_set_names::ElementSetNames;
use std::alloc::Global;
use zasn::{BuildError, Contents, PartError, Tagged, read_alone_tagged, write_alone_tagged};
use zber::{Node, Tag};

/// Which elements the records of a response are to have (Z39.50-2003, 3.2.3.1).
#[derive(Drop)]
pub enum RecordComposition {
    /// simple `[19]`: an element set.
    Simple(ElementSetNames),
    /// complex `[209]`: a CompSpec, kept as its element.
    Complex(Node),
}

impl Tagged for RecordComposition {
    ghost place = { record_composition };

    fn has(tag: Tag) -> bool {
        tag == Tag::context(19) || tag == Tag::context(209)
    }

    fn of_element(alloc: Global, node: &Node) -> Result<Self, PartError> {
        if node.tag == Tag::context(19) {
            let names = read_alone_tagged(alloc, node)?;
            return Ok(RecordComposition::Simple(names));
        }
        if node.tag == Tag::context(209) {
            let specification = Node::of_node(alloc, node)?;
            return Ok(RecordComposition::Complex(specification));
        }
        Err(PartError::Misfit)
    }

    fn to_element(&self, alloc: Global) -> Result<Node, BuildError> {
        match self {
            RecordComposition::Simple(names) => write_alone_tagged(alloc, names, Tag::context(19)),
            RecordComposition::Complex(specification) => {
                specification.to_node(alloc, Tag::context(209))
            }
        }
    }
}
