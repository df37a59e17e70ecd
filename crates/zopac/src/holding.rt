//! What is said of one copy: a MARC record of holdings, or fields.
ghost use Rattle.zopac.specs.HoldingKinds.{holding};

use crate::holdings::HoldingsAndCirc;
use std::alloc::Global;
use zapdu::External;
use zasn::{BuildError, Contents, PartError, Tagged};
use zber::{Node, Tag};

/// What is said of one copy (Z39.50-2003, Appendix REC: HoldingsRecord).
#[derive(Drop)]
pub enum Holding {
    /// marcHoldingsRecord: a record of MARC for holdings.
    Marc(External),
    /// holdingsAndCirc: the library's own fields.
    Copy(HoldingsAndCirc),
}

impl Tagged for Holding {
    ghost place = { holding };

    fn has(tag: Tag) -> bool {
        tag == Tag::context(1) || tag == Tag::context(2)
    }

    fn of_element(alloc: Global, node: &Node) -> Result<Self, PartError> {
        if node.tag == Tag::context(1) {
            let external = External::of_node(alloc, node)?;
            return Ok(Holding::Marc(external));
        }
        if node.tag == Tag::context(2) {
            let copy = HoldingsAndCirc::of_node(alloc, node)?;
            return Ok(Holding::Copy(copy));
        }
        Err(PartError::Misfit)
    }

    fn to_element(&self, alloc: Global) -> Result<Node, BuildError> {
        match self {
            Holding::Marc(external) => external.to_node(alloc, Tag::context(1)),
            Holding::Copy(copy) => copy.to_node(alloc, Tag::context(2)),
        }
    }
}
