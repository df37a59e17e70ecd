//! Numbers of targets and sets as INTEGERs.
ghost use Rattle.zknow.specs.Saved.Naturals.{natural};

use std::alloc::Global;
use zasn::{BuildError, Contents, PartError};
use zber::{Node, Tag};

/// A number of 32 bits as an INTEGER (X.690, 8.3).
#[derive(Clone, Copy, PartialEq, Eq)]
pub(crate) struct Natural {
    pub(crate) number: u32,
}

impl Contents for Natural {
    ghost place = { natural };

    fn of_node(_alloc: Global, node: &Node) -> Result<Self, PartError> {
        let number = node.as_int()?;
        if number < 0 || number > 0xffff_ffff {
            return Err(PartError::Misfit);
        }
        Ok(Natural {
            number: number as u32,
        })
    }

    fn to_node(&self, alloc: Global, tag: Tag) -> Result<Node, BuildError> {
        Ok(Node::of_int(alloc, tag, i64::from(self.number))?)
    }
}
