//! Elements within one another.
use std::alloc::{AllocError, Global};
use zber::{Node, Tag};

/// So many constructed elements within one another, and an empty primitive one in the innermost.
pub fn nest_elements(alloc: Global, levels: u32) -> Result<Node, AllocError> {
    let mut node = Node::of_null(Tag::context(0));
    for _ in 0..levels {
        let mut nodes = Vec::new(alloc);
        if nodes.push(node).is_err() {
            return Err(AllocError);
        }
        node = Node::cons(Tag::universal(16), nodes);
    }
    Ok(node)
}
