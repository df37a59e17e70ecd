//! Calls of queries, without their contracts and with large values in boxes.
use std::alloc::{AllocError, Global};
use zapdu_rows::boxes::box_value;
use zber::{Body, Node};
use zber_rows::unread::{Unread, read};
use zquery::{BuildError, PrintError, Query};

/// Appends the text of a query.
pub fn print(alloc: Global, query: &Query, out: &mut Vec<u8>) -> Result<(), PrintError> {
    zquery::print_pqf(alloc, query, out)
}

/// The element of a query.
pub fn query_node(alloc: Global, query: &Query) -> Result<Node, BuildError> {
    zquery::to_node(alloc, query)
}

/// The query of an element, in a box.
pub fn query_of(alloc: Global, node: &Node) -> Result<Box<Query>, Unread> {
    match zquery::from_node(alloc, node) {
        Ok(Some(query)) => read(box_value(alloc, query)),
        _ => Err(Unread),
    }
}

/// Whether an element is a query.
pub fn is_query(alloc: Global, node: &Node) -> Result<bool, AllocError> {
    match zquery::from_node(alloc, node) {
        Ok(query) => Ok(query.ok_or(()).err().is_none()),
        Err(error) => Err(error),
    }
}

/// An equal query, in a box.
pub fn query_copy(alloc: Global, query: &Query) -> Result<Box<Query>, AllocError> {
    match query.copy(alloc) {
        Ok(copy) => box_value(alloc, copy),
        Err(error) => Err(error),
    }
}

/// The element within the element that stands in a SearchRequest's place for a query.
pub fn inner(node: &Node) -> Option<&Node> {
    match &node.body {
        Body::Cons(nodes) => nodes.first(),
        Body::Prim(_) => None,
    }
}

/// The text of a query.
pub fn query_text(alloc: Global, query: &Query) -> Result<Vec<u8>, Unread> {
    let mut text = Vec::new(alloc);
    match print(alloc, query, &mut text) {
        Ok(()) => Ok(text),
        Err(_) => Err(Unread),
    }
}
