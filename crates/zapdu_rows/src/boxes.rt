//! Calls of the layers below that tests of several crates make, without their contracts and with large values in boxes:
//! no test needs the contracts, and what is proved of a function is dear where it owns a large value.
use std::alloc::{AllocError, Global};
use zapdu::{Apdu, BuildError, DiagRec, Record};
use zber::Node;
use zber_rows::rows::element;
use zber_rows::unread::{Unread, read};
use zquery::Query;

/// A value in a box.
pub fn box_value<T: Drop>(alloc: Global, value: T) -> Result<Box<T>, AllocError> {
    match Box::new(alloc, value) {
        Ok(value) => Ok(value),
        Err(_) => Err(AllocError),
    }
}

/// The query of a text in prefix notation.
pub fn parse(alloc: Global, text: &[u8]) -> Result<Box<Query>, Unread> {
    let Ok(query) = zquery::parse_pqf(alloc, text) else {
        return Err(Unread);
    };
    read(box_value(alloc, query))
}

/// The element of an APDU.
pub fn apdu_node(alloc: Global, apdu: &Apdu) -> Result<Node, BuildError> {
    zapdu::to_node(alloc, apdu)
}

/// The APDU of an element.
pub fn apdu_of(alloc: Global, node: &Node) -> Result<Box<Apdu>, Unread> {
    let Ok(apdu) = zapdu::from_node(alloc, node) else {
        return Err(Unread);
    };
    read(box_value(alloc, apdu))
}

/// The APDU that digits spell.
pub fn apdu(alloc: Global, digits: &str) -> Result<Box<Apdu>, Unread> {
    match element(alloc, digits) {
        Ok(node) => apdu_of(alloc, &node),
        Err(error) => Err(error),
    }
}

/// The element of a record.
pub fn record_node(alloc: Global, record: &Record) -> Result<Node, BuildError> {
    zapdu::record_node(alloc, record)
}

/// The element of a diagnostic.
pub fn diag_node(alloc: Global, diag: &DiagRec) -> Result<Node, BuildError> {
    zapdu::diag_node(alloc, diag)
}
