//! Further calls of the layers below, without their contracts and with large values in boxes.
use std::alloc::{AllocError, Global};
use zapdu::{Apdu, ApduError, DiagRec, Record};
use zapdu_rows::boxes::box_value;
use zber::Node;
use zber_rows::unread::{Unread, read};

pub(crate) fn apdu_refusal(alloc: Global, node: &Node) -> Option<ApduError> {
    zapdu::from_node(alloc, node).err()
}

pub(crate) fn apdu_copy(alloc: Global, apdu: &Apdu) -> Result<Box<Apdu>, AllocError> {
    match apdu.copy(alloc) {
        Ok(copy) => box_value(alloc, copy),
        Err(error) => Err(error),
    }
}

pub(crate) fn record_of(alloc: Global, node: &Node) -> Result<Box<Record>, Unread> {
    match zapdu::record_of(alloc, node) {
        Ok(Some(record)) => read(box_value(alloc, record)),
        _ => Err(Unread),
    }
}

pub(crate) fn is_record(alloc: Global, node: &Node) -> Result<bool, AllocError> {
    match zapdu::record_of(alloc, node) {
        Ok(record) => Ok(record.ok_or(()).err().is_none()),
        Err(error) => Err(error),
    }
}

pub(crate) fn record_text(
    alloc: Global,
    record: &Record,
    hex: bool,
) -> Result<Vec<u8>, AllocError> {
    let mut out = Vec::new(alloc);
    if zapdu::print_record(alloc, record, hex, &mut out).is_err() {
        return Err(AllocError);
    }
    Ok(out)
}

pub(crate) fn record_copy(alloc: Global, record: &Record) -> Result<Box<Record>, AllocError> {
    match record.copy(alloc) {
        Ok(copy) => box_value(alloc, copy),
        Err(error) => Err(error),
    }
}

pub(crate) fn diag_of(alloc: Global, node: &Node) -> Result<Box<DiagRec>, Unread> {
    match zapdu::diag_of(alloc, node) {
        Ok(Some(diag)) => read(box_value(alloc, diag)),
        _ => Err(Unread),
    }
}

pub(crate) fn is_diag(alloc: Global, node: &Node) -> Result<bool, AllocError> {
    match zapdu::diag_of(alloc, node) {
        Ok(diag) => Ok(diag.ok_or(()).err().is_none()),
        Err(error) => Err(error),
    }
}

pub(crate) fn diag_copy(alloc: Global, diag: &DiagRec) -> Result<Box<DiagRec>, AllocError> {
    match diag.copy(alloc) {
        Ok(copy) => box_value(alloc, copy),
        Err(error) => Err(error),
    }
}
