//! The lines on which the keys of the tables of a file stand.

use crate::lines::is_bare;
use std::alloc::{AllocError, Global};
use std::cmp::Ordering;

/// The most octets of a name whose keys are looked for. So no comparison of names costs more.
const LONGEST: usize = 256;

/// A key of a table at the top, or of a table in it, and its line.
#[derive(Clone, Copy)]
pub(crate) struct KeyLine<'a> {
    /// The name of the table at the top.
    table: &'a [u8],
    /// How many tables lie between: none for a key of the table itself.
    depth: u64,
    /// The key.
    key: &'a [u8],
    /// The line, from 1.
    line: u64,
}

/// The table that the next lines belong to.
#[derive(Clone, Copy)]
struct Header<'a> {
    /// The name of the table at the top; none before the first header.
    table: Option<&'a [u8]>,
    /// The depth of its keys.
    depth: u64,
}

/// Returns the text behind blanks.
fn behind_blanks(text: &[u8]) -> &[u8] {
    match text
        .iter()
        .position(|octet| *octet != b' ' && *octet != b'\t')
    {
        Some(at) => &text[at..],
        None => b"".as_slice(),
    }
}

/// Cuts a key in quotes off, behind its first quote: returns it, and what stands behind its last.
fn quoted_key(text: &[u8], quote: u8) -> (&[u8], &[u8]) {
    match text.iter().position(|octet| *octet == quote) {
        Some(at) => (&text[..at], &text[at + 1..]),
        None => (text, b"".as_slice()),
    }
}

/// Cuts a bare key off: returns it, and what stands behind it.
fn bare_key(text: &[u8]) -> (&[u8], &[u8]) {
    match text.iter().position(|octet| !is_bare(*octet)) {
        Some(at) => text.split_at(at),
        None => (text, b"".as_slice()),
    }
}

/// Cuts the first key of a path off: returns it, empty if there is none, and what stands behind it.
fn first_key(path: &[u8]) -> (&[u8], &[u8]) {
    let path = behind_blanks(path);
    match path {
        [b'"', rest @ ..] => quoted_key(rest, b'"'),
        [b'\'', rest @ ..] => quoted_key(rest, b'\''),
        _ => bare_key(path),
    }
}

/// Cuts the next key of a path off, which stands behind a dot: returns it, empty if there is none, and what stands
/// behind it.
fn next_key(path: &[u8]) -> (&[u8], &[u8]) {
    match behind_blanks(path) {
        [b'.', rest @ ..] => first_key(rest),
        _ => (b"".as_slice(), b"".as_slice()),
    }
}

/// Appends a key of a table, if there is one. Returns the depth of the keys behind it.
fn put_key<'a>(
    found: &mut Vec<KeyLine<'a>>,
    table: &'a [u8],
    depth: u64,
    key: &'a [u8],
    line: u64,
) -> Result<u64, AllocError> {
    if key.is_empty() || table.len() > LONGEST {
        return Ok(depth);
    }
    found.push(KeyLine {
        table,
        depth,
        key,
        line,
    })?;
    Ok(depth.saturating_add(1))
}

/// Appends the keys behind the name of a table, two at most.
fn put_table<'a>(
    found: &mut Vec<KeyLine<'a>>,
    path: &'a [u8],
    line: u64,
) -> Result<Header<'a>, AllocError> {
    let (table, rest) = first_key(path);
    let (first, rest) = next_key(rest);
    let (second, _) = next_key(rest);
    let depth = put_key(found, table, 0, first, line)?;
    let depth = put_key(found, table, depth, second, line)?;
    Ok(Header {
        table: Some(table),
        depth,
    })
}

/// Appends the keys that a line assigns to, two at most.
fn put_keys<'a>(
    found: &mut Vec<KeyLine<'a>>,
    header: Header<'a>,
    path: &'a [u8],
    line: u64,
) -> Result<(), AllocError> {
    match header.table {
        Some(table) => {
            let (first, rest) = first_key(path);
            let (second, _) = next_key(rest);
            let depth = put_key(found, table, header.depth, first, line)?;
            put_key(found, table, depth, second, line)?;
        }
        None => {
            put_table(found, path, line)?;
        }
    }
    Ok(())
}

/// Appends the keys of a line. Returns the table that the lines behind it belong to.
fn put_line<'a>(
    found: &mut Vec<KeyLine<'a>>,
    header: Header<'a>,
    text: &'a [u8],
    line: u64,
) -> Result<Header<'a>, AllocError> {
    match behind_blanks(text) {
        [b'[', b'[', path @ ..] => put_table(found, path, line),
        [b'[', path @ ..] => put_table(found, path, line),
        path => {
            if path.contains(&b'=') {
                put_keys(found, header, path, line)?;
            }
            Ok(header)
        }
    }
}

/// Reads the keys of the tables of a file, in the order of tables, depths and keys.
pub(crate) fn key_lines<'a>(alloc: Global, text: &'a [u8]) -> Result<Vec<KeyLine<'a>>, AllocError> {
    let mut found = Vec::new(alloc);
    let mut header = Header {
        table: None,
        depth: 0,
    };
    let mut line: u64 = 0;
    for octets in text.split(|octet| *octet == b'\n') {
        line = line.saturating_add(1);
        header = put_line(&mut found, header, octets, line)?;
    }
    found.sort_by_key(|key| (key.table, key.depth, key.key))?;
    Ok(found)
}

/// Compares a key with that of a table, at a depth.
fn order_to(found: &KeyLine<'_>, table: &[u8], depth: u64, key: &[u8]) -> Ordering {
    (found.table, found.depth, found.key).cmp(&(table, depth, key))
}

/// Returns the first line of a key of a table, at a depth.
pub(crate) fn line_of_key(
    keys: &[KeyLine<'_>],
    table: &[u8],
    depth: u64,
    key: &[u8],
) -> Option<u64> {
    let at = keys.partition_point(|found| order_to(found, table, depth, key).is_lt());
    match keys.get(at) {
        Some(found) if order_to(found, table, depth, key).is_eq() => Some(found.line),
        _ => None,
    }
}
