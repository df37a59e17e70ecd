// Canonical encodings of elements made by hand, worked out from X.690, 8.1.
use crate::elements::nested::nest_elements;
use bytes::Bytes;
use std::alloc::{AllocError, Global};
use std::process::Abort;
use std::test::Fail;
use zber::{Framer, Node, Tag};
use zber_rows::rows::{LIMIT, digits, each_row, encoding, pair, split_text, tells};
use zber_rows::unread::Unread;

// What an element is encoded as under a limit, behind an octet that is there before; a refusal leaves that alone.
fn encode_within(alloc: Global, node: &Node, limit: u32) -> Result<String, AllocError> {
    let Ok(mut out) = Vec::from_slice(alloc, &[0xaa]) else {
        return Err(AllocError);
    };
    let refused = node.encode(alloc, limit, &mut out).err();
    let Ok(text) = digits(alloc, out.as_slice()) else {
        return Err(AllocError);
    };
    match refused {
        None => Ok(text),
        Some(error) => format!(in alloc; "{error:?} {text}"),
    }
}

fn is_encoded(alloc: Global, node: &Node, limit: u32, due: &str) -> bool {
    tells(encode_within(alloc, node, limit), due)
}

// A Close, reason finished.
fn close(alloc: Global) -> Result<Node, AllocError> {
    let Ok(reason) = Node::of_int(alloc, Tag::context(211), 0) else {
        return Err(AllocError);
    };
    let Ok(nodes) = vec![in alloc; reason] else {
        return Err(AllocError);
    };
    Ok(Node::cons(Tag::context(48), nodes))
}

// Whether an element is encoded so within the limit of a row.
fn is_encoded_within(
    alloc: Global,
    node: Result<Node, AllocError>,
    limit: &str,
    due: &str,
) -> bool {
    match (node, limit.parse::<u32>()) {
        (Ok(node), Ok(limit)) => is_encoded(alloc, &node, limit, due),
        _ => false,
    }
}

// Limits, and what a Close is encoded as under them.
const LIMITS: &str = "\
8 aabf30059f81530100
7 TooLong aa
";

fn is_close(alloc: Global, row: &str) -> Result<bool, Unread> {
    let (limit, due) = pair(row);
    Ok(is_encoded_within(alloc, close(alloc), limit, due))
}

#[test]
fn a_close_is_encoded_up_to_its_length(rt: HostRuntime) -> Result<(), Fail> {
    each_row(rt.alloc(), LIMITS, is_close)
}

// Whether octets are one message and no more.
fn is_one_message(alloc: Global, octets: &[u8]) -> bool {
    let mut framer = Framer::new(alloc, LIMIT);
    framer.feed(octets).is_ok()
        && matches!(framer.next(), Ok(Some(_)))
        && matches!(framer.finish(), Ok(true))
}

fn is_read_again(alloc: Global, node: &Node) -> bool {
    let mut octets = Vec::new(alloc);
    node.encode(alloc, 1000, &mut octets).is_ok() && is_one_message(alloc, octets.as_slice())
}

fn are_read_again(alloc: Global, levels: u32) -> bool {
    match nest_elements(alloc, levels) {
        Ok(node) => is_read_again(alloc, &node),
        Err(_) => false,
    }
}

#[test]
fn sixty_four_levels_are_encoded(rt: HostRuntime) -> Result<(), Fail> {
    assert!(rt; are_read_again(rt.alloc(), 64));
    Ok(())
}

// Levels, limits, and refusals.
const LEVELS: &str = "\
64 7 TooLong aa
65 1000 TooDeep aa
65 7 TooDeep aa
";

fn is_refused(alloc: Global, row: &str) -> Result<bool, Unread> {
    let (levels, rest) = pair(row);
    let (limit, due) = pair(rest);
    let Ok(levels) = levels.parse::<u32>() else {
        return Err(Unread);
    };
    Ok(is_encoded_within(alloc, nest_elements(alloc, levels), limit, due))
}

#[test]
fn more_levels_or_octets_are_refused(rt: HostRuntime) -> Result<(), Fail> {
    each_row(rt.alloc(), LEVELS, is_refused)
}

// Whether the canonical encoding of an element begins with these digits.
fn begins_with(alloc: Global, node: &Node, digits: &str) -> bool {
    match encoding(alloc, node) {
        Ok(encoding) => encoding.as_str().starts_with(digits),
        Err(_) => false,
    }
}

fn nested_begin_with(alloc: Global, levels: u32, digits: &str) -> bool {
    match nest_elements(alloc, levels) {
        Ok(node) => begins_with(alloc, &node, digits),
        Err(_) => false,
    }
}

#[test]
fn any_number_of_levels_has_a_canonical_encoding(rt: HostRuntime) -> Result<(), Fail> {
    assert!(rt; nested_begin_with(rt.alloc(), 200, "308202"));
    Ok(())
}

// Numbers of context tags, how many octets stand under them, and what stands before the octets.
const HEADERS: &str = "\
0 0 8000
30 1 9e01
31 0 9f1f00
127 0 9f7f00
128 0 9f810000
16383 0 9fff7f00
16384 0 9f81800000
4294967295 0 9f8fffffff7f00
4 127 847f
4 128 848180
4 255 8481ff
4 256 84820100
4 65536 8483010000
";

// An element of so many octets 55.
fn fill_element(alloc: Global, number: u32, count: usize) -> Result<Node, Unread> {
    let Ok(octets) = vec![in alloc; 0x55; count] else {
        return Err(Unread);
    };
    let Ok(octets) = Bytes::from_vec(octets) else {
        return Err(Unread);
    };
    Ok(Node::prim(Tag::context(number), octets))
}

// What encodings of elements of so many octets have before the octets and behind the octet that was there.
fn has_header(alloc: Global, node: &Node, count: usize, header: &str) -> bool {
    let Ok(text) = encode_within(alloc, node, LIMIT) else {
        return false;
    };
    let (front, back) = split_text(text.as_str(), header.len().saturating_add(2));
    front.strip_prefix("aa") == Some(header) && back.len() == count.saturating_mul(2)
}

// Whether the encoding of so many octets is refused under each lower limit.
fn is_as_long(alloc: Global, node: &Node, length: u32) -> bool {
    let mut out = Vec::new(alloc);
    node.encode(alloc, length, &mut out).is_ok()
        && is_encoded(alloc, node, length.saturating_sub(1), "TooLong aa")
}

// Whether an element of so many octets has this header.
fn is_headed(alloc: Global, node: &Node, count: u32, header: &str) -> bool {
    let length = count.saturating_add(header.len().min(20) as u32 / 2);
    has_header(alloc, node, count as usize, header) && is_as_long(alloc, node, length)
}

fn is_header(alloc: Global, row: &str) -> Result<bool, Unread> {
    let (number, rest) = pair(row);
    let (count, header) = pair(rest);
    let (Ok(number), Ok(count)) = (number.parse::<u32>(), count.parse::<u32>()) else {
        return Err(Unread);
    };
    match fill_element(alloc, number, count as usize) {
        Ok(node) => Ok(is_headed(alloc, &node, count, header)),
        Err(_) => Err(Unread),
    }
}

#[test]
fn headers_are_the_shortest(rt: HostRuntime) -> Result<(), Fail> {
    each_row(rt.alloc(), HEADERS, is_header)
}
