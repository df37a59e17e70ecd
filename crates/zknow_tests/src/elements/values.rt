// Values in contents octets, worked out from X.690, 8.2, 8.3, 8.6 to 8.8 and 8.19.
use crate::elements::shown::{bit_digits, refusal, string};
use bytes::Bytes;
use std::alloc::{AllocError, Global};
use std::process::Abort;
use std::test::Fail;
use zber::{Node, Tag};
use zber_rows::rows::{each_row, octets, pair, tells};
use zber_rows::unread::Unread;

// Types, contents and values: integers next to each power of 256 and its half, the first bits of 10111011 10111011 1.
const VALUES: &str = "\
integer 00 0
integer 01 1
integer ff -1
integer 7f 127
integer 0080 128
integer 80 -128
integer ff7f -129
integer 00ff 255
integer 0100 256
integer ff01 -255
integer ff00 -256
integer feff -257
integer 7fff 32767
integer 008000 32768
integer 8000 -32768
integer ff7fff -32769
integer 7fffff 8388607
integer 00800000 8388608
integer 800000 -8388608
integer ff7fffff -8388609
integer 7fffffff 2147483647
integer 0080000000 2147483648
integer 80000000 -2147483648
integer ff7fffffff -2147483649
integer 7fffffffff 549755813887
integer 008000000000 549755813888
integer 8000000000 -549755813888
integer ff7fffffffff -549755813889
integer 7fffffffffff 140737488355327
integer 00800000000000 140737488355328
integer 800000000000 -140737488355328
integer ff7fffffffffff -140737488355329
integer 7fffffffffffff 36028797018963967
integer 0080000000000000 36028797018963968
integer 80000000000000 -36028797018963968
integer ff7fffffffffffff -36028797018963969
integer 7fffffffffffffff 9223372036854775807
integer 8000000000000000 -9223372036854775808
bits 00 -
bits 0780 1
bits 0680 10
bits 05a0 101
bits 04b0 1011
bits 03b8 10111
bits 02b8 101110
bits 01ba 1011101
bits 00bb 10111011
bits 07bb80 101110111
bits 06bb80 1011101110
bits 05bba0 10111011101
bits 04bbb0 101110111011
bits 03bbb8 1011101110111
bits 02bbb8 10111011101110
bits 01bbba 101110111011101
bits 00bbbb 1011101110111011
bits 07bbbb80 10111011101110111
bits 01c006 110000000000011
boolean ff true
boolean 00 false
null - null
octets 64756e65 64756e65
octets - -
oid 8837 2.999
oid 2a 1.2
oid 00 0.0
oid 4f 1.39
oid 50 2.0
oid 2a8648ce13050a 1.2.840.10003.5.10
oid 908080804f 2.4294967295
oid 908080804f8fffffff7f 2.4294967295.4294967295
";

// The same of contents that are not written, each with its value or why it has none; `()` stands for a constructed
// element.
const READ: &str = "\
integer 000001 1
integer ffff -1
integer - WrongLength
integer 000000000000000000 IntegerTooLarge
integer () WrongForm
bits 04ff 1111
bits - WrongLength
bits 01 WrongLength
bits 08ff WrongLength
bits ffff WrongLength
bits () WrongForm
boolean 01 true
boolean 80 true
boolean - WrongLength
boolean 0000 WrongLength
boolean () WrongForm
null 00 WrongLength
null () WrongForm
octets () -
oid - BadOid
oid 8001 BadOid
oid 2a8001 BadOid
oid 2a86 BadOid
oid 9080808050 BadOid
oid 2a9080808000 BadOid
oid 2affffffffffffffffffffff7f BadOid
oid () WrongForm
";

// An element with these contents.
fn node_of(alloc: Global, digits: &str) -> Result<Node, Unread> {
    if digits == "()" {
        return Ok(Node::cons(Tag::context(1), Vec::new(alloc)));
    }
    let Ok(octets) = octets(alloc, digits) else {
        return Err(Unread);
    };
    let Ok(contents) = Bytes::from_vec(octets) else {
        return Err(Unread);
    };
    let tag = Tag::context(1);
    Ok(Node::prim(tag, contents))
}

fn integer(alloc: Global, node: &Node) -> Result<String, AllocError> {
    match node.as_int() {
        Ok(number) => number.to_string(alloc),
        Err(error) => refusal(alloc, error),
    }
}

fn boolean(alloc: Global, node: &Node) -> Result<String, AllocError> {
    match node.as_bool() {
        Ok(value) => value.to_string(alloc),
        Err(error) => refusal(alloc, error),
    }
}

fn null(alloc: Global, node: &Node) -> Result<String, AllocError> {
    match node.as_null() {
        Ok(()) => String::from_str(alloc, "null"),
        Err(error) => refusal(alloc, error),
    }
}

fn identifier(alloc: Global, node: &Node) -> Result<String, AllocError> {
    match node.as_oid(alloc) {
        Ok(oid) => oid.text(alloc),
        Err(error) => refusal(alloc, error),
    }
}

fn bits(alloc: Global, node: &Node) -> Result<String, AllocError> {
    match node.as_bits(alloc) {
        Ok(bits) => bit_digits(alloc, &bits, bits.len()),
        Err(error) => refusal(alloc, error),
    }
}

// The value of an element, or why it has none.
fn read(alloc: Global, kind: &str, node: &Node) -> Result<String, AllocError> {
    match kind {
        "integer" => integer(alloc, node),
        "boolean" => boolean(alloc, node),
        "null" => null(alloc, node),
        "octets" => string(alloc, node),
        "oid" => identifier(alloc, node),
        _ => bits(alloc, node),
    }
}

fn is_read(alloc: Global, row: &str) -> Result<bool, Unread> {
    let (kind, rest) = pair(row);
    let (digits, value) = pair(rest);
    let Ok(node) = node_of(alloc, digits) else {
        return Err(Unread);
    };
    Ok(tells(read(alloc, kind, &node), value))
}

#[test]
fn values_are_read(rt: HostRuntime) -> Result<(), Fail> {
    each_row(rt.alloc(), VALUES, is_read)
}

#[test]
fn other_contents_are_read_or_refused(rt: HostRuntime) -> Result<(), Fail> {
    each_row(rt.alloc(), READ, is_read)
}

// Contents, and the first 20 bits that they say.
const FIRST: &str = "\
01c006 11000000000001100000
04ff 11110000000000000000
";

fn are_first(alloc: Global, row: &str) -> Result<bool, Unread> {
    let (digits, due) = pair(row);
    let Ok(node) = node_of(alloc, digits) else {
        return Err(Unread);
    };
    let Ok(bits) = node.as_bits(alloc) else {
        return Err(Unread);
    };
    Ok(tells(bit_digits(alloc, &bits, 20), due))
}

#[test]
fn bits_past_the_end_are_not_set(rt: HostRuntime) -> Result<(), Fail> {
    each_row(rt.alloc(), FIRST, are_first)
}
