// Elements of queries, which are written back, and so are their copies; and queries of opaque parts, worked out from
// Z39.50-2003, 4.1, and X.690.
use crate::queries::plain::{inner, is_query, print, query_copy, query_node, query_of};
use crate::queries::rows::{KEPT, OTHER_TAGS, TEXTED};
use bytes::Bytes;
use std::alloc::{AllocError, Global};
use std::process::Abort;
use std::test::Fail;
use zapdu_rows::boxes::box_value;
use zber::{Node, Oid, Seq, Tag};
use zber_rows::rows::{each_row, element, encoding, is_true, pair, tells};
use zber_rows::unread::{Unread, read};
use zquery::{Attr, AttrValue, BuildError, PrintError, Query, Rpn, TermValue};

fn is_written_as(alloc: Global, query: &Query, digits: &str) -> bool {
    let Ok(node) = query_node(alloc, query) else {
        return false;
    };
    tells(encoding(alloc, &node), digits)
}

fn is_copied_as(alloc: Global, query: &Query, digits: &str) -> bool {
    let Ok(copy) = query_copy(alloc, query) else {
        return false;
    };
    is_written_as(alloc, &copy, digits)
}

// Whether an element is a query that is written back, and so is its copy.
fn is_kept(alloc: Global, node: &Node) -> Result<bool, Unread> {
    let query = query_of(alloc, node)?;
    let digits = encoding(alloc, node)?;
    Ok(
        is_written_as(alloc, &query, digits.as_str())
            && is_copied_as(alloc, &query, digits.as_str()),
    )
}

fn is_kept_row(alloc: Global, row: &str) -> Result<bool, Unread> {
    is_kept(alloc, &element(alloc, row)?)
}

#[test]
fn queries_without_a_text_are_written_back(rt: HostRuntime) -> Result<(), Fail> {
    each_row(rt.alloc(), KEPT, is_kept_row)
}

fn is_kept_within(alloc: Global, row: &str) -> Result<bool, Unread> {
    match inner(&element(alloc, row)?) {
        Some(node) => is_kept(alloc, node),
        None => Err(Unread),
    }
}

#[test]
fn queries_with_a_text_are_written_back(rt: HostRuntime) -> Result<(), Fail> {
    each_row(rt.alloc(), TEXTED, is_kept_within)
}

// What stands before an operand, the operand, and what stands behind it, of queries in which 60 operators stand in one
// another: to the left, with each operator, and to the right. They have 64 levels.
const TOWERS: &str = "\
a180 a00abf6607bf2c009f2d0161 a00abf6607bf2c009f2d0162bf2e0280000000
a180 a00abf6607bf2c009f2d0161 a00abf6607bf2c009f2d0162bf2e0281000000
a180 a00abf6607bf2c009f2d0161 a00abf6607bf2c009f2d0162bf2e0282000000
a180 a00abf6607bf2c009f2d0161 a00abf6607bf2c009f2d0162bf2e02a3000000
a180a00abf6607bf2c009f2d0162 a00abf6607bf2c009f2d0161 bf2e0280000000
a180a00abf6607bf2c009f2d0162 a00abf6607bf2c009f2d0161 bf2e0281000000
a180a00abf6607bf2c009f2d0162 a00abf6607bf2c009f2d0161 bf2e0282000000
a180a00abf6607bf2c009f2d0162 a00abf6607bf2c009f2d0161 bf2e02a3000000
";

fn tower(alloc: Global, row: &str) -> Result<Node, Unread> {
    let (front, rest) = pair(row);
    let (operand, back) = pair(rest);
    let Ok(fronts) = front.repeat(alloc, 60) else {
        return Err(Unread);
    };
    let Ok(backs) = back.repeat(alloc, 60) else {
        return Err(Unread);
    };
    let Ok(digits) = format!(in alloc; "a18006072a8648ce130301{fronts}{operand}{backs}0000") else {
        return Err(Unread);
    };
    element(alloc, digits.as_str())
}

// A call that went twice into one side of each operator would not come back.
fn is_kept_high(alloc: Global, row: &str) -> Result<bool, Unread> {
    is_kept(alloc, &tower(alloc, row)?)
}

#[test]
fn queries_of_60_operators_in_one_another_are_written_back(rt: HostRuntime) -> Result<(), Fail> {
    each_row(rt.alloc(), TOWERS, is_kept_high)
}

fn is_none(alloc: Global, row: &str) -> Result<bool, Unread> {
    let Ok(node) = element(alloc, row) else {
        return Err(Unread);
    };
    Ok(matches!(is_query(alloc, &node), Ok(false)))
}

#[test]
fn elements_of_other_tags_are_no_queries(rt: HostRuntime) -> Result<(), Fail> {
    each_row(rt.alloc(), OTHER_TAGS, is_none)
}

// Whether the query has no text, and what was there before stays.
fn has_no_text(alloc: Global, query: &Query) -> Result<bool, AllocError> {
    let Ok(mut out) = b"kept".to_vec(alloc) else {
        return Err(AllocError);
    };
    let answer = print(alloc, query, &mut out);
    Ok(answer == Err(PrintError::NotPrintable) && out.as_slice() == b"kept".as_slice())
}

fn numeric(alloc: Global) -> Rpn {
    Rpn::Term {
        attrs: Seq::from_vec(Vec::new(alloc)),
        term: TermValue::Numeric(5),
    }
}

fn proximity_of(alloc: Global, operator: Node) -> Result<Rpn, AllocError> {
    let Ok(left) = Box::new(alloc, numeric(alloc)) else {
        return Err(AllocError);
    };
    let Ok(right) = Box::new(alloc, numeric(alloc)) else {
        return Err(AllocError);
    };
    Ok(Rpn::Prox(operator, left, right))
}

fn other(alloc: Global, node: Node) -> Rpn {
    Rpn::Term {
        attrs: Seq::from_vec(Vec::new(alloc)),
        term: TermValue::Other(node),
    }
}

// A term with one attribute, of which this is the value.
fn complex(alloc: Global, node: Node) -> Result<Rpn, AllocError> {
    let attr = Attr {
        attr_set: None,
        kind: 1,
        value: AttrValue::Complex(node),
    };
    let Ok(attrs) = vec![in alloc; attr] else {
        return Err(AllocError);
    };
    Ok(Rpn::Term {
        attrs: Seq::from_vec(attrs),
        term: TermValue::Numeric(5),
    })
}

// The query of a root under bib-1.
fn bib_1_query(alloc: Global, root: Rpn) -> Result<Box<Query>, Unread> {
    match Oid::from_arcs(alloc, &[1, 2, 840, 10003, 3, 1]) {
        Ok(attr_set) => read(box_value(alloc, Query { attr_set, root })),
        Err(_) => Err(Unread),
    }
}

// Numbers of context tags; and in which places of opaque parts an element of the tag may stand that is primitive, and
// one that is constructed: as a term, as the value of an attribute, as proximity.
const OPAQUE: &str = "\
0 ... ...
3 ... ..p
45 ... ...
121 ... ...
214 ... ...
215 ... ...
216 ... ...
217 t.. t..
218 t.. t..
219 t.. t..
220 t.. t..
221 t.. t..
222 ... ...
224 ... .c.
225 ... ...
";

fn is_spelt(alloc: Global, query: &Query) -> Result<bool, Unread> {
    match query_node(alloc, query) {
        Ok(_) => Ok(true),
        Err(BuildError::NotSpellable) => Ok(false),
        Err(BuildError::Memory) => Err(Unread),
    }
}

// The mark where the query of a root has an element, and a dot where it has none; it has no text.
fn mark(alloc: Global, root: Rpn, mark: char) -> Result<char, Unread> {
    let Ok(query) = bib_1_query(alloc, root) else {
        return Err(Unread);
    };
    if !is_true(has_no_text(alloc, &query)) {
        return Err(Unread);
    }
    match is_spelt(alloc, &query) {
        Ok(is) => Ok(if is { mark } else { '.' }),
        Err(error) => Err(error),
    }
}

fn term_mark(alloc: Global, node: &Node) -> Result<char, Unread> {
    let Ok(node) = node.copy(alloc) else {
        return Err(Unread);
    };
    mark(alloc, other(alloc, node), 't')
}

fn value_mark(alloc: Global, node: &Node) -> Result<char, Unread> {
    let Ok(node) = node.copy(alloc) else {
        return Err(Unread);
    };
    let Ok(root) = complex(alloc, node) else {
        return Err(Unread);
    };
    mark(alloc, root, 'c')
}

fn proximity_mark(alloc: Global, node: &Node) -> Result<char, Unread> {
    let Ok(node) = node.copy(alloc) else {
        return Err(Unread);
    };
    let Ok(root) = proximity_of(alloc, node) else {
        return Err(Unread);
    };
    mark(alloc, root, 'p')
}

// Three marks in a row.
fn marks(alloc: Global, node: &Node) -> Result<String, Unread> {
    let marks = (
        term_mark(alloc, node),
        value_mark(alloc, node),
        proximity_mark(alloc, node),
    );
    match marks {
        (Ok(term), Ok(value), Ok(proximity)) => read(format!(in alloc; "{term}{value}{proximity}")),
        _ => Err(Unread),
    }
}

fn primitive(alloc: Global, tag: Tag) -> Result<Node, AllocError> {
    match Bytes::copy_from_slice(alloc, b"x") {
        Ok(octets) => Ok(Node::prim(tag, octets)),
        Err(_) => Err(AllocError),
    }
}

fn primitive_marks(alloc: Global, tag: Tag) -> Result<String, Unread> {
    match primitive(alloc, tag) {
        Ok(node) => marks(alloc, &node),
        Err(_) => Err(Unread),
    }
}

fn constructed_marks(alloc: Global, tag: Tag) -> Result<String, Unread> {
    marks(alloc, &Node::cons(tag, Vec::new(alloc)))
}

fn has_marks(alloc: Global, row: &str) -> Result<bool, Unread> {
    let (number, due) = pair(row);
    let (primitive, constructed) = pair(due);
    let Ok(number) = number.parse::<u32>() else {
        return Err(Unread);
    };
    let tag = Tag::context(number);
    Ok(
        tells(primitive_marks(alloc, tag), primitive)
            && tells(constructed_marks(alloc, tag), constructed),
    )
}

#[test]
fn opaque_parts_have_the_tags_of_their_places(rt: HostRuntime) -> Result<(), Fail> {
    each_row(rt.alloc(), OPAQUE, has_marks)
}
