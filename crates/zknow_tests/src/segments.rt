// Strings in constructed form (X.690, 8.7.3 and 8.23): by themselves, and at each place of APDUs.
use crate::apdus::APDUS;
use crate::elements::shown::string;
use crate::plain::record_of;
use crate::queries::plain::{query_node, query_of};
use bytes::Bytes;
use std::alloc::{AllocError, Global};
use std::process::Abort;
use std::test::Fail;
use zapdu_rows::boxes::{apdu_node, apdu_of, record_node};
use zber::{Body, Node, Tag};
use zber_rows::rows::{each_row, element, encoding, pair, tells};
use zber_rows::unread::{Unread, read};

// Elements, and the octets of the strings that they are, or why they are none; a line with `#` says what those below it
// have.
pub(crate) const STRINGS: &str = "\
# The primitive form.
8100 -
81026869 6869
1a026869 6869
# No segment; one, with octets and without; three.
a100 -
2400 -
a1020400 -
a10404026869 6869
a109040168040004026921 686921
3a06040168040169 6869
2706040168040169 6869
# Segments within one another, none within them, and indefinite lengths.
a10f240304016824082403040169040121 686921
a10424022400 -
a106240424020400 -
a1800401682480040169000004000000 6869
# Segments of another class, of another number, of another kind of string; not the first one; within one another.
a103440168 WrongForm
a103840168 WrongForm
a103c40168 WrongForm
a103030168 WrongForm
a103050168 WrongForm
a1030c0168 WrongForm
a1031a0168 WrongForm
a1060401680c0169 WrongForm
a1060c0169040168 WrongForm
a105a403040168 WrongForm
a1053a03040168 WrongForm
a10524030c0168 WrongForm
a10a240304016824031a0169 WrongForm
";

fn is_string(alloc: Global, row: &str) -> Result<bool, Unread> {
    let (digits, due) = pair(row);
    let Ok(node) = element(alloc, digits) else {
        return Err(Unread);
    };
    Ok(tells(string(alloc, &node), due))
}

#[test]
fn strings_are_the_octets_of_their_segments(rt: HostRuntime) -> Result<(), Fail> {
    each_row(rt.alloc(), STRINGS, is_string)
}

pub(crate) fn apdu_encoding(alloc: Global, node: &Node) -> Result<String, Unread> {
    let Ok(apdu) = apdu_of(alloc, node) else {
        return Err(Unread);
    };
    let Ok(node) = apdu_node(alloc, &apdu) else {
        return Err(Unread);
    };
    read(encoding(alloc, &node))
}

// What a string is made into: one segment, three, three within one, none; and, for what none says, primitive with no
// octets.
#[derive(Clone, Copy)]
enum Form {
    One,
    Three,
    Nested,
    Bare,
    Empty,
}

fn segment(octets: Bytes) -> Node {
    Node::prim(Tag::universal(4), octets)
}

// The first third, nothing, and the rest.
fn three(alloc: Global, octets: &Bytes) -> Result<Vec<Node>, AllocError> {
    let third = octets.len() / 3;
    let (Ok(first), Ok(rest)) = (octets.slice(0..third), octets.slice(third..octets.len())) else {
        return Err(AllocError);
    };
    match vec![in alloc; segment(first), segment(Bytes::new()), segment(rest)] {
        Ok(nodes) => Ok(nodes),
        Err(_) => Err(AllocError),
    }
}

fn one(alloc: Global, node: Node) -> Result<Vec<Node>, AllocError> {
    match vec![in alloc; node] {
        Ok(nodes) => Ok(nodes),
        Err(_) => Err(AllocError),
    }
}

fn segments(alloc: Global, octets: &Bytes, form: Form) -> Result<Vec<Node>, AllocError> {
    match form {
        Form::One => match octets.clone() {
            Ok(octets) => one(alloc, segment(octets)),
            Err(_) => Err(AllocError),
        },
        Form::Three => three(alloc, octets),
        Form::Nested => match three(alloc, octets) {
            Ok(nodes) => one(alloc, Node::cons(Tag::universal(4), nodes)),
            Err(error) => Err(error),
        },
        Form::Bare | Form::Empty => Ok(Vec::new(alloc)),
    }
}

fn form_string(alloc: Global, tag: Tag, octets: &Bytes, form: Form) -> Result<Node, AllocError> {
    if matches!(form, Form::Empty) {
        return Ok(Node::prim(tag, Bytes::new()));
    }
    match segments(alloc, octets, form) {
        Ok(nodes) => Ok(Node::cons(tag, nodes)),
        Err(error) => Err(error),
    }
}

// A copy with the string at a place in another form; the element itself has place 0, and each the next one as it
// begins.
fn change_string(
    alloc: Global,
    node: &Node,
    place: &mut usize,
    form: Form,
) -> Result<Node, AllocError> {
    let here = *place == 0;
    *place = place.wrapping_sub(1);
    match &node.body {
        Body::Prim(octets) => {
            if here {
                form_string(alloc, node.tag, octets, form)
            } else {
                node.copy(alloc)
            }
        }
        Body::Cons(nodes) => {
            let mut copies = Vec::new(alloc);
            for node in nodes {
                let Ok(copy) = change_string(alloc, node, place, form) else {
                    return Err(AllocError);
                };
                if copies.push(copy).is_err() {
                    return Err(AllocError);
                }
            }
            Ok(Node::cons(node.tag, copies))
        }
    }
}

// The encoding of what an element says with the string at a place in another form.
fn encode_changed(alloc: Global, node: &Node, place: usize, form: Form) -> Result<String, Unread> {
    let mut place = place;
    match change_string(alloc, node, &mut place, form) {
        Ok(node) => apdu_encoding(alloc, &node),
        Err(_) => Err(Unread),
    }
}

// Whether each form of the string at a place that has octets says what the primitive one does.
fn is_one_value(alloc: Global, node: &Node, place: usize) -> bool {
    let Ok(due) = encoding(alloc, node) else {
        return false;
    };
    for form in [Form::One, Form::Three, Form::Nested] {
        if !tells(encode_changed(alloc, node, place, form), due.as_str()) {
            return false;
        }
    }
    true
}

// Whether both forms of no octets at a place say the same.
fn is_one_emptied(alloc: Global, node: &Node, place: usize) -> bool {
    match encode_changed(alloc, node, place, Form::Bare) {
        Ok(none) => tells(
            encode_changed(alloc, node, place, Form::Empty),
            none.as_str(),
        ),
        Err(_) => false,
    }
}

fn are_one_value_in(alloc: Global, node: &Node, places: &str) -> bool {
    for place in places.split(' ') {
        let Ok(place) = place.parse::<usize>() else {
            return false;
        };
        if !is_one_value(alloc, node, place) || !is_one_emptied(alloc, node, place) {
            return false;
        }
    }
    true
}

// The same of all places in a text; `-` stands for none.
fn are_one_value(alloc: Global, digits: &str, places: &str) -> bool {
    match element(alloc, digits) {
        Ok(node) => places == "-" || are_one_value_in(alloc, &node, places),
        Err(_) => false,
    }
}

// The places of the strings in the table of APDUs, line by line.
const PLACES: &str = "\
1 6
1
1 6 8 18
1
1 2
1 11
-
1 8 9 10 13
1 7 8 9 12
1 6 8 9 11 13
1 11
1 2 10
1 7 8
1
8 10
1 3 7
-
-
5
5 7 11 12 14 15
-
1 10 15 22 26 33 39 44 46
1
1
-
1 7 12 19 23 30 36 41 43
-
7
-
";

#[test]
fn each_string_of_an_apdu_has_either_form(rt: HostRuntime) -> Result<(), Fail> {
    for (row, places) in APDUS.lines().zip(PLACES.lines()) {
        let (digits, _) = pair(row);
        assert!(rt; are_one_value(rt.alloc(), digits, places), "{row}");
    }
    Ok(())
}

pub(crate) fn query_encoding(alloc: Global, node: &Node) -> Result<String, Unread> {
    let Ok(query) = query_of(alloc, node) else {
        return Err(Unread);
    };
    let Ok(node) = query_node(alloc, &query) else {
        return Err(Unread);
    };
    read(encoding(alloc, &node))
}

pub(crate) fn record_encoding(alloc: Global, node: &Node) -> Result<String, Unread> {
    let Ok(record) = record_of(alloc, node) else {
        return Err(Unread);
    };
    let Ok(node) = record_node(alloc, &record) else {
        return Err(Unread);
    };
    read(encoding(alloc, &node))
}
