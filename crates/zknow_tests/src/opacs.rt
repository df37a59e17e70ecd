// OPAC records, worked out by hand from Z39.50-2003, Appendix REC: elements that are built again, and elements that are
// none.
use std::alloc::Global;
use std::process::Abort;
use std::test::Fail;
use zasn::{PartError, Parts, Production};
use zber::{Body, Node};
use zber_rows::rows::{each_row, element, encoding, pair, tells};
use zber_rows::unread::Unread;
use zopac::{Circulation, HoldingsAndCirc, OpacRecord, Volume, opac_node, read_opac};

// Records.
const BUILT: &str = "\
# Two copies with a bibliographic record: one that is lent, and one that is there, whose date is not shown.
3081efa16806072a8648ce13050a815d30303039336e616d2020323230303034393161203435303032343530303334303030303032363030303930\
30303033341e31301f6144756e65206d657373696168202f1f634672616e6b20486572626572741e20201f63313936351e1da28182a244890c4d61\
696e206c6962726172798a095265666572656e63658b0851413736202e48338d01329103762e33b3173015810100820a323032362d31322d303186\
01ff8701ffa23a880447794d428b0851413736202e48338e0f41736b20617420746865206465736bb31730158101ff820a323032362d31322d3031\
8601ff870100
# A record of nothing; one with an empty list of copies.
3000
3002a200
# Volumes, of which one is empty, and two items.
304da24ba24989064272616e6368b21d300b8103762e31820431393939300c830a762e32202832303030293000b320300e8101ff8601ff87010088\
03762e31300e8101008601ff8701ff8803762e32
# Copies of which nothing is said: of nothing, of empty lists, of an empty call number and an empty volume.
3012a210a200a204b200b300a2068b00b2023000
# Numbers of copies that have the word, which then stands once.
301da21ba2088d06436f70792031a2078d05434f505932a2068d04634f7079
# Controls, a character that turns the direction of text, and what is no UTF-8.
3018a216a21489071b5b324a610a628b03e280ae8d01ff8e0100
# Records of MARC in place of fields: with a title, and one that is no record.
307aa278a16806072a8648ce13050a815d30303039336e616d20203232303030343931612034353030323435303033343030303030323630303039\
3030303033341e31301f6144756e65206d657373696168202f1f634672616e6b20486572626572741e20201f63313936351e1da10c06072a8648ce\
13050a810178
";

// Whether the record's element is built again, with the lengths of the canonical encoding.
fn is_built(alloc: Global, node: &Node, record: &OpacRecord) -> Result<bool, Unread> {
    let Ok(due) = encoding(alloc, node) else {
        return Err(Unread);
    };
    match opac_node(alloc, record) {
        Ok(built) => Ok(tells(encoding(alloc, &built), due.as_str())),
        Err(_) => Err(Unread),
    }
}

fn is_read_back(alloc: Global, row: &str) -> Result<bool, Unread> {
    let Ok(node) = element(alloc, row) else {
        return Err(Unread);
    };
    match read_opac(alloc, &node) {
        Ok(record) => is_built(alloc, &node, &record),
        Err(_) => Err(Unread),
    }
}

#[test]
fn records_are_built_again(rt: HostRuntime) -> Result<(), Fail> {
    each_row(rt.alloc(), BUILT, is_read_back)
}

// Elements that are none, and how many of their parts stand before the first that is at fault.
const REFUSED: &str = "\
# OPACRecord: copies before the bibliographic record, another part behind, a part twice, another tag.
opac 3004a200a100 1
opac 3006a200a3028100 1
opac 3004a200a200 1
opac 3002a300 0
# An EXTERNAL with its own tag, one without content, one that is primitive; copies that are primitive.
opac 3007a105280381017f 0
opac 300ba10906072a8648ce13050a 0
opac 30028100 0
opac 30028200 0
# A copy with another tag, one that is primitive; the second copy at fault.
opac 3004a202a300 0
opac 3004a2028200 0
opac 3006a204a2008100 0
# HoldingsAndCircData: a note before the call number, a field twice, a field that says nothing of its kind.
copy a2048e008b00 1
copy a2048b008b00 1
copy a204ab028100 0
copy a2049100b400 1
# Volumes with another tag, circulation that is primitive or in the volumes' place.
copy a204b2023100 0
copy a2058b00930100 1
copy a20db20b3009810100860100870100 0
# Volume: the date before the number, another part.
volume 300481008400 1
volume 300482008100 1
# CircRecord: nothing, no renewable, no onHold, the date first, a truth value of two octets, something behind.
item 3000 0
item 3003810100 1
item 3006810100860100 2
item 300b8200810100860100870100 0
item 300a81020000860100870100 0
item 300c8101008601008701008b0178 3
";

// How many parts stand before the first at fault; none where there is no such part.
fn fault_of<T: Production>(alloc: Global, node: &Node) -> Option<usize> {
    let Body::Cons(nodes) = &node.body else {
        return None;
    };
    let mut parts = Parts::new(nodes.as_slice());
    let all = parts.len();
    match T::read(alloc, &mut parts) {
        Err(PartError::Misfit) => Some(all.saturating_sub(parts.len())),
        _ => None,
    }
}

fn fault_in(alloc: Global, kind: &str, node: &Node) -> Option<usize> {
    match kind {
        "opac" if read_opac(alloc, node).is_err() => fault_of::<OpacRecord>(alloc, node),
        "copy" => fault_of::<HoldingsAndCirc>(alloc, node),
        "volume" => fault_of::<Volume>(alloc, node),
        "item" => fault_of::<Circulation>(alloc, node),
        _ => None,
    }
}

fn is_refused(alloc: Global, row: &str) -> Result<bool, Unread> {
    let (kind, rest) = pair(row);
    let (digits, at) = pair(rest);
    let (Ok(node), Ok(at)) = (element(alloc, digits), at.parse::<usize>()) else {
        return Err(Unread);
    };
    Ok(fault_in(alloc, kind, &node) == Some(at))
}

#[test]
fn other_elements_are_refused_at_their_first_fault(rt: HostRuntime) -> Result<(), Fail> {
    each_row(rt.alloc(), REFUSED, is_refused)
}

// Elements of another tag, and a primitive one.
const OTHERS: &str = "\
3100
1000
a000
";

fn is_other(alloc: Global, row: &str) -> Result<bool, Unread> {
    match element(alloc, row) {
        Ok(node) => Ok(matches!(read_opac(alloc, &node), Err(PartError::Misfit))),
        Err(_) => Err(Unread),
    }
}

#[test]
fn elements_of_another_tag_are_refused(rt: HostRuntime) -> Result<(), Fail> {
    each_row(rt.alloc(), OTHERS, is_other)
}
