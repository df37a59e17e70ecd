// Records by themselves, worked out from Z39.50-2003, 4.1 (NamePlusRecord), and X.690, 8.18 (EXTERNAL): texts with octets
// in hexadecimal, and fragments that are made by hand.
use crate::elements::nested::nest_elements;
use crate::plain::{record_of, record_text};
use std::alloc::{AllocError, Global};
use std::process::Abort;
use std::test::Fail;
use zapdu::{BuildError, Record, RecordBody, print_given_record};
use zapdu_rows::boxes::{box_value, record_node};
use zber::{Node, Tag};
use zber_rows::rows::{each_row, element, encoding, halves, pair, spells, split_row, tells};
use zber_rows::unread::{Unread, read};

// Elements, and their records' texts with the octets in hexadecimal: octets with an object identifier, elements,
// surrogates, fragments.
pub(crate) const PRINTED: &str =
    r#"hex 302180071f207e7f80225ca116a114281206072a8648ce13050a81071f207e7f80225c => rec 1.2.840.10003.5.10 "\x1f ~\x7f\x80\"\\" 1f207e7f80225c
hex 301a800164a115a113281106072a8648ce13050aa00630041a026869 => ber 301a800164a115a113281106072a8648ce13050aa00630041a026869
hex 3011800164a10ca10a2808a00630041a026869 => ber 3011800164a10ca10a2808a00630041a026869
hex 301e800164a119a217301506072a8648ce13040102010e1a071f207e7f80225c => diag "d" 1.2.840.10003.4.1 14 "\x1f ~\x7f\x80\"\\"
hex 300ca10aa2082806a0041a026869 => diag - ber 2806a0041a026869
hex 300b800164a106a3041a026869 => ber 300b800164a106a3041a026869
hex 300b800164a106a4041a026869 => ber 300b800164a106a4041a026869
hex 300b800164a106a5041a026869 => ber 300b800164a106a5041a026869
"#;

// The text of a record that is given away.
fn given_text(alloc: Global, node: &Node) -> Result<Vec<u8>, Unread> {
    let mut out = Vec::new(alloc);
    let given = zapdu::record_of(alloc, node)?.ok_or(Unread)?;
    print_given_record(alloc, given, true, &mut out)?;
    Ok(out)
}

fn is_printed(alloc: Global, row: &str) -> Result<bool, Unread> {
    let (_, rest) = pair(row);
    let (digits, due) = halves(rest);
    let node = element(alloc, digits)?;
    let record = record_of(alloc, &node)?;
    Ok(
        spells(record_text(alloc, &record, true), due.as_bytes())
            && spells(given_text(alloc, &node), due.as_bytes()),
    )
}

#[test]
fn records_of_each_form_are_printed(rt: HostRuntime) -> Result<(), Fail> {
    each_row(rt.alloc(), PRINTED, is_printed)
}

// Tags of a fragment and levels of elements within it, and its record's canonical encoding, which may have any number
// of levels, or nothing, where the tag is none of a fragment.
pub(crate) const MADE: &str = "\
3 0=3006a104a3028000
4 1=3008a106a40430028000
5 61=308180a17ea57c307a30783076307430723070306e306c306a30683066306430623060305e305c305a30583056305430523050304e304c304a30483046304430423040303e303c303a30383036303430323030302e302c302a30283026302430223020301e301c301a30183016301430123010300e300c300a30083006300430028000
3 62=308183a18180a37e307c307a30783076307430723070306e306c306a30683066306430623060305e305c305a30583056305430523050304e304c304a30483046304430423040303e303c303a30383036303430323030302e302c302a30283026302430223020301e301c301a30183016301430123010300e300c300a30083006300430028000
0 0=
1 0=
2 0=
6 0=
16 0=
131 0=
";

fn fragment(alloc: Global, tag: u32, levels: u32) -> Result<Box<Record>, AllocError> {
    let Ok(node) = nest_elements(alloc, levels) else {
        return Err(AllocError);
    };
    let Ok(nodes) = vec![in alloc; node] else {
        return Err(AllocError);
    };
    let body = RecordBody::Fragment(Node::cons(Tag::context(tag), nodes));
    box_value(alloc, Record { name: None, body })
}

// The digits of the record's element, and nothing where it has none.
fn spelling(alloc: Global, record: &Record) -> Result<String, Unread> {
    match record_node(alloc, record) {
        Ok(node) => read(encoding(alloc, &node)),
        Err(BuildError::NotSpellable) => Ok(String::new(alloc)),
        Err(BuildError::Memory) => Err(Unread),
    }
}

fn is_spelt(alloc: Global, record: &Record, due: &str) -> Result<bool, Unread> {
    let Ok(line) = format!(in alloc; "ber {due}") else {
        return Err(Unread);
    };
    Ok(
        spells(record_text(alloc, record, true), line.as_bytes())
            && tells(spelling(alloc, record), due),
    )
}

fn is_made(alloc: Global, row: &str) -> Result<bool, Unread> {
    let (place, due) = split_row(row, "=");
    let (tag, levels) = pair(place);
    let (Ok(tag), Ok(levels)) = (tag.parse::<u32>(), levels.parse::<u32>()) else {
        return Err(Unread);
    };
    match fragment(alloc, tag, levels) {
        Ok(record) => is_spelt(alloc, &record, due),
        Err(_) => Err(Unread),
    }
}

#[test]
fn fragments_of_other_tags_have_no_spelling(rt: HostRuntime) -> Result<(), Fail> {
    each_row(rt.alloc(), MADE, is_made)
}
