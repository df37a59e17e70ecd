// APDUs in octets, worked out by hand from Z39.50-2003, 4.1, and X.690, each tag of each production in one of them; and
// what they stand for. Of each kind one has all parts that may be absent, and one has none.
use crate::plain::apdu_copy;
use crate::printed::put_apdu;
use std::alloc::Global;
use std::process::Abort;
use std::test::Fail;
use zapdu::{Apdu, from_element};
use zapdu_rows::boxes::{apdu_node, apdu_of, box_value};
use zapdu_rows::parts::Line;
use zber::Node;
use zber_rows::rows::{each_row, element, encoding, message, octets, pair};
use zber_rows::unread::{Unread, read};

// Canonical encodings, and the fields.
pub(crate) const APDUS: &str =
    r#"b421820400000000830205e0840301c006850310000086031000009f6f057a6d657461 initRequest #00000000 111 110000000000011 1048576 1048576 - - "zmeta" - - -
b51c820400000000830205e0840301c006850310000086031000008c01ff initResponse #00000000 111 110000000000011 1048576 1048576 true - - - - -
b6418204000000018d01008e01018f01009001ff910131b2049f690164b524a12206072a8648ce130301a017bf6614bf2c0a30089f7801019f7901049f2d0464756e65 searchRequest #00000001 0 1 0 true "1" names "d" - - - query @attr 1=4 "dune" - -
b7128204000000019701019801009901019601ff searchResponse #00000001 1 0 1 true - - - - -
b8108204000000029f1f01319e01019d0101 presentRequest #00000002 "1" 1 1 - - - - - - -
b9268204000000029801019901029b0100bc153013a111a10f280d06072a8648ce13050a81026869 presentResponse #00000002 1 2 0 list record - external 1.2.840.10003.5.10 - - "hi" -
bf30059f81530100 close - 0 - - - -
b431820107830205e0840301c00685010a860114a7051a036162639f6e01699f6f016e9f700176ab06280481026869bf814900 initRequest #07 111 110000000000011 10 20 1a03616263 "i" "n" "v" external - - - "hi" bf814900
b52d820107830205e0840301c00685010a8601148c01ff9f6e01699f6f016e9f700176ab06280481026869bf814900 initResponse #07 111 110000000000011 10 20 true "i" "n" "v" external - - - "hi" bf814900
b6418201078d01018e01028f0103900100910173b2089f6901649f690165bf6403800142bf65038001469f68072a8648ce13050ab505a003040171bf814b00bf814900 searchRequest #07 1 2 3 false "s" names "d" "e" "B" "F" 1.2.840.10003.5.10 a003040171 bf814b00 bf814900
b72f8201079701019801029901039601ff9a01049b0105bf81020e06072a8648ce13040102010d1a00bf814b00bf814900 searchResponse #07 1 2 3 true 4 5 one diag 1.2.840.10003.4.1 13 v2 "" bf814b00 bf814900
b83a8201079f1f01319e01019d0102bf8154083006810103820104b3038001469f68072a8648ce13050a9f814c01059f814e0106bf814f00bf814900 presentRequest #07 "1" 1 2 ranges 3 4 "F" 1.2.840.10003.5.10 9f814c0105 9f814e0106 bf814f00 bf814900
b8189f1f01319e01019d0102b30ca10a30089f6901649f670146 presentRequest - "1" 1 2 - specific "d" "F" - - - - -
b80e9f1f01319e01019d0102bf815100 presentRequest - "1" 1 2 - bf815100 - - - - -
b9279801009901009b0105bf814d16300e06072a8648ce13040102010d1a00280481026869bf814900 presentResponse - 0 0 5 many diag 1.2.840.10003.4.1 13 v2 "" external - - - "hi" bf814900
bf30208201079f8153010283017884072a8648ce130301a506280481026869bf814900 close #07 2 "x" 1.2.840.10003.3.1 external - - - "hi" bf814900
b40e830205e0840200c085010a860114 initRequest - 111 11000000 10 20 - - - - - -
b511830205e0840200c085010a8601148c0100 initResponse - 111 11000000 10 20 false - - - - -
b6158d01018e01028f0103900100910173b200b5020400 searchRequest - 1 2 3 false "s" names - - - 0400 - -
b6378d01018e01028f0103900100910173b2049f690164bf6416a11430089f6901649f67014230089f6901659f670146bf6502a100b5028200 searchRequest - 1 2 3 false "s" names "d" specific "d" "B" "e" "F" specific - 8200 - -
b70c970101980100990101960100 searchResponse - 1 0 1 false - - - - -
b781a28201079701019801009901019601009a01049b0105bc81823016800164a111a10f280d06072a8648ce13050a81026869301aa118a116281406072a8648ce13050a020103070174a0030401aa300f8000a10ba10928070201ff820205a03019800164a114a212301006072a8648ce13040102010e1b026e6f3008a106a204280281003008800164a1038301613006a104a40205003004a102a500bf814b00bf814900 searchResponse #07 1 0 1 false 4 5 list record "d" external 1.2.840.10003.5.10 - - "hi" record - external 1.2.840.10003.5.10 3 "t" 0401aa record "" external - -1 - 101 record "d" diag 1.2.840.10003.4.1 14 v3 "no" record - external - - - "" record "d" 830161 record - a4020500 record - a500 bf814b00 bf814900
b80a9f1f01319e01019d0102 presentRequest - "1" 1 2 - - - - - - -
b8129f1f01319e01019d0102bf815400bf814e00 presentRequest - "1" 1 2 ranges - - - bf814e00 - -
b9099801009901009b0105 presentResponse - 0 0 5 - -
b981958201079801089901009b0100bc81823016800164a111a10f280d06072a8648ce13050a81026869301aa118a116281406072a8648ce13050a020103070174a0030401aa300f8000a10ba10928070201ff820205a03019800164a114a212301006072a8648ce13040102010e1b026e6f3008a106a204280281003008800164a1038301613006a104a40205003004a102a500bf814900 presentResponse #07 8 0 0 list record "d" external 1.2.840.10003.5.10 - - "hi" record - external 1.2.840.10003.5.10 3 "t" 0401aa record "" external - -1 - 101 record "d" diag 1.2.840.10003.4.1 14 v3 "no" record - external - - - "" record "d" 830161 record - a4020500 record - a500 bf814900
b90b9801009901009b0100bc00 presentResponse - 0 0 0 list -
b91b9801009901009b0105bf81020e06072a8648ce13040102010d1a00 presentResponse - 0 0 5 one diag 1.2.840.10003.4.1 13 v2 "" -
b90d9801009901009b0105bf814d00 presentResponse - 0 0 5 many -
"#;

fn apdu_encoding(alloc: Global, apdu: &Apdu) -> Result<String, Unread> {
    let Ok(node) = apdu_node(alloc, apdu) else {
        return Err(Unread);
    };
    read(encoding(alloc, &node))
}

// Whether this is an APDU's canonical encoding and its fields.
fn has_line(alloc: Global, apdu: &Apdu, due: &str) -> Result<bool, Unread> {
    let Ok(encoding) = apdu_encoding(alloc, apdu) else {
        return Err(Unread);
    };
    let mut line = Line::new(alloc);
    line.put(encoding.as_bytes());
    put_apdu(alloc, apdu, &mut line);
    Ok(line.is(due.as_bytes()))
}

fn has_line_copied(alloc: Global, apdu: &Apdu, due: &str) -> Result<bool, Unread> {
    let Ok(copy) = apdu_copy(alloc, apdu) else {
        return Err(Unread);
    };
    has_line(alloc, &copy, due)
}

// Whether an element is an APDU of which a copy has this line.
fn stands_for(alloc: Global, node: &Node, due: &str) -> Result<bool, Unread> {
    let Ok(apdu) = apdu_of(alloc, node) else {
        return Err(Unread);
    };
    has_line_copied(alloc, &apdu, due)
}

// A copy of the message that octets spell, which is gone by then.
fn copy_of(alloc: Global, octets: &[u8]) -> Result<Node, Unread> {
    let node = message(alloc, octets)?;
    read(node.copy(alloc))
}

// Whether octets spell an APDU of this line.
pub(crate) fn is_line(alloc: Global, octets: &[u8], due: &str) -> Result<bool, Unread> {
    stands_for(alloc, &copy_of(alloc, octets)?, due)
}

fn is_read(alloc: Global, row: &str) -> Result<bool, Unread> {
    let (digits, _) = pair(row);
    let Ok(octets) = octets(alloc, digits) else {
        return Err(Unread);
    };
    is_line(alloc, octets.as_slice(), row)
}

#[test]
fn each_apdu_is_read_and_written(rt: HostRuntime) -> Result<(), Fail> {
    each_row(rt.alloc(), APDUS, is_read)
}

// Whether an element that is given away is an APDU of this line.
fn is_given(alloc: Global, row: &str) -> Result<bool, Unread> {
    let (digits, _) = pair(row);
    let apdu = read(from_element(alloc, element(alloc, digits)?))?;
    let apdu = box_value(alloc, apdu)?;
    has_line(alloc, &apdu, row)
}

#[test]
fn each_apdu_is_read_from_an_element_given_away(rt: HostRuntime) -> Result<(), Fail> {
    each_row(rt.alloc(), APDUS, is_given)
}
