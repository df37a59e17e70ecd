// Encodings that are cut off, and encodings of which one octet is another.
use crate::collected::encodings;
use crate::elements::scripts::answers_as;
use crate::plain::{apdu_refusal, diag_of, is_diag, is_record};
use crate::queries::plain::{inner, is_query};
use crate::segments::{apdu_encoding, query_encoding, record_encoding};
use std::alloc::{AllocError, Global};
use std::process::Abort;
use std::test::Fail;
use zapdu::ApduError;
use zapdu_rows::boxes::diag_node;
use zber::{FaultKind, FrameError, Framer, Node};
use zber_rows::rows::{LIMIT, each_row, element, encoding, octets, pair, split_text, tells};
use zber_rows::unread::{Unread, read};

// Whether the first so many octets are told to be cut off there.
fn is_truncated(alloc: Global, digits: &str, at: usize) -> bool {
    let (first, _) = split_text(digits, at.saturating_mul(2));
    answers_as(
        alloc,
        format!(in alloc; "{first} next finish"),
        format!(in alloc; "nothing;Truncated at {at};"),
    )
}

fn is_waiting(framer: &mut Framer) -> bool {
    matches!(framer.next(), Ok(None))
}

// How many octets stand before the one with which a message or a fault comes, of octets that are fed one by one.
fn octets_before(framer: &mut Framer, octets: &[u8]) -> Option<usize> {
    for (before, octet) in octets.iter().enumerate() {
        if framer.feed(&[*octet]).is_err() {
            return None;
        }
        if !is_waiting(framer) {
            return Some(before);
        }
    }
    None
}

fn octets_before_answer(alloc: Global, digits: &str) -> Option<usize> {
    let mut framer = Framer::new(alloc, LIMIT);
    match octets(alloc, digits) {
        Ok(octets) => octets_before(&mut framer, octets.as_slice()),
        Err(_) => None,
    }
}

fn is_truncated_anywhere(alloc: Global, digits: &str) -> Result<bool, Unread> {
    let Some(count) = octets_before_answer(alloc, digits) else {
        return Err(Unread);
    };
    for before in 0..count {
        if !is_truncated(alloc, digits, before.saturating_add(1)) {
            return Ok(false);
        }
    }
    Ok(true)
}

#[test]
fn each_front_of_an_encoding_is_truncated(rt: HostRuntime) -> Result<(), Fail> {
    let rows = encodings(rt.alloc())?;
    each_row(rt.alloc(), rows.as_str(), is_truncated_anywhere)
}

fn own_encoding(alloc: Global, node: &Node) -> Result<String, Unread> {
    read(encoding(alloc, node))
}

fn diag_encoding(alloc: Global, node: &Node) -> Result<String, Unread> {
    let Ok(diag) = diag_of(alloc, node) else {
        return Err(Unread);
    };
    let Ok(node) = diag_node(alloc, &diag) else {
        return Err(Unread);
    };
    read(encoding(alloc, &node))
}

// Whether what an element says is read back from its encoding.
fn is_read_back(
    alloc: Global,
    node: &Node,
    says: fn(Global, &Node) -> Result<String, Unread>,
) -> bool
    requires { IsAlwaysCallable says }
{
    let Ok(digits) = says(alloc, node) else {
        return false;
    };
    match element(alloc, digits.as_str()) {
        Ok(again) => tells(says(alloc, &again), digits.as_str()),
        Err(_) => false,
    }
}

// Whether an element is an APDU that is read back, or is refused as one by name.
fn is_apdu_or_none(alloc: Global, node: &Node) -> bool {
    match apdu_refusal(alloc, node) {
        None => is_read_back(alloc, node, apdu_encoding),
        Some(ApduError::Memory) => false,
        Some(_) => true,
    }
}

// Whether an element is something that is read back, or is not; neither where that could not be told.
fn is_none_or(
    alloc: Global,
    node: &Node,
    is: Result<bool, AllocError>,
    says: fn(Global, &Node) -> Result<String, Unread>,
) -> bool
    requires { IsAlwaysCallable says }
{
    match is {
        Ok(true) => is_read_back(alloc, node, says),
        Ok(false) => true,
        Err(_) => false,
    }
}

// Whether an element is read back, and so is all that it can be taken for.
fn is_told(alloc: Global, node: &Node) -> bool {
    is_read_back(alloc, node, own_encoding)
        && is_apdu_or_none(alloc, node)
        && is_none_or(alloc, node, is_query(alloc, node), query_encoding)
        && is_none_or(alloc, node, is_record(alloc, node), record_encoding)
        && is_none_or(alloc, node, is_diag(alloc, node), diag_encoding)
}

// The same of an element and of the first one within it, as a query stands in an element around it.
fn are_told(alloc: Global, node: &Node) -> bool {
    is_told(alloc, node)
        && match inner(node) {
            Some(inner) => is_told(alloc, inner),
            None => true,
        }
}

fn is_cut_off(framer: &Framer, count: usize) -> bool {
    matches!(
        framer.finish(),
        Err(FrameError::Fault { kind: FaultKind::Truncated, at }) if at == count
    )
}

fn is_next_answered(alloc: Global, framer: &mut Framer, count: usize) -> bool {
    match framer.next() {
        Ok(None) => is_cut_off(framer, count),
        Ok(Some(node)) => are_told(alloc, &node),
        Err(FrameError::Fault { kind, at }) => kind != FaultKind::Truncated && at <= count,
        Err(FrameError::Memory) => false,
    }
}

// Whether octets are cut off, or begin with a message that is told, or show a fault at one of them or
// behind them, where a header is due that passes the end.
fn is_answered(alloc: Global, octets: &[u8]) -> bool {
    let mut framer = Framer::new(alloc, LIMIT);
    framer.feed(octets).is_ok() && is_next_answered(alloc, &mut framer, octets.len())
}

fn flip(octets: &mut [u8], at: usize, mask: u8) {
    if let Some(octet) = octets.get_mut(at) {
        *octet = *octet ^ mask;
    }
}

// Of an octet the lowest bits, the bit that tells forms of elements apart, the highest bits, and all bits are changed.
fn is_answered_changed(alloc: Global, octets: &mut [u8], at: usize) -> bool {
    for mask in [0x01, 0x02, 0x20, 0x40, 0x80, 0xff_u8] {
        flip(octets, at, mask);
        if !is_answered(alloc, octets) {
            return false;
        }
        flip(octets, at, mask);
    }
    true
}

fn is_answered_changed_anywhere(alloc: Global, digits: &str) -> Result<bool, Unread> {
    let Ok(mut octets) = octets(alloc, digits) else {
        return Err(Unread);
    };
    for at in 0..octets.len() {
        if !is_answered_changed(alloc, octets.as_mut_slice(), at) {
            return Ok(false);
        }
    }
    Ok(true)
}

#[test]
fn each_changed_octet_of_an_encoding_is_answered(rt: HostRuntime) -> Result<(), Fail> {
    let rows = encodings(rt.alloc())?;
    each_row(rt.alloc(), rows.as_str(), is_answered_changed_anywhere)
}

// How many strings of octets are the front of a message, are an APDU, are another message, and show a fault; and the
// sum of the numbers at which they are refused.
#[derive(Clone, Copy)]
struct Tally {
    fronts: u64,
    apdus: u64,
    others: u64,
    malformed: u64,
    faults: u64,
    places: u64,
}

impl Tally {
    fn put_message(&mut self, alloc: Global, node: &Node) -> Result<(), Unread> {
        match apdu_refusal(alloc, node) {
            None => self.apdus = self.apdus.saturating_add(1),
            Some(ApduError::NotApdu) => self.others = self.others.saturating_add(1),
            Some(ApduError::Malformed { at, .. }) => {
                self.malformed = self.malformed.saturating_add(1);
                self.places = self.places.saturating_add(at as u64);
            }
            Some(ApduError::Memory) => return Err(Unread),
        }
        Ok(())
    }

    fn put_next(&mut self, alloc: Global, framer: &mut Framer) -> Result<(), Unread> {
        match framer.next() {
            Ok(None) => self.fronts = self.fronts.saturating_add(1),
            Ok(Some(node)) => return self.put_message(alloc, &node),
            Err(FrameError::Fault { at, .. }) => {
                self.faults = self.faults.saturating_add(1);
                self.places = self.places.saturating_add(at as u64);
            }
            Err(FrameError::Memory) => return Err(Unread),
        }
        Ok(())
    }

    fn put(&mut self, alloc: Global, octets: &[u8]) -> Result<(), Unread> {
        let mut framer = Framer::new(alloc, LIMIT);
        match framer.feed(octets) {
            Ok(()) => self.put_next(alloc, &mut framer),
            Err(_) => Err(Unread),
        }
    }

    // Each other value of one octet.
    fn put_others(&mut self, alloc: Global, octets: &mut [u8], at: usize) -> Result<(), Unread> {
        for mask in 1..=255_u8 {
            flip(octets, at, mask);
            if self.put(alloc, octets).is_err() {
                return Err(Unread);
            }
            flip(octets, at, mask);
        }
        Ok(())
    }
}

// Messages, and of those that one octet makes of them how many are fronts, APDUs, other messages, malformed APDUs and
// faults, and the sum of the places; as another reader tells them, which was written in another language.
const CHANGED: &str = "\
b421820400000000830205e0840301c006850310000086031000009f6f057a6d657461 99 4608 240 1228 2750 47506
b51c820400000000830205e0840301c006850310000086031000008c01ff 100 3585 240 1254 2471 39682
b6418204000000018d01008e01018f01009001ff910131b2049f690164b524a12206072a8648ce130301a017bf6614bf2c0a30089f7801019f7901049f2d0464756e65 67 5977 240 2720 8081 300759
b7128204000000019701039801009901019601ff 110 2040 240 636 2074 22888
b83a8201079f1f01319e01019d0102bf8154083006810103820104b3038001469f68072a8648ce13050a9f814c01059f814e0106bf814f00bf814900 79 3967 240 3366 7648 254465
b9808204000000029801019901029b0100bc803015a113a1112882000d06072a8648ce13050a8102686900000000 912 3960 117 2044 4697 118974
bf30208201079f8153010283017884072a8648ce130301a506280481026869bf814900 346 2938 103 1660 3878 70448
";

fn tally_changes(alloc: Global, digits: &str) -> Result<Tally, Unread> {
    let Ok(mut octets) = octets(alloc, digits) else {
        return Err(Unread);
    };
    let mut tally = Tally {
        fronts: 0,
        apdus: 0,
        others: 0,
        malformed: 0,
        faults: 0,
        places: 0,
    };
    for at in 0..octets.len() {
        if tally.put_others(alloc, octets.as_mut_slice(), at).is_err() {
            return Err(Unread);
        }
    }
    Ok(tally)
}

fn has_tally(alloc: Global, row: &str) -> Result<bool, Unread> {
    let (digits, due) = pair(row);
    let Ok(of) = tally_changes(alloc, digits) else {
        return Err(Unread);
    };
    let told = format!(in alloc;
        "{} {} {} {} {} {}",
        of.fronts, of.apdus, of.others, of.malformed, of.faults, of.places
    );
    Ok(tells(told, due))
}

#[test]
fn each_changed_octet_is_told(rt: HostRuntime) -> Result<(), Fail> {
    each_row(rt.alloc(), CHANGED, has_tally)
}
