// Octets in pieces: a cut changes no answer, and each octet is looked at once (X.690, 8.1).
use crate::elements::framing::FAULTS;
use crate::elements::scripts::answers_as;
use std::alloc::Global;
use std::process::Abort;
use std::test::Fail;
use zber::{Body, FrameError, Framer, Node};
use zber_rows::rows::{LIMIT, each_row, octets, pair, split_row, split_text};
use zber_rows::unread::Unread;

// Octets, and behind them others so many times: `OCTETS COUNT OCTETS`.
fn stream(alloc: Global, row: &str) -> Result<Vec<u8>, Unread> {
    let (digits, rest) = pair(row);
    let (count, more) = pair(rest);
    let Ok(mut stream) = octets(alloc, digits) else {
        return Err(Unread);
    };
    let Ok(more) = octets(alloc, more) else {
        return Err(Unread);
    };
    let Ok(count) = count.parse::<u32>() else {
        return Err(Unread);
    };
    for _ in 0..count {
        if stream.extend_from_slice(more.as_slice()).is_err() {
            return Err(Unread);
        }
    }
    Ok(stream)
}

fn is_message(framer: &mut Framer) -> bool {
    matches!(framer.next(), Ok(Some(_)))
}

// Whether the last octet ends a message and no other does, of octets that are fed one by one with a question after each.
fn ends_last(framer: &mut Framer, stream: &[u8]) -> bool {
    let last = stream.len().saturating_sub(1);
    for (before, octet) in stream.iter().enumerate() {
        if framer.feed(&[*octet]).is_err() || is_message(framer) != (before == last) {
            return false;
        }
    }
    true
}

// Whether it has looked at a number of octets between the first two, and passed over so many as the third.
fn has_counts(framer: &Framer, due: &str) -> bool {
    let (least, rest) = pair(due);
    let (most, skipped) = pair(rest);
    match (
        least.parse::<u64>(),
        most.parse::<u64>(),
        skipped.parse::<u64>(),
    ) {
        (Ok(least), Ok(most), Ok(skipped)) => {
            least <= framer.examined() && framer.examined() <= most && framer.skipped() == skipped
        }
        _ => false,
    }
}

// Octets that are one message, the least and the most of them that are looked at, and how many are passed over. A
// framer that began anew at each question would look at 80,001,000,000 octets of the second.
const COUNTED: &str = "\
b9268204000000029801019901029b0100bc153013a111a10f280d06072a8648ce13050a81026869 0 -: 24 40 16
b9808204000000029801019901029b0100bc803015a113a1112882000d06072a8648ce13050a8102686900000000 0 -: 30 46 16
3083061a80 200000 0500: 400005 400005 0
04831ffffb 2097147 2a: 5 2097152 2097147
";

fn has_counts_after(alloc: Global, stream: &[u8], due: &str) -> bool {
    let mut framer = Framer::new(alloc, LIMIT);
    ends_last(&mut framer, stream) && has_counts(&framer, due)
}

fn is_counted(alloc: Global, row: &str) -> Result<bool, Unread> {
    let (octets, due) = split_row(row, ": ");
    match stream(alloc, octets) {
        Ok(stream) => Ok(has_counts_after(alloc, stream.as_slice(), due)),
        Err(_) => Err(Unread),
    }
}

#[test]
fn each_octet_is_looked_at_once(rt: HostRuntime) -> Result<(), Fail> {
    each_row(rt.alloc(), COUNTED, is_counted)
}

// Whether there are so many messages and nothing more.
fn gives(framer: &mut Framer, count: u32) -> bool {
    for _ in 0..count {
        if !is_message(framer) {
            return false;
        }
    }
    matches!(framer.next(), Ok(None)) && matches!(framer.finish(), Ok(true))
}

fn gives_at_once(alloc: Global, stream: &[u8], count: u32) -> bool {
    let mut framer = Framer::new(alloc, LIMIT);
    framer.feed(stream).is_ok() && gives(&mut framer, count)
}

// Two megabytes; a framer that moved what is left at each message would move 262 gigabytes.
fn come_in_one_piece(alloc: Global, row: &str, count: u32) -> bool {
    match stream(alloc, row) {
        Ok(stream) => gives_at_once(alloc, stream.as_slice(), count),
        Err(_) => false,
    }
}

#[test]
fn many_messages_come_in_one_piece(rt: HostRuntime) -> Result<(), Fail> {
    assert!(rt; come_in_one_piece(rt.alloc(), "- 250000 bf30059f81530100", 250_000));
    Ok(())
}

// Whether it comes with the second of two pieces, the first of which has so many digits.
fn comes_behind(alloc: Global, digits: &str, due: &str, place: usize) -> bool {
    let (first, second) = split_text(digits, place);
    answers_as(
        alloc,
        format!(in alloc; "{first} next {second} next"),
        format!(in alloc; "nothing;{due};"),
    )
}

fn comes_behind_each_cut(alloc: Global, row: &str) -> Result<bool, Unread> {
    let (digits, due) = pair(row);
    for place in 0..digits.len() {
        if place % 2 == 0 && !comes_behind(alloc, digits, due, place) {
            return Ok(false);
        }
    }
    Ok(true)
}

#[test]
fn a_fault_is_the_same_behind_each_cut(rt: HostRuntime) -> Result<(), Fail> {
    each_row(rt.alloc(), FAULTS, comes_behind_each_cut)
}

// Messages of five elements, in definite and in indefinite lengths.
const MESSAGES: &str = "\
b9268204000000029801019901029b0100bc153013a111a10f280d06072a8648ce13050a81026869 elements 5
b9808204000000029801019901029b0100bc803015a113a1112882000d06072a8648ce13050a8102686900000000 elements 5
";

#[test]
fn a_message_is_the_same_behind_each_cut(rt: HostRuntime) -> Result<(), Fail> {
    each_row(rt.alloc(), MESSAGES, comes_behind_each_cut)
}

// The same steps, once more where memory was refused.
fn feeds(framer: &mut Framer, piece: &[u8]) -> bool {
    framer.feed(piece).is_ok() || framer.feed(piece).is_ok()
}

fn asks(framer: &mut Framer) -> Result<Option<Node>, FrameError> {
    match framer.next() {
        Err(FrameError::Memory) => framer.next(),
        answer => answer,
    }
}

// Whether it is a PresentResponse of five elements with the reference id 2.
fn is_response(node: &Node) -> bool {
    match &node.body {
        Body::Prim(_) => false,
        Body::Cons(parts) => match parts.as_slice() {
            [reference, _, _, _, _] => is_reference(reference),
            _ => false,
        },
    }
}

fn is_reference(node: &Node) -> bool {
    match &node.body {
        Body::Prim(octets) => octets.as_slice() == [0, 0, 0, 2].as_slice(),
        Body::Cons(_) => false,
    }
}

// Whether a piece shows nothing, or a response, which is counted.
fn is_answered(framer: &mut Framer, piece: &[u8], count: &mut u32) -> bool {
    if !feeds(framer, piece) {
        return false;
    }
    match asks(framer) {
        Ok(None) => true,
        Ok(Some(node)) => {
            *count = count.saturating_add(1);
            is_response(&node)
        }
        Err(_) => false,
    }
}

// How many responses come of octets that are fed seven at a time, none of which ends two; `None` where something else
// comes.
fn responses(framer: &mut Framer, stream: &[u8]) -> Option<u32> {
    let mut count = 0u32;
    for piece in stream.chunks(7) {
        if !is_answered(framer, piece, &mut count) {
            return None;
        }
    }
    Some(count)
}

// Whether eight responses come, each octet of them being fed, passed over or looked at once, and nothing is left.
fn is_session(alloc: Global, stream: &[u8]) -> bool {
    let mut framer = Framer::new(alloc, LIMIT);
    responses(&mut framer, stream) == Some(8)
        && framer.fed() == 368
        && framer.skipped() == 128
        && framer.examined() == 240
        && matches!(framer.finish(), Ok(true))
}

// With ample memory each step is made once. Where one of its allocations is refused, the step is made again, and
// answers the same.
#[test]
fn a_session_goes_on_where_memory_was_refused(rt: HostRuntime) -> Result<(), Fail> {
    let row =
        "- 8 b9808204000000029801019901029b0100bc803015a113a1112882000d06072a8648ce13050a8102686900000000";
    let stream = stream(rt.alloc(), row)?;
    assert!(rt; is_session(rt.alloc(), stream.as_slice()));
    Ok(())
}
