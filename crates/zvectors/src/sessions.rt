// Sessions of one origin, step by step, worked out from Z39.50-2003, 3.2 and 3.4.
mod calls;
mod pooled;
mod ranges;
mod replies;

use crate::states::origin_text;
use bytes::Bytes;
use std::alloc::{AllocError, Global};
use std::process::Abort;
use std::test::Fail;
use zapdu::Apdu;
use zapdu_rows::boxes::{apdu, box_value, parse};
use zber::{Oid, Seq};
use zber_rows::rows::{is_true, pair, split_row, split_text};
use zber_rows::unread::{Unread, read};
use zoom_pool::Call;
use zorigin::{Ask, CallRefused, Origin, Range, Refused, Sent, Settings, Taken};

fn databases(alloc: Global) -> Result<Seq<Bytes>, Unread> {
    let Ok(databases) = vec![in alloc; Bytes::from_static(b"d")] else {
        return Err(Unread);
    };
    Ok(Seq::from_vec(databases))
}

// For `dune` as a title in the database `d`, with these bounds.
fn ask(alloc: Global, small: i64, large: i64, medium: i64) -> Result<Box<Ask>, Unread> {
    let Ok(databases) = databases(alloc) else {
        return Err(Unread);
    };
    let Ok(query) = parse(alloc, b"@attr 1=4 dune") else {
        return Err(Unread);
    };
    let ask = Ask {
        databases,
        query: Box::into_inner(query),
        syntax: None,
        elements: None,
        small,
        large,
        medium,
    };
    read(box_value(alloc, ask))
}

// The same, of which no record is to come with the response, for the element set `F` of USmarc.
fn full_ask(alloc: Global) -> Result<Box<Ask>, Unread> {
    let Ok(mut ask) = ask(alloc, 0, 1, 0) else {
        return Err(Unread);
    };
    ask.syntax = Some(Oid::from_arcs(alloc, &[1, 2, 840, 10003, 5, 10])?);
    ask.elements = Some(Bytes::from_static(b"F"));
    Ok(ask)
}

/// An origin of this name.
pub(crate) fn origin_of(alloc: Global, name: Bytes) -> Result<Box<Origin>, AllocError> {
    box_value(alloc, Origin::new(alloc, Settings { name }))
}

fn origin(alloc: Global) -> Result<Box<Origin>, AllocError> {
    origin_of(alloc, Bytes::from_static(b"zmeta"))
}

fn call_text(alloc: Global, answer: &Result<Sent, CallRefused>) -> Result<String, AllocError> {
    match answer {
        Ok(sent) => hex::encode(alloc, sent.octets.as_slice()),
        Err(reason) => format!(in alloc; "{reason:?}"),
    }
}

fn word(taken: &Taken) -> &'static str {
    match taken {
        Taken::Opened(_) => "Opened",
        Taken::Rejected(_) => "Rejected",
        Taken::Answered(_) => "Answered",
        Taken::Closed => "Closed",
    }
}

fn take_text(alloc: Global, answer: &Result<Taken, Refused>) -> Result<String, AllocError> {
    match answer {
        Ok(taken) => String::from_str(alloc, word(taken)),
        Err(reason) => format!(in alloc; "{reason:?}"),
    }
}

// What an APDU that is taken comes to.
fn take(
    alloc: Global,
    origin: &mut Origin,
    apdu: &Apdu,
) -> Result<Box<Result<Taken, Refused>>, AllocError> {
    box_value(alloc, origin.take(apdu))
}

fn peek(
    alloc: Global,
    origin: &Origin,
    apdu: &Apdu,
) -> Result<Box<Result<Taken, Refused>>, AllocError> {
    box_value(alloc, origin.peek(apdu))
}

fn state(alloc: Global, origin: &Origin) -> Result<String, AllocError> {
    origin_text(alloc, &origin.state())
}

fn search_of(alloc: Global, op: u32, set: u32, ask: Box<Ask>) -> Result<Box<Call>, AllocError> {
    let ask = Box::into_inner(ask);
    box_value(alloc, Call::Search { op, set, ask })
}

// The numbers of an operation and a set.
fn places(row: &str) -> Result<(u32, u32), Unread> {
    let (op, set) = pair(row);
    let Ok(op) = op.parse::<u32>() else {
        return Err(Unread);
    };
    let Ok(set) = set.parse::<u32>() else {
        return Err(Unread);
    };
    Ok((op, set))
}

// Two numbers.
fn numbers(row: &str) -> Result<(i64, i64), Unread> {
    let (first, second) = pair(row);
    let Ok(first) = first.parse::<i64>() else {
        return Err(Unread);
    };
    let Ok(second) = second.parse::<i64>() else {
        return Err(Unread);
    };
    Ok((first, second))
}

// `OP SET`
fn search(alloc: Global, row: &str) -> Result<Box<Call>, Unread> {
    let Ok((op, set)) = places(row) else {
        return Err(Unread);
    };
    let Ok(ask) = ask(alloc, 0, 1, 0) else {
        return Err(Unread);
    };
    read(search_of(alloc, op, set, ask))
}

// The same for the element set `F` of USmarc.
fn full_search(alloc: Global, row: &str) -> Result<Box<Call>, Unread> {
    let Ok((op, set)) = places(row) else {
        return Err(Unread);
    };
    let Ok(ask) = full_ask(alloc) else {
        return Err(Unread);
    };
    read(search_of(alloc, op, set, ask))
}

// `SMALL LARGE MEDIUM`
fn bounded_ask(alloc: Global, bounds: &str) -> Result<Box<Ask>, Unread> {
    let (small, others) = pair(bounds);
    let Ok(small) = small.parse::<i64>() else {
        return Err(Unread);
    };
    let Ok((large, medium)) = numbers(others) else {
        return Err(Unread);
    };
    ask(alloc, small, large, medium)
}

// `OP SMALL LARGE MEDIUM`, of set 1
fn bounded_search(alloc: Global, row: &str) -> Result<Box<Call>, Unread> {
    let (op, bounds) = pair(row);
    let Ok(op) = op.parse::<u32>() else {
        return Err(Unread);
    };
    let Ok(ask) = bounded_ask(alloc, bounds) else {
        return Err(Unread);
    };
    read(search_of(alloc, op, 1, ask))
}

// The two first words of a row, and what stands behind them.
fn set_row(row: &str) -> (&str, &str) {
    let (op, rest) = pair(row);
    let (set, _) = pair(rest);
    split_text(row, op.len().saturating_add(set.len()).saturating_add(1))
}

// `OP SET START NUMBER`
fn present(alloc: Global, row: &str) -> Result<Box<Call>, Unread> {
    let (words, range) = set_row(row);
    let Ok((op, set)) = places(words) else {
        return Err(Unread);
    };
    let Ok((start, n)) = numbers(range.trim_start()) else {
        return Err(Unread);
    };
    read(box_value(alloc, Call::Present { op, set, start, n }))
}

// `START+NUMBER`
fn range_in(range: &str) -> Result<Range, Unread> {
    let (start, n) = split_row(range, "+");
    let Ok(start) = start.parse::<i64>() else {
        return Err(Unread);
    };
    let Ok(n) = n.parse::<i64>() else {
        return Err(Unread);
    };
    Ok(Range { start, n })
}

// Ranges, `START+NUMBER` each, or `-` for none
fn ranges_in(alloc: Global, row: &str) -> Result<Vec<Range>, Unread> {
    let mut ranges = Vec::new(alloc);
    if row == "-" {
        return Ok(ranges);
    }
    for range in row.split_whitespace() {
        ranges.push(range_in(range)?)?;
    }
    Ok(ranges)
}

// `OP SET` and ranges
fn present_ranges(alloc: Global, row: &str) -> Result<Box<Call>, Unread> {
    let (words, others) = set_row(row);
    let Ok((op, set)) = places(words) else {
        return Err(Unread);
    };
    let ranges = Seq::from_vec(ranges_in(alloc, others.trim_start())?);
    read(box_value(alloc, Call::PresentRanges { op, set, ranges }))
}

fn plain(alloc: Global, call: Call) -> Result<Box<Call>, Unread> {
    read(box_value(alloc, call))
}

/// The call of a row: `init -`, `close -`, `search OP SET`, `full OP SET`, `bounds OP SMALL LARGE MEDIUM` for set 1,
/// `present OP SET START NUMBER`, or `ranges OP SET` and ranges.
pub(crate) fn call(alloc: Global, step: &str) -> Result<Box<Call>, Unread> {
    let (word, row) = pair(step);
    match word {
        "init" => plain(alloc, Call::Init),
        "close" => plain(alloc, Call::Close),
        "search" => search(alloc, row),
        "full" => full_search(alloc, row),
        "bounds" => bounded_search(alloc, row),
        "present" => present(alloc, row),
        "ranges" => present_ranges(alloc, row),
        _ => Err(Unread),
    }
}

fn send_call(origin: &mut Origin, call: &Call) -> Result<Sent, CallRefused> {
    match call {
        Call::Init => origin.init(),
        Call::Search { op, set, ask } => origin.search(*op, *set, ask),
        Call::Present { op, set, start, n } => origin.present(*op, *set, *start, *n),
        Call::PresentRanges { op, set, ranges } => {
            origin.present_ranges(*op, *set, ranges.as_slice())
        }
        Call::Close => origin.close(),
    }
}

fn call_row(alloc: Global, origin: &mut Origin, step: &str) -> Result<String, Unread> {
    let Ok(call) = call(alloc, step) else {
        return Err(Unread);
    };
    let Ok(sent) = box_value(alloc, send_call(origin, &call)) else {
        return Err(Unread);
    };
    read(call_text(alloc, &sent))
}

fn take_row(alloc: Global, origin: &mut Origin, digits: &str) -> Result<String, Unread> {
    let Ok(apdu) = apdu(alloc, digits) else {
        return Err(Unread);
    };
    let Ok(answer) = take(alloc, origin, &apdu) else {
        return Err(Unread);
    };
    read(take_text(alloc, &answer))
}

fn peek_row(alloc: Global, origin: &Origin, digits: &str) -> Result<String, Unread> {
    let Ok(apdu) = apdu(alloc, digits) else {
        return Err(Unread);
    };
    let Ok(answer) = peek(alloc, origin, &apdu) else {
        return Err(Unread);
    };
    read(take_text(alloc, &answer))
}

pub(crate) fn answer(alloc: Global, origin: &mut Origin, step: &str) -> Result<String, Unread> {
    let (word, row) = pair(step);
    match word {
        "state" => read(state(alloc, origin)),
        "take" => take_row(alloc, origin, row),
        "peek" => peek_row(alloc, origin, row),
        _ => call_row(alloc, origin, step),
    }
}

/// Whether an answer is the one that is due: `sent` stands for the octets of a request.
pub(crate) fn is_due(answer: &str, due: &str) -> bool {
    if due == "sent" {
        answer.len() > 12
    } else {
        answer == due
    }
}

// Whether the step answers as it is told.
fn goes(alloc: Global, origin: &mut Origin, row: &str) -> Result<bool, Unread> {
    let (step, due) = split_row(row, " = ");
    let Ok(answer) = answer(alloc, origin, step) else {
        return Err(Unread);
    };
    Ok(is_due(answer.as_str(), due))
}

// Sessions, each `new` and then its steps, a row for each: a call, an APDU that comes, in hexadecimal, or a question,
// and behind `=` its answer. A call answers its request's octets, where they are told, or `sent`, or its refusal; an
// APDU what it comes to.
pub(crate) fn go_as_told(rt: &(impl Abort + AllocGlobal), sessions: &str) -> Result<(), Fail> {
    let mut current = origin(rt.alloc())?;
    for row in sessions.lines() {
        if row == "new" {
            current = origin(rt.alloc())?;
        } else if !row.starts_with('#') {
            assert!(rt; is_true(goes(rt.alloc(), &mut current, row)), "{row}");
        }
    }
    Ok(())
}
