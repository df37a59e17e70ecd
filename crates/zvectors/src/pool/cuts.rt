// Two connections whose octets come in alternation: neither their cutting nor the order of the replies changes what is
// known.
use crate::pool::{feed, lists, make, pool, take};
use crate::sessions::call;
use std::alloc::Global;
use std::process::Abort;
use std::test::Fail;
use zapdu_rows::boxes::box_value;
use zber_rows::rows::{is_true, octets};
use zber_rows::unread::{Unread, read};
use zoom_pool::{Call, Pool, Step};

// Requests for the positions 1 to 3 and 2 to 4.
const CALLS: &str = "init -\nsearch 1 1\npresent 2 1 1 3\npresent 3 1 2 3";

// What comes: the association, a set of four records, and the two replies.
const FIRST: &str =
    "b51c820400000000830205e0840301c006850310000086031000008c01ffb7128204000000019701049801009901009601ffb9508204000000029801039901049b0100bc3f3013a111a10f280d06072a8648ce13050a810272313013a111a10f280d06072a8648ce13050a810272323013a111a10f280d06072a8648ce13050a81027233b9508204000000039801039901009b0100bc3f3013a111a10f280d06072a8648ce13050a810272323013a111a10f280d06072a8648ce13050a810272333013a111a10f280d06072a8648ce13050a81027234";

// On the other connection they come in the other order, and differ at position 2.
const SECOND: &str =
    "b51c820400000000830205e0840301c006850310000086031000008c01ffb7128204000000019701049801009901009601ffb9508204000000039801039901009b0100bc3f3013a111a10f280d06072a8648ce13050a810278323013a111a10f280d06072a8648ce13050a810272333013a111a10f280d06072a8648ce13050a81027234b9508204000000029801039901049b0100bc3f3013a111a10f280d06072a8648ce13050a810272313013a111a10f280d06072a8648ce13050a810272323013a111a10f280d06072a8648ce13050a81027233";

const LIST: &str = r#"target "a" set 1 count 4
target "b" set 1 count 4
1 "a" 1 rec 1.2.840.10003.5.10 - "r1"
1 "b" 1 rec 1.2.840.10003.5.10 - "r1"
2 "a" 1 rec 1.2.840.10003.5.10 - "r2"
2 "b" 1 conflict 2
  rec 1.2.840.10003.5.10 - "r2"
  rec 1.2.840.10003.5.10 - "x2"
3 "a" 1 rec 1.2.840.10003.5.10 - "r3"
3 "b" 1 rec 1.2.840.10003.5.10 - "r3"
4 "a" 1 rec 1.2.840.10003.5.10 - "r4"
4 "b" 1 rec 1.2.840.10003.5.10 - "r4"
"#;

// Two requests for the position 1, and replies that agree, and that differ.
const SHORT_CALLS: &str = "init -\nsearch 1 1\npresent 2 1 1 1\npresent 3 1 1 1";

const SHORT_FIRST: &str =
    "b51c820400000000830205e0840301c006850310000086031000008c01ffb7128204000000019701019801009901009601ffb9268204000000029801019901029b0100bc153013a111a10f280d06072a8648ce13050a81026869b9268204000000039801019901009b0100bc153013a111a10f280d06072a8648ce13050a81026869";

const SHORT_SECOND: &str =
    "b51c820400000000830205e0840301c006850310000086031000008c01ffb7128204000000019701019801009901009601ffb9268204000000039801019901009b0100bc153013a111a10f280d06072a8648ce13050a8102686fb9268204000000029801019901029b0100bc153013a111a10f280d06072a8648ce13050a81026869";

const SHORT_LIST: &str = r#"target "a" set 1 count 1
target "b" set 1 count 1
1 "a" 1 rec 1.2.840.10003.5.10 - "hi"
1 "b" 1 conflict 2
  rec 1.2.840.10003.5.10 - "hi"
  rec 1.2.840.10003.5.10 - "ho"
"#;

// The calls of both connections, what comes on each, octets of one length, and the list that is due.
#[derive(Drop)]
struct Exchange {
    calls: Vec<Box<Call>>,
    first: Vec<u8>,
    second: Vec<u8>,
    list: &'static str,
}

fn calls_of(alloc: Global, rows: &str) -> Result<Vec<Box<Call>>, Unread> {
    let mut calls = Vec::new(alloc);
    for row in rows.lines() {
        calls.push(call(alloc, row)?)?;
    }
    Ok(calls)
}

fn exchange_of(
    alloc: Global,
    calls: &str,
    first: &str,
    second: &str,
    list: &'static str,
) -> Result<Box<Exchange>, Unread> {
    let Ok(first) = octets(alloc, first) else {
        return Err(Unread);
    };
    let Ok(second) = octets(alloc, second) else {
        return Err(Unread);
    };
    let Ok(calls) = calls_of(alloc, calls) else {
        return Err(Unread);
    };
    let exchange = Exchange {
        calls,
        first,
        second,
        list,
    };
    read(box_value(alloc, exchange))
}

fn long(alloc: Global) -> Result<Box<Exchange>, Unread> {
    exchange_of(alloc, CALLS, FIRST, SECOND, LIST)
}

fn short(alloc: Global) -> Result<Box<Exchange>, Unread> {
    exchange_of(alloc, SHORT_CALLS, SHORT_FIRST, SHORT_SECOND, SHORT_LIST)
}

// Makes each call that is due: the others are refused, and change nothing.
fn make_due(pool: &mut Pool, c: u32, calls: &[Box<Call>]) -> Result<(), Unread> {
    for call in calls {
        let _refusal = make(pool, c, call)?.err();
    }
    Ok(())
}

// Whether a message was there and was accepted.
fn accepts(pool: &mut Pool, c: u32) -> Result<bool, Unread> {
    match read(take(pool, c)?)? {
        Step::Opened => Ok(true),
        Step::Answered => Ok(true),
        Step::Nothing => Ok(false),
        _ => Err(Unread),
    }
}

// A piece comes, of which each message is taken, and behind each the calls are made that are due.
fn comes(pool: &mut Pool, c: u32, piece: &[u8], calls: &[Box<Call>]) -> Result<(), Unread> {
    feed(pool, c, piece)??;
    for _ in 0..4u32 {
        if !accepts(pool, c)? {
            return Ok(());
        }
        if make_due(pool, c, calls).is_err() {
            return Err(Unread);
        }
    }
    Ok(())
}

// The octets between these places come on each connection.
fn both_come(pool: &mut Pool, exchange: &Exchange, from: usize, to: usize) -> Result<(), Unread> {
    let Some(first) = exchange.first.get(from..to) else {
        return Err(Unread);
    };
    let Some(second) = exchange.second.get(from..to) else {
        return Err(Unread);
    };
    if comes(pool, 0, first, exchange.calls.as_slice()).is_err() {
        return Err(Unread);
    }
    comes(pool, 1, second, exchange.calls.as_slice())
}

fn begin_pool(alloc: Global, exchange: &Exchange) -> Result<Box<Pool>, Unread> {
    let Ok(mut pool) = pool(alloc, 2) else {
        return Err(Unread);
    };
    if make_due(&mut pool, 0, exchange.calls.as_slice()).is_err()
        || make_due(&mut pool, 1, exchange.calls.as_slice()).is_err()
    {
        return Err(Unread);
    }
    Ok(pool)
}

// Whether the list is due where the octets come in pieces with these ends.
fn is_cut(alloc: Global, exchange: &Exchange, ends: &[usize]) -> Result<bool, Unread> {
    let Ok(mut pool) = begin_pool(alloc, exchange) else {
        return Err(Unread);
    };
    let mut from = 0usize;
    for to in ends {
        if both_come(&mut pool, exchange, from, *to).is_err() {
            return Err(Unread);
        }
        from = *to;
    }
    Ok(lists(alloc, &pool, "a b", exchange.list))
}

// Whether the list is due where the octets come one by one.
fn is_each_cut(alloc: Global, exchange: &Exchange) -> Result<bool, Unread> {
    let ends: Vec<usize> = (1..=exchange.first.len()).collect(alloc)?;
    is_cut(alloc, exchange, ends.as_slice())
}

#[test]
fn octets_come_one_by_one_in_alternation(rt: HostRuntime) -> Result<(), Fail> {
    let exchange = long(rt.alloc())?;
    assert!(rt; is_true(is_each_cut(rt.alloc(), &exchange)));
    Ok(())
}

// Whether the list is due in all three pieces of which the first ends here.
fn are_cut(alloc: Global, exchange: &Exchange, first: usize) -> bool {
    let len = exchange.first.len();
    for second in first..=len {
        if !is_true(is_cut(alloc, exchange, &[first, second, len])) {
            return false;
        }
    }
    true
}

#[test]
fn three_pieces_come_in_each_cutting(rt: HostRuntime) -> Result<(), Fail> {
    let exchange = short(rt.alloc())?;
    for first in 0..=exchange.first.len() {
        assert!(rt; are_cut(rt.alloc(), &exchange, first), "{first}");
    }
    Ok(())
}
