// Targets in memory, request by request: requests that are refused, replies that are released in any order, and sizes that
// no world file has. What targets are served to answer is in tests/program/rows/served.rows.
use crate::asking::catalogues::{target_of, titled};
use bytes::Bytes;
use std::alloc::Global;
use std::process::Abort;
use std::test::Fail;
use zapdu::Apdu;
use zapdu_rows::boxes::{apdu, apdu_node, box_value};
use zber_rows::rows::{encoding, is_true, pair, split_row, tells};
use zber_rows::unread::{Unread, read};
use ztarget::{Target, TargetSettings};

// Sessions of a target with three records, each `new` with its size, and then its steps, a row for each: `ask` a request
// and get its reply, `receive` a request, `release` a pending reply, and how many are `pending`; and behind `=` the
// answer.
const SESSIONS: &str = "\
# Requests in their order; before Init, twice Init, after a Close.
new 4096
receive b51a820400000000830205e0840301c00685021000860210008c01ff = NotRequest
receive b7128204000000019701019801009901019601ff = NotRequest
receive b9298204000000029801019901009b0100bc183016800164a111a10f280d06072a8648ce13050a81026869 = NotRequest
receive b6418204000000018d01008e01018f01009001ff910131b2049f690164b524a12206072a8648ce130301a017bf6614bf2c0a30089f7801019f7901049f2d0464756e65 = WrongState
receive b8108204000000029f1f01319e01019d0101 = WrongState
pending - = 0
receive b417820400000000830205e0840301c0068502100086021000 = taken
receive b417820400000000830205e0840301c0068502100086021000 = WrongState
receive b7128204000000019701019801009901019601ff = NotRequest
pending - = 1
receive b6418204000000018d01008e01018f01009001ff910131b2049f690164b524a12206072a8648ce130301a017bf6614bf2c0a30089f7801019f7901049f2d0464756e65 = taken
receive bf30059f81530100 = taken
pending - = 3
receive b417820400000000830205e0840301c0068502100086021000 = WrongState
receive b6418204000000018d01008e01018f01009001ff910131b2049f690164b524a12206072a8648ce130301a017bf6614bf2c0a30089f7801019f7901049f2d0464756e65 = WrongState
receive b8108204000000029f1f01319e01019d0101 = WrongState
receive bf30059f81530100 = WrongState
pending - = 3
# Replies in any order, each once, a Close last.
new 4096
receive b417820400000000830205e0840301c0068502100086021000 = taken
receive b6418204000000018d01008e01018f01009001ff910131b2049f690164b524a12206072a8648ce130301a017bf6614bf2c0a30089f7801019f7901049f2d0464756e65 = taken
receive b8108204000000029f1f01319e01019d0101 = taken
receive b8108204000000039f1f01319e01029d0101 = taken
pending - = 4
release 4 = none
release 2 = b9298204000000029801019901029b0100bc183016800164a111a10f280d06072a8648ce13050a81026331
release 2 = b9298204000000039801019901039b0100bc183016800164a111a10f280d06072a8648ce13050a81026332
release 2 = none
release 1 = b7128204000000019701039801009901019601ff
release 0 = b51a820400000000830205e0840301c00685021000860210008c01ff
release 0 = none
pending - = 0
# Two replies; then a request for records and a Close.
new 4096
receive b417820400000000830205e0840301c0068502100086021000 = taken
receive b6418204000000018d01008e01018f01009001ff910131b2049f690164b524a12206072a8648ce130301a017bf6614bf2c0a30089f7801019f7901049f2d0464756e65 = taken
release 1 = b7128204000000019701039801009901019601ff
release 1 = none
release 0 = b51a820400000000830205e0840301c00685021000860210008c01ff
receive b8108204000000029f1f01319e01039d0101 = taken
receive bf30059f81530100 = taken
release 1 = none
release 0 = b9298204000000029801019901009b0100bc183016800164a111a10f280d06072a8648ce13050a81026333
release 0 = bf30059f81530100
pending - = 0
# Sizes below 1, which world files do not have: each record is too long.
new 0
ask b417820400000000830205e0840301c0068502100086021000 = b518820400000000830205e0840301c0068501008601008c01ff
ask b6418204000000018d01008e01018f01009001ff910131b2049f690164b524a12206072a8648ce130301a017bf6614bf2c0a30089f7801019f7901049f2d0464756e65 = b7128204000000019701039801009901019601ff
ask b8108204000000029f1f01319e01019d0103 = b92a8204000000029801019901029b0102bc193017800164a112a210300e06072a8648ce1304010201111a00
new -1
ask b417820400000000830205e0840301c0068502100086021000 = b518820400000000830205e0840301c0068501ff8601ff8c01ff
ask b6418204000000018d01008e01018f01009001ff910131b2049f690164b524a12206072a8648ce130301a017bf6614bf2c0a30089f7801019f7901049f2d0464756e65 = b7128204000000019701039801009901019601ff
ask b8108204000000029f1f01319e01019d0103 = b92a8204000000029801019901029b0102bc193017800164a112a210300e06072a8648ce1304010201111a00
";

// A target of this size, with records that are found by `dune`.
fn target(alloc: Global, size: &str) -> Result<Box<Target>, Unread> {
    let size = size.parse::<i64>()?;
    let mut entries = Vec::new(alloc);
    for octets in [b"c1", b"c2", b"c3"] {
        entries.push(read(titled(alloc, Bytes::from_static(octets)))?)?;
    }
    let settings = TargetSettings {
        size,
        concurrent: true,
        named: true,
        refuse: false,
    };
    match target_of(alloc, entries, settings) {
        Ok(target) => read(box_value(alloc, target)),
        Err(_) => Err(Unread),
    }
}

fn reply_text(alloc: Global, reply: &Option<Apdu>) -> Result<String, Unread> {
    let Some(apdu) = reply else {
        return read(String::from_str(alloc, "none"));
    };
    match apdu_node(alloc, apdu) {
        Ok(node) => read(encoding(alloc, &node)),
        Err(_) => Err(Unread),
    }
}

fn release(alloc: Global, target: &mut Target, k: usize) -> Result<String, Unread> {
    let Ok(reply) = box_value(alloc, target.release(k)) else {
        return Err(Unread);
    };
    reply_text(alloc, &reply)
}

fn receive(alloc: Global, target: &mut Target, digits: &str) -> Result<String, Unread> {
    let Ok(request) = apdu(alloc, digits) else {
        return Err(Unread);
    };
    match target.receive(&request) {
        Ok(()) => read(String::from_str(alloc, "taken")),
        Err(reason) => read(format!(in alloc; "{reason:?}")),
    }
}

// The reply to a request that is the only one pending.
fn reply_to(alloc: Global, target: &mut Target, digits: &str) -> Result<String, Unread> {
    let Ok(answer) = receive(alloc, target, digits) else {
        return Err(Unread);
    };
    if answer.as_str() == "taken" && target.pending() == 1 {
        release(alloc, target, 0)
    } else {
        Ok(answer)
    }
}

fn answer(alloc: Global, target: &mut Target, step: &str) -> Result<String, Unread> {
    let (word, row) = pair(step);
    match word {
        "ask" => reply_to(alloc, target, row),
        "receive" => receive(alloc, target, row),
        "release" => release(alloc, target, row.parse::<usize>()?),
        "pending" => read(format!(in alloc; "{}", target.pending())),
        _ => Err(Unread),
    }
}

// Whether the step answers as it is told.
fn goes(alloc: Global, target: &mut Target, row: &str) -> Result<bool, Unread> {
    let (step, due) = split_row(row, " = ");
    Ok(tells(answer(alloc, target, step), due))
}

#[test]
fn targets_answer_as_told(rt: HostRuntime) -> Result<(), Fail> {
    let mut current = target(rt.alloc(), "1")?;
    for row in SESSIONS.lines() {
        if let Some(size) = row.strip_prefix("new ") {
            current = target(rt.alloc(), size)?;
        } else if !row.starts_with('#') {
            assert!(rt; is_true(goes(rt.alloc(), &mut current, row)), "{row}");
        }
    }
    Ok(())
}
