// A session of a pool in which each step that memory is refused for is made again.
use crate::pool::{feed, make, pool, take};
use crate::sessions::call;
use std::alloc::Global;
use std::process::Abort;
use std::test::Fail;
use zber_rows::rows::{is_true, octets, pair};
use zber_rows::unread::{Unread, read};
use zknow::Known;
use zoom_pool::{Call, Pool, ResultSet, Step, TakeError};
use zorigin::CallRefused;

// Each reply, and the call that it answers: two requests show different records at position 2.
const TURNS: &str = "\
b51c820400000000830205e0840301c006850310000086031000008c01ff init -
b7128204000000019701049801009901009601ff search 1 1
b9508204000000029801039901049b0100bc3f3013a111a10f280d06072a8648ce13050a810272313013a111a10f280d06072a8648ce13050a810272323013a111a10f280d06072a8648ce13050a81027233 present 2 1 1 3
b9508204000000039801039901009b0100bc3f3013a111a10f280d06072a8648ce13050a810278323013a111a10f280d06072a8648ce13050a810272333013a111a10f280d06072a8648ce13050a81027234 present 3 1 2 3
b9508204000000049801039901009b0100bc3f3013a111a10f280d06072a8648ce13050a810272313013a111a10f280d06072a8648ce13050a810272333013a111a10f280d06072a8648ce13050a81027234 ranges 4 1 1+1 3+2
";

#[derive(Drop)]
struct Turn {
    reply: Vec<u8>,
    call: Box<Call>,
}

fn turn_of(alloc: Global, row: &str) -> Result<Turn, Unread> {
    let (digits, step) = pair(row);
    let Ok(reply) = octets(alloc, digits) else {
        return Err(Unread);
    };
    let Ok(call) = call(alloc, step) else {
        return Err(Unread);
    };
    Ok(Turn { reply, call })
}

fn turns(alloc: Global) -> Result<Vec<Turn>, Unread> {
    let mut turns = Vec::new(alloc);
    for row in TURNS.lines() {
        turns.push(turn_of(alloc, row)?)?;
    }
    Ok(turns)
}

fn makes(pool: &mut Pool, call: &Call) -> Result<bool, Unread> {
    match make(pool, 0, call)? {
        Err(CallRefused::Memory) => Ok(make(pool, 0, call)?.is_ok()),
        answer => Ok(answer.is_ok()),
    }
}

fn feeds(pool: &mut Pool, piece: &[u8]) -> Result<bool, Unread> {
    let Ok(fed) = feed(pool, 0, piece) else {
        return Err(Unread);
    };
    Ok(fed.is_ok() || feed(pool, 0, piece)?.is_ok())
}

fn takes(pool: &mut Pool) -> Result<Step, Unread> {
    match take(pool, 0)? {
        Err(TakeError::Memory) => read(take(pool, 0)?),
        answer => read(answer),
    }
}

// Whether the call is admitted and its reply accepted, and nothing more is there.
fn goes(pool: &mut Pool, turn: &Turn) -> Result<bool, Unread> {
    let sent = is_true(makes(pool, &turn.call)) && is_true(feeds(pool, turn.reply.as_slice()));
    let done = matches!(takes(pool), Ok(Step::Opened | Step::Answered));
    Ok(sent && done && matches!(takes(pool), Ok(Step::Nothing)))
}

fn go(pool: &mut Pool, turns: &[Turn]) -> Result<bool, Unread> {
    for turn in turns {
        if !goes(pool, turn)? {
            return Ok(false);
        }
    }
    Ok(true)
}

// How many records the row shows.
fn records(pool: &Pool, position: i64) -> usize {
    match (ResultSet { c: 0, set: 1 }).row(pool, position) {
        Known::Nothing => 0,
        Known::One(_) => 1,
        Known::Conflict(records) => records.len(),
    }
}

// With ample memory each step is made once. Where one of its allocations is refused, the step is made again, and
// answers the same.
#[test]
fn a_session_goes_on_where_memory_was_refused(rt: HostRuntime) -> Result<(), Fail> {
    let turns = turns(rt.alloc())?;
    let mut pool = pool(rt.alloc(), 1)?;
    assert!(rt; is_true(go(&mut pool, turns.as_slice())));
    assert!(rt; records(&pool, 1) == 1 && records(&pool, 2) == 2);
    assert!(rt; records(&pool, 4) == 1 && records(&pool, 5) == 0);
    Ok(())
}
