//! Pools of connections over octets: the steps of a session, and what each answers.
ghost use Rattle.std.specs.Prelude.{◌<◌, length, IfOk};

mod cuts;
mod ends;
mod histories;
mod memory;

use crate::sessions::call;
use crate::states::{state_text, step_word};
use bytes::Bytes;
use std::alloc::{AllocError, Global};
use std::process::Abort;
use std::test::Fail;
use zapdu_rows::boxes::box_value;
use zapdu_rows::parts::Line;
use zber_rows::rows::{digits, is_true, octets, pair, split_row, tells, unescape};
use zber_rows::unread::{Unread, read};
use zknow::Mode;
use zknow_rows::shown::{has_list, is_listed, put_counts, put_known};
use zoom_pool::{Call, Pool, Reason, ResultSet, Step, TakeError};
use zorigin::CallRefused;

/// So many connections in state Fresh.
pub(crate) fn pool(alloc: Global, n: u32) -> Result<Box<Pool>, AllocError> {
    let Ok(pool) = Pool::new(alloc, n, &Bytes::from_static(b"zmeta")) else {
        return Err(AllocError);
    };
    box_value(alloc, pool)
}

// A pool of as many connections as the row says.
fn pool_of(alloc: Global, row: &str) -> Result<Box<Pool>, Unread> {
    let Ok(n) = row.parse::<u32>() else {
        return Err(Unread);
    };
    read(pool(alloc, n))
}

fn has(pool: &Pool, c: u32) -> Result<(), Unread>
    ensures { IfOk result (λ _. c < length pool.now.connections) }
{
    if (c as usize) < pool.connections() {
        Ok(())
    } else {
        Err(Unread)
    }
}

/// Makes a call; a Present by its result set.
pub(crate) fn make(
    pool: &mut Pool,
    c: u32,
    call: &Call,
) -> Result<Result<(), CallRefused>, Unread> {
    let Ok(()) = has(pool, c) else {
        return Err(Unread);
    };
    match call {
        Call::Present { op, set, start, n } => {
            Ok(ResultSet { c, set: *set }.present(pool, *op, *start, *n))
        }
        _ => Ok(pool.call(c, call)),
    }
}

/// Feeds a piece, and tells whether memory was found for it.
pub(crate) fn feed(
    pool: &mut Pool,
    c: u32,
    piece: &[u8],
) -> Result<Result<(), AllocError>, Unread> {
    let Ok(()) = has(pool, c) else {
        return Err(Unread);
    };
    Ok(pool.feed(c, piece))
}

/// Takes a message.
pub(crate) fn take(pool: &mut Pool, c: u32) -> Result<Result<Step, TakeError>, Unread> {
    let Ok(()) = has(pool, c) else {
        return Err(Unread);
    };
    Ok(pool.take(c))
}

fn end(pool: &mut Pool, c: u32) -> Result<(), Unread> {
    let Ok(()) = has(pool, c) else {
        return Err(Unread);
    };
    pool.end(c);
    Ok(())
}

fn stop(pool: &mut Pool, c: u32) -> Result<(), Unread> {
    let Ok(()) = has(pool, c) else {
        return Err(Unread);
    };
    pool.stop(c, Reason::Read);
    Ok(())
}

fn outgoing(pool: &mut Pool, c: u32, out: &mut Vec<u8>) -> Result<(), Unread> {
    let Ok(()) = has(pool, c) else {
        return Err(Unread);
    };
    read(pool.outgoing(c, out))
}

fn state(alloc: Global, pool: &Pool, c: u32) -> Result<String, Unread> {
    let Ok(()) = has(pool, c) else {
        return Err(Unread);
    };
    read(state_text(alloc, &pool.state(c)))
}

// What waits to go out.
fn out(alloc: Global, pool: &mut Pool, c: u32) -> Result<String, Unread> {
    let mut out = Vec::new(alloc);
    if outgoing(pool, c, &mut out).is_err() {
        return Err(Unread);
    }
    read(digits(alloc, out.as_slice()))
}

fn made_text(alloc: Global, made: &Result<(), CallRefused>) -> Result<String, AllocError> {
    match made {
        Ok(()) => String::from_str(alloc, "ok"),
        Err(reason) => format!(in alloc; "{reason:?}"),
    }
}

fn make_call(alloc: Global, pool: &mut Pool, c: u32, step: &str) -> Result<String, Unread> {
    let Ok(call) = call(alloc, step) else {
        return Err(Unread);
    };
    let Ok(made) = make(pool, c, &call) else {
        return Err(Unread);
    };
    read(made_text(alloc, &made))
}

fn taken_text(alloc: Global, taken: &Result<Step, TakeError>) -> Result<String, AllocError> {
    match taken {
        Ok(step) => String::from_str(alloc, step_word(step)),
        Err(error) => format!(in alloc; "{error:?}"),
    }
}

fn take_next(alloc: Global, pool: &mut Pool, c: u32) -> Result<String, Unread> {
    let Ok(taken) = take(pool, c) else {
        return Err(Unread);
    };
    read(taken_text(alloc, &taken))
}

/// What a step of a connection answers: `out -`, `take -`, `state -`, or a call.
pub(crate) fn answer(alloc: Global, pool: &mut Pool, c: u32, step: &str) -> Result<String, Unread> {
    let (word, _) = pair(step);
    match word {
        "out" => out(alloc, pool, c),
        "take" => take_next(alloc, pool, c),
        "state" => state(alloc, pool, c),
        _ => make_call(alloc, pool, c, step),
    }
}

/// Feeds the octets that digits spell.
pub(crate) fn feed_row(alloc: Global, pool: &mut Pool, c: u32, digits: &str) -> Result<(), Unread> {
    let Ok(piece) = octets(alloc, digits) else {
        return Err(Unread);
    };
    Ok(feed(pool, c, piece.as_slice())??)
}

// `feed DIGITS`, `end -` or `stop -`.
fn apply_event(alloc: Global, pool: &mut Pool, c: u32, event: &str) -> Result<(), Unread> {
    let (word, row) = pair(event);
    match word {
        "feed" => feed_row(alloc, pool, c, row),
        "end" => end(pool, c),
        "stop" => stop(pool, c),
        _ => Err(Unread),
    }
}

// Whether this is known of the number of records of set 1.
fn is_size(alloc: Global, pool: &Pool, c: u32, due: &str) -> bool {
    let mut line = Line::new(alloc);
    put_counts(alloc, ResultSet { c, set: 1 }.size(pool), &mut line);
    line.is(due.as_bytes())
}

// Whether this is known of the record at a position of set 1.
fn is_record(alloc: Global, pool: &Pool, c: u32, position: i64, due: &str) -> bool {
    let mut line = Line::new(alloc);
    put_known(
        alloc,
        ResultSet { c, set: 1 }.row(pool, position),
        &mut line,
    );
    line.is(due.as_bytes())
}

fn is_row(alloc: Global, pool: &Pool, c: u32, position: &str, due: &str) -> Result<bool, Unread> {
    let Ok(position) = position.parse::<i64>() else {
        return Err(Unread);
    };
    Ok(is_record(alloc, pool, c, position, due))
}

fn is_answer(
    alloc: Global,
    pool: &mut Pool,
    c: u32,
    step: &str,
    due: &str,
) -> Result<bool, Unread> {
    let (word, row) = pair(step);
    match word {
        "size" => Ok(is_size(alloc, pool, c, due)),
        "row" => is_row(alloc, pool, c, row, due),
        _ => Ok(tells(answer(alloc, pool, c, step), due)),
    }
}

/// Whether this is the printed list of what a pool knows.
pub(crate) fn lists(alloc: Global, pool: &Pool, names: &str, due: &str) -> bool {
    is_listed(alloc, pool.knowledge(), names, Mode::Text, due)
}

// An event, or a question or call and behind `=` its answer.
fn goes_on(alloc: Global, pool: &mut Pool, c: u32, row: &str) -> Result<bool, Unread> {
    match row.split_once(" = ") {
        Some((step, due)) => is_answer(alloc, pool, c, step, due),
        None => {
            if apply_event(alloc, pool, c, row).is_err() {
                return Err(Unread);
            }
            Ok(true)
        }
    }
}

fn is_list(alloc: Global, pool: &Pool, row: &str) -> Result<bool, Unread> {
    let (names, due) = split_row(row, " = ");
    let Ok(due) = unescape(alloc, due) else {
        return Err(Unread);
    };
    Ok(has_list(alloc, pool.knowledge(), names, Mode::Text, due.as_slice()))
}

fn goes(alloc: Global, pool: &mut Pool, row: &str) -> Result<bool, Unread> {
    let (word, rest) = pair(row);
    if word == "list" {
        is_list(alloc, pool, rest)
    } else {
        goes_on(alloc, pool, word.parse::<u32>()?, rest)
    }
}

// Sessions, each `new` with the number of its connections and then its steps, a row for each: the connection's number
// and an event; or a question or a call, and behind `=` its answer; or `list`, the names and the printed list.
pub(crate) fn go_as_told(rt: &(impl Abort + AllocGlobal), sessions: &str) -> Result<(), Fail> {
    let mut current = pool(rt.alloc(), 0)?;
    for row in sessions.lines() {
        if let Some(n) = row.strip_prefix("new ") {
            current = pool_of(rt.alloc(), n)?;
        } else if !row.starts_with('#') {
            assert!(rt; is_true(goes(rt.alloc(), &mut current, row)), "{row}");
        }
    }
    Ok(())
}
