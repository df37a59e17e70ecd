//! The sessions of an origin, through a pool of one connection.
use crate::pool::{answer, feed_row, pool};
use crate::sessions::is_due;
use std::alloc::{AllocError, Global};
use std::process::Abort;
use std::test::Fail;
use zber_rows::rows::{is_true, pair, split_row};
use zber_rows::unread::{Unread, read};
use zoom_pool::Pool;

// The words of an origin for an answer of a pool.
fn as_of_origin(alloc: Global, text: &str) -> Result<String, AllocError> {
    match text.split_once("Refused(") {
        Some((before, behind)) => {
            let (reason, rest) = behind.split_once(')').unwrap_or((behind, ""));
            format!(in alloc; "{before}{reason}{rest}")
        }
        None => String::from_str(alloc, text),
    }
}

fn take(alloc: Global, pool: &mut Pool, digits: &str) -> Result<String, Unread> {
    if feed_row(alloc, pool, 0, digits).is_err() {
        return Err(Unread);
    }
    let Ok(answer) = answer(alloc, pool, 0, "take -") else {
        return Err(Unread);
    };
    if answer.as_str() == "Stopped" {
        read(String::from_str(alloc, "WrongState"))
    } else {
        read(as_of_origin(alloc, answer.as_str()))
    }
}

// A call, and what it sends.
fn call(alloc: Global, pool: &mut Pool, step: &str) -> Result<String, Unread> {
    let Ok(refusal) = answer(alloc, pool, 0, step) else {
        return Err(Unread);
    };
    if refusal.as_str() == "ok" {
        answer(alloc, pool, 0, "out -")
    } else {
        Ok(refusal)
    }
}

fn answer_of(alloc: Global, pool: &mut Pool, step: &str) -> Result<String, Unread> {
    let (word, row) = pair(step);
    match word {
        "state" => {
            let Ok(state) = answer(alloc, pool, 0, step) else {
                return Err(Unread);
            };
            read(as_of_origin(alloc, state.as_str()))
        }
        "take" => take(alloc, pool, row),
        _ => call(alloc, pool, step),
    }
}

fn goes(alloc: Global, pool: &mut Pool, row: &str) -> Result<bool, Unread> {
    let (step, due) = split_row(row, " = ");
    let Ok(answer) = answer_of(alloc, pool, step) else {
        return Err(Unread);
    };
    Ok(is_due(answer.as_str(), due))
}

/// The sessions go as they are told for an origin, but for the questions what it would answer, which a pool is not
/// asked.
pub(crate) fn go_through_pool(rt: &(impl Abort + AllocGlobal), sessions: &str) -> Result<(), Fail> {
    let mut current = pool(rt.alloc(), 1)?;
    for row in sessions.lines() {
        if row == "new" {
            current = pool(rt.alloc(), 1)?;
        } else if !row.starts_with('#') && !row.starts_with("peek ") {
            assert!(rt; is_true(goes(rt.alloc(), &mut current, row)), "{row}");
        }
    }
    Ok(())
}
