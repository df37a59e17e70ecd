//! The head of the view: the lines of each target's sets, and why its connection stopped.
ghost use Rattle.std.specs.Prelude.{◌≡◌, ◌≤◌, ◌++◌, OnOk, IfOk, length, map, slice_get, string_bytes};
ghost use Rattle.zknow_titles.specs.Blocks.{block_line, filled_by};
ghost use Rattle.zknow_titles.specs.Heads.{stop_words, stop_line, then_words, if_last, lines_then, stopped_lines_with, target_lines_with, front_count, head_lines_with};
ghost use Rattle.zknow_titles.specs.Lines.{ended_line, ended};

use crate::blocks::{put_block, show_block};
use crate::filled::Filled;
use crate::names::name_of;
use std::alloc::{AllocError, Global};
use zknow::{Knowledge, SetKey};
use zknow_stops::{Detail, Stop};

/// Appends the line of each set.
fn put_blocks(
    alloc: Global,
    filled: Filled<'_>,
    shown: &[String],
    knowledge: &Knowledge,
    sets: &[SetKey],
    out: &mut Vec<u8>,
) -> Result<(), AllocError>
    ensures { OnOk result (out.new.items
        ≡ out.old.items ++ ended (map (block_line (filled_by filled.entry knowledge.now) (map string_bytes shown.now)
        knowledge.now) sets.now)) }
{
    for key in sets {
        put_block(alloc, filled, shown, knowledge, key, out)?;
    }
    Ok(())
}

/// Returns why a connection stopped, in words for a line of its own.
pub fn show_stop(alloc: Global, detail: Detail) -> Result<String, AllocError>
    ensures { IfOk result (λ words. string_bytes words ≡ stop_words detail) }
{
    let mut words = String::new(alloc);
    if !detail.is_unreached() {
        detail.put_words(alloc, &mut words)?;
        return Ok(words);
    }
    words.push_str("not reached (")?;
    detail.put_words(alloc, &mut words)?;
    words.push_str(")")?;
    Ok(words)
}

/// Appends the line that says why the connection of a target stopped.
fn put_stop(
    alloc: Global,
    shown: &[String],
    target: usize,
    detail: Detail,
    out: &mut Vec<u8>,
) -> Result<(), AllocError>
    ensures { OnOk result (out.new.items
        ≡ out.old.items ++ ended_line (stop_line (map string_bytes shown.now) target detail)) }
{
    let name = name_of(alloc, shown, target)?;
    out.extend_from_slice(name.as_bytes())?;
    out.extend_from_slice(b": ")?;
    let words = show_stop(alloc, detail)?;
    out.extend_from_slice(words.as_bytes())?;
    out.extend_from_slice(b"\n")
}

/// Returns why a connection stopped, in words for behind the line of a set.
fn show_then(alloc: Global, detail: Detail) -> Result<String, AllocError>
    ensures { IfOk result (λ words. string_bytes words ≡ then_words detail) }
{
    let mut words = String::from_str(alloc, "; then ")?;
    detail.put_words(alloc, &mut words)?;
    Ok(words)
}

/// Returns the words, if no set is left.
fn if_last<'a>(words: &'a str, left: &[SetKey]) -> &'a str
    ensures { result.now ≡ if_last words.now left.now }
{
    match left {
        [] => words,
        [..] => "",
    }
}

/// Appends the line of a set with words behind it, if no set is left.
fn put_block_then(
    alloc: Global,
    filled: Filled<'_>,
    shown: &[String],
    knowledge: &Knowledge,
    words: &str,
    key: &SetKey,
    left: &[SetKey],
    out: &mut Vec<u8>,
) -> Result<(), AllocError>
    ensures { OnOk result (out.new.items ≡ out.old.items
        ++ ended_line (block_line (filled_by filled.entry knowledge.now) (map string_bytes shown.now) knowledge.now
        key.now ++ if_last words.now left.now)) }
{
    let line = show_block(alloc, filled, shown, knowledge, key)?;
    out.extend_from_slice(line.as_bytes())?;
    out.extend_from_slice(if_last(words, left).as_bytes())?;
    out.extend_from_slice(b"\n")
}

/// Appends the line of each set, with words behind the last.
fn put_blocks_then(
    alloc: Global,
    filled: Filled<'_>,
    shown: &[String],
    knowledge: &Knowledge,
    words: &str,
    sets: &[SetKey],
    out: &mut Vec<u8>,
) -> Result<(), AllocError>
    ensures { OnOk result (out.new.items
        ≡ out.old.items ++ ended (lines_then (filled_by filled.entry knowledge.now) (map string_bytes shown.now)
        knowledge.now words.now sets.now)) }
{
    let mut left = sets;
    while let [key, others @ ..] = left {
        put_block_then(alloc, filled, shown, knowledge, words, key, others, out)?;
        left = others;
    }
    Ok(())
}

/// Appends the lines of a target that stopped.
fn put_stopped(
    alloc: Global,
    filled: Filled<'_>,
    shown: &[String],
    knowledge: &Knowledge,
    target: usize,
    detail: Detail,
    sets: &[SetKey],
    out: &mut Vec<u8>,
) -> Result<(), AllocError>
    ensures { OnOk result (out.new.items ≡ out.old.items
        ++ ended (stopped_lines_with (filled_by filled.entry knowledge.now) (map string_bytes shown.now) knowledge.now
        target detail sets.now)) }
{
    if detail.is_unreached() || sets.is_empty() {
        put_blocks(alloc, filled, shown, knowledge, sets, out)?;
        return put_stop(alloc, shown, target, detail, out);
    }
    let words = show_then(alloc, detail)?;
    put_blocks_then(alloc, filled, shown, knowledge, words.as_str(), sets, out)
}

/// Appends the lines of a target.
fn put_target(
    alloc: Global,
    filled: Filled<'_>,
    shown: &[String],
    knowledge: &Knowledge,
    target: usize,
    stop: &Option<Stop>,
    sets: &[SetKey],
    out: &mut Vec<u8>,
) -> Result<(), AllocError>
    ensures { OnOk result (out.new.items ≡ out.old.items
        ++ ended (target_lines_with (filled_by filled.entry knowledge.now) (map string_bytes shown.now) knowledge.now
        target stop.now sets.now)) }
{
    match stop {
        None => put_blocks(alloc, filled, shown, knowledge, sets, out),
        Some(stop) => put_stopped(
            alloc,
            filled,
            shown,
            knowledge,
            target,
            stop.detail,
            sets,
            out,
        ),
    }
}

/// Counts the sets in front that are of a target.
fn count_front(target: usize, sets: &[SetKey]) -> usize
    ensures exact { result ≡ front_count target sets.now }
    ensures within { result ≤ length sets.now }
{
    let mut count = 0;
    for key in sets {
        if key.target as usize != target {
            return count;
        }
        count += 1;
    }
    count
}

/// Returns the lines of all targets.
pub(crate) fn show_head(
    alloc: Global,
    filled: Filled<'_>,
    shown: &[String],
    knowledge: &Knowledge,
    stops: &[Option<Stop>],
    sets: &[SetKey],
) -> Result<Vec<u8>, AllocError>
    ensures { IfOk result (λ head. head.items
        ≡ ended (head_lines_with (filled_by filled.entry knowledge.now) (map string_bytes shown.now) knowledge.now
        0 stops.now sets.now)) }
{
    let mut head = Vec::new(alloc);
    let mut left = sets;
    for (target, stop) in stops.iter().enumerate() {
        let (own, others) = left.split_at(count_front(target, left));
        put_target(
            alloc, filled, shown, knowledge, target, stop, own, &mut head,
        )?;
        left = others;
    }
    put_blocks(alloc, filled, shown, knowledge, left, &mut head)?;
    Ok(head)
}
