//! Facts as rows: the kind, the target, the set, then the count, or the position or place and the element.
ghost use Rattle.std.specs.Prelude.{◌≤ℤ◌, IfOk};
ghost use Rattle.zapdu.specs.Place.{IsSpellable};
ghost use Rattle.zapdu.specs.Productions.Records.{whole_record};
ghost use Rattle.zknow.specs.Facts.{IsFact};

use std::alloc::{AllocError, Global};
use zapdu::{DiagRec, Record, diag_of, record_of};
use zapdu_rows::boxes::box_value;
use zapdu_rows::parts::Line;
use zber::Node;
use zber_rows::rows::{element, pair};
use zber_rows::unread::{Unread, read};
use zknow::{Fact, Knowledge};
use zknow_rows::shown::{put_counts, put_facts, put_known};

// The element that a word names: digits; or of two octets, a record of them in the syntax 1.2.840.10003.5.10 with the
// shortest lengths; or behind `~` the same with longer lengths.
fn digits_of(alloc: Global, word: &str) -> Result<String, AllocError> {
    match word.as_bytes() {
        [first, second] => format!(in alloc;
            "3013a111a10f280d06072a8648ce13050a8102{first:02x}{second:02x}"
        ),
        [b'~', first, second] => format!(in alloc;
            "308115a113a1112882000d06072a8648ce13050a8102{first:02x}{second:02x}"
        ),
        _ => word.to_string(alloc),
    }
}

fn node_of(alloc: Global, word: &str) -> Result<Node, Unread> {
    let Ok(digits) = digits_of(alloc, word) else {
        return Err(Unread);
    };
    element(alloc, digits.as_str())
}

fn record_in(alloc: Global, node: &Node) -> Result<Record, Unread>
    ensures { IfOk result (IsSpellable whole_record) }
{
    match record_of(alloc, node) {
        Ok(Some(record)) => Ok(record),
        _ => Err(Unread),
    }
}

fn record(alloc: Global, word: &str) -> Result<Record, Unread>
    ensures { IfOk result (IsSpellable whole_record) }
{
    let Ok(node) = node_of(alloc, word) else {
        return Err(Unread);
    };
    record_in(alloc, &node)
}

fn diag(alloc: Global, digits: &str) -> Result<DiagRec, Unread> {
    let Ok(node) = element(alloc, digits) else {
        return Err(Unread);
    };
    match diag_of(alloc, &node) {
        Ok(Some(diag)) => Ok(diag),
        _ => Err(Unread),
    }
}

// A number that is not below the least one.
fn number(text: &str, least: i64) -> Result<i64, Unread>
    ensures { IfOk result (λ n. least ≤ℤ n) }
{
    let Ok(number) = text.parse::<i64>() else {
        return Err(Unread);
    };
    if number < least {
        Err(Unread)
    } else {
        Ok(number)
    }
}

fn count_of(target: u32, set: u32, rest: &str) -> Result<Fact, Unread>
    ensures { IfOk result IsFact }
{
    let Ok(count) = number(rest, 0) else {
        return Err(Unread);
    };
    Ok(Fact::Count { target, set, count })
}

fn seen_of(alloc: Global, target: u32, set: u32, rest: &str) -> Result<Fact, Unread>
    ensures { IfOk result IsFact }
{
    let (position, word) = pair(rest);
    let Ok(position) = number(position, 1) else {
        return Err(Unread);
    };
    let Ok(rec) = record(alloc, word) else {
        return Err(Unread);
    };
    Ok(Fact::Seen {
        target,
        set,
        position,
        rec,
    })
}

fn diag_fact(alloc: Global, target: u32, set: u32, rest: &str) -> Result<Fact, Unread>
    ensures { IfOk result IsFact }
{
    let (place, word) = pair(rest);
    let Ok(place) = number(place, 0) else {
        return Err(Unread);
    };
    let Ok(diag) = diag(alloc, word) else {
        return Err(Unread);
    };
    Ok(Fact::Diag {
        target,
        set,
        place,
        diag,
    })
}

// A fact of a kind about a set.
fn about(alloc: Global, kind: &str, target: u32, set: u32, rest: &str) -> Result<Fact, Unread>
    ensures { IfOk result IsFact }
{
    match kind {
        "count" => count_of(target, set, rest),
        "failed" => Ok(Fact::Failed { target, set }),
        "seen" => seen_of(alloc, target, set, rest),
        "diag" => diag_fact(alloc, target, set, rest),
        _ => Err(Unread),
    }
}

/// The fact of a row.
pub(crate) fn fact(alloc: Global, row: &str) -> Result<Fact, Unread>
    ensures { IfOk result IsFact }
{
    let (kind, rest) = pair(row);
    let (target, rest) = pair(rest);
    let (set, rest) = pair(rest);
    match (target.parse::<u32>(), set.parse::<u32>()) {
        (Ok(target), Ok(set)) => about(alloc, kind, target, set, rest),
        _ => Err(Unread),
    }
}

/// Adds the fact of a row.
pub(crate) fn add(alloc: Global, knowledge: &mut Knowledge, row: &str) -> Result<(), Unread> {
    let Ok(fact) = fact(alloc, row) else {
        return Err(Unread);
    };
    read(knowledge.add(&fact))
}

fn add_all(alloc: Global, knowledge: &mut Knowledge, rows: &str) -> Result<(), Unread> {
    for row in rows.lines() {
        if add(alloc, knowledge, row).is_err() {
            return Err(Unread);
        }
    }
    Ok(())
}

/// Nothing known.
pub(crate) fn nothing(alloc: Global) -> Result<Box<Knowledge>, AllocError> {
    box_value(alloc, Knowledge::new(alloc))
}

/// A copy of what is known.
pub(crate) fn copy_of(alloc: Global, knowledge: &Knowledge) -> Result<Box<Knowledge>, AllocError> {
    match knowledge.copy() {
        Ok(copy) => box_value(alloc, copy),
        Err(_) => Err(AllocError),
    }
}

/// The knowledge of all facts of a table.
pub(crate) fn knowledge_of(alloc: Global, rows: &str) -> Result<Box<Knowledge>, Unread> {
    let Ok(mut knowledge) = nothing(alloc) else {
        return Err(Unread);
    };
    match add_all(alloc, &mut knowledge, rows) {
        Ok(()) => Ok(knowledge),
        Err(error) => Err(error),
    }
}

/// Whether these are all facts, in fact order, with a space before each.
pub(crate) fn has_facts(alloc: Global, knowledge: &Knowledge, due: &str) -> Result<bool, Unread> {
    let Ok(facts) = knowledge.facts() else {
        return Err(Unread);
    };
    let mut line = Line::new(alloc);
    put_facts(alloc, facts.as_slice(), &mut line);
    Ok(line.is(due.as_bytes()))
}

/// Whether this is known of the count of a set.
pub(crate) fn is_count(
    alloc: Global,
    knowledge: &Knowledge,
    target: u32,
    set: u32,
    due: &str,
) -> bool {
    let mut line = Line::new(alloc);
    put_counts(alloc, knowledge.count(target, set), &mut line);
    line.is(due.as_bytes())
}

/// Whether this is known of the record at a position of set 1 of target 0.
pub(crate) fn is_at(alloc: Global, knowledge: &Knowledge, position: i64, due: &str) -> bool {
    let mut line = Line::new(alloc);
    put_known(alloc, knowledge.at(0, 1, position), &mut line);
    line.is(due.as_bytes())
}
