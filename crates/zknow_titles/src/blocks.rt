//! The head of the view: a line for each target's set of which something is known.
ghost use Rattle.std.specs.Prelude.{◌≡◌, ◌++◌, ◌∷◌, OnOk, IfOk, map, string_bytes};
ghost use Rattle.std.specs.Fmt.{signed_decimal};
ghost use Rattle.std.specs.List.{flat_map, list_any, count_by};
ghost use Rattle.zknow.specs.Known.{IsKnownOf, counts_at, records_at, referenced_pairs};
ghost use Rattle.zknow_titles.specs.Blocks.{joined_behind, joined_by, is_shown_at, shown_count, count_text, count_part, behind_colon, heading, failure_part, search_text, request_text, filled_by, block_parts, block_line};
ghost use Rattle.zknow_titles.specs.Entries.{is_shown};
ghost use Rattle.zknow_titles.specs.Lines.{ended_line};

use crate::diagnostics::put_diag;
use crate::entries::is_shown;
use crate::filled::Filled;
use crate::names::label_of;
use std::alloc::{AllocError, Global};
use zapdu::{DiagRec, Record};
use zknow::{Knowledge, Known, SetKey};

/// Appends texts, each behind a separator.
fn put_behind(separator: &str, texts: &[String], line: &mut String) -> Result<(), AllocError>
    ensures { OnOk result (string_bytes line.new
        ≡ string_bytes line.old ++ joined_behind separator.now (map string_bytes texts.now)) }
{
    for text in texts {
        line.push_str(separator)?;
        line.push_str(text.as_str())?;
    }
    Ok(())
}

/// Appends texts with a separator between each two.
pub fn put_joined(separator: &str, texts: &[String], line: &mut String) -> Result<(), AllocError>
    ensures { OnOk result (string_bytes line.new
        ≡ string_bytes line.old ++ joined_by separator.now (map string_bytes texts.now)) }
{
    match texts {
        [] => Ok(()),
        [first, rest @ ..] => {
            line.push_str(first.as_str())?;
            put_behind(separator, rest, line)
        }
    }
}

/// Returns numbers in decimal.
pub fn show_numbers(alloc: Global, numbers: &[i64]) -> Result<Vec<String>, AllocError>
    ensures { IfOk result (λ shown. map string_bytes shown.items ≡ map signed_decimal numbers.now) }
{
    let mut shown = Vec::new(alloc);
    for number in numbers {
        let text = number.to_string(alloc)?;
        shown.push(text)?;
    }
    Ok(shown)
}

/// Returns the counts of a set that are known.
pub fn counts_of<'a>(knowledge: &'a Knowledge, key: &SetKey) -> &'a [i64]
    ensures { result.now ≡ counts_at key.now.target key.now.set knowledge.now }
{
    match knowledge.count(key.target, key.set) {
        Known::Nothing => &[],
        Known::One(count) => std::slice::from_ref(count),
        Known::Conflict(counts) => counts,
    }
}

/// Returns what is known of the record at a position of a set.
fn known_at<'a>(
    knowledge: &'a Knowledge,
    target: u32,
    set: u32,
    position: &i64,
) -> Known<'a, Record>
    ensures { IsKnownOf result (records_at target set position.now knowledge.now) }
{
    knowledge.at(target, set, *position)
}

/// Returns the records that are known at a position of a set.
pub fn records_of<'a>(
    knowledge: &'a Knowledge,
    target: u32,
    set: u32,
    position: &i64,
) -> &'a [Record]
    ensures { result.now ≡ records_at target set position.now knowledge.now }
{
    match known_at(knowledge, target, set, position) {
        Known::Nothing => &[],
        Known::One(record) => std::slice::from_ref(record),
        Known::Conflict(records) => records,
    }
}

/// Tells whether one of the records is no reason why there is none.
fn has_shown(records: &[Record]) -> bool
    ensures { result ≡ list_any is_shown records.now }
{
    for record in records {
        if is_shown(record) {
            return true;
        }
    }
    false
}

/// Tells whether a record is shown at a position of a set.
pub(crate) fn is_shown_at(knowledge: &Knowledge, key: &SetKey, position: &i64) -> bool
    ensures { result ≡ is_shown_at knowledge.now key.now.target key.now.set position.now }
{
    has_shown(records_of(knowledge, key.target, key.set, position))
}

/// Counts those of the positions at which a record is shown.
fn count_shown_at(knowledge: &Knowledge, key: &SetKey, positions: &[i64]) -> usize
    ensures { result ≡ count_by (is_shown_at knowledge.now key.now.target key.now.set) positions.now }
{
    let mut count = 0;
    for position in positions {
        if is_shown_at(knowledge, key, position) {
            count += 1;
        }
    }
    count
}

/// Counts the positions of a set at which a record is shown.
pub fn count_shown(knowledge: &Knowledge, key: &SetKey) -> Result<usize, AllocError>
    ensures { IfOk result (λ count. count ≡ shown_count knowledge.now key.now.target key.now.set) }
{
    let positions = knowledge.positions(key.target, key.set)?;
    Ok(count_shown_at(knowledge, key, &positions))
}

/// Returns the counts in words, and at how many positions a record is shown, as `24 or 25 found, 2 shown`. Several
/// records at one position count once.
fn show_counts(alloc: Global, shown: u64, counts: &[i64]) -> Result<String, AllocError>
    ensures { IfOk result (λ text. string_bytes text ≡ count_text shown counts.now) }
{
    let mut text = String::new(alloc);
    let numbers = show_numbers(alloc, counts)?;
    put_joined(" or ", &numbers, &mut text)?;
    text.push_str(" found, ")?;
    let number = shown.to_string(alloc)?;
    text.push_str(number.as_str())?;
    text.push_str(" shown")?;
    Ok(text)
}

/// Appends the counts in words, where any is known.
fn put_counts(
    alloc: Global,
    shown: u64,
    counts: &[i64],
    parts: &mut Vec<String>,
) -> Result<(), AllocError>
    ensures { OnOk result (map string_bytes parts.new.items
        ≡ map string_bytes parts.old.items ++ count_part shown counts.now) }
{
    if counts.is_empty() {
        return Ok(());
    }
    let text = show_counts(alloc, shown, counts)?;
    parts.push(text)?;
    Ok(())
}

/// Appends diagnostics in words behind a colon, nothing if there is none.
fn put_behind_colon(texts: &[String], line: &mut String) -> Result<(), AllocError>
    ensures { OnOk result (string_bytes line.new
        ≡ string_bytes line.old ++ behind_colon (map string_bytes texts.now)) }
{
    if texts.is_empty() {
        return Ok(());
    }
    line.push_str(": ")?;
    put_joined(", ", texts, line)
}

/// Returns what failed, or what diagnostics are of.
fn heading(set: u32, failed: bool) -> &'static str
    ensures { result.now ≡ heading set failed }
{
    if !failed {
        return "search";
    }
    if set == 0 {
        "association refused"
    } else {
        "search refused"
    }
}

/// Appends the failure of a search and its diagnostics, where there is any of these.
pub fn put_failure(
    alloc: Global,
    set: u32,
    failed: bool,
    texts: &[String],
    parts: &mut Vec<String>,
) -> Result<(), AllocError>
    ensures { OnOk result (map string_bytes parts.new.items
        ≡ map string_bytes parts.old.items ++ failure_part set failed (map string_bytes texts.now)) }
{
    if !failed && texts.is_empty() {
        return Ok(());
    }
    let mut text = String::from_str(alloc, heading(set, failed))?;
    put_behind_colon(texts, &mut text)?;
    parts.push(text)?;
    Ok(())
}

/// Appends a diagnostic in words, if it is one of a search.
fn put_search_text(
    alloc: Global,
    place: i64,
    diag: &DiagRec,
    texts: &mut Vec<String>,
) -> Result<(), AllocError>
    ensures { OnOk result (map string_bytes texts.new.items
        ≡ map string_bytes texts.old.items ++ search_text (place, diag.now)) }
{
    if place != 0 {
        return Ok(());
    }
    let mut text = String::new(alloc);
    put_diag(alloc, diag, &mut text)?;
    texts.push(text)?;
    Ok(())
}

/// Returns the diagnostics of a search in words.
pub fn show_search(alloc: Global, diags: &[(i64, &DiagRec)]) -> Result<Vec<String>, AllocError>
    ensures { IfOk result (λ texts. map string_bytes texts.items ≡ flat_map search_text (referenced_pairs diags.now)) }
{
    let mut texts = Vec::new(alloc);
    for found in diags {
        put_search_text(alloc, found.0, found.1, &mut texts)?;
    }
    Ok(texts)
}

/// Appends a diagnostic in words, if it is one of a request for records: from which position on, and which.
fn put_request_text(
    alloc: Global,
    place: i64,
    diag: &DiagRec,
    parts: &mut Vec<String>,
) -> Result<(), AllocError>
    ensures { OnOk result (map string_bytes parts.new.items
        ≡ map string_bytes parts.old.items ++ request_text (place, diag.now)) }
{
    if place == 0 {
        return Ok(());
    }
    let mut text = String::from_str(alloc, "records from ")?;
    let number = place.to_string(alloc)?;
    text.push_str(number.as_str())?;
    text.push_str(": ")?;
    put_diag(alloc, diag, &mut text)?;
    parts.push(text)?;
    Ok(())
}

/// Appends the diagnostics of requests for records.
pub fn put_requests(
    alloc: Global,
    diags: &[(i64, &DiagRec)],
    parts: &mut Vec<String>,
) -> Result<(), AllocError>
    ensures { OnOk result (map string_bytes parts.new.items
        ≡ map string_bytes parts.old.items ++ flat_map request_text (referenced_pairs diags.now)) }
{
    for found in diags {
        put_request_text(alloc, found.0, found.1, parts)?;
    }
    Ok(())
}

/// Returns what is known of a set, in words, if a record is shown at so many positions.
fn find_parts(
    alloc: Global,
    shown: u64,
    knowledge: &Knowledge,
    key: &SetKey,
) -> Result<Vec<String>, AllocError>
    ensures { IfOk result (λ parts. map string_bytes parts.items ≡ block_parts shown knowledge.now key.now) }
{
    let mut parts = Vec::new(alloc);
    put_counts(alloc, shown, counts_of(knowledge, key), &mut parts)?;
    let diags = knowledge.diags(key.target, key.set)?;
    let texts = show_search(alloc, &diags)?;
    let failed = knowledge.is_failed(key.target, key.set);
    put_failure(alloc, key.set, failed, &texts, &mut parts)?;
    put_requests(alloc, &diags, &mut parts)?;
    Ok(parts)
}

/// Returns the line of a set.
pub(crate) fn show_block(
    alloc: Global,
    filled: Filled<'_>,
    shown: &[String],
    knowledge: &Knowledge,
    key: &SetKey,
) -> Result<String, AllocError>
    ensures { IfOk result (λ line. string_bytes line
        ≡ block_line (filled_by filled.entry knowledge.now) (map string_bytes shown.now) knowledge.now key.now) }
{
    let count = filled.count(knowledge, key)?;
    let mut line = label_of(alloc, shown, key.target, key.set)?;
    line.push_str(": ")?;
    let parts = find_parts(alloc, count, knowledge, key)?;
    put_joined("; ", &parts, &mut line)?;
    Ok(line)
}

/// Appends the line of a set.
pub(crate) fn put_block(
    alloc: Global,
    filled: Filled<'_>,
    shown: &[String],
    knowledge: &Knowledge,
    key: &SetKey,
    out: &mut Vec<u8>,
) -> Result<(), AllocError>
    ensures { OnOk result (out.new.items
        ≡ out.old.items ++ ended_line (block_line (filled_by filled.entry knowledge.now) (map string_bytes shown.now)
        knowledge.now key.now)) }
{
    let line = show_block(alloc, filled, shown, knowledge, key)?;
    out.extend_from_slice(line.as_bytes())?;
    out.extend_from_slice(b"\n")
}
