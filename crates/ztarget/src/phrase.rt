//! Which entries have a phrase: words, one after the other, in a field. They are looked up word by word.
ghost use Rattle.std.specs.Prelude.{◌≡◌, ◌+◌, ◌<◌, [], ◌∷◌, true, length, IfOk};
ghost use Rattle.std.specs.Ordering.{nat_cmp};
ghost use Rattle.ztarget.specs.Indexing.{IsIndexOf};
ghost use Rattle.ztarget.specs.Phrasing.{phrase_places, with_phrase, place_cmp, next_place, preceding};

use crate::database::Entry;
use crate::index::{Index, Place, entries_at};
use crate::word::Word;
use std::alloc::{AllocError, Global};
use std::cmp::Ordering;

/// Compares `later` with the number after `number`.
fn compared_with_next(later: usize, number: usize) -> Ordering
    ensures { result ≡ nat_cmp later (number + 1) }
{
    if later <= number {
        Ordering::Less
    } else if later - number == 1 {
        Ordering::Equal
    } else {
        Ordering::Greater
    }
}

/// Compares `later` with the place of the word after `place`.
fn compare(later: Place, place: Place) -> Ordering
    ensures { result ≡ place_cmp later (next_place place) }
{
    later
        .entry
        .cmp(&place.entry)
        .then(later.field.cmp(&place.field))
        .then(compared_with_next(later.word, place.word))
}

/// Returns the places of the first list whose next word has a place in the second. It walks both together.
fn preceding(alloc: Global, places: &[Place], later: &[Place]) -> Result<Vec<Place>, AllocError>
    ensures { IfOk result (λ found. found.items ≡ preceding places.now later.now) }
{
    let mut found = Vec::new(alloc);
    let mut left = places;
    let mut right = later;
    while let [place, behind @ ..] = left {
        let [next, others @ ..] = right else {
            return Ok(found);
        };
        match compare(*next, *place) {
            Ordering::Less => right = others,
            Ordering::Equal => {
                found.push(*place)?;
                left = behind;
            }
            Ordering::Greater => left = behind,
        }
    }
    Ok(found)
}

/// Returns the places of the words that begin with this one, in order.
fn truncated_places(
    alloc: Global,
    index: &Index,
    entries: &[Entry],
    word: &Word,
) -> Result<Vec<Place>, AllocError>
    requires { IsIndexOf entries.now index.now }
    ensures { IfOk result (λ found. found.items ≡ phrase_places true (word.now ∷ []) entries.now) }
{
    let mut found = index.beginning(alloc, word)?;
    found.sort_unstable();
    found.dedup();
    Ok(found)
}

/// Returns the places of the last word of a phrase, in order.
fn last_places(
    alloc: Global,
    index: &Index,
    entries: &[Entry],
    truncated: bool,
    word: &Word,
) -> Result<Vec<Place>, AllocError>
    requires { IsIndexOf entries.now index.now }
    ensures { IfOk result (λ found. found.items ≡ phrase_places truncated (word.now ∷ []) entries.now) }
{
    if truncated {
        return truncated_places(alloc, index, entries, word);
    }
    let mut found = Vec::new(alloc);
    found.extend_from_slice(index.places(word))?;
    Ok(found)
}

/// Returns the places where a phrase begins, in order. It begins with the places of the last word. For each word before
/// it keeps the places whose next word was found.
fn phrase_places(
    alloc: Global,
    index: &Index,
    entries: &[Entry],
    truncated: bool,
    asked: &[Word],
) -> Result<Vec<Place>, AllocError>
    requires index { IsIndexOf entries.now index.now }
    requires some { 0 < length asked.now }
    ensures { IfOk result (λ found. found.items ≡ phrase_places truncated asked.now entries.now) }
{
    let last = asked.len() - 1;
    let mut found = last_places(alloc, index, entries, truncated, &asked[last])?;
    for i in (0..last).rev() {
        found = preceding(alloc, index.places(&asked[i]), &found)?;
    }
    Ok(found)
}

/// Returns the entries that have the words, one after the other, in a field of the Use, in order. With truncation the
/// last may be the beginning of a word. There is at least one word.
fn with_words(
    alloc: Global,
    index: &Index,
    entries: &[Entry],
    used: i64,
    truncated: bool,
    asked: &[Word],
) -> Result<Vec<u32>, AllocError>
    requires index { IsIndexOf entries.now index.now }
    requires some { 0 < length asked.now }
    ensures { IfOk result (λ found. found.items ≡ with_phrase used truncated asked.now entries.now) }
{
    match asked {
        [word] if !truncated => entries_at(alloc, used, entries, index.places(word)),
        _ => {
            let places = phrase_places(alloc, index, entries, truncated, asked)?;
            entries_at(alloc, used, entries, &places)
        }
    }
}

/// Returns the entries that have the words, one after the other, in a field of the Use, in order. With truncation the
/// last may be the beginning of a word. No entry has a phrase of no words.
pub(crate) fn with_phrase(
    alloc: Global,
    index: &Index,
    entries: &[Entry],
    used: i64,
    truncated: bool,
    asked: &[Word],
) -> Result<Vec<u32>, AllocError>
    requires { IsIndexOf entries.now index.now }
    ensures { IfOk result (λ found. found.items ≡ with_phrase used truncated asked.now entries.now) }
{
    match asked {
        [] => Ok(Vec::new(alloc)),
        _ => with_words(alloc, index, entries, used, truncated, asked),
    }
}
