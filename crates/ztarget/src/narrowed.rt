//! Narrows entries that were found to those that have a word as well. Each is looked up among the places of the word by
//! binary search.
ghost use Rattle.std.specs.Prelude.{◌≡◌, IfOk};
ghost use Rattle.ztarget.specs.Narrowing.{AreInEntryOrder, has_entry, AreEntriesAtPlaces};

use crate::database::Entry;
use crate::index::{Place, is_searched_place};
use crate::merging::put;
use std::alloc::{AllocError, Global};

/// Returns whether one of the places is in this entry, in a field that searches with the Use look in. None of the
/// places is in an entry before this one.
fn has_entry_at_front(used: i64, entries: &[Entry], places: &[Place], entry: u32) -> bool
    ensures { AreInEntryOrder entry places.now → result ≡ has_entry used entries.now places.now entry }
{
    let mut left = places;
    while let [place, others @ ..] = left {
        if place.entry != entry {
            return false;
        }
        if is_searched_place(used, entries, *place) {
            return true;
        }
        left = others;
    }
    false
}

/// Returns whether one of the places of a word is in this entry, in a field that searches with the Use look in.
fn has_entry(used: i64, entries: &[Entry], places: &[Place], entry: u32) -> bool
    ensures { AreInEntryOrder 0 places.now → result ≡ has_entry used entries.now places.now entry }
{
    let first = places.partition_point(|place| place.entry < entry);
    has_entry_at_front(used, entries, &places[first..], entry)
}

/// Returns those of the entries that have one of the places of a word, in a field that searches with the Use look in.
pub(crate) fn narrowed_places(
    alloc: Global,
    used: i64,
    entries: &[Entry],
    places: &[Place],
    among: &[u32],
) -> Result<Vec<u32>, AllocError>
    ensures { IfOk result (λ found. AreEntriesAtPlaces used entries.now places.now among.now found.items) }
{
    let mut found = Vec::new(alloc);
    let mut left = among;
    while let [entry, others @ ..] = left {
        put(has_entry(used, entries, places, *entry), *entry, &mut found)?;
        left = others;
    }
    Ok(found)
}
