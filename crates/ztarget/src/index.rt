//! The index of a database: each word, with its places.
ghost use Rattle.std.specs.Prelude.{◌≡◌, ◌+◌, ◌++◌, ◌∷◌, [], ◌<◌, ◌^◌, List, ℕ, length, IfOk, OnOk, None, false, unwrap_or};
ghost use Rattle.std.specs.List.Sorted.{IsStrictlySortedBy};
ghost use Rattle.std.specs.Map.{keys_of};
ghost use Rattle.std.specs.Cmp.Lexicographic.{slice_cmp};
ghost use Rattle.std.specs.Ordering.{nat_cmp};
ghost use Rattle.ztarget.specs.Words.{words};
ghost use Rattle.ztarget.specs.Indexing.{place, word_places, field_places, entry_places, at_word, indexed_places, IsIndexOf};
ghost use Rattle.ztarget.specs.Indexing.{is_searched_place, is_last, entries_at, begun, all_indexed_places};

use crate::database::{Entry, Field};
use crate::matching::is_searched_field;
use crate::word::Word;
use crate::words::words;
use std::alloc::{AllocError, Global};
use std::collections::BTreeMap;
use std::marker::Model;

/// The place of a word: the number of its entry, of the field in the entry, and of the word in the field, each counted
/// from 0.
#[derive(Clone, Copy, PartialEq, Eq, PartialOrd, Ord)]
pub(crate) struct Place {
    pub(crate) entry: u32,
    pub(crate) field: usize,
    pub(crate) word: usize,
}

/// The places of a word, in order.
#[derive(Drop)]
pub(crate) struct Places {
    items: Vec<Place>,
}

impl Model for Places {
    ghost use Rattle.std.specs.Prelude.{List};
    ghost use Rattle.ztarget.specs.declared.index.Place.{Place};

    ghost Value = { List Place };

    ghost view = { λ p. p.items.items };
}

/// Each word of a database's fields, with its places.
#[derive(Drop)]
pub(crate) struct Index {
    alloc: Global,
    words: BTreeMap<Word, Places, Global>,
}

impl Model for Index {
    ghost use Rattle.std.specs.Prelude.{List, ℕ};
    ghost use Rattle.ztarget.specs.declared.index.Place.{Place};

    ghost Value = { List (List ℕ × List Place) };

    ghost view = { λ i. i.words.entries };
}

impl Places {
    /// Creates an empty list. It takes no memory.
    fn new(alloc: Global) -> Places
        ensures { result ≡ [] }
    {
        Places {
            items: Vec::new(alloc),
        }
    }

    fn push(&mut self, place: Place) -> Result<(), AllocError>
        ensures { OnOk result (self.new ≡ self.old ++ place ∷ []) }
    {
        self.items.push(place)?;
        Ok(())
    }

    fn as_slice(&self) -> &[Place]
        ensures { result.now ≡ self.now }
    {
        &self.items
    }
}

impl Index {
    /// Creates an index of no word. It takes no memory.
    fn new(alloc: Global) -> Index
        ensures { result ≡ [] }
    {
        Index {
            alloc,
            words: BTreeMap::new(alloc),
        }
    }

    /// Appends a place to those of a word.
    fn put(&mut self, word: &Word, place: Place) -> Result<(), AllocError>
        ensures { OnOk result ((w : List ℕ) → indexed_places self.new w ≡ indexed_places self.old w
            ++ at_word w ((word.now, place) ∷ [])) }
    {
        if let Some(places) = self.words.get_mut(word) {
            return places.push(place);
        }
        let mut places = Places::new(self.alloc);
        places.push(place)?;
        let copy = word.again()?;
        self.words.insert(copy, places)?;
        Ok(())
    }

    /// Returns the places of a word, in order.
    pub(crate) fn places(&self, word: &Word) -> &[Place]
        ensures { result.now ≡ indexed_places self.now word.now }
    {
        match self.words.get(word) {
            Some(places) => places.as_slice(),
            None => &[],
        }
    }

    /// Returns the places of the words that begin with this one, word by word.
    pub(crate) fn beginning(&self, alloc: Global, word: &Word) -> Result<Vec<Place>, AllocError>
        ensures places { IfOk result (λ found. found.items ≡ all_indexed_places (begun word.now self.now)) }
        ensures in_order { IsStrictlySortedBy (slice_cmp nat_cmp) (keys_of self.now) }
    {
        let mut found = Vec::new(alloc);
        let range = self.words.range(word..);
        for (key, places) in range {
            if !key.as_slice().starts_with(word.as_slice()) {
                break;
            }
            found.extend_from_slice(places.as_slice())?;
        }
        Ok(found)
    }
}

/// Adds the words of a field, with their places.
fn put_words(index: &mut Index, entry: u32, field: usize, words: &[Word]) -> Result<(), AllocError>
    ensures { OnOk result ((w : List ℕ) → indexed_places index.new w ≡ indexed_places index.old w
        ++ at_word w (word_places entry field 0 words.now)) }
{
    let mut word = 0;
    let mut left = words;
    while let [next, others @ ..] = left {
        index.put(next, Place { entry, field, word })?;
        word += 1;
        left = others;
    }
    Ok(())
}

/// Adds the words of an entry's fields, with their places.
fn put_fields(
    alloc: Global,
    index: &mut Index,
    entry: u32,
    fields: &[Field],
) -> Result<(), AllocError>
    ensures { OnOk result ((w : List ℕ) → indexed_places index.new w ≡ indexed_places index.old w
        ++ at_word w (field_places entry 0 fields.now)) }
{
    let mut number = 0;
    for field in fields {
        let words = words(alloc, field.text.as_slice())?;
        put_words(index, entry, number, &words)?;
        number += 1;
    }
    Ok(())
}

/// Returns the index of entries.
pub(crate) fn index_of(alloc: Global, entries: &[Entry]) -> Result<Index, AllocError>
    requires { length entries.now < 2 ^ 32 }
    ensures { IfOk result (IsIndexOf entries.now) }
{
    let mut index = Index::new(alloc);
    let mut number = 0;
    for entry in entries {
        put_fields(alloc, &mut index, number, entry.fields.as_slice())?;
        number += 1;
    }
    Ok(index)
}

/// Returns whether searches with this Use look in the field of the place.
pub(crate) fn is_searched_place(used: i64, entries: &[Entry], place: Place) -> bool
    ensures { result ≡ is_searched_place used entries.now place }
{
    match entries.get(place.entry as usize) {
        None => false,
        Some(entry) => match entry.fields.as_slice().get(place.field) {
            None => false,
            Some(field) => is_searched_field(used, field),
        },
    }
}

/// Returns whether the entry is the last that was found.
fn is_last(last: Option<u32>, entry: u32) -> bool
    ensures { result ≡ is_last last entry }
{
    match last {
        None => false,
        Some(last) => last == entry,
    }
}

/// Returns the entries of those places whose field searches with this Use look in. Of places of the same entry that
/// follow one another, one counts.
pub(crate) fn entries_at(
    alloc: Global,
    used: i64,
    entries: &[Entry],
    places: &[Place],
) -> Result<Vec<u32>, AllocError>
    ensures { IfOk result (λ found. found.items ≡ entries_at (is_searched_place used entries.now) None places.now) }
{
    let mut found = Vec::new(alloc);
    let mut last = None;
    let mut left = places;
    while let [place, others @ ..] = left {
        if !is_last(last, place.entry) && is_searched_place(used, entries, *place) {
            found.push(place.entry)?;
            last = Some(place.entry);
        }
        left = others;
    }
    Ok(found)
}
