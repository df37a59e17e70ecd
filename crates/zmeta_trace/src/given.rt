//! The entries that tell what a search was given.
ghost use Rattle.std.specs.Prelude.{◌≡◌, ◌++◌, ◌∷◌, [], map, IfOk, OnOk};
ghost use Rattle.std.specs.Option.{option_map};
ghost use Rattle.zoom_trace.specs.Recording.{began};
ghost use Rattle.zmeta_world.specs.Search.{search_texts};
ghost use Rattle.zmeta_trace.specs.Given.{given_for, text_entry, text_entries, search_entries, name_entries, given_entries};

use crate::parts::Part;
use bytes::Bytes;
use std::alloc::{AllocError, Global};
use zmeta_world::search::Search;
use zoom_trace::{Given, TraceEntry, Traced};

/// The version of the format.
const VERSION: u64 = 1;

/// Octets that are given for a part.
fn given_for(part: Part, octets: Bytes) -> Given
    ensures { result ≡ given_for part octets }
{
    match part {
        Part::World => Given::World(octets),
        Part::Query => Given::Query(octets),
        Part::Records => Given::Records(octets),
        Part::Elements => Given::Elements(octets),
        Part::Syntax => Given::Syntax(octets),
        Part::Only => Given::Only(octets),
    }
}

/// Appends the entry of what was given before the search began.
fn put_given(given: Given, entries: &mut Vec<TraceEntry>) -> Result<(), AllocError>
    ensures { OnOk result (entries.new.items ≡ entries.old.items ++ began 0 given ∷ []) }
{
    entries.push(TraceEntry {
        at: 0,
        what: Traced::Began { given },
    })?;
    Ok(())
}

/// Appends the entry of a part.
fn put_part(
    alloc: Global,
    part: Part,
    text: &[u8],
    entries: &mut Vec<TraceEntry>,
) -> Result<(), AllocError>
    ensures { OnOk result (entries.new.items ≡ entries.old.items ++ text_entry part text.now ∷ []) }
{
    let octets = Bytes::copy_from_slice(alloc, text)?;
    put_given(given_for(part, octets), entries)
}

/// Appends the entry of a part, if it has a text.
fn put_text(
    alloc: Global,
    part: Part,
    text: Option<&[u8]>,
    entries: &mut Vec<TraceEntry>,
) -> Result<(), AllocError>
    ensures { OnOk result (entries.new.items
        ≡ entries.old.items ++ text_entries part (option_map (λ text. text.now) text.entry)) }
{
    match text {
        Some(text) => put_part(alloc, part, text, entries),
        None => Ok(()),
    }
}

/// Appends the entries of what is put to every question.
fn put_search(
    alloc: Global,
    search: &Search<'_>,
    entries: &mut Vec<TraceEntry>,
) -> Result<(), AllocError>
    ensures { OnOk result (entries.new.items ≡ entries.old.items ++ search_entries (search_texts search.now)) }
{
    put_text(alloc, Part::Query, search.query, entries)?;
    put_text(alloc, Part::Records, search.records, entries)?;
    put_text(alloc, Part::Elements, search.elements, entries)?;
    put_text(alloc, Part::Syntax, search.syntax, entries)
}

/// Appends the entries of the names that were chosen.
fn put_names(alloc: Global, only: &[&str], entries: &mut Vec<TraceEntry>) -> Result<(), AllocError>
    ensures { OnOk result (entries.new.items
        ≡ entries.old.items ++ name_entries (map (λ name. name.now) only.now)) }
{
    for name in only {
        put_part(alloc, Part::Only, name.as_bytes(), entries)?;
    }
    Ok(())
}

/// Returns the entries of what a search was given before it began: the version of the format, the world file, what is
/// put to every question, and the names that were chosen. The world file's octets are shared.
pub fn given_entries(
    alloc: Global,
    world: Bytes,
    search: &Search<'_>,
    only: &[&str],
) -> Result<Vec<TraceEntry>, AllocError>
    ensures { IfOk result (λ v. v.items
        ≡ given_entries world (search_texts search.now) (map (λ name. name.now) only.now)) }
{
    let mut entries = Vec::new(alloc);
    put_given(Given::Version(VERSION), &mut entries)?;
    put_given(Given::World(world), &mut entries)?;
    put_search(alloc, search, &mut entries)?;
    put_names(alloc, only, &mut entries)?;
    Ok(entries)
}
