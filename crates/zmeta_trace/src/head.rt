//! The head of a trace: what the search was given.
ghost use Rattle.std.specs.Prelude.{◌≡◌, ◌+◌, ◌-◌, map, IfOk, OnOk};
ghost use Rattle.std.specs.Option.{option_map};
ghost use Rattle.zmeta_world.specs.Search.{search_texts};
ghost use Rattle.zmeta_trace.specs.Heads.{search_in, behind_search, names_in, behind_names, begun_in, head_in, head_texts, number_at, HeadResult};

use crate::parts::{Measure, Part, Rest};
use std::alloc::{AllocError, Global};
use zmeta_world::search::Search;
use zoom_asking::Manner;
use zoom_trace::{TraceEntry, TraceError};

/// How hosts are talked with, from when on, and for how long. Times are nanoseconds.
#[derive(Clone, Copy, PartialEq, Eq)]
pub struct Begun {
    /// When the search began, by the clock of the trace.
    pub start: u64,
    pub manner: Manner,
    /// How long a host may take to connect.
    pub connect: u64,
    /// How long a host may be silent.
    pub patience: u64,
    /// How long all may take.
    pub total: Option<u64>,
}

/// What a search was given. Octets are as they were given.
#[derive(Drop)]
pub struct Head<'t> {
    /// The world file.
    pub world: &'t [u8],
    /// What is put to every question.
    pub search: Search<'t>,
    /// The names of the questions that were chosen: all if it is empty.
    pub only: Vec<&'t [u8]>,
    pub begun: Begun,
}

/// Reads what is put to every question.
fn read_search<'t>(rest: &mut Rest<'t>) -> Search<'t>
    ensures search { search_texts result ≡ search_in rest.old.entries.now }
    ensures rest { rest.new.entries.now ≡ behind_search rest.old.entries.now }
{
    let query = rest.text(Part::Query);
    let records = rest.text(Part::Records);
    let elements = rest.text(Part::Elements);
    let syntax = rest.text(Part::Syntax);
    Search {
        query,
        records,
        elements,
        syntax,
    }
}

/// Reads the names that were chosen.
fn read_names<'t>(alloc: Global, rest: &mut Rest<'t>) -> Result<Vec<&'t [u8]>, AllocError>
    ensures names { IfOk result (λ v. map (λ name. name.now) v.items ≡ names_in rest.old.entries.now) }
    ensures rest { OnOk result (rest.new.entries.now ≡ behind_names rest.old.entries.now) }
{
    let mut names = Vec::new(alloc);
    while let Some(name) = rest.text(Part::Only) {
        names.push(name)?;
    }
    Ok(names)
}

/// Reads how the hosts are talked with. `None` if an entry is out of place: the rest begins with it.
#[tactic(auto, unfolding(crate::specs::Heads::begun_in))]
fn read_begun(rest: &mut Rest<'_>) -> Option<Begun>
    ensures { (result, rest.new.entries.now) ≡ begun_in rest.old.entries.now }
{
    let (start, manner) = rest.manner()?;
    let connect = rest.number(Measure::Connect)?;
    let patience = rest.number(Measure::Patience)?;
    let total = rest.number(Measure::Total);
    Some(Begun {
        start,
        manner,
        connect,
        patience,
        total,
    })
}

/// Reads the head. `None` if an entry is out of place: the rest begins with it.
#[tactic(auto, unfolding(crate::specs::Heads::head_in))]
fn read_parts<'t>(alloc: Global, rest: &mut Rest<'t>) -> Result<Option<Head<'t>>, AllocError>
    ensures { IfOk result (λ head. (option_map head_texts head, rest.new.entries.now)
        ≡ head_in rest.old.entries.now) }
{
    if !rest.version() {
        return Ok(None);
    }
    let Some(world) = rest.text(Part::World) else {
        return Ok(None);
    };
    let search = read_search(rest);
    let only = read_names(alloc, rest)?;
    let Some(begun) = read_begun(rest) else {
        return Ok(None);
    };
    if rest.is_given() {
        return Ok(None);
    }
    Ok(Some(Head {
        world,
        search,
        only,
        begun,
    }))
}

/// The number, from 1, of the first entry of the rest.
fn number_at(entries: &[TraceEntry], rest: &[TraceEntry]) -> u64
    ensures { result ≡ number_at entries.now rest.now }
{
    entries.len().saturating_sub(rest.len()) as u64 + 1
}

/// Reads the head of a trace. `Refused` gives the first entry, from 1, that is out of place or misses: the head has the
/// version 1, the world file, what is put to every question (query, records, elements, syntax, as many as there are),
/// the names that were chosen, the manner, and the limits (connect, patience, and total if there is one), in this
/// order.
pub fn read_head<'t>(alloc: Global, entries: &'t [TraceEntry]) -> Result<Head<'t>, TraceError>
    ensures { HeadResult entries.entry.now result }
{
    let mut rest = Rest { entries };
    match read_parts(alloc, &mut rest)? {
        Some(head) => Ok(head),
        None => Err(TraceError::Refused {
            line: number_at(entries, rest.entries),
        }),
    }
}
