//! Reads the lines of a trace.
ghost use Rattle.std.specs.Prelude.{◌≡◌, ◌∷◌, ◌++◌, ◌+◌, ◌<◌, length, IfSome, IfNone};
ghost use Rattle.zoom_trace.specs.Traces.{HasNoFeed, LineResult, TraceResult};

use crate::entry::TraceEntry;
use crate::fault::{EntryError, TraceError};
use crate::reading::read_entry;
use std::alloc::Global;

/// The entries of a trace.
#[derive(Drop)]
pub struct Trace {
    /// In the order of their lines.
    pub entries: Vec<TraceEntry>,
    /// Whether the text ends within a line, without a line feed. That line was not read.
    pub is_cut: bool,
}

/// Returns the first line of a text, without its line feed, and the text behind that. Returns `None` if the text has no
/// line feed.
fn first_line(text: &[u8]) -> Option<(&[u8], &[u8])>
    ensures whole { IfSome result (λ p. text.now ≡ p.0.now ++ 10 ∷ p.1.now) }
    ensures shorter { IfSome result (λ p. length p.1.now < length text.now) }
    ensures plain { IfSome result (λ p. HasNoFeed p.0.now) }
    ensures none { IfNone result (HasNoFeed text.now) }
{
    match text.iter().position(|octet| *octet == b'\n') {
        Some(place) => Some((&text[..place], &text[place + 1..])),
        None => None,
    }
}

/// Reads line `number`. `Refused` gives that number.
fn read_line(alloc: Global, number: u64, line: &[u8]) -> Result<TraceEntry, TraceError>
    ensures { LineResult number line.now result }
{
    match read_entry(alloc, line) {
        Ok(entry) => Ok(entry),
        Err(EntryError::Refused) => Err(TraceError::Refused { line: number }),
        Err(EntryError::Memory) => Err(TraceError::Memory),
    }
}

/// Reads the lines of a trace. `Refused` gives the first line that `put_entry` does not write, from 1. What stands
/// behind the last line feed is a line that was cut off; it is left out.
#[tactic(auto, using(crate::proofs::Reaching::one_more, crate::proofs::Reaching::writable_more, crate::proofs::Reaching::refused_line))]
pub fn read_trace(alloc: Global, text: &[u8]) -> Result<Trace, TraceError>
    ensures { TraceResult text.now result }
{
    let mut entries = Vec::new(alloc);
    let mut rest = text;
    while let Some((line, behind)) = first_line(rest) {
        let number = entries.len() as u64 + 1;
        let entry = match read_line(alloc, number, line) {
            Ok(entry) => entry,
            Err(error) => return Err(error),
        };
        entries.push(entry)?;
        rest = behind;
    }
    Ok(Trace {
        entries,
        is_cut: !rest.is_empty(),
    })
}
