//! Parts of ranges, read one after the other.
ghost use Rattle.std.specs.Prelude.{◌≡◌, [], ◌<◌, IfSome, IfNone, IfOk};
ghost use Rattle.zplan.specs.Ranges.{IsApart, IsBounded};
ghost use Rattle.zplan.specs.Cutting.{left_at, IsReadingPlace, IsNextPart, IsNextRun, IsNextList};

use crate::span::Span;
use std::alloc::{AllocError, Global};

/// A place in a list of ranges: `used` positions of range `at`, and all ranges before it, were read.
#[derive(Clone, Copy)]
pub struct Place {
    /// The range's index.
    pub at: usize,
    /// How many of its positions were read.
    pub used: u32,
}

/// Positions of one range, and the place after them.
#[derive(Clone, Copy)]
pub struct Part {
    /// The positions.
    pub range: Span,
    /// The place after them.
    pub next: Place,
}

/// Returns the next positions of one range, at most `room` of them, or `None` if none is left.
pub(crate) fn next_part(ranges: &[Span], place: Place, room: u32) -> Option<Part>
    // ranges that can be wanted, and a place of theirs
    requires wanted { IsApart 1 ranges.now }
    requires bounded { IsBounded ranges.now }
    requires place { IsReadingPlace ranges.now place }
    // limits of 1 or more
    requires room { 0 < room }
    // the result
    ensures some { IfSome result (λ p. IsNextPart ranges.now place room p) }
    ensures none { IfNone result (left_at ranges.now place ≡ []) }
{
    if place.at >= ranges.len() {
        return None;
    }
    let range = ranges[place.at];
    let have = range.n - place.used;
    let start = range.start + place.used;
    if have <= room {
        let next = Place {
            at: place.at + 1,
            used: 0,
        };
        Some(Part {
            range: Span { start, n: have },
            next,
        })
    } else {
        let next = Place {
            at: place.at,
            used: place.used + room,
        };
        Some(Part {
            range: Span { start, n: room },
            next,
        })
    }
}

/// A run, and how many more positions its list may have.
#[derive(Clone, Copy)]
pub struct Run {
    /// The positions.
    pub range: Span,
    /// The place after them.
    pub next: Place,
    /// How many more positions the list may have.
    pub room: u32,
}

/// Returns the next run, of at most `room` positions, or `None` if none is left. A list has `step` positions.
pub(crate) fn next_run(ranges: &[Span], place: Place, room: u32, step: u32) -> Option<Run>
    // ranges that can be wanted, and a place of theirs
    requires wanted { IsApart 1 ranges.now }
    requires bounded { IsBounded ranges.now }
    requires place { IsReadingPlace ranges.now place }
    // limits of 1 or more
    requires room { 0 < room }
    requires step { 0 < step }
    // the result
    ensures some { IfSome result (λ r. IsNextRun ranges.now place room step r) }
    ensures none { IfNone result (left_at ranges.now place ≡ []) }
{
    let part = next_part(ranges, place, room)?;
    let left = if part.range.n == room {
        step
    } else {
        room - part.range.n
    };
    Some(Run {
        range: part.range,
        next: part.next,
        room: left,
    })
}

/// Returns the next list, of at most `step` positions, and the place after it. The list is empty if none is left.
/// Returns `AllocError` if no memory is found.
pub(crate) fn next_list(
    alloc: Global,
    ranges: &[Span],
    from: Place,
    step: u32,
) -> Result<(Vec<Span>, Place), AllocError>
    requires wanted { IsApart 1 ranges.now }
    requires bounded { IsBounded ranges.now }
    requires place { IsReadingPlace ranges.now from }
    ensures { IfOk result (λ r. IsNextList ranges.now from step r.0.items r.1) }
{
    let mut list = Vec::new(alloc);
    let mut place = from;
    let mut room = step;
    while room > 0 {
        match next_part(ranges, place, room) {
            Some(part) => {
                list.push(part.range)?;
                room -= part.range.n;
                place = part.next;
            }
            None => return Ok((list, place)),
        }
    }
    Ok((list, place))
}
