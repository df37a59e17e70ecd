//! The positions that a Present asks for.
ghost use Rattle.std.specs.Prelude.{◌≡◌, ◌==◌, ◌<◌, ◌^◌, ◌≤◌, true, length, map, IfOk};
ghost use Rattle.zplan.specs.Ranges.{natural, positions};
ghost use Rattle.ztarget.specs.Positions.{received_range, ranges_of, is_in_set, are_in_set, last_position};

use crate::init::natural;
use std::alloc::{AllocError, Global};
use zapdu::{PresentRequest, Range as SentRange};
use zplan::Range;

/// Returns a range as it was sent.
fn received_range(range: &SentRange) -> Range
    ensures { result ≡ received_range range.now }
{
    Range {
        start: range.starting_position,
        n: range.number_of_records,
    }
}

/// Returns ranges as they were sent.
fn received_ranges(alloc: Global, ranges: &[SentRange]) -> Result<Vec<Range>, AllocError>
    ensures { IfOk result (λ v. v.items ≡ map received_range ranges.now) }
{
    ranges
        .iter()
        .map(|range| received_range(range))
        .collect(alloc)
}

/// Returns the ranges of a Present: the first, then the additional ones.
pub(crate) fn ranges_of(alloc: Global, request: &PresentRequest) -> Result<Vec<Range>, AllocError>
    ensures { IfOk result (λ ranges. ranges.items ≡ ranges_of request.now) }
{
    let mut ranges = match &request.additional_ranges {
        Some(additional) => received_ranges(alloc, additional.as_slice())?,
        None => Vec::new(alloc),
    };
    let first = Range {
        start: request.result_set_start_point,
        n: request.number_of_records_requested,
    };
    ranges.insert(0, first)?;
    Ok(ranges)
}

/// Returns whether `number` positions from `start` on, at least one, are positions of a set of `count` records.
fn is_in_set(start: usize, number: usize, count: usize) -> bool
    requires { count < 2 ^ 32 }
    ensures { result ≡ is_in_set start number count }
{
    start >= 1 && number >= 1 && start <= count && number <= count + 1 - start
}

/// Returns whether each range begins at 1 or later, and has a position, but none past `count`.
pub(crate) fn are_in_set(ranges: &[Range], count: usize) -> bool
    requires { count < 2 ^ 32 }
    ensures { result ≡ are_in_set count ranges.now }
{
    for range in ranges {
        let start = natural(range.start);
        if !is_in_set(start, natural(range.n), count) {
            return false;
        }
    }
    true
}

/// Returns whether the ranges have exactly `number` positions.
pub(crate) fn are_so_many(ranges: &[Range], number: usize) -> bool
    ensures { result ≡ (number == length (positions ranges.now)) }
{
    let mut left = number;
    for range in ranges {
        let number = natural(range.n);
        if left < number {
            return false;
        }
        left -= number;
    }
    left == 0
}

/// Returns the last of the first `number` positions, or 0 if there is none.
pub(crate) fn last_position(ranges: &[Range], number: usize, count: usize) -> usize
    requires few { count < 2 ^ 32 }
    requires within { are_in_set count ranges.now ≡ true }
    ensures last { result ≡ last_position (positions ranges.now) number }
    ensures within { result ≤ count }
{
    let mut left = number.saturating_sub(1);
    for range in ranges {
        let number = natural(range.n);
        if left < number {
            return natural(range.start) + left;
        }
        left -= number;
    }
    0
}
