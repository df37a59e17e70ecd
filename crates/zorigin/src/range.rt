//! Ranges of positions.
ghost use Rattle.std.specs.Prelude.{◌≡◌, ◌&&◌, ℤ, pos, ◌≤ℤ◌, int_lt, nat_lt, length, true, IfOk};
ghost use Rattle.zorigin.specs.Ranges.{last_of, is_range, are_ranges_after, are_ranges, is_past};
ghost use Rattle.zplan.specs.Positions.{first_of};
ghost use Rattle.zplan.specs.Ranges.{natural, positions, positions_of};

use zplan::Range;

/// The highest position that can be asked for.
const LAST_POSITION: i64 = 2_147_483_647;

/// Returns the number, or 0 if it is negative.
pub fn natural(number: i64) -> usize
    ensures { result ≡ natural number }
{
    if number < 0 { 0 } else { number as usize }
}

/// Whether the range begins at 1 or later, has a position, and none above the highest.
fn is_range(range: Range) -> bool
    ensures { result ≡ is_range range }
{
    range.start >= 1
        && range.n >= 1
        && range.start <= LAST_POSITION
        && range.n - 1 <= LAST_POSITION - range.start
}

/// The last position of a range.
fn last_of(range: Range) -> i64
    requires { is_range range ≡ true }
    ensures { result ≡ last_of range }
{
    range.start + range.n - 1
}

/// Whether a Present can ask for the ranges, whatever the set's count: there is one, and each begins after the end of
/// the one before.
pub(crate) fn are_ranges(ranges: &[Range]) -> bool
    ensures { result ≡ are_ranges ranges.now }
{
    let mut last = 0;
    for range in ranges {
        if !is_range(*range) || range.start <= last {
            return false;
        }
        last = last_of(*range);
    }
    !ranges.is_empty()
}

/// Whether one of the positions of a range is above the count.
fn ends_past(range: Range, count: i64) -> bool
    ensures { result ≡ is_past count (positions_of range) }
{
    let start = range.start.max(0);
    range.n >= 1 && (count < start || range.n - 1 > count - start)
}

/// Whether one of the positions of ranges is above the count.
pub(crate) fn are_past(ranges: &[Range], count: i64) -> bool
    ensures { result ≡ is_past count (positions ranges.now) }
{
    for range in ranges {
        if ends_past(*range, count) {
            return true;
        }
    }
    false
}

/// Whether `len` is above the number of positions.
pub(crate) fn exceed_positions(len: usize, ranges: &[Range]) -> bool
    ensures { result ≡ nat_lt (length (positions ranges.now)) len }
{
    let mut left = len;
    for range in ranges {
        let number = natural(range.n);
        if left <= number {
            return false;
        }
        left -= number;
    }
    left > 0
}

/// The first position of the ranges.
pub fn first_of(ranges: &[Range]) -> i64
    requires { are_ranges ranges.now ≡ true }
    ensures { result ≡ pos (first_of (positions ranges.now)) }
{
    match ranges {
        [first, ..] => first.start,
        [] => 0,
    }
}
