//! Wanted positions as a text.

ghost use Rattle.std.specs.Prelude.{◌≡◌, ◌++◌, ◌<◌, ◌^◌, OnOk};
ghost use Rattle.std.specs.List.{flat_map};
ghost use Rattle.zplan.specs.Ranges.{natural};
ghost use Rattle.zmeta_conversions.specs.Worlds.{last_of, range_text, next_range, wanted_text};

use crate::tokens::put_count;
use std::alloc::{AllocError, Global};
use zplan::Range;

/// Returns the number, or 0 if it is negative.
fn natural(number: i64) -> u64
    ensures value { result ≡ natural number }
    ensures small { result < 2 ^ 63 }
{
    if number < 0 { 0 } else { number as u64 }
}

/// Returns the last position of a range.
fn last_of(range: Range) -> u64
    ensures { result ≡ last_of range }
{
    (natural(range.start) + natural(range.n)).saturating_sub(1)
}

/// Appends the first and the last position of a range.
fn put_range(alloc: Global, range: Range, out: &mut Vec<u8>) -> Result<(), AllocError>
    ensures { OnOk result (out.new.items ≡ out.old.items ++ range_text range) }
{
    put_count(alloc, natural(range.start), out)?;
    out.extend_from_slice(b"-")?;
    put_count(alloc, last_of(range), out)
}

/// Appends ranges, each behind a comma.
fn put_next_ranges(alloc: Global, ranges: &[Range], out: &mut Vec<u8>) -> Result<(), AllocError>
    ensures { OnOk result (out.new.items ≡ out.old.items ++ flat_map next_range ranges.now) }
{
    for range in ranges {
        out.extend_from_slice(b",")?;
        put_range(alloc, *range, out)?;
    }
    Ok(())
}

/// Appends ranges with commas between them, or `0` for none.
pub(crate) fn put_wanted(
    alloc: Global,
    ranges: &[Range],
    out: &mut Vec<u8>,
) -> Result<(), AllocError>
    ensures { OnOk result (out.new.items ≡ out.old.items ++ wanted_text ranges.now) }
{
    let [first, others @ ..] = ranges else {
        return out.extend_from_slice(b"0");
    };
    put_range(alloc, *first, out)?;
    put_next_ranges(alloc, others, out)
}
