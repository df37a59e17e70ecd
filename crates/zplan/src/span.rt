//! Ranges as a schedule keeps them.
ghost use Rattle.std.specs.Prelude.{◌≡◌, ◌+◌, ◌^◌, ◌≤◌, map, IfOk};
ghost use Rattle.zplan.specs.Ranges.{natural, span_of, range_of};

use crate::range::Range;
use std::alloc::{AllocError, Global};

/// The `n` positions from `start` on.
#[derive(Clone, Copy)]
pub struct Span {
    /// The first position.
    pub start: u32,
    /// How many positions.
    pub n: u32,
}

/// Returns the number, or 0 if it is negative.
fn natural(number: i64) -> u32
    requires { natural number ≤ 2 ^ 31 }
    ensures { result ≡ natural number }
{
    if number < 0 { 0 } else { number as u32 }
}

/// The span of a range.
pub(crate) fn span_of(range: Range) -> Span
    requires { natural range.start + natural range.n ≤ 2 ^ 31 }
    ensures { result ≡ span_of range }
{
    Span {
        start: natural(range.start),
        n: natural(range.n),
    }
}

/// The range of a span.
fn range_of(span: Span) -> Range
    ensures { result ≡ range_of span }
{
    Range {
        start: i64::from(span.start),
        n: i64::from(span.n),
    }
}

/// Returns the ranges of spans. Returns `AllocError` if no memory is found.
pub(crate) fn ranges_of(alloc: Global, spans: &[Span]) -> Result<Vec<Range>, AllocError>
    ensures { IfOk result (λ v. v.items ≡ map range_of spans.now) }
{
    spans.iter().map(|span| range_of(*span)).collect(alloc)
}
