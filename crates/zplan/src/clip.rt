//! Ranges up to a count.
ghost use Rattle.std.specs.Prelude.{◌≡◌, map, IfOk};
ghost use Rattle.zplan.specs.Ranges.{IsBounded, span_of, clip};

use crate::range::Range;
use crate::span::{Span, span_of};
use std::alloc::{AllocError, Global};

/// Returns the ranges without the positions above the count. Returns `AllocError` if no memory is found.
pub(crate) fn clip(alloc: Global, wanted: &[Range], count: u64) -> Result<Vec<Span>, AllocError>
    requires { IsBounded (map span_of wanted.now) }
    ensures { IfOk result (λ v. v.items ≡ clip count (map span_of wanted.now)) }
{
    let mut ranges = Vec::new(alloc);
    for i in 0..wanted.len() {
        let span = span_of(wanted[i]);
        let start = u64::from(span.start);
        if start <= count {
            let most = count - start;
            let n = if u64::from(span.n) <= most {
                span.n
            } else {
                most as u32 + 1
            };
            ranges.push(Span {
                start: span.start,
                n,
            })?;
        }
    }
    Ok(ranges)
}
