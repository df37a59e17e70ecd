//! The places that two lists in order have in common. If one list is much shorter, each of its places is looked up in
//! the other by binary search.
ghost use Rattle.std.specs.Prelude.{◌≡◌, ◌/◌, filter, nat_lt, IfOk};
ghost use Rattle.ztarget.specs.Merging.{IsAscendingFrom, is_place_among, merged};
ghost use Rattle.ztarget.specs.Narrowing.{IsBoth};

use crate::merging::{IN_BOTH, merged, put};
use std::alloc::{AllocError, Global};

/// A list more than this many times as long as another is searched by halves for the other's places.
const MUCH_LONGER: usize = 16;

/// Returns whether `few` is less than `many` / 16, rounded down.
pub(crate) fn are_few(few: usize, many: usize) -> bool
    ensures { result ≡ nat_lt few (many / 16) }
{
    few < many / MUCH_LONGER
}

/// Returns whether a list in order has a place, by binary search.
fn is_place_among(places: &[u32], place: u32) -> bool
    ensures { IsAscendingFrom 0 places.now → result ≡ is_place_among places.now place }
{
    places.binary_search(&place).is_ok()
}

/// Returns the places of the first list that the second, which is in order, has too.
fn common_places(alloc: Global, few: &[u32], many: &[u32]) -> Result<Vec<u32>, AllocError>
    ensures { IfOk result (λ found. IsAscendingFrom 0 many.now
        → found.items ≡ filter (is_place_among many.now) few.now) }
{
    let mut found = Vec::new(alloc);
    let mut left = few;
    while let [place, others @ ..] = left {
        put(is_place_among(many, *place), *place, &mut found)?;
        left = others;
    }
    Ok(found)
}

/// Returns the places that both lists have, in order.
pub(crate) fn in_both(alloc: Global, first: &[u32], second: &[u32]) -> Result<Vec<u32>, AllocError>
    ensures { IfOk result (λ found. IsBoth first.now second.now found.items) }
{
    if are_few(first.len(), second.len()) {
        common_places(alloc, first, second)
    } else if are_few(second.len(), first.len()) {
        common_places(alloc, second, first)
    } else {
        merged(alloc, IN_BOTH, first, second)
    }
}
