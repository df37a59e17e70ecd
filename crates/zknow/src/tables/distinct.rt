//! Values in order, each once.
ghost use Rattle.std.specs.Prelude.{◌≡◌, ◌<◌, ◌≤◌, List, length, IfOk, OnOk, OnErr, MatchOption, Contains};
ghost use Rattle.std.specs.List.{insert};
ghost use Rattle.zknow.specs.Tables.Distinct.{AreDistinct};
ghost use Rattle.zknow.specs.Tables.Search.{IsGap};

use crate::tables::join::Join;
use crate::tables::ranked::Ranked;
use std::alloc::{AllocError, Global};
use std::cmp::Ordering;
use std::marker::Model;

/// Values in order, each once.
#[derive(Drop)]
pub(crate) struct Distinct<T: Ranked> {
    alloc: Global,
    items: Vec<T>,
}

impl<T: Ranked> Model for Distinct<T> {
    ghost Value = { List T };

    ghost view = { λ d. d.items.items };

    ghost invariant = { λ d. AreDistinct T.order T.is_valid d.items.items };
}

/// Returns the index that is compared next: at first the last one, since values mostly come in order, later the one in
/// the middle.
fn next_place(low: usize, high: usize, is_first: bool) -> usize
    requires { low < high }
    ensures from { low ≤ result }
    ensures to { result < high }
{
    if is_first {
        high - 1
    } else {
        low + (high - low) / 2
    }
}

/// Returns the index at which the item would go, or `None` if it is there already. Returns `AllocError` if no memory is
/// found.
fn gap_for<T: Ranked>(alloc: Global, items: &[T], item: &T) -> Result<Option<usize>, AllocError>
    requires distinct { AreDistinct T.order T.is_valid items.now }
    requires valid { T.is_valid item.now }
    ensures { IfOk result (λ o. MatchOption o (Contains items.now item.now)
        (IsGap (λ x. T.order x item.now) items.now)) }
{
    if items.is_empty() {
        return Ok(Some(0));
    }
    let key = item.key(alloc)?;
    let mut low = 0;
    let mut high = items.len();
    let mut is_first = true;
    while low < high {
        let middle = next_place(low, high, is_first);
        is_first = false;
        match items[middle].compare(alloc, item, &key)? {
            Ordering::Less => low = middle + 1,
            Ordering::Equal => return Ok(None),
            Ordering::Greater => high = middle,
        }
    }
    Ok(Some(low))
}

/// Inserts an item at an index. An empty list first gets room for one, since most lists have one value. Returns
/// `AllocError` if no memory is found; the list is unchanged.
fn put_at<T: Drop>(items: &mut Vec<T>, at: usize, item: T) -> Result<(), AllocError>
    requires { at ≤ length items.old.items }
    ensures ok { OnOk result (items.new.items ≡ insert items.old.items at item) }
    ensures err { OnErr result (items.new.items ≡ items.old.items) }
{
    if items.is_empty() {
        items.reserve_exact(1)?;
    }
    items.insert(at, item)?;
    Ok(())
}

impl<T: Ranked> Distinct<T> {
    /// Returns the values, in order.
    pub(crate) fn values(&self) -> &[T]
        ensures values { result.now ≡ self.now }
        ensures distinct { AreDistinct T.order T.is_valid result.now }
    {
        &self.items
    }
}

impl<T: Ranked> Join for Distinct<T> {
    type Item = T;

    ghost use Rattle.std.specs.Prelude.{Contains};
    ghost use Rattle.zknow.specs.Tables.Distinct.{AreDistinct};
    ghost use Rattle.zknow.specs.Tables.DistinctLaws.{same_distinct};

    ghost holds = { Contains };

    ghost is_lawful = { AreDistinct T.order T.is_valid };

    ghost can_add = { T.is_valid };

    ghost same = { same_distinct T.order T.total T.is_valid };

    fn empty(alloc: Global) -> Self {
        Distinct {
            alloc,
            items: Vec::new(alloc),
        }
    }

    fn add(&mut self, item: &T) -> Result<(), AllocError> {
        if let Some(gap) = gap_for(self.alloc, &self.items, item)? {
            let copy = item.duplicate(self.alloc)?;
            put_at(&mut self.items, gap, copy)?;
        }
        Ok(())
    }

    fn absorb(&mut self, other: &Self) -> Result<(), AllocError> {
        for item in &other.items {
            self.add(item)?;
        }
        Ok(())
    }

    fn lawful(&self) {
        let _ = &self.items;
    }
}
