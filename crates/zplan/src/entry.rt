//! Lists that were cut off.
ghost use Rattle.std.specs.Prelude.{◌≡◌, Bool, ◌==◌, ◌&&◌, nat_lt, true, false, drop, length, IfSome, IfNone};
ghost use Rattle.zplan.specs.Positions.{first_of};
ghost use Rattle.zplan.specs.Ranges.{places, IsNonemptyList};
ghost use Rattle.zplan.specs.Schedules.{IsAskableList, AreAskableLists, IsDueAt, IsWaitingAt, waiting_of, has_due, HasNoneWaiting};

use crate::span::Span;
use crate::trim::trim;

/// A list that was cut off. It is due, or its Present was sent and is not answered.
#[derive(Drop)]
pub struct Entry {
    /// Whether its Present was sent.
    pub sent: bool,
    /// Its positions.
    pub list: Vec<Span>,
}

impl Entry {
    /// Whether the list waits and begins at `first`.
    fn waits_from(&self, first: u32) -> bool
        requires { IsNonemptyList self.now.list.items }
        ensures { result ≡ (self.now.sent && first_of (places self.now.list.items) == first) }
    {
        self.sent && self.list[0].start == first
    }
}

/// The index of the first list that is due.
pub(crate) fn first_due(entries: &[Entry]) -> Option<usize>
    ensures some { IfSome result (λ at. IsDueAt entries.now at) }
    ensures none { IfNone result (has_due entries.now ≡ false) }
{
    for at in 0..entries.len() {
        if !entries[at].sent {
            return Some(at);
        }
    }
    None
}

/// The index of the list that waits and begins at `first`.
pub(crate) fn place_of(entries: &[Entry], first: u32) -> Option<usize>
    requires { (three : Bool) × AreAskableLists three entries.now }
    ensures some { IfSome result (λ at. IsWaitingAt first entries.now at) }
    ensures none { IfNone result (HasNoneWaiting first entries.now) }
{
    for at in 0..entries.len() {
        if entries[at].waits_from(first) {
            return Some(at);
        }
    }
    None
}

/// How many lists wait.
pub(crate) fn count_waiting(entries: &[Entry]) -> usize
    ensures { result ≡ length (waiting_of entries.now) }
{
    let mut count = 0;
    for at in 0..entries.len() {
        if entries[at].sent {
            count += 1;
        }
    }
    count
}

/// Takes the first `k` positions from the list. Returns whether some were taken and some are left; the list is then
/// due. It takes no memory.
pub(crate) fn leave(entry: &mut Entry, three: bool, k: usize) -> bool
    requires { IsAskableList three entry.old.list.items }
    ensures left { result ≡ (nat_lt 0 k && nat_lt k (length (places entry.old.list.items))) }
    ensures due { result ≡ true → entry.new.sent ≡ false }
    ensures rest { result ≡ true → places entry.new.list.items ≡ drop k (places entry.old.list.items) }
    ensures listed { result ≡ true → IsAskableList three entry.new.list.items }
{
    if k == 0 {
        return false;
    }
    trim(&mut entry.list, k);
    entry.sent = false;
    !entry.list.is_empty()
}
