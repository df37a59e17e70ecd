//! What an answer leaves of a list.
ghost use Rattle.std.specs.Prelude.{◌≡◌, ◌≤◌, drop, length};
ghost use Rattle.zplan.specs.Ranges.{AreNonempty, IsApart, IsBounded, places};

use crate::span::Span;

/// Takes the first `k` positions from the list, all if it has no more. It takes no memory.
pub(crate) fn trim(list: &mut Vec<Span>, k: usize)
    // the ranges have positions, gaps between them, and no position above 2,147,483,647
    requires have { AreNonempty list.old.items }
    requires gaps { IsApart 1 list.old.items }
    requires bounded { IsBounded list.old.items }
    // the positions left
    ensures left { places list.new.items ≡ drop k (places list.old.items) }
    // the ranges left are such too, and no more
    ensures have { AreNonempty list.new.items }
    ensures gaps { IsApart 1 list.new.items }
    ensures bounded { IsBounded list.new.items }
    ensures fewer { length list.new.items ≤ length list.old.items }
{
    let mut skip = k;
    while !list.is_empty() {
        let first = list[0];
        if skip < first.n as usize {
            list[0] = Span {
                start: first.start + skip as u32,
                n: first.n - skip as u32,
            };
            return;
        }
        skip -= first.n as usize;
        let _ = list.remove(0);
    }
}
