//! What was noticed of the host of each connection, by the entries of a trace.
ghost use Rattle.std.specs.Prelude.{◌≡◌, set, IfOk};
ghost use Rattle.zoom_trace.specs.Notices.{IsNotedWith, AreNotices};

use crate::entry::{TraceEntry, Traced};
use crate::notice::Notice;
use std::alloc::{AllocError, Global};

/// Puts what was noticed into its place, if there is one.
fn put(noticed: &mut Vec<Notice>, c: u32, notice: Notice)
    ensures { noticed.new.items ≡ set noticed.old.items c notice }
{
    if (c as usize) < noticed.len() {
        noticed[c as usize] = notice;
    }
}

/// Notes what an entry tells. A connection that is not there is left out.
#[tactic(auto, using(crate::proofs::Noting::noted))]
fn note(noticed: &mut Vec<Notice>, what: &Traced)
    ensures { IsNotedWith what.now noticed.old.items noticed.new.items }
{
    match what {
        Traced::Noticed { c, notice } => put(noticed, *c, *notice),
        _ => {}
    }
}

/// Returns what was noticed last of the host of each of `count` connections: what the last entry tells that speaks of
/// it, or nothing. An entry that speaks of another connection is left out. Returns `AllocError` if no memory is found.
#[tactic(auto, using(crate::proofs::Noting::none_noticed))]
pub fn notices(
    alloc: Global,
    entries: &[TraceEntry],
    count: usize,
) -> Result<Vec<Notice>, AllocError>
    ensures { IfOk result (λ v. AreNotices count entries.now v.items) }
{
    let mut noticed = vec![in alloc; Notice::Nothing; count]?;
    for entry in entries {
        note(&mut noticed, &entry.what);
    }
    Ok(noticed)
}
