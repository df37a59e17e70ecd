//! Laws of traces. Each is the contract of a function that does nothing.
ghost use Rattle.zoom_trace.specs.Laws.{LineLaw, JsonLaw, WholeLaw, PrefixLaw, SoundLaw, ReportsLaw, ReplayLaw, FollowedLaw, WrittenLaw, SameLaw};

use std::io::Write;
use zoom_pool::driving::driven_laws;
use zoom_pool::laws::{one_input, one_transcript};
use zplan::laws::number_law;

/// A line is the line of one entry.
pub fn line_law()
    ensures { LineLaw }
{}

/// The line of an entry is an object of JSON.
pub fn json_law()
    ensures { JsonLaw }
{}

/// What is read of the lines that were written are their entries.
pub fn whole_law()
    ensures { WholeLaw }
{}

/// What is read of a trace that was broken off are its first entries.
pub fn prefix_law()
    ensures { PrefixLaw }
{}

/// No line is refused of a trace that was written, broken off or not.
pub fn sound_law()
    ensures { SoundLaw }
{}

/// What a trace tells is what a caller can report.
pub fn reports_law()
    ensures { ReportsLaw }
{}

/// An asking that is fed what was read of the lines that were written is after the history that was written.
pub fn replay_law()
    ensures { ReplayLaw }
{}

/// The same of a trace whose first entries tell nothing: it leaves the asking after the history of those behind them.
pub fn followed_law()
    ensures { FollowedLaw }
{}

/// A tracer of whose sink no call failed, and that has no lines that wait, has written all.
pub fn written_law<W: Write>()
    ensures { WrittenLaw W.contents }
{}

/// What becomes of each connection is a function of what was reported, and when: the same became of the connections of
/// two askings that are after the same history.
pub fn same_law()
    ensures { SameLaw }
{
    number_law();
    driven_laws();
    one_input();
    one_transcript();
}
