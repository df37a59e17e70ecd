//! A law of asking. It is the contract of a function that does nothing.
ghost use Rattle.zoom_tcp.specs.Asking.{ReplayedLaw};

use zoom_trace::laws::followed_law;

/// A trace that `ask` wrote, read again and fed to an asking of the same inquiry, leaves it after the same history. The
/// same became of each connection then (`zoom_trace::laws::same_law`).
pub fn replayed_law()
    ensures { ReplayedLaw }
{
    followed_law();
}
