//! The law about runs in memory: the contract of a function that does nothing.
ghost use Rattle.zoom_sim.specs.RunCatalogue.{RunLaw};

use zoom_laws::laws::{catalogue_laws, exchange_laws, length_laws};
use zoom_pool::laws::one_transcript;

/// After a complete run in memory, exactly the facts are known of a target that its question brings from the target's
/// databases, whatever the moves, windows and steps. The connection is Closed, and the search was not skipped.
///
/// The law has three premises on the question. The search can be sent, or the target refuses associations, or the run
/// did not skip the search. Each record that is due fits. If the target does not support the search, its response is no
/// longer than a message may be.
pub fn run_law()
    ensures { RunLaw }
{
    catalogue_laws();
    length_laws();
    exchange_laws();
    one_transcript();
}
