//! Laws about an inquiry and the targets at its hosts; each is the contract of a function that does nothing.
ghost use Rattle.zoom_asking_laws.specs.Served.{ServedLaws};

use zoom_laws::laws::{catalogue_laws, exchange_laws};
use zoom_pool::laws::{one_transcript, take_laws};

/// The laws of a connection and a target that exchange octets with each other alone, while others do what they like.
///
/// - If it is Closed, exactly the facts are known of it that its question brings from the target, also if it took no
///   Close in return for its own.
/// - If its messages have ended it, the same facts are known.
/// - If nothing is left to be carried, taken or released, it is not talked with any more.
pub fn served_laws()
    ensures { ServedLaws }
{
    catalogue_laws();
    exchange_laws();
    one_transcript();
    take_laws();
}
