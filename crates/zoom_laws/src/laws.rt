//! Laws about the definitions; each is the contract of a function that does nothing.
ghost use Rattle.zoom_laws.specs.Accord.{AccordLaws};
ghost use Rattle.zoom_laws.specs.Catalogue.{CatalogueLaws};
ghost use Rattle.zoom_laws.specs.Exchange.{ExchangeLaws};
ghost use Rattle.zoom_laws.specs.Lengths.{LengthLaws};
ghost use Rattle.zoom_laws.specs.Schedules.{ScheduleLaws};

use zoom_pool::driving::driven_laws;
use zoom_pool::laws::{meta_laws, one_transcript};
use zorigin::laws::{accepted_replies, orderly_logs};
use zplan::laws::{agenda_laws, next_laws, shown_laws};
use ztarget::laws::{kept_sets, what_fits};

/// The laws of an origin that accepted only what one target owes to its requests, and that refused nothing
/// (Z39.50-2003, 3.2 and 3.4).
///
/// - The target takes each request.
/// - It owes a reply to each operation that was admitted; if Close was admitted, it owes a Close behind all others.
/// - No two owed replies have one reference id, and the reply with an operation's reference id fits the operation.
/// - Until the origin accepts a Close, it accepts each owed reply that it did not accept before, in any order.
pub fn accord_laws()
    ensures { AccordLaws }
{}

/// The laws of a connection and a target that exchange octets with each other alone (Z39.50-2003, 3.2 and 3.4).
///
/// - Their exchange stays sound, whatever is called, carried, taken and released, in pieces of any size.
/// - If nothing is left to be carried, taken or released, each request was answered and each reply was taken.
/// - Once the connection is over, each owed reply was sent and came to it.
/// - At most one reply is sent for each request.
/// - A connection that is driven for a question sends at most 1,000,003 requests. If no call is next on it, no reply is
///   waited for and nothing stopped it, it is over.
pub fn exchange_laws()
    ensures { ExchangeLaws }
{
    accord_laws();
    next_laws();
    agenda_laws();
    driven_laws();
    one_transcript();
    meta_laws();
}

/// The laws of complete connections: their association was rejected, or their Close was sent (Z39.50-2003, 3.2).
///
/// - Exactly the operations that are asked for the connection's replies were answered.
/// - Two runs that are alike had the same operations answered, know the same and print the same list. They are alike if
///   they have the same questions and step, each connection of both is complete, and equal operations had equal
///   replies, reference ids aside. Windows, the order of events and the cutting of streams may differ.
pub fn schedule_laws()
    ensures { ScheduleLaws }
{
    orderly_logs();
    accepted_replies();
}

/// The laws of a complete connection that accepted one target's replies alone.
///
/// - It knows exactly the facts that the question brings from the target's catalogue. The premises: the search can be
///   sent or the target refuses associations, and each record that is due fits.
/// - If the search cannot be sent to a target that accepts associations, the connection knows nothing.
pub fn catalogue_laws()
    ensures { CatalogueLaws }
{
    orderly_logs();
    accepted_replies();
    shown_laws();
    kept_sets();
    what_fits();
}

/// The laws of the lengths of the replies that a target owes to the requests for a question (Z39.50-2003, 3.3).
///
/// - None is longer than a message may be, whatever replies the connection accepted. The premises: each record that is
///   due fits, or its database has a name of at most 2,000,000 octets. If the target does not support the search, its
///   response is no longer than a message may be.
/// - The first premise holds if all records that are due fit, and if all databases have such names.
/// - The second holds if the text that says why has at most 2,000,000 octets.
pub fn length_laws()
    ensures { LengthLaws }
{}
