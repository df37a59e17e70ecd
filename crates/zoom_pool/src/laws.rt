//! Laws of the definitions. Each is the contract of a function that does nothing.
ghost use Rattle.zoom_pool.specs.Laws.{OneInput, OneTranscript, TakeLaws, UpToLaw, ExactLaw, OrderLaw};
ghost use Rattle.zoom_pool.specs.Conflicts.{ConflictLaw};
ghost use Rattle.zoom_pool.specs.MetaLaws.{MetaLaws};
ghost use Rattle.zoom_pool.specs.DriveLaws.{DriveLaws};

use crate::driving::driven_laws;
use zapdu::laws::{one_refusal, one_value};
use zber::laws::one_answer;
use zknow::laws::{list_laws, place_laws};
use zplan::laws::number_law;

/// A take has one input.
pub fn one_input()
    ensures { OneInput }
{
    one_answer();
    one_value();
    one_refusal();
}

/// A connection's events have one transcript.
pub fn one_transcript()
    ensures { OneTranscript }
{
    one_input();
}

/// A take returns `Nothing` exactly if the connection is neither stopped nor ended, and the octets that it has not
/// taken hold neither a whole message nor a fault. It returns `Stopped` exactly if the connection was stopped.
pub fn take_laws()
    ensures { TakeLaws }
{
    one_input();
}

/// A history that can have left a pool, after takes of some connections that found no memory, can also have left it
/// after such takes of those and of others (`AfterPartial`).
pub fn up_to()
    ensures { UpToLaw }
{}

/// Exactly the facts of the accepted replies are known, if a history can have left the pool and no take that found no
/// memory is left to be completed (`After`).
pub fn exactly_known()
    ensures { ExactLaw }
{}

/// Two histories with the same accepted replies, reference ids aside, leave the same knowledge and print the same
/// list, if in each no take that found no memory is left to be completed (`After`). The order of their events and the
/// cutting of the streams do not matter.
pub fn order_does_not_matter()
    ensures { OrderLaw }
{}

/// The known records of a row are those that accepted replies show there. The row is a conflict exactly if two of
/// them differ; it is then printed as a conflict, with all its records. This holds of a pool that a history can have
/// left with no take that found no memory to be completed (`After`).
pub fn conflicts()
    ensures { ConflictLaw }
{
    place_laws();
    list_laws();
}

/// For connections that are driven: Close aside, each is asked at most two things, plus one for each wanted
/// position up to the number that its search found. With the same accepted replies, reference ids aside, the same
/// list is printed. This holds if a history can have left the pool and its drivers, and no take that found no memory
/// is left to be completed (`MetaAfter`).
pub fn meta_laws()
    ensures { MetaLaws }
{
    driven_laws();
    order_does_not_matter();
}

/// What a driven connection sends is decided by its history. At most one call is the driver's, and a Present has the
/// fewest ranges. Two drives after the same history that return `Ok` send the same requests in the same order. Takes
/// that found no memory may be left to be completed (`MetaAfterPartial`).
pub fn drive_laws()
    ensures { DriveLaws }
{
    driven_laws();
    number_law();
    one_transcript();
}
