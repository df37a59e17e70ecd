//! Laws of the heads of traces. Each is the contract of a function that does nothing.
ghost use Rattle.zmeta_trace.specs.Dialogue.{OneDialogue};
ghost use Rattle.zmeta_trace.specs.Given.{HeadLaw, OneHeadLaw};
ghost use Rattle.zmeta_trace.specs.Known.{KnownLaw};

use zapdu::laws::{one_refusal, one_value};
use zber::laws::one_answer;
use zoom_trace::laws::same_law;

/// What a search was given is read again of the entries that tell it.
pub fn head_law()
    ensures { HeadLaw }
{}

/// Entries that begin with a head that limits all have no other head, whatever follows.
pub fn one_head_law()
    ensures { OneHeadLaw }
{}

/// The same is known after a replay as after the asking of which its trace tells: the same facts, and the same state of
/// each connection. Each is over.
pub fn known_law()
    ensures { KnownLaw }
{
    same_law();
}

/// Entries have one dialogue at most.
pub fn one_dialogue()
    ensures { OneDialogue }
{
    one_answer();
    one_value();
    one_refusal();
}
