//! Takes messages: adds what each says to what is known, and then gives it to the origin.
ghost use Rattle.std.specs.Prelude.{◌≡◌, ◌≢◌, Contains, Err};
ghost use Rattle.zknow.specs.Tables.Join.{IsPartOfUnion};
ghost use Rattle.zorigin.specs.Log.{After, IsAcceptedReply};
ghost use Rattle.zoom_pool.specs.Inputs.{Message};
ghost use Rattle.zoom_pool.specs.Learned.{IsRead, AreStillKnown};
ghost use Rattle.zoom_pool.specs.Transcripts.{Transcript, outcome_of_reply, news_at, HasFoundMemory};
ghost use Rattle.zoom_pool.specs.Steps.{InputStep, ProcessStep, PartialProcessStep};

use crate::learning::learn_verdict;
use crate::step::{Outcome, TakeError};
use std::alloc::Global;
use zapdu::{Apdu, ApduError, from_node};
use zber::Node;
use zknow::Knowledge;
use zorigin::{Origin, Refused, Taken};

/// Returns the outcome of a message that the origin judged so.
fn outcome_of(judged: Result<Taken, Refused>) -> Result<Outcome, TakeError>
    ensures { result ≡ outcome_of_reply judged }
{
    match judged {
        Ok(taken) => Ok(Outcome::Took(taken)),
        Err(reason) => Err(TakeError::Refused(reason)),
    }
}

/// Adds what the APDU says, and gives it to the origin. Only an accepted reply takes memory. If none is found, the
/// origin is unchanged, and a part of what the APDU says may be added.
fn process_reply(
    alloc: Global,
    origin: &mut Origin,
    target: u32,
    knowledge: &mut Knowledge,
    reply: &Apdu,
) -> Result<Outcome, TakeError>
    requires { IsRead reply.now }
    // if memory is found
    ensures done { (p : Transcript) → After p.settings p.log origin.old → HasFoundMemory result
        → InputStep target p (Message reply.now) result origin.new knowledge.old knowledge.new }
    // if no memory is found
    ensures memory { result ≡ Err TakeError.Memory → origin.new ≡ origin.old }
    ensures accepted { result ≡ Err TakeError.Memory → IsAcceptedReply origin.old reply.now }
    ensures part { (p : Transcript) → After p.settings p.log origin.old → result ≡ Err TakeError.Memory
        → IsPartOfUnion (Contains knowledge.old) (Contains (news_at target p (Message reply.now)))
        (Contains knowledge.new) }
    // in each case
    ensures grows { AreStillKnown knowledge.old knowledge.new }
{
    let judged = origin.judge(reply);
    match learn_verdict(alloc, target, knowledge, &judged) {
        Ok(()) => {
            origin.accept(&judged);
            outcome_of(judged)
        }
        Err(_) => Err(TakeError::Memory),
    }
}

/// Returns the error of the take: the message is not an APDU, or no memory is found to read it.
fn decode_error(error: ApduError) -> TakeError
    ensures memory { error ≡ ApduError.Memory → result ≡ TakeError.Memory }
    ensures decode { error ≢ ApduError.Memory → result ≡ TakeError.Decode error }
{
    match error {
        ApduError::Memory => TakeError::Memory,
        _ => TakeError::Decode(error),
    }
}

/// Reads the message as an APDU, adds what it says, and gives it to the origin. If no memory is found, the origin
/// is unchanged, and a part of what the message says may be added.
pub(crate) fn process(
    alloc: Global,
    origin: &mut Origin,
    target: u32,
    knowledge: &mut Knowledge,
    node: &Node,
) -> Result<Outcome, TakeError>
    ensures done { ProcessStep target node.now result origin.old origin.new knowledge.old knowledge.new }
    ensures memory { result ≡ Err TakeError.Memory → origin.new ≡ origin.old }
    ensures part { PartialProcessStep target node.now result origin.old knowledge.old knowledge.new }
    ensures grows { AreStillKnown knowledge.old knowledge.new }
{
    match from_node(alloc, node) {
        Ok(reply) => {
            let outcome = process_reply(alloc, origin, target, knowledge, &reply);
            drop(reply);
            outcome
        }
        Err(error) => Err(decode_error(error)),
    }
}
