//! Adds to what is known what replies say.
ghost use Rattle.std.specs.Prelude.{◌≡◌, ◌≢◌, Ok, IfOk, IfErr, OnOk};
ghost use Rattle.std.specs.List.{AllByRecursion};
ghost use Rattle.zknow.specs.Facts.{IsFact};
ghost use Rattle.zorigin_facts.specs.Facts.{facts_of};
ghost use Rattle.zorigin.specs.Log.{IsTakenReply};
ghost use Rattle.zoom_pool.specs.Learned.{IsLearnable, IsLearnableTaken, AreAdded, ArePartlyAdded};
ghost use Rattle.zoom_pool.specs.Transcripts.{facts_in, facts_of_verdict, answer_in};

use std::alloc::{AllocError, Global};
use zknow::{Fact, Knowledge};
use zorigin::{Answer, Refused, Taken};
use zorigin_facts::facts_of;
use zorigin_facts::laws::known_facts;

/// Adds facts one by one. If no memory is found, a part of them may be added.
fn add_all(knowledge: &mut Knowledge, facts: &[Fact]) -> Result<(), AllocError>
    requires { AllByRecursion IsFact facts.now }
    ensures ok { OnOk result (AreAdded knowledge.old facts.now knowledge.new) }
    ensures part { ArePartlyAdded knowledge.old facts.now knowledge.new }
{
    for fact in facts {
        knowledge.add(fact)?;
    }
    Ok(())
}

/// Adds what an answer says. If no memory is found, a part of it may be added.
fn add_answer(
    alloc: Global,
    target: u32,
    knowledge: &mut Knowledge,
    answer: &Answer,
) -> Result<(), AllocError>
    requires { IsLearnable answer.now }
    ensures ok { OnOk result (AreAdded knowledge.old (facts_of target answer.now) knowledge.new) }
    ensures part { ArePartlyAdded knowledge.old (facts_of target answer.now) knowledge.new }
{
    known_facts();
    let facts = facts_of(alloc, target, answer)?;
    add_all(knowledge, facts.as_slice())
}

/// Adds what the origin took says. If no memory is found, a part of it may be added.
fn learn(
    alloc: Global,
    target: u32,
    knowledge: &mut Knowledge,
    taken: &Taken,
) -> Result<(), AllocError>
    requires { IsLearnableTaken taken.now }
    ensures ok { OnOk result (AreAdded knowledge.old (facts_in target (answer_in taken.now)) knowledge.new) }
    ensures part { ArePartlyAdded knowledge.old (facts_in target (answer_in taken.now)) knowledge.new }
    ensures closed { taken.now ≡ Taken.Closed → result ≡ Ok tt }
{
    match taken {
        Taken::Opened(answer) => add_answer(alloc, target, knowledge, answer),
        Taken::Rejected(answer) => add_answer(alloc, target, knowledge, answer),
        Taken::Answered(answer) => add_answer(alloc, target, knowledge, answer),
        Taken::Closed => Ok(()),
    }
}

/// Adds what the reply says if the origin accepts it, and nothing if the origin refuses it. Returns an error if no
/// memory is found, be it by the origin; a part may then be added.
pub(crate) fn learn_verdict(
    alloc: Global,
    target: u32,
    knowledge: &mut Knowledge,
    judged: &Result<Taken, Refused>,
) -> Result<(), AllocError>
    requires { IfOk judged.now IsLearnableTaken }
    // what is added
    ensures taken { OnOk result (IsTakenReply judged.now) }
    ensures ok { OnOk result (AreAdded knowledge.old (facts_of_verdict target judged.now) knowledge.new) }
    ensures part { ArePartlyAdded knowledge.old (facts_of_verdict target judged.now) knowledge.new }
    // when no memory is needed
    ensures closed { judged.now ≡ Ok Taken.Closed → result ≡ Ok tt }
    ensures refused { IfErr judged.now (λ reason. reason ≢ Refused.Memory → result ≡ Ok tt) }
{
    match judged {
        Ok(taken) => learn(alloc, target, knowledge, taken),
        Err(reason) => match reason {
            Refused::Memory => Err(AllocError),
            _ => Ok(()),
        },
    }
}
