//! Replies: which are accepted, and what they change.
ghost use Rattle.std.specs.Prelude.{◌≡◌, ◌==◌, Ok, Err, IfOk};
ghost use Rattle.std.specs.Option.{option_map};
ghost use Rattle.zorigin.specs.Standings.{is_open, ready};
ghost use Rattle.zorigin.specs.Replies.{only_of, named, taken_as, against, verdict, HasAnswer};
ghost use Rattle.zorigin.specs.Changes.{options_in_force, outcome_in, noted_if, noted, without_operation, opened_at, refused_at, settled_at, AfterRefusal};
ghost use Rattle.zorigin.specs.Answers.{HasFitAnswer};
ghost use Rattle.zorigin.specs.Log.{IsGivenVerdict, IsResultOfTake, IsAcceptedReply, IsJudgement, OriginAfterTake, OriginAfterJudgement};

use crate::answer::{Answer, Asked, Taken};
use crate::fitting::fault_of;
use crate::origin::Origin;
use crate::reference::operation_number;
use crate::refusal::Refused;
use crate::state::{InForce, Outcome, Searched, State};
use bytes::Bytes;
use indexmap::IndexMap;
use std::alloc::{AllocError, Global};
use zapdu::{Apdu, InitResponse};
use zber::Duplicate;

/// Whether the origin takes replies in this state.
fn is_open(state: State) -> bool
    ensures { result ≡ is_open state }
{
    matches!(
        state,
        State::Initialising | State::Ready { .. } | State::Closing
    )
}

/// Returns the options and the version that a response to Init puts in force. Of Options these are the bits search 0,
/// present 1, concurrentOperations 13 and namedResultSets 14; of ProtocolVersion version 3 is bit 2 (Z39.50-2003, 4.1).
/// A bit that is left out is not set.
fn options_in_force(response: &InitResponse) -> InForce
    ensures { result ≡ options_in_force response.now }
{
    InForce {
        search: response.options.bit(0),
        present: response.options.bit(1),
        v3: response.protocol_version.bit(2),
        concurrent: response.options.bit(13),
        named: response.options.bit(14),
    }
}

/// The state Ready with what is in force.
fn ready(force: InForce) -> State
    ensures { result ≡ ready force }
{
    State::Ready {
        v3: force.v3,
        concurrent: force.concurrent,
        named: force.named,
    }
}

/// The outcome of a search, by the reply to it.
fn outcome_in(reply: &Apdu) -> Option<Outcome>
    ensures { result ≡ outcome_in reply.now }
{
    match reply {
        Apdu::SearchResponse(response) => {
            if response.search_status {
                Some(Outcome::Found(response.result_count))
            } else {
                Some(Outcome::Failed)
            }
        }
        _ => None,
    }
}

/// Notes the outcome of the search, if it is the one with this operation.
fn note_if(searched: &mut Searched, op: u32, outcome: Option<Outcome>)
    ensures { searched.new ≡ noted_if (searched.old.op == op) outcome searched.old }
{
    if searched.op == op {
        searched.outcome = outcome;
    }
}

/// Notes the outcome of the operation's search, if it is one.
fn note(searches: &mut IndexMap<u32, Searched>, asked: &Asked, outcome: Option<Outcome>)
    ensures { searches.new.entries ≡ noted asked.now outcome searches.old.entries }
{
    if let Some(searched) = searches.get_mut(&asked.set) {
        note_if(searched, asked.op, outcome);
    }
}

/// The result for an accepted reply.
fn taken_as(answer: Answer) -> Taken
    ensures { result ≡ taken_as answer }
{
    let accepted = match &answer.reply {
        Apdu::InitResponse(response) => Some(response.result),
        _ => None,
    };
    match accepted {
        Some(true) => Taken::Opened(answer),
        Some(false) => Taken::Rejected(answer),
        None => Taken::Answered(answer),
    }
}

/// Returns copies of an operation and of the reply to it. Returns `AllocError` if no memory is found.
fn copy_answer(alloc: Global, asked: &Asked, reply: &Apdu) -> Result<Answer, AllocError>
    ensures { IfOk result (λ answer. answer ≡ record { asked = asked.now; reply = reply.now }) }
{
    Ok(Answer {
        asked: asked.duplicate(alloc)?,
        reply: reply.copy(alloc)?,
    })
}

impl Origin {
    /// The only outstanding operation, if there is exactly one.
    fn only(&self) -> Option<&Asked>
        ensures { option_map (λ r. r.now) result ≡ only_of self.now.outstanding }
    {
        if self.outstanding.len() == 1 {
            self.outstanding.first().map(|(_, asked)| asked)
        } else {
            None
        }
    }

    /// The outstanding operation that a reference id names. An absent one names the only operation, if concurrent
    /// operations are not in force.
    fn operation_of<'a>(&'a self, id: &Option<Bytes>) -> Option<&'a Asked>
        ensures { option_map (λ r. r.now) result ≡ named self.now id.now }
    {
        match id {
            Some(id) => match operation_number(id) {
                Some(op) => self.outstanding.get(&op),
                None => None,
            },
            None => {
                if self.force.concurrent {
                    None
                } else {
                    self.only()
                }
            }
        }
    }

    /// Returns the verdict on a reply with this reference id. The answer has copies of the operation and of the reply.
    fn against(&self, id: &Option<Bytes>, reply: &Apdu) -> Result<Taken, Refused>
        ensures returned { IsGivenVerdict (against (named self.now id.now) reply.now) result }
        ensures copied { result ≡ Err Refused.Memory → HasAnswer (against (named self.now id.now) reply.now) }
        ensures showable { IfOk result (HasFitAnswer reply.now) }
    {
        let Some(asked) = self.operation_of(id) else {
            return Err(Refused::UnknownReference);
        };
        if let Some(reason) = fault_of(&asked.what, reply) {
            return Err(reason);
        }
        match copy_answer(self.alloc, asked, reply) {
            Ok(answer) => Ok(taken_as(answer)),
            Err(_) => Err(Refused::Memory),
        }
    }

    /// Returns the verdict on an APDU. The answer has copies of the operation and of the APDU.
    #[tactic(auto, unfolding(crate::specs::Replies::verdict))]
    fn verdict(&self, reply: &Apdu) -> Result<Taken, Refused>
        ensures returned { IsGivenVerdict (verdict self.now reply.now) result }
        ensures copied { result ≡ Err Refused.Memory → HasAnswer (verdict self.now reply.now) }
        ensures showable { IfOk result (HasFitAnswer reply.now) }
    {
        if !is_open(self.state) {
            return Err(Refused::WrongState);
        }
        match reply {
            Apdu::Close(_) => Ok(Taken::Closed),
            Apdu::InitResponse(response) => self.against(&response.reference_id, reply),
            Apdu::SearchResponse(response) => self.against(&response.reference_id, reply),
            Apdu::PresentResponse(response) => self.against(&response.reference_id, reply),
            _ => Err(Refused::WrongKind),
        }
    }

    /// Removes an operation from those outstanding.
    fn remove_operation(&mut self, op: u32)
        ensures { self.new ≡ without_operation self.old op }
    {
        self.outstanding.shift_remove(&op);
    }

    /// Puts in force what the response to Init has.
    fn open(&mut self, reply: &Apdu)
        ensures { self.new ≡ opened_at self.old reply.now }
    {
        if let Apdu::InitResponse(response) = reply {
            self.force = options_in_force(response);
            self.state = ready(self.force);
        }
    }

    /// Notes an accepted APDU.
    fn note_taken(&mut self, taken: &Taken)
        ensures { self.new ≡ settled_at self.old (Ok taken.now) }
    {
        match taken {
            Taken::Opened(answer) => {
                self.remove_operation(answer.asked.op);
                self.open(&answer.reply);
            }
            Taken::Rejected(answer) => {
                self.remove_operation(answer.asked.op);
                self.state = State::Closed;
            }
            Taken::Answered(answer) => {
                self.remove_operation(answer.asked.op);
                note(&mut self.searches, &answer.asked, outcome_in(&answer.reply));
            }
            Taken::Closed => self.state = State::Closed,
        }
    }

    /// Notes a refused APDU: the origin has failed for the reason. `WrongState` and `Memory` leave it unchanged.
    fn note_refusal(&mut self, reason: Refused)
        ensures { self.new ≡ refused_at self.old reason }
    {
        match reason {
            Refused::WrongState | Refused::Memory => {}
            _ => self.state = State::Failed(reason),
        }
    }

    /// Changes the origin for a verdict.
    fn settle(&mut self, judged: &Result<Taken, Refused>)
        ensures { self.new ≡ settled_at self.old judged.now }
    {
        match judged {
            Ok(taken) => self.note_taken(taken),
            Err(reason) => self.note_refusal(*reason),
        }
    }

    /// Judges an APDU that came from the target (Z39.50-2003, 3.4), and changes nothing. A reply is accepted if its
    /// reference id names an outstanding operation and it fits what that operation asked for. The id may be absent if
    /// concurrent operations are not in force and exactly one operation is outstanding. The answer's reply is a copy
    /// of the APDU, and `facts_of` accepts the answer. A Close is accepted whenever replies are, whatever its contents.
    ///
    /// `Refused` lists when the APDU is refused, in its order. Only the copy of an accepted reply can return `Memory`.
    /// Give the result to `accept`, before any other call changes the origin.
    pub fn judge(&self, reply: &Apdu) -> Result<Taken, Refused>
        ensures returned { IsResultOfTake self.now reply.now result }
        ensures copied { result ≡ Err Refused.Memory → IsAcceptedReply self.now reply.now }
        ensures showable { IfOk result (HasFitAnswer reply.now) }
    {
        self.verdict(reply)
    }

    /// Notes what `judge` returned for an APDU. The origin has not changed since. It takes no memory, and can't fail.
    ///
    /// The operation of an answer is then answered. After a Close the origin is Closed, and sends no Close itself.
    /// After a refusal the origin has failed for that reason, and is otherwise unchanged. After `WrongState` and
    /// `Memory` it is wholly unchanged.
    pub fn accept(&mut self, judged: &Result<Taken, Refused>)
        requires { IsJudgement self.old judged.now }
        ensures after { OriginAfterJudgement self.old judged.now self.new }
        ensures refused { AfterRefusal self.old judged.now self.new }
    {
        self.settle(judged);
    }

    /// Returns what `take` would return for this APDU, and changes nothing. The answer's reply is a copy of the APDU.
    pub fn peek(&self, reply: &Apdu) -> Result<Taken, Refused>
        ensures returned { IsResultOfTake self.now reply.now result }
        ensures copied { result ≡ Err Refused.Memory → IsAcceptedReply self.now reply.now }
        ensures showable { IfOk result (HasFitAnswer reply.now) }
    {
        self.judge(reply)
    }

    /// Takes an APDU that came from the target (Z39.50-2003, 3.4). It returns what `judge` returns, and changes the
    /// origin as `accept` does.
    pub fn take(&mut self, reply: &Apdu) -> Result<Taken, Refused>
        ensures returned { IsResultOfTake self.old reply.now result }
        ensures copied { result ≡ Err Refused.Memory → IsAcceptedReply self.old reply.now }
        ensures showable { IfOk result (HasFitAnswer reply.now) }
        ensures after { OriginAfterTake self.old reply.now result self.new }
        ensures refused { AfterRefusal self.old result self.new }
    {
        let judged = self.judge(reply);
        self.accept(&judged);
        judged
    }
}
