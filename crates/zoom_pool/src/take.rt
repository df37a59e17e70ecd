//! Takes a message of a connection.
ghost use Rattle.std.specs.Prelude.{◌≡◌, IfOk, IfNone, true, false, None, if◌then◌else◌};
ghost use Rattle.zber.specs.Unfinished.{IsUnfinished};
ghost use Rattle.zoom_pool.specs.declared.state.State.TheVariants as states;
ghost use Rattle.zoom_pool.specs.declared.state.Reason.TheVariants as reasons;
ghost use Rattle.zoom_pool.specs.States.{is_stopped, is_going};
ghost use Rattle.zber.specs.declared.framer.TheConstants.{MESSAGE_LIMIT};
ghost use Rattle.zoom_pool.specs.Transcripts.{Transcript, state_at, HasFoundMemory};
ghost use Rattle.zoom_pool.specs.Learned.{AreStillKnown};
ghost use Rattle.zoom_pool.specs.Connections.{FramerAfter, AreConsistent};
ghost use Rattle.zoom_pool.specs.Steps.{NextMessage, EmptyTake, LinkTakeStep, PartialTake, LinkIncompleteTake, stop_after, held_after};

use crate::connection::Connection;
use crate::processing::process;
use crate::state::{Reason, State, is_closing, is_stopped};
use crate::step::{Outcome, TakeError, reason_of};
use zber::laws::stream_laws;
use zber::{FrameError, Framer, Node};
use zknow::Knowledge;

impl Connection {
    /// Takes one message, and adds what it says of this target to the knowledge. If no memory is found, the
    /// message is kept, and a part of what it says may be added.
    pub(crate) fn take(
        &mut self,
        target: u32,
        knowledge: &mut Knowledge,
    ) -> Result<Outcome, TakeError>
        ensures done { LinkTakeStep target result self.old self.new knowledge.old knowledge.new }
        ensures memory { LinkIncompleteTake result self.old self.new }
        ensures part { PartialTake target result self.old knowledge.old knowledge.new }
        ensures grows { AreStillKnown knowledge.old knowledge.new }
        ensures waiting { self.new.waiting ≡ self.old.waiting }
    {
        if is_stopped(self.state()) {
            return Ok(Outcome::Stopped);
        }
        stream_laws();
        match next_message(&mut self.held, &mut self.framer) {
            Ok(Some(node)) => {
                let answer = process(self.alloc, &mut self.origin, target, knowledge, &node);
                settle(&mut self.stop, &mut self.held, node, &answer);
                answer
            }
            Ok(None) => self.lack(),
            Err(error) => match error {
                FrameError::Fault { kind, at } => {
                    self.stop = Some(State::Failed(Reason::Frame { kind, at }));
                    Err(TakeError::Frame { kind, at })
                }
                FrameError::Memory => Err(TakeError::Memory),
            },
        }
    }

    /// What a take does if no message has come: it waits for more, or the input has ended.
    fn lack(&mut self) -> Result<Outcome, TakeError>
        // no message has come
        requires asked { self.old.framer.asked ≡ true }
        requires no_fault { self.old.framer.fault ≡ None }
        requires none { self.old.held ≡ None }
        // the result
        ensures returned { (p : Transcript) → AreConsistent p self.old → is_stopped (state_at p) ≡ false
            → IsUnfinished MESSAGE_LIMIT self.old.framer.octets → EmptyTake p result self.new }
        ensures done { HasFoundMemory result }
        // what is unchanged
        ensures waiting { self.new.waiting ≡ self.old.waiting }
    {
        if !self.ended {
            return Ok(Outcome::Nothing);
        }
        match self.framer.finish() {
            Ok(_) => {
                let closing = is_closing(self.state());
                self.stop = Some(ended_state(closing));
                Ok(Outcome::Ended)
            }
            Err(error) => match error {
                FrameError::Fault { kind, at } => {
                    self.stop = Some(State::Failed(Reason::Frame { kind, at }));
                    Err(TakeError::Frame { kind, at })
                }
                FrameError::Memory => Err(TakeError::Memory),
            },
        }
    }
}

/// Stops the connection if its message was refused; keeps the message if no memory was found.
fn settle(
    stop: &mut Option<State>,
    held: &mut Option<Node>,
    node: Node,
    taken: &Result<Outcome, TakeError>,
)
    ensures stopped { stop.new ≡ stop_after stop.old taken.now }
    ensures kept { held.new ≡ held_after taken.now node held.old }
{
    if let Err(error) = taken {
        match reason_of(*error) {
            Some(reason) => *stop = Some(State::Failed(reason)),
            None => *held = Some(node),
        }
    }
}

/// Returns the state after the input has ended with no octets left.
fn ended_state(closing: bool) -> State
    ensures { result ≡ (if closing then states.Closed else states.Failed reasons.Ended) }
{
    if closing {
        State::Closed
    } else {
        State::Failed(Reason::Ended)
    }
}

/// Returns the message that is kept, or else the framer's next one.
fn next_message(held: &mut Option<Node>, framer: &mut Framer) -> Result<Option<Node>, FrameError>
    ensures returned { (p : Transcript) → is_going p.stop ≡ true → FramerAfter p held.old framer.old.stream
        → NextMessage p result held.new framer.new.stream }
    ensures none { held.new ≡ None }
    ensures idle { IfOk result
        (λ o. IfNone o ((framer.new.stream.asked ≡ true) × (framer.new.stream.fault ≡ None))) }
{
    match held.take() {
        Some(node) => Ok(Some(node)),
        None => framer.next(),
    }
}
