//! How far a connection is with its question.
ghost use Rattle.std.specs.Prelude.{◌≡◌, ◌^◌, ◌≤◌, true, false, length, IfOk};
ghost use Rattle.zplan.specs.Positions.{first_of};
ghost use Rattle.zplan.specs.Ranges.{natural, positions, ArePresentRanges};
ghost use Rattle.zplan.specs.Agenda.{SameAgenda, HasWaiting, AfterNoteSent, AfterNoteAnswered};
ghost use Rattle.zorigin.specs.Standings.{Search};
ghost use Rattle.zorigin.specs.Fitting.{records_in};
ghost use Rattle.zoom_pool.specs.CallsOf.{call_of};
ghost use Rattle.zoom_pool.specs.Driving.{counted};
ghost use Rattle.zoom_pool.specs.Drivers.{room_for, is_fresh_state, NextAskedResult, GiveResult, IsSamePhase, PhaseAfterCall, opened_phase, counted_phase, TakenStep, AnswerStep, IsRangesCall, IsNotCounted};

use crate::call::Call;
use crate::state::State;
use std::alloc::{AllocError, Global};
use zapdu::{Apdu, Records};
use zber::{Duplicate, Seq};
use zorigin::{Ask, Taken};
use zplan::{Range, Schedule};

/// How far a connection is with its question.
#[derive(Drop)]
pub enum Phase {
    /// Init was not sent.
    Fresh,
    /// Init was sent.
    Opening,
    /// The association was accepted, and the search was not called.
    Opened {
        /// Whether records can be asked for.
        present: bool,
        /// Whether version 3 is in force.
        three: bool,
    },
    /// The search was sent.
    Searching {
        /// Whether records can be asked for.
        present: bool,
        /// Whether version 3 is in force.
        three: bool,
    },
    /// The search was answered, and no schedule was made yet.
    Counted {
        /// Whether version 3 is in force.
        three: bool,
        /// The number of records found.
        count: u64,
    },
    /// Records are asked for by this schedule.
    Asking(Schedule),
    /// Nothing is left to ask for, and Close was not sent.
    Done,
    /// Close was sent, or the association was rejected.
    Closed,
}

/// Returns how many Presents may wait, or `None` if no call can be made.
fn room_for(window: u32, state: State) -> Option<u32>
    ensures { result ≡ room_for window state }
{
    match state {
        State::Ready { concurrent, .. } => Some(if concurrent { window } else { 1 }),
        _ => None,
    }
}

fn is_fresh(state: State) -> bool
    ensures { result ≡ is_fresh_state state }
{
    matches!(state, State::Fresh)
}

/// Makes the search call of the question.
fn search_call(alloc: Global, ask: &Ask) -> Result<Call, AllocError>
    ensures { IfOk result (λ call. call_of call ≡ Search 1 1 ask.now) }
{
    Ok(Call::Search {
        op: 1,
        set: 1,
        ask: Ask {
            databases: ask.databases.duplicate(alloc)?,
            syntax: ask.syntax.duplicate(alloc)?,
            elements: ask.elements.duplicate(alloc)?,
            small: ask.small,
            large: ask.large,
            medium: ask.medium,
            query: ask.query.copy(alloc)?,
        },
    })
}

/// Returns the first position of a range.
fn start_of(range: Range) -> u32
    requires { natural range.start ≤ 2 ^ 31 }
    ensures { result ≡ natural range.start }
{
    if range.start < 0 {
        0
    } else {
        range.start as u32
    }
}

/// Returns the first position of the ranges.
fn first_position(list: &[Range]) -> u32
    requires { ArePresentRanges list.now }
    ensures first { result ≡ first_of (positions list.now) }
    ensures bounded { result ≤ 2 ^ 31 }
{
    start_of(list[0])
}

/// Makes the Present call of the ranges.
fn present_call(list: Vec<Range>) -> Call
    requires { ArePresentRanges list.items }
    ensures { IsRangesCall list.items (call_of result) }
{
    let first = first_position(&list);
    Call::PresentRanges {
        op: first + 1,
        set: 1,
        ranges: Seq::from_vec(list),
    }
}

/// Returns the next call of a schedule. If fewer than `room` Presents wait, it is the Present of what is due
/// first. If nothing is due and nothing waits, it is Close.
fn next_asked(schedule: &mut Schedule, alloc: Global, room: u32) -> Result<Option<Call>, AllocError>
    ensures same { SameAgenda schedule.old schedule.new }
    ensures ok { IfOk result (λ given. NextAskedResult room schedule.new given) }
{
    if schedule.waiting() >= room as usize {
        return Ok(None);
    }
    match schedule.next(alloc)? {
        Some(list) => Ok(Some(present_call(list))),
        None => {
            if schedule.waiting() == 0 {
                Ok(Some(Call::Close))
            } else {
                Ok(None)
            }
        }
    }
}

/// Returns the call that is next at the phase, in this state. An error only if no memory is found.
pub(crate) fn give(
    phase: &mut Phase,
    alloc: Global,
    ask: &Ask,
    state: State,
    window: u32,
) -> Result<Option<Call>, AllocError>
    requires { IsNotCounted phase.old }
    ensures same { IsSamePhase phase.old phase.new }
    ensures ok { IfOk result (λ given. GiveResult ask.now window state phase.new given) }
{
    match phase {
        Phase::Fresh => Ok(if is_fresh(state) {
            Some(Call::Init)
        } else {
            None
        }),
        Phase::Opened { .. } => match room_for(window, state) {
            Some(_room) => Ok(Some(search_call(alloc, ask)?)),
            None => Ok(None),
        },
        Phase::Asking(schedule) => match room_for(window, state) {
            Some(room) => next_asked(schedule, alloc, room),
            None => Ok(None),
        },
        Phase::Done => match room_for(window, state) {
            Some(_room) => Ok(Some(Call::Close)),
            None => Ok(None),
        },
        _ => Ok(None),
    }
}

/// Notes that the Present of what is due first was sent. Changes nothing if none can be sent.
fn send_first(schedule: &mut Schedule)
    ensures sent { schedule.old.ready ≡ true → AfterNoteSent schedule.old schedule.new }
    ensures same { schedule.old.ready ≡ false → schedule.new ≡ schedule.old }
{
    if schedule.is_ready() {
        schedule.note_sent();
    }
}

/// Changes the phase after the origin admitted the call, which was given at the phase. It takes no memory.
pub(crate) fn send(phase: &mut Phase, call: &Call)
    ensures { PhaseAfterCall (call_of call.now) phase.old phase.new }
{
    match call {
        Call::Init => *phase = Phase::Opening,
        Call::Search { .. } => {
            if let Phase::Opened { present, three } = *phase {
                *phase = Phase::Searching { present, three };
            }
        }
        Call::Present { .. } | Call::PresentRanges { .. } => {
            if let Phase::Asking(schedule) = phase {
                send_first(schedule);
            }
        }
        Call::Close => *phase = Phase::Closed,
    }
}

fn opened_phase(reply: &Apdu) -> Phase
    ensures { result ≡ opened_phase reply.now }
{
    match reply {
        Apdu::InitResponse(response) => Phase::Opened {
            present: response.options.bit(1),
            three: response.protocol_version.bit(2),
        },
        _ => Phase::Closed,
    }
}

fn counted_phase(three: bool, counts: bool, count: i64) -> Phase
    ensures { result ≡ counted_phase three (counted counts count) }
{
    if counts {
        let count = if count < 0 { 0 } else { count as u64 };
        Phase::Counted { three, count }
    } else {
        Phase::Done
    }
}

fn count_records(records: &Option<Records>) -> usize
    ensures { result ≡ length (records_in records.now) }
{
    match records {
        Some(Records::List(records)) => records.len(),
        _ => 0,
    }
}

/// Notes the answer to the Present that waits and begins at position `first`. Changes nothing if there is none.
fn answer_list(schedule: &mut Schedule, first: u32, records: usize)
    ensures noted { HasWaiting first schedule.old → AfterNoteAnswered first records schedule.old schedule.new }
    ensures same { (HasWaiting first schedule.old → ⊥) → schedule.new ≡ schedule.old }
{
    if schedule.is_waiting(first) {
        schedule.note_answered(first, records);
    }
}

/// Changes the phase after the answer to operation `op`.
fn answer(phase: &mut Phase, op: u32, reply: &Apdu)
    ensures { AnswerStep op reply.now phase.old phase.new }
{
    match reply {
        Apdu::SearchResponse(response) => {
            if let Phase::Searching { present, three } = *phase {
                let counts = response.search_status && present;
                *phase = counted_phase(three, counts, response.result_count);
            }
        }
        Apdu::PresentResponse(response) => {
            if let Phase::Asking(schedule) = phase {
                let first = if op == 0 { 0 } else { op - 1 };
                answer_list(schedule, first, count_records(&response.records));
            }
        }
        _ => {}
    }
}

/// Changes the phase after the origin took a reply. It takes no memory.
pub(crate) fn note_taken(phase: &mut Phase, taken: &Taken)
    ensures { TakenStep taken.now phase.old phase.new }
{
    match taken {
        Taken::Opened(answer) => *phase = opened_phase(&answer.reply),
        Taken::Rejected(_) => *phase = Phase::Closed,
        Taken::Answered(given) => answer(phase, given.asked.op, &given.reply),
        Taken::Closed => {}
    }
}
