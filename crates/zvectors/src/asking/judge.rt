//! Whether a run ended as its hosts deserve.
use crate::asking::catalogues::record_text;
use crate::asking::fault::Fault;
use crate::asking::tempers::{Nature, Temper};
use std::alloc::Global;
use zapdu::{Content, Record, RecordBody};
use zknow::Known;
use zoom_pool::{Meta, Reason, State};

/// Whether a host of this nature may leave a connection in this state.
fn is_due(nature: Nature, state: State) -> bool {
    match nature.temper {
        Temper::Honest
        | Temper::FirstSilent
        | Temper::NoSocket
        | Temper::ResetsAtClose
        | Temper::IgnoresClose => state == State::Closed,
        Temper::Unasked => state == State::Fresh,
        Temper::Silent => state == State::Failed(Reason::Read),
        Temper::Refuses | Temper::Unnamed | Temper::Unresolved => {
            state == State::Failed(Reason::Connect)
        }
        Temper::Trickles | Temper::Lies => matches!(state, State::Failed(_)),
        Temper::Unwritable if nature.number == 0 => state == State::Failed(Reason::Write),
        Temper::Dies | Temper::Garbles | Temper::Unwritable => is_over(state),
    }
}

/// Whether a record is the host's at this position.
fn is_record(alloc: Global, record: &Record, c: u32, position: u32) -> Result<bool, Fault> {
    let text = record_text(alloc, c, position)?;
    match &record.body {
        RecordBody::Retrieval(external) => match &external.content {
            Content::Aligned(octets) => Ok(octets.as_slice() == text.as_slice()),
            _ => Ok(false),
        },
        _ => Ok(false),
    }
}

fn is_record_known(alloc: Global, meta: &Meta, c: u32, position: u32) -> Result<bool, Fault> {
    match meta.knowledge().at(c, 1, i64::from(position)) {
        Known::One(record) => is_record(alloc, record, c, position),
        _ => Ok(false),
    }
}

fn is_count_known(meta: &Meta, c: u32, records: u32) -> bool {
    match meta.knowledge().count(c, 1) {
        Known::One(count) => *count == i64::from(records),
        _ => false,
    }
}

/// Whether all that the host has is known, and no more.
fn is_all_known(alloc: Global, meta: &Meta, c: u32, records: u32) -> Result<bool, Fault> {
    for k in 0..records {
        if !is_record_known(alloc, meta, c, k.saturating_add(1))? {
            return Ok(false);
        }
    }
    let behind = meta
        .knowledge()
        .at(c, 1, i64::from(records).saturating_add(1));
    Ok(is_count_known(meta, c, records) && matches!(behind, Known::Nothing))
}

fn state_of(meta: &Meta, c: u32) -> Result<State, Fault> {
    if (c as usize) < meta.connections() {
        Ok(meta.state(c))
    } else {
        Err(Fault::Unread)
    }
}

/// Whether a state is one of those that do not change.
fn is_over(state: State) -> bool {
    matches!(state, State::Closed | State::Failed(_))
}

/// Whether a connection is over, or was not chosen.
pub(crate) fn is_settled(meta: &Meta, c: u32, nature: Nature) -> Result<bool, Fault> {
    let state = state_of(meta, c)?;
    Ok(is_over(state) || matches!(nature.temper, Temper::Unasked))
}

/// Fails unless a connection ended as its host deserves.
pub(crate) fn judge(alloc: Global, meta: &Meta, c: u32, nature: Nature) -> Result<(), Fault> {
    let state = state_of(meta, c)?;
    if !is_due(nature, state) {
        return Err(Fault::End(c));
    }
    if state == State::Closed
        && !matches!(nature.temper, Temper::Garbles)
        && !is_all_known(alloc, meta, c, nature.records)?
    {
        return Err(Fault::Known(c));
    }
    Ok(())
}
