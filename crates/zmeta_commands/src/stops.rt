//! Why connections stopped, as people and programs are told.
ghost use Rattle.std.specs.Prelude.{◌≡◌, ◌<◌, ◌^◌, length, IfOk};
ghost use Rattle.zmeta_commands.specs.Stops.{unreached_detail, unread_detail, frame_detail, detail_of, notice_at, IsStopOf, AreStops};

use std::alloc::{AllocError, Global};
use zber::FaultKind;
use zknow_stops::{Detail, Stop};
use zoom::{HostWaits, Limits, Meta, Notice, Reason, State};

/// What can be told of a host that was not reached.
fn unreached_detail(limits: &Limits, notice: Notice) -> Detail
    ensures { result ≡ unreached_detail limits.now notice }
{
    match notice {
        Notice::NoPort => Detail::NoPort,
        Notice::NoName => Detail::NoName,
        Notice::NoFamily => Detail::NoFamily,
        Notice::Refused => Detail::Refused,
        Notice::NoRoute => Detail::NoRoute,
        Notice::Nothing | Notice::Ended | Notice::Reset => Detail::NoAnswer {
            seconds: limits.connect.as_secs(),
        },
    }
}

/// What can be told of a connection that could not be read.
fn unread_detail(limits: &Limits, notice: Notice) -> Detail
    ensures { result ≡ unread_detail limits.now notice }
{
    match notice {
        Notice::Ended => Detail::HungUp,
        Notice::Reset => Detail::Reset,
        _ => Detail::Silent {
            seconds: limits.patience.as_secs(),
        },
    }
}

/// What can be told of octets at fault: they end within a message, are more than one may have, or are none.
fn frame_detail(kind: FaultKind) -> Detail
    ensures { result ≡ frame_detail kind }
{
    match kind {
        FaultKind::Truncated => Detail::HungUp,
        FaultKind::TooLong => Detail::TooMany,
        _ => Detail::NotZ3950,
    }
}

/// What can be told of a connection that failed for this reason.
fn detail_of(limits: &Limits, notice: Notice, reason: Reason) -> Detail
    ensures { result ≡ detail_of limits.now notice reason }
{
    match reason {
        Reason::Frame { kind, .. } => frame_detail(kind),
        Reason::Decode(_) => Detail::NotZ3950,
        Reason::Refused(_) => Detail::Unfit,
        Reason::Ended => Detail::HungUp,
        Reason::Connect => unreached_detail(limits, notice),
        Reason::Read => unread_detail(limits, notice),
        Reason::Write => Detail::Reset,
        Reason::Turns => Detail::TooMany,
        Reason::Memory => Detail::NoMemory,
    }
}

/// Why a connection in this state stopped, if it failed.
fn stop_of(limits: &Limits, notice: Notice, state: State) -> Option<Stop>
    ensures { IsStopOf limits.now notice state result }
{
    match state {
        State::Failed(reason) => Some(Stop {
            reason: reason.name(),
            detail: detail_of(limits, notice, reason),
        }),
        _ => None,
    }
}

/// What was noticed of the host of a connection.
fn notice_at(noticed: &[Notice], c: usize) -> Notice
    ensures { result ≡ notice_at noticed.now c }
{
    noticed.get(c).copied().unwrap_or(Notice::Nothing)
}

/// Returns why each connection stopped, by what was noticed of its host; `None` if it did not fail. `waits` are the
/// waiting times that hosts have of their own.
pub(crate) fn stops_of(
    alloc: Global,
    meta: &Meta,
    noticed: &[Notice],
    limits: &Limits,
    waits: &[HostWaits],
) -> Result<Vec<Option<Stop>>, AllocError>
    requires { length meta.now.pool.connections < 2 ^ 32 }
    ensures { IfOk result (λ stops. AreStops limits.now waits.now noticed.now meta.now stops.items) }
{
    let mut stops = Vec::new(alloc);
    for c in 0..meta.connections() {
        let state = meta.state(c as u32);
        let limits = limits.at(waits, c);
        stops.push(stop_of(&limits, notice_at(noticed, c), state))?;
    }
    Ok(stops)
}
