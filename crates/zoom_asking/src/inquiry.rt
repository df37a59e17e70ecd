//! Whom to ask, how, and what is reported.
ghost use Rattle.std.specs.Prelude.{◌≡◌, not, map, IfOk};
ghost use Rattle.zoom_asking.specs.Inquiries.{is_at_once, most_pieces, plan_of, signal_of};

use std::alloc::{AllocError, Global};
use zoom_clock::{Limits, Plan, Signal};

/// How many pieces of octets may come on one connection, if the connections are talked with in order.
pub(crate) const MOST_PIECES: u32 = 1_000_000;

/// A host to ask, and how long to wait for it. Times are nanoseconds.
#[derive(Clone, Copy, PartialEq, Eq)]
pub struct AskedHost {
    /// How long it may take to connect, from when its name was resolved.
    pub connect: u64,
    /// How long it may be silent.
    pub patience: u64,
}

/// How hosts are talked with.
#[derive(Clone, Copy, PartialEq, Eq)]
pub enum Manner {
    /// All at once.
    AtOnce,
    /// All connect and get their Init; then one talk follows the other.
    InOrder,
}

/// What happened on a connection. `Asking::octets` reports octets that came.
#[derive(Clone, Copy, PartialEq, Eq)]
pub enum Report {
    /// The name of the host was resolved to this many addresses. With none it cannot be reached.
    Resolved(usize),
    /// The attempt of this number to connect succeeded.
    Connected(usize),
    /// The attempt of this number to connect failed.
    Unreachable(usize),
    /// The system had no socket left for the attempt of this number. It is made again, before any other.
    NoSocket(usize),
    /// The host took octets.
    Taken,
    /// No more octets come.
    End,
    /// A read failed.
    Unreadable,
    /// A write failed.
    Unwritable,
}

/// The signal of a report.
pub(crate) fn signal_of(report: Report) -> Signal
    ensures { result ≡ signal_of report }
{
    match report {
        Report::Resolved(addresses) => Signal::Resolved(addresses),
        Report::Connected(k) => Signal::Connected(k),
        Report::Unreachable(k) => Signal::Unreachable(k),
        Report::NoSocket(k) => Signal::NoSocket(k),
        Report::Taken => Signal::Taken,
        Report::End => Signal::End,
        Report::Unreadable => Signal::Unreadable,
        Report::Unwritable => Signal::Unwritable,
    }
}

/// Whether the connections wait for their turns.
pub(crate) fn is_in_order(manner: Manner) -> bool
    ensures { result ≡ not (is_at_once manner) }
{
    match manner {
        Manner::AtOnce => false,
        Manner::InOrder => true,
    }
}

/// How many pieces of octets may come on one connection, if that has a limit.
fn most_pieces(manner: Manner) -> Option<u32>
    ensures { result ≡ most_pieces manner }
{
    match manner {
        Manner::AtOnce => None,
        Manner::InOrder => Some(MOST_PIECES),
    }
}

/// How a connection is to be asked.
pub(crate) fn plan_of(manner: Manner, total: Option<u64>, host: Option<AskedHost>) -> Plan
    ensures { result ≡ plan_of manner total host }
{
    match host {
        None => Plan {
            limits: Limits {
                connect: 0,
                patience: 0,
                total: None,
                pieces: None,
            },
            chosen: false,
        },
        Some(host) => Plan {
            limits: Limits {
                connect: host.connect,
                patience: host.patience,
                total,
                pieces: most_pieces(manner),
            },
            chosen: true,
        },
    }
}

/// How each connection is to be asked.
pub(crate) fn plans_of(
    alloc: Global,
    manner: Manner,
    total: Option<u64>,
    hosts: &[Option<AskedHost>],
) -> Result<Vec<Plan>, AllocError>
    ensures { IfOk result (λ v. v.items ≡ map (plan_of manner total) hosts.now) }
{
    hosts
        .iter()
        .map(|host| plan_of(manner, total, *host))
        .collect(alloc)
}
