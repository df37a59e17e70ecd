//! Serves a target in memory to clients that arrive one after the other.
ghost use Rattle.std.specs.Prelude.{◌≡◌, ◌<◌, ◌^◌, length, OnOk, OnErr};
ghost use Rattle.zoom_tcp.specs.declared.service.ServeError.TheVariants.{Memory};
ghost use Rattle.ztarget.specs.Searching.{entries_in};
ghost use Rattle.zoom_tcp.specs.Serving.{IsAnswered, IsStarved, AfterServeNext, AfterServe, AfterServeAt};

use crate::clients::{Arrival, Clients, TcpClients};
use std::alloc::{AllocError, Global};
use std::io::{Read, Write};
use std::net::{OpenListener, OpenStream};
use std::time::Clock;
use thiserror::Error;
use zber::{Duplicate, Seq};
use zoom_io::{AnswerError, Sink, Source, answer};
use zoom_pool::Host;
use ztarget::{Database, Target, TargetSettings};

/// The most reads of one connection.
const READS: u32 = 1_000_000;

/// Why serving ended early.
#[derive(Clone, Copy, Debug, PartialEq, Eq, Error)]
pub enum ServeError {
    /// No client can be taken.
    #[error("cannot serve")]
    Listen,
    /// No memory was found.
    #[error("out of memory")]
    Memory,
}

impl From<AllocError> for ServeError {
    ghost from_gives = { λ _ e. e ≡ Memory };

    fn from(_: AllocError) -> ServeError {
        ServeError::Memory
    }
}

/// Serves `count` connections over TCP, one after the other, each with a new target of these databases (Z39.50-2003,
/// 3.2). A client costs its own connection alone if it breaks off, sends octets that are not Z39.50, is silent for 30
/// seconds or takes more than an hour. The databases have fewer than 2^32 entries. If `count` is 0, nothing is done,
/// and the call succeeds.
///
/// Refusals: `Listen` if no connection can be accepted, and `Memory`. The clients before were served.
pub fn serve<C: Clock, L: OpenListener>(
    alloc: Global,
    clock: &C,
    listener: &L,
    databases: &Seq<Database>,
    settings: TargetSettings,
    count: u32,
) -> Result<(), ServeError>
where
    L::Stream: Read + Write + OpenStream,
    requires { length (entries_in databases.now) < 2 ^ 32 }
    ensures served { AfterServeAt C L L.Stream listener.now
        (record { databases = databases.now; settings = settings }) count result }
    ensures none { count ≡ 0 → result ≡ Ok tt }
{
    let mut clients = TcpClients::new(clock, listener);
    serve_over(alloc, &mut clients, databases, settings, count)
}

/// Serves `count` clients, one after the other, each with a new target of these databases: takes the next, answers it
/// as `zoom_io::answer` does with at most 1,000,000 reads, and lets it leave. A client whose devices fail costs none
/// of the others. A client that was gone before it could be answered counts too.
///
/// Refusals: `Listen` if no client can be taken, and `Memory`. The clients before were served.
pub fn serve_over<K: Clients<R, W>, R: Source + Drop, W: Sink + Drop>(
    alloc: Global,
    clients: &mut K,
    databases: &Seq<Database>,
    settings: TargetSettings,
    count: u32,
) -> Result<(), ServeError>
    requires { length (entries_in databases.now) < 2 ^ 32 }
    ensures served { AfterServe K.IsArrival K.IsDeparture R.state W.state
        (record { databases = databases.now; settings = settings }) count result clients.old clients.new }
    ensures none { count ≡ 0 → result ≡ Ok tt }
{
    for _ in 0..count {
        serve_next(alloc, clients, databases, settings)?;
    }
    Ok(())
}

/// Takes the next client, and answers it.
fn serve_next<K: Clients<R, W>, R: Source + Drop, W: Sink + Drop>(
    alloc: Global,
    clients: &mut K,
    databases: &Seq<Database>,
    settings: TargetSettings,
) -> Result<(), ServeError>
    requires { length (entries_in databases.now) < 2 ^ 32 }
    ensures { AfterServeNext K.IsArrival K.IsDeparture R.state W.state
        (record { databases = databases.now; settings = settings }) result clients.old clients.new }
{
    match clients.next_client() {
        Arrival::Client(mut source, mut sink) => {
            answer_client(alloc, databases, settings, &mut source, &mut sink)?;
            clients.end_client(source, sink);
            Ok(())
        }
        Arrival::Gone => Ok(()),
        Arrival::NoClient => Err(ServeError::Listen),
    }
}

/// Answers one client with a new target. Returns an error only if no memory is found.
fn answer_client<R: Source, W: Sink>(
    alloc: Global,
    databases: &Seq<Database>,
    settings: TargetSettings,
    source: &mut R,
    sink: &mut W,
) -> Result<(), AllocError>
    requires { length (entries_in databases.now) < 2 ^ 32 }
    ensures answered { OnOk result (IsAnswered (record { databases = databases.now; settings = settings })
        (R.state source.old) (R.state source.new) (W.state sink.old) (W.state sink.new)) }
    ensures starved { OnErr result (IsStarved (record { databases = databases.now; settings = settings })
        (R.state source.old) (R.state source.new) (W.state sink.old) (W.state sink.new)) }
{
    let databases = databases.duplicate(alloc)?;
    let target = Target::new(alloc, databases.into_vec(), settings)?;
    let mut host = Host::new(alloc, target);
    match answer(alloc, &mut host, source, sink, READS) {
        Ok(()) => Ok(()),
        Err(error) => match error {
            AnswerError::Memory => Err(AllocError),
            // After any other failure the client is gone, and the next one is served.
            _ => Ok(()),
        },
    }
}
