//! Clients that arrive one after the other, and those of a listening socket.
ghost use Rattle.std.specs.Prelude.{◌≡◌};
ghost use Rattle.zoom_tcp.specs.Clients.{IsFreshArrival, IsTcpArrival, IsTcpDeparture};

use crate::failures::is_passing;
use crate::link::{TcpLink, Timed};
use std::io::{Read, Write};
use std::net::{OpenListener, OpenStream};
use std::thread::sleep;
use std::time::{Clock, Duration};
use zoom_io::Counting;

/// What waiting for the next client brought.
#[derive(Drop)]
pub enum Arrival<R, W> {
    /// A client: the source of its octets, and the sink for those of the replies.
    Client(R, W),
    /// A client that was gone before it could be answered.
    Gone,
    /// No client can be taken.
    NoClient,
}

/// Clients that arrive one after the other.
pub trait Clients<R, W> {
    ghost use Rattle.zoom_tcp.specs.declared.clients.Arrival.{Arrival};

    /// From the first state, waiting for the next client brought this, and left the second state.
    ghost IsArrival: { Self → Arrival R W → Self → Type 0 };

    /// From the first state, a client left with its devices in this state, and left the second state.
    ghost IsDeparture: { Self → R → W → Self → Type 0 };

    /// Waits for the next client.
    fn next_client(&mut self) -> Arrival<R, W>
        ensures { IsArrival self.old result self.new };

    /// Lets a client leave: its connection ends.
    fn end_client(&mut self, source: R, sink: W)
        ensures { IsDeparture self.old source sink self.new };
}

/// The clients that connect to a listening socket. One that cannot be taken for a reason that passes is tried again.
#[derive(Drop)]
pub struct TcpClients<'a, C, L> {
    clock: &'a C,
    listener: &'a L,
}

impl<'a, C: Clock, L: OpenListener> TcpClients<'a, C, L> {
    /// The clients of this socket. It does not wait for any.
    pub fn new(clock: &'a C, listener: &'a L) -> TcpClients<'a, C, L>
        ensures { result.listener ≡ listener.entry }
    {
        TcpClients { clock, listener }
    }
}

/// How long it is waited until a client is tried to be taken again, in milliseconds.
const PAUSE: u64 = 100;

/// A client that was taken, or that was gone before it could be answered.
fn greet<'a, C: Clock, S: OpenStream + Drop>(
    clock: &'a C,
    stream: S,
) -> Arrival<Device<'a, C, S>, Device<'a, C, S>>
    ensures { IsFreshArrival (λ d. d.failures) (λ d. d.failures) result }
{
    match TcpLink::new(clock, stream) {
        Ok(link) => {
            let TcpLink { source, sink } = link;
            Arrival::Client(source, sink)
        }
        Err(_) => Arrival::Gone,
    }
}

/// A device of a client over TCP, which fails once its talk has taken an hour.
type Device<'a, C, S> = Counting<Timed<'a, C, S>>;

impl<'a, C: Clock, S: Read + Write + OpenStream + Drop, L: OpenListener<Stream = S>> Clients<
    Device<'a, C, S>,
    Device<'a, C, S>,
> for TcpClients<'a, C, L> {
    ghost IsArrival = { λ k arrival l. IsTcpArrival k arrival l };

    ghost IsDeparture = { λ k source sink l. IsTcpDeparture k source sink l };

    fn next_client(&mut self) -> Arrival<Device<'a, C, S>, Device<'a, C, S>> {
        for _ in 0..u64::MAX {
            match self.listener.accept() {
                Ok((stream, _)) => return greet(self.clock, stream),
                Err(error) if is_passing(&error) => {
                    sleep(self.clock, Duration::from_millis(PAUSE));
                }
                Err(_) => return Arrival::NoClient,
            }
        }
        Arrival::NoClient
    }

    fn end_client(&mut self, source: Device<'a, C, S>, sink: Device<'a, C, S>) {
        drop(source);
        drop(sink);
    }
}
