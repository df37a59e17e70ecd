//! The sockets of all hosts, watched by one poll of the system, and a clock.
ghost use Rattle.std.specs.Prelude.{OnOk};
ghost use Rattle.zoom_tcp.specs.Waking.{IsLonger};

use crate::failures::is_for_want;
use crate::host::Host;
use crate::notice::of_attempt;
use crate::ready::Ready;
use crate::socket::{Moved, Progress, Socket};
use crate::stopwatch::Stopwatch;
use mio::event::Event;
use mio::net::TcpStream;
use mio::{Events, Interest, Poll, Token};
use std::alloc::{AllocError, Global};
use std::collections::VecDeque;
use std::io;
use std::net::{Net, SocketAddr};
use std::time::{Clock, Duration};
use zoom_asking::Report;
use zoom_trace::Notice;

/// The most sockets that one poll gives. The next poll gives the others.
const MOST_EVENTS: usize = 256;

/// The most octets of one read.
const PIECE: usize = 65_536;

/// More than any number of a connection. The token of a socket is the number of its attempt times this, and the number
/// of its connection.
const TOKENS: usize = 4_294_967_296;

/// What happened on a connection.
#[derive(Clone, Copy, PartialEq, Eq)]
pub(crate) enum Happening {
    Report(Report),
    /// So many octets came. They stand at the front of the piece.
    Octets(usize),
}

/// The sockets of all hosts.
#[derive(Drop)]
pub(crate) struct Sockets<'a, N> {
    net: &'a N,
    stopwatch: Stopwatch<'a, N>,
    /// Without a poll of the system no host can be reached.
    poll: Option<Poll>,
    events: Events,
    hosts: Vec<Host>,
    /// The sockets that are to be served: the connection, and the attempt.
    queue: VecDeque<(u32, usize)>,
    /// The sockets that were read since the last wait.
    heard: Vec<(u32, usize)>,
    /// How many sockets are open.
    open: usize,
    /// The octets that were read last, at the front.
    piece: Vec<u8>,
}

fn token_of(c: u32, k: usize) -> Token {
    Token(k.wrapping_mul(TOKENS).wrapping_add(c as usize))
}

/// Begins to connect, and to watch the stream. Small writes are sent at once (`TCP_NODELAY`).
fn begin<N: Net>(net: &N, poll: &Poll, token: Token, address: SocketAddr) -> io::Result<TcpStream> {
    let mut stream = TcpStream::connect(net, address)?;
    stream.set_nodelay(true)?;
    poll.registry().register(&mut stream, token, Interest::READABLE | Interest::WRITABLE)?;
    Ok(stream)
}

/// Notes what events tell of the sockets of hosts. Each socket that one tells of is behind those that are to be served,
/// or was among them.
#[tactic(auto, using(crate::proofs::WakingTheory::longer_same, crate::proofs::WakingTheory::longer_one, crate::proofs::WakingTheory::longer_more))]
fn note_all(
    events: &Events,
    hosts: &mut Vec<Host>,
    queue: &mut VecDeque<(u32, usize)>,
) -> Result<(), AllocError>
    ensures { OnOk result (IsLonger queue.old.items queue.new.items) }
{
    for event in events {
        let token = event.token().0;
        let c = token % TOKENS;
        let k = token / TOKENS;
        if let Some(host) = hosts.get_mut(c)
            && let Some(socket) = host.socket(k)
        {
            socket.note(event);
            if !socket.is_queued {
                socket.is_queued = true;
                queue.push_back((c as u32, k))?;
            }
        }
    }
    Ok(())
}

impl<'a, N: Net> Sockets<'a, N> {
    ghost use Rattle.std.specs.Prelude.{◌≡◌, OnOk};
    ghost use Rattle.zoom_tcp.specs.Waking.{IsLonger};

    /// No sockets, for so many connections.
    pub(crate) fn new(
        alloc: Global,
        net: &'a N,
        stopwatch: Stopwatch<'a, N>,
        count: usize,
    ) -> Result<Sockets<'a, N>, AllocError> {
        let mut hosts = Vec::new(alloc);
        for _ in 0..count {
            hosts.push(Host::new(alloc))?;
        }
        Ok(Sockets {
            net,
            stopwatch,
            poll: Poll::new(net).ok(),
            events: Events::with_capacity(alloc, MOST_EVENTS)?,
            hosts,
            queue: VecDeque::new(alloc),
            heard: Vec::new(alloc),
            open: 0,
            piece: vec![in alloc; 0; PIECE]?,
        })
    }

    /// Whether no socket is open.
    pub(crate) fn is_idle(&self) -> bool {
        self.open == 0
    }

    /// Whether a socket is to be served.
    pub(crate) fn is_busy(&self) -> bool {
        !self.queue.is_empty()
    }

    /// These are the addresses of a connection's host. If there are none, that is why.
    pub(crate) fn know(&mut self, c: u32, addresses: Vec<SocketAddr>, notice: Notice) {
        if let Some(host) = self.hosts.get_mut(c as usize) {
            if addresses.is_empty() {
                host.note(notice);
            }
            host.addresses = addresses;
        }
    }

    /// What was noticed of each host.
    pub(crate) fn notices(&self, alloc: Global) -> Result<Vec<Notice>, AllocError> {
        self.hosts.iter().map(|host| host.notice()).collect(alloc)
    }

    /// Begins an attempt to connect. Returns why it failed, if it did at once.
    pub(crate) fn connect(&mut self, c: u32, k: usize) -> Result<Option<Report>, AllocError> {
        let (Some(host), Some(poll)) = (self.hosts.get_mut(c as usize), &self.poll) else {
            return Ok(Some(Report::Unreachable(k)));
        };
        let Some(address) = host.addresses.get(k).copied() else {
            return Ok(Some(Report::Unreachable(k)));
        };
        match begin(self.net, poll, token_of(c, k), address) {
            Ok(stream) => {
                host.put(k, Socket::new(stream))?;
                self.open = self.open.saturating_add(1);
                Ok(None)
            }
            Err(error) if is_for_want(&error) => Ok(Some(Report::NoSocket(k))),
            Err(error) => {
                host.note_attempt(of_attempt(&error));
                Ok(Some(Report::Unreachable(k)))
            }
        }
    }

    /// Closes the socket of an attempt.
    pub(crate) fn leave(&mut self, c: u32, k: usize)
        ensures { self.new.queue ≡ self.old.queue }
    {
        if let Some(host) = self.hosts.get_mut(c as usize)
            && host.close(k)
        {
            self.open = self.open.saturating_sub(1);
        }
    }

    /// The buffer for octets to be sent on a connection.
    pub(crate) fn unsent(&mut self, c: u32) -> Option<&mut Vec<u8>> {
        Some(&mut self.hosts.get_mut(c as usize)?.unsent)
    }

    /// Serves the socket of a connection: what waits to be sent is written at once, or once it is ready.
    pub(crate) fn send(&mut self, c: u32) -> Result<Option<Report>, AllocError> {
        let Some(k) = self.connected(c) else {
            return Ok(None);
        };
        self.write(c, k)
    }

    /// From now on octets of a connection are wanted.
    pub(crate) fn read_on(&mut self, c: u32) -> Result<(), AllocError> {
        if let Some(host) = self.hosts.get_mut(c as usize) {
            host.is_wanted = true;
        }
        match self.connected(c) {
            Some(k) => self.queue_if_ready(c, k),
            None => Ok(()),
        }
    }

    /// The attempt of a connection that has connected.
    fn connected(&self, c: u32) -> Option<usize> {
        self.hosts.get(c as usize)?.connected
    }

    /// Puts a socket behind those that are to be served.
    #[tactic(auto, using(crate::proofs::WakingTheory::longer_same, crate::proofs::WakingTheory::longer_one, crate::proofs::WakingTheory::longer_more))]
    fn queue(&mut self, c: u32, k: usize) -> Result<(), AllocError>
        ensures { OnOk result (IsLonger self.old.queue.items self.new.queue.items) }
    {
        if let Some(host) = self.hosts.get_mut(c as usize)
            && let Some(socket) = host.socket(k)
            && !socket.is_queued
        {
            socket.is_queued = true;
            self.queue.push_back((c, k))?;
        }
        Ok(())
    }

    /// The same, if octets are to be written on it or read of it.
    #[tactic(auto, using(crate::proofs::WakingTheory::longer_same, crate::proofs::WakingTheory::longer_one, crate::proofs::WakingTheory::longer_more))]
    fn queue_if_ready(&mut self, c: u32, k: usize) -> Result<(), AllocError>
        ensures { OnOk result (IsLonger self.old.queue.items self.new.queue.items) }
    {
        match self.hosts.get(c as usize) {
            Some(host) if host.is_to_write(k) || host.is_to_read(k) => self.queue(c, k),
            _ => Ok(()),
        }
    }

    /// Has the system acknowledge what was read since the last wait, where nothing was answered.
    fn acknowledge(&mut self) {
        for (c, k) in &self.heard {
            if let Some(host) = self.hosts.get_mut(*c as usize)
                && let Some(socket) = host.socket(*k)
            {
                socket.acknowledge();
            }
        }
        self.heard.clear();
    }

    /// Polls, waits for so long at most, and notes which sockets are to be served.
    #[tactic(auto, using(crate::proofs::WakingTheory::longer_same, crate::proofs::WakingTheory::longer_one, crate::proofs::WakingTheory::longer_more))]
    fn poll_for(&mut self, most: Option<Duration>) -> Result<(), AllocError>
        ensures { OnOk result (IsLonger self.old.queue.items self.new.queue.items) }
    {
        let Some(poll) = &mut self.poll else {
            self.events.clear();
            return Ok(());
        };
        if poll.poll(&mut self.events, most).is_err() {
            return Ok(());
        }
        note_all(&self.events, &mut self.hosts, &mut self.queue)
    }

    /// Serves a socket: looks how it stands, writes or reads. What cannot be written does not keep it from being read.
    #[tactic(auto, using(crate::proofs::WakingTheory::longer_same, crate::proofs::WakingTheory::longer_one, crate::proofs::WakingTheory::longer_more))]
    fn serve_one(&mut self, c: u32, k: usize) -> Result<Option<Happening>, AllocError>
        ensures { OnOk result (IsLonger self.old.queue.items self.new.queue.items) }
    {
        let Some(host) = self.hosts.get_mut(c as usize) else {
            return Ok(None);
        };
        let Some(socket) = host.socket(k) else {
            return Ok(None);
        };
        socket.is_queued = false;
        if !socket.is_connected {
            return Ok(self.look(c, k));
        }
        if let Some(report) = self.write(c, k)? {
            return Ok(Some(Happening::Report(report)));
        }
        self.read(c, k)
    }

    /// Looks how an attempt to connect stands.
    fn look(&mut self, c: u32, k: usize) -> Option<Happening>
        ensures { self.new.queue ≡ self.old.queue }
    {
        let host = self.hosts.get_mut(c as usize)?;
        let socket = host.socket(k)?;
        match socket.progress() {
            Progress::Connected => {
                socket.is_connected = true;
                host.connected = host.connected.or(Some(k));
                host.note(Notice::Nothing);
                Some(Happening::Report(Report::Connected(k)))
            }
            Progress::Failed(notice) => {
                host.note_attempt(notice);
                self.leave(c, k);
                Some(Happening::Report(Report::Unreachable(k)))
            }
            Progress::Pending => None,
        }
    }

    /// Writes what waits on a connection.
    #[tactic(auto, using(crate::proofs::WakingTheory::longer_same, crate::proofs::WakingTheory::longer_one, crate::proofs::WakingTheory::longer_more))]
    fn write(&mut self, c: u32, k: usize) -> Result<Option<Report>, AllocError>
        ensures { OnOk result (IsLonger self.old.queue.items self.new.queue.items) }
    {
        let Some(host) = self.hosts.get_mut(c as usize) else {
            return Ok(None);
        };
        if !host.is_to_write(k) {
            return Ok(None);
        }
        let report = match host.write(k) {
            Moved::Octets(_) => Report::Taken,
            Moved::Failure => {
                host.note(Notice::Reset);
                Report::Unwritable
            }
            _ => return Ok(None),
        };
        self.queue_if_ready(c, k)?;
        Ok(Some(report))
    }

    /// Reads octets of a connection, if they are wanted.
    #[tactic(auto, using(crate::proofs::WakingTheory::longer_same, crate::proofs::WakingTheory::longer_one, crate::proofs::WakingTheory::longer_more))]
    fn read(&mut self, c: u32, k: usize) -> Result<Option<Happening>, AllocError>
        ensures { OnOk result (IsLonger self.old.queue.items self.new.queue.items) }
    {
        let Some(host) = self.hosts.get_mut(c as usize) else {
            return Ok(None);
        };
        if !host.is_to_read(k) {
            return Ok(None);
        }
        let Some(socket) = host.socket(k) else {
            return Ok(None);
        };
        let moved = socket.read(&mut self.piece);
        match moved {
            Moved::End => host.note(Notice::Ended),
            Moved::Failure => host.note(Notice::Reset),
            _ => {}
        }
        self.heard.push((c, k))?;
        self.queue_if_ready(c, k)?;
        match moved {
            Moved::Octets(count) => Ok(Some(Happening::Octets(count))),
            Moved::End => Ok(Some(Happening::Report(Report::End))),
            Moved::Failure => Ok(Some(Happening::Report(Report::Unreadable))),
            Moved::Nothing => Ok(None),
        }
    }
}

impl<'a, N: Net + Clock> Ready for Sockets<'a, N> {
    ghost use Rattle.std.specs.Prelude.{ℕ};
    ghost use Rattle.zoom_tcp.specs.Waking.{IsPollOf, polls_of, IsServeOf, queue_of};

    ghost IsTime = { λ s now. Unit {0} };

    ghost IsPolled = { λ old more new. IsPollOf old more new };

    ghost polls = { λ s. polls_of s };

    ghost queue = { λ s. queue_of s };

    ghost IsServed = { λ old happened new. IsServeOf old happened new };

    fn wait(&mut self, most: Option<Duration>) -> Result<(), AllocError> {
        self.acknowledge();
        self.poll_for(most)
    }

    fn time(&self) -> u64 {
        self.stopwatch.now()
    }

    fn most_polls(&self) -> usize {
        self.open / MOST_EVENTS + 1
    }

    fn poll(&mut self) -> Result<bool, AllocError> {
        self.poll_for(Some(Duration::ZERO))?;
        Ok(self.events.iter().len() >= MOST_EVENTS)
    }

    fn queued(&self) -> usize {
        self.queue.len()
    }

    #[tactic(auto, using(crate::proofs::WakingTheory::first_served, crate::proofs::WakingTheory::first_silent, crate::proofs::WakingTheory::none_served))]
    fn serve(&mut self) -> Result<Option<(u32, Happening)>, AllocError> {
        let Some((c, k)) = self.queue.pop_front() else {
            return Ok(None);
        };
        match self.serve_one(c, k)? {
            Some(happening) => Ok(Some((c, happening))),
            None => Ok(None),
        }
    }

    fn piece(&self, count: usize) -> &[u8] {
        let all = self.piece.as_slice();
        all.get(..count).unwrap_or(all)
    }

    fn notice(&self, c: u32) -> Notice {
        match self.hosts.get(c as usize) {
            Some(host) => host.notice(),
            None => Notice::Nothing,
        }
    }
}
