//! Connections to targets within one process, over TCP on 127.0.0.1.
ghost use Rattle.std.specs.Prelude.{◌≡◌, ◌≤◌, ◌<◌, ◌^◌, [], None, length, IfOk};
ghost use Rattle.zoom_questions.specs.Askable.{AreFit, AreAskable};
ghost use Rattle.zoom_questions.specs.NewTargets.{AreNew};
ghost use Rattle.zoom_sim.specs.Run.{IsRun};
ghost use Rattle.zoom_sim.specs.RunMade.{IsMovedRun};
ghost use Rattle.zoom_tcp.specs.Loopback.{NoteStep, AreSound, PieceStep, IsNoted, IsLoopbackRun};

use crate::link::{PATIENCE, set_limits};
use crate::service::ServeError;
use std::alloc::{AllocError, Global};
use std::io;
use std::io::{ErrorKind, Read, Write};
use std::net::{Net, OpenListener, OpenStream, SocketAddr, TcpListener, TcpStream};
use std::time::Duration;
use zoom_io::{Counting, Sink, Source};
use zoom_pool::{Meta, MetaSettings, Question, Reason};
use zoom_sim::channels::Channel;
use zoom_sim::run_over;
use ztarget::Target;

/// The most octets of one write.
const PIECE: usize = 4096;

/// The two ends of a connection, and the reason if it failed.
#[derive(Drop)]
struct Pair<S> {
    client: Counting<S>,
    server: Counting<S>,
    failure: Option<Reason>,
}

/// Connections with both ends in this process. Each write is read at the other end before the next write.
#[derive(Drop)]
struct Loopback<S> {
    pairs: Vec<Pair<S>>,
}

/// Whether the source gives exactly these octets. Reads no more than these.
fn comes<R: Source>(source: &mut R, octets: &[u8]) -> bool {
    let mut piece = [0; PIECE];
    let mut rest = octets;
    while !rest.is_empty() {
        let most = rest.len().min(PIECE);
        let Ok(count) = source.read(&mut piece[..most]) else {
            return false;
        };
        if count == 0 || piece[..count] != rest[..count] {
            return false;
        }
        rest = &rest[count..];
    }
    true
}

/// Writes a front of the octets, reads it at the other end, and returns its length.
fn carry_front<W: Sink, R: Source>(
    sink: &mut W,
    source: &mut R,
    octets: &[u8],
) -> Result<usize, Reason>
    requires { 0 < length octets.now }
    ensures { IfOk result (λ n. (0 < n) × (n ≤ length octets.now)) }
{
    let most = octets.len().min(PIECE);
    let Ok(count) = sink.write(&octets[..most]) else {
        return Err(Reason::Write);
    };
    if comes(source, &octets[..count]) {
        Ok(count)
    } else {
        Err(Reason::Read)
    }
}

/// Writes all octets, and reads each write at the other end before the next write.
fn carry<W: Sink, R: Source>(sink: &mut W, source: &mut R, octets: &[u8]) -> Result<(), Reason> {
    let mut rest = octets;
    while !rest.is_empty() {
        let count = carry_front(sink, source, rest)?;
        rest = &rest[count..];
    }
    Ok(())
}

impl<S: Read + Write> Pair<S> {
    /// Records the reason if the octets were not carried. Returns whether they were.
    fn note(&mut self, carried: Result<(), Reason>) -> bool
        ensures { NoteStep result self.old self.new }
    {
        match carried {
            Ok(()) => true,
            Err(reason) => {
                self.failure = Some(reason);
                false
            }
        }
    }

    /// Carries octets from the client to the server. Returns whether all were carried.
    fn carry_to(&mut self, octets: &[u8]) -> bool
        ensures { NoteStep result self.old self.new }
    {
        let carried = carry(&mut self.client, &mut self.server, octets);
        self.note(carried)
    }

    /// Carries octets from the server to the client. Returns whether all were carried.
    fn carry_from(&mut self, octets: &[u8]) -> bool
        ensures { NoteStep result self.old self.new }
    {
        let carried = carry(&mut self.server, &mut self.client, octets);
        self.note(carried)
    }
}

impl<S: Read + Write> Channel for Loopback<S> {
    ghost use Rattle.std.specs.Prelude.{false};
    ghost use Rattle.zoom_tcp.specs.Loopback.{PieceStep, IsNoted};

    ghost sure = { false };

    ghost carries_to = { PieceStep };

    ghost carries_from = { PieceStep };

    ghost fails = { IsNoted };

    fn carry_to(&mut self, c: u32, piece: &[u8]) -> bool {
        match self.pairs.get_mut(c as usize) {
            Some(pair) => pair.carry_to(piece),
            None => false,
        }
    }

    fn carry_from(&mut self, c: u32, piece: &[u8]) -> bool {
        match self.pairs.get_mut(c as usize) {
            Some(pair) => pair.carry_from(piece),
            None => false,
        }
    }

    fn failure(&self, c: u32) -> Option<Reason> {
        self.pairs.get(c as usize)?.failure
    }
}

/// Runs `run_over` without moves.
fn run_on<S: Read + Write>(
    alloc: Global,
    questions: Vec<Question>,
    settings: MetaSettings,
    targets: Vec<Target>,
    way: &mut Loopback<S>,
) -> Result<Meta, AllocError>
    // the questions and the settings
    requires some { length questions.items < 2 ^ 32 }
    requires askable { AreAskable questions.items }
    requires fit { AreFit settings }
    // a new target for each question
    requires new { AreNew targets.items }
    requires equal { length targets.items ≡ length questions.items }
    // the run
    ensures is_run { IfOk result (λ meta. IsRun questions.items settings targets.items meta) }
    ensures moved { IfOk result (λ meta. IsMovedRun PieceStep PieceStep IsNoted
        questions.items settings targets.items [] way.old way.new meta) }
{
    run_over(alloc, questions, settings, targets, way, &[])
}

/// Takes the connection that comes from this address, and closes each other that comes before.
fn accept_from<L: OpenListener>(
    listener: &L,
    own: SocketAddr,
) -> io::Result<(L::Stream, SocketAddr)>
    ensures { IfOk result (λ taken. taken.1 ≡ own) }
{
    for _ in 0..u64::MAX {
        let (stream, from) = listener.accept()?;
        if from == own {
            return Ok((stream, from));
        }
    }
    Err(io::Error::from(ErrorKind::TimedOut))
}

/// A connection with both ends here, with limits of 30 seconds for connecting, for each read and for each write.
fn pair_of<N: Net>(
    net: &N,
    listener: &N::Listener,
    address: SocketAddr,
) -> io::Result<Pair<N::Stream>>
    ensures { IfOk result (λ pair. pair.failure ≡ None) }
{
    let client = TcpStream::connect_timeout(net, &address, Duration::from_secs(PATIENCE))?;
    let (server, _) = accept_from(listener, client.local_addr()?)?;
    set_limits(&client)?;
    set_limits(&server)?;
    Ok(Pair {
        client: Counting::new(client),
        server: Counting::new(server),
        failure: None,
    })
}

/// Makes `count` connections with both ends here. Refuses with `Listen` if one cannot be made.
fn open_loopback<N: Net>(
    alloc: Global,
    net: &N,
    count: usize,
) -> Result<Loopback<N::Stream>, ServeError>
    ensures { IfOk result (λ way. AreSound way) }
{
    let Ok(listener) = TcpListener::bind(net, "127.0.0.1:0") else {
        return Err(ServeError::Listen);
    };
    let Ok(address) = listener.local_addr() else {
        return Err(ServeError::Listen);
    };
    let mut pairs = Vec::new(alloc);
    for _ in 0..count {
        let Ok(pair) = pair_of(net, &listener, address) else {
            return Err(ServeError::Listen);
        };
        if pairs.push(pair).is_err() {
            return Err(ServeError::Memory);
        }
    }
    Ok(Loopback { pairs })
}

/// Puts each question to the target of the same number, as `run_world` does without moves, over TCP on 127.0.0.1
/// (Z39.50-2003, 3.2). Both ends of each connection are in this process, and a connection that another makes is closed.
/// Each write has at most 4,096 octets and is read at the other end before the next write. If a write does not arrive
/// as it was written, its own connection alone fails. No connection is stopped for another reason, unless 2^64 - 1
/// rounds were made.
///
/// There are fewer than 2^32 questions, and as many targets.
///
/// Refusals: `Listen` if the connections cannot be made, and `Memory`.
pub fn run_loopback<N: Net>(
    alloc: Global,
    net: &N,
    questions: Vec<Question>,
    settings: MetaSettings,
    targets: Vec<Target>,
) -> Result<Meta, ServeError>
    // the questions and the settings
    requires some { length questions.items < 2 ^ 32 }
    requires askable { AreAskable questions.items }
    requires fit { AreFit settings }
    // a new target for each question
    requires new { AreNew targets.items }
    requires equal { length targets.items ≡ length questions.items }
    // the run
    ensures is_run { IfOk result (λ meta. IsRun questions.items settings targets.items meta) }
    ensures own { IfOk result
        (λ meta. IsLoopbackRun N.Stream questions.items settings targets.items meta) }
{
    let mut way = open_loopback(alloc, net, questions.len())?;
    Ok(run_on(alloc, questions, settings, targets, &mut way)?)
}
