//! A TCP stream as a source and a sink, with time limits.
ghost use Rattle.std.specs.Prelude.{◌≡◌, IfOk};

use std::io;
use std::io::{ErrorKind, Read, Write};
use std::net::OpenStream;
use std::time::{Clock, Duration, Instant};
use zoom_io::Counting;

/// The most seconds that connecting, a read or a write may take.
pub const PATIENCE: u64 = 30;

/// The most seconds that a whole talk may take.
pub const HOUR: u64 = 3600;

/// A stream that fails once its talk has taken an hour.
#[derive(Drop)]
pub struct Timed<'a, C, S> {
    clock: &'a C,
    begun: Instant,
    pub(crate) stream: S,
}

impl<'a, C: Clock, S> Timed<'a, C, S> {
    /// The time, or an error if the talk's hour has passed or the clock fails.
    pub(crate) fn now(&self) -> io::Result<Instant> {
        let now = Instant::now(self.clock)?;
        if now.duration_since(self.begun) < Duration::from_secs(HOUR) {
            Ok(now)
        } else {
            Err(io::Error::from(ErrorKind::TimedOut))
        }
    }
}

impl<'a, C: Clock, S: Read> Read for Timed<'a, C, S> {
    fn read(&mut self, buf: &mut [u8]) -> io::Result<usize> {
        self.now()?;
        self.stream.read(buf)
    }
}

impl<'a, C: Clock, S: Write> Write for Timed<'a, C, S> {
    fn write(&mut self, buf: &[u8]) -> io::Result<usize> {
        self.now()?;
        self.stream.write(buf)
    }

    fn flush(&mut self) -> io::Result<()> {
        self.stream.flush()
    }
}

/// A TCP stream as a source and a sink.
#[derive(Drop)]
pub struct TcpLink<'a, C, S> {
    /// The source that octets are read from.
    pub source: Counting<Timed<'a, C, S>>,
    /// The sink that octets are written to.
    pub sink: Counting<Timed<'a, C, S>>,
}

impl<'a, C: Clock, S: OpenStream + Drop> TcpLink<'a, C, S> {
    /// A link over this stream, with limits of 30 seconds for each read and each write, and of an hour for the whole
    /// talk. The source reads the stream itself, the hour begins at the same time for both devices, and neither has a
    /// failed call yet.
    ///
    /// Fails if the limits cannot be set, the clock fails or the stream cannot be cloned.
    pub fn new(clock: &'a C, stream: S) -> io::Result<TcpLink<'a, C, S>>
        ensures stream { IfOk result (λ link. link.source.inner.stream ≡ stream) }
        ensures begun { IfOk result (λ link. link.sink.inner.begun ≡ link.source.inner.begun) }
        ensures no_failure { IfOk result (λ link. (link.source.failures ≡ 0) × (link.sink.failures ≡ 0)) }
    {
        set_limits(&stream)?;
        let begun = Instant::now(clock)?;
        let other = stream.try_clone()?;
        Ok(TcpLink {
            source: timed_device(clock, begun, stream),
            sink: timed_device(clock, begun, other),
        })
    }
}

/// Limits each read and each write to 30 seconds, and sends small writes at once (`TCP_NODELAY`).
pub(crate) fn set_limits<S: OpenStream>(stream: &S) -> io::Result<()> {
    let patience = Duration::from_secs(PATIENCE);
    stream.set_read_timeout(Some(patience))?;
    stream.set_write_timeout(Some(patience))?;
    stream.set_nodelay(true)
}

/// A stream as a device with no failed call yet, whose hour began at `begun`.
fn timed_device<C, S>(clock: &C, begun: Instant, stream: S) -> Counting<Timed<'_, C, S>>
    ensures stream { result.inner.stream ≡ stream }
    ensures begun { result.inner.begun ≡ begun }
    ensures no_failure { result.failures ≡ 0 }
{
    Counting::new(Timed {
        clock,
        begun,
        stream,
    })
}
