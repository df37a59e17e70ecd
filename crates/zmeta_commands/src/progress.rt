//! The progress of asking, shown on a terminal.
ghost use Rattle.std.specs.Prelude.{◌<◌, ◌^◌, length};

use crate::trouble::is_asked;
use bytes::Bytes;
use std::alloc::{AllocError, Global};
use std::io::Write;
use std::time::{Clock, Duration, Instant};
use zapdu::quote;
use zoom::{Meta, State, Watch};

/// The least time between two lines, in milliseconds.
const PAUSE: u64 = 200;

/// The codes that clear a line of a terminal.
const WIPE: &[u8] = b"\r\x1b[K";

/// The code that has a terminal cut what is too long for its row (DECAWM), and not wrap it.
const CUT: &[u8] = b"\x1b[?7l";

/// The code that has a terminal wrap lines again.
const WRAP: &[u8] = b"\x1b[?7h";

/// The most octets of a line up to the last name, without its codes.
const WIDTH: usize = 40;

/// A progress line on a terminal, if there is one: for how long it has asked, which catalogues are waited for, how many
/// are done, failed and connected, and how many records have come. A terminal that is too narrow cuts the line.
#[derive(Drop)]
pub(crate) struct Progress<'a, C, P> {
    alloc: Global,
    clock: &'a C,
    screen: Option<P>,
    names: &'a [Bytes],
    addresses: &'a [Option<Bytes>],
    begun: Option<Instant>,
    shown: Option<Instant>,
}

/// How many catalogues are asked, and how many of these are connected, done and failed. A catalogue that is done or
/// failed is not counted as connected.
#[derive(Clone, Copy)]
struct Standing {
    asked: usize,
    connected: usize,
    done: usize,
    failed: usize,
}

/// Returns whether a connection is closed or failed.
fn is_over(state: State) -> bool {
    matches!(state, State::Closed | State::Failed(_))
}

impl Standing {
    /// Counts the catalogue of a connection in this state.
    fn count(&mut self, state: State) {
        self.asked = self.asked.saturating_add(1);
        match state {
            State::Fresh => {}
            State::Closed => self.done = self.done.saturating_add(1),
            State::Failed(_) => self.failed = self.failed.saturating_add(1),
            _ => self.connected = self.connected.saturating_add(1),
        }
    }
}

/// Counts the catalogues whose questions are chosen.
fn standing_of(meta: &Meta, addresses: &[Option<Bytes>]) -> Standing
    requires { length meta.now.pool.connections < 2 ^ 32 }
{
    let mut standing = Standing {
        asked: 0,
        connected: 0,
        done: 0,
        failed: 0,
    };
    for c in 0..meta.connections() {
        if is_asked(addresses, c as u32) {
            standing.count(meta.state(c as u32));
        }
    }
    standing
}

impl<'a, C: Clock, P: Write + Drop> Progress<'a, C, P> {
    /// Returns a progress line that shows nothing yet.
    pub(crate) fn new(
        alloc: Global,
        clock: &'a C,
        screen: Option<P>,
        names: &'a [Bytes],
        addresses: &'a [Option<Bytes>],
    ) -> Progress<'a, C, P> {
        Progress {
            alloc,
            clock,
            screen,
            names,
            addresses,
            begun: None,
            shown: None,
        }
    }

    /// Returns for how many seconds it has asked, by a time that the clock gave.
    fn seconds(&self, now: Instant) -> u64 {
        match self.begun {
            Some(begun) => now.duration_since(begun).as_secs(),
            None => 0,
        }
    }

    /// Returns how long it is until a new line may be shown, by a time that the clock gave.
    fn pause(&self, now: Instant) -> Duration {
        match self.shown {
            Some(shown) => {
                Duration::from_millis(PAUSE).saturating_sub(now.duration_since(shown))
            }
            None => Duration::ZERO,
        }
    }

    /// Returns the text of the line after so many seconds.
    fn line(&self, meta: &Meta, seconds: u64) -> Result<Vec<u8>, AllocError>
        requires { length meta.now.pool.connections < 2 ^ 32 }
    {
        let standing = standing_of(meta, self.addresses);
        let records = meta.knowledge().rows()?.len();
        let mut text = Vec::new(self.alloc);
        text.extend_from_slice(WIPE)?;
        text.extend_from_slice(CUT)?;
        put_count(self.alloc, seconds, b" s", &mut text)?;
        self.put_names(meta, &mut text)?;
        text.extend_from_slice(b"; ")?;
        put_count(self.alloc, standing.done as u64, b" of ", &mut text)?;
        put_count(self.alloc, standing.asked as u64, b" done, ", &mut text)?;
        put_count(self.alloc, standing.failed as u64, b" failed, ", &mut text)?;
        put_count(
            self.alloc,
            standing.connected as u64,
            b" connected; ",
            &mut text,
        )?;
        put_count(self.alloc, records as u64, b" records", &mut text)?;
        text.extend_from_slice(WRAP)?;
        Ok(text)
    }

    /// Appends the names of catalogues that are waited for, as many as the line has room for, and the number of the
    /// others.
    fn put_names(&self, meta: &Meta, text: &mut Vec<u8>) -> Result<(), AllocError>
        requires { length meta.now.pool.connections < 2 ^ 32 }
    {
        let mut between = b", waiting for ".as_slice();
        let mut others = 0usize;
        for c in 0..meta.connections() {
            if is_asked(self.addresses, c as u32) && !is_over(meta.state(c as u32)) {
                if others == 0 && self.put_name(c, between, text)? {
                    between = b", ";
                } else {
                    others = others.saturating_add(1);
                }
            }
        }
        if others > 0 {
            let is_first = between.len() > 2;
            text.extend_from_slice(if is_first { between } else { b" and " })?;
            put_count(
                self.alloc,
                others as u64,
                if is_first { b"" } else { b" more" },
                text,
            )?;
        }
        Ok(())
    }

    /// Appends the name of a catalogue, if the line has room for it. Returns whether it has.
    fn put_name(&self, c: usize, between: &[u8], text: &mut Vec<u8>) -> Result<bool, AllocError> {
        let Some(name) = self.names.get(c) else {
            return Ok(false);
        };
        let before = text.len();
        text.extend_from_slice(between)?;
        quote(self.alloc, name.as_slice(), text)?;
        let is_short = text.len().saturating_sub(WIPE.len() + CUT.len()) <= WIDTH;
        if !is_short {
            text.truncate(before);
        }
        Ok(is_short)
    }

    /// Writes on the terminal, and ignores a failure.
    fn put(&mut self, text: &[u8]) {
        if let Some(screen) = &mut self.screen {
            let _ = screen.write_all(text);
            let _ = screen.flush();
        }
    }

    /// Clears the line if one is shown.
    pub(crate) fn wipe(&mut self) {
        if self.shown.is_some() {
            self.put(WIPE);
        }
    }
}

/// Appends a number and what follows it.
fn put_count(
    alloc: Global,
    number: u64,
    behind: &[u8],
    text: &mut Vec<u8>,
) -> Result<(), AllocError> {
    let digits = number.to_string(alloc)?;
    text.extend_from_slice(digits.as_bytes())?;
    text.extend_from_slice(behind)
}

impl<'a, C: Clock, P: Write + Drop> Watch for Progress<'a, C, P> {
    // Where a line is not due yet, it is looked again once it is, so that the last line tells the last news. Else it
    // is looked again after a second, so that the seconds move where nothing else does.
    fn look(&mut self, meta: &Meta) -> Option<Duration> {
        if self.screen.is_none() {
            return None;
        }
        let Ok(now) = Instant::now(self.clock) else {
            return None;
        };
        let pause = self.pause(now);
        if !pause.is_zero() {
            return Some(pause);
        }
        if self.begun.is_none() {
            self.begun = Some(now);
        }
        self.shown = Some(now);
        if let Ok(text) = self.line(meta, self.seconds(now)) {
            self.put(text.as_slice());
        }
        Some(Duration::from_secs(1))
    }
}
