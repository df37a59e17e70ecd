//! Hosts in memory: what they do when they are connected to and written to.
use crate::asking::agenda::{Agenda, Event, What};
use crate::asking::catalogues::host;
use crate::asking::fault::Fault;
use crate::asking::tempers::{MILLISECOND, Nature, Temper};
use std::alloc::Global;
use zber_rows::dice::Dice;
use zoom_asking::Report;
use zoom_pool::Host;

/// The most replies that one write can bring.
const MOST_REPLIES: u32 = 1_000;

/// A host in memory, and all octets that it sends.
#[derive(Drop)]
pub(crate) struct Peer {
    /// The number of its connection.
    pub(crate) c: u32,
    pub(crate) nature: Nature,
    host: Host,
    /// All octets that it has sent or will send.
    sent: Vec<u8>,
    /// How many attempts had no socket.
    refused: u64,
    /// How many writes there were.
    writes: u64,
    /// When the last octet so far comes.
    last: u64,
    /// Whether it sends no more.
    ended: bool,
}

impl Peer {
    /// The host of a connection, which has done nothing.
    pub(crate) fn new(alloc: Global, c: u32, nature: Nature) -> Result<Peer, Fault> {
        Ok(Peer {
            c,
            nature,
            host: host(alloc, c, nature.records)?,
            sent: Vec::new(alloc),
            refused: 0,
            writes: 0,
            last: 0,
            ended: false,
        })
    }

    /// The octets of a piece.
    pub(crate) fn piece(&self, from: usize, count: usize) -> &[u8] {
        let rest = self.sent.as_slice().get(from..).unwrap_or(&[]);
        rest.get(..count).unwrap_or(rest)
    }

    fn event(&self, time: u64, report: Report) -> Event {
        Event {
            time,
            c: self.c,
            what: What::Report(report),
        }
    }

    /// What an attempt to connect gives, if it ends.
    fn answer(&mut self, k: usize) -> Option<Report> {
        match self.nature.temper {
            Temper::Refuses => Some(Report::Unreachable(k)),
            Temper::FirstSilent if k == 0 => None,
            Temper::NoSocket if self.refused < self.nature.number => {
                self.refused = self.refused.saturating_add(1);
                Some(Report::NoSocket(k))
            }
            _ => Some(Report::Connected(k)),
        }
    }

    /// An attempt to connect begins.
    pub(crate) fn connect(
        &mut self,
        now: u64,
        k: usize,
        dice: &mut Dice,
        agenda: &mut Agenda,
    ) -> Result<(), Fault> {
        let Some(report) = self.answer(k) else {
            return Ok(());
        };
        let most = match report {
            Report::NoSocket(_) => 20,
            _ => 300,
        };
        let time = now.saturating_add(dice.number_below(most * MILLISECOND));
        agenda.put(self.event(time, report))
    }

    /// Octets are written to it.
    pub(crate) fn write(
        &mut self,
        now: u64,
        octets: &[u8],
        dice: &mut Dice,
        agenda: &mut Agenda,
    ) -> Result<(), Fault> {
        let time = now.saturating_add(dice.number_below(5 * MILLISECOND));
        self.writes = self.writes.saturating_add(1);
        if matches!(self.nature.temper, Temper::Unwritable) && self.writes > self.nature.number {
            return agenda.put(self.event(time, Report::Unwritable));
        }
        agenda.put(self.event(time, Report::Taken))?;
        if self.ended {
            return Ok(());
        }
        self.host.feed(octets)?;
        let from = self.sent.len();
        match self.nature.temper {
            Temper::Silent => return Ok(()),
            Temper::Lies => self.lie(dice)?,
            _ => self.reply(dice)?,
        }
        self.garble(from);
        self.send(now, from, dice, agenda)?;
        self.farewell(now, dice, agenda)
    }

    /// Adds random octets.
    fn lie(&mut self, dice: &mut Dice) -> Result<(), Fault> {
        for _ in 0..dice.number_below(40) {
            self.sent.push((dice.number_below(256) & 255) as u8)?;
        }
        Ok(())
    }

    /// Adds the replies that are due, in some order.
    fn reply(&mut self, dice: &mut Dice) -> Result<(), Fault> {
        for _ in 0..MOST_REPLIES {
            let k = dice.number_below(3) as usize;
            if !self.host.release(k)? && !self.host.release(0)? {
                return Ok(());
            }
            self.put_reply()?;
        }
        Ok(())
    }

    /// Adds a reply, unless it is a Close that the host does not send.
    fn put_reply(&mut self) -> Result<(), Fault> {
        let odd = matches!(
            self.nature.temper,
            Temper::ResetsAtClose | Temper::IgnoresClose
        );
        if self.host.closed() && odd {
            self.ended = true;
            return Ok(());
        }
        self.host.outgoing(&mut self.sent)?;
        Ok(())
    }

    /// Changes an octet of what is added from a place on, if it is its turn.
    fn garble(&mut self, from: usize) {
        let at = self.nature.number as usize;
        if matches!(self.nature.temper, Temper::Garbles) && at >= from {
            if let Some(octet) = self.sent.get_mut(at) {
                *octet ^= 0x15;
            }
        }
    }

    /// The size of the next piece, and how long after the last it comes.
    fn next_piece(&self, dice: &mut Dice) -> (usize, u64) {
        if matches!(self.nature.temper, Temper::Trickles) {
            let delay = dice.number_below(300 * MILLISECOND);
            return (1, delay.saturating_add(600 * MILLISECOND));
        }
        let count = dice.number_below(self.nature.piece).saturating_add(1);
        (count as usize, dice.number_below(25 * MILLISECOND))
    }

    /// How many octets it sends before it dies.
    fn most(&self) -> usize {
        if matches!(self.nature.temper, Temper::Dies) {
            self.sent.len().min(self.nature.number as usize)
        } else {
            self.sent.len()
        }
    }

    /// Sends what it has to send from a place on, in pieces.
    fn send(
        &mut self,
        now: u64,
        from: usize,
        dice: &mut Dice,
        agenda: &mut Agenda,
    ) -> Result<(), Fault> {
        let most = self.most();
        let mut from = from;
        self.last = self.last.max(now);
        for _ in 0..self.sent.len() {
            if from >= most {
                break;
            }
            let (count, delay) = self.next_piece(dice);
            let count = count.min(most.saturating_sub(from));
            self.last = self.last.saturating_add(delay);
            agenda.put(Event {
                time: self.last,
                c: self.c,
                what: What::Octets { from, count },
            })?;
            from = from.saturating_add(count);
        }
        Ok(())
    }

    /// What comes behind the octets: an end, or a reset.
    fn farewell(&mut self, now: u64, dice: &mut Dice, agenda: &mut Agenda) -> Result<(), Fault> {
        let time = self
            .last
            .max(now)
            .saturating_add(dice.number_below(MILLISECOND));
        let dead = matches!(self.nature.temper, Temper::Dies) && self.most() < self.sent.len();
        if dead || (self.host.closed() && matches!(self.nature.temper, Temper::Honest)) {
            self.ended = true;
            return agenda.put(self.event(time, Report::End));
        }
        if self.ended && matches!(self.nature.temper, Temper::ResetsAtClose) {
            return agenda.put(self.event(time, Report::Unreadable));
        }
        Ok(())
    }
}
