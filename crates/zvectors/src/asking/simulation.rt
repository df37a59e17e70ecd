//! A run, step by step: what the machine asks for is done, and what comes next is told.
use crate::asking::agenda::{Agenda, Event};
use crate::asking::conduct::Conduct;
use crate::asking::fault::Fault;
use crate::asking::judge::{is_settled, judge};
use crate::asking::peers::Peer;
use crate::asking::tempers::{Nature, Temper};
use std::alloc::Global;
use zber_rows::dice::Dice;
use zoom_asking::{Action, Asking, Task};

/// The most steps of a run.
const MOST_STEPS: u32 = 1_000_000;

/// A run in the midst.
#[derive(Drop)]
pub(crate) struct Simulation {
    pub(crate) alloc: Global,
    pub(crate) asking: Asking,
    pub(crate) peers: Vec<Peer>,
    pub(crate) conducts: Vec<Conduct>,
    pub(crate) agenda: Agenda,
    /// What came on connections that are not read yet.
    pub(crate) held: Vec<Event>,
    pub(crate) dice: Dice,
    pub(crate) in_order: bool,
    pub(crate) now: u64,
    /// When all has to be over.
    pub(crate) end: u64,
    /// When the caller gives up.
    pub(crate) gives_up: Option<u64>,
    /// A digest of all actions, with their times and octets.
    pub(crate) digest: u64,
}

/// A digest with one more number (Fowler, Noll and Vo).
fn mixed(digest: u64, number: u64) -> u64 {
    (digest ^ number).wrapping_mul(0x0100_0000_01b3)
}

fn code_of(task: Task) -> u64 {
    match task {
        Task::Connect(k) => (k as u64).wrapping_mul(4),
        Task::Leave(k) => (k as u64).wrapping_mul(4).wrapping_add(1),
        Task::Send => 2,
        Task::Read => 3,
    }
}

impl Simulation {
    fn mix(&mut self, number: u64) {
        self.digest = mixed(self.digest, number);
    }

    /// Does all that is to be done.
    fn act_all(&mut self) -> Result<(), Fault> {
        for _ in 0..MOST_STEPS {
            match self.asking.next_action() {
                Some(action) => self.act(action)?,
                None => return Ok(()),
            }
        }
        Err(Fault::Endless)
    }

    /// Notes and does what is to be done.
    fn act(&mut self, action: Action) -> Result<(), Fault> {
        self.mix(self.now);
        self.mix(u64::from(action.c));
        self.mix(code_of(action.task));
        let Some(conduct) = self.conducts.get_mut(action.c as usize) else {
            return Err(Fault::Unread);
        };
        if !conduct.note_task(action.task) {
            return Err(Fault::Action(action.c));
        }
        match action.task {
            Task::Connect(k) => self.connect(action.c, k),
            Task::Send => self.send(action.c),
            Task::Read => self.read(action.c),
            Task::Leave(_) => Ok(()),
        }
    }

    fn connect(&mut self, c: u32, k: usize) -> Result<(), Fault> {
        let Some(peer) = self.peers.get_mut(c as usize) else {
            return Err(Fault::Unread);
        };
        peer.connect(self.now, k, &mut self.dice, &mut self.agenda)
    }

    fn send(&mut self, c: u32) -> Result<(), Fault> {
        let mut octets = Vec::new(self.alloc);
        if (c as usize) >= self.asking.connections() {
            return Err(Fault::Unread);
        }
        self.asking.outgoing(c, &mut octets)?;
        if octets.is_empty() {
            return Err(Fault::Action(c));
        }
        for octet in &octets {
            self.digest = mixed(self.digest, u64::from(*octet));
        }
        let Some(peer) = self.peers.get_mut(c as usize) else {
            return Err(Fault::Unread);
        };
        peer.write(
            self.now,
            octets.as_slice(),
            &mut self.dice,
            &mut self.agenda,
        )
    }

    /// Whether all connections before this one are over.
    fn is_turn_of(&self, c: u32) -> Result<bool, Fault> {
        for before in 0..c {
            let Some(peer) = self.peers.get(before as usize) else {
                return Err(Fault::Unread);
            };
            if !is_settled(self.asking.meta(), before, peer.nature)? {
                return Ok(false);
            }
        }
        Ok(true)
    }

    /// What came before comes now.
    fn read(&mut self, c: u32) -> Result<(), Fault> {
        if self.in_order && !self.is_turn_of(c)? {
            return Err(Fault::Action(c));
        }
        for event in &self.held {
            if event.c == c {
                self.agenda.put(Event {
                    time: self.now,
                    c,
                    what: event.what,
                })?;
            }
        }
        Ok(())
    }

    /// Runs to the end.
    fn go(&mut self) -> Result<(), Fault> {
        for _ in 0..MOST_STEPS {
            self.act_all()?;
            if self.asking.is_over() {
                return Ok(());
            }
            self.step()?;
        }
        Err(Fault::Endless)
    }

    /// Runs to the end, and judges it. Returns the digest.
    pub(crate) fn go_well(&mut self) -> Result<u64, Fault> {
        self.go()?;
        self.judge_all()?;
        Ok(self.digest)
    }

    /// Fails unless each socket is closed and each connection ended as its host deserves.
    fn judge_all(&self) -> Result<(), Fault> {
        let mut all_told = self.gives_up.is_none();
        for k in 0..self.peers.len() {
            let (Some(peer), Some(conduct)) = (self.peers.get(k), self.conducts.get(k)) else {
                return Err(Fault::Unread);
            };
            let c = peer.c;
            if !conduct.is_clean() {
                return Err(Fault::Unleft(c));
            }
            if all_told {
                judge(self.alloc, self.asking.meta(), c, peer.nature)?;
            } else if !is_settled(self.asking.meta(), c, peer.nature)? {
                return Err(Fault::End(c));
            }
            all_told = all_told && !self.is_last(peer.nature);
        }
        Ok(())
    }

    /// Whether those behind a host of this nature are not asked to their ends.
    fn is_last(&self, nature: Nature) -> bool {
        self.in_order && matches!(nature.temper, Temper::Trickles | Temper::Unresolved)
    }
}
