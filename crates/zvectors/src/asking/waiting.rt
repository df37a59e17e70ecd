//! What comes next in a run, and how it is told.
use crate::asking::agenda::{Event, What};
use crate::asking::fault::Fault;
use crate::asking::simulation::Simulation;
use crate::asking::tempers::MILLISECOND;
use zoom_asking::Report;

/// Whether it is seen by reading.
fn is_read(report: Report) -> bool {
    matches!(report, Report::End | Report::Unreadable)
}

impl Simulation {
    /// Waits for what comes next, and tells it.
    pub(crate) fn step(&mut self) -> Result<(), Fault> {
        let event_at = self.agenda.next_at();
        let wake_at = self.asking.wake_at();
        let next_at = event_at
            .unwrap_or(u64::MAX)
            .min(wake_at.unwrap_or(u64::MAX));
        if next_at == u64::MAX {
            return Err(Fault::Stuck);
        }
        self.wait_until(next_at)?;
        if self.is_given_up() {
            self.asking.give_up(self.now)?;
            return Ok(());
        }
        if event_at == Some(next_at)
            && (wake_at != Some(next_at) || self.dice.number_below(2) == 0)
        {
            return self.happen();
        }
        self.tick()
    }

    /// Time passes. A tick at which nothing is due changes nothing.
    fn wait_until(&mut self, time: u64) -> Result<(), Fault> {
        let between = self.now.saturating_add(time.saturating_sub(self.now) / 2);
        let wake_at = self.asking.wake_at();
        if between < time && self.dice.number_below(10) == 0 {
            self.asking.tick(between)?;
            self.fail_unless_idle(wake_at)?;
        }
        self.now = self.now.max(time);
        if self.now > self.end {
            return Err(Fault::Late);
        }
        Ok(())
    }

    /// Whether the caller gives up now.
    fn is_given_up(&self) -> bool {
        match self.gives_up {
            Some(time) => self.now >= time,
            None => false,
        }
    }

    fn tick(&mut self) -> Result<(), Fault> {
        self.asking.tick(self.now)?;
        match self.asking.wake_at() {
            Some(time) if time <= self.now => Err(Fault::Due),
            _ => Ok(()),
        }
    }

    /// The next event comes, unless its socket is closed.
    fn happen(&mut self) -> Result<(), Fault> {
        let Some(event) = self.agenda.take() else {
            return Err(Fault::Unread);
        };
        let Some(conduct) = self.conducts.get_mut(event.c as usize) else {
            return Err(Fault::Unread);
        };
        match event.what {
            What::Report(report) => {
                if is_read(report) && conduct.is_open() && !conduct.reads {
                    return self.hold(event);
                }
                if !conduct.note_report(report) {
                    return self.come_late(event);
                }
                self.report(event.c, report)
            }
            What::Octets { from, count } => {
                if !conduct.is_open() {
                    return self.come_late(event);
                }
                if !conduct.reads {
                    return self.hold(event);
                }
                self.octets(event.c, from, count)
            }
        }
    }

    fn hold(&mut self, event: Event) -> Result<(), Fault> {
        self.held.push(event)?;
        Ok(())
    }

    /// What comes on a socket that is closed changes nothing, if it is told at all.
    fn come_late(&mut self, event: Event) -> Result<(), Fault> {
        if self.dice.number_below(2) == 0 {
            return Ok(());
        }
        let wake_at = self.asking.wake_at();
        match event.what {
            What::Report(report) => self.report(event.c, report)?,
            What::Octets { from, count } => self.octets(event.c, from, count)?,
        }
        self.fail_unless_idle(wake_at)
    }

    /// Fails if there is anything to do, or it wakes at another time.
    fn fail_unless_idle(&mut self, wake_at: Option<u64>) -> Result<(), Fault> {
        if self.asking.next_action().is_some() || self.asking.wake_at() != wake_at {
            return Err(Fault::Moved);
        }
        Ok(())
    }

    /// The time that is told: sometimes a little before it.
    fn told_at(&mut self) -> u64 {
        if self.dice.number_below(10) == 0 {
            self.now
                .saturating_sub(self.dice.number_below(2 * MILLISECOND))
        } else {
            self.now
        }
    }

    fn report(&mut self, c: u32, report: Report) -> Result<(), Fault> {
        let at = self.told_at();
        if (c as usize) >= self.asking.connections() {
            return Err(Fault::Unread);
        }
        self.asking.report(at, c, report)?;
        Ok(())
    }

    fn octets(&mut self, c: u32, from: usize, count: usize) -> Result<(), Fault> {
        let at = self.told_at();
        let Some(peer) = self.peers.get(c as usize) else {
            return Err(Fault::Unread);
        };
        if (c as usize) >= self.asking.connections() {
            return Err(Fault::Unread);
        }
        self.asking.octets(at, c, peer.piece(from, count))?;
        Ok(())
    }
}
