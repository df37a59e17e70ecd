//! What will happen, by time.
use crate::asking::fault::Fault;
use std::alloc::Global;
use std::collections::BTreeSet;
use zoom_asking::Report;

/// What happens on a connection.
#[derive(Clone, Copy)]
pub(crate) enum What {
    /// Something to be reported.
    Report(Report),
    /// So many of the octets of the host come, from this place on.
    Octets { from: usize, count: usize },
}

/// What happens, when, and on which connection.
#[derive(Clone, Copy)]
pub(crate) struct Event {
    pub time: u64,
    pub c: u32,
    pub what: What,
}

/// What will happen. Of two events of one time, that which was put first comes first.
#[derive(Drop)]
pub(crate) struct Agenda {
    /// All events that were put.
    events: Vec<Event>,
    /// The times and places of those that have not come.
    order: BTreeSet<(u64, u64)>,
}

impl Agenda {
    /// Nothing will happen.
    pub(crate) fn new(alloc: Global) -> Agenda {
        Agenda {
            events: Vec::new(alloc),
            order: BTreeSet::new(alloc),
        }
    }

    /// Puts an event.
    pub(crate) fn put(&mut self, event: Event) -> Result<(), Fault> {
        let place = self.events.len() as u64;
        self.events.push(event)?;
        self.order.insert((event.time, place))?;
        Ok(())
    }

    /// When the next event comes.
    pub(crate) fn next_at(&self) -> Option<u64> {
        let &(time, _) = self.order.first()?;
        Some(time)
    }

    /// Takes the next event.
    pub(crate) fn take(&mut self) -> Option<Event> {
        let (_, place) = self.order.pop_first()?;
        self.events.get(place as usize).copied()
    }
}
