//! The Presents of one result set.
ghost use Rattle.std.specs.Prelude.{◌≡◌, ◌<◌, true, false, IfOk, OnErr, IfNone, length};
ghost use Rattle.zplan.specs.Positions.{up_to};
ghost use Rattle.zplan.specs.Ranges.{AreWanted, positions};
ghost use Rattle.zplan.specs.Agenda.{SameAgenda, IsFirstOf, AfterNoteSent, AfterNoteAnswered, HasWaiting, whole_agenda};

use crate::clip::clip;
use crate::entry::{Entry, count_waiting, first_due, leave, place_of};
use crate::part::Place;
use crate::range::Range;
use crate::span::ranges_of;
use crate::uncut::Uncut;
use std::alloc::{AllocError, Global};
use std::marker::Model;

/// The Presents of one result set whose count is known: the lists of positions that are due, by first position, and
/// those that wait for an answer. It keeps ranges, and no single positions. A list costs as many steps as it has
/// ranges.
#[derive(Drop)]
pub struct Schedule {
    /// The lists that were cut off and are not fully answered, in order.
    entries: Vec<Entry>,
    uncut: Uncut,
}

impl Model for Schedule {
    ghost use Rattle.zplan.specs.Agenda.{Agenda};

    ghost Value = { Agenda };

    ghost use Rattle.zplan.specs.Schedules.{agenda_of, IsSound};

    ghost view = { λ s. agenda_of s.entries.items s.uncut };

    ghost invariant = { λ s. IsSound s.entries.items s.uncut };
}

impl Schedule {
    /// Returns a schedule of the wanted positions up to the count. They are cut in order into lists of `step`
    /// positions, which is 1 or more; the last list may be shorter. If version 3 is in force (`three`), a list is one
    /// Present, else one for each of its runs. The wanted ranges have positions from 1 to 2,147,483,647, are in order,
    /// and have gaps between them. Returns `AllocError` if no memory is found.
    pub fn new(
        alloc: Global,
        wanted: &[Range],
        count: u64,
        step: u32,
        three: bool,
    ) -> Result<Self, AllocError>
        requires wanted { AreWanted wanted.now }
        requires step { 0 < step }
        ensures { IfOk result (λ s. s ≡ whole_agenda three step (up_to count (positions wanted.now))) }
    {
        let ranges = clip(alloc, wanted, count)?;
        let uncut = Uncut {
            ranges,
            place: Place { at: 0, used: 0 },
            room: step,
            step,
            three,
        };
        Ok(Schedule {
            entries: Vec::new(alloc),
            uncut,
        })
    }

    /// Returns the list that is due with the least first position, or `None` if none is due; nothing can then be sent.
    /// The list has as few ranges as it can be asked in, with a gap between any two. The same list is returned again
    /// until `note_sent` is called, or until `note_answered` makes a list due that begins before it. Returns
    /// `AllocError` if no memory is found; the schedule is unchanged.
    pub fn next(&mut self, alloc: Global) -> Result<Option<Vec<Range>>, AllocError>
        ensures same { SameAgenda self.old self.new }
        ensures ok { IfOk result (λ o. IsFirstOf self.new o) }
        ensures none { IfOk result (λ o. IfNone o (self.new.ready ≡ false)) }
        ensures err { OnErr result (self.new ≡ self.old) }
    {
        match first_due(&self.entries) {
            Some(at) => Ok(Some(ranges_of(alloc, &self.entries[at].list)?)),
            None => match self.uncut.next(alloc)? {
                Some(cut) => {
                    let list = ranges_of(alloc, &cut.list)?;
                    self.entries.push(Entry {
                        sent: false,
                        list: cut.list,
                    })?;
                    self.uncut.place = cut.place;
                    self.uncut.room = cut.room;
                    Ok(Some(list))
                }
                None => Ok(None),
            },
        }
    }

    /// Whether the Present of the first list due can be sent. It can after `next` returned the list. It takes no
    /// memory.
    pub fn is_ready(&self) -> bool
        ensures { result ≡ self.now.ready }
    {
        match first_due(&self.entries) {
            Some(_first) => true,
            None => false,
        }
    }

    /// Notes that the Present of the first list due was sent: the list now waits for its answer. It is the list that
    /// `next` returned last, unless `note_answered` was called since; call `next` again after `note_answered`. It
    /// requires that a Present can be sent, as `is_ready` tells. It takes no memory.
    pub fn note_sent(&mut self)
        requires { self.old.ready ≡ true }
        ensures { AfterNoteSent self.old self.new }
    {
        if let Some(at) = first_due(&self.entries) {
            self.entries[at].sent = true;
        }
    }

    /// Notes that the list that waits and begins at `first` was answered with `records` records, 0 if diagnostics came.
    /// The list no longer waits. If some of its records came and not all, the rest of the list is due; if none came,
    /// nothing of it is. More records than the list has positions count as all. It requires that such a list waits, as
    /// `is_waiting` tells. It takes no memory.
    pub fn note_answered(&mut self, first: u32, records: usize)
        requires { HasWaiting first self.old }
        ensures { AfterNoteAnswered first records self.old self.new }
    {
        if let Some(at) = place_of(&self.entries, first) {
            let three = self.uncut.three;
            if !leave(&mut self.entries[at], three, records) {
                let _ = self.entries.remove(at);
            }
        }
    }

    /// Whether a list that begins at `first` waits for its answer. It takes no memory.
    pub fn is_waiting(&self, first: u32) -> bool
        ensures some { result ≡ true → HasWaiting first self.now }
        ensures none { result ≡ false → HasWaiting first self.now → ⊥ }
    {
        match place_of(&self.entries, first) {
            Some(_at) => true,
            None => false,
        }
    }

    /// How many lists wait for an answer. It takes no memory.
    pub fn waiting(&self) -> usize
        ensures { result ≡ length self.now.waiting }
    {
        count_waiting(&self.entries)
    }
}
