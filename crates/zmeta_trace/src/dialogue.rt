//! The dialogue of a trace, for people: a line for each message, and for what else happened.
ghost use Rattle.std.specs.Prelude.{◌≡◌, ◌<◌, length, replicate, None, Some, IfOk, OnOk};
ghost use Rattle.std.specs.Option.{option_map};
ghost use Rattle.zoom_trace.specs.Replays.{connection_of};
ghost use Rattle.zmeta_trace.specs.Dialogue.{told_by, count_from, report_words, task_words, notice_words, is_last, new_talk, DialogueResult};
ghost use Rattle.zmeta_trace.specs.Entries.{AfterEntryOn, PutEntryResult};

use crate::place::{Place, Words, put_words, put_words_if};
use crate::way::Way;
use bytes::Bytes;
use std::alloc::{AllocError, Global};
use zoom_asking::{Report, Task};
use zoom_trace::{Notice, TraceEntry, TraceError, Traced};

/// What is shown of a connection: what was sent, and what was received.
#[derive(Drop)]
struct Talk {
    sent: Way,
    received: Way,
}

/// The names of the catalogues, and whether each is shown.
#[derive(Clone, Copy)]
pub struct Shown<'a> {
    /// The name of the catalogue of each connection.
    pub names: &'a [Bytes],
    /// Whether each is shown.
    pub chosen: &'a [bool],
}

/// A connection on which nothing went yet, for each of so many.
fn new_talks(alloc: Global, count: usize) -> Result<Vec<Talk>, AllocError>
    ensures { IfOk result (λ talks. talks.items ≡ replicate count new_talk) }
{
    let mut talks = Vec::new(alloc);
    for _ in 0..count {
        talks.push(Talk {
            sent: Way::new(alloc),
            received: Way::new(alloc),
        })?;
    }
    Ok(talks)
}

/// Words without a number.
fn words(text: &'static str) -> Words
    ensures { told_by result ≡ (text.now, None) }
{
    Words { text, number: None }
}

/// Words and the number of an address, counted from 1.
fn words_at(text: &'static str, k: usize) -> Words
    ensures { told_by result ≡ (text.now, Some (count_from k)) }
{
    Words {
        text,
        number: Some(k.saturating_add(1)),
    }
}

/// The words of what was noticed of a host.
fn words_of(notice: Notice) -> &'static str
    ensures { result.now ≡ notice_words notice }
{
    match notice {
        Notice::Nothing => "nothing was noticed",
        Notice::NoPort => "the address has no port",
        Notice::NoName => "the name has no address",
        Notice::NoFamily => "the name has no address of this family",
        Notice::Refused => "refused the connection",
        Notice::NoRoute => "there is no way to it",
        Notice::Ended => "ended the connection",
        Notice::Reset => "the connection broke",
    }
}

/// The words of a report. `None` if nothing is shown of it.
fn words_of_report(report: Report) -> Option<Words>
    ensures { option_map told_by result ≡ report_words report }
{
    match report {
        Report::Resolved(count) => Some(Words {
            text: "addresses:",
            number: Some(count),
        }),
        Report::Connected(k) => Some(words_at("connected at address", k)),
        Report::Unreachable(k) => Some(words_at("not reached at address", k)),
        Report::NoSocket(_) => Some(words("no socket was left")),
        Report::Taken => None,
        Report::End => Some(words("no more comes")),
        Report::Unreadable => Some(words("cannot be read")),
        Report::Unwritable => Some(words("cannot be written")),
    }
}

/// The words of a task. `None` if nothing is shown of it.
fn words_of_task(task: Task) -> Option<Words>
    ensures { option_map told_by result ≡ task_words task }
{
    match task {
        Task::Connect(k) => Some(words_at("connecting to address", k)),
        Task::Leave(k) => Some(words_at("left address", k)),
        Task::Send | Task::Read => None,
    }
}

/// Whether no octets come any more after a report.
fn is_last(report: Report) -> bool
    ensures { result ≡ is_last report }
{
    matches!(report, Report::End | Report::Unreadable)
}

impl Talk {
    ghost use Rattle.std.specs.Prelude.{◌≡◌, ◌++◌, List, ℕ, OnOk};
    ghost use Rattle.zmeta_trace.specs.Dialogue.{place_from, place_to, OctetsText, is_last, left_after, end_text_if};
    ghost use Rattle.zmeta_trace.specs.Entries.{AfterTalk};

    /// Appends the line of the end of what was received, if this report was the last.
    fn put_end_if(
        &mut self,
        alloc: Global,
        at: u64,
        name: &[u8],
        report: Report,
        out: &mut Vec<u8>,
    ) -> Result<(), AllocError>
        ensures line { OnOk result (out.new.items
            ≡ out.old.items ++ end_text_if (is_last report) (place_from at name.now) self.old.received) }
        ensures received { OnOk result (self.new.received ≡ left_after (is_last report) self.old.received) }
        ensures sent { OnOk result (self.new.sent ≡ self.old.sent) }
    {
        if !is_last(report) {
            return Ok(());
        }
        let from = Place {
            at,
            name,
            mark: " <",
        };
        self.received.put_end(alloc, &from, out)
    }

    /// Appends the lines of octets that were received.
    fn put_received(
        &mut self,
        alloc: Global,
        at: u64,
        name: &[u8],
        octets: &Bytes,
        out: &mut Vec<u8>,
    ) -> Result<(), AllocError>
        ensures received { OnOk result ((text : List ℕ)
            × OctetsText (place_from at name.now) octets.now self.old.received self.new.received text
            × (out.new.items ≡ out.old.items ++ text)) }
        ensures sent { OnOk result (self.new.sent ≡ self.old.sent) }
    {
        let from = Place {
            at,
            name,
            mark: " <",
        };
        self.received
            .put_octets(alloc, &from, octets.as_slice(), out)
    }

    /// Appends the lines of octets that were sent.
    fn put_sent(
        &mut self,
        alloc: Global,
        at: u64,
        name: &[u8],
        octets: &Bytes,
        out: &mut Vec<u8>,
    ) -> Result<(), AllocError>
        ensures sent { OnOk result ((text : List ℕ)
            × OctetsText (place_to at name.now) octets.now self.old.sent self.new.sent text
            × (out.new.items ≡ out.old.items ++ text)) }
        ensures received { OnOk result (self.new.received ≡ self.old.received) }
    {
        let to = Place {
            at,
            name,
            mark: " >",
        };
        self.sent.put_octets(alloc, &to, octets.as_slice(), out)
    }

    /// Appends the lines of what happened.
    fn put(
        &mut self,
        alloc: Global,
        at: u64,
        name: &[u8],
        what: &Traced,
        out: &mut Vec<u8>,
    ) -> Result<(), AllocError>
        ensures { OnOk result (AfterTalk at name.now what.now self.old self.new out.old.items out.new.items) }
    {
        let place = Place { at, name, mark: "" };
        match what {
            Traced::Received { octets, .. } => self.put_received(alloc, at, name, octets, out),
            Traced::Sent { octets, .. } => self.put_sent(alloc, at, name, octets, out),
            Traced::Reported { report, .. } => {
                self.put_end_if(alloc, at, name, *report, out)?;
                put_words_if(alloc, &place, words_of_report(*report), out)
            }
            Traced::Wanted { task, .. } => put_words_if(alloc, &place, words_of_task(*task), out),
            Traced::Noticed { notice, .. } => put_words(
                alloc,
                &place,
                words(words_of(*notice)),
                out,
            ),
            Traced::Began { .. } | Traced::Ticked | Traced::GaveUp => Ok(()),
        }
    }
}

/// The number of the connection of which an entry speaks.
fn connection_of(what: &Traced) -> Option<u32>
    ensures { result ≡ connection_of what.now }
{
    match what {
        Traced::Reported { c, .. }
        | Traced::Received { c, .. }
        | Traced::Wanted { c, .. }
        | Traced::Sent { c, .. }
        | Traced::Noticed { c, .. } => Some(*c),
        Traced::Began { .. } | Traced::Ticked | Traced::GaveUp => None,
    }
}

/// Appends the lines of an entry of a connection that is there.
fn put_entry_on(
    alloc: Global,
    c: usize,
    entry: &TraceEntry,
    shown: &Shown<'_>,
    talks: &mut Vec<Talk>,
    out: &mut Vec<u8>,
) -> Result<(), AllocError>
    requires there { c < length talks.old.items }
    requires named { length shown.now.names.now ≡ length talks.old.items }
    requires chosen { length shown.now.chosen.now ≡ length talks.old.items }
    ensures { OnOk result (AfterEntryOn shown.now.names.now shown.now.chosen.now c entry.now talks.old.items
        talks.new.items out.old.items out.new.items) }
{
    let is_shown = shown.chosen[c];
    if is_shown {
        let name = shown.names[c].as_slice();
        talks[c].put(alloc, entry.at, name, &entry.what, out)?;
    }
    Ok(())
}

/// Appends the lines of an entry. Returns whether its connection is there, if it speaks of one.
fn put_entry(
    alloc: Global,
    entry: &TraceEntry,
    shown: &Shown<'_>,
    talks: &mut Vec<Talk>,
    out: &mut Vec<u8>,
) -> Result<bool, AllocError>
    requires named { length shown.now.names.now ≡ length talks.old.items }
    requires chosen { length shown.now.chosen.now ≡ length talks.old.items }
    ensures { IfOk result (PutEntryResult shown.now.names.now shown.now.chosen.now entry.now talks.old.items
        talks.new.items out.old.items out.new.items) }
{
    let Some(c) = connection_of(&entry.what) else {
        return Ok(true);
    };
    let c = c as usize;
    if c >= talks.len() {
        return Ok(false);
    }
    put_entry_on(alloc, c, entry, shown, talks, out)?;
    Ok(true)
}

/// Appends the dialogue of the chosen connections, in the order of the entries: a line for each message that was sent
/// or received whole, and for what else happened, with the time in seconds and the name of the catalogue. What is sent
/// stands behind `>`, what is received behind `<`. Octets that are no message, or that end within one, get a line that
/// says so; behind the first fault no more octets of that way are shown.
///
/// `Refused` gives the first entry, from 1, that speaks of a connection that is not there.
#[tactic(auto, using(crate::proofs::Talking::told_none, crate::proofs::Talking::told_all))]
pub fn print_dialogue(
    alloc: Global,
    entries: &[TraceEntry],
    shown: &Shown<'_>,
    out: &mut Vec<u8>,
) -> Result<(), TraceError>
    requires { length shown.now.chosen.now ≡ length shown.now.names.now }
    ensures { DialogueResult shown.now.names.now shown.now.chosen.now entries.now out.old.items out.new.items result }
{
    let mut talks = new_talks(alloc, shown.names.len())?;
    for (index, entry) in entries.iter().enumerate() {
        if !put_entry(alloc, entry, shown, &mut talks, out)? {
            return Err(TraceError::Refused {
                line: index as u64 + 1,
            });
        }
    }
    Ok(())
}
