// Conversations over devices in memory: connections that are driven, and targets that answer.
ghost use Rattle.std.specs.Prelude.{◌<◌, length, IfOk};
ghost use Rattle.zoom_questions.specs.Askable.{IsAskable};

use crate::asking::catalogues::host;
use crate::states::state_text;
use bytes::Bytes;
use std::alloc::{AllocError, Global};
use std::io;
use std::io::{ErrorKind, Read, Write};
use std::process::Abort;
use std::test::Fail;
use zapdu_rows::boxes::{box_value, parse};
use zber::Seq;
use zber_rows::rows::{digits, each_row, octets, pair, split_row, tells};
use zber_rows::unread::{Unread, read};
use zoom_io::{Counting, answer, talk};
use zoom_pool::Meta;
use zoom_questions::{MetaSettings, Question};

// What can be read, how much a call moves, which read and which write fails (the first being 1), and how many reads
// there may be; then the answer, the state, and what was written. The question wants no record.
const TALKS: &str = "\
# All answers at once, octet by octet, and in the one read that there may be.
b51c820400000000830205e0840301c006850310000086031000008c01ffb7128204000000019701019801009901019601ffbf30059f81530100 4096 0 0 9 | Ok(()) | Closed | b421820400000000830205e0840301c006850310000086031000009f6f057a6d657461b6418204000000018d01008e01018f01009001ff910131b2049f690164b524a12206072a8648ce130301a017bf6614bf2c0a30089f7801019f7901049f2d0464756e65bf30059f81530100
b51c820400000000830205e0840301c006850310000086031000008c01ffb7128204000000019701019801009901019601ffbf30059f81530100 1 0 0 99 | Ok(()) | Closed | b421820400000000830205e0840301c006850310000086031000009f6f057a6d657461b6418204000000018d01008e01018f01009001ff910131b2049f690164b524a12206072a8648ce130301a017bf6614bf2c0a30089f7801019f7901049f2d0464756e65bf30059f81530100
b51c820400000000830205e0840301c006850310000086031000008c01ffb7128204000000019701019801009901019601ffbf30059f81530100 4096 0 0 1 | Ok(()) | Closed | b421820400000000830205e0840301c006850310000086031000009f6f057a6d657461b6418204000000018d01008e01018f01009001ff910131b2049f690164b524a12206072a8648ce130301a017bf6614bf2c0a30089f7801019f7901049f2d0464756e65bf30059f81530100
# The input ends behind a message, and within one.
b51c820400000000830205e0840301c006850310000086031000008c01ff 4096 0 0 9 | Err(Ended) | Failed(Ended) | b421820400000000830205e0840301c006850310000086031000009f6f057a6d657461b6418204000000018d01008e01018f01009001ff910131b2049f690164b524a12206072a8648ce130301a017bf6614bf2c0a30089f7801019f7901049f2d0464756e65
b51c82040000 4096 0 0 9 | Ok(()) | Failed(Frame { kind: Truncated, at: 6 }) | b421820400000000830205e0840301c006850310000086031000009f6f057a6d657461
# A device fails, at once and later.
- 4096 1 0 9 | Err(Read) | Failed(Read) | b421820400000000830205e0840301c006850310000086031000009f6f057a6d657461
- 4096 0 1 9 | Err(Write) | Failed(Write) | -
b51c820400000000830205e0840301c006850310000086031000008c01ff 4096 0 2 9 | Err(Write) | Failed(Write) | b421820400000000830205e0840301c006850310000086031000009f6f057a6d657461
# No read may be made; and too few.
- 4096 0 0 0 | Err(Turns) | Failed(Turns) | b421820400000000830205e0840301c006850310000086031000009f6f057a6d657461
b51c820400000000830205e0840301c006850310000086031000008c01ff 1 0 0 9 | Err(Turns) | Failed(Turns) | b421820400000000830205e0840301c006850310000086031000009f6f057a6d657461
# The target closes first; it sends what is no APDU.
bf30059f81530100 4096 0 0 9 | Ok(()) | Closed | b421820400000000830205e0840301c006850310000086031000009f6f057a6d657461
3000 4096 0 0 9 | Ok(()) | Failed(Decode(NotApdu)) | b421820400000000830205e0840301c006850310000086031000009f6f057a6d657461
";

// The same of a target that answers.
const ANSWERS: &str = "\
# Init and Close; octet by octet; no read may be made.
b421820400000000830205e0840301c006850310000086031000009f6f057a6d657461bf30059f81530100 4096 0 0 9 | Ok(()) | b51c820400000000830205e0840301c006850310000086031000008c01ffbf30059f81530100
b421820400000000830205e0840301c006850310000086031000009f6f057a6d657461bf30059f81530100 1 0 0 99 | Ok(()) | b51c820400000000830205e0840301c006850310000086031000008c01ffbf30059f81530100
b421820400000000830205e0840301c006850310000086031000009f6f057a6d657461bf30059f81530100 4096 0 0 0 | Err(Turns) | -
# The client goes; a device fails; too few reads; what is no message.
b421820400000000830205e0840301c006850310000086031000009f6f057a6d657461 4096 0 0 9 | Ok(()) | b51c820400000000830205e0840301c006850310000086031000008c01ff
- 4096 1 0 9 | Err(Read) | -
b421820400000000830205e0840301c006850310000086031000009f6f057a6d657461 4096 0 1 9 | Err(Write) | -
b421820400000000830205e0840301c006850310000086031000009f6f057a6d657461 1 0 0 9 | Err(Turns) | -
0400 4096 0 0 9 | Ok(()) | -
";

// A reader of some octets.
#[derive(Drop)]
pub(crate) struct Given<'a> {
    octets: &'a [u8],
    step: usize,
    calls: usize,
    fails_at: usize,
}

impl Read for Given<'_> {
    fn read(&mut self, buf: &mut [u8]) -> io::Result<usize> {
        self.calls = self.calls.saturating_add(1);
        if self.calls == self.fails_at {
            return Err(io::Error::from(ErrorKind::BrokenPipe));
        }
        let count = self.octets.len().min(buf.len()).min(self.step);
        let (given, rest) = self.octets.split_at(count);
        buf[..count].copy_from_slice(given);
        self.octets = rest;
        Ok(count)
    }
}

// A writer that keeps what it takes.
#[derive(Drop)]
pub(crate) struct Kept {
    octets: Vec<u8>,
    step: usize,
    calls: usize,
    fails_at: usize,
}

impl Write for Kept {
    fn write(&mut self, buf: &[u8]) -> io::Result<usize> {
        self.calls = self.calls.saturating_add(1);
        if self.calls == self.fails_at {
            return Err(io::Error::from(ErrorKind::BrokenPipe));
        }
        let count = buf.len().min(self.step);
        match self.octets.extend_from_slice(&buf[..count]) {
            Ok(()) => Ok(count),
            Err(_) => Err(io::Error::from(ErrorKind::OutOfMemory)),
        }
    }

    fn flush(&mut self) -> io::Result<()> {
        Ok(())
    }
}

// How much a call moves, which calls fail, and how many reads there may be.
#[derive(Clone, Copy)]
pub(crate) struct Case {
    pub step: usize,
    pub read: usize,
    pub write: usize,
    pub turns: u32,
}

fn case_of(text: &str) -> Result<Case, Unread> {
    let (step, rest) = pair(text);
    let (read, rest) = pair(rest);
    let (write, turns) = pair(rest);
    Ok(Case {
        step: step.parse::<usize>()?,
        read: read.parse::<usize>()?,
        write: write.parse::<usize>()?,
        turns: turns.parse::<u32>()?,
    })
}

pub(crate) fn source_of<'a>(octets: &'a [u8], case: Case) -> Counting<Given<'a>> {
    Counting::new(Given {
        octets,
        step: case.step,
        calls: 0,
        fails_at: case.read,
    })
}

pub(crate) fn sink_of(alloc: Global, case: Case) -> Counting<Kept> {
    Counting::new(Kept {
        octets: Vec::new(alloc),
        step: case.step,
        calls: 0,
        fails_at: case.write,
    })
}

// How often a source was read, and a sink written.
pub(crate) fn reads_of(source: Counting<Given<'_>>) -> usize {
    let Given {
        octets: _,
        step: _,
        calls,
        fails_at: _,
    } = source.into_inner();
    calls
}

// What was written, and in how many calls.
pub(crate) fn writes_of(sink: Counting<Kept>) -> (Vec<u8>, usize) {
    let Kept {
        octets,
        step: _,
        calls,
        fails_at: _,
    } = sink.into_inner();
    (octets, calls)
}

// What was written, by its digits.
pub(crate) fn written_digits(alloc: Global, sink: Counting<Kept>) -> Result<String, AllocError> {
    let Kept {
        octets,
        step: _,
        calls: _,
        fails_at: _,
    } = sink.into_inner();
    digits(alloc, octets.as_slice())
}

// What is found of a database `d` alone.
fn question(alloc: Global) -> Result<Question, Unread>
    ensures { IfOk result IsAskable }
{
    let Ok(databases) = vec![in alloc; Bytes::from_static(b"d")] else {
        return Err(Unread);
    };
    let Ok(query) = parse(alloc, b"@attr 1=4 dune") else {
        return Err(Unread);
    };
    Ok(Question {
        databases: Seq::from_vec(databases),
        query: Box::into_inner(query),
        syntax: None,
        elements: None,
        wanted: Seq::from_vec(Vec::new(alloc)),
    })
}

pub(crate) fn new_meta(alloc: Global) -> Result<Box<Meta>, Unread> {
    let Ok(question) = question(alloc) else {
        return Err(Unread);
    };
    let Ok(questions) = vec![in alloc; question] else {
        return Err(Unread);
    };
    let settings = MetaSettings {
        name: Bytes::from_static(b"zmeta"),
        step: 3,
        window: 4,
    };
    let Ok(meta) = Meta::new(alloc, Seq::from_vec(questions), settings) else {
        return Err(Unread);
    };
    read(box_value(alloc, meta))
}

pub(crate) fn has(meta: &Meta) -> Result<(), Unread>
    ensures { IfOk result (λ _. 0 < length meta.now.pool.connections) }
{
    if 0 < meta.connections() {
        Ok(())
    } else {
        Err(Unread)
    }
}

// The answer of a talk, and the state after it.
fn talk_text(
    alloc: Global,
    source: &mut Counting<Given<'_>>,
    sink: &mut Counting<Kept>,
    turns: u32,
) -> Result<String, Unread> {
    let Ok(mut meta) = new_meta(alloc) else {
        return Err(Unread);
    };
    let Ok(()) = has(&meta) else {
        return Err(Unread);
    };
    let answer = talk(alloc, &mut meta, 0, source, sink, turns);
    let Ok(()) = has(&meta) else {
        return Err(Unread);
    };
    let Ok(state) = state_text(alloc, &meta.state(0)) else {
        return Err(Unread);
    };
    read(format!(in alloc; "{answer:?} | {state}"))
}

// The answer of a target's answering.
fn answer_text(
    alloc: Global,
    source: &mut Counting<Given<'_>>,
    sink: &mut Counting<Kept>,
    reads: u32,
) -> Result<String, Unread> {
    let Ok(host) = host(alloc, 0, 0) else {
        return Err(Unread);
    };
    let Ok(mut host) = box_value(alloc, host) else {
        return Err(Unread);
    };
    let answer = answer(alloc, &mut host, source, sink, reads);
    read(format!(in alloc; "{answer:?}"))
}

fn piece(alloc: Global, digits: &str) -> Result<Vec<u8>, Unread> {
    if digits == "-" {
        return Ok(Vec::new(alloc));
    }
    octets(alloc, digits)
}

fn is_talk(alloc: Global, row: &str) -> Result<bool, Unread> {
    let (told, due) = split_row(row, " | ");
    let (fed, told) = pair(told);
    let Ok(case) = case_of(told) else {
        return Err(Unread);
    };
    let Ok(fed) = piece(alloc, fed) else {
        return Err(Unread);
    };
    let mut source = source_of(fed.as_slice(), case);
    let mut sink = sink_of(alloc, case);
    let Ok(answer) = talk_text(alloc, &mut source, &mut sink, case.turns) else {
        return Err(Unread);
    };
    let Ok(written) = written_digits(alloc, sink) else {
        return Err(Unread);
    };
    Ok(tells(format!(in alloc; "{answer} | {written}"), due))
}

fn is_answer(alloc: Global, row: &str) -> Result<bool, Unread> {
    let (told, due) = split_row(row, " | ");
    let (fed, told) = pair(told);
    let Ok(case) = case_of(told) else {
        return Err(Unread);
    };
    let Ok(fed) = piece(alloc, fed) else {
        return Err(Unread);
    };
    let mut source = source_of(fed.as_slice(), case);
    let mut sink = sink_of(alloc, case);
    let Ok(answer) = answer_text(alloc, &mut source, &mut sink, case.turns) else {
        return Err(Unread);
    };
    let Ok(written) = written_digits(alloc, sink) else {
        return Err(Unread);
    };
    Ok(tells(format!(in alloc; "{answer} | {written}"), due))
}

// What can be read in a conversation that goes to its end, and what is written in it, by their digits.
pub(crate) fn whole() -> (&'static str, &'static str) {
    let row = TALKS.lines().nth(1).unwrap_or("");
    let (told, due) = split_row(row, " | ");
    let (_, rest) = split_row(due, " | ");
    let (_, sent) = split_row(rest, " | ");
    (pair(told).0, sent)
}

#[test]
fn a_talk_goes_as_told(rt: HostRuntime) -> Result<(), Fail> {
    each_row(rt.alloc(), TALKS, is_talk)
}

#[test]
fn a_target_answers_over_devices(rt: HostRuntime) -> Result<(), Fail> {
    each_row(rt.alloc(), ANSWERS, is_answer)
}
