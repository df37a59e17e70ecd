// What waits is pushed, and a source is read by its bound.
use crate::states::state_text;
use crate::talks::{Case, has, new_meta, sink_of, source_of, written_digits};
use std::alloc::Global;
use std::process::Abort;
use std::test::Fail;
use zber_rows::rows::{each_row, split_row, tells};
use zber_rows::unread::{Unread, read};
use zoom_io::{Failed, Sink, Source, push};

// Which write fails (the first being 1; each takes three octets), then what a push answers where Init waits, the state,
// and what was written.
const PUSHES: &str = "\
0 | Ok(()) | Initialising | b421820400000000830205e0840301c006850310000086031000009f6f057a6d657461
1 | Err(Write) | Failed(Write) | -
2 | Err(Write) | Failed(Write) | b42182
";

fn case(write: usize) -> Case {
    Case {
        step: 3,
        read: 0,
        write,
        turns: 0,
    }
}

fn push_text<W: Sink>(alloc: Global, sink: &mut W) -> Result<String, Unread> {
    let Ok(mut meta) = new_meta(alloc) else {
        return Err(Unread);
    };
    let Ok(()) = has(&meta) else {
        return Err(Unread);
    };
    if meta.drive(0).is_err() {
        return Err(Unread);
    }
    let Ok(()) = has(&meta) else {
        return Err(Unread);
    };
    let answer = push(alloc, &mut meta, 0, sink);
    let Ok(()) = has(&meta) else {
        return Err(Unread);
    };
    let Ok(state) = state_text(alloc, &meta.state(0)) else {
        return Err(Unread);
    };
    read(format!(in alloc; "{answer:?} | {state}"))
}

fn is_push(alloc: Global, row: &str) -> Result<bool, Unread> {
    let (write, due) = split_row(row, " | ");
    let mut sink = sink_of(alloc, case(write.parse::<usize>()?));
    let Ok(answer) = push_text(alloc, &mut sink) else {
        return Err(Unread);
    };
    let Ok(written) = written_digits(alloc, sink) else {
        return Err(Unread);
    };
    Ok(tells(format!(in alloc; "{answer} | {written}"), due))
}

// How many octets a source gives at a time.
fn count_read<R: Source>(source: &mut R) -> Result<usize, Failed> {
    let mut piece = [0; 4];
    source.read(&mut piece)
}

#[test]
fn what_waits_is_pushed(rt: HostRuntime) -> Result<(), Fail> {
    each_row(rt.alloc(), PUSHES, is_push)
}

#[test]
fn a_source_is_read_by_its_bound(rt: HostRuntime) {
    let mut source = source_of(b"octets", case(0));
    assert!(rt; count_read(&mut source) == Ok(3));
}
