// A conversation over devices in memory of which one call fails, or for which memory is refused.
ghost use Rattle.std.specs.Prelude.{◌<◌, length};

use crate::talks::{Case, has, new_meta, reads_of, sink_of, source_of, whole, writes_of};
use std::alloc::Global;
use std::test::Fail;
use zber_rows::rows::octets;
use zber_rows::unread::Unread;
use zoom_io::{TalkError, talk};
use zoom_pool::{Meta, Reason, State};

// The most octets of a call.
const STEP: usize = 24;

// How a conversation ended: what it answered, the state, what was written, and how often each device was called.
#[derive(Drop)]
struct Ended {
    answer: Result<(), TalkError>,
    state: State,
    written: Vec<u8>,
    reads: usize,
    writes: usize,
}

// A conversation on a connection that has sent nothing yet, of which these calls of the devices fail, the first being
// 1.
fn talk_on(alloc: Global, meta: &mut Meta, all: &[u8], read: usize, write: usize) -> Ended
    requires { 0 < length meta.old.pool.connections }
{
    let case = Case {
        step: STEP,
        read,
        write,
        turns: 99,
    };
    let mut source = source_of(all, case);
    let mut sink = sink_of(alloc, case);
    let answer = talk(alloc, meta, 0, &mut source, &mut sink, case.turns);
    let state = meta.state(0);
    let (written, writes) = writes_of(sink);
    Ended {
        answer,
        state,
        written,
        reads: reads_of(source),
        writes,
    }
}

fn talk_anew(alloc: Global, all: &[u8], read: usize, write: usize) -> Result<Ended, Unread> {
    let Ok(mut meta) = new_meta(alloc) else {
        return Err(Unread);
    };
    let Ok(()) = has(&meta) else {
        return Err(Unread);
    };
    Ok(talk_on(alloc, &mut meta, all, read, write))
}

fn is_whole(ended: &Ended, sent: &[u8]) -> bool {
    ended.answer.is_ok() && ended.state == State::Closed && ended.written.as_slice() == sent
}

// Whether it failed for this reason, once a front of what is due was written.
fn fails(ended: &Ended, reason: Reason, sent: &[u8]) -> bool {
    ended.answer.is_err()
        && ended.state == State::Failed(reason)
        && sent.starts_with(ended.written.as_slice())
}

// Whether the conversation fails with the read of this number, where there is one.
fn fails_at_read(alloc: Global, all: &[u8], sent: &[u8], ample: &Ended, read: usize) -> bool {
    let Ok(ended) = talk_anew(alloc, all, read, 0) else {
        return false;
    };
    if read <= ample.reads {
        fails(&ended, Reason::Read, sent)
    } else {
        is_whole(&ended, sent)
    }
}

fn fails_at_write(alloc: Global, all: &[u8], sent: &[u8], ample: &Ended, write: usize) -> bool {
    let Ok(ended) = talk_anew(alloc, all, 0, write) else {
        return false;
    };
    if write <= ample.writes {
        fails(&ended, Reason::Write, sent)
    } else {
        is_whole(&ended, sent)
    }
}

#[test]
fn a_talk_ends_where_a_call_of_a_device_fails(rt: HostRuntime) -> Result<(), Fail> {
    let (digits, sent) = whole();
    let all = octets(rt.alloc(), digits)?;
    let sent = octets(rt.alloc(), sent)?;
    let ample = talk_anew(rt.alloc(), all.as_slice(), 0, 0)?;
    assert!(rt; is_whole(&ample, sent.as_slice()) && ample.reads > 2 && ample.writes > 2);
    for call in 1..12 {
        assert!(rt;
            fails_at_read(rt.alloc(), all.as_slice(), sent.as_slice(), &ample, call),
            "{call}"
        );
        assert!(rt;
            fails_at_write(rt.alloc(), all.as_slice(), sent.as_slice(), &ample, call),
            "{call}"
        );
    }
    Ok(())
}

// With ample memory the conversation is made once. Where one of its allocations is refused, it tells so, or its sink
// does; and one that is made again goes to its end.
#[test]
fn a_talk_tells_where_memory_was_refused(rt: HostRuntime) -> Result<(), Fail> {
    let (digits, sent) = whole();
    let all = octets(rt.alloc(), digits)?;
    let sent = octets(rt.alloc(), sent)?;
    let mut first = new_meta(rt.alloc())?;
    let mut second = new_meta(rt.alloc())?;
    has(&first)?;
    has(&second)?;
    let ended = talk_on(rt.alloc(), &mut first, all.as_slice(), 0, 0);
    if is_whole(&ended, sent.as_slice()) {
        return Ok(());
    }
    assert!(rt;
        fails(&ended, Reason::Memory, sent.as_slice())
            || fails(&ended, Reason::Write, sent.as_slice())
    );
    assert!(rt;
        is_whole(
            &talk_on(rt.alloc(), &mut second, all.as_slice(), 0, 0),
            sent.as_slice()
        )
    );
    Ok(())
}
