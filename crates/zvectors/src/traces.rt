// Traces, worked out by hand: what is read of them, and what a replay of them leaves.
use bytes::Bytes;
use std::alloc::Global;
use std::io;
use std::io::{ErrorKind, Write};
use std::process::Abort;
use std::test::Fail;
use zber::Seq;
use zoom_asking::{AskedHost, Asking, Manner, Report};
use zoom_questions::{MetaSettings, Question};
use zoom_trace::{
    Notice, Recorder, TraceEntry, TraceError, Traced, Tracer, notices, put_entry, read_trace,
    replay,
};
use zquery::parse_pqf;

// A line of each kind, and the largest numbers.
const KINDS: &str = "\
    {\"at\":0,\"version\":1}\n\
    {\"at\":0,\"world\":\"686f7374\"}\n\
    {\"at\":0,\"query\":\"22\"}\n\
    {\"at\":0,\"records\":\"31\"}\n\
    {\"at\":0,\"elements\":\"46\"}\n\
    {\"at\":0,\"syntax\":\"2d\"}\n\
    {\"at\":0,\"only\":\"\"}\n\
    {\"at\":0,\"manner\":\"atOnce\"}\n\
    {\"at\":0,\"manner\":\"inOrder\"}\n\
    {\"at\":0,\"connect\":30000000000}\n\
    {\"at\":0,\"patience\":0}\n\
    {\"at\":0,\"total\":18446744073709551615}\n\
    {\"at\":0,\"connection\":0,\"report\":\"resolved\",\"addresses\":2}\n\
    {\"at\":1,\"connection\":0,\"action\":\"connect\",\"attempt\":0}\n\
    {\"at\":250000000,\"connection\":0,\"report\":\"unreachable\",\"attempt\":0}\n\
    {\"at\":250000001,\"connection\":3,\"report\":\"noSocket\",\"attempt\":1}\n\
    {\"at\":250000002,\"connection\":0,\"report\":\"connected\",\"attempt\":1}\n\
    {\"at\":250000002,\"connection\":0,\"action\":\"send\"}\n\
    {\"at\":250000002,\"connection\":0,\"sent\":\"b41a\"}\n\
    {\"at\":250000002,\"connection\":0,\"action\":\"read\"}\n\
    {\"at\":250000003,\"connection\":0,\"report\":\"taken\"}\n\
    {\"at\":250000004,\"connection\":0,\"received\":\"00ff10\"}\n\
    {\"at\":250000004,\"connection\":0,\"received\":\"\"}\n\
    {\"at\":250000005,\"report\":\"tick\"}\n\
    {\"at\":250000006,\"connection\":0,\"report\":\"end\"}\n\
    {\"at\":250000006,\"connection\":0,\"report\":\"unreadable\"}\n\
    {\"at\":250000006,\"connection\":0,\"report\":\"unwritable\"}\n\
    {\"at\":250000007,\"connection\":0,\"action\":\"leave\",\"attempt\":1}\n\
    {\"at\":250000008,\"connection\":0,\"notice\":\"nothing\"}\n\
    {\"at\":250000008,\"connection\":1,\"notice\":\"noPort\"}\n\
    {\"at\":250000008,\"connection\":2,\"notice\":\"noName\"}\n\
    {\"at\":250000008,\"connection\":3,\"notice\":\"noFamily\"}\n\
    {\"at\":250000008,\"connection\":4,\"notice\":\"refused\"}\n\
    {\"at\":250000008,\"connection\":5,\"notice\":\"noRoute\"}\n\
    {\"at\":250000008,\"connection\":6,\"notice\":\"ended\"}\n\
    {\"at\":250000008,\"connection\":7,\"notice\":\"reset\"}\n\
    {\"at\":18446744073709551615,\"connection\":4294967295,\"action\":\"leave\",\"attempt\":18446744073709551615}\n\
    {\"at\":18446744073709551615,\"report\":\"giveUp\"}\n";

// No line of an entry.
const DAMAGED: [&str; 24] = [
    "",
    "{}",
    "{\"at\":00,\"report\":\"tick\"}",
    "{\"at\":+1,\"report\":\"tick\"}",
    "{\"at\":18446744073709551616,\"report\":\"tick\"}",
    "{\"at\": 1,\"report\":\"tick\"}",
    "{\"at\":1,\"report\":\"tick\"} ",
    "{\"at\":1,\"report\":\"tick\"",
    "{\"at\":1,\"report\":\"Tick\"}",
    "{\"at\":1,\"connection\":0,\"report\":\"tick\"}",
    "{\"at\":1,\"connection\":4294967296,\"report\":\"end\"}",
    "{\"at\":1,\"connection\":0,\"report\":\"resolved\",\"attempt\":2}",
    "{\"at\":1,\"connection\":0,\"report\":\"resolved\"}",
    "{\"connection\":0,\"at\":1,\"report\":\"end\"}",
    "{\"at\":1,\"connection\":0,\"received\":\"B5\"}",
    "{\"at\":1,\"connection\":0,\"received\":\"b\"}",
    "{\"at\":1,\"connection\":0,\"action\":\"end\"}",
    "{\"at\":1,\"world\":7}",
    "{\"at\":1,\"total\":\"37\"}",
    "{\"at\":1,\"manner\":\"both\"}",
    "{\"at\":1,\"connection\":0,\"notice\":\"Refused\"}",
    "{\"at\":1,\"notice\":\"refused\"}",
    "{\"at\":1,\"report\":\"tick\"}\r",
    "{\"at\":1,\"report\":\"tick\"}{\"at\":1,\"report\":\"tick\"}",
];

// A trace, and what is read of it.
const READ: [(&str, &str); 9] = [
    ("", "0 entries"),
    ("{\"at\":1,\"report\":\"tick\"}\n", "1 entries"),
    (
        "{\"at\":1,\"report\":\"tick\"}\n{\"at\":2,\"report\":\"giveUp\"}\n",
        "2 entries",
    ),
    (
        "{\"at\":1,\"report\":\"tick\"}\n{\"at\":2,\"rep",
        "1 entries, cut",
    ),
    ("{\"at\":1,\"report\":\"tick\"}", "0 entries, cut"),
    ("tick", "0 entries, cut"),
    ("tick\n{\"at\":2,\"report\":\"giveUp\"}\n", "line 1 refused"),
    (
        "{\"at\":1,\"report\":\"tick\"}\n\n{\"at\":2,\"report\":\"giveUp\"}\n",
        "line 2 refused",
    ),
    (
        "{\"at\":1,\"report\":\"tick\"}\n{\"at\":2,\"report\":\"giveUp\"}\ntick\ntick\n",
        "line 3 refused",
    ),
];

// A trace of an asking with one connection, and what its replay leaves.
const REPLAYED: [(&str, &str); 8] = [
    ("", "goes on"),
    (
        "{\"at\":0,\"version\":1}\n{\"at\":1,\"report\":\"tick\"}\n",
        "goes on",
    ),
    (
        "{\"at\":1,\"connection\":0,\"report\":\"resolved\",\"addresses\":0}\n",
        "is over",
    ),
    (
        "{\"at\":1,\"connection\":0,\"report\":\"resolved\",\"addresses\":1}\n\
         {\"at\":1,\"connection\":0,\"action\":\"connect\",\"attempt\":0}\n",
        "goes on",
    ),
    (
        "{\"at\":1,\"connection\":0,\"report\":\"resolved\",\"addresses\":1}\n\
         {\"at\":3,\"connection\":0,\"report\":\"unreachable\",\"attempt\":0}\n\
         {\"at\":3,\"connection\":0,\"notice\":\"refused\"}\n",
        "is over",
    ),
    ("{\"at\":1,\"report\":\"giveUp\"}\n", "is over"),
    (
        "{\"at\":1,\"report\":\"tick\"}\n{\"at\":1,\"connection\":1,\"report\":\"end\"}\n",
        "line 2 refused",
    ),
    (
        "{\"at\":1,\"connection\":1,\"notice\":\"reset\"}\n",
        "line 1 refused",
    ),
];

// A trace, and what was noticed of two hosts.
const NOTICED: [(&str, [Notice; 2]); 3] = [
    (
        "{\"at\":1,\"report\":\"tick\"}\n",
        [Notice::Nothing, Notice::Nothing],
    ),
    (
        "{\"at\":1,\"connection\":1,\"notice\":\"refused\"}\n",
        [Notice::Nothing, Notice::Refused],
    ),
    (
        "{\"at\":1,\"connection\":1,\"notice\":\"ended\"}\n\
         {\"at\":2,\"connection\":0,\"notice\":\"noName\"}\n\
         {\"at\":3,\"connection\":2,\"notice\":\"noPort\"}\n\
         {\"at\":4,\"connection\":1,\"notice\":\"reset\"}\n",
        [Notice::NoName, Notice::Reset],
    ),
];

// What is read of a text, written again, and whether it was cut off.
fn again(alloc: Global, text: &[u8]) -> Option<(Vec<u8>, bool)> {
    let trace = read_trace(alloc, text).ok()?;
    let mut written = Vec::new(alloc);
    for entry in &trace.entries {
        put_entry(alloc, entry, &mut written).ok()?;
    }
    Some((written, trace.is_cut))
}

// Whether a text is read, so much of it is written again, and it was cut off so.
fn is_again(alloc: Global, text: &[u8], due: &[u8], is_cut: bool) -> bool {
    match again(alloc, text) {
        Some((written, cut)) => written.as_slice() == due && cut == is_cut,
        None => false,
    }
}

#[test]
fn kinds_of_lines(rt: HostRuntime) -> Result<(), Fail> {
    let text = KINDS.as_bytes();
    assert!(rt; is_again(rt.alloc(), text, text, false));
    Ok(())
}

#[test]
fn broken_off(rt: HostRuntime) -> Result<(), Fail> {
    let text = KINDS.as_bytes();
    let mut whole = 0;
    for end in 0..300 {
        if end > text.len() {
            return Ok(());
        }
        if end > 0 && text[end - 1] == b'\n' {
            whole = end;
        }
        if whole > end {
            return Ok(());
        }
        let front = &text[..end];
        assert!(rt;
            is_again(rt.alloc(), front, &front[..whole], whole < end),
            "{end}"
        );
    }
    Ok(())
}

// Why a trace was refused.
fn refusal(alloc: Global, error: TraceError) -> Result<String, Fail> {
    match error {
        TraceError::Refused { line } => Ok(format!(in alloc; "line {line} refused")?),
        TraceError::Memory => Ok(String::from_str(alloc, "no memory")?),
    }
}

// What is read of a trace.
fn read(alloc: Global, text: &str) -> Result<String, Fail> {
    let trace = match read_trace(alloc, text.as_bytes()) {
        Ok(trace) => trace,
        Err(error) => return refusal(alloc, error),
    };
    let cut = if trace.is_cut { ", cut" } else { "" };
    Ok(format!(in alloc; "{} entries{cut}", trace.entries.len())?)
}

// An asking with one connection.
fn begin(alloc: Global) -> Option<Asking> {
    let question = Question {
        databases: Seq::from_vec(Vec::new(alloc)),
        query: parse_pqf(alloc, b"dune").ok()?,
        syntax: None,
        elements: None,
        wanted: Seq::from_vec(Vec::new(alloc)),
    };
    let mut questions = Vec::new(alloc);
    questions.push(question).ok()?;
    let settings = MetaSettings {
        name: Bytes::from_static(b"zmeta"),
        step: 3,
        window: 4,
    };
    let host = AskedHost {
        connect: 1_000,
        patience: 1_000,
    };
    Asking::new(
        alloc,
        Seq::from_vec(questions),
        settings,
        &[Some(host)],
        Manner::AtOnce,
        None,
        0,
    )
    .ok()
}

// What a replay of a trace leaves.
fn replayed(alloc: Global, text: &str) -> Result<String, Fail> {
    let (Some(mut asking), Ok(trace)) = (begin(alloc), read_trace(alloc, text.as_bytes())) else {
        return Ok(String::from_str(alloc, "unread")?);
    };
    match replay(&mut asking, trace.entries.as_slice()) {
        Ok(()) if asking.is_over() => Ok(String::from_str(alloc, "is over")?),
        Ok(()) => Ok(String::from_str(alloc, "goes on")?),
        Err(error) => refusal(alloc, error),
    }
}

// What was noticed of two hosts.
fn noticed(alloc: Global, text: &str) -> Option<Vec<Notice>> {
    let trace = read_trace(alloc, text.as_bytes()).ok()?;
    notices(alloc, trace.entries.as_slice(), 2).ok()
}

#[test]
fn traces_are_read(rt: HostRuntime) -> Result<(), Fail> {
    for (text, due) in READ {
        let told = read(rt.alloc(), text)?;
        assert_eq!(rt; told.as_str(), due, "{text}");
    }
    Ok(())
}

#[test]
fn traces_are_replayed(rt: HostRuntime) -> Result<(), Fail> {
    for (text, due) in REPLAYED {
        let told = replayed(rt.alloc(), text)?;
        assert_eq!(rt; told.as_str(), due, "{text}");
    }
    Ok(())
}

#[test]
fn hosts_are_noticed(rt: HostRuntime) -> Result<(), Fail> {
    for (text, due) in NOTICED {
        let told = noticed(rt.alloc(), text);
        assert!(rt;
            told.is_some_and(|all| all.as_slice() == due.as_slice()),
            "{text}"
        );
    }
    Ok(())
}

#[test]
fn damaged_lines(rt: HostRuntime) -> Result<(), Fail> {
    for line in DAMAGED {
        let mut text = String::from_str(rt.alloc(), "{\"at\":1,\"report\":\"tick\"}\n")?;
        text.push_str(line)?;
        text.push_str("\n")?;
        let error = read_trace(rt.alloc(), text.as_str().as_bytes()).err();
        assert!(rt; error == Some(TraceError::Refused { line: 2 }), "{line}");
    }
    Ok(())
}

// The host of the asking with one connection.
const HOST: AskedHost = AskedHost {
    connect: 1_000,
    patience: 1_000,
};

// The trace of a search: its host has two addresses, of which the first is not reached; then it ends the connection.
const SEARCH: &str = "\
    {\"at\":0,\"manner\":\"atOnce\"}\n\
    {\"at\":0,\"connect\":1000}\n\
    {\"at\":0,\"patience\":1000}\n\
    {\"at\":0,\"total\":9000}\n\
    {\"at\":1,\"connection\":0,\"report\":\"resolved\",\"addresses\":2}\n\
    {\"at\":1,\"connection\":0,\"action\":\"connect\",\"attempt\":0}\n\
    {\"at\":2,\"connection\":0,\"report\":\"unreachable\",\"attempt\":0}\n\
    {\"at\":2,\"connection\":0,\"notice\":\"nothing\"}\n\
    {\"at\":2,\"report\":\"tick\"}\n\
    {\"at\":2,\"connection\":0,\"action\":\"connect\",\"attempt\":1}\n\
    {\"at\":3,\"connection\":0,\"report\":\"connected\",\"attempt\":1}\n\
    {\"at\":3,\"connection\":0,\"action\":\"read\"}\n";

// A sink that takes so many octets, and then fails.
#[derive(Drop)]
struct Short {
    taken: Vec<u8>,
    room: usize,
}

impl Write for Short {
    fn write(&mut self, buf: &[u8]) -> io::Result<usize> {
        let count = buf.len().min(self.room);
        if count == 0 && !buf.is_empty() {
            return Err(io::Error::from(ErrorKind::StorageFull));
        }
        self.room = self.room.saturating_sub(count);
        match self.taken.extend_from_slice(&buf[..count]) {
            Ok(()) => Ok(count),
            Err(_) => Err(io::Error::from(ErrorKind::OutOfMemory)),
        }
    }

    fn flush(&mut self) -> io::Result<()> {
        Ok(())
    }
}

// Records a search up to its first octets. Returns these.
fn record<W: Write + Drop>(alloc: Global, recorder: &mut Recorder<W>) -> Option<Vec<u8>> {
    let mut sent = Vec::new(alloc);
    recorder.begin(0, Manner::AtOnce, HOST, Some(9_000)).ok()?;
    if recorder.connections() == 0 {
        return None;
    }
    recorder.report(1, 0, Report::Resolved(2)).ok()?;
    recorder.next_action(1).ok()?;
    recorder.write_out();
    if recorder.connections() == 0 {
        return None;
    }
    recorder.report(2, 0, Report::Unreachable(0)).ok()?;
    recorder.notice(2, 0, Notice::Nothing).ok()?;
    recorder.tick(2).ok()?;
    recorder.next_action(2).ok()?;
    recorder.write_out();
    if recorder.connections() == 0 {
        return None;
    }
    recorder.report(3, 0, Report::Connected(1)).ok()?;
    recorder.next_action(3).ok()?;
    if recorder.connections() == 0 {
        return None;
    }
    recorder.outgoing(3, 0, &mut sent).ok()?;
    recorder.write_out();
    Some(sent)
}

// The trace of the search with its first octets.
fn searched(alloc: Global, sent: &[u8]) -> Option<Vec<u8>> {
    let mut due = Vec::new(alloc);
    due.extend_from_slice(SEARCH.as_bytes()).ok()?;
    let octets = Bytes::copy_from_slice(alloc, sent).ok()?;
    let what = Traced::Sent { c: 0, octets };
    put_entry(alloc, &TraceEntry { at: 3, what }, &mut due).ok()?;
    Some(due)
}

// Whether a sink with room for so many octets gets that front of the trace, or all, and it is known whether it failed.
fn is_traced(alloc: Global, room: usize) -> Option<bool> {
    let taken = Vec::new(alloc);
    let tracer = Tracer::new(alloc, Short { taken, room });
    let mut recorder = Recorder::new(alloc, begin(alloc)?, Some(tracer));
    let sent = record(alloc, &mut recorder)?;
    let due = searched(alloc, sent.as_slice())?;
    let (_, trace) = recorder.into_parts();
    let trace = trace?;
    let is_told = trace.has_failed() == (room < due.len());
    let taken = trace.into_sink().taken;
    let front = due.as_slice().get(..room).unwrap_or(due.as_slice());
    Some(is_told && taken.as_slice() == front)
}

// Whether a search without a trace sends the same.
fn is_same_untraced(alloc: Global) -> Option<bool> {
    let tracer = Tracer::new(alloc, Vec::new(alloc));
    let mut traced = Recorder::new(alloc, begin(alloc)?, Some(tracer));
    let mut plain: Recorder<Vec<u8>> = Recorder::new(alloc, begin(alloc)?, None);
    let sent = record(alloc, &mut traced)?;
    let others = record(alloc, &mut plain)?;
    let (_, trace) = plain.into_parts();
    Some(!sent.is_empty() && sent.as_slice() == others.as_slice() && trace.is_none())
}

#[test]
fn searches_are_traced(rt: HostRuntime) -> Result<(), Fail> {
    for room in [0, 1, 28, 200, 300, 600, 100_000] {
        assert!(rt; is_traced(rt.alloc(), room) == Some(true), "{room}");
    }
    assert!(rt; is_same_untraced(rt.alloc()) == Some(true));
    Ok(())
}
