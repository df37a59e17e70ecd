//! Hosts with records in memory, and questions that find them.
ghost use Rattle.std.specs.Prelude.{◌≡◌, ◌+◌, ◌≤◌, [], length, IfOk, OnOk};
ghost use Rattle.zplan.specs.Ranges.{AreWanted, positions};
ghost use Rattle.zoom_questions.specs.Askable.{IsAskable, AreAskable};
ghost use Rattle.zoom_questions.specs.NewTargets.{IsNew};

use crate::asking::fault::Fault;
use bytes::Bytes;
use std::alloc::{AllocError, Global};
use zber::{Oid, Seq};
use zoom_pool::Host;
use zoom_questions::Question;
use zorigin::Range;
use zquery::parse_pqf;
use ztarget::{Database, Entry, Field, Target, TargetSettings};

// USmarc.
const SYNTAX: [u32; 6] = [1, 2, 840, 10003, 5, 10];

/// The octets of a record of a connection's host.
pub(crate) fn record_text(alloc: Global, c: u32, position: u32) -> Result<Bytes, Fault> {
    let Ok(text) = format!(in alloc; "record {position} of host {c}, and nothing more") else {
        return Err(Fault::Unread);
    };
    match Bytes::copy_from_slice(alloc, text.as_bytes()) {
        Ok(octets) => Ok(octets),
        Err(_) => Err(Fault::Unread),
    }
}

/// An entry with the title `dune`.
pub(crate) fn titled(alloc: Global, octets: Bytes) -> Result<Entry, Fault> {
    let Ok(syntax) = Oid::from_arcs(alloc, &SYNTAX) else {
        return Err(Fault::Unread);
    };
    let field = Field {
        attr: 4,
        text: Bytes::from_static(b"dune"),
    };
    let fields = vec![in alloc; field]?;
    Ok(Entry {
        syntax,
        octets,
        fields: Seq::from_vec(fields),
    })
}

/// A target with a database `d` of these entries.
pub(crate) fn target_of(
    alloc: Global,
    entries: Vec<Entry>,
    settings: TargetSettings,
) -> Result<Target, Fault>
    ensures { IfOk result IsNew }
{
    if entries.len() > 1_000_000 {
        return Err(Fault::Unread);
    }
    let database = Database {
        name: Bytes::from_static(b"d"),
        entries: Seq::from_vec(entries),
    };
    let Ok(databases) = vec![in alloc; database] else {
        return Err(Fault::Unread);
    };
    match Target::new(alloc, databases, settings) {
        Ok(target) => Ok(target),
        Err(_) => Err(Fault::Unread),
    }
}

/// A host with a database `d` of so many records that each question finds.
pub(crate) fn host(alloc: Global, c: u32, records: u32) -> Result<Host, Fault> {
    let settings = TargetSettings {
        size: 1_048_576,
        concurrent: c % 2 == 0,
        named: true,
        refuse: false,
    };
    let mut entries = Vec::new(alloc);
    for k in 0..records {
        entries.push(titled(alloc, record_text(alloc, c, k.saturating_add(1))?)?)?;
    }
    Ok(Host::new(alloc, target_of(alloc, entries, settings)?))
}

// The first ten positions.
fn ranges_wanted(alloc: Global) -> Result<Vec<Range>, AllocError>
    ensures wanted { IfOk result (λ v. AreWanted v.items) }
    ensures few { IfOk result (λ v. length (positions v.items) ≤ 1000000) }
{
    Ok(vec![in alloc; Range { start: 1, n: 10 }]?)
}

// The first ten records of a database `d` with a title word.
fn question(alloc: Global) -> Result<Question, Fault>
    ensures { IfOk result IsAskable }
{
    let Ok(databases) = vec![in alloc; Bytes::from_static(b"d")] else {
        return Err(Fault::Unread);
    };
    let Ok(query) = parse_pqf(alloc, b"@attr 1=4 dune") else {
        return Err(Fault::Unread);
    };
    let Ok(wanted) = ranges_wanted(alloc) else {
        return Err(Fault::Unread);
    };
    Ok(Question {
        databases: Seq::from_vec(databases),
        query,
        syntax: None,
        elements: None,
        wanted: Seq::from_vec(wanted),
    })
}

// Puts a question behind others.
#[tactic(auto, using(crate::proofs::Askables::one_more))]
fn push_question(alloc: Global, questions: &mut Vec<Question>) -> Result<(), Fault>
    requires askable { AreAskable questions.old.items }
    ensures askable { OnOk result (AreAskable questions.new.items) }
{
    let Ok(question) = question(alloc) else {
        return Err(Fault::Unread);
    };
    match questions.push(question) {
        Ok(()) => Ok(()),
        Err(_) => Err(Fault::Unread),
    }
}

/// So many questions for the same records.
pub(crate) fn questions(alloc: Global, count: usize) -> Result<Vec<Question>, Fault>
    ensures { IfOk result (λ questions. AreAskable questions.items) }
{
    let mut questions = Vec::new(alloc);
    for _made in 0..count {
        push_question(alloc, &mut questions)?;
    }
    Ok(questions)
}
