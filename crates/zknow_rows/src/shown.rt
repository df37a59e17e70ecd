//! What is known as text: the printed list, and facts, counts and records with a space before each.
use bytes::Bytes;
use std::alloc::Global;
use zapdu::{DiagRec, Record};
use zapdu_rows::boxes::{diag_node, record_node};
use zapdu_rows::parts::{Line, put_node, put_number, put_word};
use zber::Seq;
use zber_rows::rows::{spells, unescape};
use zber_rows::unread::{Unread, read};
use zknow::{Fact, Knowledge, Known, Mode, Names, print_list};

fn name(alloc: Global, text: &str) -> Result<Bytes, Unread> {
    let Ok(octets) = unescape(alloc, text) else {
        return Err(Unread);
    };
    read(Bytes::from_vec(octets))
}

// Names with a space between each two.
fn names(alloc: Global, text: &str) -> Result<Names, Unread> {
    let mut names = Vec::new(alloc);
    for word in text.split_whitespace() {
        let Ok(name) = name(alloc, word) else {
            return Err(Unread);
        };
        if names.push(name).is_err() {
            return Err(Unread);
        }
    }
    Ok(Seq::from_vec(names))
}

fn list(alloc: Global, knowledge: &Knowledge, text: &str, mode: Mode) -> Result<Vec<u8>, Unread> {
    let Ok(names) = names(alloc, text) else {
        return Err(Unread);
    };
    let mut out = Vec::new(alloc);
    match print_list(alloc, knowledge, &names, mode, &mut out) {
        Ok(()) => Ok(out),
        Err(_) => Err(Unread),
    }
}

/// Whether these octets are the printed list.
pub fn has_list(alloc: Global, knowledge: &Knowledge, names: &str, mode: Mode, due: &[u8]) -> bool {
    spells(list(alloc, knowledge, names, mode), due)
}

/// Whether this is the printed list.
pub fn is_listed(alloc: Global, knowledge: &Knowledge, names: &str, mode: Mode, due: &str) -> bool {
    has_list(alloc, knowledge, names, mode, due.as_bytes())
}

fn put_record_node(alloc: Global, record: &Record, out: &mut Line) {
    match record_node(alloc, record) {
        Ok(node) => put_node(alloc, &node, out),
        Err(_) => out.fail(),
    }
}

fn put_diag_node(alloc: Global, diag: &DiagRec, out: &mut Line) {
    match diag_node(alloc, diag) {
        Ok(node) => put_node(alloc, &node, out),
        Err(_) => out.fail(),
    }
}

fn put_head(alloc: Global, kind: &str, target: u32, set: u32, out: &mut Line) {
    put_word(kind, out);
    put_number(alloc, i64::from(target), out);
    put_number(alloc, i64::from(set), out)
}

fn put_fact(alloc: Global, fact: &Fact, out: &mut Line) {
    match fact {
        Fact::Count { target, set, count } => {
            put_head(alloc, "count", *target, *set, out);
            put_number(alloc, *count, out)
        }
        Fact::Failed { target, set } => put_head(alloc, "failed", *target, *set, out),
        Fact::Seen {
            target,
            set,
            position,
            rec,
        } => {
            put_head(alloc, "seen", *target, *set, out);
            put_number(alloc, *position, out);
            put_record_node(alloc, rec, out)
        }
        Fact::Diag {
            target,
            set,
            place,
            diag,
        } => {
            put_head(alloc, "diag", *target, *set, out);
            put_number(alloc, *place, out);
            put_diag_node(alloc, diag, out)
        }
    }
}

/// Appends facts with a space before each.
pub fn put_facts(alloc: Global, facts: &[Fact], out: &mut Line) {
    for fact in facts {
        put_fact(alloc, fact, out);
    }
}

/// Appends what is known of a count.
pub fn put_counts(alloc: Global, known: Known<'_, i64>, out: &mut Line) {
    match known {
        Known::Nothing => put_word("nothing", out),
        Known::One(count) => {
            put_word("one", out);
            put_number(alloc, *count, out)
        }
        Known::Conflict(counts) => {
            put_word("conflict", out);
            for count in counts {
                put_number(alloc, *count, out);
            }
        }
    }
}

/// Appends what is known of a record.
pub fn put_known(alloc: Global, known: Known<'_, Record>, out: &mut Line) {
    match known {
        Known::Nothing => put_word("nothing", out),
        Known::One(record) => {
            put_word("one", out);
            put_record_node(alloc, record, out)
        }
        Known::Conflict(records) => {
            put_word("conflict", out);
            for record in records {
                put_record_node(alloc, record, out);
            }
        }
    }
}
