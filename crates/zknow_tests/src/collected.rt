// The encodings of all tables as one table, with one on each row.
use crate::apdus::APDUS;
use crate::others::OTHERS;
use crate::queries::rows::{KEPT, OTHER_TAGS, TEXTED};
use crate::servers::SENT;
use crate::{records, segments};
use std::alloc::{AllocError, Global};
use zber_rows::rows::{pair, split_row};

// Where encodings stand in a row: its first word, its second one, what is behind the equals sign, or all its words.
#[derive(Clone, Copy)]
enum Place {
    First,
    Second,
    Marked,
    All,
}

fn words_at(row: &str, place: Place) -> &str {
    match place {
        Place::First => pair(row).0,
        Place::Second => pair(pair(row).1).0,
        Place::Marked => split_row(row, "=").1,
        Place::All => row,
    }
}

// Puts each word.
fn put_each(words: &str, out: &mut String) -> Result<(), AllocError> {
    for word in words.split(' ') {
        out.push_str(word)?;
        out.push_str("\n")?;
    }
    Ok(())
}

fn put(rows: &str, place: Place, out: &mut String) -> Result<(), AllocError> {
    for row in rows.lines() {
        let words = words_at(row, place);
        if !row.starts_with('#') && !words.is_empty() {
            put_each(words, out)?;
        }
    }
    Ok(())
}

// The encodings of messages and elements, lawful ones and others.
pub(crate) fn encodings(alloc: Global) -> Result<String, AllocError> {
    let mut out = String::new(alloc);
    for (rows, place) in [
        (APDUS, Place::First),
        (SENT, Place::First),
        (SENT, Place::Second),
        (KEPT, Place::First),
        (OTHER_TAGS, Place::First),
        (TEXTED, Place::First),
        (segments::STRINGS, Place::First),
        (records::PRINTED, Place::Second),
        (records::MADE, Place::Marked),
        (OTHERS, Place::All),
    ] {
        if put(rows, place, &mut out).is_err() {
            return Err(AllocError);
        }
    }
    Ok(out)
}
