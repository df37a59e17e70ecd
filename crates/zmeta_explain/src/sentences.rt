//! Sentences: fixed words, with something of the user's between them.
ghost use Rattle.std.specs.Prelude.{◌≡◌, ◌++◌, IfOk, OnOk, OnErr};
ghost use Rattle.std.specs.Fmt.{decimal};
ghost use Rattle.zmeta_explain.specs.Sentences.{insert_text, sentence_text};

use crate::shown::{put_name, put_shown};
use std::alloc::{AllocError, Global};

/// What stands between the words of a sentence.
#[derive(Clone, Copy)]
pub(crate) enum Insert<'a> {
    /// A text in quotes, cut if it is long.
    Text(&'a [u8]),
    /// The name of a host, a file or a syntax, in quotes if it needs them.
    Name(&'a [u8]),
    /// Words.
    Words(&'static str),
    /// A number in decimal.
    Number(u64),
}

/// A sentence, in its order.
#[derive(Clone, Copy)]
pub(crate) enum Sentence<'a> {
    /// Fixed words alone.
    Plain(&'static str),
    /// Words around one insert.
    One(&'static str, Insert<'a>, &'static str),
    /// Words around two inserts.
    Two(&'static str, Insert<'a>, &'static str, Insert<'a>, &'static str),
}

fn put_number(alloc: Global, number: u64, line: &mut Vec<u8>) -> Result<(), AllocError>
    ensures { OnOk result (line.new.items ≡ line.old.items ++ decimal number) }
{
    let digits = number.to_string(alloc)?;
    line.extend_from_slice(digits.as_bytes())
}

fn put_insert(alloc: Global, insert: &Insert<'_>, line: &mut Vec<u8>) -> Result<(), AllocError>
    ensures { OnOk result (line.new.items ≡ line.old.items ++ insert_text insert.now) }
{
    match insert {
        Insert::Text(text) => put_shown(alloc, *text, line),
        Insert::Name(name) => put_name(alloc, *name, line),
        Insert::Words(words) => line.extend_from_slice(words.as_bytes()),
        Insert::Number(number) => put_number(alloc, *number, line),
    }
}

fn put_one(
    alloc: Global,
    before: &str,
    insert: &Insert<'_>,
    line: &mut Vec<u8>,
) -> Result<(), AllocError>
    ensures { OnOk result (line.new.items ≡ line.old.items ++ (before.now ++ insert_text insert.now)) }
{
    line.extend_from_slice(before.as_bytes())?;
    put_insert(alloc, insert, line)
}

fn put_all(alloc: Global, sentence: &Sentence<'_>, line: &mut Vec<u8>) -> Result<(), AllocError>
    ensures { OnOk result (line.new.items ≡ line.old.items ++ sentence_text sentence.now) }
{
    match sentence {
        Sentence::Plain(words) => line.extend_from_slice(words.as_bytes()),
        Sentence::One(before, insert, after) => {
            put_one(alloc, *before, insert, line)?;
            line.extend_from_slice(after.as_bytes())
        }
        Sentence::Two(before, first, between, second, after) => {
            put_one(alloc, *before, first, line)?;
            put_one(alloc, *between, second, line)?;
            line.extend_from_slice(after.as_bytes())
        }
    }
}

/// Returns a sentence as octets.
fn sentence_text(alloc: Global, sentence: &Sentence<'_>) -> Result<Vec<u8>, AllocError>
    ensures { IfOk result (λ text. text.items ≡ sentence_text sentence.now) }
{
    let mut text = Vec::new(alloc);
    put_all(alloc, sentence, &mut text)?;
    Ok(text)
}

/// Appends a sentence. Returns `AllocError` if no memory is found; nothing is appended.
pub(crate) fn put_sentence(
    alloc: Global,
    sentence: &Sentence<'_>,
    line: &mut Vec<u8>,
) -> Result<(), AllocError>
    ensures ok { OnOk result (line.new.items ≡ line.old.items ++ sentence_text sentence.now) }
    ensures err { OnErr result (line.new.items ≡ line.old.items) }
{
    let text = sentence_text(alloc, sentence)?;
    line.extend_from_slice(text.as_slice())
}
