//! What can be wrong with a query in the prefix notation, in words.
ghost use Rattle.std.specs.Prelude.{◌≡◌};
ghost use Rattle.zmeta_explain.specs.Queries.{is_attrset, unknown_words, query_words};
ghost use Rattle.zmeta_explain.specs.Sentences.{sentence_text};

use crate::places::behind;
use crate::sentences::{Insert, Sentence};
use crate::tokens::token_at;
use zquery::PqfErrorKind;

fn is_attrset(token: &[u8]) -> bool
    ensures { result ≡ is_attrset token.now }
{
    token == b"@attrset".as_slice()
}

/// Returns the words for a token that begins with `@` and is no word there.
fn unknown_sentence(token: &[u8]) -> Sentence<'_>
    ensures { sentence_text result ≡ unknown_words token.now }
{
    if is_attrset(token) {
        return Sentence::Plain("@attrset stands at the front of a query, once");
    }
    Sentence::One(
        "",
        Insert::Text(token),
        " is none of @and, @or, @not, @attr, @term and @set; put quotes round a term that begins with @",
    )
}

/// Returns the words for a text that is no query, for this reason at this octet of it.
pub(crate) fn query_sentence(text: &[u8], kind: PqfErrorKind, at: usize) -> Sentence<'_>
    ensures { sentence_text result ≡ query_words text.now kind at }
{
    let token = Insert::Text(token_at(text, at));
    match kind {
        PqfErrorKind::OpenQuote => Sentence::One(
            "no quote closes the one before ",
            Insert::Text(behind(behind(text, at), 1)),
            "; write \" behind the last of these words",
        ),
        PqfErrorKind::Empty => Sentence::Plain(
            "the query is empty; write a word, or several in quotes as \"frank herbert\"",
        ),
        PqfErrorKind::UnknownWord => unknown_sentence(token_at(text, at)),
        PqfErrorKind::MissingOperand => Sentence::Plain(
            "the query ends too early; @and, @or and @not have two terms behind them, @attr and @term have one",
        ),
        PqfErrorKind::BadAttribute => Sentence::One(
            "",
            token,
            " is no attribute; write two numbers, as 1=4 for titles",
        ),
        PqfErrorKind::UnknownSet => Sentence::One(
            "",
            token,
            " is no attribute set; write bib-1 or a dotted OID, or an attribute as 1=4",
        ),
        PqfErrorKind::BadTermType => Sentence::One(
            "",
            token,
            " is no type of term; write general, numeric or string",
        ),
        PqfErrorKind::BadNumber => Sentence::One(
            "",
            token,
            " is no number of 64 bits; write digits, with - before them below 0",
        ),
        PqfErrorKind::TooDeep => Sentence::One(
            "more than 31 operators stand above ",
            token,
            "; write a query with fewer",
        ),
        PqfErrorKind::Trailing => Sentence::One(
            "the query ends before ",
            token,
            "; put words that belong together in quotes",
        ),
        PqfErrorKind::Memory => Sentence::Plain("no memory was found for the query"),
    }
}
