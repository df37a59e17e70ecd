//! What can be wrong with arguments and files, in words.
ghost use Rattle.std.specs.Prelude.{◌≡◌, ◌++◌, OnOk, OnErr};
ghost use Rattle.zmeta_explain.specs.Mistakes.{is_stream, read_words, write_words, records_words, malformed_words, mistake_words, saved_words};
ghost use Rattle.zmeta_explain.specs.Sentences.{sentence_text};

use crate::octets::frame_sentence;
use crate::queries::query_sentence;
use crate::ranges::want_advice;
use crate::sentences::{Insert, Sentence, put_sentence};
use crate::syntaxes::syntax_sentence;
use std::alloc::{AllocError, Global};
use zapdu::Kind;
use zber::FaultKind;
use zquery::PqfErrorKind;

/// What is wrong with an argument, a file or a stream. Texts are as the user wrote them; a path is `-` for a standard
/// stream.
#[derive(Clone, Copy)]
pub enum Mistake<'a> {
    /// The text is no query, for this reason at this octet of it.
    Query {
        text: &'a [u8],
        kind: PqfErrorKind,
        at: usize,
    },
    /// A term of a search has no text.
    EmptyTerm,
    /// A search has more than 32 terms.
    ManyTerms,
    /// The text of `--records` names no wanted positions.
    Records(&'a [u8]),
    /// The text of `--syntax` is no record syntax.
    Syntax(&'a [u8]),
    /// A saved file has no valid element at this index.
    NotSaved {
        path: &'a [u8],
        at: usize,
    },
    /// A saved file has an element at this index that is not in canonical form, or is out of order.
    NotCanonical {
        path: &'a [u8],
        at: usize,
    },
    /// Two saved files have different names for their targets.
    NamesDiffer,
    /// The file or the stream could not be read.
    Read(&'a [u8]),
    /// The file or the stream could not be written.
    Write(&'a [u8]),
    /// The text is not an even number of hexadecimal digits.
    Hex,
    /// The octets do not begin with a message. For `Truncated`, `at` is how many octets are left; else it is how many
    /// are in front of the header at fault.
    Frame {
        kind: FaultKind,
        at: usize,
    },
    /// The message is not an APDU that the program knows.
    NotApdu,
    /// The message has the tag of an APDU, but is malformed behind its first `at` elements.
    Malformed {
        kind: Kind,
        at: usize,
    },
    /// The query has no text in the prefix notation.
    NotPrintable,
    /// No question has this name.
    NoQuestion(&'a [u8]),
    /// No catalogue of the saved files has this name.
    NoCatalogue(&'a [u8]),
    /// The text of `--syntax` is no object identifier, where one is needed.
    NotOid(&'a [u8]),
    /// The file has no such target, the program cannot listen at the address, or it cannot take a connection.
    Serve,
    /// No memory was found.
    Memory,
}

fn is_stream(path: &[u8]) -> bool
    ensures { result ≡ is_stream path.now }
{
    path == b"-".as_slice()
}

fn read_sentence(path: &[u8]) -> Sentence<'_>
    ensures { sentence_text result ≡ read_words path.now }
{
    if is_stream(path) {
        return Sentence::Plain("standard input failed, or has no end");
    }
    Sentence::One(
        "",
        Insert::Name(path),
        " is not there, is no file, or is closed to you",
    )
}

fn write_sentence(path: &[u8]) -> Sentence<'_>
    ensures { sentence_text result ≡ write_words path.now }
{
    if is_stream(path) {
        return Sentence::Plain("standard output is closed or full");
    }
    Sentence::One(
        "",
        Insert::Name(path),
        " cannot be made there, is closed to you, or has no room",
    )
}

fn records_sentence(text: &[u8]) -> Sentence<'_>
    ensures { sentence_text result ≡ records_words text.now }
{
    Sentence::Two(
        "",
        Insert::Text(text),
        " names no positions; ",
        Insert::Words(want_advice(text)),
        ", as 20 or 1-3,10-12",
    )
}

fn saved_sentence(path: &[u8], at: u64) -> Sentence<'_>
    ensures { sentence_text result ≡ saved_words path.now at }
{
    if at == 0 {
        return Sentence::One("", Insert::Name(path), " is no file of --save");
    }
    Sentence::Two(
        "",
        Insert::Name(path),
        " is damaged behind its first ",
        Insert::Number(at),
        " elements; take another copy, or ask and save again",
    )
}

fn malformed_sentence(kind: Kind, at: u64) -> Sentence<'static>
    ensures { sentence_text result ≡ malformed_words kind at }
{
    Sentence::Two(
        "the ",
        Insert::Words(kind.name()),
        " is not as Z39.50 has it behind its first ",
        Insert::Number(at),
        " elements",
    )
}

fn sentence_of<'a>(mistake: &Mistake<'a>) -> Sentence<'a>
    ensures { sentence_text result ≡ mistake_words mistake.now }
{
    match mistake {
        Mistake::Query { text, kind, at } => query_sentence(*text, *kind, *at),
        Mistake::Records(text) => records_sentence(*text),
        Mistake::Syntax(text) => syntax_sentence(*text),
        Mistake::EmptyTerm => Sentence::Plain("a term has no text; write some behind its option"),
        Mistake::ManyTerms => Sentence::Plain("there are more than 32 terms; give fewer"),
        Mistake::NotSaved { path, at } => saved_sentence(*path, *at as u64),
        Mistake::NotCanonical { path, at } => Sentence::Two(
            "",
            Insert::Name(*path),
            " is not as --save wrote it: its element ",
            Insert::Number(*at as u64),
            " is written in another way, or in another place",
        ),
        Mistake::NamesDiffer => Sentence::Plain(
            "the files are about different catalogues; join files that --save wrote for the same FILE",
        ),
        Mistake::Read(path) => read_sentence(*path),
        Mistake::Write(path) => write_sentence(*path),
        Mistake::Hex => Sentence::Plain("write hexadecimal digits alone, two for each octet"),
        Mistake::Frame { kind, at } => frame_sentence(*kind, *at as u64),
        Mistake::NotApdu => Sentence::Plain(
            "the message is no request and no response of Init, Search or Present, and no Close",
        ),
        Mistake::Malformed { kind, at } => malformed_sentence(*kind, *at as u64),
        Mistake::NotPrintable => {
            Sentence::Plain(
                "the query has parts that the prefix notation cannot write, as proximity",
            )
        }
        Mistake::NoQuestion(name) => Sentence::One(
            "no line asks ",
            Insert::Text(*name),
            "; --only takes a name that stands behind ask",
        ),
        Mistake::NoCatalogue(name) => Sentence::One(
            "no file has the catalogue ",
            Insert::Text(*name),
            "; zmeta join lists their names",
        ),
        Mistake::NotOid(text) => syntax_sentence(*text),
        Mistake::Serve => Sentence::Plain(
            "FILE has no such target, or the address is in use or not of this machine; write it as localhost:9999",
        ),
        Mistake::Memory => Sentence::Plain(
            "there is too little memory for all of this; ask for fewer records",
        ),
    }
}

/// Appends the words for a mistake: a sentence in printable ASCII, without a full stop.
///
/// Texts of the user are in quotes and cut behind 40 octets; names of files may stand without quotes. Returns
/// `AllocError` if no memory is found; `line` is then unchanged.
pub fn put_words(alloc: Global, mistake: &Mistake<'_>, line: &mut Vec<u8>) -> Result<(), AllocError>
    ensures ok { OnOk result (line.new.items ≡ line.old.items ++ mistake_words mistake.now) }
    ensures err { OnErr result (line.new.items ≡ line.old.items) }
{
    put_sentence(alloc, &sentence_of(mistake), line)
}
