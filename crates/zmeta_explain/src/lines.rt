//! What is wrong with a refused line of a world file, in words.
//!
//! The line is looked at by its octets alone: a quoted token is shown up to the next quote.
ghost use Rattle.std.specs.Prelude.{◌≡◌, ◌++◌, ◌-◌, OnOk, OnErr, IfOk};
ghost use Rattle.zmeta_explain.specs.Lines.{behind_token, next_token, is_end, defines, defined_in, lines_from, other_quotes, has_mark, is_comment, has_digit, lower_word, form_of, syntax_field_words, want_field_words, ask_words, host_words, keyword_words, keyed_words, text_words, line_at, numbered_words, line_words};
ghost use Rattle.zmeta_explain.specs.Sentences.{sentence_text};

use crate::places::{before_feed, behind, from_feed, from_quote, from_space, from_word};
use crate::ranges::{is_no_want, want_advice};
use crate::sentences::{Insert, Sentence, put_sentence};
use crate::syntaxes::{is_same, meant_syntax};
use crate::tokens::token_front;
use std::alloc::{AllocError, Global};

// ---- tokens

/// Returns the text behind the token at its front.
fn behind_token(text: &[u8]) -> &[u8]
    ensures { result.now ≡ behind_token text.now }
{
    match text {
        [b'"', others @ ..] => behind(from_quote(others), 1),
        _ => from_space(text),
    }
}

/// Returns the text from the second token on.
fn next_token(text: &[u8]) -> &[u8]
    ensures { result.now ≡ next_token text.now }
{
    from_word(behind_token(text))
}

// ---- the lines above

/// Tells whether a key word gives a name to a target or host.
fn is_end(word: &[u8]) -> bool
    ensures { result ≡ is_end word.now }
{
    word == b"host".as_slice() || word == b"target".as_slice()
}

/// Tells whether a line gives this name to a target or host.
fn defines(line: &[u8], name: &[u8]) -> bool
    ensures { result ≡ defines line.now name.now }
{
    let first = from_word(line);
    is_end(token_front(first)) && token_front(next_token(first)) == name
}

/// Tells whether one of so many lines at the front gives this name to a target or host.
#[tactic(auto, using(crate::proofs::LineSteps::next_defined, crate::proofs::LineSteps::found, crate::proofs::LineSteps::none_defined))]
fn is_defined(world: &[u8], count: u64, name: &[u8]) -> bool
    ensures { result ≡ defined_in count world.now name.now }
{
    let mut rest = world;
    let mut left = count;
    while !rest.is_empty() {
        if left == 0 {
            return false;
        }
        if defines(before_feed(rest), name) {
            return true;
        }
        rest = behind(from_feed(rest), 1);
        left -= 1;
    }
    false
}

/// Returns what stands behind so many lines.
#[tactic(auto, using(crate::proofs::LineSteps::next_lines, crate::proofs::LineSteps::no_lines))]
fn lines_from(world: &[u8], count: u64) -> &[u8]
    ensures { result.now ≡ lines_from count world.now }
{
    let mut rest = world;
    let mut left = count;
    while !rest.is_empty() {
        if left == 0 {
            return rest;
        }
        rest = behind(from_feed(rest), 1);
        left -= 1;
    }
    &[]
}

// ---- what one token shows

/// Tells whether a text begins with a quote of another kind: a single one, or a curly one in UTF-8.
fn has_other_quotes(text: &[u8]) -> bool
    ensures { result ≡ other_quotes text.now }
{
    match text {
        [] => false,
        [first] => *first == b'\'',
        [first, second, ..] => *first == b'\'' || (*first == 0xE2 && *second == 0x80),
    }
}

/// Tells whether a line begins with a byte order mark.
fn has_mark(line: &[u8]) -> bool
    ensures { result ≡ has_mark line.now }
{
    match line {
        [first, second, third, ..] => *first == 0xEF && *second == 0xBB && *third == 0xBF,
        _ => false,
    }
}

fn is_comment(word: &[u8]) -> bool
    ensures { result ≡ is_comment word.now }
{
    match word {
        [first, ..] => *first == b'#',
        [] => false,
    }
}

fn has_digit(text: &[u8]) -> bool
    ensures { result ≡ has_digit text.now }
{
    match text {
        [first, ..] => first.is_ascii_digit() || *first == b'-',
        [] => false,
    }
}

// ---- key words

/// Returns the form of a line with this key word.
fn form_of(word: &[u8]) -> &'static str
    ensures { result.now ≡ form_of word.now }
{
    if word == b"step".as_slice() {
        "step N, of 1 to 1000"
    } else if word == b"window".as_slice() {
        "window N, of 1 to 64"
    } else if word == b"target".as_slice() {
        "target NAME SIZE FLAGS, with a name of its own; FLAGS are c, n and r, or -"
    } else if word == b"db".as_slice() {
        "db NAME, below a target, with a name of its own"
    } else if word == b"rec".as_slice() {
        "rec OID OCTETS, below a db"
    } else if word == b"field".as_slice() {
        "field USE TEXT, below a rec"
    } else if word == b"to".as_slice() {
        "to NAME K, below the ask of this target"
    } else if word == b"rel".as_slice() {
        "rel NAME K, below the ask of this target"
    } else if word == b"from".as_slice() {
        "from NAME K, below the ask of this target"
    } else {
        ""
    }
}

/// Returns the key word that a word is in another case.
fn lower_word(word: &[u8]) -> &'static str
    ensures { result.now ≡ lower_word word.now }
{
    if is_same(word, b"ask") {
        "ask"
    } else if is_same(word, b"host") {
        "host"
    } else if is_same(word, b"target") {
        "target"
    } else if is_same(word, b"step") {
        "step"
    } else if is_same(word, b"window") {
        "window"
    } else {
        ""
    }
}

/// Returns the words for a line whose first word is neither `ask` nor `host`.
fn keyword_sentence(word: &[u8]) -> Sentence<'_>
    ensures { sentence_text result ≡ keyword_words word.now }
{
    let form = form_of(word);
    if !form.is_empty() {
        return Sentence::One(
            "is not as it has to be; write ",
            Insert::Words(form),
            " there",
        );
    }
    let lower = lower_word(word);
    if !lower.is_empty() {
        return Sentence::Two(
            "begins with ",
            Insert::Text(word),
            "; write ",
            Insert::Words(lower),
            " in lower case",
        );
    }
    Sentence::One(
        "begins with ",
        Insert::Text(word),
        "; lines begin with host, ask, step, window, target, db, rec, field, to, rel or from",
    )
}

// ---- lines that ask

/// Returns the words for the line of a question whose SYNTAX is no object identifier.
fn syntax_field_sentence(syntax: &[u8]) -> Sentence<'_>
    ensures { sentence_text result ≡ syntax_field_words syntax.now }
{
    match meant_syntax(syntax) {
        Some(meant) => Sentence::Two(
            "has the syntax ",
            Insert::Text(syntax),
            "; write ",
            Insert::Words(meant.dotted()),
            " in its place",
        ),
        None => Sentence::One(
            "has the syntax ",
            Insert::Text(syntax),
            "; write a dotted OID, or - for none",
        ),
    }
}

fn want_field_sentence(want: &[u8]) -> Sentence<'_>
    ensures { sentence_text result ≡ want_field_words want.now }
{
    Sentence::Two(
        "wants the records ",
        Insert::Text(want),
        "; ",
        Insert::Words(want_advice(want)),
        ", as 20 or 1-3,10-12",
    )
}

/// Returns the words for the line of a question, from its NAME on.
fn ask_sentence(fields: &[u8], is_known: bool) -> Sentence<'_>
    ensures { sentence_text result ≡ ask_words fields.now is_known }
{
    let name = token_front(fields);
    let third = next_token(next_token(fields));
    let fourth = next_token(third);
    let query = next_token(fourth);
    if query.is_empty() {
        return Sentence::Plain("has too few fields; write ask NAME DB SYNTAX WANT QUERY");
    }
    if has_other_quotes(query) || has_other_quotes(fields) {
        return Sentence::Plain("has quotes of another kind; write \" on both sides of the words");
    }
    if !is_known {
        return Sentence::One(
            "asks ",
            Insert::Text(name),
            ", and no line above is its host or target",
        );
    }
    if !has_digit(third) {
        return syntax_field_sentence(token_front(third));
    }
    if is_no_want(token_front(fourth)) {
        return want_field_sentence(token_front(fourth));
    }
    if !next_token(query).is_empty() {
        return Sentence::Plain("has too many fields; put the query in quotes");
    }
    Sentence::One(
        "is wrong in its ranges or its query, or asks ",
        Insert::Text(name),
        " again; zmeta pqf tries a query",
    )
}

/// Returns the words for the line of a host, from its NAME on.
fn host_sentence(fields: &[u8], is_known: bool) -> Sentence<'_>
    ensures { sentence_text result ≡ host_words fields.now is_known }
{
    let name = token_front(fields);
    let address = next_token(fields);
    if address.is_empty() {
        return Sentence::Plain("has too few fields; write host NAME ADDRESS");
    }
    if !next_token(address).is_empty() {
        return Sentence::Plain("has too many fields; put a name of several words in quotes");
    }
    if is_known {
        return Sentence::One(
            "gives the name ",
            Insert::Text(name),
            " again; each host and target has another",
        );
    }
    Sentence::One(
        "has the address ",
        Insert::Text(token_front(address)),
        "; write it as z3950.example.org:210",
    )
}

// ---- all lines

/// Returns the words for a line with this first word, from its second token on.
#[tactic(auto, unfolding(crate::specs::Lines::keyed_words))]
fn keyed_sentence<'a>(word: &'a [u8], fields: &'a [u8], is_known: bool) -> Sentence<'a>
    ensures { sentence_text result ≡ keyed_words word.now fields.now is_known }
{
    if word == b"ask".as_slice() {
        return ask_sentence(fields, is_known);
    }
    if word == b"host".as_slice() {
        return host_sentence(fields, is_known);
    }
    keyword_sentence(word)
}

/// Returns the words for a line, from its first token on, by whether its second token is a name that a line above
/// gives.
#[tactic(auto, unfolding(crate::specs::Lines::text_words))]
fn text_sentence(first: &[u8], is_known: bool) -> Sentence<'_>
    ensures { sentence_text result ≡ text_words first.now is_known }
{
    if has_mark(first) {
        return Sentence::Plain("begins with a byte order mark; save the file as UTF-8 without one");
    }
    let word = token_front(first);
    if is_comment(word) {
        return Sentence::Plain("is a comment, which these files cannot have");
    }
    keyed_sentence(word, next_token(first), is_known)
}

/// Returns the line of this number, from its first token on.
fn line_at(world: &[u8], number: u64) -> &[u8]
    ensures { result.now ≡ line_at world.now number }
{
    from_word(before_feed(lines_from(world, number.saturating_sub(1))))
}

/// Returns whether one of the lines above the line of this number gives this name.
fn is_known(world: &[u8], number: u64, name: &[u8]) -> bool
    ensures { result ≡ defined_in (number - 1) world.now name.now }
{
    is_defined(world, number.saturating_sub(1), name)
}

/// Appends a sentence with the number of its line in front.
fn put_numbered(
    alloc: Global,
    number: u64,
    sentence: &Sentence<'_>,
    line: &mut Vec<u8>,
) -> Result<(), AllocError>
    ensures { OnOk result (line.new.items
        ≡ line.old.items ++ numbered_words number (sentence_text sentence.now)) }
{
    let front = Sentence::One("line ", Insert::Number(number), " ");
    put_sentence(alloc, &front, line)?;
    put_sentence(alloc, sentence, line)
}

/// Returns the words for a line of a world file, from 1, with its number in front.
fn line_text(alloc: Global, world: &[u8], number: u64) -> Result<Vec<u8>, AllocError>
    ensures { IfOk result (λ text. text.items ≡ line_words world.now number) }
{
    let first = line_at(world, number);
    let known = is_known(world, number, token_front(next_token(first)));
    let mut text = Vec::new(alloc);
    put_numbered(alloc, number, &text_sentence(first, known), &mut text)?;
    Ok(text)
}

/// Appends the words for a refused line of a world file, numbered from 1: a sentence in printable ASCII, without a full
/// stop, that begins as `line 3`.
///
/// Requires a line that `read_world` refused; for another line the words are of no use. Returns `AllocError` if no
/// memory is found; `line` is then unchanged.
pub fn put_line_words(
    alloc: Global,
    world: &[u8],
    number: u64,
    line: &mut Vec<u8>,
) -> Result<(), AllocError>
    ensures ok { OnOk result (line.new.items ≡ line.old.items ++ line_words world.now number) }
    ensures err { OnErr result (line.new.items ≡ line.old.items) }
{
    let text = line_text(alloc, world, number)?;
    line.extend_from_slice(text.as_slice())
}
