//! MARC-8, as far as ASCII and ANSEL go.
ghost use Rattle.std.specs.Prelude.{◌≡◌, ◌++◌, OnOk, IfOk};
ghost use Rattle.zmarc.specs.Marc8.{ascii, ansel, meaning, next_mode, next_marks, written, marc8};

use crate::shown::REPLACEMENT;
use std::alloc::{AllocError, Global};

/// ANSEL (ANSI/NISO Z39.47), as the Library of Congress maps it to Unicode for MARC 21: the character of each octet
/// from A0 on (`ansel_character`). Those from E0 on are marks that are combined with the letter behind them. EB and FA
/// are the marks of Unicode that span two letters; so EC and FB, the second halves of these, are U+FFFD here, and left
/// out. Where an octet means nothing it is U+FFFD as well.
const ANSEL: [char; 96] = [
    '\u{fffd}', '\u{0141}', '\u{00d8}', '\u{0110}', '\u{00de}', '\u{00c6}', '\u{0152}', '\u{02b9}', // A0
    '\u{00b7}', '\u{266d}', '\u{00ae}', '\u{00b1}', '\u{01a0}', '\u{01af}', '\u{02bc}', '\u{fffd}', // A8
    '\u{02bb}', '\u{0142}', '\u{00f8}', '\u{0111}', '\u{00fe}', '\u{00e6}', '\u{0153}', '\u{02ba}', // B0
    '\u{0131}', '\u{00a3}', '\u{00f0}', '\u{fffd}', '\u{01a1}', '\u{01b0}', '\u{fffd}', '\u{fffd}', // B8
    '\u{00b0}', '\u{2113}', '\u{2117}', '\u{00a9}', '\u{266f}', '\u{00bf}', '\u{00a1}', '\u{00df}', // C0
    '\u{20ac}', '\u{fffd}', '\u{fffd}', '\u{fffd}', '\u{fffd}', '\u{fffd}', '\u{fffd}', '\u{fffd}', // C8
    '\u{fffd}', '\u{fffd}', '\u{fffd}', '\u{fffd}', '\u{fffd}', '\u{fffd}', '\u{fffd}', '\u{fffd}', // D0
    '\u{fffd}', '\u{fffd}', '\u{fffd}', '\u{fffd}', '\u{fffd}', '\u{fffd}', '\u{fffd}', '\u{fffd}', // D8
    '\u{0309}', '\u{0300}', '\u{0301}', '\u{0302}', '\u{0303}', '\u{0304}', '\u{0306}', '\u{0307}', // E0
    '\u{0308}', '\u{030c}', '\u{030a}', '\u{0361}', '\u{fffd}', '\u{0315}', '\u{030b}', '\u{0310}', // E8
    '\u{0327}', '\u{0328}', '\u{0323}', '\u{0324}', '\u{0325}', '\u{0333}', '\u{0332}', '\u{0326}', // F0
    '\u{031c}', '\u{032e}', '\u{0360}', '\u{fffd}', '\u{fffd}', '\u{fffd}', '\u{0313}', '\u{fffd}', // F8
];

/// The character of an octet of ASCII, or a mark for sorting; U+FFFD where it is none of these.
pub(crate) fn map_ascii(octet: u8) -> char
    ensures { result ≡ ascii octet }
{
    match octet {
        0..=0x7F => char::from(octet),
        0x88 => '\u{98}',
        0x89 => '\u{9c}',
        _ => REPLACEMENT,
    }
}

/// The character of an octet of ASCII or ANSEL, or a mark for sorting; U+FFFD where it is none of these.
fn map_ansel(octet: u8) -> char
    ensures { result ≡ ansel octet }
{
    if octet < 0xA0 {
        map_ascii(octet)
    } else {
        ANSEL[usize::from(octet - 0xA0)]
    }
}

/// Where octets of MARC-8 stand among escape sequences.
#[derive(Clone, Copy, PartialEq, Eq)]
enum Mode {
    /// In ASCII and ANSEL.
    Plain,
    /// Behind ESC.
    Escape,
    /// Behind ESC and an opening parenthesis.
    Bracket,
    /// In another set.
    Foreign,
}

/// What an octet of MARC-8 means.
#[derive(Clone, Copy, PartialEq, Eq)]
enum Step {
    /// No character, and what follows stands so.
    Nothing(Mode),
    /// A mark that waits for its letter.
    Mark(char),
    /// A letter, and what follows stands so.
    Letter(char, Mode),
}

/// What an octet means.
fn interpret(mode: Mode, octet: u8) -> Step
    ensures { result ≡ meaning mode octet }
{
    match (mode, octet) {
        (Mode::Plain | Mode::Foreign, 0x1B) => Step::Nothing(Mode::Escape),
        (Mode::Plain, 0xEC | 0xFB) => Step::Nothing(Mode::Plain),
        (Mode::Plain, _) => {
            let c = map_ansel(octet);
            if octet >= 0xE0 && c != REPLACEMENT {
                Step::Mark(c)
            } else {
                Step::Letter(c, Mode::Plain)
            }
        }
        (Mode::Escape, b's') | (Mode::Bracket, b'B') => Step::Nothing(Mode::Plain),
        (Mode::Escape, b'(') => Step::Nothing(Mode::Bracket),
        (Mode::Escape | Mode::Bracket, _) => Step::Letter(REPLACEMENT, Mode::Foreign),
        (Mode::Foreign, _) => Step::Nothing(Mode::Foreign),
    }
}

/// Takes the letter that an octet means, if it means one, and the marks that waited for it.
fn read_octet(
    mode: Mode,
    octet: u8,
    marks: &mut Vec<char>,
    read: &mut Vec<char>,
) -> Result<Mode, AllocError>
    ensures mode { IfOk result (λ next. next ≡ next_mode (meaning mode octet)) }
    ensures marks { OnOk result (marks.new.items ≡ next_marks (meaning mode octet) marks.old.items) }
    ensures read { OnOk result (read.new.items ≡ read.old.items ++ written (meaning mode octet) marks.old.items) }
{
    match interpret(mode, octet) {
        Step::Nothing(next) => Ok(next),
        Step::Mark(mark) => {
            marks.push(mark)?;
            Ok(Mode::Plain)
        }
        Step::Letter(letter, next) => {
            read.push(letter)?;
            read.extend_from_slice(marks)?;
            marks.clear();
            Ok(next)
        }
    }
}

/// Reads the characters of octets of MARC-8.
#[tactic(auto, unfolding(crate::specs::Marc8::marc8))]
pub(crate) fn read_marc8(alloc: Global, octets: &[u8]) -> Result<Vec<char>, AllocError>
    ensures { IfOk result (λ read. read.items ≡ marc8 octets.now) }
{
    let mut mode = Mode::Plain;
    let mut marks = Vec::new(alloc);
    let mut read = Vec::new(alloc);
    for octet in octets {
        mode = read_octet(mode, *octet, &mut marks, &mut read)?;
    }
    if !marks.is_empty() {
        read.push(REPLACEMENT)?;
        read.extend_from_slice(&marks)?;
    }
    Ok(read)
}
