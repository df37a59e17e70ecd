//! Where a line of the dialogue stands, and lines of words.
ghost use Rattle.std.specs.Prelude.{◌≡◌, ◌++◌, OnOk};
ghost use Rattle.std.specs.Option.{option_map};
ghost use Rattle.zmeta_trace.specs.Dialogue.{zeros_before, time_text, place_text, count_text, told_by, words_text, words_text_if};

use std::alloc::{AllocError, Global};
use zapdu::quote;

/// The nanoseconds of a millisecond.
const MILLISECOND: u64 = 1_000_000;

/// Where a line stands: the time, in nanoseconds, the name of the catalogue, and the mark of the way, if there is one.
#[derive(Clone, Copy)]
pub(crate) struct Place<'a> {
    pub at: u64,
    pub name: &'a [u8],
    pub mark: &'static str,
}

/// What is told in words: the words, and the number that belongs to them, if it has one.
#[derive(Clone, Copy)]
pub(crate) struct Words {
    pub text: &'static str,
    pub number: Option<usize>,
}

/// What stands before a number below 1000, so that it has three digits.
fn zeros_before(number: u64) -> &'static str
    ensures { result.now ≡ zeros_before number }
{
    if number < 10 {
        "00"
    } else if number < 100 {
        "0"
    } else {
        ""
    }
}

/// Appends a time in seconds, with three digits behind the point.
#[tactic(auto, unfolding(crate::specs::Dialogue::time_text))]
fn put_time(alloc: Global, at: u64, out: &mut Vec<u8>) -> Result<(), AllocError>
    ensures { OnOk result (out.new.items ≡ out.old.items ++ time_text at) }
{
    let milliseconds = at / MILLISECOND;
    let seconds = (milliseconds / 1_000).to_string(alloc)?;
    let rest = milliseconds % 1_000;
    let digits = rest.to_string(alloc)?;
    out.extend_from_slice(seconds.as_bytes())?;
    out.extend_from_slice(b".")?;
    out.extend_from_slice(zeros_before(rest).as_bytes())?;
    out.extend_from_slice(digits.as_bytes())
}

/// Appends the front of a line: its time, the name of its catalogue, and its mark.
#[tactic(auto, unfolding(crate::specs::Dialogue::place_text))]
pub(crate) fn put_place(
    alloc: Global,
    place: &Place<'_>,
    out: &mut Vec<u8>,
) -> Result<(), AllocError>
    ensures { OnOk result (out.new.items
        ≡ out.old.items ++ place_text place.now.at place.now.name.now place.now.mark.now) }
{
    put_time(alloc, place.at, out)?;
    out.extend_from_slice(b" ")?;
    quote(alloc, place.name, out)?;
    out.extend_from_slice(place.mark.as_bytes())?;
    out.extend_from_slice(b" ")
}

/// Appends a space and a number, if there is one.
fn put_number(alloc: Global, number: Option<usize>, out: &mut Vec<u8>) -> Result<(), AllocError>
    ensures { OnOk result (out.new.items ≡ out.old.items ++ count_text number) }
{
    let Some(number) = number else {
        return Ok(());
    };
    out.extend_from_slice(b" ")?;
    let digits = number.to_string(alloc)?;
    out.extend_from_slice(digits.as_bytes())
}

/// Appends a line of words.
#[tactic(auto, unfolding(crate::specs::Dialogue::words_text))]
pub(crate) fn put_words(
    alloc: Global,
    place: &Place<'_>,
    words: Words,
    out: &mut Vec<u8>,
) -> Result<(), AllocError>
    ensures { OnOk result (out.new.items ≡ out.old.items
        ++ words_text (place_text place.now.at place.now.name.now place.now.mark.now) (told_by words)) }
{
    put_place(alloc, place, out)?;
    out.extend_from_slice(words.text.as_bytes())?;
    put_number(alloc, words.number, out)?;
    out.extend_from_slice(b"\n")
}

/// Appends a line of words, if there are any.
pub(crate) fn put_words_if(
    alloc: Global,
    place: &Place<'_>,
    words: Option<Words>,
    out: &mut Vec<u8>,
) -> Result<(), AllocError>
    ensures { OnOk result (out.new.items ≡ out.old.items
        ++ words_text_if (place_text place.now.at place.now.name.now place.now.mark.now) (option_map told_by words)) }
{
    match words {
        Some(words) => put_words(alloc, place, words, out),
        None => Ok(()),
    }
}
