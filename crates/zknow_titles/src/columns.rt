//! Texts in the columns of a terminal.
ghost use Rattle.std.specs.Prelude.{◌≡◌, ◌++◌, OnOk, IfOk, string_bytes};
ghost use Rattle.std.specs.Str.{encode_utf8_all};
ghost use Rattle.zknow_titles.specs.Columns.{width, char_columns, fitting, cut, widest_cut, clipped, spaces, padded};

use crate::characters::read_chars;
use std::alloc::{AllocError, Global};
use unicode_width::{UnicodeWidthChar, UnicodeWidthStr};

/// Returns the columns that a text takes.
pub(crate) fn count_columns(text: &str) -> usize
    ensures { result ≡ width text.now }
{
    text.width()
}

/// Returns the columns of one character.
fn count_char_columns(c: char) -> usize
    ensures { result ≡ char_columns c }
{
    c.width().unwrap_or(0)
}

/// Appends the characters at the front that fit so many columns.
fn put_fitting(columns: usize, read: &[char], out: &mut String) -> Result<(), AllocError>
    ensures { OnOk result (string_bytes out.new
        ≡ string_bytes out.old ++ encode_utf8_all (fitting columns read.now)) }
{
    let mut room = columns;
    for c in read {
        let taken = count_char_columns(*c);
        if room < taken {
            return Ok(());
        }
        room -= taken;
        out.push(*c)?;
    }
    Ok(())
}

/// Returns the characters at the front that fit so many columns, and an ellipsis.
fn cut(alloc: Global, room: usize, read: &[char]) -> Result<String, AllocError>
    ensures { IfOk result (λ clip. string_bytes clip ≡ cut room read.now) }
{
    let mut clip = String::new(alloc);
    put_fitting(room, read, &mut clip)?;
    clip.push_str("…")?;
    Ok(clip)
}

/// Returns the first cut that fits so many columns, of those with so much room, with one column less, and so on.
fn widest_cut(alloc: Global, most: usize, room: usize, read: &[char]) -> Result<String, AllocError>
    ensures { IfOk result (λ clip. string_bytes clip ≡ widest_cut most room read.now) }
{
    let mut room = room;
    while room > 0 {
        let clip = cut(alloc, room, read)?;
        if count_columns(clip.as_str()) <= most {
            return Ok(clip);
        }
        room -= 1;
    }
    String::from_str(alloc, "…")
}

/// Returns the text, or its front and an ellipsis where it is wider than so many columns.
#[tactic(auto, unfolding(crate::specs::Columns::clipped))]
pub(crate) fn clip(alloc: Global, most: usize, text: &str) -> Result<String, AllocError>
    ensures { IfOk result (λ clip. string_bytes clip ≡ clipped most text.now) }
{
    if count_columns(text) <= most {
        return String::from_str(alloc, text);
    }
    let read = read_chars(alloc, text)?;
    widest_cut(alloc, most, most.saturating_sub(1), &read)
}

/// Appends so many spaces.
pub(crate) fn put_spaces(count: usize, out: &mut Vec<u8>) -> Result<(), AllocError>
    ensures { OnOk result (out.new.items ≡ out.old.items ++ spaces count) }
{
    for _ in 0..count {
        out.push(b' ')?;
    }
    Ok(())
}

/// Appends the text, filled up with spaces to so many columns.
pub(crate) fn put_padded(columns: usize, text: &str, out: &mut Vec<u8>) -> Result<(), AllocError>
    ensures { OnOk result (out.new.items ≡ out.old.items ++ padded columns text.now) }
{
    out.extend_from_slice(text.as_bytes())?;
    put_spaces(columns.saturating_sub(count_columns(text)), out)
}
