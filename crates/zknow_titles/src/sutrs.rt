//! Records of SUTRS (Z39.50-2003, Appendix REC): text, shown as one line.
ghost use Rattle.std.specs.Prelude.{◌≡◌, ◌++◌, ◌==◌, ◌&&◌, false, not, length, OnOk, IfOk, string_bytes};
ghost use Rattle.zknow_titles.specs.Sutrs.{behind_gap, squeezed, shortened, text_charset, sutrs_line};

use crate::characters::{put_chars, read_chars};
use std::alloc::{AllocError, Global};
use zmarc::{Charset, put_text};

/// The most characters that are shown.
const MOST_CHARACTERS: usize = 200;

/// Appends a character, and before it one space if there is a gap behind other characters.
fn put_behind_gap(gap: bool, c: char, found: &mut Vec<char>) -> Result<(), AllocError>
    ensures { OnOk result (found.new.items
        ≡ found.old.items ++ behind_gap (not (length found.old.items == 0) && gap) c) }
{
    if gap && !found.is_empty() {
        found.push(' ')?;
    }
    found.push(c)?;
    Ok(())
}

/// Returns the characters without spaces at the ends, and with one space for several side by side.
fn squeeze(alloc: Global, read: &[char]) -> Result<Vec<char>, AllocError>
    ensures { IfOk result (λ found. found.items ≡ squeezed false false read.now) }
{
    let mut found = Vec::new(alloc);
    let mut gap = false;
    for c in read {
        if *c == ' ' {
            gap = true;
        } else {
            put_behind_gap(gap, *c, &mut found)?;
            gap = false;
        }
    }
    Ok(found)
}

/// Appends the characters, or so many at the front and an ellipsis.
fn put_shortened(most: usize, found: &[char], line: &mut String) -> Result<(), AllocError>
    ensures { OnOk result (string_bytes line.new ≡ string_bytes line.old ++ shortened most found.now) }
{
    if found.len() <= most {
        return put_chars(found, line);
    }
    put_chars(&found[..most], line)?;
    line.push_str("…")
}

/// Returns the character set that a text is read in: the one that is known of the target's records, else UTF-8.
pub(crate) fn text_charset(charset: Option<Charset>) -> Charset
    ensures { result ≡ text_charset charset }
{
    match charset {
        Some(known) => known,
        None => Charset::Utf8,
    }
}

/// Appends the line that is shown of a record.
#[tactic(auto, unfolding(crate::specs::Sutrs::sutrs_line))]
pub(crate) fn put_sutrs(
    alloc: Global,
    charset: Option<Charset>,
    octets: &[u8],
    line: &mut String,
) -> Result<(), AllocError>
    ensures { OnOk result (string_bytes line.new ≡ string_bytes line.old ++ sutrs_line charset octets.now) }
{
    let mut text = String::new(alloc);
    put_text(alloc, text_charset(charset), octets, &mut text)?;
    let read = read_chars(alloc, text.as_str())?;
    let found = squeeze(alloc, &read)?;
    put_shortened(MOST_CHARACTERS, &found, line)
}
