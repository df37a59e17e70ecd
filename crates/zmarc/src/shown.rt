//! What is shown of characters: text that is safe for a terminal.
ghost use Rattle.std.specs.Prelude.{◌≡◌, ℕ, ◌∷◌, ◌++◌, [], take, OnOk, OnErr, string_bytes};
ghost use Rattle.zmarc.specs.Shown.{is_sort_mark, shown, shown_text};

use std::alloc::AllocError;

/// What stands for octets that mean no character, and for characters that are not shown.
pub(crate) const REPLACEMENT: char = '\u{fffd}';

/// What is shown of a character.
fn show(c: char) -> char
    ensures { result ≡ shown c }
{
    match c {
        '\t' | '\n' | '\r' => ' ',
        '\0'..='\u{1f}' | '\u{7f}'..='\u{9f}' | '\u{2028}'..='\u{202e}' | '\u{2066}'..='\u{2069}' =>
            REPLACEMENT,
        '\u{61c}' | '\u{200b}' | '\u{200e}' | '\u{200f}' | '\u{feff}' => REPLACEMENT,
        _ => c,
    }
}

/// Whether a character is a mark round what is left out in sorting.
fn is_sort_mark(c: char) -> bool
    ensures { result ≡ is_sort_mark c }
{
    c == '\u{98}' || c == '\u{9c}'
}

/// Appends what is shown of a character.
#[tactic(auto, using(crate::proofs::ShownTheory::shown_text_one))]
fn put_char(c: char, line: &mut String) -> Result<(), AllocError>
    ensures ok { OnOk result (string_bytes line.new ≡ string_bytes line.old ++ shown_text (c ∷ [])) }
    ensures err { OnErr result (string_bytes line.new ≡ string_bytes line.old) }
{
    if is_sort_mark(c) {
        return Ok(());
    }
    line.push(show(c))?;
    Ok(())
}

/// Appends what is shown of characters; where no memory is found, what is shown of so many of them.
fn append_chars(cs: &[char], line: &mut String) -> Result<(), AllocError>
    ensures ok { OnOk result (string_bytes line.new ≡ string_bytes line.old ++ shown_text cs.now) }
    ensures err { OnErr result ((n : ℕ) × (string_bytes line.new
        ≡ string_bytes line.old ++ shown_text (take n cs.now))) }
{
    for c in cs {
        put_char(*c, line)?;
    }
    Ok(())
}

/// Appends what is shown of characters. Where no memory is found, the line is as it was.
pub(crate) fn put_chars(cs: &[char], line: &mut String) -> Result<(), AllocError>
    ensures ok { OnOk result (string_bytes line.new ≡ string_bytes line.old ++ shown_text cs.now) }
    ensures err { OnErr result (string_bytes line.new ≡ string_bytes line.old) }
{
    let len = line.len();
    match append_chars(cs, line) {
        Ok(()) => Ok(()),
        Err(error) => {
            line.truncate(len);
            Err(error)
        }
    }
}
