//! Texts: what is shown of octets, with the marks of markup as character references.
ghost use Rattle.std.specs.Prelude.{◌≡◌, ◌++◌, OnOk, unwrap_or, string_bytes};
ghost use Rattle.std.specs.Char.{encode_utf8};
ghost use Rattle.std.specs.Option.{option_copied};
ghost use Rattle.zhtml.specs.Texts.{shown, reference_to, text};

use std::alloc::{AllocError, Global};

/// What stands for octets that mean no character, and for characters that are not shown.
const REPLACEMENT: char = '\u{fffd}';

/// What is shown of a character.
fn show(c: char) -> char
    ensures { result ≡ shown c }
{
    match c {
        '\t' | '\n' | '\r' => ' ',
        '\0'..='\u{1f}' | '\u{7f}'..='\u{9f}' | '\u{2028}'..='\u{202e}' | '\u{2066}'..='\u{2069}' =>
            REPLACEMENT,
        '\u{61c}' | '\u{200b}' | '\u{200e}' | '\u{200f}' | '\u{feff}' => REPLACEMENT,
        _ => c,
    }
}

/// Returns the character reference that stands for a mark of markup.
fn reference(c: char) -> Option<&'static str>
    ensures { option_copied result ≡ reference_to c }
{
    match c {
        '&' => Some("&amp;"),
        '<' => Some("&lt;"),
        '>' => Some("&gt;"),
        '"' => Some("&quot;"),
        '\'' => Some("&#39;"),
        _ => None,
    }
}

/// Appends a character as it stands in a text.
fn put_escaped(c: char, out: &mut String) -> Result<(), AllocError>
    ensures { OnOk result (string_bytes out.new
        ≡ string_bytes out.old ++ unwrap_or (reference_to c) (encode_utf8 c)) }
{
    match reference(c) {
        Some(text) => out.push_str(text),
        None => out.push(c),
    }
}

/// Appends octets as a text, or as a value between quotation marks: of their characters in UTF-8 what is shown, with
/// `&`, `<`, `>`, `"` and `'` as character references. A tab, a line feed and a carriage return are shown as a space.
/// U+FFFD stands for octets that are not UTF-8, for other control characters, for separators of lines and paragraphs,
/// and for characters that turn the direction of text or that nobody sees (`is_visible`).
///
/// Returns `AllocError` if no memory is found; then a part may be appended.
pub fn put_text(alloc: Global, octets: &[u8], out: &mut String) -> Result<(), AllocError>
    ensures { OnOk result (string_bytes out.new ≡ string_bytes out.old ++ text octets.now) }
{
    let read = String::from_utf8_lossy(alloc, octets)?;
    for c in read.as_str().chars() {
        put_escaped(show(c), out)?;
    }
    Ok(())
}
