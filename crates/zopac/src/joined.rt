//! Texts behind one another, with separators between them.
ghost use Rattle.std.specs.Prelude.{◌≡◌, OnOk, IfOk, string_bytes};
ghost use Rattle.zopac.specs.Joined.{joined_to, labelled, shown};

use bytes::Bytes;
use std::alloc::{AllocError, Global};
use zmarc::{Charset, put_text};

/// Appends a text, behind the separator if the line has anything; nothing if the text is empty.
#[tactic(auto, unfolding(crate::specs::Joined::joined_to))]
pub(crate) fn join(line: &mut String, separator: &str, text: &str) -> Result<(), AllocError>
    ensures { OnOk result (string_bytes line.new ≡ joined_to separator.now (string_bytes line.old) text.now) }
{
    if text.is_empty() {
        return Ok(());
    }
    if !line.is_empty() {
        line.push_str(separator)?;
    }
    line.push_str(text)
}

/// Returns a text as it is shown, empty where there is none.
pub(crate) fn show(alloc: Global, text: &Option<Bytes>) -> Result<String, AllocError>
    ensures { IfOk result (λ line. string_bytes line ≡ shown text.now) }
{
    let mut line = String::new(alloc);
    match text {
        None => Ok(line),
        Some(octets) => {
            put_text(alloc, Charset::Utf8, octets.as_slice(), &mut line)?;
            Ok(line)
        }
    }
}

/// Appends a text as it is shown, behind the separator if the line has anything.
pub(crate) fn join_shown(
    alloc: Global,
    line: &mut String,
    separator: &str,
    text: &Option<Bytes>,
) -> Result<(), AllocError>
    ensures { OnOk result (string_bytes line.new
        ≡ joined_to separator.now (string_bytes line.old) (shown text.now)) }
{
    let piece = show(alloc, text)?;
    join(line, separator, piece.as_str())
}

/// Returns a word and a text as it is shown behind it, nothing if that is empty.
pub(crate) fn label(alloc: Global, word: &str, text: &Option<Bytes>) -> Result<String, AllocError>
    ensures { IfOk result (λ line. string_bytes line ≡ labelled word.now (shown text.now)) }
{
    let piece = show(alloc, text)?;
    if piece.is_empty() {
        return Ok(piece);
    }
    let mut line = String::from_str(alloc, word)?;
    line.push_str(piece.as_str())?;
    Ok(line)
}
