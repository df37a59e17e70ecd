// Tokens.
use bytes::Bytes;

/// A token of a text.
#[derive(Drop)]
pub struct Token {
    /// Where it begins: how many octets of the text are before it.
    pub at: usize,
    /// Whether it was written in quotes.
    pub quoted: bool,
    /// Its octets, without quotes and without the backslashes that escape.
    pub text: Bytes,
}
