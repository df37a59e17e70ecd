//! Tokens of a text by their places, as far as words show them.
ghost use Rattle.std.specs.Prelude.{◌≡◌};
ghost use Rattle.zmeta_explain.specs.Tokens.{token_front, token_at};

use crate::places::{before_quote, before_space, behind};

/// Returns the token at the front of a text: without its quotes, up to the first of them if it has quotes within.
pub(crate) fn token_front(text: &[u8]) -> &[u8]
    ensures { result.now ≡ token_front text.now }
{
    match text {
        [b'"', others @ ..] => before_quote(others),
        _ => before_space(text),
    }
}

/// Returns the token at a place of a text.
pub(crate) fn token_at(text: &[u8], at: usize) -> &[u8]
    ensures { result.now ≡ token_at at text.now }
{
    token_front(behind(text, at))
}
