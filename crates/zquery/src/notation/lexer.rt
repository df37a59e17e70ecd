// The tokens of a text.
ghost use Rattle.std.specs.Prelude.{◌≡◌, ◌∷◌, [], List, Option, Some, None, IfOk, IfErr, IfSome, IfNone, MatchOption, ◌⊎◌};
ghost use Rattle.zquery.specs.declared.notation.token.Token.{Token};
ghost use Rattle.zquery.specs.declared.notation.error.PqfErrorKind.TheVariants as kind;
ghost use Rattle.zquery.specs.Notation.Tokens.{is_white, IsUnclosed, AreTokens, IsOpenAt};
ghost use Rattle.zquery.specs.Notation.Lexing.{QuotedFront, UnquotedFront};
ghost use Rattle.zquery.specs.Notation.Faults.{memory};

use crate::notation::error::{PqfError, PqfErrorKind};
use crate::notation::token::Token;
use bytes::Bytes;
use std::alloc::{AllocError, Global};

#[tactic(auto, unfolding(crate::specs::Notation::Tokens::is_white))]
fn is_space(octet: u8) -> bool
    ensures { result ≡ is_white octet }
{
    octet == 32 || octet == 9 || octet == 10 || octet == 13
}

fn split_first(octets: &[u8]) -> Option<(u8, &[u8])>
    ensures some { IfSome result (λ x. octets.now ≡ x.0 ∷ x.1.now) }
    ensures none { IfNone result (octets.now ≡ []) }
{
    match octets {
        [] => None,
        [octet, after @ ..] => Some((*octet, after)),
    }
}

/// Parses a text in quotes, from behind its first quote. Returns the text and the octets behind the closing quote, or
/// `None` if no quote closes it. Returns `AllocError` if no memory is found.
fn quoted_text(alloc: Global, octets: &[u8]) -> Result<Option<(Vec<u8>, &[u8])>, AllocError>
    ensures { IfOk result (λ found. MatchOption found (IsUnclosed octets.now)
        (λ x. QuotedFront octets.now x.0.items x.1.now)) }
{
    let mut text = Vec::new(alloc);
    let mut left = octets;
    while let Some((octet, after)) = split_first(left) {
        if octet == b'"' {
            return Ok(Some((text, after)));
        }
        if octet == b'\\' {
            let Some((escaped, further)) = split_first(after) else {
                return Ok(None);
            };
            text.push(escaped)?;
            left = further;
        } else {
            text.push(octet)?;
            left = after;
        }
    }
    Ok(None)
}

/// Parses a token without quotes. Returns the octets before white space, and the others. Returns `AllocError` if no
/// memory is found.
fn word_text(alloc: Global, octets: &[u8]) -> Result<(Vec<u8>, &[u8]), AllocError>
    ensures { IfOk result (λ x. UnquotedFront octets.now x.0.items x.1.now) }
{
    let mut text = Vec::new(alloc);
    let mut left = octets;
    while let Some((octet, after)) = split_first(left) {
        if is_space(octet) {
            return Ok((text, left));
        }
        text.push(octet)?;
        left = after;
    }
    Ok((text, left))
}

fn token(at: usize, quoted: bool, text: Vec<u8>) -> Result<Token, PqfError>
    ensures ok { IfOk result (λ t. t ≡ record { at = at; quoted = quoted; text = text.items }) }
    ensures err { IfErr result (λ e. e ≡ memory) }
{
    let text = Bytes::from_vec(text)?;
    Ok(Token { at, quoted, text })
}

/// Returns the tokens of a text, from the left.
///
/// White space (the octets 32, 9, 10 and 13) separates tokens. A token that begins with a quote ends at the next quote;
/// within it, an octet behind a backslash is taken as it is. Any other token ends at white space.
///
/// Returns `OpenQuote`, at the quote, if no quote closes it, and `Memory` if no memory is found.
pub fn tokens(alloc: Global, text: &[u8]) -> Result<Vec<Token>, PqfError>
    ensures ok { IfOk result (λ v. AreTokens v.items text.now) }
    ensures err { IfErr result (λ e. (e ≡ memory)
        ⊎ ((e.kind ≡ kind.OpenQuote) × IsOpenAt e.at text.now)) }
{
    let mut out = Vec::new(alloc);
    let mut left = text;
    while let Some((octet, after)) = split_first(left) {
        let at = text.len() - left.len();
        if is_space(octet) {
            left = after;
        } else if octet == b'"' {
            let Some((content, rest)) = quoted_text(alloc, after)? else {
                return Err(PqfError {
                    at,
                    kind: PqfErrorKind::OpenQuote,
                });
            };
            out.push(token(at, true, content)?)?;
            left = rest;
        } else {
            let (word, rest) = word_text(alloc, left)?;
            out.push(token(at, false, word)?)?;
            left = rest;
        }
    }
    Ok(out)
}
