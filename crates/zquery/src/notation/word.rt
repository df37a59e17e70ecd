// What each token is.
ghost use Rattle.std.specs.Prelude.{◌≡◌};
ghost use Rattle.zquery.specs.Notation.Words.{token_kind};

use crate::notation::token::Token;
use zquery_rpn::Operator;

/// The type of a term: `general`, `numeric` or `string`.
#[derive(Clone, Copy, PartialEq, Eq)]
pub(crate) enum TermKind {
    GeneralTerm,
    NumericTerm,
    TextTerm,
}

/// What a token is where a query is expected.
#[derive(Clone, Copy, PartialEq, Eq)]
pub(crate) enum TokenKind {
    AttrSet,
    Attribute,
    Op(Operator),
    NamedSet,
    TypeOfTerm,
    Unknown,
    Plain,
}

#[tactic(auto, unfolding(crate::specs::Notation::Words::token_kind))]
pub(crate) fn kind_of_token(token: &Token) -> TokenKind
    ensures { result ≡ token_kind token.now }
{
    let text = token.text.as_slice();
    if token.quoted {
        TokenKind::Plain
    } else if text == b"@attrset".as_slice() {
        TokenKind::AttrSet
    } else if text == b"@attr".as_slice() {
        TokenKind::Attribute
    } else if text == b"@and".as_slice() {
        TokenKind::Op(Operator::And)
    } else if text == b"@or".as_slice() {
        TokenKind::Op(Operator::Or)
    } else if text == b"@not".as_slice() {
        TokenKind::Op(Operator::Not)
    } else if text == b"@set".as_slice() {
        TokenKind::NamedSet
    } else if text == b"@term".as_slice() {
        TokenKind::TypeOfTerm
    } else if text.starts_with(b"@".as_slice()) {
        TokenKind::Unknown
    } else {
        TokenKind::Plain
    }
}
