// Queries from tokens, by descent.
ghost use Rattle.std.specs.Prelude.{◌≡◌, ℕ, ◌≤◌, length, [], ◌∷◌, List, Bool, Option, Some, Err, IfOk, IfErr, OnOk, ◌⊎◌};
ghost use Rattle.zquery_rpn.specs.declared.query.Attr.{Attr};
ghost use Rattle.zquery_rpn.specs.declared.query.TermValue.{TermValue};
ghost use Rattle.zquery.specs.declared.notation.token.Token.{Token};
ghost use Rattle.zquery.specs.declared.notation.word.TokenKind.TheVariants.{Plain};
ghost use Rattle.zquery.specs.Notation.Values.{most, value_of};
ghost use Rattle.zquery.specs.InForce.{in_force};
ghost use Rattle.zquery_rpn.specs.Trees.{OfTerm, Of, height};
ghost use Rattle.zquery_rpn.specs.QueryTrees.{rpn_tree};
ghost use Rattle.zquery.specs.Notation.Grammar.{attr, set_tree, IsQuery};
ghost use Rattle.zquery.specs.Notation.Table.{Expected, Operand, expected_after, fault_left, below_limit, operand, error_at, tokens_fault};
ghost use Rattle.zquery.specs.Notation.Faults.{memory, missing, IsFaultResult};
ghost use Rattle.zquery.specs.Notation.Reading.{IsReadResult, numbers_at, attribute_at, term_kind_at, own_at, query_set_at, NoPrefix, ArePrefixes, IsReadPhrase};
ghost use Rattle.zquery.specs.Notation.Texts.{IsText, IsTextFault};

use crate::attribute::{put, set_unless_own};
use crate::notation::cursor::Cursor;
use crate::notation::error::{PqfError, PqfErrorKind};
use crate::notation::lexer::tokens;
use crate::notation::token::Token;
use crate::notation::value::{bib_1, has_equals, kind, numbers, set_named, value};
use crate::notation::word::{TermKind, TokenKind, kind_of_token};
use bytes::Bytes;
use std::alloc::{AllocError, Global};
use zber::{Oid, Seq};
use zquery_rpn::{Attr, AttrValue, Operator, Query, Rpn, copies};

/// The deepest level on which an operand or operator may stand. The level of the whole query is 1.
const DEEPEST: u32 = 32;

fn error_of(token: &Token, kind: PqfErrorKind) -> PqfError
    ensures { result ≡ error_at token.now kind }
{
    PqfError { at: token.at, kind }
}

fn missing_at(end: usize) -> PqfError
    ensures { result ≡ missing end }
{
    PqfError {
        at: end,
        kind: PqfErrorKind::MissingOperand,
    }
}

fn attribute(attr_set: Option<Oid>, kind: u64, value: u64) -> Attr
    requires kind { kind ≤ most }
    requires value { value ≤ most }
    ensures { result ≡ attr attr_set (kind, value) }
{
    Attr {
        attr_set,
        kind: kind as i64,
        value: AttrValue::Number(value as i64),
    }
}

/// Parses the type and value of an attribute of this set from the next token; `end` is the text's length.
fn attribute_in(
    cursor: &mut Cursor<'_>,
    end: usize,
    attr_set: Option<Oid>,
) -> Result<Attr, PqfError>
    ensures read { IsReadResult (numbers_at end attr_set cursor.old) result cursor.new }
    ensures shorter { length cursor.new ≤ length cursor.old }
{
    let Some(token) = cursor.next() else {
        return Err(missing_at(end));
    };
    match numbers(token.text.as_slice()) {
        Some((kind, value)) => Ok(attribute(attr_set, kind, value)),
        None => Err(error_of(token, PqfErrorKind::BadAttribute)),
    }
}

/// Parses the attribute behind `@attr`; `end` is the text's length.
fn next_attribute(
    alloc: Global,
    cursor: &mut Cursor<'_>,
    end: usize,
    own: &Oid,
) -> Result<Attr, PqfError>
    ensures read { IsReadResult (attribute_at end own.now cursor.old) result cursor.new }
    ensures shorter { length cursor.new ≤ length cursor.old }
{
    let Some(token) = cursor.first() else {
        return Err(missing_at(end));
    };
    if has_equals(token.text.as_slice()) {
        return attribute_in(cursor, end, None);
    }
    match set_named(alloc, token.text.as_slice())? {
        Some(set) => {
            cursor.skip();
            attribute_in(cursor, end, set_unless_own(own, set))
        }
        None => Err(error_of(token, PqfErrorKind::UnknownSet)),
    }
}

/// Parses the type of term behind `@term`; `end` is the text's length.
fn next_kind(cursor: &mut Cursor<'_>, end: usize) -> Result<TermKind, PqfError>
    ensures read { IsReadResult (term_kind_at end cursor.old) result cursor.new }
    ensures shorter { length cursor.new ≤ length cursor.old }
{
    let Some(token) = cursor.next() else {
        return Err(missing_at(end));
    };
    match kind(token.text.as_slice()) {
        Some(kind) => Ok(kind),
        None => Err(error_of(token, PqfErrorKind::BadTermType)),
    }
}

/// Parses the attributes and types of terms that come next. Puts the attributes in force, in `attrs`, and returns the
/// type of term that holds below them.
fn prefixes(
    alloc: Global,
    cursor: &mut Cursor<'_>,
    end: usize,
    own: &Oid,
    attrs: &mut Vec<Attr>,
    kind: TermKind,
) -> Result<TermKind, PqfError>
    ensures ok { IfOk result (λ k. (xs : List Attr) → attrs.old.items ≡ in_force xs
        → ArePrefixes own.now xs kind cursor.old attrs.new.items k cursor.new) }
    ensures expected { IfOk result (λ k. (deep : ℕ → Bool) (n : ℕ) (rest : List Expected)
        → expected_after deep cursor.old (Operand kind n ∷ rest)
        ≡ expected_after deep cursor.new (Operand k n ∷ rest)) }
    ensures stops { OnOk result (NoPrefix cursor.new) }
    ensures err { (deep : ℕ → Bool) (n : ℕ) (rest : List Expected)
        → IsFaultResult (fault_left end (expected_after deep cursor.old (Operand kind n ∷ rest))) result }
{
    let mut kind = kind;
    loop {
        let Some(token) = cursor.first() else {
            return Ok(kind);
        };
        match kind_of_token(token) {
            TokenKind::Attribute => {
                cursor.skip();
                let attr = next_attribute(alloc, cursor, end, own)?;
                put(attrs, attr)?;
            }
            TokenKind::TypeOfTerm => {
                cursor.skip();
                kind = next_kind(cursor, end)?;
            }
            _ => return Ok(kind),
        }
    }
}

fn term_of(token: &Token, attrs: Vec<Attr>, kind: TermKind, level: u32) -> Result<Rpn, PqfError>
    ensures ok { IfOk result (λ r. (level ≤ 32)
        × ((v : TermValue) × (value_of kind token.now.text ≡ Some v) × (rpn_tree r ≡ OfTerm attrs.items v))) }
    ensures err { IfErr result (λ e. (e ≡ memory) ⊎ ((e ≡ error_at token.now e.kind)
        × (operand below_limit kind level token.now.text Plain ≡ Err e.kind))) }
{
    match value(kind, &token.text)? {
        None => Err(error_of(token, PqfErrorKind::BadNumber)),
        Some(term) => {
            if level > DEEPEST {
                return Err(error_of(token, PqfErrorKind::TooDeep));
            }
            Ok(Rpn::Term {
                attrs: Seq::from_vec(attrs),
                term,
            })
        }
    }
}

fn set_of(name: &Bytes, attrs: Vec<Attr>) -> Result<Rpn, AllocError>
    ensures { IfOk result (λ r. rpn_tree r ≡ set_tree name.now attrs.items) }
{
    let name = name.clone()?;
    if attrs.is_empty() {
        Ok(Rpn::ResultSet { name })
    } else {
        Ok(Rpn::SetAttrs {
            name,
            attrs: Seq::from_vec(attrs),
        })
    }
}

fn join(operator: Operator, left: Box<Rpn>, right: Box<Rpn>) -> Rpn
    ensures { rpn_tree result ≡ Of operator (rpn_tree left.value) (rpn_tree right.value) }
{
    match operator {
        Operator::And => Rpn::And(left, right),
        Operator::Or => Rpn::Or(left, right),
        Operator::Not => Rpn::Not(left, right),
    }
}

/// Puts a tree in a box. Returns `Memory` if no memory is found.
fn box_tree(alloc: Global, tree: Rpn) -> Result<Box<Rpn>, PqfError>
    ensures ok { IfOk result (λ b. b.value ≡ tree) }
    ensures err { IfErr result (λ e. e ≡ memory) }
{
    Ok(Box::new(alloc, tree)?)
}

/// Parses the query that comes next, on this level. The attributes `outer` and the type of term `kind` hold for it;
/// `end` is the text's length.
fn query(
    alloc: Global,
    cursor: &mut Cursor<'_>,
    end: usize,
    own: &Oid,
    outer: &[Attr],
    kind: TermKind,
    level: u32,
) -> Result<Rpn, PqfError>
    requires { level ≤ 33 }
    ensures ok { IfOk result (λ r. (xs : List Attr) → outer.now ≡ in_force xs
        → IsReadPhrase own.now xs kind level cursor.old cursor.new (rpn_tree r)) }
    ensures expected { OnOk result ((rest : List Expected)
        → expected_after below_limit cursor.old (Operand kind level ∷ rest)
        ≡ expected_after below_limit cursor.new rest) }
    ensures err { (rest : List Expected)
        → IsFaultResult (fault_left end (expected_after below_limit cursor.old (Operand kind level ∷ rest))) result }
{
    let mut attrs = copies(alloc, outer)?;
    let kind = prefixes(alloc, cursor, end, own, &mut attrs, kind)?;
    let Some(token) = cursor.next() else {
        return Err(missing_at(end));
    };
    match kind_of_token(token) {
        TokenKind::Op(operator) => {
            if level > DEEPEST {
                return Err(error_of(token, PqfErrorKind::TooDeep));
            }
            let first = query(alloc, cursor, end, own, attrs.as_slice(), kind, level + 1)?;
            let left = box_tree(alloc, first)?;
            let second = query(alloc, cursor, end, own, attrs.as_slice(), kind, level + 1)?;
            let right = box_tree(alloc, second)?;
            Ok(join(operator, left, right))
        }
        TokenKind::NamedSet => {
            if level > DEEPEST {
                return Err(error_of(token, PqfErrorKind::TooDeep));
            }
            let Some(name) = cursor.next() else {
                return Err(missing_at(end));
            };
            let set = set_of(&name.text, attrs)?;
            Ok(set)
        }
        TokenKind::Plain => {
            let term = term_of(token, attrs, kind, level)?;
            Ok(term)
        }
        _ => Err(error_of(token, PqfErrorKind::UnknownWord)),
    }
}

/// Parses the set behind `@attrset`; `end` is the text's length.
fn own_set(alloc: Global, cursor: &mut Cursor<'_>, end: usize) -> Result<Oid, PqfError>
    ensures { IsReadResult (own_at end cursor.old) result cursor.new }
{
    let Some(token) = cursor.next() else {
        return Err(missing_at(end));
    };
    match set_named(alloc, token.text.as_slice())? {
        Some(set) => Ok(set),
        None => Err(error_of(token, PqfErrorKind::UnknownSet)),
    }
}

/// Parses the query's set: the one behind `@attrset` if this is the first token, and bib-1 otherwise.
fn query_set(alloc: Global, cursor: &mut Cursor<'_>, end: usize) -> Result<Oid, PqfError>
    ensures { IsReadResult (query_set_at end cursor.old) result cursor.new }
{
    if let Some(first) = cursor.first() {
        if kind_of_token(first) == TokenKind::AttrSet {
            cursor.skip();
            return own_set(alloc, cursor, end);
        }
    }
    Ok(bib_1(alloc)?)
}

/// Parses the tokens of a text as the query that they stand for; `end` is the text's length.
fn parse_tokens(alloc: Global, tokens: &[Token], end: usize) -> Result<Query, PqfError>
    ensures ok { IfOk result (λ q. IsQuery tokens.now q × (height q.root ≤ 32)) }
    ensures err { IsFaultResult (tokens_fault end tokens.now) result }
{
    let mut cursor = Cursor::new(tokens);
    let Some(_) = cursor.first() else {
        return Err(PqfError {
            at: 0,
            kind: PqfErrorKind::Empty,
        });
    };
    let own = query_set(alloc, &mut cursor, end)?;
    let root = match query(alloc, &mut cursor, end, &own, &[], TermKind::GeneralTerm, 1) {
        Ok(root) => root,
        Err(e) => return Err(e),
    };
    match cursor.next() {
        None => Ok(Query {
            attr_set: own,
            root,
        }),
        Some(extra) => Err(error_of(extra, PqfErrorKind::Trailing)),
    }
}

/// Parses a text of the prefix notation as the query that it stands for, of height 32 at most.
///
/// The notation is `[@attrset set] q`. Here `q` is `@attr [set] type=value q`, `@and q q`, `@or q q`, `@not q q`,
/// `@set name`, `@term type q` or a term. A set is `bib-1`, in any case, or a dotted object identifier; without
/// `@attrset` the query's set is bib-1. A type of term is `general`, `numeric` or `string`. Attributes hold for all
/// operands below them; an inner one replaces an outer one of the same set and type.
///
/// Returns, before any other error, `OpenQuote` at a quote that no quote closes. Returns `Empty`, at 0, if there is no
/// token, and `MissingOperand`, at the text's length, if the text is only the beginning of a query. Otherwise the error
/// is at the first token that continues no query, or that is an operand or operator below 32 operators. Its kind is as
/// `PqfErrorKind` says. Returns `Memory` if no memory is found.
pub fn parse_pqf(alloc: Global, text: &[u8]) -> Result<Query, PqfError>
    ensures ok { IfOk result (λ q. IsText text.now q × (height q.root ≤ 32)) }
    ensures err { IfErr result (λ e. (e ≡ memory) ⊎ IsTextFault text.now e) }
{
    let found = match tokens(alloc, text) {
        Ok(found) => found,
        Err(e) => return Err(e),
    };
    parse_tokens(alloc, found.as_slice(), text.len())
}
