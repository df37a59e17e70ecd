//! What a term of a search asks of a catalogue.

ghost use Rattle.std.specs.Prelude.{◌≡◌, not, filter, IfOk, IfErr};
ghost use Rattle.std.specs.Option.{option_map};
ghost use Rattle.zquery.specs.QueryTrees.{rpn_tree};
ghost use Rattle.zmeta_catalogues.specs.Operands.{term_of, IsPrefix};
ghost use Rattle.zmeta_catalogues.specs.Terms.{default_prefix, prefix_for, attr_of, may_be_cut, ends_starred, is_cut, is_hyphen, asked_octets, are_blank, relation_of, more_of, others, with_more, IsTermTree};
ghost use Rattle.zmeta_catalogues.specs.Charsets.{octets_in};
ghost use Rattle.zmeta_catalogues.specs.AskErrors.{IsTermError, IsPrefixError, IsCharsetError};

use crate::catalogue::{Catalogue, Terms};
use crate::charset::octets_in;
use crate::fault::{Key, Stop};
use crate::operands::attributes_of;
use crate::search::{Access, AskError, Term};
use bytes::Bytes;
use std::alloc::{AllocError, Global};
use zber::Seq;
use zquery::{Attr, AttrValue, Rpn, TermValue};

/// Returns the text of a term of a catalogue, if it has one.
fn term_of(key: Key, terms: &Terms) -> Option<&[u8]>
    ensures { option_map (λ text. text.now) result ≡ term_of key terms.entry.now }
{
    let text = match key {
        Key::Title => &terms.title,
        Key::Author => &terms.author,
        Key::Subject => &terms.subject,
        Key::Any => &terms.any,
        Key::Isbn => &terms.isbn,
        Key::Issn => &terms.issn,
        Key::Year => &terms.year,
        _ => return None,
    };
    match text {
        Some(text) => Some(text.as_slice()),
        None => None,
    }
}

/// Returns the attributes where a catalogue says none: the Use attribute of bib-1 (Z39.50-2003, ATR.1).
fn default_prefix(access: Access) -> &'static [u8]
    ensures { result.now ≡ default_prefix access }
{
    match access {
        Access::Title => b"@attr 1=4".as_slice(),
        Access::Author => b"@attr 1=1003".as_slice(),
        Access::Subject => b"@attr 1=21".as_slice(),
        Access::Any => b"@attr 1=1016".as_slice(),
        Access::Isbn => b"@attr 1=7".as_slice(),
        Access::Issn => b"@attr 1=8".as_slice(),
        Access::Year => b"@attr 1=31".as_slice(),
        Access::Since => b"@attr 1=31".as_slice(),
        Access::Until => b"@attr 1=31".as_slice(),
    }
}

/// Returns the text of the attributes: the catalogue's own, or else the default.
fn prefix_for(catalogue: &Catalogue, access: Access) -> &[u8]
    ensures { result.now ≡ prefix_for catalogue.entry.now access }
{
    match term_of(access.key(), &catalogue.terms) {
        Some(text) => text,
        None => default_prefix(access),
    }
}

/// Returns an attribute of the query's set.
fn attr_of(kind: u32, value: u32) -> Attr
    ensures { result ≡ attr_of kind value }
{
    Attr {
        attr_set: None,
        kind: kind as i64,
        value: AttrValue::Number(value as i64),
    }
}

/// Returns whether an asterisk at the end of a term of this access point truncates.
fn may_be_cut(access: Access) -> bool
    ensures { result ≡ may_be_cut access }
{
    match access {
        Access::Title | Access::Author | Access::Subject | Access::Any => true,
        _ => false,
    }
}

/// Returns whether the octets end with an asterisk.
fn ends_starred(octets: &[u8]) -> bool
    ensures { result ≡ ends_starred octets.now }
{
    let len = octets.len();
    0 < len && octets[len - 1] == b'*'
}

/// Returns whether a term is truncated.
fn is_cut(access: Access, octets: &[u8]) -> bool
    ensures { result ≡ is_cut access octets.now }
{
    may_be_cut(access) && ends_starred(octets)
}

/// Returns the octets that are no hyphens.
fn no_hyphens(alloc: Global, octets: &[u8]) -> Result<Vec<u8>, AllocError>
    ensures { IfOk result (λ kept. kept.items ≡ filter (λ b. not (is_hyphen b)) octets.now) }
{
    octets
        .iter()
        .filter(|octet| **octet != b'-')
        .copied()
        .collect(alloc)
}

/// Returns octets without their hyphens.
fn without_hyphens(alloc: Global, octets: &[u8]) -> Result<Bytes, AllocError>
    ensures { IfOk result (λ kept. kept ≡ filter (λ b. not (is_hyphen b)) octets.now) }
{
    let kept = no_hyphens(alloc, octets)?;
    Ok(Bytes::from_vec(kept)?)
}

/// Returns the octets that are asked for: an ISBN loses its hyphens, and a truncated term its asterisk.
fn asked_octets(alloc: Global, access: Access, octets: &[u8]) -> Result<Bytes, AllocError>
    ensures { IfOk result (λ asked. asked ≡ asked_octets access octets.now) }
{
    if access == Access::Isbn {
        return without_hyphens(alloc, octets);
    }
    if is_cut(access, octets) {
        return Bytes::copy_from_slice(alloc, &octets[..octets.len() - 1]);
    }
    Bytes::copy_from_slice(alloc, octets)
}

/// Returns whether the octets are none, or blank.
fn are_blank(octets: &[u8]) -> bool
    ensures { result ≡ are_blank octets.now }
{
    octets.iter().all(|octet| *octet == b' ')
}

/// Returns the relation that an access point asks for: from this year on, or up to it.
fn relation_of(access: Access) -> Option<Attr>
    ensures { result ≡ relation_of access }
{
    match access {
        Access::Since => Some(attr_of(2, 4)),
        Access::Until => Some(attr_of(2, 2)),
        _ => None,
    }
}

/// Returns what is asked beside the prefix: the relation, or right truncation.
fn more_of(access: Access, octets: &[u8]) -> Option<Attr>
    ensures { result ≡ more_of access octets.now }
{
    if is_cut(access, octets) {
        Some(attr_of(5, 1))
    } else {
        relation_of(access)
    }
}

/// Returns the attributes of another type than this one.
fn others(alloc: Global, more: &Attr, attrs: Vec<Attr>) -> Result<Vec<Attr>, AllocError>
    ensures { IfOk result (λ kept. kept.items ≡ others more.now attrs.items) }
{
    let mut kept = Vec::new(alloc);
    'attrs: for attr in attrs {
        if attr.kind != more.kind {
            kept.push(attr)?;
        } else {
            drop(attr);
        }
    }
    Ok(kept)
}

/// Returns the attributes with one more, which takes the place of those of its type.
fn with_more(alloc: Global, more: Option<Attr>, attrs: Seq<Attr>) -> Result<Seq<Attr>, AllocError>
    ensures { IfOk result (λ all. all ≡ with_more more attrs) }
{
    let Some(more) = more else {
        return Ok(attrs);
    };
    let mut all = others(alloc, &more, attrs.into_vec())?;
    all.push(more)?;
    Ok(Seq::from_vec(all))
}

/// Returns the error for a prefix of this catalogue that is none.
fn prefix_error(catalogue: &Catalogue, stop: Stop) -> AskError
    ensures { IsPrefixError catalogue.now.name stop result }
{
    let Stop::Fault(fault) = stop else {
        return AskError::Memory;
    };
    match catalogue.name.clone() {
        Ok(catalogue) => AskError::Setting { catalogue, fault },
        Err(_) => AskError::Memory,
    }
}

/// Returns the error for a term that the charset of this catalogue cannot write.
fn charset_error(catalogue: &Catalogue, access: Access) -> AskError
    ensures { IsCharsetError catalogue.now.name access result }
{
    match catalogue.name.clone() {
        Ok(catalogue) => AskError::TermCharset { catalogue, access },
        Err(_) => AskError::Memory,
    }
}

/// Returns the octets of the term in the charset of the catalogue.
///
/// `TermCharset` if the charset lacks a character of it. `Memory` if no memory is found.
fn converted(alloc: Global, catalogue: &Catalogue, term: Term<'_>) -> Result<Bytes, AskError>
    ensures ok { IfOk result (λ octets. octets_in catalogue.now.settings.charset term.entry.text.now ≡ Some octets) }
    ensures err { IfErr result (IsTermError catalogue.now term.entry) }
{
    match octets_in(alloc, catalogue.settings.charset, term.text)? {
        Some(octets) => Ok(octets),
        None => Err(charset_error(catalogue, term.access)),
    }
}

/// Returns the attributes of a term in a catalogue, without what more is asked.
///
/// `Setting` if the catalogue's prefix is none. `Memory` if no memory is found.
#[tactic(auto, using(crate::proofs::AskedTerms::prefix_term_error))]
fn prefix_attributes(
    alloc: Global,
    catalogue: &Catalogue,
    term: Term<'_>,
) -> Result<Seq<Attr>, AskError>
    ensures ok { IfOk result (IsPrefix (prefix_for catalogue.now term.entry.access)) }
    ensures err { IfErr result (IsTermError catalogue.now term.entry) }
{
    match attributes_of(alloc, term.access.key(), prefix_for(catalogue, term.access)) {
        Ok(attrs) => Ok(attrs),
        Err(stop) => Err(prefix_error(catalogue, stop)),
    }
}

/// Returns the operand of a term in a catalogue.
///
/// `TermCharset` if the catalogue's charset lacks a character of it, `BlankTerm` if nothing is asked for, `Setting` if
/// the catalogue's prefix is none. `Memory` if no memory is found.
pub(crate) fn term_tree(
    alloc: Global,
    catalogue: &Catalogue,
    term: Term<'_>,
) -> Result<Rpn, AskError>
    ensures ok { IfOk result (λ tree. IsTermTree catalogue.now term.entry (rpn_tree tree)) }
    ensures err { IfErr result (IsTermError catalogue.now term.entry) }
{
    let octets = converted(alloc, catalogue, term)?;
    let asked = asked_octets(alloc, term.access, octets.as_slice())?;
    if are_blank(asked.as_slice()) {
        return Err(AskError::BlankTerm {
            access: term.access,
        });
    }
    let attrs = prefix_attributes(alloc, catalogue, term)?;
    let more = more_of(term.access, octets.as_slice());
    Ok(Rpn::Term {
        attrs: with_more(alloc, more, attrs)?,
        term: TermValue::General(asked),
    })
}
