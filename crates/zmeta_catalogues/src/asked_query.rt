//! The query that is put to a catalogue.

ghost use Rattle.std.specs.Prelude.{◌≡◌, ◌<◌, ◌∷◌, length, IfOk, IfErr};
ghost use Rattle.std.specs.Option.{option_map};
ghost use Rattle.zquery.specs.QueryTrees.{rpn_tree};
ghost use Rattle.zmeta_world.specs.Worlds.{IsQueryOf};
ghost use Rattle.zmeta_catalogues.specs.Terms.{IsTermsTree};
ghost use Rattle.zmeta_catalogues.specs.Asked.{asked_search, IsGivenQuery, IsTermsQuery, IsAskedQuery};
ghost use Rattle.zmeta_catalogues.specs.AskErrors.{given_error, IsTermsError, IsParsedError, IsGivenError, IsOwnError, IsTermsQueryError, IsQueryError};

use crate::catalogue::Catalogue;
use crate::charset::octets_in;
use crate::fault::{Key, Stop};
use crate::operands::{bib_1, read_query};
use crate::search::{AskError, CatalogueSearch, Term};
use crate::terms::term_tree;
use std::alloc::Global;
use zquery::{PqfError, PqfErrorKind, Query, Rpn, parse_pqf};

/// The most terms of a search.
const MOST_TERMS: usize = 32;

/// Returns the tree of terms, all of which a record has to match. It recurs once for each term, of which there are at
/// most 32.
///
/// The errors are those of `term_tree`.
#[tactic(auto, using(crate::proofs::AskedTerms::first_term, crate::proofs::AskedTerms::later_term))]
fn terms_tree(
    alloc: Global,
    catalogue: &Catalogue,
    term: Term<'_>,
    rest: &[Term<'_>],
) -> Result<Rpn, AskError>
    requires { length rest.now < 32 }
    ensures ok { IfOk result (λ tree. IsTermsTree catalogue.now (term.entry ∷ rest.now) (rpn_tree tree)) }
    ensures err { IfErr result (IsTermsError catalogue.now (term.entry ∷ rest.now)) }
{
    let first = term_tree(alloc, catalogue, term)?;
    match rest {
        [] => Ok(first),
        [next, others @ ..] => {
            let left = Box::new(alloc, first)?;
            let second = terms_tree(alloc, catalogue, *next, others)?;
            let right = Box::new(alloc, second)?;
            Ok(Rpn::And(left, right))
        }
    }
}

/// Returns the query of a term and those behind it for a catalogue.
///
/// `TooManyTerms` if there are more than 32. The other errors are those of `term_tree`.
#[tactic(auto, using(crate::proofs::AskedTerms::terms_error))]
fn some_terms_query(
    alloc: Global,
    catalogue: &Catalogue,
    term: Term<'_>,
    rest: &[Term<'_>],
) -> Result<Query, AskError>
    ensures ok { IfOk result (IsTermsQuery catalogue.now (term.entry ∷ rest.now)) }
    ensures err { IfErr result (IsTermsQueryError catalogue.now (term.entry ∷ rest.now)) }
{
    if rest.len() >= MOST_TERMS {
        return Err(AskError::TooManyTerms);
    }
    let root = terms_tree(alloc, catalogue, term, rest)?;
    let attr_set = bib_1(alloc)?;
    Ok(Query { attr_set, root })
}

/// Returns the query of terms for a catalogue: each is one operand, and a record has to match them all.
///
/// `NoSearch` if there is no term, `TooManyTerms` if there are more than 32. `BlankTerm`, `TermCharset` and `Setting`
/// as `term_tree` says. `Memory` if no memory is found.
fn terms_query(alloc: Global, catalogue: &Catalogue, terms: &[Term<'_>]) -> Result<Query, AskError>
    ensures ok { IfOk result (IsTermsQuery catalogue.now terms.now) }
    ensures err { IfErr result (IsTermsQueryError catalogue.now terms.now) }
{
    match terms {
        [] => Err(AskError::NoSearch {
            catalogue: catalogue.name.clone()?,
        }),
        [first, rest @ ..] => some_terms_query(alloc, catalogue, *first, rest),
    }
}

/// Returns the error for a query of a search that is none, for an error of the prefix notation.
fn given_error(error: PqfError) -> AskError
    ensures { result ≡ given_error error }
{
    match error.kind {
        PqfErrorKind::Memory => AskError::Memory,
        kind => AskError::Query { kind, at: error.at },
    }
}

/// Reads the query of a search.
///
/// `Query` if the text is none. `Memory` if no memory is found.
fn parsed_query(alloc: Global, text: &[u8]) -> Result<Query, AskError>
    ensures ok { IfOk result (IsQueryOf text.now) }
    ensures err { IfErr result (IsParsedError text.now) }
{
    match parse_pqf(alloc, text) {
        Ok(query) => Ok(query),
        Err(error) => Err(given_error(error)),
    }
}

/// Returns the query of a search, in the charset of the catalogue.
///
/// `QueryCharset` if the charset lacks a character of it, `Query` if it is none. `Memory` if no memory is found.
#[tactic(auto, using(crate::proofs::AskedTerms::parsed_error))]
fn given_query(alloc: Global, catalogue: &Catalogue, text: &str) -> Result<Query, AskError>
    ensures ok { IfOk result (IsGivenQuery catalogue.now text.now) }
    ensures err { IfErr result (IsGivenError catalogue.now text.now) }
{
    let Some(octets) = octets_in(alloc, catalogue.settings.charset, text)? else {
        return Err(AskError::QueryCharset {
            catalogue: catalogue.name.clone()?,
        });
    };
    let query = parsed_query(alloc, octets.as_slice())?;
    Ok(query)
}

/// Returns the query of the catalogue.
///
/// `Setting` if it is none. `Memory` if no memory is found.
fn own_query(alloc: Global, catalogue: &Catalogue, text: &[u8]) -> Result<Query, AskError>
    ensures ok { IfOk result (IsQueryOf text.now) }
    ensures err { IfErr result (IsOwnError catalogue.now text.now) }
{
    match read_query(alloc, Key::Query, text) {
        Ok(query) => Ok(query),
        Err(Stop::Fault(fault)) => Err(AskError::Setting {
            catalogue: catalogue.name.clone()?,
            fault,
        }),
        Err(Stop::Memory) => Err(AskError::Memory),
    }
}

/// Returns the query for a catalogue: its own, or else that of the search, or else that of the terms.
///
/// The errors are those of `own_query`, `given_query` and `terms_query`.
pub(crate) fn asked_query(
    alloc: Global,
    search: &CatalogueSearch<'_>,
    catalogue: &Catalogue,
) -> Result<Query, AskError>
    ensures ok { IfOk result (IsAskedQuery (asked_search search.now) catalogue.now) }
    ensures err { IfErr result (IsQueryError (asked_search search.now) catalogue.now) }
{
    match &catalogue.query {
        Some(text) => own_query(alloc, catalogue, text.as_slice()),
        None => match search.query {
            Some(text) => given_query(alloc, catalogue, text),
            None => terms_query(alloc, catalogue, search.terms),
        },
    }
}
