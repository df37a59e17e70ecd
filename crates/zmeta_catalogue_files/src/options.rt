//! The options of the command line as a search of catalogues.

ghost use Rattle.std.specs.Prelude.{◌≡◌, ◌<◌, ◌^◌, length, map, IfOk, IfErr};
ghost use Rattle.std.specs.Option.{option_map};
ghost use Rattle.zmeta_args.specs.Texts.{now_of};
ghost use Rattle.zmeta_searches.specs.Asked.{terms_of};
ghost use Rattle.zmeta_searches.specs.Terms.{terms_shown};
ghost use Rattle.zmeta_catalogues.specs.Asked.{asked_search};
ghost use Rattle.zmeta_catalogue_files.specs.Options.{access_of, put_term, put_terms, IsSearchOf};
ghost use Rattle.zmeta_catalogue_files.specs.Unions.{AreAskingErrors, IsWorldOf};
ghost use Rattle.zmeta_world.specs.InMemoryRuns.{IsFit};

use std::alloc::{AllocError, Global};
use zmeta_args::SearchOptions;
use zmeta_catalogues::{Access, AskError, CatalogueSearch, Catalogues, Term};
use zmeta_searches::{SearchTerm, asked_terms};
use zmeta_world::world::World;

/// Returns what a term is looked for in, as catalogues are asked.
fn access_of(given: zmeta_searches::Access) -> Access
    ensures { result ≡ access_of given }
{
    match given {
        zmeta_searches::Access::Title => Access::Title,
        zmeta_searches::Access::Author => Access::Author,
        zmeta_searches::Access::Subject => Access::Subject,
        zmeta_searches::Access::Isbn => Access::Isbn,
        zmeta_searches::Access::Issn => Access::Issn,
        zmeta_searches::Access::Year => Access::Year,
        zmeta_searches::Access::Since => Access::Since,
        zmeta_searches::Access::Until => Access::Until,
        zmeta_searches::Access::Any => Access::Any,
    }
}

/// Returns the terms as catalogues are asked for them.
fn put_terms<'a>(alloc: Global, given: &[SearchTerm<'a>]) -> Result<Vec<Term<'a>>, AllocError>
    ensures { IfOk result (λ terms. put_terms terms.items ≡ map put_term (terms_shown given.now)) }
{
    let mut terms = Vec::new(alloc);
    for term in given {
        terms.push(Term {
            access: access_of(term.access),
            text: term.text,
        })?;
    }
    Ok(terms)
}

/// Returns the terms of the options.
fn terms_of<'a>(alloc: Global, options: &SearchOptions<'a>) -> Result<Vec<Term<'a>>, AllocError>
    ensures { IfOk result (λ terms. put_terms terms.items ≡ map put_term (terms_of options.now)) }
{
    let given = asked_terms(alloc, options)?;
    put_terms(alloc, given.as_slice())
}

/// Returns the octets of a text, if there is one.
fn octets_of(text: Option<&str>) -> Option<&[u8]>
    ensures { option_map (λ octets. octets.now) result ≡ now_of text.entry }
{
    match text {
        Some(text) => Some(text.as_bytes()),
        None => None,
    }
}

/// Returns the search of the options, with these terms, which are those of the options.
fn search_of<'a>(options: &SearchOptions<'a>, terms: &'a [Term<'a>]) -> CatalogueSearch<'a>
    requires { put_terms terms.now ≡ map put_term (terms_of options.now) }
    ensures { IsSearchOf options.now (asked_search result) }
{
    CatalogueSearch {
        query: options.query,
        terms,
        records: octets_of(options.records),
        elements: octets_of(options.elements),
        syntax: octets_of(options.syntax),
    }
}

/// Returns the world that the search of the options asks of catalogues. It can be planned by `network`.
///
/// The errors are those of `Catalogues::world`.
#[tactic(auto, using(crate::proofs::Faults::asked_world, crate::proofs::Faults::asked_error))]
pub(crate) fn world_of(
    alloc: Global,
    file: &Catalogues,
    options: &SearchOptions<'_>,
) -> Result<World, AskError>
    requires { length file.now.list < 2 ^ 32 }
    ensures world { IfOk result (IsWorldOf options.now file.now.list) }
    ensures fit { IfOk result IsFit }
    ensures err { IfErr result (AreAskingErrors options.now file.now.list) }
{
    match terms_of(alloc, options) {
        Ok(terms) => {
            let search = search_of(options, terms.as_slice());
            file.world(alloc, &search)
        }
        Err(_) => Err(AskError::Memory),
    }
}
