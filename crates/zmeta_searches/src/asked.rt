//! The terms that the options ask for.

ghost use Rattle.std.specs.Prelude.{◌≡◌, ◌++◌, IfOk, OnOk};
ghost use Rattle.std.specs.List.{flat_map};
ghost use Rattle.zmeta_args.specs.Texts.{texts_of};
ghost use Rattle.zmeta_searches.specs.Terms.{terms_shown};
ghost use Rattle.zmeta_searches.specs.Years.{year_terms};
ghost use Rattle.zmeta_searches.specs.Asked.{terms_under, terms_of};

use crate::terms::{Access, SearchTerm};
use crate::years::put_year;
use std::alloc::{AllocError, Global};
use zmeta_args::SearchOptions;

/// Appends terms of one access point.
fn put_terms<'a>(
    access: Access,
    texts: &[&'a str],
    terms: &mut Vec<SearchTerm<'a>>,
) -> Result<(), AllocError>
    ensures { OnOk result (terms_shown terms.new.items
        ≡ terms_shown terms.old.items ++ terms_under access (texts_of texts.now)) }
{
    for text in texts {
        terms.push(SearchTerm {
            access,
            text: *text,
        })?;
    }
    Ok(())
}

/// Appends the terms of years and of spans of years.
fn put_years<'a>(texts: &[&'a str], terms: &mut Vec<SearchTerm<'a>>) -> Result<(), AllocError>
    ensures { OnOk result (terms_shown terms.new.items
        ≡ terms_shown terms.old.items ++ flat_map year_terms (texts_of texts.now)) }
{
    for text in texts {
        put_year(*text, terms)?;
    }
    Ok(())
}

/// Returns the terms of the options: titles, authors, subjects, ISBNs, ISSNs, years, and terms for anything, each kind
/// in the order in which it is given.
///
/// A year that is written as a span, `1980-1985`, makes two terms, and `1980-` or `-1985` makes one of them. `--query`
/// makes none. The terms borrow the texts of the options. `AllocError` if no memory is found.
pub fn asked_terms<'a>(
    alloc: Global,
    search: &SearchOptions<'a>,
) -> Result<Vec<SearchTerm<'a>>, AllocError>
    ensures { IfOk result (λ terms. terms_shown terms.items ≡ terms_of search.now) }
{
    let mut terms = Vec::new(alloc);
    put_terms(Access::Title, search.titles.as_slice(), &mut terms)?;
    put_terms(Access::Author, search.authors.as_slice(), &mut terms)?;
    put_terms(Access::Subject, search.subjects.as_slice(), &mut terms)?;
    put_terms(Access::Isbn, search.isbns.as_slice(), &mut terms)?;
    put_terms(Access::Issn, search.issns.as_slice(), &mut terms)?;
    put_years(search.years.as_slice(), &mut terms)?;
    put_terms(Access::Any, search.any.as_slice(), &mut terms)?;
    Ok(terms)
}
