//! Years, and spans of years.

ghost use Rattle.std.specs.Prelude.{◌≡◌, OnOk, ◌++◌};
ghost use Rattle.std.specs.Option.{option_map};
ghost use Rattle.zmeta_searches.specs.Terms.{terms_shown};
ghost use Rattle.zmeta_searches.specs.Years.{are_digits, span_of, given_term, year_terms};

use crate::terms::{Access, SearchTerm};
use std::alloc::AllocError;

/// Returns whether all octets are digits.
fn are_digits(text: &str) -> bool
    ensures { result ≡ are_digits text.now }
{
    text.as_bytes().iter().all(|octet| octet.is_ascii_digit())
}

/// Returns the years before and behind the hyphen, if the text is `1980-1985`, `1980-` or `-1985`.
fn span_of(text: &str) -> Option<(&str, &str)>
    ensures { option_map (λ years. (years.0.now, years.1.now)) result ≡ span_of text.entry.now }
{
    match text.split_once('-') {
        Some((since, until)) => {
            if are_digits(since) && are_digits(until) && 1 < text.len() {
                Some((since, until))
            } else {
                None
            }
        }
        None => None,
    }
}

/// Appends a term, unless it has no text.
fn put_given<'a>(
    access: Access,
    text: &'a str,
    terms: &mut Vec<SearchTerm<'a>>,
) -> Result<(), AllocError>
    ensures { OnOk result (terms_shown terms.new.items
        ≡ terms_shown terms.old.items ++ given_term access text.entry.now) }
{
    if text.is_empty() {
        return Ok(());
    }
    terms.push(SearchTerm { access, text })?;
    Ok(())
}

/// Appends the term of a year, or those of a span of years.
pub(crate) fn put_year<'a>(text: &'a str, terms: &mut Vec<SearchTerm<'a>>) -> Result<(), AllocError>
    ensures { OnOk result (terms_shown terms.new.items ≡ terms_shown terms.old.items ++ year_terms text.entry.now) }
{
    match span_of(text) {
        Some((since, until)) => {
            put_given(Access::Since, since, terms)?;
            put_given(Access::Until, until, terms)
        }
        None => {
            terms.push(SearchTerm {
                access: Access::Year,
                text,
            })?;
            Ok(())
        }
    }
}
