//! Checks that the texts of a catalogue are prefixes and queries.

ghost use Rattle.std.specs.Prelude.{◌≡◌, IfOk, IfErr};
ghost use Rattle.std.specs.Option.{option_map};
ghost use Rattle.zmeta_catalogues.specs.Operands.{HasPrefix, HasQuery, AreQueries, IsGivenPrefixStop, IsGivenQueryStop, IsTextStop, term_of};

use crate::catalogue::{Catalogue, Terms};
use crate::fault::{Key, Stop};
use crate::operands::{attributes_of, read_query};
use bytes::Bytes;
use std::alloc::Global;

/// Checks that the text of a term is a prefix, if there is one.
#[tactic(auto, using(crate::proofs::Prefixes::given_prefix_stop))]
pub(crate) fn check_prefix(alloc: Global, key: Key, text: &Option<Bytes>) -> Result<(), Stop>
    ensures ok { IfOk result (λ _. HasPrefix text.now) }
    ensures err { IfErr result (IsGivenPrefixStop key text.now) }
{
    if let Some(text) = text {
        attributes_of(alloc, key, text.as_slice())?;
    }
    Ok(())
}

/// Checks that the query of a catalogue is one, if there is one.
pub(crate) fn check_query(alloc: Global, text: &Option<Bytes>) -> Result<(), Stop>
    ensures ok { IfOk result (λ _. HasQuery text.now) }
    ensures err { IfErr result (IsGivenQueryStop text.now) }
{
    if let Some(text) = text {
        read_query(alloc, Key::Query, text.as_slice())?;
    }
    Ok(())
}

/// Checks that each term of a catalogue is a prefix, and its query a query.
pub(crate) fn check_queries(alloc: Global, catalogue: &Catalogue) -> Result<(), Stop>
    ensures ok { IfOk result (λ _. AreQueries catalogue.now.terms catalogue.now.query) }
    ensures err { IfErr result (IsTextStop catalogue.now.terms catalogue.now.query) }
{
    check_prefix(alloc, Key::Title, &catalogue.terms.title)?;
    check_prefix(alloc, Key::Author, &catalogue.terms.author)?;
    check_prefix(alloc, Key::Subject, &catalogue.terms.subject)?;
    check_prefix(alloc, Key::Any, &catalogue.terms.any)?;
    check_prefix(alloc, Key::Isbn, &catalogue.terms.isbn)?;
    check_prefix(alloc, Key::Issn, &catalogue.terms.issn)?;
    check_prefix(alloc, Key::Year, &catalogue.terms.year)?;
    check_query(alloc, &catalogue.query)
}
