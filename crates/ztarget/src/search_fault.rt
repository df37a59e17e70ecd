//! Why a search fails.
ghost use Rattle.std.specs.Prelude.{◌≡◌, List, IfOk};
ghost use Rattle.zapdu.specs.declared.productions.search_query.SearchQuery.TheVariants.{Rpn};
ghost use Rattle.ztarget.specs.declared.database.Database.{Database};
ghost use Rattle.ztarget.specs.Keeping.{sets_of};
ghost use Rattle.ztarget.specs.Responding.{name_fault, kept_fault, search_fault};
ghost use Rattle.ztarget.specs.Standing.{set_named};
ghost use Rattle.ztarget.specs.TargetStates.{terms_of};

use crate::fault::{Fault, match_fault};
use crate::indexed::Indexed;
use crate::phase::Terms;
use crate::sets::ResultSets;
use bytes::Bytes;
use std::alloc::{AllocError, Global};
use zapdu::{SearchQuery, SearchRequest};
use zquery_rpn::Query;

/// Returns fault 22 if result sets may not have names, and the name is not `default` (Z39.50-2003, 3.2.2.1.3).
fn name_fault(named: bool, name: &Bytes) -> Result<Option<Fault>, AllocError>
    ensures { IfOk result (λ f. f ≡ name_fault named name.now) }
{
    if named || name.as_slice() == b"default".as_slice() {
        return Ok(None);
    }
    Ok(Some(Fault {
        condition: 22,
        info: name.clone()?,
    }))
}

/// Returns fault 21 if a result set has the name, and the search must not replace it (Z39.50-2003, 3.2.2.1.3).
fn kept_fault(sets: &ResultSets, replaces: bool, name: &Bytes) -> Result<Option<Fault>, AllocError>
    ensures { (databases : List Database)
        → IfOk result (λ f. f ≡ kept_fault replaces name.now (set_named (sets_of databases sets.now) name.now)) }
{
    match sets.hits_of(name) {
        Some(_) if !replaces => Ok(Some(Fault {
            condition: 21,
            info: name.clone()?,
        })),
        _ => Ok(None),
    }
}

/// Returns the first fault of a search with a type-1 query: of its result set's name, of its databases, of its query.
fn type_1_fault(
    alloc: Global,
    databases: &[Indexed],
    sets: &ResultSets,
    terms: Terms,
    request: &SearchRequest,
    query: &Query,
) -> Result<Option<Fault>, AllocError>
    ensures { IfOk result (λ f. f ≡ search_fault databases.now (sets_of databases.now sets.now)
        (terms_of terms) request.now (Rpn query.now)) }
{
    let name = &request.result_set_name;
    if let Some(fault) = name_fault(terms.named, name)? {
        return Ok(Some(fault));
    }
    if let Some(fault) = kept_fault(sets, request.replace_indicator, name)? {
        return Ok(Some(fault));
    }
    match_fault(alloc, databases, request.database_names.as_slice(), query)
}

/// Returns the first fault of a search. A query of another type is fault 107.
pub(crate) fn search_fault(
    alloc: Global,
    databases: &[Indexed],
    sets: &ResultSets,
    terms: Terms,
    request: &SearchRequest,
) -> Result<Option<Fault>, AllocError>
    ensures { IfOk result (λ f. f ≡ search_fault databases.now (sets_of databases.now sets.now)
        (terms_of terms) request.now request.now.query) }
{
    match &request.query {
        SearchQuery::Rpn(query) => type_1_fault(alloc, databases, sets, terms, request, query),
        SearchQuery::Other(_) => Ok(Some(Fault {
            condition: 107,
            info: Bytes::new(),
        })),
    }
}
