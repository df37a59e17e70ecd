//! What a target finds for a query.
ghost use Rattle.std.specs.Prelude.{◌≡◌, ◌<◌, ◌^◌, None, length, map, IfOk, IfErr, OnOk};
ghost use Rattle.zquery_rpn.specs.QueryTrees.{rpn_tree};
ghost use Rattle.ztarget.specs.Faults.{match_fault};
ghost use Rattle.ztarget.specs.Matching.{is_matching_entry};
ghost use Rattle.ztarget.specs.Searching.{entries_in, found_places, result_set};
ghost use Rattle.ztarget.specs.Counting.{places_in};
ghost use Rattle.ztarget.specs.Keeping.{AreAt};
ghost use Rattle.ztarget.specs.Replies.{found_by_query};
ghost use Rattle.ztarget.specs.Receiving.{IsRefusal};

use crate::criterion::criterion_of;
use crate::error::MatchError;
use crate::fault::{Fault, match_fault};
use crate::found::{Hit, hits, places};
use crate::indexed::Indexed;
use crate::searched_databases::searched;
use bytes::Bytes;
use std::alloc::{AllocError, Global};
use zapdu::{SearchQuery, SearchRequest};
use zquery_rpn::Query;

/// Returns the places of the entries that match, counted from 0 through the databases that are named.
#[tactic(auto, using(crate::proofs::FewEntries::few_searched))]
fn found_places(
    alloc: Global,
    databases: &[Indexed],
    names: &[Bytes],
    query: &Query,
) -> Result<Vec<u32>, AllocError>
    requires { length (entries_in databases.now) < 2 ^ 32 }
    ensures { IfOk result (λ places. places.items ≡ found_places databases.now names.now query.now.root) }
{
    let searched = searched(alloc, databases, names)?;
    let criterion = criterion_of(alloc, &query.root)?;
    places(alloc, &criterion, &searched)
}

/// Returns the same, or the first fault of the names and the query.
pub(crate) fn matching_places(
    alloc: Global,
    databases: &[Indexed],
    names: &[Bytes],
    query: &Query,
) -> Result<Vec<u32>, MatchError>
    requires { length (entries_in databases.now) < 2 ^ 32 }
    ensures lawful { OnOk result (match_fault databases.now names.now query.now ≡ None) }
    ensures places { IfOk result (λ places. places.items ≡ found_places databases.now names.now query.now.root) }
    ensures refused { IfErr result (λ e. IsRefusal (match_fault databases.now names.now query.now) e) }
{
    match match_fault(alloc, databases, names, query)? {
        Some(Fault { condition, info }) => Err(MatchError::Code {
            code: condition,
            info,
        }),
        None => Ok(found_places(alloc, databases, names, query)?),
    }
}

/// Returns the hits of a type-1 query, in order.
#[tactic(auto, using(crate::proofs::FewEntries::few_searched))]
fn result_set(
    alloc: Global,
    databases: &[Indexed],
    names: &[Bytes],
    query: &Query,
) -> Result<Vec<Hit>, AllocError>
    requires { length (entries_in databases.now) < 2 ^ 32 }
    ensures { IfOk result (λ hits. AreAt databases.now hits.items (result_set databases.now names.now query.now.root)) }
{
    let searched = searched(alloc, databases, names)?;
    let criterion = criterion_of(alloc, &query.root)?;
    hits(alloc, &criterion, &searched)
}

/// Returns the hits of a search, in order. A query of another type has none.
#[tactic(auto, using(crate::proofs::FewEntries::few_found))]
pub(crate) fn find_hits(
    alloc: Global,
    databases: &[Indexed],
    request: &SearchRequest,
) -> Result<Vec<Hit>, AllocError>
    requires { length (entries_in databases.now) < 2 ^ 32 }
    ensures found { IfOk result (λ hits. AreAt databases.now hits.items
        (found_by_query databases.now request.now request.now.query)) }
    ensures few { IfOk result (λ hits. length hits.items < 2 ^ 32) }
{
    match &request.query {
        SearchQuery::Rpn(query) => {
            result_set(alloc, databases, request.database_names.as_slice(), query)
        }
        SearchQuery::Other(_) => Ok(Vec::new(alloc)),
    }
}
