//! The query of a SearchRequest.
ghost use Rattle.zasn.specs.Reading.{option_map};
ghost use Rattle.zquery_rpn.specs.Element.AnyQueries.{any_query, query_within};
ghost use Rattle.zasn.specs.Results.{MeaningResult};
ghost use Rattle.zapdu.specs.Productions.SearchQueries.{of_sum, search_query};

use std::alloc::Global;
use zasn::{BuildError, PartError, Tagged, sole, write_any, write_around};
use zber::{Node, Tag};
use zquery_rpn::Query;

/// The query of a search (Z39.50-2003, 4.1: Query).
pub enum SearchQuery {
    /// type-1 `[1]`.
    Rpn(Query),
    /// A query of another type: an element with any tag but `[1]`, kept unchanged.
    Other(Node),
}

impl Drop for SearchQuery {
    fn drop(self) {
        match self {
            SearchQuery::Rpn(_) => {}
            SearchQuery::Other(_) => {}
        }
    }
}

/// Reads an element as a query of type 1 if its tag is `[1]`, and otherwise keeps it.
fn query_of(alloc: Global, node: &Node) -> Result<SearchQuery, PartError>
    ensures { MeaningResult (option_map of_sum (any_query node.now)) result }
{
    if node.tag != Tag::context(1) {
        return Ok(SearchQuery::Other(node.copy(alloc)?));
    }
    match zquery_rpn::from_node(alloc, node)? {
        Some(query) => Ok(SearchQuery::Rpn(query)),
        None => Err(PartError::Misfit),
    }
}

/// Reads the one element within an element as a query.
fn query_in(alloc: Global, node: &Node) -> Result<SearchQuery, PartError>
    ensures { MeaningResult (option_map of_sum (query_within node.now)) result }
{
    match sole(node) {
        Some(only) => query_of(alloc, only),
        None => Err(PartError::Misfit),
    }
}

#[tactic(auto, unfolding(crate::specs::Productions::SearchQueries::search_query))]
impl Tagged for SearchQuery {
    ghost place = { search_query };

    fn has(tag: Tag) -> bool {
        tag == Tag::context(21)
    }

    fn of_element(alloc: Global, node: &Node) -> Result<Self, PartError> {
        if node.tag == Tag::context(21) {
            query_in(alloc, node)
        } else {
            Err(PartError::Misfit)
        }
    }

    fn to_element(&self, alloc: Global) -> Result<Node, BuildError> {
        match self {
            SearchQuery::Rpn(query) => {
                let node = zquery_rpn::to_node(alloc, query)?;
                write_around(alloc, node, Tag::context(21))
            }
            SearchQuery::Other(node) => {
                if node.tag == Tag::context(1) {
                    return Err(BuildError::NotSpellable);
                }
                write_any(alloc, node, Tag::context(21))
            }
        }
    }
}
