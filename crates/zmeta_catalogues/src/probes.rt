//! Whether a text can stand in a search: a search with it is put to a world without questions.

ghost use Rattle.std.specs.Prelude.{◌≡◌, IfOk};
ghost use Rattle.std.specs.Option.{is_some};
ghost use Rattle.zmeta_world.specs.InMemoryRuns.{IsFit};
ghost use Rattle.zmeta_world.specs.WorldWants.{wanted_of};
ghost use Rattle.zmeta_world.specs.WorldLines.{syntax_of};
ghost use Rattle.zmeta_world.specs.Search.{dotted_syntax};

use std::alloc::{AllocError, Global};
use zber::Seq;
use zmeta_world::search::{Search, SearchError};
use zmeta_world::world::World;

/// Returns a world without questions.
fn empty_world(alloc: Global) -> World
    ensures { IsFit result }
{
    World {
        step: 10,
        window: 4,
        targets: Seq::from_vec(Vec::new(alloc)),
        hosts: Seq::from_vec(Vec::new(alloc)),
        questions: Seq::from_vec(Vec::new(alloc)),
        moves: Seq::from_vec(Vec::new(alloc)),
    }
}

/// Returns whether the text is wanted positions, as in a world file. `AllocError` if no memory is found.
pub(crate) fn are_records(alloc: Global, text: &[u8]) -> Result<bool, AllocError>
    ensures { IfOk result (λ are. are ≡ is_some (wanted_of text.now)) }
{
    let search = Search {
        query: None,
        records: Some(text),
        elements: None,
        syntax: None,
    };
    match empty_world(alloc).with_search(alloc, &search) {
        Ok(_) => Ok(true),
        Err(SearchError::Records) => Ok(false),
        Err(_) => Err(AllocError),
    }
}

/// Returns whether the text is a record syntax: a name, an object identifier, or `-` for none. `AllocError` if no
/// memory is found.
pub(crate) fn is_syntax(alloc: Global, text: &[u8]) -> Result<bool, AllocError>
    ensures { IfOk result (λ is. is ≡ is_some (syntax_of (dotted_syntax text.now))) }
{
    let search = Search {
        query: None,
        records: None,
        elements: None,
        syntax: Some(text),
    };
    match empty_world(alloc).with_search(alloc, &search) {
        Ok(_) => Ok(true),
        Err(SearchError::Syntax) => Ok(false),
        Err(_) => Err(AllocError),
    }
}
