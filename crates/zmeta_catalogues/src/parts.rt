//! The question of a search to one catalogue.

ghost use Rattle.std.specs.Prelude.{◌≡◌, ◌∷◌, [], IfOk, IfErr};
ghost use Rattle.std.specs.Option.{option_map, option_or};
ghost use Rattle.zoom_questions.specs.Askable.{IsAskable};
ghost use Rattle.zmeta_world.specs.InMemoryRuns.{IsFit};
ghost use Rattle.zmeta_world.specs.Search.{search_texts};
ghost use Rattle.zmeta_catalogues.specs.Asked.{asked_search, records_for, IsAsked};
ghost use Rattle.zmeta_catalogues.specs.AskErrors.{IsAskError};
ghost use Rattle.zmeta_catalogues.specs.Parts.{texts_for, question_to, IsLastQuestion, IsPutError, IsPutQuestion};

use crate::asked_query::asked_query;
use crate::catalogue::Catalogue;
use crate::search::{AskError, CatalogueSearch};
use bytes::Bytes;
use std::alloc::{AllocError, Global};
use zber::Seq;
use zmeta_world::search::{Search, SearchError};
use zmeta_world::world::{AskedQuestion, End, World};
use zoom_questions::Question;
use zquery::Query;

/// Returns a text, or else that of the catalogue.
fn text_or<'a>(given: Option<&'a [u8]>, own: &'a Option<Bytes>) -> Option<&'a [u8]>
    ensures { option_map (λ text. text.now) result
        ≡ option_or (option_map (λ text. text.now) given.entry) own.entry.now }
{
    match given {
        Some(text) => Some(text),
        None => match own {
            Some(text) => Some(text.as_slice()),
            None => None,
        },
    }
}

/// Returns the wanted positions: those of the search, or else the catalogue's, or else the first ten.
fn records_for<'a>(search: &CatalogueSearch<'a>, catalogue: &'a Catalogue) -> &'a [u8]
    ensures { result.now ≡ records_for (asked_search search.now) catalogue.now }
{
    match text_or(search.records, &catalogue.settings.records) {
        Some(text) => text,
        None => b"10".as_slice(),
    }
}

/// Returns what is put to the question of a catalogue: all but the query.
fn texts_for<'a>(search: &CatalogueSearch<'a>, catalogue: &'a Catalogue) -> Search<'a>
    ensures { search_texts result ≡ texts_for (asked_search search.now) catalogue.now }
{
    Search {
        query: None,
        records: Some(records_for(search, catalogue)),
        elements: text_or(search.elements, &catalogue.settings.elements),
        syntax: text_or(search.syntax, &catalogue.settings.syntax),
    }
}

/// Returns names, in the same memory.
fn copies(alloc: Global, names: &[Bytes]) -> Result<Seq<Bytes>, AllocError>
    ensures { IfOk result (λ copies. copies ≡ names.now) }
{
    let mut copies = Vec::new(alloc);
    'names: for name in names {
        copies.push(name.clone()?)?;
    }
    Ok(Seq::from_vec(copies))
}

/// Returns the question to a catalogue, the host of this number, that wants no positions.
fn question_to(
    alloc: Global,
    catalogue: &Catalogue,
    at: usize,
    query: Query,
) -> Result<AskedQuestion, AllocError>
    ensures { IfOk result (λ q. q ≡ question_to catalogue.now at query) }
{
    let databases = copies(alloc, catalogue.databases.as_slice())?;
    Ok(AskedQuestion {
        line: catalogue.line,
        name: catalogue.name.clone()?,
        end: End::Host(at),
        question: Question {
            databases,
            query,
            syntax: None,
            elements: None,
            wanted: Seq::from_vec(Vec::new(alloc)),
        },
    })
}

/// Returns a world with this question alone.
fn world_of(alloc: Global, question: AskedQuestion) -> Result<World, AllocError>
    requires { IsAskable question.question }
    ensures fit { IfOk result IsFit }
    ensures questions { IfOk result (λ world. world.questions ≡ question ∷ []) }
{
    let mut questions = Vec::new(alloc);
    questions.push(question)?;
    Ok(World {
        step: 10,
        window: 4,
        targets: Seq::from_vec(Vec::new(alloc)),
        hosts: Seq::from_vec(Vec::new(alloc)),
        questions: Seq::from_vec(questions),
        moves: Seq::from_vec(Vec::new(alloc)),
    })
}

/// Returns the last question of a world, if it has any.
fn last_question(world: World) -> Option<AskedQuestion>
    ensures { IsLastQuestion world.questions result }
{
    let World { questions, .. } = world;
    let mut questions = questions.into_vec();
    questions.pop()
}

/// Puts what is wanted of the records to a question of a catalogue.
///
/// `Records` and `Syntax` if the text is none. `Memory` if no memory is found.
fn put_search(
    alloc: Global,
    search: &CatalogueSearch<'_>,
    catalogue: &Catalogue,
    question: AskedQuestion,
) -> Result<AskedQuestion, AskError>
    requires { IsAskable question.question }
    ensures ok { IfOk result (IsPutQuestion (texts_for (asked_search search.now) catalogue.now) question) }
    ensures err { IfErr result (IsPutError (asked_search search.now) catalogue.now) }
{
    let texts = texts_for(search, catalogue);
    let one = world_of(alloc, question)?;
    let put = match one.with_search(alloc, &texts) {
        Ok(world) => world,
        Err(SearchError::Records) => return Err(AskError::Records),
        Err(SearchError::Syntax) => return Err(AskError::Syntax),
        Err(_) => return Err(AskError::Memory),
    };
    match last_question(put) {
        Some(last) => Ok(last),
        None => Err(AskError::Memory),
    }
}

/// Returns the question of a search to a catalogue, which is the host of this number.
///
/// `Records` and `Syntax` if the text is none. The other errors are those of `asked_query`.
#[tactic(auto, using(crate::proofs::OneQuestion::asked, crate::proofs::OneQuestion::put_error, crate::proofs::OneQuestion::query_error))]
pub(crate) fn asked_question(
    alloc: Global,
    search: &CatalogueSearch<'_>,
    catalogue: &Catalogue,
    at: usize,
) -> Result<AskedQuestion, AskError>
    ensures ok { IfOk result (IsAsked (asked_search search.now) at catalogue.now) }
    ensures askable { IfOk result (λ q. IsAskable q.question) }
    ensures err { IfErr result (IsAskError (asked_search search.now) catalogue.now) }
{
    let query = asked_query(alloc, search, catalogue)?;
    let question = question_to(alloc, catalogue, at, query)?;
    put_search(alloc, search, catalogue, question)
}
