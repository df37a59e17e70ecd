//! One search for all questions of a world, in place of what their lines say.

ghost use Rattle.std.specs.Prelude.{◌≡◌, IfOk, IfErr};
ghost use Rattle.std.specs.Option.{option_map};
ghost use Rattle.zmeta_world.specs.declared.search.SearchError.TheVariants.{Memory};
ghost use Rattle.zmeta_world.specs.InMemoryRuns.{IsFit};
ghost use Rattle.zmeta_world.specs.Search.{dotted_syntax, search_texts, error_of, ReadQueryResult, ReadRecordsResult, ReadSyntaxResult, IsParsedSearch, asked_with, AreAskedBy, IsReadable, IsWorldWith, IsSearchFault, HasNoFault};

use crate::world::fault::LineFault;
use crate::world::line::syntax_of;
use crate::world::wanted::wanted_of;
use crate::world::{AskedQuestion, World};
use bytes::Bytes;
use std::alloc::{AllocError, AllocFailed, Global};
use zber::{Oid, Seq};
use zoom_questions::Question;
use zplan::Range;
use zquery::laws::one_answer;
use zquery::{PqfError, PqfErrorKind, Query, parse_pqf};

/// What is put to every question of a world, as texts. `None` leaves what the question's line says.
#[derive(Clone, Copy)]
pub struct Search<'a> {
    /// The query, in the prefix notation.
    pub query: Option<&'a [u8]>,
    /// The wanted positions, as in an `ask` line: a number, or ranges as `1-3,10-12`.
    pub records: Option<&'a [u8]>,
    /// The element set name.
    pub elements: Option<&'a [u8]>,
    /// The record syntax: a name as `marc21`, an object identifier of at most 1,000 arcs, or `-` for none.
    pub syntax: Option<&'a [u8]>,
}

/// Why a search cannot be put to the questions.
#[derive(Clone, Copy, PartialEq, Eq)]
pub enum SearchError {
    /// The text is no query, for this reason at this octet of it.
    Query { kind: PqfErrorKind, at: usize },
    /// The text names no wanted positions.
    Records,
    /// The text is no record syntax.
    Syntax,
    /// No memory was found.
    Memory,
}

impl From<AllocError> for SearchError {
    ghost from_gives = { λ _ e. e ≡ Memory };

    fn from(_: AllocError) -> SearchError {
        SearchError::Memory
    }
}

impl<T: Drop> From<AllocFailed<T>> for SearchError {
    ghost from_gives = { λ _ e. e ≡ Memory };

    fn from(_: AllocFailed<T>) -> SearchError {
        SearchError::Memory
    }
}

/// The parts of a search, read from their texts.
#[derive(Drop)]
struct Parsed {
    query: Option<Query>,
    wanted: Option<Seq<Range>>,
    elements: Option<Bytes>,
    syntax: Option<Option<Oid>>,
}

/// Returns the object identifier, in dotted form, that a name of a record syntax stands for. Any other text stands for
/// itself.
#[tactic(auto, unfolding(crate::specs::Search::dotted_syntax))]
pub fn dotted_syntax(text: &[u8]) -> &[u8]
    ensures { result.now ≡ dotted_syntax text.entry.now }
{
    if text == b"marc21".as_slice() {
        b"1.2.840.10003.5.10".as_slice()
    } else if text == b"unimarc".as_slice() {
        b"1.2.840.10003.5.1".as_slice()
    } else if text == b"sutrs".as_slice() {
        b"1.2.840.10003.5.101".as_slice()
    } else if text == b"opac".as_slice() {
        b"1.2.840.10003.5.102".as_slice()
    } else if text == b"grs1".as_slice() {
        b"1.2.840.10003.5.105".as_slice()
    } else if text == b"xml".as_slice() {
        b"1.2.840.10003.5.109.10".as_slice()
    } else {
        text
    }
}

/// Reads the query, if there is a text. Returns `Query`, with the mistake and its octet, if the text is no query in
/// prefix notation, and `Memory` if no memory is found.
fn read_query(alloc: Global, text: Option<&[u8]>) -> Result<Option<Query>, SearchError>
    ensures { ReadQueryResult (option_map (λ text. text.now) text.entry) result }
{
    let Some(text) = text else {
        return Ok(None);
    };
    match parse_pqf(alloc, text) {
        Ok(query) => Ok(Some(query)),
        Err(error) => Err(error_of(error)),
    }
}

/// Returns the error of a search for an error of the prefix notation.
fn error_of(error: PqfError) -> SearchError
    ensures { result ≡ error_of error }
{
    match error.kind {
        PqfErrorKind::Memory => SearchError::Memory,
        kind => SearchError::Query { kind, at: error.at },
    }
}

/// Reads the wanted positions, if there is a text. Returns `Records` if the text is none of positions, and `Memory` if
/// no memory is found.
fn read_records(alloc: Global, text: Option<&[u8]>) -> Result<Option<Seq<Range>>, SearchError>
    ensures { ReadRecordsResult (option_map (λ text. text.now) text.entry) result }
{
    let Some(text) = text else {
        return Ok(None);
    };
    match wanted_of(alloc, text) {
        Ok(wanted) => Ok(Some(wanted)),
        Err(LineFault::Refused) => Err(SearchError::Records),
        Err(LineFault::Memory) => Err(SearchError::Memory),
    }
}

/// Copies the element set name, if there is a text.
fn read_elements(alloc: Global, text: Option<&[u8]>) -> Result<Option<Bytes>, AllocError>
    ensures { IfOk result (λ elements. elements ≡ option_map (λ text. text.now) text.entry) }
{
    match text {
        Some(text) => Ok(Some(Bytes::copy_from_slice(alloc, text)?)),
        None => Ok(None),
    }
}

/// Reads the record syntax, if there is a text. Returns `Syntax` if the text is none of a syntax, and `Memory` if no
/// memory is found.
fn read_syntax(alloc: Global, text: Option<&[u8]>) -> Result<Option<Option<Oid>>, SearchError>
    ensures { ReadSyntaxResult (option_map (λ text. text.now) text.entry) result }
{
    let Some(text) = text else {
        return Ok(None);
    };
    match syntax_of(alloc, dotted_syntax(text)) {
        Ok(syntax) => Ok(Some(syntax)),
        Err(LineFault::Refused) => Err(SearchError::Syntax),
        Err(LineFault::Memory) => Err(SearchError::Memory),
    }
}

/// Reads the parts of a search.
fn read_search(alloc: Global, search: &Search<'_>) -> Result<Parsed, SearchError>
    ensures ok { IfOk result (IsParsedSearch (search_texts search.now)) }
    ensures err { IfErr result (IsSearchFault (search_texts search.now)) }
{
    let query = read_query(alloc, search.query)?;
    let wanted = read_records(alloc, search.records)?;
    let syntax = read_syntax(alloc, search.syntax)?;
    let elements = read_elements(alloc, search.elements)?;
    Ok(Parsed {
        query,
        wanted,
        elements,
        syntax,
    })
}

/// Checks that no text of a search is at fault.
#[tactic(auto, using(crate::proofs::Searching::readable, crate::proofs::Searching::no_fault))]
fn check_search(alloc: Global, search: &Search<'_>) -> Result<(), SearchError>
    ensures readable { IfOk result (λ _. IsReadable (search_texts search.now)) }
    ensures no_fault { IfOk result (λ _. HasNoFault (search_texts search.now)) }
    ensures err { IfErr result (IsSearchFault (search_texts search.now)) }
{
    let parsed = read_search(alloc, search)?;
    one_answer();
    drop(parsed);
    Ok(())
}

/// Puts the parts of a search to a question.
fn asked_with(asked: AskedQuestion, parsed: Parsed) -> AskedQuestion
    ensures { result ≡ asked_with parsed asked }
{
    let AskedQuestion {
        line,
        name,
        end,
        question,
    } = asked;
    let Question {
        databases,
        query,
        syntax,
        elements,
        wanted,
    } = question;
    let Parsed {
        query: other_query,
        wanted: other_wanted,
        elements: other_elements,
        syntax: other_syntax,
    } = parsed;
    AskedQuestion {
        line,
        name,
        end,
        question: Question {
            databases,
            query: other_query.unwrap_or(query),
            syntax: other_syntax.unwrap_or(syntax),
            elements: other_elements.or(elements),
            wanted: other_wanted.unwrap_or(wanted),
        },
    }
}

/// Puts a search to each of the questions.
fn put_search(
    alloc: Global,
    questions: Vec<AskedQuestion>,
    search: &Search<'_>,
) -> Result<Vec<AskedQuestion>, SearchError>
    ensures ok { IfOk result (λ put. AreAskedBy (search_texts search.now) questions.items put.items) }
    ensures err { IfErr result (IsSearchFault (search_texts search.now)) }
{
    let mut put = Vec::new(alloc);
    for asked in questions {
        let parsed = read_search(alloc, search)?;
        put.push(asked_with(asked, parsed))?;
    }
    Ok(put)
}

impl World {
    /// Puts a search to every question, in place of what its line says. What the search leaves out stays as the line
    /// says.
    ///
    /// Requires a world that `read_world` returned. The result can be planned as that world can.
    ///
    /// `Query`, `Records` and `Syntax` say which text is at fault, also if there is no question: no text is at fault
    /// after `Ok`. `Memory` if no memory is found.
    pub fn with_search(self, alloc: Global, search: &Search<'_>) -> Result<World, SearchError>
        requires { IsFit self }
        ensures put { IfOk result (IsWorldWith (search_texts search.now) self) }
        ensures fit { IfOk result IsFit }
        ensures no_fault { IfOk result (λ _. HasNoFault (search_texts search.now)) }
        ensures err { IfErr result (IsSearchFault (search_texts search.now)) }
    {
        check_search(alloc, search)?;
        let World {
            step,
            window,
            targets,
            hosts,
            questions,
            moves,
        } = self;
        let questions = put_search(alloc, questions.into_vec(), search)?;
        Ok(World {
            step,
            window,
            targets,
            hosts,
            questions: Seq::from_vec(questions),
            moves,
        })
    }
}
