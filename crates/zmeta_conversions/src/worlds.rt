//! The world file of a world.

ghost use Rattle.std.specs.Prelude.{◌≡◌, ◌++◌, true, false, Some, None, Err, IfOk, IfErr, OnOk};
ghost use Rattle.std.specs.List.{flat_map};
ghost use Rattle.zquery.specs.Notation.Printing.{printable, query_text};
ghost use Rattle.zquery.specs.Notation.Texts.{IsText};
ghost use Rattle.zquery.specs.declared.notation.print.PrintError.TheVariants.{NotPrintable};
ghost use Rattle.zmeta_conversions.specs.declared.worlds.WorldFileError.TheVariants.{Memory};
ghost use Rattle.zmeta_conversions.specs.Worlds.{host_text, ask_text, wants_text, host_line, ask_line, world_text, unsaid_host, unsaid_question, first_unsaid, unsaid, AreReadable, IsSyntax, IsReadable, IsUnsaid, PutResult, IsSaid, ended};

use crate::tokens::{has_feed, put_all_quoted, put_number_line, put_quoted, put_syntax};
use crate::wants::put_wanted;
use bytes::Bytes;
use std::alloc::{AllocError, Global};
use zmeta_world::world::{AskedQuestion, NamedHost, World};
use zquery::{PrintError, Query, print_pqf};

/// Why a world file cannot say a host or a question.
#[derive(Clone, Copy, PartialEq, Eq)]
pub enum Unsaid {
    /// The question goes to several databases, or to none.
    Databases,
    /// The question asks for an element set name.
    Elements,
    /// The prefix notation has no text for the query.
    Query,
    /// A line feed is in the name, the address, the database or the query.
    LineFeed,
}

/// Why a world has no world file.
#[derive(Drop)]
pub enum WorldFileError {
    /// The host or question of this name cannot be said, for this reason.
    Unsaid { name: Bytes, reason: Unsaid },
    /// No memory was found.
    Memory,
}

impl From<AllocError> for WorldFileError {
    ghost from_gives = { λ _ e. e ≡ Memory };

    fn from(_: AllocError) -> WorldFileError {
        WorldFileError::Memory
    }
}

/// Returns the error for what has this name, and cannot be said for this reason.
fn fault_of(name: &Bytes, reason: Unsaid) -> WorldFileError
    ensures { IsUnsaid (Some (name.now, reason)) result }
{
    match name.clone() {
        Ok(name) => WorldFileError::Unsaid { name, reason },
        Err(_) => WorldFileError::Memory,
    }
}

/// Returns the line of a host.
fn host_text(alloc: Global, host: &NamedHost) -> Result<Vec<u8>, AllocError>
    ensures { IfOk result (λ text. text.items ≡ host_text host.now) }
{
    let mut text = Vec::new(alloc);
    text.extend_from_slice(b"host ")?;
    put_quoted(host.name.as_slice(), &mut text)?;
    text.extend_from_slice(b" ")?;
    put_quoted(host.address.as_slice(), &mut text)?;
    Ok(text)
}

/// Appends a line, with its end.
fn put_line(line: &[u8], out: &mut Vec<u8>) -> Result<(), AllocError>
    ensures { OnOk result (out.new.items ≡ out.old.items ++ ended line.now) }
{
    out.extend_from_slice(line)?;
    out.extend_from_slice(b"\n")
}

/// Appends the line of a host.
#[tactic(auto, using(crate::proofs::Reasons::host_refused, crate::proofs::Reasons::host_put))]
fn put_host(alloc: Global, host: &NamedHost, out: &mut Vec<u8>) -> Result<(), WorldFileError>
    ensures { PutResult (unsaid_host host.now) (host_line host.now) out.old.items out.new.items result }
{
    let text = host_text(alloc, host)?;
    if has_feed(text.as_slice()) {
        return Err(fault_of(&host.name, Unsaid::LineFeed));
    }
    Ok(put_line(text.as_slice(), out)?)
}

/// Appends the lines of hosts.
fn put_hosts(alloc: Global, hosts: &[NamedHost], out: &mut Vec<u8>) -> Result<(), WorldFileError>
    ensures { PutResult (first_unsaid unsaid_host hosts.now) (flat_map host_line hosts.now) out.old.items
        out.new.items result }
{
    for host in hosts {
        put_host(alloc, host, out)?;
    }
    Ok(())
}

/// Returns the text of a query.
pub(crate) fn query_text(alloc: Global, query: &Query) -> Result<Vec<u8>, PrintError>
    ensures ok { IfOk result (λ text. text.items ≡ query_text query.now) }
    ensures printable { OnOk result (printable query.now ≡ true) }
    ensures reads { OnOk result (IsText (query_text query.now) query.now) }
    ensures refused { result ≡ Err NotPrintable → printable query.now ≡ false }
{
    let mut text = Vec::new(alloc);
    match print_pqf(alloc, query, &mut text) {
        Ok(()) => Ok(text),
        Err(error) => Err(error),
    }
}

/// Returns how a question wants its records, and this text of its query.
fn wants_text(alloc: Global, asked: &AskedQuestion, query: &[u8]) -> Result<Vec<u8>, AllocError>
    requires { query.now ≡ query_text asked.now.question.query }
    ensures text { IfOk result (λ text. text.items ≡ wants_text asked.now) }
    ensures oid { IsSyntax asked.now.question.syntax }
{
    let mut text = Vec::new(alloc);
    put_syntax(alloc, &asked.question.syntax, &mut text)?;
    text.extend_from_slice(b" ")?;
    put_wanted(alloc, asked.question.wanted.as_slice(), &mut text)?;
    text.extend_from_slice(b" ")?;
    put_quoted(query, &mut text)?;
    Ok(text)
}

/// Returns the line of a question, with this text of its query.
fn ask_text(alloc: Global, asked: &AskedQuestion, query: &[u8]) -> Result<Vec<u8>, AllocError>
    requires { query.now ≡ query_text asked.now.question.query }
    ensures text { IfOk result (λ text. text.items ≡ ask_text asked.now) }
    ensures oid { IsSyntax asked.now.question.syntax }
{
    let wants = wants_text(alloc, asked, query)?;
    let mut text = Vec::new(alloc);
    text.extend_from_slice(b"ask ")?;
    put_quoted(asked.name.as_slice(), &mut text)?;
    text.extend_from_slice(b" ")?;
    put_all_quoted(asked.question.databases.as_slice(), &mut text)?;
    text.extend_from_slice(b" ")?;
    text.extend_from_slice(wants.as_slice())?;
    Ok(text)
}

/// Returns the line of a question, if it can be said.
#[tactic(auto, using(crate::proofs::Reasons::question_results))]
fn said_text(alloc: Global, asked: &AskedQuestion) -> Result<Vec<u8>, WorldFileError>
    ensures ok { IfOk result (λ text. IsSaid asked.now text.items) }
    ensures err { IfErr result (IsUnsaid (unsaid_question asked.now)) }
{
    if asked.question.databases.len() != 1 {
        return Err(fault_of(&asked.name, Unsaid::Databases));
    }
    if asked.question.elements.is_some() {
        return Err(fault_of(&asked.name, Unsaid::Elements));
    }
    let query = match query_text(alloc, &asked.question.query) {
        Ok(query) => query,
        Err(PrintError::NotPrintable) => return Err(fault_of(&asked.name, Unsaid::Query)),
        Err(PrintError::Memory) => return Err(WorldFileError::Memory),
    };
    let text = ask_text(alloc, asked, query.as_slice())?;
    if has_feed(text.as_slice()) {
        return Err(fault_of(&asked.name, Unsaid::LineFeed));
    }
    Ok(text)
}

/// Appends the line of a question.
#[tactic(auto, using(crate::proofs::Reasons::question_put, crate::proofs::Reasons::question_readable))]
fn put_question(
    alloc: Global,
    asked: &AskedQuestion,
    out: &mut Vec<u8>,
) -> Result<(), WorldFileError>
    ensures put { PutResult (unsaid_question asked.now) (ask_line asked.now) out.old.items out.new.items result }
    ensures readable { OnOk result (IsReadable asked.now) }
{
    let text = said_text(alloc, asked)?;
    Ok(put_line(text.as_slice(), out)?)
}

/// Appends the lines of questions.
fn put_questions(
    alloc: Global,
    questions: &[AskedQuestion],
    out: &mut Vec<u8>,
) -> Result<(), WorldFileError>
    ensures put { PutResult (first_unsaid unsaid_question questions.now) (flat_map ask_line questions.now)
        out.old.items out.new.items result }
    ensures readable { OnOk result (AreReadable questions.now) }
{
    for asked in questions {
        put_question(alloc, asked, out)?;
    }
    Ok(())
}

/// Returns the world file of a world whose questions go to hosts: its step, its window, its hosts and its questions, a
/// line each.
///
/// `Unsaid` names the first host that a world file cannot say, or else the first question. `Memory` if no memory is
/// found.
pub fn world_file(alloc: Global, world: &World) -> Result<Vec<u8>, WorldFileError>
    ensures text { IfOk result (λ text. text.items ≡ world_text world.now) }
    ensures said { OnOk result (unsaid world.now ≡ None) }
    ensures readable { OnOk result (AreReadable world.now.questions) }
    ensures err { IfErr result (IsUnsaid (unsaid world.now)) }
{
    let mut text = Vec::new(alloc);
    put_number_line(alloc, b"step", world.step, &mut text)?;
    put_number_line(alloc, b"window", world.window, &mut text)?;
    put_hosts(alloc, world.hosts.as_slice(), &mut text)?;
    put_questions(alloc, world.questions.as_slice(), &mut text)?;
    Ok(text)
}
