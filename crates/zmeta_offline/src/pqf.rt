//! The command `pqf`: a query in the prefix notation, printed with its encoding.
ghost use Rattle.std.specs.Prelude.{◌≡◌, ℕ, List, [], ◌++◌, Some, None, OnOk, IfOk, IfErr};
ghost use Rattle.std.specs.Option.{unwrap_or};
ghost use Rattle.zber.specs.Elements.{Element};
ghost use Rattle.zquery.specs.Notation.Printing.{query_text};
ghost use Rattle.zquery.specs.Element.Type1.{WritesQuery};
ghost use Rattle.zquery.specs.Element.Type1Reading.{query_spelling};
ghost use Rattle.zmeta_args.specs.Texts.{now_of};
ghost use Rattle.zmeta_searches.specs.Searches.{copied_texts};
ghost use Rattle.zmeta_offline.specs.Pqf.{IsQueryOf, element_text, queried_text, told_text, PutBothResult, PutQueryResult, PqfResult, AfterPqf};
ghost use Rattle.zmeta_devices.specs.Devices.{output_device, outputs};

use std::alloc::{AllocError, Global};
use std::io::Write;
use zapdu::put_node;
use zber::{Node, Tag};
use zmeta_args::SearchOptions;
use zmeta_devices::fault::{Fault, Status, end_done};
use zmeta_devices::output::Output;
use zmeta_searches::{SearchCopy, copy_search};
use zquery::laws::{text_printable, text_spellable};
use zquery::{BuildError, PrintError, Query, parse_pqf, print_pqf, to_node};

/// Prints two lines for a query in the prefix notation: the query, and its encoding in hexadecimal. The query is that
/// of the text, or, without a text, that of the options, as `zmeta_searches::copy_search` makes it.
/// The encoding is the element `[21]` of a SearchRequest, around the element that `zquery::to_node` makes.
///
/// If there is no query, prints nothing and writes the reason on `errors`: the text is none, nothing is left of a term
/// of the options, or they have neither a query nor a term.
pub fn pqf<'a, 'o: 'a, W: Write, E: Write>(
    alloc: Global,
    text: Option<&'a str>,
    search: &SearchOptions<'a>,
    output: &mut Output<'o, W>,
    errors: &mut Output<'_, E>,
) -> Status
    ensures { AfterPqf (now_of text.entry) search.now (outputs W.contents E.contents output.old errors.old)
        (outputs W.contents E.contents output.new errors.new) result }
{
    let answer = pqf_given(alloc, text, search, output);
    end_done(answer, errors)
}

/// Prints both lines for a text, or else for the options.
fn pqf_given<'a, 'o: 'a, W: Write>(
    alloc: Global,
    text: Option<&'a str>,
    search: &SearchOptions<'a>,
    output: &mut Output<'o, W>,
) -> Result<(), Fault<'a>>
    ensures printed { PqfResult (told_text (now_of text.entry) search.now) (queried_text (now_of text.entry) search.now)
        (output_device W.contents output.old) (output_device W.contents output.new) result }
{
    match text {
        Some(text) => pqf_text(alloc, text, output),
        None => pqf_options(alloc, search, output),
    }
}

/// Prints both lines for a text.
fn pqf_text<'a, 'o: 'a, W: Write>(
    alloc: Global,
    text: &'a str,
    output: &mut Output<'o, W>,
) -> Result<(), Fault<'a>>
    ensures printed { PqfResult (Some text.entry.now) text.entry.now (output_device W.contents output.old)
        (output_device W.contents output.new) result }
{
    let mut lines = Vec::new(alloc);
    match put_query(alloc, text.as_bytes(), &mut lines) {
        Ok(()) => output.put(lines.as_slice()),
        Err(fault) => Err(fault.of_text(text)),
    }
}

/// Prints both lines for the query of the options.
fn pqf_options<'a, 'o: 'a, W: Write>(
    alloc: Global,
    search: &SearchOptions<'a>,
    output: &mut Output<'o, W>,
) -> Result<(), Fault<'a>>
    ensures printed { PqfResult (now_of search.now.query) (queried_text None search.now)
        (output_device W.contents output.old) (output_device W.contents output.new) result }
{
    let mut lines = Vec::new(alloc);
    match put_asked(alloc, search, &mut lines) {
        Ok(()) => output.put(lines.as_slice()),
        Err(fault) => Err(fault.of_options(search)),
    }
}

/// Appends both lines for the query of the options.
fn put_asked(
    alloc: Global,
    search: &SearchOptions<'_>,
    lines: &mut Vec<u8>,
) -> Result<(), Fault<'static>>
    ensures { PutQueryResult (queried_text None search.now) lines.old.items lines.new.items result }
{
    let copy = copy_search(alloc, search)?;
    let put = put_query(alloc, query_of(&copy), lines);
    drop(copy);
    put
}

/// Returns the query of a search, or else the empty text, which is no query.
fn query_of(copy: &SearchCopy) -> &[u8]
    ensures { result.now ≡ unwrap_or (copied_texts copy.now).query [] }
{
    match &copy.query {
        Some(text) => text.as_slice(),
        None => b"".as_slice(),
    }
}

/// Appends both lines for a text.
fn put_query(alloc: Global, text: &[u8], lines: &mut Vec<u8>) -> Result<(), Fault<'static>>
    ensures { PutQueryResult text.now lines.old.items lines.new.items result }
{
    let query = parse_pqf(alloc, text)?;
    let put = put_both(alloc, &query, lines);
    drop(query);
    put
}

/// Appends both lines for a query that was read from a text.
#[tactic(auto, unfolding(crate::specs::Pqf::query_lines))]
fn put_both(alloc: Global, query: &Query, lines: &mut Vec<u8>) -> Result<(), Fault<'static>>
    requires { (text : List ℕ) × IsQueryOf text query.now }
    ensures { PutBothResult query.now lines.old.items lines.new.items result }
{
    put_text(alloc, query, lines)?;
    lines.extend_from_slice(b"\n")?;
    let node = node_of(alloc, query)?;
    put_element(alloc, node, lines)?;
    lines.extend_from_slice(b"\n")?;
    Ok(())
}

/// Appends the printed query. A query that was read from a text can always be printed.
fn put_text(alloc: Global, query: &Query, lines: &mut Vec<u8>) -> Result<(), PrintError>
    requires { (text : List ℕ) × IsQueryOf text query.now }
    ensures ok { OnOk result (lines.new.items ≡ lines.old.items ++ query_text query.now) }
    ensures memory { IfErr result (λ e. e ≡ PrintError.Memory) }
{
    text_printable();
    print_pqf(alloc, query, lines)
}

/// Returns the element of a query. A query that was read from a text always has one.
fn node_of(alloc: Global, query: &Query) -> Result<Node, BuildError>
    requires { (text : List ℕ) × IsQueryOf text query.now }
    ensures written { IfOk result (WritesQuery query.now) }
    ensures spelled { IfOk result (λ node. query_spelling query.now ≡ Some node) }
    ensures memory { IfErr result (λ e. e ≡ BuildError.Memory) }
{
    text_spellable();
    to_node(alloc, query)
}

/// Appends the element `[21]` around an element, in hexadecimal.
fn put_element(alloc: Global, node: Node, lines: &mut Vec<u8>) -> Result<(), AllocError>
    ensures { OnOk result (lines.new.items ≡ lines.old.items ++ element_text node) }
{
    let mut nodes = Vec::new(alloc);
    nodes.push(node)?;
    let outer = Node::cons(Tag::context(21), nodes);
    put_node(alloc, &outer, lines)
}
