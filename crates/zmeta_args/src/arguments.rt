//! The arguments of the command line, read with `clap`.

ghost use Rattle.std.specs.Prelude.{◌≡◌, IfOk, IfSome, codes, map, option_map, slice_get, string_bytes};
ghost use Rattle.clap.specs.Words.{kind_of, found_of};
ghost use Rattle.clap.specs.declared.error.kind.ErrorKind.TheVariants.{InvalidValue};
ghost use Rattle.zmeta_args.specs.Arguments.{IsParsed, IsLineOf, AreArgumentsOf};

use crate::forms::command;
use crate::found::{has_flag, limits_of, search_of, values_of, view_of};
use clap::error::ErrorKind;
use clap::{ArgMatches, Command, Error};
use std::alloc::{AllocError, Global};

/// What a command prints of what is known.
#[derive(Clone, Copy, PartialEq, Eq, Drop)]
pub enum View<'a> {
    /// The list, with the octets of records in quotes.
    Text,
    /// The list, with the octets of records in hexadecimal.
    Hex,
    /// The years and titles of the records, for people.
    Titles,
    /// The same, and below each row the fields of its record.
    Fields,
    /// One JSON object for each line of the list, for programs.
    Json,
    /// A page for a browser, under this heading.
    Html { heading: &'a str },
}

/// What is put to every question of a world file, in place of what its line says. What is not given stays as the
/// line says.
#[derive(Drop)]
pub struct SearchOptions<'a> {
    /// A query in the prefix notation.
    pub query: Option<&'a str>,
    /// Words of titles (Use 4 of bib-1). With the terms below they make a query, which `query` excludes.
    pub titles: Vec<&'a str>,
    /// Names of authors (Use 1003).
    pub authors: Vec<&'a str>,
    /// Subjects (Use 21).
    pub subjects: Vec<&'a str>,
    /// ISBNs (Use 7).
    pub isbns: Vec<&'a str>,
    /// ISSNs (Use 8).
    pub issns: Vec<&'a str>,
    /// Years of publication, or spans of them (Use 31).
    pub years: Vec<&'a str>,
    /// Words from anywhere (Use 1016).
    pub any: Vec<&'a str>,
    /// The wanted records: a number, or ranges of positions as `1-3,10-12`.
    pub records: Option<&'a str>,
    /// The element set name.
    pub elements: Option<&'a str>,
    /// The record syntax: a name, or an object identifier.
    pub syntax: Option<&'a str>,
}

/// How long catalogues are waited for, in seconds, and over which addresses they are asked.
#[derive(Clone, Copy, PartialEq, Eq, Drop)]
pub struct LimitOptions {
    /// How long connecting to one may take.
    pub connect: Option<u32>,
    /// How long one may be silent.
    pub patience: Option<u32>,
    /// How long everything may take.
    pub within: Option<u32>,
    /// Whether addresses of IPv4 alone are used.
    pub only_v4: bool,
    /// Whether addresses of IPv6 alone are used.
    pub only_v6: bool,
}

/// A command of the program, with its arguments.
#[derive(Drop)]
pub enum Arguments<'a> {
    /// Print the messages whose hexadecimal digits standard input has.
    Show,
    /// Print the messages of a trace with their times: with the catalogues of these names, or with all if `only` is
    /// empty.
    Dialogue {
        trace: &'a str,
        only: Vec<&'a str>,
    },
    /// Print a query and its encoding: the query of this text, or else that of the terms of `search`.
    Pqf {
        text: Option<&'a str>,
        search: SearchOptions<'a>,
    },
    /// Print what a file of catalogues says, and every mistake of it.
    Catalogues {
        path: &'a str,
    },
    /// Print the world file of what asking the catalogues of a file asks.
    WorldOf {
        catalogues: &'a str,
        search: SearchOptions<'a>,
    },
    /// Print the file of catalogues of a world file whose questions go to hosts.
    CataloguesOf {
        world: &'a str,
    },
    /// Print the list of all facts of saved files: the first, and the others. Save the facts if `saved` is a path; with
    /// `quiet`, that alone is done.
    Join {
        first: &'a str,
        others: Vec<&'a str>,
        saved: Option<&'a str>,
        quiet: bool,
        view: View<'a>,
    },
    /// Print what the later of two saved files has that the earlier one has not.
    New {
        earlier: &'a str,
        later: &'a str,
        view: View<'a>,
    },
    /// Ask the targets of a world file in memory, and print the list. Save the facts if `saved` is a path.
    Run {
        world: &'a str,
        saved: Option<&'a str>,
        search: SearchOptions<'a>,
        view: View<'a>,
    },
    /// Write the records of saved files: of one syntax, or of any; of the catalogues of these names, or of all if
    /// `only` is empty. With `conflicts`, write all records of a position that has several, else none of them. Write
    /// just the records that are new or changed since the saved file `since`, if it is a path.
    Records {
        first: &'a str,
        others: Vec<&'a str>,
        since: Option<&'a str>,
        only: Vec<&'a str>,
        syntax: Option<&'a str>,
        conflicts: bool,
    },
    /// Ask the hosts of a world file over TCP, at once or one after the other, and print the list. Only questions
    /// to these names are asked, or all if `only` is empty. Save the facts if `saved` is a path. Write all that happens
    /// in a trace, if `trace` is a path.
    Ask {
        world: &'a str,
        saved: Option<&'a str>,
        trace: Option<&'a str>,
        at_once: bool,
        only: Vec<&'a str>,
        limits: LimitOptions,
        search: SearchOptions<'a>,
        view: View<'a>,
    },
    /// Print what the `Ask` printed that wrote this trace. Save the facts if `saved` is a path.
    Replay {
        trace: &'a str,
        saved: Option<&'a str>,
        view: View<'a>,
    },
    /// As `Run`, but over TCP on 127.0.0.1 and without moves.
    Loop {
        world: &'a str,
        saved: Option<&'a str>,
        search: SearchOptions<'a>,
        view: View<'a>,
    },
    /// Serve a target of a world file at an address, for `count` connections.
    Serve {
        address: &'a str,
        name: &'a str,
        world: &'a str,
        count: u32,
    },
}

/// A command line: a command with its arguments, and what is common to all commands.
#[derive(Drop)]
pub struct CommandLine<'a> {
    /// The command.
    pub command: Arguments<'a>,
    /// Whether each fault is also told in words.
    pub explain: bool,
}

/// The heading of a page of answers if none is given.
const HEADING: &str = "What the catalogues answered";

/// The heading of a page of changes if none is given.
const CHANGES_HEADING: &str = "What is new, changed or gone";

/// Reads the command line: `arguments[0]` is the program's name and `arguments[1]` that of the command.
///
/// Returns the command with the values that `clap` found for its arguments. Otherwise returns `clap`'s error: why
/// the arguments are wrong, or the help that was asked for. The error's kind is `OutOfMemory` if no memory is
/// found.
pub fn parse<'a>(alloc: Global, arguments: &'a [String]) -> Result<CommandLine<'a>, Error>
    ensures asks { IfOk result (IsParsed (map string_bytes arguments.now)) }
{
    let mut command = command(alloc)?;
    let asked = asked_by(alloc, &mut command, arguments);
    drop(command);
    asked
}

/// Reads the command line by the forms of the commands.
fn asked_by<'a>(
    alloc: Global,
    command: &mut Command<'a>,
    arguments: &'a [String],
) -> Result<CommandLine<'a>, Error>
    ensures asks { IfOk result (IsParsed (map string_bytes arguments.now)) }
{
    let matches = command.try_get_matches_from_mut(arguments)?;
    if let Some((_, found)) = matches.subcommand()
        && let Some(line) = line_of(alloc, arguments, found)?
    {
        return Ok(line);
    }
    Err(command.error(ErrorKind::InvalidSubcommand, "no such command")?)
}

/// Returns the command with the arguments that `clap` found for it, and what is common to all commands. `None` if there
/// is no command.
fn line_of<'a>(
    alloc: Global,
    arguments: &[String],
    found: &ArgMatches<'a>,
) -> Result<Option<CommandLine<'a>>, AllocError>
    ensures asks { IfOk result (λ line. IfSome line (IsParsed (map string_bytes arguments.now))) }
{
    match second(arguments) {
        Some(name) => named_line(alloc, name, found),
        None => Ok(None),
    }
}

/// Returns the argument behind the program's name.
fn second(arguments: &[String]) -> Option<&str>
    ensures { option_map (λ word. word.now) result ≡ slice_get (map string_bytes arguments.now) 1 }
{
    match arguments.get(1) {
        Some(word) => Some(word.as_str()),
        None => None,
    }
}

/// Returns the command of this name with the arguments that were found, and what is common to all commands. `None` if
/// no command has the name, or a required argument is missing.
fn named_line<'a>(
    alloc: Global,
    name: &str,
    found: &ArgMatches<'a>,
) -> Result<Option<CommandLine<'a>>, AllocError>
    ensures asks { IfOk result (λ line. IfSome line (IsLineOf name.now (found_of found.now))) }
{
    let Some(command) = arguments_of(alloc, name, found)? else {
        return Ok(None);
    };
    let explain = has_flag(found, "explain");
    Ok(Some(CommandLine { command, explain }))
}

/// Returns the command of this name with the arguments that were found. `None` if no command has the name, or a
/// required argument is missing.
fn arguments_of<'a>(
    alloc: Global,
    name: &str,
    found: &ArgMatches<'a>,
) -> Result<Option<Arguments<'a>>, AllocError>
    ensures asks { IfOk result (λ arguments. IfSome arguments (AreArgumentsOf name.now (found_of found.now))) }
{
    match name {
        "join" => joins_of(alloc, found),
        "records" => records_of(alloc, found),
        "ask" => asks_of(alloc, found),
        "run" => runs_of(alloc, found),
        "loop" => loops_of(alloc, found),
        "show" => shows_of(alloc, found),
        "pqf" => queries_of(alloc, found),
        "catalogues" => catalogues_of(alloc, found),
        _ => Ok(single_of(name, found)),
    }
}

/// Returns `join` with its paths: the first, the others, and that of the file to be made.
fn joins_of<'a>(alloc: Global, found: &ArgMatches<'a>) -> Result<Option<Arguments<'a>>, AllocError>
    ensures asks { IfOk result (λ arguments. IfSome arguments (AreArgumentsOf (codes "join") (found_of found.now))) }
{
    let Some(first) = found.get_str("A") else {
        return Ok(None);
    };
    let others = values_of(alloc, found, "B")?;
    Ok(Some(Arguments::Join {
        first,
        others,
        saved: found.get_str("save"),
        quiet: found.get_flag("quiet"),
        view: view_of(found, HEADING),
    }))
}

/// Returns `records` with its paths and its choice of records.
fn records_of<'a>(
    alloc: Global,
    found: &ArgMatches<'a>,
) -> Result<Option<Arguments<'a>>, AllocError>
    ensures asks { IfOk result (λ arguments. IfSome arguments (AreArgumentsOf (codes "records")
        (found_of found.now))) }
{
    let Some(first) = found.get_str("A") else {
        return Ok(None);
    };
    let others = values_of(alloc, found, "B")?;
    let only = values_of(alloc, found, "only")?;
    Ok(Some(Arguments::Records {
        first,
        others,
        since: found.get_str("new"),
        only,
        syntax: found.get_str("syntax"),
        conflicts: found.get_flag("conflicts"),
    }))
}

/// Returns `ask` with its world file and its choice of questions.
fn asks_of<'a>(alloc: Global, found: &ArgMatches<'a>) -> Result<Option<Arguments<'a>>, AllocError>
    ensures asks { IfOk result (λ arguments. IfSome arguments (AreArgumentsOf (codes "ask") (found_of found.now))) }
{
    let Some(world) = found.get_str("FILE") else {
        return Ok(None);
    };
    let only = values_of(alloc, found, "only")?;
    let search = search_of(alloc, found)?;
    Ok(Some(Arguments::Ask {
        world,
        saved: found.get_str("save"),
        trace: found.get_str("trace"),
        at_once: found.get_flag("at-once"),
        only,
        limits: limits_of(found),
        search,
        view: view_of(found, HEADING),
    }))
}

/// Returns `show`, with its trace if there is one.
fn shows_of<'a>(alloc: Global, found: &ArgMatches<'a>) -> Result<Option<Arguments<'a>>, AllocError>
    ensures asks { IfOk result (λ arguments. IfSome arguments (AreArgumentsOf (codes "show") (found_of found.now))) }
{
    let Some(trace) = found.get_str("trace") else {
        return Ok(Some(Arguments::Show));
    };
    let only = values_of(alloc, found, "only")?;
    Ok(Some(Arguments::Dialogue { trace, only }))
}

/// Returns `pqf`, with its text if there is one, and its terms.
fn queries_of<'a>(
    alloc: Global,
    found: &ArgMatches<'a>,
) -> Result<Option<Arguments<'a>>, AllocError>
    ensures asks { IfOk result (λ arguments. IfSome arguments (AreArgumentsOf (codes "pqf") (found_of found.now))) }
{
    let search = search_of(alloc, found)?;
    let text = found.get_str("TEXT");
    Ok(Some(Arguments::Pqf { text, search }))
}

/// Returns `catalogues` with its file, and what it is printed as.
fn catalogues_of<'a>(
    alloc: Global,
    found: &ArgMatches<'a>,
) -> Result<Option<Arguments<'a>>, AllocError>
    ensures asks { IfOk result (λ arguments. IfSome arguments (AreArgumentsOf (codes "catalogues")
        (found_of found.now))) }
{
    let Some(path) = found.get_str("FILE") else {
        return Ok(None);
    };
    if has_flag(found, "toml") {
        return Ok(Some(Arguments::CataloguesOf { world: path }));
    }
    if !has_flag(found, "world") {
        return Ok(Some(Arguments::Catalogues { path }));
    }
    let search = search_of(alloc, found)?;
    Ok(Some(Arguments::WorldOf {
        catalogues: path,
        search,
    }))
}

/// Returns `run` with its world file.
fn runs_of<'a>(alloc: Global, found: &ArgMatches<'a>) -> Result<Option<Arguments<'a>>, AllocError>
    ensures asks { IfOk result (λ arguments. IfSome arguments (AreArgumentsOf (codes "run") (found_of found.now))) }
{
    let Some(world) = found.get_str("FILE") else {
        return Ok(None);
    };
    let search = search_of(alloc, found)?;
    Ok(Some(Arguments::Run {
        world,
        saved: found.get_str("save"),
        search,
        view: view_of(found, HEADING),
    }))
}

/// Returns `loop` with its world file.
fn loops_of<'a>(alloc: Global, found: &ArgMatches<'a>) -> Result<Option<Arguments<'a>>, AllocError>
    ensures asks { IfOk result (λ arguments. IfSome arguments (AreArgumentsOf (codes "loop") (found_of found.now))) }
{
    let Some(world) = found.get_str("FILE") else {
        return Ok(None);
    };
    let search = search_of(alloc, found)?;
    Ok(Some(Arguments::Loop {
        world,
        saved: found.get_str("save"),
        search,
        view: view_of(found, HEADING),
    }))
}

/// Returns a command that takes a fixed number of arguments.
fn single_of<'a>(name: &str, found: &ArgMatches<'a>) -> Option<Arguments<'a>>
    ensures asks { IfSome result (AreArgumentsOf name.now (found_of found.now)) }
{
    match name {
        "new" => Some(Arguments::New {
            earlier: found.get_str("OLD")?,
            later: found.get_str("NEW")?,
            view: view_of(found, CHANGES_HEADING),
        }),
        "replay" => Some(Arguments::Replay {
            trace: found.get_str("TRACE")?,
            saved: found.get_str("save"),
            view: view_of(found, HEADING),
        }),
        "serve" => Some(Arguments::Serve {
            address: found.get_str("ADDRESS")?,
            name: found.get_str("NAME")?,
            world: found.get_str("FILE")?,
            count: found.get_one::<u32>("N")?,
        }),
        _ => None,
    }
}

/// Returns the error for arguments that are not UTF-8: its kind is `InvalidValue`. Returns `AllocError` if no
/// memory is found.
pub fn odd_arguments(alloc: Global) -> Result<Error, AllocError>
    ensures { IfOk result (λ e. kind_of e ≡ InvalidValue) }
{
    let message = "invalid UTF-8 was detected in one or more arguments";
    command(alloc)?.error(ErrorKind::InvalidValue, message)
}
