//! The values that `clap` found for arguments.

ghost use Rattle.std.specs.Prelude.{◌≡◌, IfOk};
ghost use Rattle.clap.specs.Words.{found_of};
ghost use Rattle.zmeta_args.specs.Texts.{texts_of};
ghost use Rattle.zmeta_args.specs.Arguments.{HasFlag, HasValues, HasSeconds, HasLimits, HasSearch, HasView, heading_of};

use crate::arguments::{LimitOptions, SearchOptions, View};
use clap::ArgMatches;
use std::alloc::{AllocError, Global};

/// Returns whether an option without a value is given.
pub(crate) fn has_flag(found: &ArgMatches<'_>, id: &str) -> bool
    ensures { HasFlag (found_of found.now) id.now result }
{
    found.get_flag(id)
}

/// Returns the values of an argument, in order: none if the argument is not given.
pub(crate) fn values_of<'a>(
    alloc: Global,
    found: &ArgMatches<'a>,
    id: &str,
) -> Result<Vec<&'a str>, AllocError>
    ensures { IfOk result (λ values. HasValues (found_of found.now) id.now (texts_of values.items)) }
{
    let mut values = Vec::new(alloc);
    if let Some(given) = found.get_strs(id) {
        values.extend_from_slice(given)?;
    }
    Ok(values)
}

/// Returns how long catalogues are waited for, and over which addresses they are asked.
pub(crate) fn limits_of(found: &ArgMatches<'_>) -> LimitOptions
    ensures { HasLimits (found_of found.now) result }
{
    LimitOptions {
        connect: seconds_of(found, "connect"),
        patience: seconds_of(found, "patience"),
        within: seconds_of(found, "within"),
        only_v4: found.get_flag("ipv4"),
        only_v6: found.get_flag("ipv6"),
    }
}

/// Returns a number of seconds, if the option is given.
fn seconds_of(found: &ArgMatches<'_>, id: &str) -> Option<u32>
    ensures { HasSeconds (found_of found.now) id.now result }
{
    found.get_one::<u32>(id)
}

/// Returns what is put to every question.
pub(crate) fn search_of<'a>(
    alloc: Global,
    found: &ArgMatches<'a>,
) -> Result<SearchOptions<'a>, AllocError>
    ensures { IfOk result (HasSearch (found_of found.now)) }
{
    let titles = values_of(alloc, found, "title")?;
    let authors = values_of(alloc, found, "author")?;
    let subjects = values_of(alloc, found, "subject")?;
    let isbns = values_of(alloc, found, "isbn")?;
    let issns = values_of(alloc, found, "issn")?;
    let years = values_of(alloc, found, "year")?;
    let any = values_of(alloc, found, "any")?;
    Ok(SearchOptions {
        query: found.get_str("query"),
        titles,
        authors,
        subjects,
        isbns,
        issns,
        years,
        any,
        records: found.get_str("records"),
        elements: found.get_str("elements"),
        syntax: found.get_str("syntax"),
    })
}

/// Returns the heading of a page: this one, if none is given.
fn heading_of<'a>(found: &ArgMatches<'a>, default: &'a str) -> &'a str
    ensures { result.now ≡ heading_of default.entry.now (found_of found.now) }
{
    match found.get_str("heading") {
        Some(heading) => heading,
        None => default,
    }
}

/// Returns what is printed: the titles if `--titles` is given, JSON if `--json` is given, the list in hexadecimal if
/// `--hex` is given, the titles with all fields if `--fields` is given, a page if `--html` is given, else the list. A
/// page has this heading, if none is given.
pub(crate) fn view_of<'a>(found: &ArgMatches<'a>, heading: &'a str) -> View<'a>
    ensures { HasView heading.entry.now (found_of found.now) result }
{
    if found.get_flag("titles") {
        View::Titles
    } else if found.get_flag("json") {
        View::Json
    } else if found.get_flag("hex") {
        View::Hex
    } else if found.get_flag("fields") {
        View::Fields
    } else if found.get_flag("html") {
        View::Html {
            heading: heading_of(found, heading),
        }
    } else {
        View::Text
    }
}
