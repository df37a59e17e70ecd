//! The options of the program's commands.
use clap::{Arg, ArgAction, value_parser};
use std::alloc::{AllocError, Global};

/// The seconds of an hour.
const HOUR: i64 = 3600;

/// The seconds of a day.
const DAY: i64 = 86_400;

/// An option of a command.
#[derive(Clone, Copy)]
pub(crate) struct CommandOption {
    pub(crate) id: &'static str,
    /// Its short form, if it has one.
    pub(crate) short: Option<char>,
    pub(crate) help: &'static str,
    /// The name of its value in the help, if it has a value.
    pub(crate) value: Option<&'static str>,
    /// Whether it may be given more than once.
    pub(crate) is_many: bool,
    /// The most seconds that it takes, if its value is a number of seconds.
    pub(crate) most_seconds: Option<i64>,
    /// The options that may not be given together with it.
    pub(crate) excludes: &'static [&'static str],
    /// The options that must be given together with it.
    pub(crate) needs: &'static [&'static str],
}

pub(crate) const HEX: CommandOption = CommandOption {
    id: "hex",
    short: None,
    help: "Prints the octets of records in hexadecimal",
    value: None,
    is_many: false,
    most_seconds: None,
    excludes: &[],
    needs: &[],
};

pub(crate) const TITLES: CommandOption = CommandOption {
    id: "titles",
    short: None,
    help: "Prints years and titles, to be read, in place of the list",
    value: None,
    is_many: false,
    most_seconds: None,
    excludes: &["hex", "json"],
    needs: &[],
};

pub(crate) const FIELDS: CommandOption = CommandOption {
    id: "fields",
    short: None,
    help: "Prints what --titles prints, and below each row the fields of its record",
    value: None,
    is_many: false,
    most_seconds: None,
    excludes: &["hex", "json", "titles"],
    needs: &[],
};

pub(crate) const HTML: CommandOption = CommandOption {
    id: "html",
    short: None,
    help: "Prints a page for a browser (HTML) in place of the list",
    value: None,
    is_many: false,
    most_seconds: None,
    excludes: &["hex", "json", "titles", "fields"],
    needs: &[],
};

pub(crate) const HEADING: CommandOption = CommandOption {
    id: "heading",
    short: None,
    help: "Is the heading of the page that --html prints",
    value: Some("TEXT"),
    is_many: false,
    most_seconds: None,
    excludes: &[],
    needs: &["html"],
};

pub(crate) const EXPLAIN: CommandOption = CommandOption {
    id: "explain",
    short: None,
    help: "Says below each fault, in words, what is wrong and what to write; terminals get that without it",
    value: None,
    is_many: false,
    most_seconds: None,
    excludes: &[],
    needs: &[],
};

pub(crate) const JSON: CommandOption = CommandOption {
    id: "json",
    short: None,
    help: "Prints a JSON object a line, for programs, in place of the list",
    value: None,
    is_many: false,
    most_seconds: None,
    excludes: &["hex"],
    needs: &[],
};

pub(crate) const QUERY: CommandOption = CommandOption {
    id: "query",
    short: None,
    help: "Asks every catalogue this query (PQF), in place of the file's",
    value: Some("PQF"),
    is_many: false,
    most_seconds: None,
    excludes: &["title", "author", "subject", "isbn", "issn", "year", "any"],
    needs: &[],
};

pub(crate) const TITLE: CommandOption = CommandOption {
    id: "title",
    short: None,
    help: "Asks every catalogue for this in a title, or what begins so, as dun*; may be given several times, and all terms must match",
    value: Some("TEXT"),
    is_many: true,
    most_seconds: None,
    excludes: &[],
    needs: &[],
};

pub(crate) const AUTHOR: CommandOption = CommandOption {
    id: "author",
    short: None,
    help: "Asks every catalogue for this author; may be given several times",
    value: Some("TEXT"),
    is_many: true,
    most_seconds: None,
    excludes: &[],
    needs: &[],
};

pub(crate) const SUBJECT: CommandOption = CommandOption {
    id: "subject",
    short: None,
    help: "Asks every catalogue for this subject; may be given several times",
    value: Some("TEXT"),
    is_many: true,
    most_seconds: None,
    excludes: &[],
    needs: &[],
};

pub(crate) const ISBN: CommandOption = CommandOption {
    id: "isbn",
    short: None,
    help: "Asks every catalogue for this ISBN; may be given several times",
    value: Some("TEXT"),
    is_many: true,
    most_seconds: None,
    excludes: &[],
    needs: &[],
};

pub(crate) const ISSN: CommandOption = CommandOption {
    id: "issn",
    short: None,
    help: "Asks every catalogue for this ISSN; may be given several times",
    value: Some("TEXT"),
    is_many: true,
    most_seconds: None,
    excludes: &[],
    needs: &[],
};

pub(crate) const YEAR: CommandOption = CommandOption {
    id: "year",
    short: None,
    help: "Asks every catalogue for what was published in this year, or in years as 1980-1985, 1980- or -1985",
    value: Some("YEAR"),
    is_many: true,
    most_seconds: None,
    excludes: &[],
    needs: &[],
};

pub(crate) const ANY: CommandOption = CommandOption {
    id: "any",
    short: None,
    help: "Asks every catalogue for this anywhere in a record; may be given several times",
    value: Some("TEXT"),
    is_many: true,
    most_seconds: None,
    excludes: &[],
    needs: &[],
};

pub(crate) const RECORDS: CommandOption = CommandOption {
    id: "records",
    short: None,
    help: "Asks every catalogue for these records: a number, or positions as 1-3,10-12",
    value: Some("WANT"),
    is_many: false,
    most_seconds: None,
    excludes: &[],
    needs: &[],
};

pub(crate) const ELEMENTS: CommandOption = CommandOption {
    id: "elements",
    short: None,
    help: "Asks every catalogue for records of this element set, as F (full) or B (brief)",
    value: Some("NAME"),
    is_many: false,
    most_seconds: None,
    excludes: &[],
    needs: &[],
};

pub(crate) const ASKED_SYNTAX: CommandOption = CommandOption {
    id: "syntax",
    short: None,
    help: "Asks every catalogue for records of this syntax: a name as marc21, or an OID",
    value: Some("SYNTAX"),
    is_many: false,
    most_seconds: None,
    excludes: &[],
    needs: &[],
};

pub(crate) const SAVE: CommandOption = CommandOption {
    id: "save",
    short: None,
    help: "Saves what was brought, in the file OUT",
    value: Some("OUT"),
    is_many: false,
    most_seconds: None,
    excludes: &[],
    needs: &[],
};

pub(crate) const QUIET: CommandOption = CommandOption {
    id: "quiet",
    short: None,
    help: "Prints no list: merges the files piece by piece, whatever their size",
    value: None,
    is_many: false,
    most_seconds: None,
    excludes: &["hex", "json", "titles", "fields", "html"],
    needs: &["save"],
};

pub(crate) const AT_ONCE: CommandOption = CommandOption {
    id: "at-once",
    short: None,
    help: "Asks all catalogues at once, and not one after the other",
    value: None,
    is_many: false,
    most_seconds: None,
    excludes: &[],
    needs: &[],
};

pub(crate) const CONNECT: CommandOption = CommandOption {
    id: "connect",
    short: None,
    help: "Gives up a catalogue that takes so long to connect; else as --patience says",
    value: Some("SECONDS"),
    is_many: false,
    most_seconds: Some(HOUR),
    excludes: &[],
    needs: &[],
};

pub(crate) const IPV4: CommandOption = CommandOption {
    id: "ipv4",
    short: Some('4'),
    help: "Connects to addresses of IPv4 alone",
    value: None,
    is_many: false,
    most_seconds: None,
    excludes: &["ipv6"],
    needs: &[],
};

pub(crate) const IPV6: CommandOption = CommandOption {
    id: "ipv6",
    short: Some('6'),
    help: "Connects to addresses of IPv6 alone",
    value: None,
    is_many: false,
    most_seconds: None,
    excludes: &[],
    needs: &[],
};

pub(crate) const PATIENCE: CommandOption = CommandOption {
    id: "patience",
    short: None,
    help: "Gives up a catalogue that is silent for so long, or not connected; else 30",
    value: Some("SECONDS"),
    is_many: false,
    most_seconds: Some(HOUR),
    excludes: &[],
    needs: &[],
};

pub(crate) const WITHIN: CommandOption = CommandOption {
    id: "within",
    short: None,
    help: "Gives up each catalogue that is not done within so many seconds of the start",
    value: Some("SECONDS"),
    is_many: false,
    most_seconds: Some(DAY),
    excludes: &[],
    needs: &[],
};

pub(crate) const ONLY: CommandOption = CommandOption {
    id: "only",
    short: None,
    help: "Asks just the question of this name; may be given several times",
    value: Some("NAME"),
    is_many: true,
    most_seconds: None,
    excludes: &[],
    needs: &[],
};

pub(crate) const SYNTAX: CommandOption = CommandOption {
    id: "syntax",
    short: None,
    help: "Writes just the records of this syntax: a name as marc21, or an OID",
    value: Some("SYNTAX"),
    is_many: false,
    most_seconds: None,
    excludes: &[],
    needs: &[],
};

pub(crate) const ONLY_OF: CommandOption = CommandOption {
    id: "only",
    short: None,
    help: "Writes just the records of this catalogue; may be given several times",
    value: Some("NAME"),
    is_many: true,
    most_seconds: None,
    excludes: &[],
    needs: &[],
};

pub(crate) const NEW_SINCE: CommandOption = CommandOption {
    id: "new",
    short: None,
    help: "Writes just the records that are new or changed since the saved file OLD",
    value: Some("OLD"),
    is_many: false,
    most_seconds: None,
    excludes: &[],
    needs: &[],
};

pub(crate) const TRACE: CommandOption = CommandOption {
    id: "trace",
    short: None,
    help: "Writes all that happens, with its time, in the file TRACE while it happens",
    value: Some("TRACE"),
    is_many: false,
    most_seconds: None,
    excludes: &[],
    needs: &[],
};

pub(crate) const SHOWN_TRACE: CommandOption = CommandOption {
    id: "trace",
    short: None,
    help: "Shows the messages of the file TRACE, which ask --trace wrote, with their times",
    value: Some("TRACE"),
    is_many: false,
    most_seconds: None,
    excludes: &[],
    needs: &[],
};

pub(crate) const SHOWN_ONLY: CommandOption = CommandOption {
    id: "only",
    short: None,
    help: "Shows just what was said with this catalogue; may be given several times",
    value: Some("NAME"),
    is_many: true,
    most_seconds: None,
    excludes: &[],
    needs: &["trace"],
};

pub(crate) const CONFLICTS: CommandOption = CommandOption {
    id: "conflicts",
    short: None,
    help: "Writes all records of a position for which several are known",
    value: None,
    is_many: false,
    most_seconds: None,
    excludes: &[],
    needs: &[],
};

pub(crate) const AS_WORLD: CommandOption = CommandOption {
    id: "world",
    short: None,
    help: "Prints the world file of what asking these catalogues asks, with --query, or --title and its like",
    value: None,
    is_many: false,
    most_seconds: None,
    excludes: &["toml"],
    needs: &[],
};

pub(crate) const AS_TOML: CommandOption = CommandOption {
    id: "toml",
    short: None,
    help: "Prints a world file as a file of catalogues",
    value: None,
    is_many: false,
    most_seconds: None,
    excludes: &[
        "title", "author", "subject", "isbn", "issn", "year", "any", "query", "records", "syntax",
    ],
    needs: &[],
};

/// What reading an option does.
fn action_of(extra: &CommandOption) -> ArgAction {
    if extra.value.is_none() {
        ArgAction::SetTrue
    } else if extra.is_many {
        ArgAction::Append
    } else {
        ArgAction::Set
    }
}

/// Returns an option as `clap` takes it.
pub(crate) fn option(alloc: Global, extra: &CommandOption) -> Result<Arg<'static>, AllocError> {
    let option = Arg::new(alloc, extra.id).long(extra.id).help(extra.help);
    let option = option.action(action_of(extra));
    let option = match extra.most_seconds {
        Some(most) => option.value_parser(value_parser!(u32).range(1..=most)),
        None => option,
    };
    let option = match extra.short {
        Some(letter) => option.short(letter),
        None => option,
    };
    let option = match extra.value {
        None => option,
        Some(value) => option.value_name(value),
    };
    option
        .conflicts_with_all(extra.excludes)?
        .requires_all(extra.needs)
}
