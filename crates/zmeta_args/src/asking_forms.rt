//! The forms of the commands that ask catalogues, over the network or in memory, and of the one that serves.

use crate::forms::{Argument, Form, WORLD};
use crate::options::{
    ANY, ASKED_SYNTAX, AT_ONCE, AUTHOR, CONNECT, ELEMENTS, EXPLAIN, FIELDS, HEADING, HEX, HTML,
    IPV4, IPV6, ISBN, ISSN, JSON, ONLY, PATIENCE, QUERY, RECORDS as RECORDS_WANTED, SAVE, SUBJECT,
    TITLE, TITLES, TRACE, WITHIN, YEAR,
};

/// The form of `ask`.
pub(crate) const ASK: Form = Form {
    name: "ask",
    about: "Asks library catalogues",
    example: "FILE describes the catalogues and what each is asked, a line each:
  step N                      records that one request asks for, 1 to 1000; else 10
  window N                    requests sent before the first is answered, 1 to 64; else 4
  host NAME ADDRESS           a catalogue, at an address as z3950.example.org:210
  ask NAME DB SYNTAX WANT QUERY
                              SYNTAX may be -; WANT is a number, or as 1-3,10-12
Connects to all of them side by side, asks each, and prints one list of all
that they answer. A catalogue that cannot be reached, or is silent for 30
seconds (--patience), gets a line on standard error, and the others are listed:
status 1. With --at-once no catalogue waits for another. --connect limits the
time for connecting to a catalogue, --within that for all together, and -4 and
-6 use addresses of IPv4 or of IPv6 alone. With --only just the questions of
these names are asked, so that saved files of parts can be joined; status 3
where there is no such question. One search for all: --title, --author,
--subject, --isbn, --issn, --year and --any, or --query, are asked in place of
the queries of FILE, and --records, --elements and --syntax in place of what its
lines say. A title, author or subject may end with *, for all that begins so; a
year may be a span, as 1980-1985.
SYNTAX is marc21, unimarc, xml, sutrs, opac, grs1, an object identifier, or -
for none. With --trace the file TRACE gets a line for all that happens, while it
happens: what was asked, in clear, and each octet that came or went. From it
'zmeta replay' prints the list again, and 'zmeta show' what was said.

Example, a file with the two lines
  host loc lx2.loc.gov:210
  ask loc LCDB 1.2.840.10003.5.10 5 \"@attr 1=4 dune\"
is asked by
  zmeta ask --at-once --titles catalogues
or, with another question and the same file, by
  zmeta ask --at-once --titles --author herbert --title dune --records 20 catalogues",
    wants: &[WORLD],
    may: &[
        AT_ONCE,
        CONNECT,
        PATIENCE,
        WITHIN,
        IPV4,
        IPV6,
        ONLY,
        TITLE,
        AUTHOR,
        SUBJECT,
        ISBN,
        ISSN,
        YEAR,
        ANY,
        QUERY,
        RECORDS_WANTED,
        ELEMENTS,
        ASKED_SYNTAX,
        TITLES,
        FIELDS,
        JSON,
        HEX,
        HTML,
        HEADING,
        SAVE,
        TRACE,
        EXPLAIN,
    ],
};

/// The form of `replay`.
pub(crate) const REPLAY: Form = Form {
    name: "replay",
    about: "Prints again what ask printed, from its trace",
    example: "TRACE is a file that 'zmeta ask --trace' wrote. No catalogue is asked: what came
from them is taken from the file. Prints the list, or another view, and the
lines on standard error that ask printed, with its status; --save makes the file
that ask would have made. Where the file ends before all was over, prints what
was known by then, and says 'the trace is cut off' on standard error: status 1.
Status 3 with the number of the line where a line is none that ask writes.

Example, the list on the day, and its titles a year later:
  zmeta ask --trace dune.trace catalogues
  zmeta replay --titles dune.trace",
    wants: &[Argument {
        id: "TRACE",
        help: "A file that ask --trace wrote",
        has_hyphen: false,
        is_count: false,
        is_many: false,
        is_needed: true,
        instead: &[],
    }],
    may: &[TITLES, FIELDS, JSON, HEX, HTML, HEADING, SAVE, EXPLAIN],
};

/// The form of `run`.
pub(crate) const RUN: Form = Form {
    name: "run",
    about: "Runs searches against catalogues in memory",
    example: "FILE describes the catalogues, what each is asked, and in which order octets
are carried, a line each:
  step N                      records that one request asks for, 1 to 1000; else 10
  window N                    requests sent before the first is answered, 1 to 64; else 4
  target NAME SIZE FLAGS      a catalogue; SIZE is the most octets of records in a reply; FLAGS are
                              of c concurrent, n named, r refuse, or -
  db NAME                     a database of it
  rec OID OCTETS              a record of that
  field USE TEXT              a text that the record is found by
  ask NAME DB SYNTAX WANT QUERY
                              SYNTAX may be -; WANT is a number, or as 1-3,10-12
  to NAME K, from NAME K      at most K octets are carried to it, or from it; rel NAME K releases
                              its reply K
Prints one list of all that they answer. --title and the other terms, or
--query, are asked in place of the queries of FILE, and --records, --elements
and --syntax in place of what its lines say.

Example:
  zmeta run world
prints lines as
  target \"city library\" set 1 count 2
  1 \"city library\" 1 rec 1.2.840.10003.5.10 \"books\" \"first record\"",
    wants: &[WORLD],
    may: &[
        TITLE,
        AUTHOR,
        SUBJECT,
        ISBN,
        ISSN,
        YEAR,
        ANY,
        QUERY,
        RECORDS_WANTED,
        ELEMENTS,
        ASKED_SYNTAX,
        TITLES,
        FIELDS,
        JSON,
        HEX,
        HTML,
        HEADING,
        SAVE,
        EXPLAIN,
    ],
};

/// The form of `loop`.
pub(crate) const LOOP: Form = Form {
    name: "loop",
    about: "Runs searches against catalogues in memory, over this machine's network",
    example: "FILE is as for 'zmeta run'. Each catalogue is asked over a TCP connection to
127.0.0.1, so that the list shows whether this machine's network carries octets
as they are: it is the list of 'zmeta run'. Lines of FILE that say in which
order octets are carried are read, and not followed. Status 3 with 'cannot
serve' where no connections can be made.

Example:
  zmeta loop world
prints lines as
  target \"city library\" set 1 count 2
  1 \"city library\" 1 rec 1.2.840.10003.5.10 \"books\" \"first record\"",
    wants: &[WORLD],
    may: &[
        TITLE,
        AUTHOR,
        SUBJECT,
        ISBN,
        ISSN,
        YEAR,
        ANY,
        QUERY,
        RECORDS_WANTED,
        ELEMENTS,
        ASKED_SYNTAX,
        TITLES,
        FIELDS,
        JSON,
        HEX,
        HTML,
        HEADING,
        SAVE,
        EXPLAIN,
    ],
};

/// The form of `serve`.
pub(crate) const SERVE: Form = Form {
    name: "serve",
    about: "Serves a catalogue in memory to other programs",
    example: "ADDRESS is where connections are taken, as localhost:9999. FILE describes
catalogues in memory, as 'zmeta help run' says, and NAME is one of them. N
connections are taken, one after the other: it answers one client at a time, and
is made for practice. Status 3 with 'cannot serve' where there is no such
catalogue, or the address cannot be taken.

Example, one client asks the catalogue of a city library:
  zmeta serve localhost:9999 'city library' world 1",
    wants: &[
        Argument {
            id: "ADDRESS",
            help: "Where connections are taken, as host:port",
            has_hyphen: false,
            is_count: false,
            is_many: false,
            is_needed: true,
            instead: &[],
        },
        Argument {
            id: "NAME",
            help: "The catalogue that is served",
            has_hyphen: false,
            is_count: false,
            is_many: false,
            is_needed: true,
            instead: &[],
        },
        Argument {
            id: "FILE",
            help: "A file of catalogues",
            has_hyphen: false,
            is_count: false,
            is_many: false,
            is_needed: true,
            instead: &[],
        },
        Argument {
            id: "N",
            help: "How many connections are taken, up to 1000000",
            has_hyphen: false,
            is_count: true,
            is_many: false,
            is_needed: true,
            instead: &[],
        },
    ],
    may: &[EXPLAIN],
};
