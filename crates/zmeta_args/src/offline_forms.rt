//! The forms of the commands that ask nobody.

use crate::forms::{Argument, Form, SAVED};
use crate::options::{
    ANY, AS_TOML, AS_WORLD, AUTHOR, CONFLICTS, EXPLAIN, FIELDS, HEADING, HEX, HTML, ISBN, ISSN,
    JSON, NEW_SINCE, ONLY_OF, QUIET, SAVE, SHOWN_ONLY, SHOWN_TRACE, SUBJECT, SYNTAX, TITLE, TITLES,
    YEAR,
};
use crate::world_options::{
    WORLD_ANY, WORLD_AUTHOR, WORLD_ISBN, WORLD_ISSN, WORLD_QUERY, WORLD_RECORDS, WORLD_SUBJECT,
    WORLD_SYNTAX, WORLD_TITLE, WORLD_YEAR,
};

/// The form of `join`.
pub(crate) const JOIN: Form = Form {
    name: "join",
    about: "Puts together what searches of the same catalogues brought",
    example: "A and each B are saved files, of the same catalogues in the same order; one is
enough. Prints one list of all that any search brought. Where they brought
different records for one position of a result set, all of these are shown there
as a conflict. Regular files may be larger than memory, except with --save or
--html: they are read again while the list is printed. If one of them changes
meanwhile, or memory ends, the list stops there, and the status is 3 or 4.

--save also makes one saved file of all of them. With --quiet that is all that
is done: the files may be larger than memory then too, the result may be joined
with others in any order and grouping, and status 0 says that the file was made,
whatever the searches came to.

Example, the searches of two days:
  zmeta join monday.saved tuesday.saved
prints lines as
  target \"city library\" set 1 count 2
  1 \"city library\" 1 rec 1.2.840.10003.5.10 - \"first record\"
and one file of a year is made of those of its months by
  zmeta join --quiet --save year.saved month-*.saved",
    wants: &[
        SAVED,
        Argument {
            id: "B",
            help: "More such files",
            has_hyphen: false,
            is_count: false,
            is_many: true,
            is_needed: false,
            instead: &[],
        },
    ],
    may: &[
        TITLES, FIELDS, JSON, HEX, HTML, HEADING, SAVE, QUIET, EXPLAIN,
    ],
};

/// The form of `new`.
pub(crate) const NEW: Form = Form {
    name: "new",
    about: "Shows which records are new, changed or gone between two searches",
    example: "OLD and NEW are saved files, as of a search last month and the same search today.
They need not be of the same catalogues: those with one name are compared. Of
each, prints the records of NEW that OLD does not have, wherever they stand:
'new', or 'changed' if OLD has another record with the same control number (the
MARC field 001); then 'gone', and the records of OLD that NEW has neither as
they were nor with their control number. A record that was not asked for is
gone too, so ask for as many both times. 'zmeta records --new OLD NEW' writes
the records that are new or changed.

Example, what is new since last month:
  zmeta ask --save today.saved catalogues
  zmeta new --titles last-month.saved today.saved
prints lines as
  1 new
    3  city library  2026  Sand and stars / R. Ito
  0 changed
  0 gone",
    wants: &[
        Argument {
            id: "OLD",
            help: "A file that --save made, the earlier one",
            has_hyphen: false,
            is_count: false,
            is_many: false,
            is_needed: true,
            instead: &[],
        },
        Argument {
            id: "NEW",
            help: "A file that --save made, the later one",
            has_hyphen: false,
            is_count: false,
            is_many: false,
            is_needed: true,
            instead: &[],
        },
    ],
    may: &[TITLES, FIELDS, JSON, HEX, HTML, HEADING, EXPLAIN],
};

/// The form of `records`.
pub(crate) const RECORDS: Form = Form {
    name: "records",
    about: "Writes the records that searches of the same catalogues brought",
    example: "A and each B are saved files, of the same catalogues in the same order; one is
enough. Writes the octets of the records, one after the other in the order of
the list of 'zmeta join', as cataloguing tools read them. Where several records
are known for one position, all of these are left out, or none with
--conflicts. Standard error says how many things are left out: such positions,
diagnostics that stand for records, records of another syntax than the one
asked for, and structured records, as OPAC and GRS-1. --only takes the records
of some catalogues alone. SYNTAX is marc21, unimarc, xml, sutrs, opac, grs1 or
an object identifier. --new takes just the records that 'zmeta new OLD' calls
new or changed.

Example, the MARC 21 records that a search brought from loc:
  zmeta ask --save books.saved catalogues
  zmeta records --only loc --syntax marc21 books.saved > books.mrc",
    wants: &[
        SAVED,
        Argument {
            id: "B",
            help: "More such files",
            has_hyphen: false,
            is_count: false,
            is_many: true,
            is_needed: false,
            instead: &[],
        },
    ],
    may: &[NEW_SINCE, ONLY_OF, SYNTAX, CONFLICTS, EXPLAIN],
};

/// The form of `catalogues`.
pub(crate) const CATALOGUES: Form = Form {
    name: "catalogues",
    about: "Shows what a file of catalogues says, and every mistake of it",
    example: "FILE is a file of catalogues in TOML, as 'zmeta ask' takes it where its name ends
with .toml: for each catalogue a table under its name, with its address and its
databases, and what else is to be said of it. Prints a line for each catalogue.
Of a file with mistakes each gets a line on standard error, with the number of
its line and what to write, and nothing is printed: status 3.

With --world it prints the world file of what 'zmeta ask FILE' asks with the same
--title and its like, --query, --records and --syntax. Several databases of a
catalogue, an element set name or a line feed cannot stand there: status 3. So
that 'zmeta ask' waits as FILE says, give it --connect and --patience. With --toml
FILE is a world file, whose questions go to hosts, and is printed as a file of
catalogues.

Example, a file with the lines
  [loc]
  address = \"lx2.loc.gov\"
  database = \"LCDB\"
is shown by
  zmeta catalogues catalogues.toml
as
  1 \"loc\" lx2.loc.gov:210 \"LCDB\"",
    wants: &[Argument {
        id: "FILE",
        help: "A file of catalogues in TOML",
        has_hyphen: false,
        is_count: false,
        is_many: false,
        is_needed: true,
        instead: &[],
    }],
    may: &[
        AS_WORLD,
        AS_TOML,
        WORLD_TITLE,
        WORLD_AUTHOR,
        WORLD_SUBJECT,
        WORLD_ISBN,
        WORLD_ISSN,
        WORLD_YEAR,
        WORLD_ANY,
        WORLD_QUERY,
        WORLD_RECORDS,
        WORLD_SYNTAX,
        EXPLAIN,
    ],
};

/// The form of `show`.
pub(crate) const SHOW: Form = Form {
    name: "show",
    about: "Shows what recorded Z39.50 messages say",
    example: "Reads hexadecimal digits from standard input; spaces and line ends between them
don't count. Prints a line for each message, and below it a line for each
record that it brings.

Example, the message with which a catalogue ends a session:
  echo 'BF 30 05 9F 81 53 01 00' | zmeta show
prints
  close - 0

With --trace it reads no digits, but a file that 'zmeta ask --trace' wrote, and
prints a line for each message that was sent or received, and for what else
happened: the seconds since the search began, the catalogue, '>' for what went
to it and '<' for what came from it, and what the message says.

Example, what was said with one of the catalogues:
  zmeta show --trace dune.trace --only loc
prints lines as
  0.084 \"loc\" connected at address 1
  0.084 \"loc\" > initRequest 00000000 111 110000000000011 1048576 1048576 \"zmeta\"
  0.253 \"loc\" < initResponse 00000000 111 111000000000000 65536 65536 true -",
    wants: &[],
    may: &[SHOWN_TRACE, SHOWN_ONLY, EXPLAIN],
};

/// The form of `pqf`.
pub(crate) const PQF: Form = Form {
    name: "pqf",
    about: "Shows how a query is understood, and how it goes out",
    example: "TEXT is a query in prefix notation (PQF), as one word: quote it for the shell.
Prints it with all its attributes in place, and below it its encoding in
hexadecimal. Without TEXT, the query is that of the options, as 'zmeta ask'
takes them.

Example, books with the title word dune that Herbert wrote:
  zmeta pqf '@and @attr 1=4 dune @attr 1=1003 herbert'
and the query of
  zmeta pqf --title dune --author herbert
print first
  @and @attr 1=4 \"dune\" @attr 1=1003 \"herbert\"",
    wants: &[Argument {
        id: "TEXT",
        help: "The query in prefix notation",
        has_hyphen: true,
        is_count: false,
        is_many: false,
        is_needed: true,
        instead: &["title", "author", "subject", "isbn", "issn", "year", "any"],
    }],
    may: &[TITLE, AUTHOR, SUBJECT, ISBN, ISSN, YEAR, ANY, EXPLAIN],
};
