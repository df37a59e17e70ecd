//! The forms of the command line: its commands with their arguments and options, and their help.

use crate::asking_forms::{ASK, LOOP, REPLAY, RUN, SERVE};
use crate::offline_forms::{CATALOGUES, JOIN, NEW, PQF, RECORDS, SHOW};
use crate::options::{CommandOption, option};
use clap::{Arg, ArgAction, Command, value_parser};
use std::alloc::{AllocError, Global};

/// The most connections that one `serve` takes.
const MOST_CONNECTIONS: i64 = 1_000_000;

/// A command: its name, its purpose, an example for its help, its arguments and its options.
#[derive(Clone, Copy)]
pub(crate) struct Form {
    pub(crate) name: &'static str,
    pub(crate) about: &'static str,
    pub(crate) example: &'static str,
    pub(crate) wants: &'static [Argument],
    pub(crate) may: &'static [CommandOption],
}

/// An argument of a command, under its name in the help.
#[derive(Clone, Copy)]
pub(crate) struct Argument {
    pub(crate) id: &'static str,
    pub(crate) help: &'static str,
    /// Whether it may begin with a hyphen without being an option.
    pub(crate) has_hyphen: bool,
    /// Whether it is a number of connections.
    pub(crate) is_count: bool,
    /// Whether it may be given more than once.
    pub(crate) is_many: bool,
    /// Whether it is required.
    pub(crate) is_needed: bool,
    /// The options one of which may stand in its place, and none beside it.
    pub(crate) instead: &'static [&'static str],
}

/// A saved file.
pub(crate) const SAVED: Argument = Argument {
    id: "A",
    help: "A file that --save made",
    has_hyphen: false,
    is_count: false,
    is_many: false,
    is_needed: true,
    instead: &[],
};

/// A world file.
pub(crate) const WORLD: Argument = Argument {
    id: "FILE",
    help: "A file of catalogues and questions",
    has_hyphen: false,
    is_count: false,
    is_many: false,
    is_needed: true,
    instead: &[],
};

/// The program's version, which `--version` prints.
const VERSION: &str = "1.0.0";

const ABOUT: &str = "Asks library catalogues over Z39.50, and shows what they answer";

const ADVICE: &str = "'zmeta help COMMAND' says what a command reads and prints, with an example, as
  zmeta help ask

Statuses:
  0  all was done
  1  a catalogue failed, closed its connection, refused a search or could not be asked;
     the list has what the others brought
  2  the arguments are wrong
  3  a file, a message, a query or an option's value was refused, or a file, a stream or
     the socket that listens failed
  4  memory ran out";

const FORMS: [Form; 11] = [
    ASK, REPLAY, CATALOGUES, RUN, LOOP, JOIN, NEW, RECORDS, SERVE, SHOW, PQF,
];

/// Returns an argument as `clap` takes it.
fn clap_argument(alloc: Global, wanted: &Argument) -> Result<Arg<'static>, AllocError> {
    let argument = Arg::new(alloc, wanted.id)
        .help(wanted.help)
        .required(wanted.is_needed && wanted.instead.is_empty())
        .allow_hyphen_values(wanted.has_hyphen)
        .action(ArgAction::Set);
    let argument = if wanted.is_count {
        argument.value_parser(value_parser!(u32).range(0..=MOST_CONNECTIONS))
    } else if wanted.is_many {
        argument.num_args(1..).action(ArgAction::Append)
    } else {
        argument
    };
    argument
        .required_unless_present_any(wanted.instead)?
        .conflicts_with_all(wanted.instead)
}

fn subcommand<'a>(alloc: Global, form: &Form) -> Result<Command<'a>, AllocError> {
    let mut command = Command::new(alloc, form.name)
        .about(form.about)
        .after_help(form.example);
    for wanted in form.wants {
        match clap_argument(alloc, wanted) {
            Ok(argument) => command = command.arg(argument)?,
            Err(error) => {
                drop(command);
                return Err(error);
            }
        }
    }
    for extra in form.may {
        match option(alloc, extra) {
            Ok(option) => command = command.arg(option)?,
            Err(error) => {
                drop(command);
                return Err(error);
            }
        }
    }
    Ok(command)
}

/// Returns the command line's form: its commands with their arguments, and their help.
pub(crate) fn command<'a>(alloc: Global) -> Result<Command<'a>, AllocError> {
    let mut command = Command::new(alloc, "zmeta")
        .about(ABOUT)
        .version(VERSION)
        .after_help(ADVICE)
        .subcommand_required(true);
    for form in &FORMS {
        match subcommand(alloc, form) {
            Ok(subcommand) => command = command.subcommand(subcommand)?,
            Err(error) => {
                drop(command);
                return Err(error);
            }
        }
    }
    Ok(command)
}
