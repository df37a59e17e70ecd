//! The command line: the forms of its commands, and the reading of its arguments.
#![tactic(auto)]

mod arguments;
mod asking_forms;
mod forms;
mod found;
mod offline_forms;
mod options;
mod world_options;

pub use arguments::{
    Arguments, CommandLine, LimitOptions, SearchOptions, View, odd_arguments, parse,
};
