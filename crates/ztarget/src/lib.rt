//! A target of Z39.50 with databases in memory. It owes each request one reply, which its definition states.
#![tactic(auto)]

mod common_places;
mod criterion;
mod database;
mod decimal;
mod diagnostic;
mod error;
mod evaluation;
mod fault;
mod fits;
mod found;
mod index;
mod indexed;
mod init;
pub mod laws;
mod matching;
mod merging;
mod narrowed;
mod needed_words;
mod phase;
mod phrase;
mod positions;
mod present;
mod query;
mod record;
mod result_set;
mod search;
mod search_fault;
mod searched_databases;
mod sets;
mod settings;
mod shared_places;
mod target;
mod word;
mod words;

pub use database::{Database, Entry, Field};
pub use error::{MatchError, TargetError};
pub use settings::TargetSettings;
pub use target::Target;
