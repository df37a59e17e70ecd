//! The prefix notation (YAZ's prefix query format): reads texts as queries, and prints queries.

pub mod cursor;
pub mod error;
pub mod lexer;
pub mod number;
pub mod parse;
pub mod print;
pub mod printable;
pub mod token;
pub mod value;
pub mod word;
