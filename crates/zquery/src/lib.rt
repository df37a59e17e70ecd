//! Type-1 queries in the prefix notation (YAZ's prefix query format): reads texts as queries, and prints queries.
#![tactic(auto)]

mod attribute;
pub mod laws;
mod notation;

pub use notation::error::{PqfError, PqfErrorKind};
pub use notation::lexer::tokens;
pub use notation::number::number;
pub use notation::parse::parse_pqf;
pub use notation::print::{PrintError, print_pqf};
pub use notation::token::Token;
pub use notation::value::oid_named;
pub use zquery_rpn::{Attr, AttrValue, BuildError, Query, Rpn, TermValue, from_node, to_node};
