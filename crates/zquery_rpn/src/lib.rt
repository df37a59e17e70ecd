//! Type-1 queries (Z39.50-2003, 3.7): as trees, and as elements.
#![tactic(auto)]

mod attribute;
mod element;
pub mod laws;
mod operator;
mod query;

pub use attribute::copies;
pub use element::decode::from_node;
pub use element::encode::to_node;
pub use operator::Operator;
pub use query::{Attr, AttrValue, Query, Rpn, TermValue};
pub use zasn::BuildError;
