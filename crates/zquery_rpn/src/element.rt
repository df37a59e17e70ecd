//! Type-1 queries as elements (Z39.50-2003, 4.1: RPNQuery).

pub mod decode;
pub mod encode;
pub mod operand;
pub mod operator;
