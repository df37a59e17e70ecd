// Queries, as texts in the prefix notation and as elements.
mod calls;
pub(crate) mod plain;
pub(crate) mod rows;
mod structures;
