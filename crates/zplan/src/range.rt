//! Ranges of positions.

/// Consecutive positions of a result set (Z39.50-2003, 3.2.3.1). Every layer of the client uses this type;
/// `zapdu::Range` is the same on the wire.
#[derive(Clone, Copy, PartialEq, Eq)]
pub struct Range {
    /// The first position, from 1 to 2,147,483,647.
    pub start: i64,
    /// How many positions, 1 or more. None of them is above 2,147,483,647.
    pub n: i64,
}
