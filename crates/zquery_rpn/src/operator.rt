// Operators (Z39.50-2003, Operator).

/// An operator over two structures, other than proximity.
#[derive(Clone, Copy, PartialEq, Eq)]
pub enum Operator {
    /// The records of both.
    And,
    /// The records of either.
    Or,
    /// The records of the first that are not of the second.
    Not,
}
