//! A law of the definitions: the contract of a function that does nothing.
ghost use Rattle.zmeta_conversions.specs.Laws.{ReadAgain};

/// The world file of a world of hosts says this world, but for the numbers of lines: each host, question, step and
/// window. No octet of a name, an address, a database or a query becomes notation.
pub fn read_again()
    ensures { ReadAgain }
{}
