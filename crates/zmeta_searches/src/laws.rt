//! A law of the definitions: the contract of a function that does nothing.
ghost use Rattle.zmeta_searches.specs.Laws.{ReadTerms};

use zquery::laws::printed_reads;

/// The text of at most 32 terms, if something is left of each, stands for the query of these terms: the octets of each
/// stand in its own operand, with its own attributes, and nowhere else.
pub fn read_terms()
    ensures { ReadTerms }
{
    printed_reads();
}
