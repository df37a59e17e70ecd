// Laws of the definitions, each the contract of a function that does nothing.
ghost use Rattle.zquery.specs.Notation.Laws.{OneLexing, SetNames, OneQuery, NoneRefused, FirstFault, TooDeepAlone, OneQueryOrFault, PrintedQueries, PrintableTexts, SpellableTexts};

/// A text has one list of tokens at most, or one quote that no quote closes, and not both.
pub fn one_lexing()
    ensures { OneLexing }
{}

/// The name of a set is `bib-1`, in any case, or the dotted text of an object identifier.
pub fn set_names()
    ensures { SetNames }
{}

/// Tokens stand for one query at most.
pub fn one_query()
    ensures { OneQuery }
{}

/// Tokens that stand for a query of height 32 at most are not refused.
pub fn none_refused()
    ensures { NoneRefused }
{}

/// An error is at the first token with which the tokens stop being the beginning of a query, or at the text's end. It
/// is `Empty`, at 0, if there is no token.
pub fn first_fault()
    ensures { FirstFault }
{}

/// An error is `TooDeep` exactly if the tokens before its token, with this token, begin a query of any height.
pub fn too_deep_alone()
    ensures { TooDeepAlone }
{}

/// A text stands for one query at most and has one error at most. It has no error if it stands for a query of height 32
/// at most.
pub fn one_answer()
    ensures { OneQueryOrFault }
{}

/// The text that is printed for a query stands for this query.
pub fn printed_reads()
    ensures { PrintedQueries }
{}

/// If a text stands for a query of height 32 at most, the query can be printed.
pub fn text_printable()
    ensures { PrintableTexts }
{}

/// If a text stands for a query, some element stands for it too.
pub fn text_spellable()
    ensures { SpellableTexts }
{}
