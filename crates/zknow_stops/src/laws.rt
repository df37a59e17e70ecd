//! Laws of the definitions, each the contract of a function that does nothing.
ghost use Rattle.zknow_stops.specs.Laws.{WordsLaw};

/// The words are printable ASCII, whatever the detail is.
pub fn words_law()
    ensures { WordsLaw }
{}
