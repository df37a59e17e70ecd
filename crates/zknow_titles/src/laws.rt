//! Laws of the definitions, each the contract of a function that does nothing.
ghost use Rattle.zknow_titles.specs.Parts.{AllTitlePartLaws, WidthsLaw};
ghost use Rattle.zknow_titles.specs.Laws.{SafeLaw, SafeRecordsLaw, QuietLaw, QuietRecordsLaw, NamesLaw};

/// The view is safe to print on a terminal, whatever the names, the character sets, the stops and the facts are.
pub fn safe_law()
    ensures { SafeLaw }
{}

/// The view with whole records is safe to print on a terminal, whatever the names, the character sets, the stops and
/// the facts are.
pub fn safe_records_law()
    ensures { SafeRecordsLaw }
{}

/// If no target stopped, the view is that of no stops: the line of each set, and the rows.
pub fn quiet_law()
    ensures { QuietLaw }
{}

/// If no target stopped, the view with whole records is that of no stops.
pub fn quiet_records_law()
    ensures { QuietRecordsLaw }
{}

/// The name of each row, as it is printed, takes at most 24 columns of a terminal, and as many as that of each other
/// row, whatever the names and the facts are.
pub fn names_law()
    ensures { NamesLaw }
{}

/// The view is what stands before its rows, and then its rows, in columns of the widths that they need.
pub fn title_part_laws()
    ensures { AllTitlePartLaws }
{}

/// The columns that rows take are those of their parts, the greater of both.
pub fn widths_law()
    ensures { WidthsLaw }
{}
