//! Laws of the definitions. Each is the contract of a function that does nothing.
ghost use Rattle.zknow_runs.specs.RowLaws.{AllRowLaws};

/// What was written is at any time a front of what stands before the text of records and of the text of those that may
/// be given, if each record that is wanted is one of those that are taken.
pub fn row_laws()
    ensures { AllRowLaws }
{}
