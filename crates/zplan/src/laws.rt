//! Laws of the definitions. Each is the contract of a function that does nothing.
ghost use Rattle.zplan.specs.Laws.{CompleteLaws, ReplyOrderLaw, NumberLaw, PresentRunLaw, ReplyLaws, ShownLaws, BoundLaws, AgendaLaws, NextLaws, CutExampleLaws};

/// A history is complete if Close was sent, or if the reply to Init lets no search be sent. The operations that were
/// answered in it are exactly those that are planned.
pub fn complete_laws()
    ensures { CompleteLaws }
{}

/// If equal operations had equal replies in two complete histories, both have the same operations, with the same
/// replies.
pub fn order_law()
    ensures { ReplyOrderLaw }
{}

/// A number names one operation: no two planned lists have the same first position.
pub fn number_law()
    ensures { NumberLaw }
{}

/// If version 3 is not in force, each planned list is one run of positions.
pub fn run_law()
    ensures { PresentRunLaw }
{}

/// A reply adds to the plan the operations that it makes due, and nothing else.
pub fn reply_laws()
    ensures { ReplyLaws }
{}

/// If each planned list is answered with one record at least, and no more than it has positions, exactly the wanted
/// positions up to the count are shown.
pub fn shown_laws()
    ensures { ShownLaws }
{}

/// At most two requests, and one for each wanted position up to the count, are ever sent; Close is not counted. A
/// planned list has at most `step` positions, and the search found each of them.
pub fn bound_laws()
    ensures { BoundLaws }
{}

/// The agenda of a schedule has exactly the lists that are due and those that wait, whatever is sent and received.
pub fn agenda_laws()
    ensures { AgendaLaws }
{}

/// The driver sends the Present of the first list due next. If nothing is due or outstanding, and Init and the search
/// were sent, it sends Close.
pub fn next_laws()
    ensures { NextLaws }
{}

/// An example: positions 1, 2 and 5 to 7 of a set of 7 records, cut by 3.
pub fn row_laws()
    ensures { CutExampleLaws }
{}
