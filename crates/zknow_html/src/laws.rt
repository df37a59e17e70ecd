//! Laws of the definitions, each the contract of a function that does nothing.
ghost use Rattle.zknow_html.specs.Laws.{PageLaw, ChangePageLaw, RowsLaw, ChangeRowsLaw};

/// The page is a document of the small HTML of `zhtml`, whatever the heading, the names, the character sets, the stops
/// and the facts are.
pub fn page_law()
    ensures { PageLaw }
{}

/// Read back, the page has the rows that are due, in order and each once: a row for each set that has a line in the
/// view of `zknow_titles`, one for each catalogue that stopped, and one for each record of the rows of that view. Each
/// cell shows what it is due; behind the catalogue's name each of several different records at a position says what
/// differs.
pub fn rows_law()
    ensures { RowsLaw }
{}

/// The page of changes is such a document, whatever the heading, the names and the facts are.
pub fn change_page_law()
    ensures { ChangePageLaw }
{}

/// Read back, the page of changes has a row for each record that is new, changed and gone, in order and each once.
pub fn change_rows_law()
    ensures { ChangeRowsLaw }
{}
