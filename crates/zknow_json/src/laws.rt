//! Laws of the definitions, each the contract of a function that does nothing.
ghost use Rattle.zknow_json.specs.Laws.{LinesLaw, ChangeLinesLaw};

/// Whatever the names, the character sets, the stops and the facts are, the text consists of lines of JSON (RFC 8259).
/// Each line is the text of an object: each number is a number of JSON, and no object has a key twice, at any depth.
/// The line is UTF-8 and has no octet below 20 (hexadecimal), and a line feed ends it.
pub fn lines_law()
    ensures { LinesLaw }
{}

/// Whatever the names and the changes are, the text consists of such lines.
pub fn change_lines_law()
    ensures { ChangeLinesLaw }
{}
