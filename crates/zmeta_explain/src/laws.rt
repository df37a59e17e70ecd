//! Laws of the definitions, each the contract of a function that does nothing.
ghost use Rattle.zmeta_explain.specs.Laws.{SafeLaw, SafeLineLaw, SafeStopLaw};

/// The words for a mistake are printable ASCII, whatever octets its text is.
pub fn safe_law()
    ensures { SafeLaw }
{}

/// The words for a connection that stopped are printable ASCII, whatever octets name and address are.
pub fn safe_stop_law()
    ensures { SafeStopLaw }
{}

/// The words for a line of a world file are printable ASCII, whatever octets the file is.
pub fn safe_line_law()
    ensures { SafeLineLaw }
{}
