//! Laws of the definitions, each the contract of a function that does nothing.
ghost use Rattle.zhtml.specs.Laws.{ReadLaw, MarkupLaws, VisibleLaw};

/// The text of nodes, read back, is the nodes: whatever the texts and the values of attributes are, they are no markup.
/// A style sheet in it has no `<`.
pub fn read_law()
    ensures { ReadLaw }
{}

/// What is made of texts, elements, void elements and style sheets, one behind the other, is the text of nodes.
pub fn markup_laws()
    ensures { MarkupLaws }
{}

/// Whatever octets are shown, they are UTF-8 of visible characters.
pub fn visible_law()
    ensures { VisibleLaw }
{}
