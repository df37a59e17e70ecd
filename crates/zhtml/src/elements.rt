//! Elements and their names (HTML Standard, 4).
ghost use Rattle.std.specs.Prelude.{◌≡◌};
ghost use Rattle.zhtml.specs.Names.{element_name, void_name};

/// An element that has a start tag and an end tag.
#[derive(Clone, Copy, PartialEq, Eq)]
pub enum Element {
    /// The document.
    Html,
    /// What is told of the document.
    Head,
    /// The document's title.
    Title,
    /// What is shown of the document.
    Body,
    /// What introduces the document.
    Header,
    /// What the document is about.
    Main,
    /// What stands behind a document.
    Footer,
    /// A part with a heading.
    Section,
    /// The heading of the document.
    H1,
    /// The heading of a section.
    H2,
    /// A paragraph.
    P,
    /// A part of the page.
    Div,
    /// A part of a text.
    Span,
    /// A part of a text that is important.
    Strong,
    /// A table.
    Table,
    /// The title of a table.
    Caption,
    /// The rows at the head of a table.
    Thead,
    /// The rows of a table.
    Tbody,
    /// A row.
    Tr,
    /// A cell that is a header of others.
    Th,
    /// A cell.
    Td,
    /// What can be opened to be seen.
    Details,
    /// What is seen of it before.
    Summary,
    /// A list in no order.
    Ul,
    /// An item of a list.
    Li,
    /// A list of terms.
    Dl,
    /// A term.
    Dt,
    /// What is told of a term.
    Dd,
    /// A measure within a known range.
    Meter,
}

/// An element that has a start tag alone, and no content (HTML Standard, 13.1.2: void elements).
#[derive(Clone, Copy, PartialEq, Eq)]
pub enum VoidElement {
    /// What a program is told of the document.
    Meta,
    /// A line break.
    Br,
}

impl Element {
    /// Returns the name, as tags have it.
    pub fn name(self) -> &'static str
        ensures { result.now ≡ element_name self }
    {
        match self {
            Element::Html => "html",
            Element::Head => "head",
            Element::Title => "title",
            Element::Body => "body",
            Element::Header => "header",
            Element::Main => "main",
            Element::Footer => "footer",
            Element::Section => "section",
            Element::H1 => "h1",
            Element::H2 => "h2",
            Element::P => "p",
            Element::Div => "div",
            Element::Span => "span",
            Element::Strong => "strong",
            Element::Table => "table",
            Element::Caption => "caption",
            Element::Thead => "thead",
            Element::Tbody => "tbody",
            Element::Tr => "tr",
            Element::Th => "th",
            Element::Td => "td",
            Element::Details => "details",
            Element::Summary => "summary",
            Element::Ul => "ul",
            Element::Li => "li",
            Element::Dl => "dl",
            Element::Dt => "dt",
            Element::Dd => "dd",
            Element::Meter => "meter",
        }
    }
}

impl VoidElement {
    /// Returns the name, as the tag has it.
    pub fn name(self) -> &'static str
        ensures { result.now ≡ void_name self }
    {
        match self {
            VoidElement::Meta => "meta",
            VoidElement::Br => "br",
        }
    }
}
