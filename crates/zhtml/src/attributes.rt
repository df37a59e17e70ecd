//! Attributes and their names (HTML Standard, 3.2.6 and 4; WAI-ARIA, 6).
ghost use Rattle.std.specs.Prelude.{◌≡◌};
ghost use Rattle.zhtml.specs.Names.{attribute_name};

/// The name of an attribute.
#[derive(Clone, Copy, PartialEq, Eq)]
pub enum AttributeName {
    /// The language of the content.
    Lang,
    /// The encoding of the document.
    Charset,
    /// The header of HTTP that a meta element stands for.
    HttpEquiv,
    /// The name of what a meta element tells.
    Name,
    /// What a meta element tells.
    Content,
    /// The classes of an element.
    Class,
    /// The name of an element within the document.
    Id,
    /// Of which cells a cell is a header.
    Scope,
    /// How many rows a cell spans.
    Rowspan,
    /// How many columns a cell spans.
    Colspan,
    /// The value of a measure.
    Value,
    /// The greatest value of a measure.
    Max,
    /// The part that an element plays.
    Role,
    /// The place of an element in the order of the tab key.
    Tabindex,
    /// What an element is called, where no text is shown.
    AriaLabel,
    /// The element that says what an element is called.
    AriaLabelledby,
}

/// An attribute: its name, and the octets of its value, which may be a stranger's.
#[derive(Clone, Copy)]
pub struct Attribute<'a> {
    /// The name.
    pub name: AttributeName,
    /// The octets of the value.
    pub value: &'a [u8],
}

impl AttributeName {
    /// Returns the name, as tags have it.
    pub fn name(self) -> &'static str
        ensures { result.now ≡ attribute_name self }
    {
        match self {
            AttributeName::Lang => "lang",
            AttributeName::Charset => "charset",
            AttributeName::HttpEquiv => "http-equiv",
            AttributeName::Name => "name",
            AttributeName::Content => "content",
            AttributeName::Class => "class",
            AttributeName::Id => "id",
            AttributeName::Scope => "scope",
            AttributeName::Rowspan => "rowspan",
            AttributeName::Colspan => "colspan",
            AttributeName::Value => "value",
            AttributeName::Max => "max",
            AttributeName::Role => "role",
            AttributeName::Tabindex => "tabindex",
            AttributeName::AriaLabel => "aria-label",
            AttributeName::AriaLabelledby => "aria-labelledby",
        }
    }
}
