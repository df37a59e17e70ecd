//! Tags, and the element of a style sheet.
ghost use Rattle.std.specs.Prelude.{◌≡◌, ◌==◌, ◌∷◌, ◌++◌, [], not, filter, OnOk, string_bytes};
ghost use Rattle.std.specs.List.{flat_map};
ghost use Rattle.std.specs.Str.{encode_utf8_all};
ghost use Rattle.zhtml.specs.Markup.{given, attribute_of, attribute_text, tag, start_tag, end_tag, void_element};
ghost use Rattle.zhtml.specs.Markup.{sheet, style_element, doctype};

use crate::attributes::Attribute;
use crate::elements::{Element, VoidElement};
use crate::texts::put_text;
use std::alloc::{AllocError, Global};

/// Appends what a document begins with. Returns `AllocError` if no memory is found; nothing is appended.
pub fn put_doctype(out: &mut String) -> Result<(), AllocError>
    ensures { OnOk result (string_bytes out.new ≡ string_bytes out.old ++ doctype) }
{
    out.push_str("<!doctype html>")
}

/// Appends an attribute.
#[tactic(auto, unfolding(crate::specs::Texts::text))]
fn put_attribute(
    alloc: Global,
    attribute: &Attribute<'_>,
    out: &mut String,
) -> Result<(), AllocError>
    ensures { OnOk result (string_bytes out.new
        ≡ string_bytes out.old ++ attribute_text (attribute_of attribute.now.name attribute.now.value.now)) }
{
    out.push_str(" ")?;
    out.push_str(attribute.name.name())?;
    out.push_str("=\"")?;
    put_text(alloc, attribute.value, out)?;
    out.push_str("\"")
}

/// Appends each attribute.
fn put_attributes(
    alloc: Global,
    attributes: &[Attribute<'_>],
    out: &mut String,
) -> Result<(), AllocError>
    ensures { OnOk result (string_bytes out.new
        ≡ string_bytes out.old ++ flat_map attribute_text (given attributes.now)) }
{
    for attribute in attributes {
        put_attribute(alloc, attribute, out)?;
    }
    Ok(())
}

/// Appends a tag with this name.
#[tactic(auto, unfolding(crate::specs::Markup::tag))]
fn put_tag(
    alloc: Global,
    name: &str,
    attributes: &[Attribute<'_>],
    out: &mut String,
) -> Result<(), AllocError>
    ensures { OnOk result (string_bytes out.new
        ≡ string_bytes out.old ++ tag name.now (given attributes.now)) }
{
    out.push_str("<")?;
    out.push_str(name)?;
    put_attributes(alloc, attributes, out)?;
    out.push_str(">")
}

/// Appends the start tag of an element, with attributes in this order. Of each value stands what `put_text` shows,
/// between quotation marks.
///
/// Returns `AllocError` if no memory is found; then a part may be appended.
pub fn put_start(
    alloc: Global,
    element: Element,
    attributes: &[Attribute<'_>],
    out: &mut String,
) -> Result<(), AllocError>
    ensures { OnOk result (string_bytes out.new
        ≡ string_bytes out.old ++ start_tag element (given attributes.now)) }
{
    put_tag(alloc, element.name(), attributes, out)
}

/// Appends the end tag of an element. Returns `AllocError` if no memory is found; then a part may be appended.
#[tactic(auto, unfolding(crate::specs::Markup::end_tag))]
pub fn put_end(element: Element, out: &mut String) -> Result<(), AllocError>
    ensures { OnOk result (string_bytes out.new ≡ string_bytes out.old ++ end_tag element) }
{
    out.push_str("</")?;
    out.push_str(element.name())?;
    out.push_str(">")
}

/// Appends a void element, as `put_start` a start tag.
///
/// Returns `AllocError` if no memory is found; then a part may be appended.
pub fn put_void(
    alloc: Global,
    element: VoidElement,
    attributes: &[Attribute<'_>],
    out: &mut String,
) -> Result<(), AllocError>
    ensures { OnOk result (string_bytes out.new
        ≡ string_bytes out.old ++ void_element element (given attributes.now)) }
{
    put_tag(alloc, element.name(), attributes, out)
}

/// Appends a character of a style sheet, unless it is `<`.
fn put_style_char(c: char, out: &mut String) -> Result<(), AllocError>
    ensures { OnOk result (string_bytes out.new
        ≡ string_bytes out.old ++ encode_utf8_all (filter (λ x. not (x == 0x3C)) (c ∷ []))) }
{
    if c == '<' {
        return Ok(());
    }
    out.push(c)
}

/// Appends the characters of a style sheet without `<`.
fn put_sheet(text: &str, out: &mut String) -> Result<(), AllocError>
    ensures { OnOk result (string_bytes out.new ≡ string_bytes out.old ++ sheet text.now) }
{
    for c in text.chars() {
        put_style_char(c, out)?;
    }
    Ok(())
}

/// Appends the element of a style sheet. The sheet stands as it is, since HTML knows no character references there, but
/// without `<`, which could end it.
///
/// Returns `AllocError` if no memory is found; then a part may be appended.
pub fn put_style(text: &str, out: &mut String) -> Result<(), AllocError>
    ensures { OnOk result (string_bytes out.new ≡ string_bytes out.old ++ style_element text.now) }
{
    out.push_str("<style>")?;
    put_sheet(text, out)?;
    out.push_str("</style>")
}
