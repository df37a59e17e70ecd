//! Cells of tables, and other elements that have a text alone. Each part of a table says what it is by its role too.
ghost use Rattle.std.specs.Prelude.{◌≡◌, ◌∷◌, ◌++◌, [], codes, map, OnOk, string_bytes};
ghost use Rattle.std.specs.List.{flat_map};
ghost use Rattle.zhtml.specs.declared.attributes.AttributeName.TheVariants.{Role};
ghost use Rattle.zhtml.specs.declared.elements.Element.TheVariants.{Tr, Th, Td, Li};
ghost use Rattle.zhtml.specs.Markup.{start_tag, void_element, attribute_of};
ghost use Rattle.zknow_html.specs.Cells.{only, said, said_with, header_of, column, row_header, text_cell, listed, list_cell, mark, class_if, compared_text, compared_list, summary, line, hidden, row_of, table_start, body_start, block_end, table_end};

use std::alloc::{AllocError, Global};
use zhtml::{
    Attribute, AttributeName, Element, VoidElement, put_end, put_start, put_text, put_void,
};

/// Appends a start tag without attributes.
pub(crate) fn put_bare(alloc: Global, element: Element, out: &mut String) -> Result<(), AllocError>
    ensures { OnOk result (string_bytes out.new ≡ string_bytes out.old ++ start_tag element []) }
{
    put_start(alloc, element, &[], out)
}

/// Appends a start tag with one attribute.
pub(crate) fn put_only(
    alloc: Global,
    element: Element,
    name: AttributeName,
    value: &str,
    out: &mut String,
) -> Result<(), AllocError>
    ensures { OnOk result (string_bytes out.new ≡ string_bytes out.old ++ start_tag element (only name value.now)) }
{
    let attributes = [Attribute {
        name,
        value: value.as_bytes(),
    }];
    put_start(alloc, element, &attributes, out)
}

/// Appends a void element with two attributes.
pub(crate) fn put_pair(
    alloc: Global,
    element: VoidElement,
    name: AttributeName,
    value: &str,
    other_name: AttributeName,
    other_value: &str,
    out: &mut String,
) -> Result<(), AllocError>
    ensures { OnOk result (string_bytes out.new ≡ string_bytes out.old
        ++ void_element element (attribute_of name value.now ∷ attribute_of other_name other_value.now ∷ [])) }
{
    let attributes = [
        Attribute {
            name,
            value: value.as_bytes(),
        },
        Attribute {
            name: other_name,
            value: other_value.as_bytes(),
        },
    ];
    put_void(alloc, element, &attributes, out)
}

/// Appends an element with a text.
#[tactic(auto, unfolding(crate::specs::Cells::said))]
pub(crate) fn put_said(
    alloc: Global,
    element: Element,
    octets: &[u8],
    out: &mut String,
) -> Result<(), AllocError>
    ensures { OnOk result (string_bytes out.new ≡ string_bytes out.old ++ said element octets.now) }
{
    put_bare(alloc, element, out)?;
    put_text(alloc, octets, out)?;
    put_end(element, out)
}

/// Appends an element with one attribute and a text.
#[tactic(auto, unfolding(crate::specs::Cells::said_with))]
pub(crate) fn put_said_with(
    alloc: Global,
    element: Element,
    name: AttributeName,
    value: &str,
    octets: &[u8],
    out: &mut String,
) -> Result<(), AllocError>
    ensures { OnOk result (string_bytes out.new
        ≡ string_bytes out.old ++ said_with element name value.now octets.now) }
{
    put_only(alloc, element, name, value, out)?;
    put_text(alloc, octets, out)?;
    put_end(element, out)
}

/// Appends the start tag of a part of a table, with its role.
fn put_part(alloc: Global, element: Element, role: &str, out: &mut String) -> Result<(), AllocError>
    ensures { OnOk result (string_bytes out.new ≡ string_bytes out.old ++ start_tag element (only Role role.now)) }
{
    put_only(alloc, element, AttributeName::Role, role, out)
}

/// Appends the start tag of a header, of the cells of its column or of its row.
fn put_header_start(
    alloc: Global,
    scope: &str,
    role: &str,
    out: &mut String,
) -> Result<(), AllocError>
    ensures { OnOk result (string_bytes out.new
        ≡ string_bytes out.old ++ start_tag Th (header_of scope.now role.now)) }
{
    let attributes = [
        Attribute {
            name: AttributeName::Scope,
            value: scope.as_bytes(),
        },
        Attribute {
            name: AttributeName::Role,
            value: role.as_bytes(),
        },
    ];
    put_start(alloc, Element::Th, &attributes, out)
}

/// Appends the header of a column.
#[tactic(auto, unfolding(crate::specs::Cells::column))]
pub(crate) fn put_column(alloc: Global, title: &str, out: &mut String) -> Result<(), AllocError>
    ensures { OnOk result (string_bytes out.new ≡ string_bytes out.old ++ column title.now) }
{
    put_header_start(alloc, "col", "columnheader", out)?;
    put_text(alloc, title.as_bytes(), out)?;
    put_end(Element::Th, out)
}

/// Appends the header of a row.
#[tactic(auto, unfolding(crate::specs::Cells::row_header))]
pub(crate) fn put_row_header(alloc: Global, title: &str, out: &mut String) -> Result<(), AllocError>
    ensures { OnOk result (string_bytes out.new ≡ string_bytes out.old ++ row_header title.now) }
{
    put_header_start(alloc, "row", "rowheader", out)?;
    put_text(alloc, title.as_bytes(), out)?;
    put_end(Element::Th, out)
}

/// Appends the start tag of a cell.
pub(crate) fn put_cell_start(alloc: Global, out: &mut String) -> Result<(), AllocError>
    ensures { OnOk result (string_bytes out.new ≡ string_bytes out.old ++ start_tag Td (only Role (codes "cell"))) }
{
    put_part(alloc, Element::Td, "cell", out)
}

/// Appends a cell with a text.
#[tactic(auto, unfolding(crate::specs::Cells::text_cell))]
pub(crate) fn put_cell(alloc: Global, octets: &str, out: &mut String) -> Result<(), AllocError>
    ensures { OnOk result (string_bytes out.new ≡ string_bytes out.old ++ text_cell octets.now) }
{
    put_cell_start(alloc, out)?;
    put_text(alloc, octets.as_bytes(), out)?;
    put_end(Element::Td, out)
}

/// Appends each text as an item of a list.
fn put_items(alloc: Global, texts: &[String], out: &mut String) -> Result<(), AllocError>
    ensures { OnOk result (string_bytes out.new
        ≡ string_bytes out.old ++ flat_map (said Li) (map string_bytes texts.now)) }
{
    for text in texts {
        put_said(alloc, Element::Li, text.as_bytes(), out)?;
    }
    Ok(())
}

/// Appends a list of texts, nothing if there is none.
fn put_listed(alloc: Global, texts: &[String], out: &mut String) -> Result<(), AllocError>
    ensures { OnOk result (string_bytes out.new
        ≡ string_bytes out.old ++ listed (map string_bytes texts.now)) }
{
    if texts.is_empty() {
        return Ok(());
    }
    put_bare(alloc, Element::Ul, out)?;
    put_items(alloc, texts, out)?;
    put_end(Element::Ul, out)
}

/// Appends a cell with a list of texts.
#[tactic(auto, unfolding(crate::specs::Cells::list_cell))]
pub(crate) fn put_list_cell(
    alloc: Global,
    texts: &[String],
    out: &mut String,
) -> Result<(), AllocError>
    ensures { OnOk result (string_bytes out.new
        ≡ string_bytes out.old ++ list_cell (map string_bytes texts.now)) }
{
    put_cell_start(alloc, out)?;
    put_listed(alloc, texts, out)?;
    put_end(Element::Td, out)
}

/// Appends a text that is marked, nothing if it is empty.
pub(crate) fn put_mark(alloc: Global, text: &str, out: &mut String) -> Result<(), AllocError>
    ensures { OnOk result (string_bytes out.new ≡ string_bytes out.old ++ mark text.now) }
{
    if text.is_empty() {
        return Ok(());
    }
    put_said(alloc, Element::Strong, text.as_bytes(), out)
}

/// Appends the start tag of a cell, marked if what it shows differs.
pub(crate) fn put_compared_start(
    alloc: Global,
    other: bool,
    out: &mut String,
) -> Result<(), AllocError>
    ensures { OnOk result (string_bytes out.new
        ≡ string_bytes out.old ++ start_tag Td (class_if other ++ only Role (codes "cell"))) }
{
    if !other {
        return put_cell_start(alloc, out);
    }
    let attributes = [
        Attribute {
            name: AttributeName::Class,
            value: b"other",
        },
        Attribute {
            name: AttributeName::Role,
            value: b"cell",
        },
    ];
    put_start(alloc, Element::Td, &attributes, out)
}

/// Appends a cell with a text, marked if this differs.
#[tactic(auto, unfolding(crate::specs::Cells::compared_text))]
pub(crate) fn put_compared_text(
    alloc: Global,
    other: bool,
    octets: &str,
    out: &mut String,
) -> Result<(), AllocError>
    ensures { OnOk result (string_bytes out.new ≡ string_bytes out.old ++ compared_text other octets.now) }
{
    put_compared_start(alloc, other, out)?;
    put_text(alloc, octets.as_bytes(), out)?;
    put_end(Element::Td, out)
}

/// Appends a cell with a list of texts, marked if these differ.
#[tactic(auto, unfolding(crate::specs::Cells::compared_list))]
pub(crate) fn put_compared_list(
    alloc: Global,
    other: bool,
    texts: &[String],
    out: &mut String,
) -> Result<(), AllocError>
    ensures { OnOk result (string_bytes out.new
        ≡ string_bytes out.old ++ compared_list other (map string_bytes texts.now)) }
{
    put_compared_start(alloc, other, out)?;
    put_listed(alloc, texts, out)?;
    put_end(Element::Td, out)
}

/// Appends the title of texts that a reader opens, marked if they differ.
#[tactic(auto, unfolding(crate::specs::Cells::summary, crate::specs::Cells::said, crate::specs::Cells::said_with))]
fn put_summary(alloc: Global, other: bool, title: &str, out: &mut String) -> Result<(), AllocError>
    ensures { OnOk result (string_bytes out.new ≡ string_bytes out.old ++ summary other title.now) }
{
    if !other {
        return put_said(alloc, Element::Summary, title.as_bytes(), out);
    }
    put_said_with(
        alloc,
        Element::Summary,
        AttributeName::Class,
        "other",
        title.as_bytes(),
        out,
    )
}

/// Appends a text and the line feed that ends it.
#[tactic(auto, unfolding(crate::specs::Cells::line))]
fn put_line(alloc: Global, octets: &[u8], out: &mut String) -> Result<(), AllocError>
    ensures { OnOk result (string_bytes out.new ≡ string_bytes out.old ++ line octets.now) }
{
    put_text(alloc, octets, out)?;
    out.push_str("\n")
}

/// Appends each text as a line.
fn put_lines(alloc: Global, texts: &[String], out: &mut String) -> Result<(), AllocError>
    ensures { OnOk result (string_bytes out.new
        ≡ string_bytes out.old ++ flat_map line (map string_bytes texts.now)) }
{
    for text in texts {
        put_line(alloc, text.as_bytes(), out)?;
    }
    Ok(())
}

/// Appends lines that are seen if a reader opens them, nothing if there is none; their title is marked if they differ.
pub(crate) fn put_hidden(
    alloc: Global,
    other: bool,
    title: &str,
    texts: &[String],
    out: &mut String,
) -> Result<(), AllocError>
    ensures { OnOk result (string_bytes out.new
        ≡ string_bytes out.old ++ hidden other title.now (map string_bytes texts.now)) }
{
    if texts.is_empty() {
        return Ok(());
    }
    put_bare(alloc, Element::Details, out)?;
    put_summary(alloc, other, title, out)?;
    put_bare(alloc, Element::P, out)?;
    put_lines(alloc, texts, out)?;
    put_end(Element::P, out)?;
    put_end(Element::Details, out)
}

/// Appends the start tag of a row of a class.
pub(crate) fn put_row_start(alloc: Global, class: &str, out: &mut String) -> Result<(), AllocError>
    ensures { OnOk result (string_bytes out.new ≡ string_bytes out.old ++ start_tag Tr (row_of class.now)) }
{
    let attributes = [
        Attribute {
            name: AttributeName::Class,
            value: class.as_bytes(),
        },
        Attribute {
            name: AttributeName::Role,
            value: b"row",
        },
    ];
    put_start(alloc, Element::Tr, &attributes, out)
}

/// Appends what a table begins with: before the headers of its columns.
#[tactic(auto, unfolding(crate::specs::Cells::table_start))]
pub(crate) fn put_table_start(alloc: Global, out: &mut String) -> Result<(), AllocError>
    ensures { OnOk result (string_bytes out.new ≡ string_bytes out.old ++ table_start) }
{
    put_part(alloc, Element::Table, "table", out)?;
    put_part(alloc, Element::Thead, "rowgroup", out)?;
    put_part(alloc, Element::Tr, "row", out)
}

/// Appends what stands between these headers and the rows of a table.
#[tactic(auto, unfolding(crate::specs::Cells::body_start))]
pub(crate) fn put_body_start(alloc: Global, out: &mut String) -> Result<(), AllocError>
    ensures { OnOk result (string_bytes out.new ≡ string_bytes out.old ++ body_start) }
{
    put_end(Element::Tr, out)?;
    put_end(Element::Thead, out)?;
    put_part(alloc, Element::Tbody, "rowgroup", out)
}

/// Appends what stands between two blocks of the rows of a table.
#[tactic(auto, unfolding(crate::specs::Cells::block_end))]
pub(crate) fn put_block_end(alloc: Global, out: &mut String) -> Result<(), AllocError>
    ensures { OnOk result (string_bytes out.new ≡ string_bytes out.old ++ block_end) }
{
    put_end(Element::Tbody, out)?;
    put_part(alloc, Element::Tbody, "rowgroup", out)
}

/// Appends what a table ends with.
#[tactic(auto, unfolding(crate::specs::Cells::table_end))]
pub(crate) fn put_table_end(out: &mut String) -> Result<(), AllocError>
    ensures { OnOk result (string_bytes out.new ≡ string_bytes out.old ++ table_end) }
{
    put_end(Element::Tbody, out)?;
    put_end(Element::Table, out)
}
