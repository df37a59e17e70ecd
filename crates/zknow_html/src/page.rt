//! The page.
ghost use Rattle.std.specs.Prelude.{◌≡◌, ◌++◌, ◌∷◌, [], codes, map, OnOk, OnErr, IfOk, string_bytes};
ghost use Rattle.zhtml.specs.declared.elements.Element.TheVariants.{Div};
ghost use Rattle.zhtml.specs.Markup.{start_tag};
ghost use Rattle.zknow_titles.specs.Names.{shown_names};
ghost use Rattle.zknow_html.specs.Laws.{IsDocument, HasRowTexts};
ghost use Rattle.zknow_html.specs.Page.{encoding, viewport, policy_element, metadata, head, region, section_start, section_end, catalogues_part, part_with, tables, body, page};
ghost use Rattle.zknow_html.specs.Rows.{row_texts};

use crate::catalogues::put_catalogues;
use crate::cells::{put_bare, put_only, put_pair, put_said, put_said_with};
use crate::records::put_table;
use crate::style::{POLICY, STYLE};
use std::alloc::{AllocError, Global};
use zhtml::{
    Attribute, AttributeName, Element, VoidElement, put_doctype, put_end, put_start, put_style,
    put_void,
};
use zknow::{Knowledge, Names};
use zknow_stops::Stop;
use zknow_titles::show_names;
use zmarc::Charset;

/// Appends the encoding of the page.
#[tactic(auto, unfolding(crate::specs::Page::encoding))]
fn put_encoding(alloc: Global, out: &mut String) -> Result<(), AllocError>
    ensures { OnOk result (string_bytes out.new ≡ string_bytes out.old ++ encoding) }
{
    let attributes = [Attribute {
        name: AttributeName::Charset,
        value: b"utf-8",
    }];
    put_void(alloc, VoidElement::Meta, &attributes, out)
}

/// Appends that a pixel is a pixel on a narrow screen too.
#[tactic(auto, unfolding(crate::specs::Page::viewport))]
fn put_viewport(alloc: Global, out: &mut String) -> Result<(), AllocError>
    ensures { OnOk result (string_bytes out.new ≡ string_bytes out.old ++ viewport) }
{
    put_pair(
        alloc,
        VoidElement::Meta,
        AttributeName::Name,
        "viewport",
        AttributeName::Content,
        "width=device-width, initial-scale=1",
        out,
    )
}

/// Appends what the page may load and run.
#[tactic(auto, unfolding(crate::specs::Page::policy_element))]
fn put_policy(alloc: Global, policy: &str, out: &mut String) -> Result<(), AllocError>
    ensures { OnOk result (string_bytes out.new ≡ string_bytes out.old ++ policy_element policy.now) }
{
    put_pair(
        alloc,
        VoidElement::Meta,
        AttributeName::HttpEquiv,
        "Content-Security-Policy",
        AttributeName::Content,
        policy,
        out,
    )
}

/// Appends all that a program is told.
#[tactic(auto, unfolding(crate::specs::Page::metadata))]
fn put_metadata(alloc: Global, policy: &str, out: &mut String) -> Result<(), AllocError>
    ensures { OnOk result (string_bytes out.new ≡ string_bytes out.old ++ metadata policy.now) }
{
    put_encoding(alloc, out)?;
    put_viewport(alloc, out)?;
    put_policy(alloc, policy, out)
}

/// Appends what is told of the page.
#[tactic(auto, unfolding(crate::specs::Page::head))]
pub(crate) fn put_head(
    alloc: Global,
    policy: &str,
    style: &str,
    heading: &[u8],
    out: &mut String,
) -> Result<(), AllocError>
    ensures { OnOk result (string_bytes out.new
        ≡ string_bytes out.old ++ head policy.now style.now heading.now) }
{
    put_bare(alloc, Element::Head, out)?;
    put_metadata(alloc, policy, out)?;
    put_said(alloc, Element::Title, heading, out)?;
    put_style(style, out)?;
    put_end(Element::Head, out)
}

/// Appends the start tag of a part of the page that can be moved by itself.
fn put_region(alloc: Global, name: &str, out: &mut String) -> Result<(), AllocError>
    ensures { OnOk result (string_bytes out.new ≡ string_bytes out.old ++ start_tag Div (region name.now)) }
{
    let attributes = [
        Attribute {
            name: AttributeName::Class,
            value: b"region",
        },
        Attribute {
            name: AttributeName::Role,
            value: b"region",
        },
        Attribute {
            name: AttributeName::AriaLabelledby,
            value: name.as_bytes(),
        },
        Attribute {
            name: AttributeName::Tabindex,
            value: b"0",
        },
    ];
    put_start(alloc, Element::Div, &attributes, out)
}

/// Appends what a part of the page begins with: its heading, before its table.
#[tactic(auto, unfolding(crate::specs::Page::section_start))]
fn put_section_start(
    alloc: Global,
    name: &str,
    heading: &str,
    out: &mut String,
) -> Result<(), AllocError>
    ensures { OnOk result (string_bytes out.new ≡ string_bytes out.old ++ section_start name.now heading.now) }
{
    put_bare(alloc, Element::Section, out)?;
    put_said_with(
        alloc,
        Element::H2,
        AttributeName::Id,
        name,
        heading.as_bytes(),
        out,
    )?;
    put_region(alloc, name, out)
}

/// Appends what a part of the page ends with.
#[tactic(auto, unfolding(crate::specs::Page::section_end))]
fn put_section_end(out: &mut String) -> Result<(), AllocError>
    ensures { OnOk result (string_bytes out.new ≡ string_bytes out.old ++ section_end) }
{
    put_end(Element::Div, out)?;
    put_end(Element::Section, out)
}

/// Appends the part of the catalogues.
#[tactic(auto, unfolding(crate::specs::Page::section))]
fn put_catalogues_part(
    alloc: Global,
    shown: &[String],
    knowledge: &Knowledge,
    stops: &[Option<Stop>],
    out: &mut String,
) -> Result<(), AllocError>
    ensures { OnOk result (string_bytes out.new ≡ string_bytes out.old
        ++ catalogues_part (map string_bytes shown.now) stops.now knowledge.now) }
{
    put_section_start(alloc, "catalogues", "Catalogues", out)?;
    let sets = knowledge.sets()?;
    put_catalogues(alloc, shown, knowledge, stops, &sets, out)?;
    put_section_end(out)
}

/// Appends a part with records.
#[tactic(auto, unfolding(crate::specs::Page::section))]
pub(crate) fn put_part_with(
    alloc: Global,
    name: &str,
    heading: &str,
    shown: &[String],
    charsets: &[Option<Charset>],
    knowledge: &Knowledge,
    out: &mut String,
) -> Result<(), AllocError>
    ensures { OnOk result (string_bytes out.new ≡ string_bytes out.old
        ++ part_with name.now heading.now (map string_bytes shown.now) charsets.now knowledge.now) }
{
    put_section_start(alloc, name, heading, out)?;
    let rows = knowledge.rows()?;
    put_table(alloc, shown, charsets, knowledge, &rows, out)?;
    put_section_end(out)
}

/// Appends the tables.
#[tactic(auto, unfolding(crate::specs::Page::tables))]
fn put_tables(
    alloc: Global,
    shown: &[String],
    charsets: &[Option<Charset>],
    knowledge: &Knowledge,
    stops: &[Option<Stop>],
    out: &mut String,
) -> Result<(), AllocError>
    ensures { OnOk result (string_bytes out.new ≡ string_bytes out.old
        ++ tables (map string_bytes shown.now) charsets.now stops.now knowledge.now) }
{
    put_catalogues_part(alloc, shown, knowledge, stops, out)?;
    put_part_with(alloc, "records", "Records", shown, charsets, knowledge, out)
}

/// Appends what is shown.
#[tactic(auto, unfolding(crate::specs::Page::body))]
fn put_body(
    alloc: Global,
    heading: &[u8],
    shown: &[String],
    charsets: &[Option<Charset>],
    knowledge: &Knowledge,
    stops: &[Option<Stop>],
    out: &mut String,
) -> Result<(), AllocError>
    ensures { OnOk result (string_bytes out.new ≡ string_bytes out.old
        ++ body heading.now (tables (map string_bytes shown.now) charsets.now stops.now knowledge.now)) }
{
    put_bare(alloc, Element::Body, out)?;
    put_said(alloc, Element::H1, heading, out)?;
    put_bare(alloc, Element::Main, out)?;
    put_tables(alloc, shown, charsets, knowledge, stops, out)?;
    put_end(Element::Main, out)?;
    put_end(Element::Body, out)
}

/// Returns the page as a text of its own.
#[tactic(auto, unfolding(crate::specs::Page::page, crate::specs::Page::document))]
fn view(
    alloc: Global,
    heading: &[u8],
    names: &Names,
    charsets: &[Option<Charset>],
    stops: &[Option<Stop>],
    knowledge: &Knowledge,
) -> Result<String, AllocError>
    ensures { IfOk result (λ text. string_bytes text
        ≡ page heading.now names.now charsets.now stops.now knowledge.now) }
{
    let shown = show_names(alloc, names)?;
    let mut text = String::new(alloc);
    put_doctype(&mut text)?;
    put_only(alloc, Element::Html, AttributeName::Lang, "en", &mut text)?;
    put_head(alloc, POLICY, STYLE, heading, &mut text)?;
    put_body(
        alloc, heading, &shown, charsets, knowledge, stops, &mut text,
    )?;
    put_end(Element::Html, &mut text)?;
    Ok(text)
}

/// Appends the page. Under `heading` it has a table of the catalogues: a row for each target's set of which a count, a
/// failure or a diagnostic is known, by target and set, with how many records were found, are shown, were refused and
/// are missing, a bar of the share that is shown, and why any are missing; then a row for each target whose connection
/// stopped. A table of the records follows: a row for each record that is known, by position, target and set; the rows
/// of 50 positions are a block. Behind its title are the lines that `print_fields` of `zknow_titles` has of it, each
/// ended by a line feed; a reader opens them. Each of several different records at a position has a mark, whose words
/// say what not all of them have alike. Each cell that differs is of the class `other`, and so is the title of those
/// lines if they differ. No cell of a single record is.
///
/// Entry `c` of `stops` says why the connection of target `c` stopped; without an entry it did not. A target has its
/// name in `names`, else `#` and its number. Entry `c` of `charsets` is the character set of the records of target `c`,
/// if that is known: MARC records and SUTRS are read in it, as `print_titles` of `zknow_titles` says.
///
/// Read back, the page has each of these rows once, in this order.
///
/// Whatever the heading, the names, the character sets, the stops, the diagnostics and the records are, the page is a
/// document of the small HTML of `zhtml`: their texts are no markup in it. It has no script, and loads nothing.
///
/// Returns `AllocError` if no memory is found; nothing is appended.
pub fn print_html(
    alloc: Global,
    heading: &[u8],
    names: &Names,
    charsets: &[Option<Charset>],
    stops: &[Option<Stop>],
    knowledge: &Knowledge,
    out: &mut Vec<u8>,
) -> Result<(), AllocError>
    ensures ok { OnOk result (out.new.items
        ≡ out.old.items ++ page heading.now names.now charsets.now stops.now knowledge.now) }
    ensures err { OnErr result (out.new.items ≡ out.old.items) }
    ensures document { IsDocument (page heading.now names.now charsets.now stops.now knowledge.now) }
    ensures rows { HasRowTexts (page heading.now names.now charsets.now stops.now knowledge.now)
        (row_texts (shown_names names.now) charsets.now stops.now knowledge.now) }
{
    let text = view(alloc, heading, names, charsets, stops, knowledge)?;
    out.extend_from_slice(text.as_bytes())
}
