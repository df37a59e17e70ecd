//! The page of what changed between two saved files.
ghost use Rattle.std.specs.Prelude.{◌≡◌, ◌++◌, map, OnOk, OnErr, IfOk, string_bytes};
ghost use Rattle.zknow_titles.specs.Names.{shown_names};
ghost use Rattle.zknow_html.specs.Laws.{IsDocument, HasRowTexts};
ghost use Rattle.zknow_html.specs.Page.{change_tables, body, change_page};
ghost use Rattle.zknow_html.specs.Rows.{change_texts};

use crate::cells::{put_bare, put_only, put_said};
use crate::page::{put_head, put_part_with};
use crate::style::{POLICY, STYLE};
use std::alloc::{AllocError, Global};
use zhtml::{AttributeName, Element, put_doctype, put_end};
use zknow::{Knowledge, Names};
use zknow_titles::show_names;

/// The records that changed between two saved files.
#[derive(Clone, Copy)]
pub struct ChangedParts<'a> {
    /// Those that are new.
    pub fresh: &'a Knowledge,
    /// Those that changed.
    pub changed: &'a Knowledge,
    /// Those that are gone.
    pub gone: &'a Knowledge,
}

/// Appends the tables of the records that are new, changed and gone.
#[tactic(auto, unfolding(crate::specs::Page::change_tables))]
fn put_tables(
    alloc: Global,
    earlier: &[String],
    later: &[String],
    parts: ChangedParts<'_>,
    out: &mut String,
) -> Result<(), AllocError>
    ensures { let p = parts.entry in OnOk result (string_bytes out.new ≡ string_bytes out.old
        ++ change_tables (map string_bytes earlier.now) (map string_bytes later.now) p.fresh.now p.changed.now
        p.gone.now) }
{
    put_part_with(alloc, "new", "New", later, &[], parts.fresh, out)?;
    put_part_with(alloc, "changed", "Changed", later, &[], parts.changed, out)?;
    put_part_with(alloc, "gone", "Gone", earlier, &[], parts.gone, out)
}

/// Appends what is shown.
#[tactic(auto, unfolding(crate::specs::Page::body))]
fn put_body(
    alloc: Global,
    heading: &[u8],
    earlier: &[String],
    later: &[String],
    parts: ChangedParts<'_>,
    out: &mut String,
) -> Result<(), AllocError>
    ensures { let p = parts.entry in OnOk result (string_bytes out.new ≡ string_bytes out.old
        ++ body heading.now (change_tables (map string_bytes earlier.now) (map string_bytes later.now) p.fresh.now
        p.changed.now p.gone.now)) }
{
    put_bare(alloc, Element::Body, out)?;
    put_said(alloc, Element::H1, heading, out)?;
    put_bare(alloc, Element::Main, out)?;
    put_tables(alloc, earlier, later, parts, out)?;
    put_end(Element::Main, out)?;
    put_end(Element::Body, out)
}

/// Returns the page as a text of its own.
#[tactic(auto, unfolding(crate::specs::Page::change_page, crate::specs::Page::document))]
fn view(
    alloc: Global,
    heading: &[u8],
    earlier: &Names,
    later: &Names,
    parts: ChangedParts<'_>,
) -> Result<String, AllocError>
    ensures { let p = parts.entry in IfOk result (λ text. string_bytes text
        ≡ change_page heading.now earlier.now later.now p.fresh.now p.changed.now p.gone.now) }
{
    let shown_earlier = show_names(alloc, earlier)?;
    let shown_later = show_names(alloc, later)?;
    let mut text = String::new(alloc);
    put_doctype(&mut text)?;
    put_only(alloc, Element::Html, AttributeName::Lang, "en", &mut text)?;
    put_head(alloc, POLICY, STYLE, heading, &mut text)?;
    put_body(
        alloc,
        heading,
        &shown_earlier,
        &shown_later,
        parts,
        &mut text,
    )?;
    put_end(Element::Html, &mut text)?;
    Ok(text)
}

/// Appends a page of what changed between two saved files. Under `heading` it has three tables of records, as that of
/// `print_html`: those that are new, those that changed and those that are gone. `earlier` and `later` are the names of
/// the two files; what is gone stands in the earlier one. No character set is known of their records.
///
/// Read back, the page has a row for each record, in this order and each once. Whatever the heading, the names and the
/// records are, it is a document of the small HTML: their texts are no markup in it. It has no script, and loads
/// nothing.
///
/// Returns `AllocError` if no memory is found; nothing is appended.
#[tactic(auto, using(crate::proofs::PageTheory::changes_are_document, crate::proofs::PageTheory::change_page_has_rows))]
pub fn print_change_page(
    alloc: Global,
    heading: &[u8],
    earlier: &Names,
    later: &Names,
    parts: ChangedParts<'_>,
    out: &mut Vec<u8>,
) -> Result<(), AllocError>
    ensures ok { let p = parts.entry in OnOk result (out.new.items ≡ out.old.items
        ++ change_page heading.now earlier.now later.now p.fresh.now p.changed.now p.gone.now) }
    ensures err { OnErr result (out.new.items ≡ out.old.items) }
    ensures document { let p = parts.entry in
        IsDocument (change_page heading.now earlier.now later.now p.fresh.now p.changed.now p.gone.now) }
    ensures rows { let p = parts.entry in
        HasRowTexts (change_page heading.now earlier.now later.now p.fresh.now p.changed.now p.gone.now)
        (change_texts (shown_names earlier.now) (shown_names later.now) p.fresh.now p.changed.now p.gone.now) }
{
    let text = view(alloc, heading, earlier, later, parts)?;
    out.extend_from_slice(text.as_bytes())
}
