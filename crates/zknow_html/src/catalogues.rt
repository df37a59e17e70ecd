//! The table of catalogues: what each found, what is shown of it, and why anything is missing.
ghost use Rattle.std.specs.Prelude.{◌≡◌, ◌-◌, ◌++◌, ◌∷◌, [], codes, length, map, IfOk, OnOk, string_bytes};
ghost use Rattle.std.specs.List.{flat_map};
ghost use Rattle.zhtml.specs.declared.attributes.AttributeName.TheVariants.{Value, Max};
ghost use Rattle.zhtml.specs.declared.elements.Element.TheVariants.{Meter};
ghost use Rattle.zhtml.specs.Markup.{start_tag, attribute_of};
ghost use Rattle.zknow.specs.Known.{referenced_pairs};
ghost use Rattle.zknow.specs.List.Listing.{positions_at};
ghost use Rattle.zknow_html.specs.Catalogues.{found_text, missing, missing_text, meter, share, share_cell, reasons, number_cells, known_row};
ghost use Rattle.zknow_html.specs.Catalogues.{set_row, empty_cells, stop_row, stop_rows, stops_from, count_columns, catalogue_columns, catalogue_table};

use crate::cells::{
    put_body_start, put_cell, put_cell_start, put_column, put_list_cell, put_row_header,
    put_row_start, put_table_end, put_table_start,
};
use std::alloc::{AllocError, Global};
use zapdu::DiagRec;
use zhtml::{Attribute, AttributeName, Element, put_end, put_start, put_text};
use zknow::{Knowledge, SetKey};
use zknow_stops::Stop;
use zknow_titles::{
    count_shown, counts_of, label_of, name_of, put_failure, put_joined, put_requests, show_numbers,
    show_search, show_stop,
};

/// Returns how many records a catalogue found.
fn found_text(alloc: Global, counts: &[i64]) -> Result<String, AllocError>
    ensures { IfOk result (λ shown. string_bytes shown ≡ found_text counts.now) }
{
    let mut shown = String::new(alloc);
    let numbers = show_numbers(alloc, counts)?;
    put_joined(" or ", &numbers, &mut shown)?;
    Ok(shown)
}

/// Counts the positions of a set at which something is known, without those at which a record is shown.
fn count_others(knowledge: &Knowledge, key: &SetKey, shown: usize) -> Result<usize, AllocError>
    ensures { IfOk result (λ count. count ≡ length (positions_at key.now.target key.now.set knowledge.now) - shown) }
{
    let positions = knowledge.positions(key.target, key.set)?;
    Ok(positions.len().saturating_sub(shown))
}

/// Returns how many of the records that a catalogue found are neither shown nor refused; 0 if it found fewer.
fn missing(shown: usize, refused: usize, count: i64) -> i128
    ensures { result ≡ missing shown refused count }
{
    let known = shown as i128 + refused as i128;
    let found = count as i128;
    if known < found { found - known } else { 0 }
}

/// Returns that number, if one count is known.
fn missing_text(
    alloc: Global,
    shown: usize,
    refused: usize,
    counts: &[i64],
) -> Result<String, AllocError>
    ensures { IfOk result (λ text. string_bytes text ≡ missing_text shown refused counts.now) }
{
    match counts {
        [count] => missing(shown, refused, *count).to_string(alloc),
        [] | [_, _, ..] => Ok(String::new(alloc)),
    }
}

/// Appends the start tag of a bar: its value, and its greatest.
fn put_measure(
    alloc: Global,
    value: &str,
    greatest: &str,
    out: &mut String,
) -> Result<(), AllocError>
    ensures { OnOk result (string_bytes out.new ≡ string_bytes out.old
        ++ start_tag Meter (attribute_of Value value.now ∷ attribute_of Max greatest.now ∷ [])) }
{
    let attributes = [
        Attribute {
            name: AttributeName::Value,
            value: value.as_bytes(),
        },
        Attribute {
            name: AttributeName::Max,
            value: greatest.as_bytes(),
        },
    ];
    put_start(alloc, Element::Meter, &attributes, out)
}

/// Returns how many of how many are shown, as `2 of 24`.
fn share_text(alloc: Global, shown: &str, count: &str) -> Result<String, AllocError>
    ensures { IfOk result (λ words. string_bytes words ≡ shown.now ++ codes " of " ++ count.now) }
{
    let mut words = String::from_str(alloc, shown)?;
    words.push_str(" of ")?;
    words.push_str(count)?;
    Ok(words)
}

/// Appends a bar: how many of so many are shown.
#[tactic(auto, unfolding(crate::specs::Catalogues::meter))]
fn put_meter(alloc: Global, shown: usize, count: i64, out: &mut String) -> Result<(), AllocError>
    ensures { OnOk result (string_bytes out.new ≡ string_bytes out.old ++ meter shown count) }
{
    let value = shown.to_string(alloc)?;
    let greatest = count.to_string(alloc)?;
    put_measure(alloc, value.as_str(), greatest.as_str(), out)?;
    let words = share_text(alloc, value.as_str(), greatest.as_str())?;
    put_text(alloc, words.as_bytes(), out)?;
    put_end(Element::Meter, out)
}

/// Appends that bar, if one count above 0 is known and no other.
fn put_share(
    alloc: Global,
    shown: usize,
    counts: &[i64],
    out: &mut String,
) -> Result<(), AllocError>
    ensures { OnOk result (string_bytes out.new ≡ string_bytes out.old ++ share shown counts.now) }
{
    match counts {
        [count] => {
            if 0 < *count {
                return put_meter(alloc, shown, *count, out);
            }
            Ok(())
        }
        [] | [_, _, ..] => Ok(()),
    }
}

/// Appends its cell.
#[tactic(auto, unfolding(crate::specs::Catalogues::share_cell))]
fn put_share_cell(
    alloc: Global,
    shown: usize,
    counts: &[i64],
    out: &mut String,
) -> Result<(), AllocError>
    ensures { OnOk result (string_bytes out.new ≡ string_bytes out.old ++ share_cell shown counts.now) }
{
    put_cell_start(alloc, out)?;
    put_share(alloc, shown, counts, out)?;
    put_end(Element::Td, out)
}

/// Returns why records are missing.
fn find_reasons(
    alloc: Global,
    set: u32,
    failed: bool,
    diags: &[(i64, &DiagRec)],
) -> Result<Vec<String>, AllocError>
    ensures { IfOk result (λ why. map string_bytes why.items ≡ reasons set failed (referenced_pairs diags.now)) }
{
    let mut why = Vec::new(alloc);
    let texts = show_search(alloc, diags)?;
    put_failure(alloc, set, failed, &texts, &mut why)?;
    put_requests(alloc, diags, &mut why)?;
    Ok(why)
}

/// Appends the cells of numbers.
#[tactic(auto, unfolding(crate::specs::Catalogues::number_cells))]
fn put_numbers(
    alloc: Global,
    counts: &[i64],
    shown: usize,
    refused: usize,
    out: &mut String,
) -> Result<(), AllocError>
    ensures { OnOk result (string_bytes out.new ≡ string_bytes out.old ++ number_cells counts.now shown refused) }
{
    let found = found_text(alloc, counts)?;
    put_cell(alloc, found.as_str(), out)?;
    let number = shown.to_string(alloc)?;
    put_cell(alloc, number.as_str(), out)?;
    let withheld = refused.to_string(alloc)?;
    put_cell(alloc, withheld.as_str(), out)?;
    let rest = missing_text(alloc, shown, refused, counts)?;
    put_cell(alloc, rest.as_str(), out)?;
    put_share_cell(alloc, shown, counts, out)
}

/// Appends the row of a set, by what is known of it.
#[tactic(auto, unfolding(crate::specs::Catalogues::known_row))]
fn put_known_row(
    alloc: Global,
    name: &str,
    counts: &[i64],
    shown: usize,
    refused: usize,
    why: &[String],
    out: &mut String,
) -> Result<(), AllocError>
    ensures { OnOk result (string_bytes out.new
        ≡ string_bytes out.old ++ known_row name.now counts.now shown refused (map string_bytes why.now)) }
{
    put_row_start(alloc, "catalogue", out)?;
    put_row_header(alloc, name, out)?;
    put_numbers(alloc, counts, shown, refused, out)?;
    put_list_cell(alloc, why, out)?;
    put_end(Element::Tr, out)
}

/// Appends the row of a set.
fn put_set_row(
    alloc: Global,
    shown: &[String],
    knowledge: &Knowledge,
    key: &SetKey,
    out: &mut String,
) -> Result<(), AllocError>
    ensures { OnOk result (string_bytes out.new
        ≡ string_bytes out.old ++ set_row (map string_bytes shown.now) knowledge.now key.now) }
{
    let name = label_of(alloc, shown, key.target, key.set)?;
    let counts = counts_of(knowledge, key);
    let count = count_shown(knowledge, key)?;
    let refused = count_others(knowledge, key, count)?;
    let diags = knowledge.diags(key.target, key.set)?;
    let failed = knowledge.is_failed(key.target, key.set);
    let why = find_reasons(alloc, key.set, failed, &diags)?;
    put_known_row(alloc, name.as_str(), counts, count, refused, &why, out)
}

/// Appends the row of each set.
fn put_set_rows(
    alloc: Global,
    shown: &[String],
    knowledge: &Knowledge,
    sets: &[SetKey],
    out: &mut String,
) -> Result<(), AllocError>
    ensures { OnOk result (string_bytes out.new
        ≡ string_bytes out.old ++ flat_map (set_row (map string_bytes shown.now) knowledge.now) sets.now) }
{
    for key in sets {
        put_set_row(alloc, shown, knowledge, key, out)?;
    }
    Ok(())
}

/// Appends five empty cells, in place of numbers.
#[tactic(auto, unfolding(crate::specs::Catalogues::empty_cells))]
fn put_empty_cells(alloc: Global, out: &mut String) -> Result<(), AllocError>
    ensures { OnOk result (string_bytes out.new ≡ string_bytes out.old ++ empty_cells) }
{
    put_cell(alloc, "", out)?;
    put_cell(alloc, "", out)?;
    put_cell(alloc, "", out)?;
    put_cell(alloc, "", out)?;
    put_cell(alloc, "", out)
}

/// Appends the row of a catalogue whose connection stopped.
#[tactic(auto, unfolding(crate::specs::Catalogues::stop_row))]
fn put_stop_row(
    alloc: Global,
    shown: &[String],
    target: usize,
    stop: &Stop,
    out: &mut String,
) -> Result<(), AllocError>
    ensures { OnOk result (string_bytes out.new
        ≡ string_bytes out.old ++ stop_row (map string_bytes shown.now) target stop.now) }
{
    put_row_start(alloc, "stopped", out)?;
    let name = name_of(alloc, shown, target)?;
    put_row_header(alloc, name.as_str(), out)?;
    put_empty_cells(alloc, out)?;
    let words = show_stop(alloc, stop.detail)?;
    put_cell(alloc, words.as_str(), out)?;
    put_end(Element::Tr, out)
}

/// Appends the row of a catalogue, if its connection stopped.
fn put_stop(
    alloc: Global,
    shown: &[String],
    target: usize,
    stop: &Option<Stop>,
    out: &mut String,
) -> Result<(), AllocError>
    ensures { OnOk result (string_bytes out.new
        ≡ string_bytes out.old ++ stop_rows (map string_bytes shown.now) target stop.now) }
{
    match stop {
        None => Ok(()),
        Some(stop) => put_stop_row(alloc, shown, target, stop, out),
    }
}

/// Appends the row of each catalogue whose connection stopped.
fn put_stops(
    alloc: Global,
    shown: &[String],
    stops: &[Option<Stop>],
    out: &mut String,
) -> Result<(), AllocError>
    ensures { OnOk result (string_bytes out.new
        ≡ string_bytes out.old ++ stops_from (map string_bytes shown.now) 0 stops.now) }
{
    for (target, stop) in stops.iter().enumerate() {
        put_stop(alloc, shown, target, stop, out)?;
    }
    Ok(())
}

/// Appends the header of the columns of a name and of numbers.
#[tactic(auto, unfolding(crate::specs::Catalogues::count_columns))]
fn put_count_columns(alloc: Global, out: &mut String) -> Result<(), AllocError>
    ensures { OnOk result (string_bytes out.new ≡ string_bytes out.old ++ count_columns) }
{
    put_column(alloc, "Catalogue", out)?;
    put_column(alloc, "Found", out)?;
    put_column(alloc, "Shown", out)?;
    put_column(alloc, "Refused", out)?;
    put_column(alloc, "Missing", out)
}

/// Appends the header of each column.
#[tactic(auto, unfolding(crate::specs::Catalogues::catalogue_columns))]
fn put_columns(alloc: Global, out: &mut String) -> Result<(), AllocError>
    ensures { OnOk result (string_bytes out.new ≡ string_bytes out.old ++ catalogue_columns) }
{
    put_count_columns(alloc, out)?;
    put_column(alloc, "Share", out)?;
    put_column(alloc, "Why", out)
}

/// Appends the table of these sets and of all stops.
#[tactic(auto, unfolding(crate::specs::Cells::table))]
pub(crate) fn put_catalogues(
    alloc: Global,
    shown: &[String],
    knowledge: &Knowledge,
    stops: &[Option<Stop>],
    sets: &[SetKey],
    out: &mut String,
) -> Result<(), AllocError>
    ensures { OnOk result (string_bytes out.new ≡ string_bytes out.old
        ++ catalogue_table (map string_bytes shown.now) stops.now knowledge.now sets.now) }
{
    put_table_start(alloc, out)?;
    put_columns(alloc, out)?;
    put_body_start(alloc, out)?;
    put_set_rows(alloc, shown, knowledge, sets, out)?;
    put_stops(alloc, shown, stops, out)?;
    put_table_end(out)
}
