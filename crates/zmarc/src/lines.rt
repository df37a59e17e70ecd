//! A record line by line: its leader, and each of its fields with all that stands in it.
ghost use Rattle.std.specs.Prelude.{◌≡◌, ◌++◌, ◌∷◌, [], OnOk, OnErr, IfOk, map, string_bytes};
ghost use Rattle.std.specs.List.{flat_map};
ghost use Rattle.zmarc.specs.Briefs.{charset};
ghost use Rattle.zmarc.specs.Lines.{is_control, indicators, subfield_text, data_text, field_text, field_line};
ghost use Rattle.zmarc.specs.Lines.{leader_line, lost_line, lost_lines, lines_in, field_lines, ended_lines, AreSafeLines};
ghost use Rattle.zmarc.specs.Records.{is_record, lost_count};
ghost use Rattle.zmarc.specs.References.{field_behind};
ghost use Rattle.zmarc.specs.Subfields.{subfields};

use crate::brief::choose_charset;
use crate::charset::{Charset, put_text};
use crate::format::Reading;
use crate::records::{TaggedOctets, count_lost, cut_leader, gather_fields, is_record};
use crate::subfields::{cut_indicators, split_next_part};
use std::alloc::{AllocError, Global};

/// Whether a tag is that of a control field, which has no indicators and no subfields: it begins with two zeros.
fn is_control(tag: &[u8]) -> bool
    ensures { result ≡ is_control tag.now }
{
    tag.len() >= 2 && &tag[..2] == b"00".as_slice()
}

/// Appends a subfield, as in ` $a text`.
fn put_subfield(
    alloc: Global,
    charset: Charset,
    code: u8,
    data: &[u8],
    line: &mut String,
) -> Result<(), AllocError>
    ensures { OnOk result (string_bytes line.new
        ≡ string_bytes line.old ++ subfield_text charset (record { code = code; octets = «data».now })) }
{
    line.push_str(" $")?;
    put_text(alloc, charset, &[code], line)?;
    line.push_str(" ")?;
    put_text(alloc, charset, data, line)
}

/// Appends each subfield of a field.
fn put_subfields(
    alloc: Global,
    charset: Charset,
    field: &[u8],
    line: &mut String,
) -> Result<(), AllocError>
    ensures { OnOk result (string_bytes line.new
        ≡ string_bytes line.old ++ flat_map (subfield_text charset) (subfields field.now)) }
{
    let mut rest = field;
    while let Some((part, behind)) = split_next_part(rest) {
        if let [code, data @ ..] = part {
            put_subfield(alloc, charset, *code, data, line)?;
        }
        rest = behind;
    }
    Ok(())
}

/// Appends the indicators of a field, and behind them each subfield.
fn put_data(
    alloc: Global,
    charset: Charset,
    field: &[u8],
    line: &mut String,
) -> Result<(), AllocError>
    ensures { OnOk result (string_bytes line.new ≡ string_bytes line.old ++ data_text charset field.now) }
{
    put_text(alloc, charset, cut_indicators(field), line)?;
    put_subfields(alloc, charset, field, line)
}

/// Appends what stands behind the tag of a field.
fn put_field_text(
    alloc: Global,
    charset: Charset,
    tag: &[u8],
    octets: &[u8],
    line: &mut String,
) -> Result<(), AllocError>
    ensures { OnOk result (string_bytes line.new
        ≡ string_bytes line.old ++ field_text charset tag.now octets.now) }
{
    if is_control(tag) {
        put_text(alloc, charset, octets, line)
    } else {
        put_data(alloc, charset, octets, line)
    }
}

/// Returns the line of a field.
fn show_field(alloc: Global, charset: Charset, field: &TaggedOctets) -> Result<String, AllocError>
    ensures { IfOk result (λ line. string_bytes line ≡ field_line charset (field_behind field.now)) }
{
    let mut line = String::new(alloc);
    put_text(alloc, charset, field.tag, &mut line)?;
    line.push_str(" ")?;
    put_field_text(alloc, charset, field.tag, field.octets, &mut line)?;
    Ok(line)
}

/// Adds the line of each field.
fn take_field_lines(
    alloc: Global,
    charset: Charset,
    fields: &[TaggedOctets],
    lines: &mut Vec<String>,
) -> Result<(), AllocError>
    ensures { OnOk result (map string_bytes lines.new.items
        ≡ map string_bytes lines.old.items ++ map (field_line charset) (map field_behind fields.now)) }
{
    for field in fields {
        let line = show_field(alloc, charset, field)?;
        lines.push(line)?;
    }
    Ok(())
}

/// Adds the line of the leader.
fn take_leader_line(
    alloc: Global,
    charset: Charset,
    octets: &[u8],
    lines: &mut Vec<String>,
) -> Result<(), AllocError>
    ensures { OnOk result (map string_bytes lines.new.items
        ≡ map string_bytes lines.old.items ++ leader_line charset octets.now ∷ []) }
{
    let mut line = String::new(alloc);
    put_text(alloc, charset, cut_leader(octets), &mut line)?;
    lines.push(line)?;
    Ok(())
}

/// Returns the line that says how many entries of the directory tell of no field.
fn show_lost(alloc: Global, count: usize) -> Result<String, AllocError>
    ensures { IfOk result (λ line. string_bytes line ≡ lost_line count) }
{
    let mut line = String::from_str(alloc, "entries of the directory that tell of no field: ")?;
    let number = count.to_string(alloc)?;
    line.push_str(number.as_str())?;
    Ok(line)
}

/// Adds a line that says how many entries of the directory tell of no field, if any.
fn take_lost_line(alloc: Global, count: usize, lines: &mut Vec<String>) -> Result<(), AllocError>
    ensures { OnOk result (map string_bytes lines.new.items ≡ map string_bytes lines.old.items ++ lost_lines count) }
{
    if count == 0 {
        return Ok(());
    }
    let line = show_lost(alloc, count)?;
    lines.push(line)?;
    Ok(())
}

/// Returns the lines of a record in a set of characters.
fn gather_lines_in(
    alloc: Global,
    charset: Charset,
    octets: &[u8],
) -> Result<Vec<String>, AllocError>
    ensures { IfOk result (λ lines. map string_bytes lines.items ≡ lines_in charset octets.now) }
{
    let mut lines = Vec::new(alloc);
    take_leader_line(alloc, charset, octets, &mut lines)?;
    let fields = gather_fields(alloc, octets)?;
    take_field_lines(alloc, charset, &fields, &mut lines)?;
    take_lost_line(alloc, count_lost(octets), &mut lines)?;
    Ok(lines)
}

/// Returns a record line by line, with all that stands in its fields. No line has a line feed.
///
/// - The leader: its 24 octets.
/// - Each field, in the order of the directory: the tag, a space, and what stands in the field. Of a control field,
///   whose tag begins with `00`, these are its octets as text. Of another field they are the indicators, which are what
///   stands before the first subfield, and then each subfield: a space, `$` and the code, a space, and the data. A
///   delimiter without a code behind it makes no subfield.
/// - Where entries of the directory tell of no field (`count_lost`), their number.
///
/// Each tag, indicator, code and data is read by itself, in the set of characters that `put_brief` reads the record in,
/// and is shown as there. So each line is safe to print on a terminal, whatever the octets are. Octets that no entry
/// tells of are not shown.
///
/// Returns no line where the octets are no record (`is_record`). It fails only if no memory is found.
#[tactic(auto, unfolding(crate::specs::Lines::field_lines), using(crate::proofs::SafeLines::field_lines_are_safe))]
pub fn gather_lines(
    alloc: Global,
    octets: &[u8],
    reading: Reading,
) -> Result<Vec<String>, AllocError>
    ensures ok { IfOk result (λ lines. map string_bytes lines.items ≡ field_lines reading octets.now) }
    ensures safe { AreSafeLines (field_lines reading octets.now) }
{
    if !is_record(octets) {
        return Ok(Vec::new(alloc));
    }
    gather_lines_in(alloc, choose_charset(octets, reading), octets)
}

/// Appends lines, each with a line feed behind it.
fn put_each(lines: &[String], out: &mut String) -> Result<(), AllocError>
    ensures { OnOk result (string_bytes out.new
        ≡ string_bytes out.old ++ ended_lines (map string_bytes lines.now)) }
{
    for line in lines {
        out.push_str(line.as_str())?;
        out.push_str("\n")?;
    }
    Ok(())
}

/// Appends a record line by line (`gather_lines`) to `out`, each line with a line feed behind it, and tells whether the
/// octets are a record. Apart from the line feeds the text is safe to print on a terminal, whatever the octets are.
///
/// Returns `false`, and appends nothing, where the octets are no record (`is_record`). It fails only if no memory is
/// found; then `out` is as it was.
#[tactic(auto, unfolding(crate::specs::Lines::field_lines), using(crate::proofs::SafeLines::field_lines_are_safe))]
pub fn put_lines(
    alloc: Global,
    octets: &[u8],
    reading: Reading,
    out: &mut String,
) -> Result<bool, AllocError>
    ensures ok { OnOk result (string_bytes out.new
        ≡ string_bytes out.old ++ ended_lines (field_lines reading octets.now)) }
    ensures read { IfOk result (λ read. read ≡ is_record octets.now) }
    ensures err { OnErr result (string_bytes out.new ≡ string_bytes out.old) }
    ensures safe { AreSafeLines (field_lines reading octets.now) }
{
    if !is_record(octets) {
        return Ok(false);
    }
    let lines = gather_lines(alloc, octets, reading)?;
    let mut text = String::new(alloc);
    put_each(&lines, &mut text)?;
    out.push_str(text.as_str())?;
    Ok(true)
}
