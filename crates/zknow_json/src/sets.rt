//! The lines of a target's set: its counts, its failure and its diagnostics.
ghost use Rattle.std.specs.Prelude.{◌≡◌, ◌++◌, OnOk, slice_get, string_bytes};
ghost use Rattle.std.specs.List.{flat_map};
ghost use Rattle.zapdu.specs.Text.{info_octets};
ghost use Rattle.zknow.specs.Known.{counts_at, referenced_pairs};
ghost use Rattle.zknow_json.specs.Sets.{catalogue_member, set_member, head, count_line, failure_line, failure_lines, condition_members, default_members, diag_members, place_member, diag_line, set_lines};

use crate::encoding::encode;
use crate::line::Line;
use std::alloc::{AllocError, Global};
use zapdu::{DefaultDiag, DiagRec, Info};
use zknow::{Knowledge, Known, Names, SetKey};

/// Writes the name of a catalogue, or its number if it has no name.
pub(crate) fn put_catalogue(names: &Names, target: usize, line: &mut Line) -> Result<(), AllocError>
    ensures { OnOk result (line.new ≡ line.old ++ catalogue_member target (slice_get names.now target)) }
{
    match names.as_slice().get(target) {
        None => line.put_natural("catalogueNumber", target as u64),
        Some(name) => line.put_received("catalogue", "catalogueOctets", name.as_slice()),
    }
}

/// Writes the number of a set; nothing for set 0.
fn put_set(set: u32, line: &mut Line) -> Result<(), AllocError>
    ensures { OnOk result (line.new ≡ line.old ++ set_member set) }
{
    if set == 0 {
        return Ok(());
    }
    line.put_natural("set", set as u64)
}

/// Writes the type of a line, the catalogue and the set.
#[tactic(auto, unfolding(crate::specs::Sets::head))]
pub(crate) fn put_head(
    kind: &str,
    names: &Names,
    target: u32,
    set: u32,
    line: &mut Line,
) -> Result<(), AllocError>
    ensures { OnOk result (line.new ≡ line.old ++ head kind.now names.now target set) }
{
    line.put_text("type", kind)?;
    put_catalogue(names, target as usize, line)?;
    put_set(set, line)
}

/// Appends the line of a count.
#[tactic(auto, unfolding(crate::specs::Sets::count_line))]
fn put_count(
    alloc: Global,
    names: &Names,
    key: &SetKey,
    count: i64,
    out: &mut String,
) -> Result<(), AllocError>
    ensures { OnOk result (string_bytes out.new ≡ string_bytes out.old ++ count_line names.now key.now count) }
{
    let mut line = Line::new(alloc)?;
    put_head("count", names, key.target, key.set, &mut line)?;
    line.put_integer("count", count)?;
    line.finish(out)
}

/// Appends a line for each count.
fn put_counts(
    alloc: Global,
    names: &Names,
    key: &SetKey,
    counts: &[i64],
    out: &mut String,
) -> Result<(), AllocError>
    ensures { OnOk result (string_bytes out.new
        ≡ string_bytes out.old ++ flat_map (count_line names.now key.now) counts.now) }
{
    for count in counts {
        put_count(alloc, names, key, *count, out)?;
    }
    Ok(())
}

/// Appends the line of a failure.
#[tactic(auto, unfolding(crate::specs::Sets::failure_line))]
fn put_failure(
    alloc: Global,
    names: &Names,
    key: &SetKey,
    out: &mut String,
) -> Result<(), AllocError>
    ensures { OnOk result (string_bytes out.new ≡ string_bytes out.old ++ failure_line names.now key.now) }
{
    let mut line = Line::new(alloc)?;
    put_head("failure", names, key.target, key.set, &mut line)?;
    line.finish(out)
}

/// Appends the line of a failure, if there is one.
fn put_failures(
    alloc: Global,
    names: &Names,
    key: &SetKey,
    failed: bool,
    out: &mut String,
) -> Result<(), AllocError>
    ensures { OnOk result (string_bytes out.new ≡ string_bytes out.old ++ failure_lines names.now key.now failed) }
{
    if failed {
        return put_failure(alloc, names, key, out);
    }
    Ok(())
}

/// Returns the octets of additional information.
fn info_octets(info: &Info) -> &[u8]
    ensures { result.now ≡ info_octets info.now }
{
    match info {
        Info::V2(octets) => octets.as_slice(),
        Info::V3(octets) => octets.as_slice(),
    }
}

/// Writes a condition and its set.
#[tactic(auto, unfolding(crate::specs::Sets::condition_members))]
fn put_condition(alloc: Global, diag: &DefaultDiag, line: &mut Line) -> Result<(), AllocError>
    ensures { OnOk result (line.new ≡ line.old ++ condition_members diag.now) }
{
    let set = diag.diag_set.text(alloc)?;
    line.put_text("diagnosticSet", set.as_str())?;
    line.put_integer("condition", diag.condition)
}

/// Writes a diagnostic in the default format.
#[tactic(auto, unfolding(crate::specs::Sets::default_members))]
fn put_default(alloc: Global, diag: &DefaultDiag, line: &mut Line) -> Result<(), AllocError>
    ensures { OnOk result (line.new ≡ line.old ++ default_members diag.now) }
{
    put_condition(alloc, diag, line)?;
    line.put_received("addinfo", "addinfoOctets", info_octets(&diag.info))
}

/// Writes a diagnostic; of an EXTERNAL its canonical encoding.
pub(crate) fn put_diag(alloc: Global, diag: &DiagRec, line: &mut Line) -> Result<(), AllocError>
    ensures { OnOk result (line.new ≡ line.old ++ diag_members diag.now) }
{
    match diag {
        DiagRec::Default(value) => put_default(alloc, value, line),
        DiagRec::Ext(_) => {
            let octets = encode(alloc, diag)?;
            line.put_octets("encoding", &octets)
        }
    }
}

/// Writes the first position of the request that failed; nothing for place 0.
fn put_place(place: i64, line: &mut Line) -> Result<(), AllocError>
    ensures { OnOk result (line.new ≡ line.old ++ place_member place) }
{
    if place == 0 {
        return Ok(());
    }
    line.put_integer("from", place)
}

/// Appends the line of a diagnostic.
#[tactic(auto, unfolding(crate::specs::Sets::diag_line))]
fn put_diag_line(
    alloc: Global,
    names: &Names,
    key: &SetKey,
    place: i64,
    diag: &DiagRec,
    out: &mut String,
) -> Result<(), AllocError>
    ensures { OnOk result (string_bytes out.new
        ≡ string_bytes out.old ++ diag_line names.now key.now (place, diag.now)) }
{
    let mut line = Line::new(alloc)?;
    put_head("diagnostic", names, key.target, key.set, &mut line)?;
    put_place(place, &mut line)?;
    put_diag(alloc, diag, &mut line)?;
    line.finish(out)
}

/// Appends a line for each diagnostic.
fn put_diag_lines(
    alloc: Global,
    names: &Names,
    key: &SetKey,
    diags: &[(i64, &DiagRec)],
    out: &mut String,
) -> Result<(), AllocError>
    ensures { OnOk result (string_bytes out.new
        ≡ string_bytes out.old ++ flat_map (diag_line names.now key.now) (referenced_pairs diags.now)) }
{
    for found in diags {
        put_diag_line(alloc, names, key, found.0, found.1, out)?;
    }
    Ok(())
}

/// Returns the counts of a set that are known.
fn counts_of<'a>(knowledge: &'a Knowledge, key: &SetKey) -> &'a [i64]
    ensures { result.now ≡ counts_at key.now.target key.now.set knowledge.now }
{
    match knowledge.count(key.target, key.set) {
        Known::Nothing => &[],
        Known::One(count) => std::slice::from_ref(count),
        Known::Conflict(counts) => counts,
    }
}

/// Appends the lines of a set.
#[tactic(auto, unfolding(crate::specs::Sets::set_lines))]
pub(crate) fn put_set_lines(
    alloc: Global,
    names: &Names,
    knowledge: &Knowledge,
    key: &SetKey,
    out: &mut String,
) -> Result<(), AllocError>
    ensures { OnOk result (string_bytes out.new
        ≡ string_bytes out.old ++ set_lines names.now knowledge.now key.now) }
{
    put_counts(alloc, names, key, counts_of(knowledge, key), out)?;
    put_failures(
        alloc,
        names,
        key,
        knowledge.is_failed(key.target, key.set),
        out,
    )?;
    let diags = knowledge.diags(key.target, key.set)?;
    put_diag_lines(alloc, names, key, &diags, out)
}
