//! Records of ISO 2709 (ANSI/NISO Z39.2): a leader of 24 octets, a directory of entries, and fields.
ghost use Rattle.std.specs.Prelude.{◌≡◌, ◌≤◌, ◌+◌, ◌++◌, length, map, take, nat_le, OnOk, IfOk, IfSome};
ghost use Rattle.std.specs.List.{before_first};
ghost use Rattle.std.specs.Option.{option_copied, option_to_list};
ghost use Rattle.zmarc.specs.Records.{base_address, own_octets, is_record, is_end};
ghost use Rattle.zmarc.specs.Records.{length_digits, start_digits, other_octets};
ghost use Rattle.zmarc.specs.Records.{octets_of, tagged_octets, tagged_fields, first_field, told_len, told_total, lost_count};
ghost use Rattle.zmarc.specs.Records.{fields, field_told};
ghost use Rattle.zmarc.specs.References.{behind_each, field_behind};

use crate::numbers::{read_digit_or, read_number};
use std::alloc::{AllocError, Global};

/// The octets of a leader.
const LEADER_LEN: usize = 24;
/// What has as many octets or more is no record.
const MOST_OCTETS: usize = 4_294_967_296;
/// The octets of a tag.
const TAG_LEN: usize = 3;
/// The field terminator.
const FIELD_END: u8 = 0x1E;
/// The record terminator.
const RECORD_END: u8 = 0x1D;

/// The base address of the data, where the leader is whole, its positions 12 to 16 are digits, and what they tell is
/// behind the leader and not behind the octets.
#[tactic(auto, unfolding(crate::specs::Records::base_address))]
fn read_base_address(octets: &[u8]) -> Option<usize>
    ensures value { result ≡ base_address octets.now }
    ensures within { IfSome result (λ at. (24 ≤ at) × (at ≤ length octets.now)) }
{
    if octets.len() < LEADER_LEN {
        return None;
    }
    let at = read_number(&octets[12..17])?;
    if LEADER_LEN <= at && at <= octets.len() {
        Some(at)
    } else {
        None
    }
}

/// The octets of the record itself, without what stands behind it: as many as positions 0 to 4 of the leader tell. They
/// are all octets where these positions are no five digits, or tell less than a leader has or more than there are.
#[tactic(auto, unfolding(crate::specs::Records::own_octets))]
pub(crate) fn cut_own_octets(octets: &[u8]) -> &[u8]
    ensures { result.now ≡ own_octets octets.now }
{
    if octets.len() < LEADER_LEN {
        return octets;
    }
    match read_number(&octets[..5]) {
        Some(len) if LEADER_LEN <= len && len <= octets.len() => &octets[..len],
        _ => octets,
    }
}

/// The leader, or all octets where they are fewer.
pub(crate) fn cut_leader(octets: &[u8]) -> &[u8]
    ensures { result.now ≡ take 24 octets.now }
{
    if octets.len() < LEADER_LEN {
        return octets;
    }
    &octets[..LEADER_LEN]
}

/// What stands before the first terminator, of a field or a record; all octets where there is none.
fn cut_before_end(octets: &[u8]) -> &[u8]
    ensures { result.now ≡ before_first is_end octets.now }
{
    match octets
        .iter()
        .position(|octet| *octet == FIELD_END || *octet == RECORD_END)
    {
        Some(at) => &octets[..at],
        None => octets,
    }
}

/// How many octets the entries of a directory have behind their tags, for the length and the start of a field and for
/// other use.
#[derive(Clone, Copy)]
struct Layout {
    length_digits: usize,
    start_digits: usize,
    other_octets: usize,
}

/// How positions 20 to 22 of the leader lay the entries out; for those that are no digits 4, 5 and 0 stand.
fn read_entry_layout(octets: &[u8]) -> Layout
    requires { 24 ≤ length octets.now }
    ensures length { result.length_digits ≡ length_digits octets.now }
    ensures start { result.start_digits ≡ start_digits octets.now }
    ensures other { result.other_octets ≡ other_octets octets.now }
    ensures short { (result.length_digits ≤ 9) × (result.start_digits ≤ 9) × (result.other_octets ≤ 9) }
{
    Layout {
        length_digits: read_digit_or(4, octets[20]),
        start_digits: read_digit_or(5, octets[21]),
        other_octets: read_digit_or(0, octets[22]),
    }
}

/// The octets that an entry tells of, up to the first terminator among them; none where its length or its start is no
/// number, or together they lead beyond the contents.
#[tactic(auto, unfolding(crate::specs::Records::octets_of))]
fn read_entry<'a>(contents: &'a [u8], layout: Layout, entry: &[u8]) -> Option<&'a [u8]>
    requires whole { 3 + layout.length_digits + layout.start_digits ≤ length entry.now }
    requires short { (layout.length_digits ≤ 9) × (layout.start_digits ≤ 9) }
    ensures { option_copied result ≡ octets_of contents.now layout.length_digits layout.start_digits entry.now }
{
    let (told_length, told_start) = entry[TAG_LEN..].split_at(layout.length_digits);
    let len = read_number(told_length)?;
    let start = read_number(&told_start[..layout.start_digits])?;
    if start + len <= contents.len() {
        Some(cut_before_end(&contents[start..start + len]))
    } else {
        None
    }
}

/// The octets that an entry tells of, where it has this tag and tells of any.
fn read_tagged_entry<'a>(
    contents: &'a [u8],
    layout: Layout,
    tag: &[u8],
    entry: &[u8],
) -> Option<&'a [u8]>
    requires whole { 3 + layout.length_digits + layout.start_digits ≤ length entry.now }
    requires short { (layout.length_digits ≤ 9) × (layout.start_digits ≤ 9) }
    ensures { option_copied result
        ≡ tagged_octets contents.now layout.length_digits layout.start_digits tag.now entry.now }
{
    if &entry[..TAG_LEN] == tag {
        read_entry(contents, layout, entry)
    } else {
        None
    }
}

/// Takes the octets that an entry tells of, where it has this tag and tells of any.
fn take_tagged<'a>(
    contents: &'a [u8],
    layout: Layout,
    tag: &[u8],
    entry: &[u8],
    found: &mut Vec<&'a [u8]>,
) -> Result<(), AllocError>
    requires whole { 3 + layout.length_digits + layout.start_digits ≤ length entry.now }
    requires short { (layout.length_digits ≤ 9) × (layout.start_digits ≤ 9) }
    ensures { OnOk result (behind_each found.new.items ≡ behind_each found.old.items
        ++ option_to_list (tagged_octets contents.now layout.length_digits layout.start_digits tag.now entry.now)) }
{
    if let Some(field) = read_tagged_entry(contents, layout, tag, entry) {
        found.push(field)?;
    }
    Ok(())
}

/// A field of a record: its tag, and its octets.
#[derive(Clone, Copy)]
pub(crate) struct TaggedOctets<'a> {
    pub(crate) tag: &'a [u8],
    pub(crate) octets: &'a [u8],
}

/// Takes the field that an entry tells of, where it tells of any.
fn take_field<'a>(
    contents: &'a [u8],
    layout: Layout,
    entry: &'a [u8],
    found: &mut Vec<TaggedOctets<'a>>,
) -> Result<(), AllocError>
    requires whole { 3 + layout.length_digits + layout.start_digits ≤ length entry.now }
    requires short { (layout.length_digits ≤ 9) × (layout.start_digits ≤ 9) }
    ensures { OnOk result (map field_behind found.new.items ≡ map field_behind found.old.items
        ++ option_to_list (field_told contents.now layout.length_digits layout.start_digits entry.now)) }
{
    if let Some(octets) = read_entry(contents, layout, entry) {
        found.push(TaggedOctets {
            tag: &entry[..TAG_LEN],
            octets,
        })?;
    }
    Ok(())
}

/// How many octets an entry tells of; 0 where it tells of none.
fn count_told(contents: &[u8], layout: Layout, entry: &[u8]) -> usize
    requires whole { 3 + layout.length_digits + layout.start_digits ≤ length entry.now }
    requires short { (layout.length_digits ≤ 9) × (layout.start_digits ≤ 9) }
    ensures { result ≡ told_len (octets_of contents.now layout.length_digits layout.start_digits entry.now) }
{
    match read_entry(contents, layout, entry) {
        Some(field) => field.len(),
        None => 0,
    }
}

/// Whether the entries tell of at most so many octets together, each counted as often as an entry tells of it.
#[tactic(auto, unfolding(crate::specs::Records::told_total))]
fn tell_at_most(octets: &[u8], most: usize) -> bool
    ensures { result ≡ nat_le (told_total octets.now) most }
{
    let Some(at) = read_base_address(octets) else {
        return true;
    };
    let contents = &octets[at..];
    let mut rest = cut_before_end(&octets[LEADER_LEN..at]);
    let layout = read_entry_layout(octets);
    let len = TAG_LEN + layout.length_digits + layout.start_digits + layout.other_octets;
    let mut room = most;
    for _ in 0..rest.len() / len {
        let (entry, behind) = rest.split_at(len);
        let told = count_told(contents, layout, entry);
        if told > room {
            return false;
        }
        room -= told;
        rest = behind;
    }
    true
}

/// Tells whether the octets are a record: they have a leader of 24 octets, whose positions 12 to 16 are five digits,
/// these tell a base address that is at least 24 and at most the number of octets, and the entries of the directory
/// tell of at most 16 times as many octets as there are, where an octet is counted as often as an entry tells of it.
/// What has 2^32 octets or more is no record.
///
/// Of the leader only these positions are looked at, and positions 20 to 22, which lay out the entries: where one of
/// them is no digit, 4, 5 or 0 stands for it.
#[tactic(auto, unfolding(crate::specs::Records::is_record))]
pub fn is_record(octets: &[u8]) -> bool
    ensures { result ≡ is_record octets.now }
{
    octets.len() < MOST_OCTETS
        && read_base_address(octets).is_some()
        && tell_at_most(octets, 16 * octets.len())
}

/// Finds the octets of the first field that has this tag, in the order of the directory. A tag has three octets; no
/// field has a tag of another length. The octets end before the first terminator, of a field or a record, that is in
/// the range that the directory tells, or with that range. They begin with the indicators where the field has any. They
/// are the record's own: nothing is copied, and nothing makes them safe to print.
///
/// Returns `None` where no field has the tag, and where the leader tells no base address, as `is_record` asks for it;
/// that the octets are no record for another reason is not looked at. An entry of the directory that tells of no field
/// (`count_lost`) is left out.
#[tactic(auto, unfolding(crate::specs::Records::first_field), using(crate::proofs::FieldTheory::first_field_none))]
pub fn first_field<'a>(octets: &'a [u8], tag: &[u8]) -> Option<&'a [u8]>
    ensures { option_copied result ≡ first_field tag.now octets.now }
{
    let at = read_base_address(octets)?;
    let contents = &octets[at..];
    let mut rest = cut_before_end(&octets[LEADER_LEN..at]);
    let layout = read_entry_layout(octets);
    let len = TAG_LEN + layout.length_digits + layout.start_digits + layout.other_octets;
    for _ in 0..rest.len() / len {
        let (entry, behind) = rest.split_at(len);
        if let Some(field) = read_tagged_entry(contents, layout, tag, entry) {
            return Some(field);
        }
        rest = behind;
    }
    None
}

/// Returns the octets of each field that has this tag, in the order of the directory; none where the leader tells no
/// base address. An entry of the directory that tells of no field (`count_lost`) is left out.
#[tactic(auto, unfolding(crate::specs::Records::tagged_fields), using(crate::proofs::FieldTheory::tagged_fields_none))]
pub(crate) fn gather_tagged_fields<'a>(
    alloc: Global,
    octets: &'a [u8],
    tag: &[u8],
) -> Result<Vec<&'a [u8]>, AllocError>
    ensures { IfOk result (λ found. behind_each found.items ≡ tagged_fields tag.now octets.now) }
{
    let mut found = Vec::new(alloc);
    let Some(at) = read_base_address(octets) else {
        return Ok(found);
    };
    let contents = &octets[at..];
    let mut rest = cut_before_end(&octets[LEADER_LEN..at]);
    let layout = read_entry_layout(octets);
    let len = TAG_LEN + layout.length_digits + layout.start_digits + layout.other_octets;
    for _ in 0..rest.len() / len {
        let (entry, behind) = rest.split_at(len);
        take_tagged(contents, layout, tag, entry, &mut found)?;
        rest = behind;
    }
    Ok(found)
}

/// Returns the fields, in the order of the directory; none where the leader tells no base address. An entry of the
/// directory that tells of no field (`count_lost`) is left out.
#[tactic(auto, using(crate::proofs::FieldTheory::fields_none))]
pub(crate) fn gather_fields(
    alloc: Global,
    octets: &[u8],
) -> Result<Vec<TaggedOctets<'_>>, AllocError>
    ensures { IfOk result (λ found. map field_behind found.items ≡ fields octets.now) }
{
    let mut found = Vec::new(alloc);
    let Some(at) = read_base_address(octets) else {
        return Ok(found);
    };
    let contents = &octets[at..];
    let mut rest = cut_before_end(&octets[LEADER_LEN..at]);
    let layout = read_entry_layout(octets);
    let len = TAG_LEN + layout.length_digits + layout.start_digits + layout.other_octets;
    for _ in 0..rest.len() / len {
        let (entry, behind) = rest.split_at(len);
        take_field(contents, layout, entry, &mut found)?;
        rest = behind;
    }
    Ok(found)
}

/// Counts the entries of the directory that tell of no field: their length or their start is no number, or together
/// they lead beyond the octets. The count is 0 where the leader tells no base address, as `is_record` asks for it.
pub fn count_lost(octets: &[u8]) -> usize
    ensures { result ≡ lost_count octets.now }
{
    let Some(at) = read_base_address(octets) else {
        return 0;
    };
    let contents = &octets[at..];
    let mut rest = cut_before_end(&octets[LEADER_LEN..at]);
    let layout = read_entry_layout(octets);
    let len = TAG_LEN + layout.length_digits + layout.start_digits + layout.other_octets;
    let mut lost = 0;
    for _ in 0..rest.len() / len {
        let (entry, behind) = rest.split_at(len);
        if read_entry(contents, layout, entry).is_none() {
            lost += 1;
        }
        rest = behind;
    }
    lost
}
