//! The lines of a record's copies, for people.
ghost use Rattle.std.specs.Prelude.{◌≡◌, ◌++◌, OnOk, OnErr, IfOk, fold, codes, map, string_bytes};
ghost use Rattle.zmarc.specs.Shown.{IsSafeText};
ghost use Rattle.zopac.specs.Joined.{joined_to};
ghost use Rattle.zopac.specs.Copies.{location, is_worded, copy_word, item, head, volume_text, volume_texts, availability, until, hold, state, circulation_text, circulation_texts, copy_parts, described, copy_line, brief_of, marc_line, holding_line, holdings_of, copy_lines, ended, AreSafe};

use crate::circulation::Circulation;
use crate::holding::Holding;
use crate::holdings::HoldingsAndCirc;
use crate::joined::{join, join_shown, label};
use crate::opac::OpacRecord;
use crate::volume::Volume;
use bytes::Bytes;
use std::alloc::{AllocError, Global};
use zapdu::{Content, External};
use zber::Seq;
use zmarc::{Format, put_brief};

/// Returns where a copy stands.
fn show_location(alloc: Global, copy: &HoldingsAndCirc) -> Result<String, AllocError>
    ensures { IfOk result (λ line. string_bytes line ≡ location copy.now) }
{
    let mut line = String::new(alloc);
    join_shown(alloc, &mut line, ", ", &copy.local_location)?;
    join_shown(alloc, &mut line, ", ", &copy.shelving_location)?;
    join_shown(alloc, &mut line, ", ", &copy.nuc_code)?;
    Ok(line)
}

/// Returns whether the number of a copy begins with the word `copy`.
fn is_worded(number: &[u8]) -> bool
    ensures { result ≡ is_worded number.now }
{
    number.starts_with(b"copy".as_slice())
        || number.starts_with(b"Copy".as_slice())
        || number.starts_with(b"COPY".as_slice())
}

/// Returns the word before the number of a copy: none if that begins with it.
fn copy_word(number: &Option<Bytes>) -> &'static str
    ensures { result.now ≡ copy_word number.now }
{
    match number {
        Some(octets) => {
            if is_worded(octets.as_slice()) {
                ""
            } else {
                "copy "
            }
        }
        None => "copy ",
    }
}

/// Returns which copy it is.
fn show_item(alloc: Global, copy: &HoldingsAndCirc) -> Result<String, AllocError>
    ensures { IfOk result (λ line. string_bytes line ≡ item copy.now) }
{
    let mut line = String::new(alloc);
    join_shown(alloc, &mut line, ", ", &copy.call_number)?;
    let number = label(alloc, copy_word(&copy.copy_number), &copy.copy_number)?;
    join(&mut line, ", ", number.as_str())?;
    join_shown(alloc, &mut line, ", ", &copy.enumeration_and_chronology)?;
    Ok(line)
}

/// Returns where a copy stands, and which it is.
fn show_head(alloc: Global, copy: &HoldingsAndCirc) -> Result<String, AllocError>
    ensures { IfOk result (λ line. string_bytes line ≡ head copy.now) }
{
    let mut line = String::new(alloc);
    let location = show_location(alloc, copy)?;
    join(&mut line, ": ", location.as_str())?;
    let item = show_item(alloc, copy)?;
    join(&mut line, ": ", item.as_str())?;
    Ok(line)
}

/// Returns the text of a volume.
fn show_volume(alloc: Global, volume: &Volume) -> Result<String, AllocError>
    ensures { IfOk result (λ line. string_bytes line ≡ volume_text volume.now) }
{
    let mut line = String::new(alloc);
    join_shown(alloc, &mut line, ", ", &volume.enumeration)?;
    join_shown(alloc, &mut line, ", ", &volume.chronology)?;
    join_shown(alloc, &mut line, ", ", &volume.enumeration_and_chronology)?;
    Ok(line)
}

/// Appends the text of each volume.
fn join_each_volume(alloc: Global, volumes: &[Volume], line: &mut String) -> Result<(), AllocError>
    ensures { OnOk result (string_bytes line.new
        ≡ fold (joined_to (codes "; ")) (string_bytes line.old) (map volume_text volumes.now)) }
{
    for volume in volumes {
        let text = show_volume(alloc, volume)?;
        join(line, "; ", text.as_str())?;
    }
    Ok(())
}

/// Appends the text of each volume, if the copy has any.
fn join_volumes(
    alloc: Global,
    volumes: &Option<Seq<Volume>>,
    line: &mut String,
) -> Result<(), AllocError>
    ensures { OnOk result (string_bytes line.new
        ≡ fold (joined_to (codes "; ")) (string_bytes line.old) (volume_texts volumes.now)) }
{
    match volumes {
        None => Ok(()),
        Some(volumes) => join_each_volume(alloc, volumes.as_slice(), line),
    }
}

/// Returns whether an item is available now.
fn availability(now: bool) -> &'static str
    ensures { result.now ≡ availability now }
{
    if now { "available" } else { "not available" }
}

/// Returns when an item will be available, empty where it is available now.
fn show_until(alloc: Global, now: bool, date: &Option<Bytes>) -> Result<String, AllocError>
    ensures { IfOk result (λ line. string_bytes line ≡ until now date.now) }
{
    if now {
        Ok(String::new(alloc))
    } else {
        label(alloc, "until ", date)
    }
}

/// Returns whether somebody has reserved an item.
fn hold(reserved: bool) -> &'static str
    ensures { result.now ≡ hold reserved }
{
    if reserved { "on hold" } else { "" }
}

/// Returns whether an item is available, and when.
fn show_state(alloc: Global, circulation: &Circulation) -> Result<String, AllocError>
    ensures { IfOk result (λ line. string_bytes line ≡ state circulation.now) }
{
    let mut line = String::new(alloc);
    let now = circulation.available_now;
    join(&mut line, ", ", availability(now))?;
    let date = show_until(alloc, now, &circulation.availability_date)?;
    join(&mut line, ", ", date.as_str())?;
    join(&mut line, ", ", hold(circulation.on_hold))?;
    Ok(line)
}

/// Returns the text of an item's circulation.
fn show_circulation(alloc: Global, circulation: &Circulation) -> Result<String, AllocError>
    ensures { IfOk result (λ line. string_bytes line ≡ circulation_text circulation.now) }
{
    let mut line = String::new(alloc);
    join_shown(
        alloc,
        &mut line,
        ": ",
        &circulation.enumeration_and_chronology,
    )?;
    let state = show_state(alloc, circulation)?;
    join(&mut line, ": ", state.as_str())?;
    Ok(line)
}

/// Appends the text of each item's circulation.
fn join_each_circulation(
    alloc: Global,
    circulations: &[Circulation],
    line: &mut String,
) -> Result<(), AllocError>
    ensures { OnOk result (string_bytes line.new
        ≡ fold (joined_to (codes "; ")) (string_bytes line.old) (map circulation_text circulations.now)) }
{
    for circulation in circulations {
        let text = show_circulation(alloc, circulation)?;
        join(line, "; ", text.as_str())?;
    }
    Ok(())
}

/// Appends the text of each item's circulation, if the copy has any.
fn join_circulations(
    alloc: Global,
    circulations: &Option<Seq<Circulation>>,
    line: &mut String,
) -> Result<(), AllocError>
    ensures { OnOk result (string_bytes line.new
        ≡ fold (joined_to (codes "; ")) (string_bytes line.old) (circulation_texts circulations.now)) }
{
    match circulations {
        None => Ok(()),
        Some(circulations) => join_each_circulation(alloc, circulations.as_slice(), line),
    }
}

/// Appends the parts of a copy's line.
#[tactic(auto, using(std::proofs::lemmas::Grind::common_steps))]
fn join_copy(alloc: Global, copy: &HoldingsAndCirc, line: &mut String) -> Result<(), AllocError>
    ensures { OnOk result (string_bytes line.new
        ≡ fold (joined_to (codes "; ")) (string_bytes line.old) (copy_parts copy.now)) }
{
    let head = show_head(alloc, copy)?;
    join(line, "; ", head.as_str())?;
    join_volumes(alloc, &copy.volumes, line)?;
    join_shown(alloc, line, "; ", &copy.public_note)?;
    join_circulations(alloc, &copy.circulations, line)
}

/// Returns the line of a copy.
#[tactic(auto, unfolding(crate::specs::Copies::copy_line))]
fn show_copy(alloc: Global, copy: &HoldingsAndCirc) -> Result<String, AllocError>
    ensures { IfOk result (λ line. string_bytes line ≡ copy_line copy.now) }
{
    let mut line = String::new(alloc);
    join_copy(alloc, copy, &mut line)?;
    if line.is_empty() {
        return String::from_str(alloc, "copy without details");
    }
    Ok(line)
}

/// Returns the line of a record of MARC, empty where the content is not octets.
fn show_brief(alloc: Global, content: &Content) -> Result<String, AllocError>
    ensures { IfOk result (λ line. string_bytes line ≡ brief_of content.now) }
{
    let mut line = String::new(alloc);
    match content {
        Content::Aligned(octets) => {
            put_brief(
                alloc,
                octets.as_slice(),
                Format::Marc21.read_in(None),
                &mut line,
            )?;
            Ok(line)
        }
        Content::Single(_) | Content::Arbitrary(_) => Ok(line),
    }
}

/// Returns the line of a record of MARC for holdings.
#[tactic(auto, unfolding(crate::specs::Copies::marc_line))]
fn show_marc(alloc: Global, external: &External) -> Result<String, AllocError>
    ensures { IfOk result (λ line. string_bytes line ≡ marc_line external.now) }
{
    let mut line = String::new(alloc);
    join(&mut line, ": ", "MARC holdings record")?;
    let brief = show_brief(alloc, &external.content)?;
    join(&mut line, ": ", brief.as_str())?;
    Ok(line)
}

/// Returns the line of what is said of a copy.
fn show_holding(alloc: Global, holding: &Holding) -> Result<String, AllocError>
    ensures { IfOk result (λ line. string_bytes line ≡ holding_line holding.now) }
{
    match holding {
        Holding::Marc(external) => show_marc(alloc, external),
        Holding::Copy(copy) => show_copy(alloc, copy),
    }
}

/// Appends the line of a copy, without a line feed.
///
/// The line of `Holding::Copy` has these parts with `; ` between them. What is missing or empty is left out; if all is,
/// the line is `copy without details`.
///
/// - Where it stands and which it is, with `: ` between them: localLocation, shelvingLocation and nucCode; callNumber,
///   `copy ` and copyNumber (alone if it begins with `copy`, `Copy` or `COPY`), and enumAndChron; each with `, `
///   between them.
/// - Each volume, in order: enumeration, chronology and enumAndChron, with `, ` between them.
/// - publicNote.
/// - Each circulation record, in order: enumAndChron and `: `; then `available` or `not available`; then `until ` and
///   availablityDate, where the item is not available now; then `on hold`, if it is; with `, ` between these three.
///
/// The line of `Holding::Marc` is `MARC holdings record`, and behind `: ` what `zmarc::put_brief` shows of its octets
/// as a record of MARC 21, if anything.
///
/// Texts are read as UTF-8. Whatever the octets are, the line is safe to print on a terminal (`zmarc::put_text`).
///
/// Returns `AllocError` if no memory is found; nothing is appended.
#[tactic(auto, using(crate::proofs::SafeTheory::holding_is_safe))]
pub fn put_holding(alloc: Global, holding: &Holding, line: &mut String) -> Result<(), AllocError>
    ensures ok { OnOk result (string_bytes line.new ≡ string_bytes line.old ++ holding_line holding.now) }
    ensures err { OnErr result (string_bytes line.new ≡ string_bytes line.old) }
    ensures safe { IsSafeText (holding_line holding.now) }
{
    let text = show_holding(alloc, holding)?;
    line.push_str(text.as_str())
}

/// Returns the holdings of a record.
fn holdings_of(holdings: &Option<Seq<Holding>>) -> &[Holding]
    ensures { result.now ≡ holdings_of holdings.now }
{
    match holdings {
        None => &[],
        Some(holdings) => holdings.as_slice(),
    }
}

/// Appends the line of each copy.
fn put_each(alloc: Global, holdings: &[Holding], out: &mut String) -> Result<(), AllocError>
    ensures { OnOk result (string_bytes out.new
        ≡ string_bytes out.old ++ ended (map holding_line holdings.now)) }
{
    for holding in holdings {
        put_holding(alloc, holding, out)?;
        out.push_str("\n")?;
    }
    Ok(())
}

/// Appends the line of each copy of a record, in order, each with a line feed. The lines are those of `put_holding`,
/// and safe to print on a terminal. A record without copies has none.
///
/// Returns `AllocError` if no memory is found; nothing is appended.
#[tactic(auto, using(crate::proofs::SafeTheory::lines_are_safe))]
pub fn put_copies(alloc: Global, record: &OpacRecord, out: &mut String) -> Result<(), AllocError>
    ensures ok { OnOk result (string_bytes out.new ≡ string_bytes out.old ++ ended (copy_lines «record».now)) }
    ensures err { OnErr result (string_bytes out.new ≡ string_bytes out.old) }
    ensures safe { AreSafe (copy_lines «record».now) }
{
    let mut lines = String::new(alloc);
    put_each(alloc, holdings_of(&record.holdings), &mut lines)?;
    out.push_str(lines.as_str())
}
