//! The records that are new or changed since an earlier saved file.
ghost use Rattle.std.specs.Prelude.{◌≡◌, ◌∷◌, IfOk};
ghost use Rattle.zmeta_args.specs.Texts.{texts_of};
ghost use Rattle.zmeta_devices.specs.Devices.{outputs};
ghost use Rattle.zmeta_offline.specs.News.{AreNewsBetween, ChooseTwoResult, LoadSinceResult, NewsResult, SinceResult};
ghost use Rattle.zmeta_offline.specs.Records.{extract};

use crate::catalogues::{chosen_facts, facts_of};
use crate::join::{load_all, load_named};
use crate::new::status_of_both;
use crate::records::{Extract, SavedFiles, left_lines, put_records, syntax_of, take_records};
use std::alloc::{AllocError, Global};
use std::io::Write;
use zknow::{Knowledge, Names};
use zknow_changes::{changes, news_of};
use zmeta_devices::fault::{Fault, Status};
use zmeta_devices::files::Folder;
use zmeta_devices::output::Output;

/// Returns the facts and names of the earlier file, and of the later ones together.
fn load_since<'a, F: Folder>(
    alloc: Global,
    files: &F,
    earlier: &'a str,
    saved: SavedFiles<'a, '_>,
) -> Result<((Knowledge, Names), (Knowledge, Names)), Fault<'a>>
    ensures { LoadSinceResult (F.octets files.now) earlier.entry.now
        (saved.entry.first.now ∷ texts_of saved.entry.others.now) result }
{
    let before = load_named(alloc, files, earlier)?;
    let after = load_all(alloc, files, saved.first, saved.others)?;
    Ok((before, after))
}

/// Returns the facts about the chosen catalogues of both. `NoCatalogue` gives the first name that no later catalogue
/// has.
fn choose_two<'a>(
    alloc: Global,
    before: &(Knowledge, Names),
    after: &(Knowledge, Names),
    only: &[&'a str],
) -> Result<(Knowledge, Knowledge), Fault<'a>>
    ensures { ChooseTwoResult (texts_of only.now) before.now.1 before.now.0 after.now.1 after.now.0 result }
{
    let later = facts_of(alloc, &after.0, &after.1, only)?;
    let earlier = chosen_facts(alloc, &before.0, &before.1, only)?;
    Ok((earlier, later))
}

/// Returns the facts of the records that are new or changed. Returns `AllocError` if no memory is found.
fn news_between(
    alloc: Global,
    earlier_names: &Names,
    earlier: &Knowledge,
    later_names: &Names,
    later: &Knowledge,
) -> Result<Knowledge, AllocError>
    ensures { IfOk result (AreNewsBetween earlier_names.now earlier.now later_names.now later.now) }
{
    let found = changes(alloc, earlier_names, earlier, later_names, later)?;
    news_of(alloc, &found)
}

/// Returns the facts of the records of the chosen catalogues that are new or changed since the earlier file, and the
/// status: `Failed` if a search or an association of these catalogues failed in one of the files.
fn news_since<'a, F: Folder>(
    alloc: Global,
    files: &F,
    earlier: &'a str,
    saved: SavedFiles<'a, '_>,
    only: &[&'a str],
) -> Result<(Knowledge, Status), Fault<'a>>
    ensures { NewsResult (F.octets files.now) earlier.entry.now
        (saved.entry.first.now ∷ texts_of saved.entry.others.now) (texts_of only.now) result }
{
    let (before, after) = load_since(alloc, files, earlier, saved)?;
    let (chosen_before, chosen_after) = choose_two(alloc, &before, &after, only)?;
    let status = status_of_both(&chosen_before, &chosen_after);
    let news = news_between(alloc, &before.1, &chosen_before, &after.1, &chosen_after)?;
    Ok((news, status))
}

/// Writes the records that are new or changed since the earlier file, reports what was left out, and returns the
/// status.
pub(crate) fn news_files<'a, 'o: 'a, F: Folder, W: Write, E: Write>(
    alloc: Global,
    files: &'a F,
    earlier: &'a str,
    saved: SavedFiles<'a, '_>,
    wanted: Extract<'a, '_>,
    output: &mut Output<'o, W>,
    errors: &mut Output<'_, E>,
) -> Result<Status, Fault<'a>>
    ensures { SinceResult (F.octets files.now) earlier.entry.now
        (saved.entry.first.now ∷ texts_of saved.entry.others.now) (extract wanted.entry)
        (outputs W.contents E.contents output.old errors.old)
        (outputs W.contents E.contents output.new errors.new) result }
{
    let syntax = syntax_of(alloc, wanted.syntax)?;
    let (news, status) = news_since(alloc, files, earlier, saved, wanted.only)?;
    let taken = take_records(alloc, &news, &syntax, wanted.conflicts);
    drop(news);
    let (octets, left) = taken?;
    let lines = left_lines(alloc, &left)?;
    put_records(octets.as_slice(), lines.as_slice(), output, errors)?;
    Ok(status)
}
