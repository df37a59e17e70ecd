//! The command `join`: the list of the facts of several saved files, and one file of them.
ghost use Rattle.std.specs.Prelude.{◌≡◌, ◌↔◌, ◌∷◌, [], IsTrue, IfSome, IfErr, Result};
ghost use Rattle.zmeta_args.specs.Texts.{texts_of};
ghost use Rattle.zmeta_offline.specs.Join.{IsKnownStatus, LoadFileResult, LoadNamedResult, LoadAllResult, AbsorbNamedResult, AbsorbAllResult, IsOfFile, PutListResult, JoinResult, ListFactsResult, ListAndSaveResult, AfterJoinSaved};
ghost use Rattle.zmeta_offline.specs.Joined.{AfterJoin, StreamedJoinResult};
ghost use Rattle.zmeta_offline.specs.Saved.{IsBegun};
ghost use Rattle.zmeta_devices.specs.Devices.{output_device, outputs};
ghost use Rattle.zmeta_devices.specs.Files.{folder};
ghost use Rattle.zmeta_offline.specs.Views.{printed};
ghost use Rattle.zmeta_devices.specs.declared.fault.Fault.{Fault};
ghost use Rattle.zmeta_devices.specs.declared.fault.Status.{Status};

use crate::joined::{join_streamed, parted};
use crate::records::{SavedFiles, are_seekable};
use crate::saved::{Saving, begin_draft, save_facts};
use crate::view::print_view;
use std::alloc::Global;
use std::io::Write;
use zknow::{Knowledge, Names, load};
use zmeta_args::View;
use zmeta_devices::fault::{Fault, Status, end, report_failure};
use zmeta_devices::files::{Folder, file_at};
use zmeta_devices::input::Input;
use zmeta_devices::output::Output;
use zmeta_devices::readable::Readable;

/// Prints the list of all facts of the saved files at these paths.
///
/// If a file is refused, or has other names than those before it, writes the reason on `errors` and prints
/// nothing. Each file is read before the next is opened.
///
/// For all but a page, files may outgrow memory: they are read twice if all of them can be, and thrice for titles and
/// fields. If one cannot be read again, is not as it was, or no memory is found then, a front of the list may have been
/// printed before the reason.
///
/// Returns `Failed` if the list has a search or an association that failed.
pub fn join_named<'a, 'o: 'a, F: Folder, W: Write, E: Write>(
    alloc: Global,
    files: &'a F,
    first: &'a str,
    others: &[&'a str],
    view: View<'_>,
    output: &mut Output<'o, W>,
    errors: &mut Output<'_, E>,
) -> Status
    ensures { AfterJoin view.entry (F.octets files.now) (first.entry.now ∷ texts_of others.now)
        (outputs W.contents E.contents output.old errors.old)
        (outputs W.contents E.contents output.new errors.new) result }
{
    let answer = join_wanted(alloc, files, SavedFiles { first, others }, view, output);
    end(answer, errors)
}

/// Prints the list, and returns the status. All but a page is a stream if all files can be read more than once.
fn join_wanted<'a, 'o: 'a, F: Folder, W: Write>(
    alloc: Global,
    files: &'a F,
    saved: SavedFiles<'a, '_>,
    view: View<'_>,
    output: &mut Output<'o, W>,
) -> Result<Status, Fault<'a>>
    ensures { StreamedJoinResult view.entry (F.octets files.now)
        (saved.entry.first.now ∷ texts_of saved.entry.others.now)
        (output_device W.contents output.old) (output_device W.contents output.new) result }
{
    if let Some(shape) = parted(view) {
        if are_seekable(files, saved) {
            return join_streamed(alloc, files, saved, shape, output);
        }
    }
    join_files(alloc, files, saved.first, saved.others, view, output)
}

/// Prints the list of facts that are in memory, and returns the status.
fn join_files<'a, 'o: 'a, F: Folder, W: Write>(
    alloc: Global,
    files: &'a F,
    first: &'a str,
    others: &[&'a str],
    view: View<'_>,
    output: &mut Output<'o, W>,
) -> Result<Status, Fault<'a>>
    ensures { JoinResult view.entry (F.octets files.now) (first.entry.now ∷ texts_of others.now)
        (output_device W.contents output.old) (output_device W.contents output.new) result }
{
    let known = load_all(alloc, files, first, others)?;
    let status = known_status(&known.0);
    let mut text = Vec::new(alloc);
    let printed = print_view(alloc, &known.0, &known.1, &[], &[], view, &mut text);
    drop(known);
    printed?;
    put_list(output, text.as_slice(), status)
}

/// Prints the list of all facts of the saved files at these paths, and saves these facts in one file, which is made at
/// the path `saved`, whatever becomes of the list. That file may be one of those that are read.
///
/// If no draft of that file can be begun, or a file is refused, or has other names than those before it, writes the
/// reason on `errors`; nothing is printed or saved.
///
/// Returns `Failed` if the list has a search or an association that failed.
pub fn join_saved<'a, 'o: 'a, F: Folder, W: Write, E: Write>(
    alloc: Global,
    files: &mut F,
    first: &'a str,
    others: &[&'a str],
    saved: &'a str,
    view: View<'_>,
    output: &mut Output<'o, W>,
    errors: &mut Output<'_, E>,
) -> Status
    ensures { AfterJoinSaved view.entry (first.entry.now ∷ texts_of others.now) saved.entry.now
        (folder F.octets F.are_one F.steps files.old) (folder F.octets F.are_one F.steps files.new)
        (outputs W.contents E.contents output.old errors.old)
        (outputs W.contents E.contents output.new errors.new) result }
{
    let draft = match begin_draft(files, saved) {
        Ok(draft) => draft,
        Err(fault) => return end(Err(fault), errors),
    };
    let known = match load_all(alloc, files, first, others) {
        Ok(known) => known,
        Err(fault) => {
            files.discard(draft);
            return end(Err(fault), errors);
        }
    };
    let saving = Saving { path: saved, draft };
    let answer = list_and_save(alloc, files, &known, saving, view, output, errors);
    drop(known);
    end(answer, errors)
}

/// Prints the list of facts, and then saves them, whatever became of the list. Returns the status.
///
/// If both fail, reports why the list failed, and returns why the facts were not saved.
fn list_and_save<'a, 'o: 'a, F: Folder, W: Write, E: Write>(
    alloc: Global,
    files: &mut F,
    known: &(Knowledge, Names),
    saving: Saving<'a, F::Draft>,
    view: View<'_>,
    output: &mut Output<'o, W>,
    errors: &mut Output<'_, E>,
) -> Result<Status, Fault<'a>>
    requires { IsBegun F.Draft.contents (F.steps files.old) saving }
    ensures { ListAndSaveResult known.now.1 known.now.0 view.entry saving.entry.path.now
        (folder F.octets F.are_one F.steps files.old) (folder F.octets F.are_one F.steps files.new)
        (outputs W.contents E.contents output.old errors.old)
        (outputs W.contents E.contents output.new errors.new) result }
{
    let printed = list_facts(alloc, known, view, output);
    match save_facts(alloc, files, saving, &known.0, &known.1) {
        Ok(()) => {
            printed?;
            Ok(known_status(&known.0))
        }
        Err(fault) => {
            report_failure(printed, errors);
            Err(fault)
        }
    }
}

/// Prints the list of facts.
fn list_facts<'o, W: Write>(
    alloc: Global,
    known: &(Knowledge, Names),
    view: View<'_>,
    output: &mut Output<'o, W>,
) -> Result<(), Fault<'o>>
    ensures { ListFactsResult (printed known.now.1 view.entry [] [] known.now.0) (output_device W.contents output.old)
        (output_device W.contents output.new) result }
{
    let mut text = Vec::new(alloc);
    print_view(alloc, &known.0, &known.1, &[], &[], view, &mut text)?;
    output.put(text.as_slice())
}

/// Writes the list, and returns the status.
pub(crate) fn put_list<'o, W: Write>(
    output: &mut Output<'o, W>,
    text: &[u8],
    status: Status,
) -> Result<Status, Fault<'o>>
    ensures { PutListResult text.now status (output_device W.contents output.old)
        (output_device W.contents output.new) result }
{
    match output.put(text) {
        Ok(()) => Ok(status),
        Err(fault) => Err(fault),
    }
}

/// Returns the status for these facts: `Failed` if a search or an association failed, else `Done`.
pub(crate) fn known_status(knowledge: &Knowledge) -> Status
    ensures { IsKnownStatus knowledge.now result }
{
    if knowledge.has_failed() {
        Status::Failed
    } else {
        Status::Done
    }
}

/// Returns the facts of all files at these paths.
pub(crate) fn load_all<'a, F: Folder>(
    alloc: Global,
    files: &F,
    first: &'a str,
    others: &[&'a str],
) -> Result<(Knowledge, Names), Fault<'a>>
    ensures { LoadAllResult (F.octets files.now) (first.entry.now ∷ texts_of others.now) result }
{
    let (mut knowledge, names) = load_named(alloc, files, first)?;
    absorb_all(alloc, files, others, &mut knowledge, &names)?;
    Ok((knowledge, names))
}

/// Adds the facts of the files at these paths, each of which must have these names.
fn absorb_all<'a, F: Folder>(
    alloc: Global,
    files: &F,
    paths: &[&'a str],
    knowledge: &mut Knowledge,
    names: &Names,
) -> Result<(), Fault<'a>>
    ensures { AbsorbAllResult (F.octets files.now) names.now (texts_of paths.now)
        knowledge.old knowledge.new result }
{
    for path in paths {
        absorb_named(alloc, files, *path, knowledge, names)?;
    }
    Ok(())
}

/// Adds the facts of the file at a path, which must have these names.
fn absorb_named<'a, F: Folder>(
    alloc: Global,
    files: &F,
    path: &'a str,
    knowledge: &mut Knowledge,
    names: &Names,
) -> Result<(), Fault<'a>>
    ensures { AbsorbNamedResult (F.octets files.now) names.now path.entry.now knowledge.old knowledge.new result }
{
    let other = load_named(alloc, files, path)?;
    if !are_same(names, &other.1) {
        drop(other);
        return Err(Fault::NamesDiffer);
    }
    let absorbed = knowledge.absorb(&other.0);
    drop(other);
    absorbed?;
    knowledge.lawful();
    Ok(())
}

/// Returns the facts and names of the file at a path.
#[tactic(auto, using(crate::proofs::Joining::named_result))]
pub(crate) fn load_named<'a, F: Folder>(
    alloc: Global,
    files: &F,
    path: &'a str,
) -> Result<(Knowledge, Names), Fault<'a>>
    ensures { LoadNamedResult (F.octets files.now) path.entry.now result }
{
    let mut file = file_at(files, path);
    load_file(alloc, &mut file)
}

/// Returns the facts and names of one file.
fn load_file<'a, R: Readable>(
    alloc: Global,
    file: &mut Input<'a, R>,
) -> Result<(Knowledge, Names), Fault<'a>>
    ensures loaded { IfSome (R.remaining file.old.reader) (λ octets. LoadFileResult octets result) }
    ensures fault { IfErr result (λ f. IsOfFile file.old.path.now f) }
{
    let octets = file.read_all(alloc)?;
    match load(alloc, octets.as_slice()) {
        Ok(known) => Ok(known),
        Err(error) => Err(Fault::of_load(file.path, error)),
    }
}

fn are_same(names: &Names, others: &Names) -> bool
    ensures { IsTrue result ↔ (names.now ≡ others.now) }
{
    names.as_slice() == others.as_slice()
}
