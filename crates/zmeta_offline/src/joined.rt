//! The command `join` over files that outgrow memory. A list or lines of JSON take two passes, and a view for readers
//! three.
ghost use Rattle.std.specs.Prelude.{◌≡◌, ◌∷◌, [], Some};
ghost use Rattle.zmeta_args.specs.Texts.{texts_of};
ghost use Rattle.zmeta_args.specs.declared.arguments.View.{View};
ghost use Rattle.zmeta_devices.specs.Devices.{output_device};
ghost use Rattle.zmeta_offline.specs.Joined.{parted, FormResult, JoinMarkedResult, StreamedJoinResult};
ghost use Rattle.zmeta_offline.specs.declared.joined.PartedView.TheVariants as parts;

use crate::join::put_list;
use crate::records::{SavedFiles, paths_of, status_of};
use crate::rows::{measure_rows, write_rows};
use crate::scanned::{Marked, Noting, scan_files};
use std::alloc::Global;
use std::io::Write;
use zknow::{Mode, Names};
use zknow_forms::laws::form_laws;
use zknow_forms::{Form, Tally};
use zknow_runs::{Chosen, Run, Taking};
use zknow_titles::laws::title_part_laws;
use zknow_titles::{Extent, show_names};
use zmeta_args::View;
use zmeta_devices::fault::{Fault, Status};
use zmeta_devices::files::Folder;
use zmeta_devices::output::Output;

/// A view that is written in parts.
#[derive(Clone, Copy, PartialEq, Eq)]
pub(crate) enum PartedView {
    /// The list.
    List(Mode),
    /// Lines of JSON.
    Json,
    /// The view for readers.
    Readers(Extent),
}

/// Returns a view that is written in parts. `None` for a page: all facts are in memory then.
pub(crate) fn parted(view: View<'_>) -> Option<PartedView>
    ensures { result ≡ parted view.entry }
{
    match view {
        View::Text => Some(PartedView::List(Mode::Text)),
        View::Hex => Some(PartedView::List(Mode::Hex)),
        View::Json => Some(PartedView::Json),
        View::Titles => Some(PartedView::Readers(Extent::Title)),
        View::Fields => Some(PartedView::Readers(Extent::Whole)),
        View::Html { .. } => None,
    }
}

/// Returns the form of the view for readers, with these names, in columns of the widths that the records of these runs
/// need, and with the numbers of positions at which one is shown. Reads all of them.
///
/// `Read` and `Memory` are as in `measure_rows`.
fn readers_form<'a, F: Folder>(
    alloc: Global,
    files: &F,
    paths: &[&'a str],
    runs: &[Run],
    chosen: &Chosen,
    names: &Names,
    extent: Extent,
) -> Result<Form, Fault<'a>>
    ensures { FormResult (F.octets files.now) (texts_of paths.now) runs.now chosen.now names.now
        (parts.Readers extent) result }
{
    let measured = show_names(alloc, names)?;
    let told = measure_rows(alloc, files, paths, runs, chosen, measured)?;
    let shown = show_names(alloc, names)?;
    let Tally {
        left: _,
        widths,
        filled,
    } = told;
    Ok(Form::Titles {
        shown,
        extent,
        widths,
        filled,
    })
}

/// Returns the form of a view's text, with these names. Reads the records of these runs if it is a view for readers.
///
/// `Read` and `Memory` are as in `measure_rows`.
fn form_of<'a, F: Folder>(
    alloc: Global,
    files: &F,
    paths: &[&'a str],
    runs: &[Run],
    chosen: &Chosen,
    names: Names,
    shape: PartedView,
) -> Result<Form, Fault<'a>>
    ensures { FormResult (F.octets files.now) (texts_of paths.now) runs.now chosen.now names shape result }
{
    match shape {
        PartedView::List(mode) => Ok(Form::List { names, mode }),
        PartedView::Json => Ok(Form::Json { names }),
        PartedView::Readers(extent) => {
            readers_form(alloc, files, paths, runs, chosen, &names, extent)
        }
    }
}

/// Prints the list of all facts of saved files, and returns the status. Octets of some of the runs of records are in
/// memory, the records of one position, and the facts that are no records.
///
/// Each file is read twice, and thrice for a view for readers. `Read` and `Memory` can come behind a front of the list.
pub(crate) fn join_streamed<'a, 'o: 'a, F: Folder, W: Write>(
    alloc: Global,
    files: &'a F,
    saved: SavedFiles<'a, '_>,
    shape: PartedView,
    output: &mut Output<'o, W>,
) -> Result<Status, Fault<'a>>
    ensures { (view : View) → parted view ≡ Some shape → StreamedJoinResult view (F.octets files.now)
        (saved.entry.first.now ∷ texts_of saved.entry.others.now)
        (output_device W.contents output.old) (output_device W.contents output.new) result }
{
    let paths = paths_of(alloc, saved)?;
    let marked = scan_files(alloc, files, paths.as_slice(), &[], Noting::Others)?;
    join_marked(
        alloc,
        files,
        saved.first,
        paths.as_slice(),
        marked,
        shape,
        output,
    )
}

/// Prints the list of all facts of the files at these paths, and returns the status. The first pass found where their
/// records stand, and has their other facts.
///
/// If the columns or the numbers of positions that a view for readers has are not those of the records that were
/// written, a file changed, and the first is named.
fn join_marked<'a, 'o: 'a, F: Folder, W: Write>(
    alloc: Global,
    files: &'a F,
    first: &'a str,
    paths: &[&'a str],
    marked: Marked,
    shape: PartedView,
    output: &mut Output<'o, W>,
) -> Result<Status, Fault<'a>>
    ensures { JoinMarkedResult shape (F.octets files.now) first.entry.now (texts_of paths.now) marked
        (output_device W.contents output.old) (output_device W.contents output.new) result }
{
    form_laws();
    title_part_laws();
    let Marked {
        chosen,
        names,
        runs,
        failed,
        others,
    } = marked;
    let form = form_of(alloc, files, paths, runs.as_slice(), &chosen, names, shape)?;
    let mut head = Vec::new(alloc);
    form.write_head(alloc, &others, &mut head)?;
    drop(others);
    let taking = Taking {
        chosen: &chosen,
        form: &form,
        head,
    };
    let (last, told) = write_rows(alloc, files, paths, runs.as_slice(), taking, output)?;
    if !form.is_as_told(&told) {
        return Err(Fault::Read(first));
    }
    put_list(output, last.as_slice(), status_of(failed))
}
