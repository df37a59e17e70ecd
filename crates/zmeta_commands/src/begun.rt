//! The files that a command is to write: their paths are looked at, and drafts are begun, before anybody is asked.

ghost use Rattle.std.specs.Prelude.{◌≡◌, IfOk};
ghost use Rattle.std.specs.Option.{option_map};
ghost use Rattle.zmeta_devices.specs.Files.{folder};
ghost use Rattle.zmeta_offline.specs.Saved.{IsBegunIf, saving_path};
ghost use Rattle.zmeta_commands.specs.Begun.{ApartResult, TraceApartResult, BeginSavingResult};

use zmeta_devices::fault::Fault;
use zmeta_devices::files::Folder;
use zmeta_offline::saved::{Saving, begin_draft};

/// `Overwrite` if the file at the path `written` is that at `read`.
fn check_apart<'a, F: Folder>(
    files: &F,
    read: &str,
    written: Option<&'a str>,
) -> Result<(), Fault<'a>>
    ensures { ApartResult (folder F.octets F.are_one F.steps files.now) read.now
        (option_map (λ path. path.now) written.entry) result }
{
    let Some(path) = written else {
        return Ok(());
    };
    if files.is_one_file(read, path) {
        Err(Fault::Overwrite(path))
    } else {
        Ok(())
    }
}

/// `Overwrite` if the file at the path `trace` is that at `read`, or at `saved`.
#[tactic(auto, using(crate::proofs::Apart::of_trace))]
pub(crate) fn check_trace<'a, F: Folder>(
    files: &F,
    read: &str,
    saved: Option<&str>,
    trace: Option<&'a str>,
) -> Result<(), Fault<'a>>
    ensures { TraceApartResult (folder F.octets F.are_one F.steps files.now) read.now
        (option_map (λ path. path.now) saved.entry) (option_map (λ path. path.now) trace.entry) result }
{
    check_apart(files, read, trace)?;
    match saved {
        Some(saved) => check_apart(files, saved, trace),
        None => Ok(()),
    }
}

/// Begins a draft of the file at the path `saved`, if there is one. `Overwrite` if it is that at `read`; `Write` if no
/// draft can be begun.
#[tactic(auto, using(crate::proofs::Apart::of_saving))]
pub(crate) fn begin_saving<'a, F: Folder>(
    files: &mut F,
    read: &str,
    saved: Option<&'a str>,
) -> Result<Option<Saving<'a, F::Draft>>, Fault<'a>>
    ensures begun { BeginSavingResult (folder F.octets F.are_one F.steps files.old)
        (folder F.octets F.are_one F.steps files.new) read.now (option_map (λ path. path.now) saved.entry) result }
    ensures drafts { IfOk result (IsBegunIf F.Draft.contents (F.steps files.new)) }
    ensures paths { IfOk result (λ saving. saving_path saving ≡ option_map (λ path. path.now) saved.entry) }
{
    check_apart(files, read, saved)?;
    let Some(path) = saved else {
        return Ok(None);
    };
    let draft = begin_draft(files, path)?;
    Ok(Some(Saving { path, draft }))
}

/// Gives a draft up, if there is one.
pub(crate) fn discard<F: Folder>(files: &F, saving: Option<Saving<'_, F::Draft>>) {
    if let Some(saving) = saving {
        let Saving { path: _, draft } = saving;
        files.discard(draft);
    }
}
