//! Facts that are saved in a file.
ghost use Rattle.std.specs.Prelude.{◌≡◌, ◌⊎◌, Ok, Err, IfOk, OnOk, MatchResult};
ghost use Rattle.zmeta_devices.specs.Files.{folder, WasTaken, IsDraft};
ghost use Rattle.zmeta_devices.specs.Files.FileStep.{drafted};
ghost use Rattle.zmeta_offline.specs.Saved.{BeginResult, IsBegun, SavedOctetsResult, KeepDraftResult, KeepOctetsResult, SaveFactsResult};

use std::alloc::Global;
use std::io;
use std::io::{ErrorKind, Write};
use zknow::{Knowledge, Names, SaveError, save};
use zmeta_devices::fault::Fault;
use zmeta_devices::files::Folder;

/// A draft that was begun, and the path of the file to be made of it.
#[derive(Drop)]
pub struct Saving<'a, D> {
    pub path: &'a str,
    pub draft: D,
}

/// Begins a draft of the file at a path. `Write` with the path if that fails, or `Memory`.
#[tactic(auto, using(crate::proofs::Savings::begun_taken))]
pub fn begin_draft<'a, F: Folder>(files: &mut F, path: &'a str) -> Result<F::Draft, Fault<'a>>
    ensures begun { BeginResult (folder F.octets F.are_one F.steps files.old)
        (folder F.octets F.are_one F.steps files.new) path.entry.now result }
    ensures empty { IfOk result (λ draft. IsDraft (F.steps files.new) (F.Draft.contents draft)) }
    ensures taken { OnOk result (WasTaken (F.steps files.new) (drafted path.entry.now)) }
{
    match files.draft(path) {
        Ok(draft) => Ok(draft),
        Err(error) => Err(fault_of(&error, path)),
    }
}

/// Returns the fault for a draft that could not be begun.
fn fault_of<'a>(error: &io::Error, path: &'a str) -> Fault<'a>
    ensures { (result ≡ Fault.Memory) ⊎ (result ≡ Fault.Write path.entry) }
{
    match error.kind() {
        ErrorKind::OutOfMemory => Fault::Memory,
        _ => Fault::Write(path),
    }
}

/// Saves the facts and names in one file, which is made of the draft.
///
/// `Write` with the path if that fails, or if an element passes the limits. Then, and for `Memory`, each file is as it
/// was.
#[tactic(auto, using(crate::proofs::Savings::of_facts))]
pub fn save_facts<'a, F: Folder>(
    alloc: Global,
    files: &mut F,
    saving: Saving<'a, F::Draft>,
    knowledge: &Knowledge,
    names: &Names,
) -> Result<(), Fault<'a>>
    requires { IsBegun F.Draft.contents (F.steps files.old) saving }
    ensures { SaveFactsResult names.now knowledge.now saving.entry.path.now
        (folder F.octets F.are_one F.steps files.old) (folder F.octets F.are_one F.steps files.new) result }
{
    let Saving { path, draft } = saving;
    match saved_octets(alloc, path, knowledge, names) {
        Ok(octets) => keep_octets(files, path, draft, octets.as_slice()),
        Err(fault) => {
            files.discard(draft);
            Err(fault)
        }
    }
}

/// Returns the octets of the saved file. `Write` with its path if an element passes the limits, else only `Memory`.
fn saved_octets<'a>(
    alloc: Global,
    path: &'a str,
    knowledge: &Knowledge,
    names: &Names,
) -> Result<Vec<u8>, Fault<'a>>
    ensures { MatchResult result (λ octets. SavedOctetsResult names.now knowledge.now path.entry.now (Ok octets.items))
        (λ fault. SavedOctetsResult names.now knowledge.now path.entry.now (Err fault)) }
{
    let mut octets = Vec::new(alloc);
    match save(alloc, knowledge, names, &mut octets) {
        Ok(()) => Ok(octets),
        Err(SaveError::TooDeep) => Err(Fault::Write(path)),
        Err(SaveError::TooLong) => Err(Fault::Write(path)),
        Err(SaveError::Memory) => Err(Fault::Memory),
    }
}

/// Makes a file of the draft, which holds these octets. `Write` with the path if that fails.
#[tactic(auto, using(crate::proofs::Savings::kept_octets))]
fn keep_octets<'a, F: Folder>(
    files: &mut F,
    path: &'a str,
    mut draft: F::Draft,
    octets: &[u8],
) -> Result<(), Fault<'a>>
    requires taken { WasTaken (F.steps files.old) (drafted path.now) }
    requires empty { IsDraft (F.steps files.old) (F.Draft.contents draft) }
    ensures { KeepOctetsResult (folder F.octets F.are_one F.steps files.old)
        (folder F.octets F.are_one F.steps files.new) path.entry.now octets.now result }
{
    match draft.write_all(octets) {
        Ok(()) => keep(files, path, draft),
        Err(_) => {
            files.discard(draft);
            Err(Fault::Write(path))
        }
    }
}

/// Makes the file at a path of its draft. `Write` with the path if that fails.
pub(crate) fn keep<'a, F: Folder>(
    files: &mut F,
    path: &'a str,
    draft: F::Draft,
) -> Result<(), Fault<'a>>
    requires { WasTaken (F.steps files.old) (drafted path.now) }
    ensures { KeepDraftResult (folder F.octets F.are_one F.steps files.old)
        (folder F.octets F.are_one F.steps files.new) path.entry.now (F.Draft.contents draft) result }
{
    match files.keep(path, draft) {
        Ok(()) => Ok(()),
        Err(_) => Err(Fault::Write(path)),
    }
}
