//! Where the records of saved files stand: the first pass over files that outgrow memory.
ghost use Rattle.std.specs.Prelude.{◌≡◌, ◌∷◌, ◌++◌, ◌↔◌, ◌<◌, ℕ, List, [], Option, Some, None, false, length, IsTrue, IfOk, IfErr, OnOk};
ghost use Rattle.zknow.specs.declared.fact.Fact.{Fact};
ghost use Rattle.zknow.specs.Encodings.{encoding};
ghost use Rattle.zknow.specs.Saved.Saved.{IsWithinLimits};
ghost use Rattle.zknow.specs.Saved.SavedFacts.{saved_names};
ghost use Rattle.zknow_merge.specs.Scans.{Found, IsPlaceOf};
ghost use Rattle.zmeta_args.specs.Texts.{texts_of};
ghost use Rattle.zmeta_devices.specs.Devices.{input_device};
ghost use Rattle.zmeta_offline.specs.Join.{IsFaultAt, IsRefusedAmong};
ghost use Rattle.zmeta_offline.specs.Marked.{AreChosen, AreNoted, ScanFilesResult};
ghost use Rattle.zmeta_offline.specs.Scanned.{IsScanning, AfterReached, AreMarks, IsMarkedFile, IsFirst};
ghost use Rattle.zmeta_offline.specs.Scanned.{IsBehindNames, IsBehindFact, HasAdded};
ghost use Rattle.zmeta_offline.specs.Scanned.{IsRefusedBehind, IsScannedTo};

use crate::merged::piece_of;
use crate::names::{first_unknown, is_picked};
use bytes::Bytes;
use std::alloc::{AllocError, Global};
use zknow::{Knowledge, Names, load};
use zknow_merge::{FactKind, FactPlace, Scan, ScanStep, first_fact};
use zknow_runs::{Chosen, Run, RunList};
use zmeta_devices::fault::Fault;
use zmeta_devices::files::{Folder, file_at};
use zmeta_devices::input::Input;
use zmeta_devices::readable::Readable;

/// What is noted of facts beside where records stand.
#[derive(Clone, Copy)]
pub(crate) enum Noting {
    /// Failures alone.
    Failures,
    /// All facts that are no records.
    Others,
}

/// The names of the first file, and what is noted of facts.
#[derive(Drop)]
struct First {
    /// The element of the names.
    element: Vec<u8>,
    names: Names,
    /// Of which catalogues facts are noted.
    chosen: Chosen,
    noting: Noting,
}

/// What the files that were scanned have of chosen catalogues.
#[derive(Drop)]
struct Marks {
    /// The runs of their records.
    runs: RunList,
    /// Whether a search or an association of one failed.
    failed: bool,
    /// Their facts that are no records, if these are noted.
    others: Knowledge,
}

/// What was found in the files that were scanned.
#[derive(Drop)]
struct Scanned {
    first: First,
    marks: Marks,
}

/// What files have of chosen catalogues.
#[derive(Drop)]
pub(crate) struct Marked {
    /// Whose records are taken.
    pub(crate) chosen: Chosen,
    /// The names of all files.
    pub(crate) names: Names,
    /// Where their records stand.
    pub(crate) runs: Vec<Run>,
    /// Whether a search or an association of one failed.
    pub(crate) failed: bool,
    /// Their facts that are no records, if these were noted.
    pub(crate) others: Knowledge,
}

/// What a scan came to.
#[derive(Clone, Copy, PartialEq, Eq, Drop)]
enum Reached {
    Names,
    Fact(FactPlace),
    /// The end of the file.
    End,
}

/// Scans the files at these paths, one after the other, for what the catalogues of the names `only` have. If there are
/// no names, for what all have.
///
/// If a file is refused, or has other names than those before it, returns the reason. `NoCatalogue` gives the first
/// name that no catalogue has.
pub(crate) fn scan_files<'a, F: Folder>(
    alloc: Global,
    files: &F,
    paths: &[&'a str],
    only: &[&'a str],
    noting: Noting,
) -> Result<Marked, Fault<'a>>
    requires { 0 < length paths.now }
    ensures { ScanFilesResult (F.octets files.now) (texts_of paths.now) (texts_of only.now) noting result }
{
    let mut piece = piece_of(alloc)?;
    let Scanned { first, mut marks } = scan_first(
        alloc,
        files,
        paths[0],
        only,
        noting,
        piece.as_mut_slice(),
    )?;
    let others = &paths[1..];
    scan_others(
        alloc,
        files,
        others,
        piece.as_mut_slice(),
        &first,
        &mut marks,
    )?;
    marked_of(only, first, marks)
}

/// Returns what was found in all files, or the first of the names that no catalogue has.
fn marked_of<'a>(only: &[&'a str], first: First, marks: Marks) -> Result<Marked, Fault<'a>>
    ensures { (octets : List ℕ → Option (List ℕ)) (path : List ℕ) (paths : List (List ℕ))
        → IsScannedTo octets (texts_of only.now) (path ∷ paths) first marks
        → ScanFilesResult octets (path ∷ paths) (texts_of only.now) first.noting result }
{
    match first_unknown(only, first.names.as_slice()) {
        Some(name) => Err(Fault::NoCatalogue(name)),
        None => {
            let First { names, chosen, .. } = first;
            let Marks {
                runs,
                failed,
                others,
            } = marks;
            Ok(Marked {
                chosen,
                names,
                runs: runs.finish()?,
                failed,
                others,
            })
        }
    }
}

/// Scans the first file, at this path.
fn scan_first<'a, F: Folder>(
    alloc: Global,
    files: &F,
    path: &'a str,
    only: &[&str],
    noting: Noting,
    piece: &mut [u8],
) -> Result<Scanned, Fault<'a>>
    requires { 0 < length piece.old }
    ensures ok { IfOk result (λ s. IsScannedTo (F.octets files.now) (texts_of only.now) (path.entry.now ∷ [])
        s.first s.marks) }
    ensures noting { IfOk result (λ s. s.first.noting ≡ noting) }
    ensures err { IfErr result (IsFaultAt (F.octets files.now) path.entry.now) }
    ensures room { length piece.new ≡ length piece.old }
{
    let mut file = file_at(files, path);
    let mut scan = Scan::new(alloc);
    read_names(&mut file, piece, &mut scan)?;
    let first = first_of(alloc, &scan, only, noting)?;
    let mut marks = Marks {
        runs: RunList::new(alloc),
        failed: false,
        others: Knowledge::new(alloc),
    };
    mark_facts(alloc, &mut file, piece, &mut scan, 0, &first, &mut marks)?;
    Ok(Scanned { first, marks })
}

/// Scans the files at these paths, behind the first file. Each must have the names of that file.
fn scan_others<'a, F: Folder>(
    alloc: Global,
    files: &F,
    others: &[&'a str],
    piece: &mut [u8],
    first: &First,
    marks: &mut Marks,
) -> Result<(), Fault<'a>>
    requires { 0 < length piece.old }
    ensures ok { OnOk result ((only : List (List ℕ)) (path : List ℕ)
        → IsScannedTo (F.octets files.now) only (path ∷ []) first.now marks.old
        → IsScannedTo (F.octets files.now) only (path ∷ texts_of others.now) first.now marks.new) }
    ensures err { IfErr result (λ f. (only : List (List ℕ)) (path : List ℕ)
        → IsScannedTo (F.octets files.now) only (path ∷ []) first.now marks.old
        → IsRefusedAmong (F.octets files.now) (path ∷ texts_of others.now) f) }
{
    let mut number = 0;
    for path in others {
        if number == u32::MAX {
            return Err(Fault::Memory);
        }
        number += 1;
        scan_other(alloc, files, *path, number, piece, first, marks)?;
    }
    Ok(())
}

/// Scans the file of this number, at this path. It must have the names of the first file.
fn scan_other<'a, F: Folder>(
    alloc: Global,
    files: &F,
    path: &'a str,
    number: u32,
    piece: &mut [u8],
    first: &First,
    marks: &mut Marks,
) -> Result<(), Fault<'a>>
    requires { 0 < length piece.old }
    ensures ok { OnOk result ((only paths : List (List ℕ)) → number ≡ length paths
        → IsScannedTo (F.octets files.now) only paths first.now marks.old
        → IsScannedTo (F.octets files.now) only (paths ++ path.entry.now ∷ []) first.now marks.new) }
    ensures err { IfErr result (λ f. (only paths : List (List ℕ)) → number ≡ length paths
        → IsScannedTo (F.octets files.now) only paths first.now marks.old
        → IsRefusedBehind (F.octets files.now) first.now.names path.entry.now f) }
    ensures room { length piece.new ≡ length piece.old }
{
    let mut file = file_at(files, path);
    let mut scan = Scan::new(alloc);
    read_names(&mut file, piece, &mut scan)?;
    let same = has_names(&scan, first.element.as_slice());
    mark_facts(alloc, &mut file, piece, &mut scan, number, first, marks)?;
    if same {
        Ok(())
    } else {
        Err(Fault::NamesDiffer)
    }
}

/// Reads the names of a file of which nothing was read.
fn read_names<'a, R: Readable>(
    file: &mut Input<'a, R>,
    piece: &mut [u8],
    scan: &mut Scan,
) -> Result<(), Fault<'a>>
    requires { 0 < length piece.old }
    ensures ok { OnOk result ((octets : List ℕ → Option (List ℕ)) (path : List ℕ)
        → IsScanning octets path (input_device R.remaining file.old) None scan.old
        → (names : List (List ℕ))
        × IsScanning octets path (input_device R.remaining file.new) (Some (names, [])) scan.new) }
    ensures err { IfErr result (λ f. (octets : List ℕ → Option (List ℕ)) (path : List ℕ)
        → IsScanning octets path (input_device R.remaining file.old) None scan.old → IsFaultAt octets path f) }
    ensures room { length piece.new ≡ length piece.old }
{
    match go_on(file, piece, scan)? {
        Reached::Names => Ok(()),
        // The names come first.
        Reached::Fact(_) | Reached::End => Err(Fault::Memory),
    }
}

/// Notes what the facts of the file of this number say of chosen catalogues, up to its end.
fn mark_facts<'a, R: Readable>(
    alloc: Global,
    file: &mut Input<'a, R>,
    piece: &mut [u8],
    scan: &mut Scan,
    number: u32,
    first: &First,
    marks: &mut Marks,
) -> Result<(), Fault<'a>>
    requires { 0 < length piece.old }
    ensures ok { OnOk result ((octets : List ℕ → Option (List ℕ)) (path : List ℕ) (own : List (List ℕ))
        (theirs : List (List Fact)) → number ≡ length theirs
        → IsScanning octets path (input_device R.remaining file.old) (Some (own, [])) scan.old
        → AreMarks first.now theirs own [] marks.old
        → IsMarkedFile octets path first.now theirs own marks.new) }
    ensures err { IfErr result (λ f. (octets : List ℕ → Option (List ℕ)) (path : List ℕ) (own : List (List ℕ))
        → IsScanning octets path (input_device R.remaining file.old) (Some (own, [])) scan.old
        → IsFaultAt octets path f) }
    ensures room { length piece.new ≡ length piece.old }
{
    for _ in 0..u64::MAX {
        match go_on(file, piece, scan)? {
            // The names come once.
            Reached::Names => return Err(Fault::Memory),
            Reached::Fact(place) => marks.note(alloc, first, number, place, scan)?,
            Reached::End => return Ok(()),
        }
    }
    Err(Fault::Memory)
}

/// Goes on to the next element of a file, or to its end.
fn go_on<'a, R: Readable>(
    file: &mut Input<'a, R>,
    piece: &mut [u8],
    scan: &mut Scan,
) -> Result<Reached, Fault<'a>>
    requires { 0 < length piece.old }
    ensures ok { IfOk result (λ reached. (octets : List ℕ → Option (List ℕ)) (path : List ℕ) (found : Found)
        → IsScanning octets path (input_device R.remaining file.old) found scan.old
        → AfterReached octets path (input_device R.remaining file.new) found reached scan.new) }
    ensures err { IfErr result (λ f. (octets : List ℕ → Option (List ℕ)) (path : List ℕ) (found : Found)
        → IsScanning octets path (input_device R.remaining file.old) found scan.old → IsFaultAt octets path f) }
    ensures room { length piece.new ≡ length piece.old }
{
    for _ in 0..u64::MAX {
        match scan.next()? {
            ScanStep::Need => feed(file, piece, scan)?,
            ScanStep::Names => return Ok(Reached::Names),
            ScanStep::Fact(place) => return Ok(Reached::Fact(place)),
            ScanStep::Refused(fault) => return Err(Fault::of_load(file.path, fault)),
            ScanStep::Done => return Ok(Reached::End),
        }
    }
    Err(Fault::Memory)
}

/// Feeds the next piece of a file to its scan, or its end.
fn feed<'a, R: Readable>(
    file: &mut Input<'a, R>,
    piece: &mut [u8],
    scan: &mut Scan,
) -> Result<(), Fault<'a>>
    requires { 0 < length piece.old }
    ensures ok { OnOk result ((octets : List ℕ → Option (List ℕ)) (path : List ℕ) (found : Found)
        → (s : IsScanning octets path (input_device R.remaining file.old) found scan.old) → s.input.ended ≡ false
        → IsScanning octets path (input_device R.remaining file.new) found scan.new) }
    ensures err { IfErr result (λ f. (octets : List ℕ → Option (List ℕ)) (path : List ℕ) (found : Found)
        → IsScanning octets path (input_device R.remaining file.old) found scan.old → IsFaultAt octets path f) }
    ensures path { file.new.path ≡ file.old.path }
    ensures room { length piece.new ≡ length piece.old }
{
    let count = file.read_some(piece)?;
    if count == 0 {
        scan.end();
        return Ok(());
    }
    Ok(scan.feed(&piece[..count])?)
}

/// Whether the names that a scan has read have this element.
fn has_names(scan: &Scan, element: &[u8]) -> bool
    ensures { (names own : List (List ℕ)) → IsBehindNames own scan.now → IsWithinLimits saved_names names
        → element.now ≡ encoding saved_names names → IsTrue result ↔ (names ≡ own) }
{
    match scan.names() {
        None => false,
        Some(own) => own == element,
    }
}

/// Returns the names that the scan of the first file has read, and what is noted of facts.
fn first_of(alloc: Global, scan: &Scan, only: &[&str], noting: Noting) -> Result<First, AllocError>
    ensures first { IfOk result (λ first. (names : List (List ℕ)) → IsBehindNames names scan.now
        → (first.names ≡ names) × IsFirst (texts_of only.now) first) }
    ensures noting { IfOk result (λ first. first.noting ≡ noting) }
{
    // The names were read.
    let Some(element) = scan.names() else {
        return Err(AllocError);
    };
    let Ok((_, names)) = load(alloc, element) else {
        return Err(AllocError);
    };
    let chosen = chosen_of(alloc, only, names.as_slice())?;
    Ok(First {
        element: Vec::from_slice(alloc, element)?,
        names,
        chosen,
        noting,
    })
}

/// Returns whose records are taken: those of the catalogues whose names are among `only`, or of all if there are none.
fn chosen_of(alloc: Global, only: &[&str], names: &[Bytes]) -> Result<Chosen, AllocError>
    ensures { IfOk result (AreChosen (texts_of only.now) names.now) }
{
    let mut targets = Vec::new(alloc);
    for name in names {
        targets.push(is_picked(only, name.as_slice()))?;
    }
    Ok(Chosen {
        targets,
        others: only.is_empty(),
    })
}

/// Adds the fact that a scan read last, if facts are noted that are no records.
fn add_other(
    alloc: Global,
    noting: Noting,
    scan: &Scan,
    others: &mut Knowledge,
) -> Result<(), AllocError>
    ensures { OnOk result (AreNoted noting → (f : Fact) → IsBehindFact f scan.now
        → HasAdded f others.old others.new) }
{
    if let Noting::Failures = noting {
        return Ok(());
    }
    // A fact was read.
    let Some(element) = scan.element() else {
        return Err(AllocError);
    };
    let Ok((fact, _)) = first_fact(alloc, element) else {
        return Err(AllocError);
    };
    let added = others.add(&fact);
    others.lawful();
    added
}

impl Marks {
    /// Notes what the fact that a scan of the file of this number read last says of a chosen catalogue. It is of this
    /// kind, and stands here.
    fn note(
        &mut self,
        alloc: Global,
        first: &First,
        number: u32,
        place: FactPlace,
        scan: &Scan,
    ) -> Result<(), AllocError>
        ensures { OnOk result ((own : List (List ℕ)) (theirs : List (List Fact)) (facts : List Fact) (f : Fact)
            → number ≡ length theirs → IsPlaceOf own facts f place → IsBehindFact f scan.now
            → AreMarks first.now theirs own facts self.old
            → AreMarks first.now theirs own (facts ++ f ∷ []) self.new) }
    {
        if !first.chosen.is_taken(place.target) {
            return Ok(());
        }
        match place.kind {
            FactKind::Count | FactKind::Diagnostic => {
                add_other(alloc, first.noting, scan, &mut self.others)
            }
            FactKind::Failed => {
                self.failed = true;
                add_other(alloc, first.noting, scan, &mut self.others)
            }
            FactKind::Record => self.runs.put(Run {
                position: place.number,
                file: number,
                begin: place.begin,
                end: place.end,
            }),
        }
    }
}
