//! The merge of saved files into one, in pieces: their size may pass that of memory.
ghost use Rattle.std.specs.Prelude.{◌≡◌, ◌⊎◌, ◌∷◌, ◌<◌, ℕ, List, [], Option, None, false, length, map, vec_len, slice_index_or, IfOk, IfErr, OnOk};
ghost use Rattle.zmeta_args.specs.Texts.{texts_of};
ghost use Rattle.zknow_merge.specs.Inputs.{input_at};
ghost use Rattle.zknow_merge.specs.declared.step.Step.{Step};
ghost use Rattle.zmeta_devices.specs.Devices.{InputDevice, input_device, output_device};
ghost use Rattle.zmeta_devices.specs.Files.{opened_left, folder};
ghost use Rattle.zmeta_devices.specs.declared.input.Input.{Input};
ghost use Rattle.zmeta_offline.specs.Merged.{streams_at, HasBegun, IsMerging, IsDue, IsStepped, IsMergeFault, MergeResult, DraftResult, MergeFilesResult, AfterMerge};

use crate::saved::{begin_draft, keep};
use std::alloc::{AllocError, Global};
use std::io::Write;
use zknow_merge::{Merge, Step};
use zmeta_devices::fault::{Fault, Status, end_done};
use zmeta_devices::files::{Folder, NamedFile, file_at};
use zmeta_devices::input::Input;
use zmeta_devices::output::Output;
use zmeta_devices::readable::Readable;

/// The octets of one read, and those from which on what was merged is written.
const PIECE: usize = 65_536;

/// Merges the saved files at these paths into one, which is made at the path `saved`. It holds all their facts.
///
/// If a file is refused, or has other names than those before it, each file is as it was, and the reason is written on
/// `errors`. Of each file a few elements are in memory at a time.
pub fn merge_named<'a, F: Folder, E: Write>(
    alloc: Global,
    files: &mut F,
    first: &'a str,
    others: &[&'a str],
    saved: &'a str,
    errors: &mut Output<'_, E>,
) -> Status
    ensures { AfterMerge (first.entry.now ∷ texts_of others.now) saved.entry.now
        (folder F.octets F.are_one F.steps files.old) (folder F.octets F.are_one F.steps files.new)
        (output_device E.contents errors.old) (output_device E.contents errors.new) result }
{
    let answer = merge_files(alloc, files, first, others, saved);
    end_done(answer, errors)
}

/// Merges the files, and makes the file at the path `saved`.
#[tactic(auto, using(crate::proofs::Savings::merged_file))]
fn merge_files<'a, F: Folder>(
    alloc: Global,
    files: &mut F,
    first: &'a str,
    others: &[&'a str],
    saved: &'a str,
) -> Result<(), Fault<'a>>
    ensures { MergeFilesResult (streams_at (F.octets files.old) (first.entry.now ∷ texts_of others.now)) saved.entry.now
        (folder F.octets F.are_one F.steps files.old) (folder F.octets F.are_one F.steps files.new) result }
{
    let draft = draft_of(alloc, files, first, others, saved)?;
    keep(files, saved, draft)
}

/// Returns a draft to which the files were merged.
#[tactic(auto, using(crate::proofs::Savings::of_drafts))]
fn draft_of<'a, F: Folder>(
    alloc: Global,
    files: &mut F,
    first: &'a str,
    others: &[&'a str],
    saved: &'a str,
) -> Result<F::Draft, Fault<'a>>
    ensures { DraftResult F.Draft.contents (streams_at (F.octets files.old) (first.entry.now ∷ texts_of others.now))
        saved.entry.now (folder F.octets F.are_one F.steps files.old) (folder F.octets F.are_one F.steps files.new)
        result }
{
    let mut draft = begin_draft(files, saved)?;
    let merged = merge_into(alloc, files, first, others, &mut draft, saved);
    match merged {
        Ok(()) => Ok(draft),
        Err(fault) => {
            files.discard(draft);
            Err(fault)
        }
    }
}

/// Merges the files, and writes the merged file to the draft.
fn merge_into<'a, F: Folder, W: Write>(
    alloc: Global,
    files: &F,
    first: &'a str,
    others: &[&'a str],
    draft: &mut W,
    saved: &'a str,
) -> Result<(), Fault<'a>>
    ensures { MergeResult (streams_at (F.octets files.now) (first.entry.now ∷ texts_of others.now)) saved.entry.now
        (W.contents draft.old) (W.contents draft.new) result }
{
    let mut streams = streams_of(alloc, files, first, others)?;
    merge_streams(alloc, streams.as_mut_slice(), draft, saved)
}

/// Returns the streams of the files, of which none is opened yet.
fn streams_of<'f, 'a, F: Folder>(
    alloc: Global,
    files: &'f F,
    first: &'a str,
    others: &[&'a str],
) -> Result<Vec<Input<'a, NamedFile<'f, 'a, F>>>, AllocError>
    ensures { IfOk result (λ streams. map (input_device (λ r. opened_left F.File.remaining
        (F.octets r.files.now r.path.now) r.file)) streams.items
        ≡ streams_at (F.octets files.now) (first.entry.now ∷ texts_of others.now)) }
{
    let mut streams = Vec::new(alloc);
    streams.push(file_at(files, first))?;
    for path in others {
        streams.push(file_at(files, *path))?;
    }
    Ok(streams)
}

/// Merges the saved files of these streams, and writes the merged file to the draft.
fn merge_streams<'a, R: Readable, W: Write>(
    alloc: Global,
    streams: &mut [Input<'a, R>],
    draft: &mut W,
    saved: &'a str,
) -> Result<(), Fault<'a>>
    requires { 0 < length streams.old }
    ensures { MergeResult (map (input_device R.remaining) streams.old) saved.entry.now
        (W.contents draft.old) (W.contents draft.new) result }
{
    let mut merging = Merging {
        merge: Merge::new(alloc, streams.len())?,
        piece: piece_of(alloc)?,
        merged: Vec::new(alloc),
        saved,
    };
    for _ in 0..u64::MAX {
        match merging.step(streams, draft) {
            Ok(true) => return Ok(()),
            Ok(false) => {}
            Err(fault) => return Err(fault),
        }
    }
    Err(Fault::Memory)
}

/// Returns a piece of `PIECE` octets.
pub(crate) fn piece_of(alloc: Global) -> Result<Vec<u8>, AllocError>
    ensures { IfOk result (λ piece. 0 < vec_len piece) }
{
    let mut piece = Vec::new(alloc);
    piece.resize(PIECE, 0)?;
    Ok(piece)
}

/// Returns the path of the stream with this number.
fn path_at<'a, R>(streams: &[Input<'a, R>], k: usize) -> &'a str
    requires { k < length streams.now }
    ensures { (d : Input R) → result ≡ (slice_index_or streams.now k d).path }
{
    streams[k].path
}

/// A merge of streams.
#[derive(Drop)]
struct Merging<'a> {
    merge: Merge,
    /// Where octets are read.
    piece: Vec<u8>,
    /// What was merged and is not written yet.
    merged: Vec<u8>,
    /// The path of the file that is made.
    saved: &'a str,
}

impl<'a> Merging<'a> {
    /// Goes one step on, and returns whether all is merged and written.
    fn step<R: Readable, W: Write>(
        &mut self,
        streams: &mut [Input<'a, R>],
        draft: &mut W,
    ) -> Result<bool, Fault<'a>>
        requires { HasBegun (map (input_device R.remaining) streams.old) (W.contents draft.old) self.old }
        ensures ok { IfOk result (λ done. (starts : List InputDevice) (begun : Option (List ℕ))
            → IsMerging starts (map (input_device R.remaining) streams.old) begun (W.contents draft.old) self.old
            → IsStepped starts (map (input_device R.remaining) streams.new) begun (W.contents draft.new) self.new
            done) }
        ensures err { IfErr result (λ f. (starts : List InputDevice) (begun : Option (List ℕ))
            → IsMerging starts (map (input_device R.remaining) streams.old) begun (W.contents draft.old) self.old
            → IsMergeFault starts self.old.saved.now f) }
        ensures saved { self.new.saved ≡ self.old.saved }
    {
        match self.advance()? {
            Step::Again => {
                if self.merged.len() >= PIECE {
                    self.write(draft)?;
                }
                Ok(false)
            }
            Step::Need(k) => match self.feed(streams, k) {
                Ok(()) => Ok(false),
                Err(fault) => Err(fault),
            },
            Step::Refused { input, fault } => Err(Fault::of_load(path_at(streams, input), fault)),
            Step::NamesDiffer { .. } => Err(Fault::NamesDiffer),
            Step::Done => {
                self.write(draft)?;
                Ok(true)
            }
        }
    }

    /// Goes one step on in the merge, and returns what it needs or how it ended.
    fn advance(&mut self) -> Result<Step, AllocError>
        ensures ok { IfOk result (λ step. (starts now : List InputDevice) (begun held : Option (List ℕ))
            → IsMerging starts now begun held self.old → IsDue starts now begun held self.new step) }
        ensures saved { self.new.saved ≡ self.old.saved }
    {
        self.merge.next(&mut self.merged)
    }

    /// Feeds the next piece of a stream to the merge, or its end.
    fn feed<R: Readable>(&mut self, streams: &mut [Input<'a, R>], k: usize) -> Result<(), Fault<'a>>
        requires among { k < length streams.old }
        requires room { 0 < vec_len self.old.piece }
        ensures ok { OnOk result ((starts : List InputDevice) (begun held : Option (List ℕ))
            → (m : IsMerging starts (map (input_device R.remaining) streams.old) begun held self.old)
            → (input_at m.inputs k).ended ≡ false
            → IsMerging starts (map (input_device R.remaining) streams.new) begun held self.new) }
        ensures err { IfErr result (λ f. (f ≡ Fault.Memory)
            ⊎ ((d : Input R) → (f ≡ Fault.Read (slice_index_or streams.old k d).path)
            × (R.remaining (slice_index_or streams.old k d).reader ≡ None))) }
        ensures saved { self.new.saved ≡ self.old.saved }
    {
        let count = streams[k].read_some(self.piece.as_mut_slice())?;
        if count == 0 {
            self.merge.end(k);
            return Ok(());
        }
        Ok(self.merge.feed(k, &self.piece[..count])?)
    }

    /// Writes what was merged to the draft.
    fn write<W: Write>(&mut self, draft: &mut W) -> Result<(), Fault<'a>>
        ensures ok { OnOk result ((starts now : List InputDevice) (begun : Option (List ℕ)) (step : Step)
            → IsDue starts now begun (W.contents draft.old) self.old step
            → IsDue starts now begun (W.contents draft.new) self.new step) }
        ensures all { OnOk result (self.new.merged.items ≡ []) }
        ensures err { IfErr result (λ f. f ≡ Fault.Write self.old.saved) }
        ensures saved { self.new.saved ≡ self.old.saved }
    {
        match draft.write_all(self.merged.as_slice()) {
            Ok(()) => {
                self.merged.clear();
                Ok(())
            }
            Err(_) => Err(Fault::Write(self.saved)),
        }
    }
}
