//! The records of saved files that outgrow memory, by position: the passes behind the first.
ghost use Rattle.std.specs.Prelude.{◌≡◌, ◌<◌, ◌+◌, ◌-◌, ℕ, List, Option, length, map, string_bytes, IfOk, IfErr, IfSome, OnOk};
ghost use Rattle.zknow_runs.specs.Rows.{StandAt};
ghost use Rattle.zmeta_args.specs.Texts.{texts_of};
ghost use Rattle.zmeta_devices.specs.Devices.{output_device};
ghost use Rattle.zmeta_offline.specs.Rows.{path_at, IsReader, IsReadFault, EndsBefore, IsUnknownTo, IsNextFault, IsKept, HasRead, PutPieceResult};
ghost use Rattle.zmeta_offline.specs.Rows.{WriteRowsResult, MeasureRowsResult};

use std::alloc::{AllocError, Global};
use std::io::Write;
use zknow_forms::{Form, Tally};
use zknow_runs::laws::row_laws;
use zknow_runs::{Chosen, ReadStep, Rows, Run, Taking, Wanted};
use zmeta_devices::fault::Fault;
use zmeta_devices::files::Folder;
use zmeta_devices::input::Input;
use zmeta_devices::output::Output;

/// The most octets that are read for one record before its length is known, and those from which on octets are written.
const PIECE: usize = 65_536;

/// The fewest octets that are read for one record, unless its run has fewer.
const FEWEST: usize = 4_096;

/// The most octets of files that are kept between two reads.
const KEPT: usize = 4_194_304;

/// Octets of a file that were read and may be wanted again.
#[derive(Drop)]
struct Window {
    /// The number of the file.
    file: u32,
    /// How many octets of the file stand before these.
    begin: u64,
    octets: Vec<u8>,
}

/// Octets of files, some of each run that is read.
#[derive(Drop)]
struct Reader<'a, 'p> {
    alloc: Global,
    /// The paths of the files.
    paths: &'p [&'a str],
    /// The fewest octets read at once.
    piece: usize,
    /// The fewest octets that the next record has, as far as is known.
    least: usize,
    windows: Vec<Window>,
}

/// Returns how many octets are read at once, if there are so many runs.
fn piece_for(runs: usize) -> usize
    ensures { 0 < result }
{
    let share = KEPT / runs.max(1);
    share.max(FEWEST).min(PIECE)
}

/// Returns at least so many octets of the file at a path, behind an offset. `Read` if it has fewer there.
#[tactic(auto, using(crate::proofs::Filling::unread, crate::proofs::Filling::unread_behind, crate::proofs::Filling::read_short))]
fn octets_at<'a, F: Folder>(
    alloc: Global,
    files: &F,
    path: &'a str,
    offset: u64,
    wanted: usize,
) -> Result<Vec<u8>, Fault<'a>>
    ensures stand { IfOk result (λ v. StandAt (F.octets files.now path.entry.now) offset v.items) }
    ensures err { IfErr result (IsReadFault (EndsBefore (F.octets files.now path.entry.now) (offset + wanted))
        path.entry.now) }
{
    let Ok(file) = files.open_at(path, offset) else {
        return Err(Fault::Read(path));
    };
    let mut input = Input::new(path, file);
    let octets = input.read_front(alloc, wanted)?;
    if octets.len() < wanted {
        return Err(Fault::Read(path));
    }
    Ok(octets)
}

/// Returns the octets of a window from an offset in its file on, if it has some.
fn octets_of(window: &Window, file: u32, offset: u64) -> Option<&[u8]>
    ensures { IfSome result (λ octets. (known : Option (List ℕ))
        → StandAt known window.now.begin window.now.octets.items
        → (window.now.file ≡ file) × StandAt known offset octets.now) }
{
    if window.file != file || offset < window.begin {
        return None;
    }
    let passed = (offset - window.begin) as usize;
    if passed >= window.octets.len() {
        return None;
    }
    Some(&window.octets.as_slice()[passed..])
}

/// Returns how many octets are wanted at most.
fn most_of(wanted: Wanted) -> usize
    ensures { result ≡ wanted.end - wanted.begin }
{
    wanted.end.saturating_sub(wanted.begin) as usize
}

impl<'a, 'p> Reader<'a, 'p> {
    /// Returns a reader for so many runs of the files at these paths.
    fn new(alloc: Global, paths: &'p [&'a str], runs: usize) -> Result<Reader<'a, 'p>, AllocError>
        ensures { IfOk result (λ r. (octets : List ℕ → Option (List ℕ))
            → IsReader octets (texts_of paths.entry.now) r) }
    {
        let piece = piece_for(runs);
        let most = (KEPT / piece).min(runs);
        let mut windows = Vec::new(alloc);
        for _ in 0..most {
            windows.push(Window {
                file: 0,
                begin: 0,
                octets: Vec::new(alloc),
            })?;
        }
        Ok(Reader {
            alloc,
            paths,
            piece,
            least: 1,
            windows,
        })
    }

    /// Returns the path of a file, `None` if no file has the number.
    fn path(&self, file: u32) -> Option<&'a str>
        ensures { IfSome result (λ path. (file < length self.now.paths.now)
            × (path.now ≡ path_at (texts_of self.now.paths.now) file)) }
    {
        match self.paths.get(file as usize) {
            Some(path) => Some(*path),
            None => None,
        }
    }

    /// Returns which window a run has.
    fn slot(&self, number: usize) -> usize {
        number % self.windows.len().max(1)
    }

    /// Returns the octets that are kept where some are wanted, if there are as many as the next record has at least.
    fn kept(&self, wanted: Wanted) -> Option<&[u8]>
        ensures { IfSome result (λ octets. IsKept self.now wanted octets.now) }
    {
        let window = self.windows.get(self.slot(wanted.number))?;
        let octets = octets_of(window, wanted.file, wanted.begin)?;
        if octets.len() < self.least.min(most_of(wanted)) {
            return None;
        }
        Some(octets)
    }

    /// Reads octets where some are wanted: a piece at least, as many as the next record has at least, or all if there
    /// are fewer. `Read` if the file has fewer, or cannot be read.
    #[tactic(auto, using(crate::proofs::Filling::less_wanted))]
    fn fill<F: Folder>(&mut self, files: &F, path: &'a str, wanted: Wanted) -> Result<(), Fault<'a>>
        requires { path.now ≡ path_at (texts_of self.old.paths.now) wanted.file }
        ensures ok { OnOk result (IsReader (F.octets files.now) (texts_of self.old.paths.now) self.old
            → IsReader (F.octets files.now) (texts_of self.old.paths.now) self.new) }
        ensures err { IfErr result (IsReadFault (EndsBefore (F.octets files.now path.entry.now)
            (wanted.begin + (wanted.end - wanted.begin))) path.entry.now) }
    {
        let size = self.least.max(self.piece).min(most_of(wanted));
        let octets = octets_at(self.alloc, files, path, wanted.begin, size)?;
        let slot = self.slot(wanted.number);
        if slot < self.windows.len() {
            self.windows[slot] = Window {
                file: wanted.file,
                begin: wanted.begin,
                octets,
            };
        }
        Ok(())
    }

    /// Gives the octets that are kept where some are wanted to the machine. It takes a record, or more octets will be
    /// wanted there.
    ///
    /// `Read` with the path of the file if it is not as it was when its runs were found.
    fn give(&mut self, path: &'a str, wanted: Wanted, rows: &mut Rows) -> Result<(), Fault<'a>>
        ensures ok { OnOk result ((octets : List ℕ → Option (List ℕ)) (paths : List (List ℕ))
            → HasRead octets paths wanted self.old rows.old self.new rows.new) }
        ensures err { IfErr result (λ f. (octets : List ℕ → Option (List ℕ)) (paths : List (List ℕ))
            → IsReadFault (IsUnknownTo octets paths wanted self.old rows.old) path.entry.now f) }
    {
        // Some were read, if none were kept.
        let Some(octets) = self.kept(wanted) else {
            return Err(Fault::Memory);
        };
        let count = octets.len();
        match rows.read(octets)? {
            ReadStep::Taken => self.least = 1,
            ReadStep::Unfinished => {
                if count >= most_of(wanted) {
                    return Err(Fault::Read(path));
                }
                self.least = count.saturating_mul(2);
            }
            ReadStep::Changed => return Err(Fault::Read(path)),
        }
        Ok(())
    }

    /// Reads octets where the machine wants some, if none are kept, and gives them to it.
    ///
    /// `Read` with the path of the file if it cannot be read, or is not as it was when its runs were found. `Memory` if
    /// no memory is found, or no file has the number.
    fn read_next<F: Folder>(
        &mut self,
        files: &F,
        wanted: Wanted,
        rows: &mut Rows,
    ) -> Result<(), Fault<'a>>
        ensures ok { OnOk result (HasRead (F.octets files.now) (texts_of self.old.paths.now) wanted self.old rows.old
            self.new rows.new) }
        ensures err { IfErr result (IsNextFault (F.octets files.now) (texts_of self.old.paths.now) wanted self.old
            rows.old) }
    {
        let Some(path) = self.path(wanted.file) else {
            return Err(Fault::Memory);
        };
        if self.kept(wanted).is_none() {
            self.fill(files, path, wanted)?;
        }
        self.give(path, wanted, rows)
    }
}

/// Writes the octets that were not handed out, if they are as many as a piece. They are handed out, even if the stream
/// failed.
fn put_piece<'o, W: Write>(rows: &mut Rows, output: &mut Output<'o, W>) -> Result<(), Fault<'o>>
    ensures { PutPieceResult (output_device W.contents output.old) (output_device W.contents output.new) rows.old
        rows.new result }
{
    if rows.octets().len() < PIECE {
        return Ok(());
    }
    let written = output.put(rows.octets());
    rows.hand_out();
    written
}

/// Writes what stands before the records, and the text of the records of these runs of the files at these paths, by
/// position, target and set, in the form that is taken, but for the last octets: returns these, and what is told of the
/// records.
///
/// `Read` with the path of a file if it cannot be read, or is not as it was when its runs were found. `Memory` if no
/// memory is found. Both can come behind a front of the text.
pub(crate) fn write_rows<'a, 'o: 'a, F: Folder, W: Write>(
    alloc: Global,
    files: &F,
    paths: &[&'a str],
    runs: &[Run],
    taking: Taking<'_>,
    output: &mut Output<'o, W>,
) -> Result<(Vec<u8>, Tally), Fault<'a>>
    ensures { WriteRowsResult (F.octets files.now) (texts_of paths.now) runs.now taking.entry
        (output_device W.contents output.old) (output_device W.contents output.new) result }
{
    row_laws();
    let mut reader = Reader::new(alloc, paths, runs.len())?;
    let mut rows = Rows::new(alloc, taking, runs)?;
    for _ in 0..u64::MAX {
        let Some(wanted) = rows.wanted() else {
            return Ok(rows.finish()?);
        };
        reader.read_next(files, wanted, &mut rows)?;
        put_piece(&mut rows, output)?;
    }
    Err(Fault::Memory)
}

/// Reads the records of these runs of the files at these paths, and writes nothing. Returns what the view for readers
/// tells of them: the columns that its rows need, and at how many positions of each set a record is shown. `shown` has
/// the names as `show_names` returns them.
///
/// `Read` with the path of a file if it cannot be read, or is not as it was when its runs were found. `Memory` if no
/// memory is found.
pub(crate) fn measure_rows<'a, F: Folder>(
    alloc: Global,
    files: &F,
    paths: &[&'a str],
    runs: &[Run],
    chosen: &Chosen,
    shown: Vec<String>,
) -> Result<Tally, Fault<'a>>
    ensures { MeasureRowsResult (F.octets files.now) (texts_of paths.now) runs.now chosen.now
        (map string_bytes shown.items) result }
{
    let form = Form::Measures { shown };
    let taking = Taking {
        chosen,
        form: &form,
        head: Vec::new(alloc),
    };
    let mut reader = Reader::new(alloc, paths, runs.len())?;
    let mut rows = Rows::new(alloc, taking, runs)?;
    for _ in 0..u64::MAX {
        let Some(wanted) = rows.wanted() else {
            let (_, told) = rows.finish()?;
            return Ok(told);
        };
        reader.read_next(files, wanted, &mut rows)?;
    }
    Err(Fault::Memory)
}
