//! Files by their paths. A file opens at its first read, so a file that cannot be opened is a file that cannot be
//! read. A file is made of a draft, all at once. A log is written while things happen.
ghost use Rattle.std.specs.Prelude.{◌≡◌, ◌<◌, ◌≤◌, ℕ, List, length, take, Bool, Option, None, false, IfOk, IfSome, IfNone, OnErr};
ghost use Rattle.std.specs.Io.KnownBytes.{Consumes, IsAtEnd};
ghost use Rattle.zmeta_devices.specs.Files.{opened_left, left_from, FileStep, WasTaken, folder, IsDraft, DraftResult, KeepResult, LogResult, CloseResult};
ghost use Rattle.zmeta_devices.specs.Files.FileStep.{drafted, logged};

use crate::disk::{FileDraft, are_one_file, draft_at, keep_draft, log_at, remove_draft};
use crate::input::Input;
use crate::readable::Readable;
use std::fs::File;
use std::io::{Seek, SeekFrom, Write};
use std::{fs, io};

/// The files of a system, by their paths.
pub trait Folder {
    type File: Readable + Drop;

    /// What is written before a file is made of it, for contents that are larger than memory.
    type Draft: Write + Drop;

    /// What is written while things happen: the file is there meanwhile, and what was written to it.
    type Log: Write + Drop;

    /// The octets of the file at a path, if they are known. Then the file is there, and can be read.
    ghost octets: { Self → List ℕ → Option (List ℕ) } = { λ _ _. None };

    /// Whether two paths are those of one file, if that is known.
    ghost are_one: { Self → List ℕ → List ℕ → Option Bool } = { λ _ _ _. None };

    /// The drafts and logs that were begun, kept and ended, oldest first, if they are known.
    ghost steps: { Self → Option (List FileStep) } = { λ _. None };

    /// Opens the file at a path for reading, at its first octet.
    fn open(&self, path: &str) -> io::Result<Self::File>
        ensures ok { IfOk result (λ file. Self.File.remaining file ≡ octets self.now path.now) }
        ensures err { OnErr result (octets self.now path.now ≡ None) };

    /// Opens the file at a path for reading, behind this many of its octets; at its end if it has fewer. Fails if the
    /// file can only be read from its first octet on, as a pipe: what it has is not known then.
    fn open_at(&self, path: &str, offset: u64) -> io::Result<Self::File>
        ensures ok { IfOk result (λ file. Self.File.remaining file ≡ left_from offset (octets self.now path.now)) }
        ensures err { OnErr result (octets self.now path.now ≡ None) };

    /// Whether the file at a path may be read more than once, and from any octet on.
    fn is_seekable(&self, path: &str) -> bool;

    /// Whether two paths are those of one file: what is written at one would be read at the other.
    fn is_one_file(&self, one: &str, other: &str) -> bool
        ensures { IfSome (are_one self.now one.now other.now) (λ known. result ≡ known) };

    /// Begins a draft of a file at a path. Until it is kept, each file is as it was.
    fn draft(&mut self, path: &str) -> io::Result<Self::Draft>
        ensures empty { IfOk result (λ draft. IsDraft (steps self.new) (Self.Draft.contents draft)) }
        ensures begun { DraftResult (folder octets are_one steps self.old) (folder octets are_one steps self.new)
            path.now result };

    /// Makes a file at a path, of the draft that was begun there. A file that is there already is replaced. If that
    /// fails, each file is as it was.
    fn keep(&mut self, path: &str, draft: Self::Draft) -> io::Result<()>
        requires { WasTaken (steps self.old) (drafted path.now) }
        ensures { KeepResult (folder octets are_one steps self.old) (folder octets are_one steps self.new) path.now
            (Self.Draft.contents draft) result };

    /// Gives a draft up. Each file is as it was.
    fn discard(&self, draft: Self::Draft);

    /// Begins a log: a file at a path, which is empty, and takes what is written to the log at once. A file that is
    /// there already is emptied. If the program is broken off, a front of what was written stays.
    fn log(&mut self, path: &str) -> io::Result<Self::Log>
        ensures empty { IfOk result (λ log. IsDraft (steps self.new) (Self.Log.contents log)) }
        ensures begun { LogResult (folder octets are_one steps self.old) (folder octets are_one steps self.new)
            path.now result };

    /// Ends the log that was begun at a path: the file there holds all that was written to it. If that fails, it holds
    /// a front of that, or is lost.
    fn close(&mut self, path: &str, log: Self::Log) -> io::Result<()>
        requires { WasTaken (steps self.old) (logged path.now) }
        ensures { CloseResult (folder octets are_one steps self.old) (folder octets are_one steps self.new) path.now
            (Self.Log.contents log) result };
}

impl Folder for HostRuntime {
    type File = File;

    type Draft = FileDraft;

    type Log = File;

    fn open(&self, path: &str) -> io::Result<File> {
        File::open(self, path)
    }

    fn open_at(&self, path: &str, offset: u64) -> io::Result<File> {
        let mut file = File::open(self, path)?;
        file.seek(SeekFrom::Start(offset))?;
        Ok(file)
    }

    /// A regular file is, and nothing else.
    fn is_seekable(&self, path: &str) -> bool {
        match fs::metadata(self, path) {
            Ok(found) => found.is_file(),
            Err(_) => false,
        }
    }

    /// The device and the inode tell, or for a file that is to be made those of its folder, and its name. What is no
    /// regular file is no one's: what is written to it is not what is read from it.
    fn is_one_file(&self, one: &str, other: &str) -> bool {
        are_one_file(self, one, other)
    }

    /// The draft is a file beside the one to be made. What is no regular file, as a device or a pipe, is written in
    /// place.
    #[tactic(auto, using(crate::proofs::Filing::draft_unknown))]
    fn draft(&mut self, path: &str) -> io::Result<FileDraft> {
        draft_at(self, path)
    }

    /// A regular file is replaced once the new one is whole, and keeps its permissions.
    #[tactic(auto, using(crate::proofs::Filing::keep_unknown))]
    fn keep(&mut self, _path: &str, draft: FileDraft) -> io::Result<()> {
        keep_draft(self, draft)
    }

    fn discard(&self, draft: FileDraft) {
        remove_draft(self, draft);
    }

    /// A pipe that nobody reads is opened all the same. Each write to it fails.
    #[tactic(auto, using(crate::proofs::Filing::log_unknown))]
    fn log(&mut self, path: &str) -> io::Result<File> {
        log_at(self, path)
    }

    #[tactic(auto, using(crate::proofs::Filing::close_unknown))]
    fn close(&mut self, _path: &str, mut log: File) -> io::Result<()> {
        log.flush()
    }
}

/// A file that opens at its first read.
pub struct NamedFile<'f, 'a, F: Folder> {
    files: &'f F,
    path: &'a str,
    file: Option<F::File>,
}

impl<F: Folder> Drop for NamedFile<'_, '_, F> {
    fn drop(self) {
        let NamedFile {
            files: _,
            path: _,
            file: _,
        } = self;
    }
}

impl<F: Folder> Readable for NamedFile<'_, '_, F> {
    ghost remaining = { λ s. opened_left F.File.remaining (F.octets s.files.now s.path.now) s.file };

    fn fetch(&mut self, piece: &mut [u8]) -> Option<usize> {
        if self.file.is_none() {
            return self.open_and_fetch(piece);
        }
        match &mut self.file {
            Some(file) => file.fetch(piece),
            None => None,
        }
    }

    fn goes_on(&self, reads: u64) -> bool {
        match &self.file {
            Some(file) => file.goes_on(reads),
            None => true,
        }
    }
}

impl<F: Folder> NamedFile<'_, '_, F> {
    /// Opens the file, and reads its first octets into the front of a piece. `None` if that fails.
    fn open_and_fetch(&mut self, piece: &mut [u8]) -> Option<usize>
        requires { self.old.file ≡ None }
        ensures bound { IfSome result (λ count. count ≤ length piece.new) }
        ensures taken { IfSome result (λ count. Consumes (F.octets self.old.files.now self.old.path.now)
            (opened_left F.File.remaining (F.octets self.new.files.now self.new.path.now) self.new.file)
            (take count piece.new)) }
        ensures end { IfSome result (λ count. count ≡ 0 → 0 < length piece.old → IsAtEnd
            (opened_left F.File.remaining (F.octets self.new.files.now self.new.path.now) self.new.file)) }
        ensures failed { IfNone result (F.octets self.old.files.now self.old.path.now ≡ None) }
    {
        let Ok(mut file) = self.files.open(self.path) else {
            return None;
        };
        let count = file.fetch(piece);
        self.file = Some(file);
        count
    }
}

/// Returns the file at a path as an `Input`. It is not opened yet.
pub fn file_at<'f, 'a, F: Folder>(files: &'f F, path: &'a str) -> Input<'a, NamedFile<'f, 'a, F>>
    ensures path { result.path ≡ path.entry }
    ensures no_failure { result.has_failed ≡ false }
    ensures octets { opened_left F.File.remaining (F.octets result.reader.files.now result.reader.path.now)
        result.reader.file ≡ F.octets files.now path.now }
{
    let file = NamedFile {
        files,
        path,
        file: None,
    };
    Input::new(path, file)
}
