//! Files on the system's disk: drafts and logs, and what is at a path. No contract tells what a disk does.

use std::alloc::{AllocError, Global};
use std::fs::{File, Metadata, OpenOptions};
use std::io::{ErrorKind, Write};
use std::os::unix::fs::{FileTypeExt, MetadataExt};
use std::{fs, io, process};

/// The most links that are followed from one path, and the most names that are tried for one draft.
const MOST: u32 = 100;

/// A draft on the system's disk.
#[derive(Drop)]
pub struct FileDraft {
    file: File,
    /// Where it is written beside the file to be made. `None` if what is at the path is written.
    beside: Option<Beside>,
}

/// The paths of a file that is written beside another.
#[derive(Drop)]
struct Beside {
    /// The path of the file that is written.
    path: String,
    /// The path that it gets. No link is there.
    target: String,
}

impl Write for FileDraft {
    fn write(&mut self, buf: &[u8]) -> io::Result<usize> {
        self.file.write(buf)
    }

    fn flush(&mut self) -> io::Result<()> {
        self.file.flush()
    }
}

/// Begins a draft of the file at a path: in a new file beside it, if a regular file is there, or nothing. A link is
/// followed to the file that it names. What is no regular file is opened, and written as it is.
pub(crate) fn draft_at(files: &HostRuntime, path: &str) -> io::Result<FileDraft> {
    match replaceable(files, path)? {
        Some(target) => draft_beside(files, target),
        None => Ok(FileDraft {
            file: File::create(files, path)?,
            beside: None,
        }),
    }
}

/// Brings a draft to the disk, and gives it the path of the file to be made. If that fails, removes it.
pub(crate) fn keep_draft(files: &HostRuntime, draft: FileDraft) -> io::Result<()> {
    let FileDraft { mut file, beside } = draft;
    let Some(beside) = beside else {
        return file.flush();
    };
    let moved = file.sync_all().and_then(|_| fs::rename(
        files,
        beside.path.as_str(),
        beside.target.as_str(),
    ));
    match moved {
        Ok(()) => sync_folder(files, beside.target.as_str()),
        Err(_) => {
            let _ = fs::remove_file(files, beside.path.as_str());
        }
    }
    moved
}

/// Removes the file of a draft, if it is one beside another.
pub(crate) fn remove_draft(files: &HostRuntime, draft: FileDraft) {
    if let Some(beside) = &draft.beside {
        let _ = fs::remove_file(files, beside.path.as_str());
    }
}

/// Begins a log at a path. It does not wait for a reader of a pipe.
pub(crate) fn log_at(files: &HostRuntime, path: &str) -> io::Result<File> {
    match fs::metadata(files, path) {
        Ok(found) if found.file_type().is_fifo() => {
            // While this one is open, the pipe has a reader, and so the next call does not wait for one.
            let _both = OpenOptions::new().read(true).write(true).open(files, path)?;
            OpenOptions::new().write(true).open(files, path)
        }
        _ => File::create(files, path),
    }
}

/// Whether two paths are those of one regular file, or would be if files were made there.
pub(crate) fn are_one_file(files: &HostRuntime, one: &str, other: &str) -> bool {
    match (fs::metadata(files, one), fs::metadata(files, other)) {
        (Ok(one), Ok(other)) => one.is_file() && is_same(&one, &other),
        (Err(_), Err(_)) => would_be_one(files, one, other),
        _ => false,
    }
}

/// Whether both are of one file.
fn is_same(one: &Metadata, other: &Metadata) -> bool {
    one.dev() == other.dev() && one.ino() == other.ino()
}

/// Whether files that were made at two paths would be one.
fn would_be_one(files: &HostRuntime, one: &str, other: &str) -> bool {
    let (Ok(one), Ok(other)) = (followed(files, one), followed(files, other)) else {
        return false;
    };
    let (folder, name) = split(one.as_str());
    let (other_folder, other_name) = split(other.as_str());
    if name != other_name {
        return false;
    }
    match (
        fs::metadata(files, folder),
        fs::metadata(files, other_folder),
    ) {
        (Ok(folder), Ok(other_folder)) => is_same(&folder, &other_folder),
        _ => false,
    }
}

/// Returns the path of the regular file at a path, or of the one that would be made there, without links. `None` if
/// something else is there, or an open file of some process.
fn replaceable(files: &HostRuntime, path: &str) -> io::Result<Option<String>> {
    match fs::metadata(files, path) {
        Ok(found) if !found.is_file() => return Ok(None),
        Err(error) if error.kind() != ErrorKind::NotFound => return Err(error),
        _ => {}
    }
    let target = followed(files, path)?;
    if target.as_str().starts_with("/proc/") {
        return Ok(None);
    }
    Ok(Some(target))
}

/// Returns the path to which the links at a path lead. Those below `/proc` are not followed: they are open files.
fn followed(files: &HostRuntime, path: &str) -> io::Result<String> {
    let mut at = copied(files.alloc(), path)?;
    for _ in 0..MOST {
        if at.as_str().starts_with("/proc/") || !is_link(files, at.as_str()) {
            return Ok(at);
        }
        at = linked(files, at.as_str())?;
    }
    Err(io::Error::from(ErrorKind::InvalidInput))
}

/// Whether a link is at the path.
fn is_link(files: &HostRuntime, path: &str) -> bool {
    match fs::symlink_metadata(files, path) {
        Ok(found) => found.is_symlink(),
        Err(_) => false,
    }
}

/// Returns the path that the link at a path names.
fn linked(files: &HostRuntime, path: &str) -> io::Result<String> {
    let link = fs::read_link(files, path)?;
    let text = link.as_path().as_str();
    if text.starts_with('/') {
        return Ok(copied(files.alloc(), text)?);
    }
    let (folder, _) = split(path);
    Ok(joined(files.alloc(), folder, text)?)
}

/// Returns the folder and the name of a path.
fn split(path: &str) -> (&str, &str) {
    match path.rsplit_once('/') {
        Some(("", name)) => ("/", name),
        Some((folder, name)) => (folder, name),
        None => (".", path),
    }
}

fn copied(alloc: Global, text: &str) -> Result<String, AllocError> {
    String::from_str(alloc, text)
}

/// Returns the path of a name in a folder.
fn joined(alloc: Global, folder: &str, name: &str) -> Result<String, AllocError> {
    let mut path = String::from_str(alloc, folder)?;
    path.push_str("/")?;
    path.push_str(name)?;
    Ok(path)
}

/// Begins a draft in a new file beside the target, under a name that nobody has. It gets the permissions of an older
/// file there.
fn draft_beside(files: &HostRuntime, target: String) -> io::Result<FileDraft> {
    let (path, file) = new_beside(files, target.as_str())?;
    if let Ok(older) = fs::metadata(files, target.as_str()) {
        if let Err(error) = file.set_permissions(older.permissions()) {
            let _ = fs::remove_file(files, path.as_str());
            return Err(error);
        }
    }
    Ok(FileDraft {
        file,
        beside: Some(Beside { path, target }),
    })
}

/// Makes a new file in the folder of a path.
fn new_beside(files: &HostRuntime, path: &str) -> io::Result<(String, File)> {
    let (folder, _) = split(path);
    for number in 0..MOST {
        let beside = name_beside(files, folder, number)?;
        match File::create_new(files, beside.as_str()) {
            Ok(file) => return Ok((beside, file)),
            Err(error) if error.kind() == ErrorKind::AlreadyExists => {}
            Err(error) => return Err(error),
        }
    }
    Err(io::Error::from(ErrorKind::AlreadyExists))
}

/// Returns the path of a draft in a folder: its name has the number of this process, and one more.
fn name_beside(files: &HostRuntime, folder: &str, number: u32) -> Result<String, AllocError> {
    let id = process::id(files.process());
    let name = format!(in files.alloc(); "zmeta-{id}-{number}.part")?;
    joined(files.alloc(), folder, name.as_str())
}

/// Brings the folder of a path to the disk, where the system can do so.
fn sync_folder(files: &HostRuntime, path: &str) {
    let (folder, _) = split(path);
    if let Ok(folder) = File::open(files, folder) {
        // The file is in place, and some folders cannot be synced.
        let _ = folder.sync_all();
    }
}
