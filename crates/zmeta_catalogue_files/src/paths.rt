//! The paths of files: which are those of files of catalogues, and the octets there.

ghost use Rattle.std.specs.Prelude.{◌≡◌, IfOk, IfErr};
ghost use Rattle.zmeta_catalogue_files.specs.Paths.{is_catalogue_path, AreOctetsOf, IsReadFault};

use std::alloc::Global;
use zmeta_devices::fault::Fault;
use zmeta_devices::files::{Folder, file_at};

/// Returns whether the file at a path is a file of catalogues: whether the path ends with `.toml`. Any other file that
/// is asked is a world file.
pub fn is_catalogue_file(path: &str) -> bool
    ensures { result ≡ is_catalogue_path path.now }
{
    path.as_bytes().ends_with(b".toml")
}

/// Reads the octets of the file at a path.
pub(crate) fn octets_at<'a, F: Folder>(
    alloc: Global,
    files: &F,
    path: &'a str,
) -> Result<Vec<u8>, Fault<'a>>
    ensures octets { IfOk result (λ octets. AreOctetsOf (F.octets files.now path.entry.now) octets.items) }
    ensures fault { IfErr result (IsReadFault path.entry.now) }
{
    let octets = file_at(files, path).read_all(alloc)?;
    Ok(octets)
}
