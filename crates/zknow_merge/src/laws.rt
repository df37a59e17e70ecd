//! Laws of the definitions. Each is the contract of a function that does nothing.
ghost use Rattle.zknow_merge.specs.Files.{FileLaws};
ghost use Rattle.zknow_merge.specs.Laws.{JoinLaws};
ghost use Rattle.zknow_merge.specs.Scans.{ScanLaws};

/// Files have one join at most. Neither the order of the files nor repetition matters, nor how they are grouped; the
/// join of one file is that file.
pub fn join_laws()
    ensures { JoinLaws }
{}

/// What the steps of a merge say of files that are fed to it in pieces, from their beginnings on.
pub fn file_laws()
    ensures { FileLaws }
{}

/// What a scan says of a file that is fed to it in pieces, from its beginning on.
pub fn scan_laws()
    ensures { ScanLaws }
{}
