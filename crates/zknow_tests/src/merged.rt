// Files are merged as they are loaded, absorbed and saved: the same octets, or the same refusal of the same file. They
// are cut into pieces at every place, and into pieces of each of some sizes.
use bytes::Bytes;
use std::alloc::{AllocError, Global};
use std::process::Abort;
use std::test::Fail;
use zber::Seq;
use zknow::{Knowledge, LoadError, Names, load, save};
use zknow_merge::{Merge, Step};

/// Files, as hexadecimal digits: two names, and none; counts; failures; records and diagnostics; some of them have
/// facts in common. Then files with a fault: none, cut off, not canonical, out of order, twice, no fact.
const FILES: &[&str] = &[
    "a400",
    "a403800161",
    "a403800161a009800100810101820104",
    "a403800161a009800100810101820104a009800100810101820105",
    "a403800161a106800100810102",
    "a403800161a009800100810101820105a106800100810102",
    "a403800161a106800100810100a106800100810102a106800101810100",
    "a403800161a21e8001008101018201013013a111a10f280d06072a8648ce13050a81027231",
    "a403800161a21e8001008101018201013013a111a10f280d06072a8648ce13050a81027232\
    a319800101810100820100300e06072a8648ce13040102010d1a00",
    "a403800161a009800101810102820100a21e8001008101018201023013a111a10f280d06072a8648ce13050a81027231",
    "a406800161800162a009800100810101820104",
    "-",
    "a4",
    "a4048001",
    "a48100",
    "a009800100810101820104",
    "a403800161a009800100810101",
    "a403800161a00a80020000810101820104",
    "a403800161a009800100810101820105a009800100810101820104",
    "a403800161a106800100810102a106800100810102",
    "a403800161a106800100810102a403800161",
];

/// Files of records in an EXTERNAL: with a name, another syntax, a position of two or three octets, no octets, more
/// than 127, numbers of 32 bits. Then files with a fault: positions out of range and out of order, octets that are not
/// the fewest, elements behind a record, a syntax that is none, octets in segments.
const RECORDS: &[&str] = &[
    "a403800161a222800100810101820101301780026462a111a10f280d06072a8648ce13050a81027231\
    a21f80010081010182017f3014a112a110280e06082a8648ce13056d0a81027232\
    a21f800100810101820200803013a111a10f280d06072a8648ce13050a81027233",
    "a403800161a21c8001008101018201013011a10fa10d280b06072a8648ce13050a8100\
    a222800100810101820101301780026462a111a10f280d06072a8648ce13050a81027231",
    "a403800161a281a3800100810101820101308197a18194a1819128818e06072a8648ce13050a818182\
    6d6d6d6d6d6d6d6d6d6d6d6d6d6d6d6d6d6d6d6d6d6d6d6d6d6d6d6d6d6d6d6d6d6d6d6d6d6d6d6d6d6d6d6d6d6d6d6d6d6d\
    6d6d6d6d6d6d6d6d6d6d6d6d6d6d6d6d6d6d6d6d6d6d6d6d6d6d6d6d6d6d6d6d6d6d6d6d6d6d6d6d6d6d6d6d6d6d6d6d6d6d\
    6d6d6d6d6d6d6d6d6d6d6d6d6d6d6d6d6d6d6d6d6d6d6d6d6d6d6d6d6d6d",
    "a403800161a22180010081010182030100003014a112a110280e06082a8648ce1305ff7f81027234\
    a220800500ffffffff810101820400800000300ea10ca10a28080602280381027235",
    "a403800161a21e8001008101018201003013a111a10f280d06072a8648ce13050a81027231",
    "a403800161a21e8001008101018201ff3013a111a10f280d06072a8648ce13050a81027231",
    "a403800161a21f800100810101820200013013a111a10f280d06072a8648ce13050a81027231",
    "a403800161a2811e8001008101018201013013a111a10f280d06072a8648ce13050a81027231",
    "a403800161a2208001008101018201013013a111a10f280d06072a8648ce13050a810272310500",
    "a403800161a2208001008101018201013015a113a111280d06072a8648ce13050a810272310500",
    "a403800161a21e8001008101018201013013a111a10f280d06072a8648ce13058081027231",
    "a403800161a2208001008101018201013015a113a111280f06072a8648ce13050aa10404027231",
    "a403800161a21e8001008101018201023013a111a10f280d06072a8648ce13050a81027231\
    a21e8001008101018201013013a111a10f280d06072a8648ce13050a81027232",
];

/// How many of these files are sound: the first ones.
const SOUND: usize = 4;

/// The octets of a row.
fn octets(alloc: Global, digits: &str) -> Result<Vec<u8>, AllocError> {
    if digits == "-" {
        return Ok(Vec::new(alloc));
    }
    match hex::decode(alloc, digits) {
        Ok(octets) => Ok(octets),
        Err(_) => Err(AllocError),
    }
}

/// How a merge ended, and what it handed out; nothing, if a file is refused.
#[derive(Drop)]
struct Ending {
    step: Step,
    octets: Vec<u8>,
}

fn is_same(mine: &Ending, theirs: &Ending) -> bool {
    mine.step == theirs.step && mine.octets.as_slice() == theirs.octets.as_slice()
}

fn refused(alloc: Global, step: Step) -> Ending {
    Ending {
        step,
        octets: Vec::new(alloc),
    }
}

/// The names in a file; none, if it is at fault.
fn names_in(alloc: Global, file: &[u8]) -> Names {
    match load(alloc, file) {
        Ok((_, names)) => names,
        Err(_) => Seq::from_vec(Vec::new(alloc)),
    }
}

fn are_same(mine: &[Bytes], theirs: &[Bytes]) -> bool {
    mine == theirs
}

/// Adds what a file says. Returns the step that refuses the file, if it is at fault or has other names.
fn absorb(
    alloc: Global,
    known: &mut Knowledge,
    names: &Names,
    input: usize,
    file: &[u8],
) -> Result<Option<Step>, AllocError> {
    match load(alloc, file) {
        Err(LoadError::Memory) => Err(AllocError),
        Err(fault) => Ok(Some(Step::Refused { input, fault })),
        Ok((more, others)) => {
            if !are_same(names.as_slice(), others.as_slice()) {
                return Ok(Some(Step::NamesDiffer { input }));
            }
            known.absorb(&more)?;
            Ok(None)
        }
    }
}

/// The ending that `load`, `absorb` and `save` give.
fn loaded(alloc: Global, files: &[&[u8]]) -> Result<Ending, AllocError> {
    let names = names_in(alloc, files.first().copied().unwrap_or(&[]));
    let mut known = Knowledge::new(alloc);
    for (input, file) in files.iter().enumerate() {
        if let Some(step) = absorb(alloc, &mut known, &names, input, file)? {
            return Ok(refused(alloc, step));
        }
    }
    let mut octets = Vec::new(alloc);
    match save(alloc, &known, &names, &mut octets) {
        Ok(()) => Ok(Ending {
            step: Step::Done,
            octets,
        }),
        Err(_) => Err(AllocError),
    }
}

/// How files are cut into pieces: a piece of each comes before any is asked for, then pieces of one size.
#[derive(Clone, Copy)]
struct Cuts {
    first: usize,
    size: usize,
}

/// Feeds a piece of a file, once more if memory was refused. Returns what is left of the file.
fn feed<'a>(
    merge: &mut Merge,
    input: usize,
    file: &'a [u8],
    size: usize,
) -> Result<&'a [u8], AllocError> {
    let (piece, rest) = file.split_at(size.min(file.len()));
    if merge.feed(input, piece).is_err() {
        merge.feed(input, piece)?;
    }
    Ok(rest)
}

/// Goes one step on; tries once more if memory was refused.
fn next_step(merge: &mut Merge, out: &mut Vec<u8>) -> Result<Step, AllocError> {
    match merge.next(out) {
        Ok(step) => Ok(step),
        Err(_) => merge.next(out),
    }
}

/// Feeds the next piece of a file, or tells that it has ended.
fn go_on(
    merge: &mut Merge,
    input: usize,
    rests: &mut [&[u8]],
    size: usize,
) -> Result<(), AllocError> {
    let Some(rest) = rests.get_mut(input) else {
        return Err(AllocError);
    };
    if rest.is_empty() {
        merge.end(input);
    } else {
        *rest = feed(merge, input, *rest, size)?;
    }
    Ok(())
}

/// The ending of a merge of files that are cut into pieces.
fn merged(alloc: Global, files: &[&[u8]], cuts: Cuts) -> Result<Ending, AllocError> {
    if files.is_empty() {
        return Err(AllocError);
    }
    let mut merge = Merge::new(alloc, files.len())?;
    let mut rests = Vec::new(alloc);
    for (input, file) in files.iter().enumerate() {
        rests.push(feed(&mut merge, input, file, cuts.first)?)?;
    }
    let mut octets = Vec::new(alloc);
    for _ in 0..1_000_000 {
        match next_step(&mut merge, &mut octets)? {
            Step::Again => {}
            Step::Need(input) => go_on(&mut merge, input, rests.as_mut_slice(), cuts.size)?,
            Step::Done => {
                return Ok(Ending {
                    step: Step::Done,
                    octets,
                });
            }
            step => return Ok(refused(alloc, step)),
        }
    }
    Err(AllocError)
}

/// Whether the merge of files ends so, however they are cut.
fn ends_so(alloc: Global, files: &[&[u8]], cuts: Cuts, due: &Ending) -> bool {
    match merged(alloc, files, cuts) {
        Ok(ending) => is_same(&ending, due),
        Err(_) => false,
    }
}

/// Whether the merge of files ends so for each size of pieces.
fn ends_so_in_pieces(alloc: Global, files: &[&[u8]], due: &Ending) -> bool {
    for size in [1, 2, 3, 7, 64] {
        if !ends_so(alloc, files, Cuts { first: 0, size }, due) {
            return false;
        }
    }
    true
}

/// The octets of the longest file.
fn longest(files: &[&[u8]]) -> usize {
    let mut len = 0;
    for file in files {
        len = file.len().max(len);
    }
    len
}

/// Whether the merge of files ends so, at whatever place they are cut in two.
fn ends_so_in_two(alloc: Global, files: &[&[u8]], due: &Ending) -> bool {
    for first in 0..=longest(files) {
        let cuts = Cuts {
            first,
            size: usize::MAX,
        };
        if !ends_so(alloc, files, cuts, due) {
            return false;
        }
    }
    true
}

/// Whether the merge of files ends as loading them does, however they are cut.
fn is_alike(alloc: Global, files: &[&[u8]]) -> bool {
    match loaded(alloc, files) {
        Ok(due) => ends_so_in_pieces(alloc, files, &due) && ends_so_in_two(alloc, files, &due),
        Err(_) => false,
    }
}

/// The files of a table.
fn files_in(alloc: Global, rows: &[&str]) -> Result<Vec<Vec<u8>>, AllocError> {
    let mut files = Vec::new(alloc);
    for row in rows {
        files.push(octets(alloc, row)?)?;
    }
    Ok(files)
}

fn files_of(alloc: Global) -> Result<Vec<Vec<u8>>, AllocError> {
    files_in(alloc, FILES)
}

#[test]
fn each_file_alone_is_merged_as_it_is_loaded(rt: HostRuntime) -> Result<(), Fail> {
    for file in &files_of(rt.alloc())? {
        assert!(rt; is_alike(rt.alloc(), &[file.as_slice()]));
    }
    Ok(())
}

#[test]
fn each_two_files_are_merged_as_they_are_loaded(rt: HostRuntime) -> Result<(), Fail> {
    let files = files_of(rt.alloc())?;
    for first in &files {
        for second in &files {
            assert!(rt; is_alike(rt.alloc(), &[first.as_slice(), second.as_slice()]));
        }
    }
    Ok(())
}

/// Whether loading a file succeeds.
fn is_sound(alloc: Global, file: &[u8]) -> bool {
    load(alloc, file).is_ok()
}

#[test]
fn each_two_files_of_records_are_merged_as_they_are_loaded(rt: HostRuntime) -> Result<(), Fail> {
    let files = files_in(rt.alloc(), RECORDS)?;
    for (k, first) in files.iter().enumerate() {
        assert!(rt; is_sound(rt.alloc(), first.as_slice()) == (k < SOUND));
        assert!(rt; is_alike(rt.alloc(), &[first.as_slice()]));
        for second in &files {
            assert!(rt; is_alike(rt.alloc(), &[first.as_slice(), second.as_slice()]));
        }
    }
    Ok(())
}

/// Whether the merges of these two files and each other end as loading the three does.
fn are_alike_with(alloc: Global, first: &[u8], second: &[u8], files: &[Vec<u8>]) -> bool {
    for third in files {
        if !is_alike_at(alloc, &[first, second, third.as_slice()], 5) {
            return false;
        }
    }
    true
}

#[test]
fn each_three_files_are_merged_as_they_are_loaded(rt: HostRuntime) -> Result<(), Fail> {
    let files = files_of(rt.alloc())?;
    for first in &files {
        for second in &files {
            assert!(rt; are_alike_with(rt.alloc(), first, second, &files));
        }
    }
    Ok(())
}

/// Whether the merge of files ends as loading them does, if they are cut into pieces of this size.
fn is_alike_at(alloc: Global, files: &[&[u8]], size: usize) -> bool {
    match loaded(alloc, files) {
        Ok(due) => ends_so(alloc, files, Cuts { first: 0, size }, &due),
        Err(_) => false,
    }
}

/// Whether a file and each front of it are merged as they are loaded.
fn are_fronts_alike(alloc: Global, file: &[u8]) -> bool {
    for at in 0..file.len() {
        let (front, _) = file.split_at(at);
        if !is_alike_at(alloc, &[file, front], 5) || !is_alike_at(alloc, &[front, file], 1) {
            return false;
        }
    }
    true
}

#[test]
fn files_that_are_cut_off_are_merged_as_they_are_loaded(rt: HostRuntime) -> Result<(), Fail> {
    for file in &files_of(rt.alloc())? {
        assert!(rt; are_fronts_alike(rt.alloc(), file));
    }
    Ok(())
}

#[test]
fn all_sound_files_with_a_name_are_merged_at_once(rt: HostRuntime) -> Result<(), Fail> {
    let files = files_of(rt.alloc())?;
    let mut sound = Vec::new(rt.alloc());
    for file in files.iter().skip(1).take(9) {
        sound.push(file.as_slice())?;
    }
    assert!(rt; is_alike(rt.alloc(), sound.as_slice()));
    assert!(rt; matches!(loaded(rt.alloc(), sound.as_slice()), Ok(due) if due.step == Step::Done));
    Ok(())
}
