// Saved files: one with each other value of each of its octets, and elements that are not saved.
use crate::facts::knowledge_of;
use bytes::Bytes;
use std::alloc::{AllocError, Global};
use std::process::Abort;
use std::test::Fail;
use zapdu_rows::boxes::box_value;
use zber::Seq;
use zber_rows::rows::octets;
use zber_rows::unread::Unread;
use zknow::{Knowledge, LoadError, Names, SaveError, load, save};

fn save_octets(alloc: Global, knowledge: &Knowledge, names: &Names) -> Result<Vec<u8>, Unread> {
    let mut out = Vec::new(alloc);
    match save(alloc, knowledge, names, &mut out) {
        Ok(()) => Ok(out),
        Err(_) => Err(Unread),
    }
}

// What a file says, or why it says nothing.
pub(crate) type Loaded = Result<(Knowledge, Names), LoadError>;

pub(crate) fn load_octets(alloc: Global, file: &[u8]) -> Result<Box<Loaded>, AllocError> {
    box_value(alloc, load(alloc, file))
}

// A file with two names and a fact of each kind.
const WHOLE: &str = "\
a406800161800162\
a00a80010081010182020104a009800100810102820104\
a106800101810100\
a21e8001008101018201013013a111a10f280d06072a8648ce13050a81027231\
a319800101810100820100300e06072a8648ce13040102010d1a00";

/// What came of files: those that are written as they were, those of each refusal, and the sum of their places.
#[derive(Clone, Copy, PartialEq)]
struct Tally {
    files: u32,
    not_knowledge: u32,
    not_canonical: u32,
    places: usize,
}

impl Tally {
    fn put_place(&mut self, at: usize) {
        self.places = self.places.saturating_add(at);
    }

    fn put_refusal(&mut self, error: &LoadError) -> Result<(), Unread> {
        match error {
            LoadError::NotKnowledge { at } => {
                self.not_knowledge = self.not_knowledge.saturating_add(1);
                self.put_place(*at);
                Ok(())
            }
            LoadError::NotCanonical { at } => {
                self.not_canonical = self.not_canonical.saturating_add(1);
                self.put_place(*at);
                Ok(())
            }
            LoadError::Memory => Err(Unread),
        }
    }

    fn put_file(&mut self, saved: &[u8], file: &[u8]) {
        if saved == file {
            self.files = self.files.saturating_add(1);
        }
    }

    fn put_loaded(&mut self, alloc: Global, loaded: &Loaded, file: &[u8]) -> Result<(), Unread> {
        match loaded {
            Ok((knowledge, names)) => {
                let Ok(saved) = save_octets(alloc, knowledge, names) else {
                    return Err(Unread);
                };
                self.put_file(saved.as_slice(), file);
                Ok(())
            }
            Err(error) => self.put_refusal(error),
        }
    }

    fn put(&mut self, alloc: Global, file: &[u8]) -> Result<(), Unread> {
        let Ok(loaded) = load_octets(alloc, file) else {
            return Err(Unread);
        };
        self.put_loaded(alloc, &loaded, file)
    }
}

/// The file with each other value of one octet.
fn put_others(alloc: Global, tally: &mut Tally, file: &[u8], at: usize) -> Result<(), Unread> {
    let Ok(mut changed) = file.to_vec(alloc) else {
        return Err(Unread);
    };
    for value in 0..=255_u8 {
        if let Some(octet) = changed.get_mut(at) {
            *octet = value;
        }
        if changed.as_slice() != file && tally.put(alloc, changed.as_slice()).is_err() {
            return Err(Unread);
        }
    }
    Ok(())
}

fn tally_of(alloc: Global, digits: &str) -> Result<Tally, Unread> {
    let Ok(file) = octets(alloc, digits) else {
        return Err(Unread);
    };
    let mut tally = Tally {
        files: 0,
        not_knowledge: 0,
        not_canonical: 0,
        places: 0,
    };
    for at in 0..file.len() {
        if put_others(alloc, &mut tally, file.as_slice(), at).is_err() {
            return Err(Unread);
        }
    }
    Ok(tally)
}

// The numbers are those of a reader of another kind, written in another language.
#[test]
fn each_changed_octet_is_told(rt: HostRuntime) -> Result<(), Fail> {
    let due = Tally {
        files: 6368,
        not_knowledge: 18363,
        not_canonical: 259,
        places: 58550,
    };
    assert!(rt; matches!(tally_of(rt.alloc(), WHOLE), Ok(tally) if tally == due));
    Ok(())
}

/// A record whose fragment has so many constructed elements within one another.
fn nested_row(alloc: Global, levels: usize) -> Result<String, AllocError> {
    let Ok(opens) = "3080".repeat(alloc, levels) else {
        return Err(AllocError);
    };
    let Ok(ends) = "0000".repeat(alloc, levels) else {
        return Err(AllocError);
    };
    format!(in alloc; "seen 0 1 1 3080a180a380{opens}{ends}000000000000")
}

/// What is appended to one octet for what is known, or why nothing is.
fn put_behind(alloc: Global, knowledge: &Knowledge) -> Result<usize, SaveError> {
    let names = Seq::from_vec(Vec::new(alloc));
    let Ok(mut out) = Vec::from_slice(alloc, &[7_u8]) else {
        return Err(SaveError::Memory);
    };
    match save(alloc, knowledge, &names, &mut out) {
        Ok(()) => Ok(out.len()),
        Err(error) => Err(error),
    }
}

fn save_levels(alloc: Global, levels: usize) -> Result<Result<usize, SaveError>, Unread> {
    let Ok(row) = nested_row(alloc, levels) else {
        return Err(Unread);
    };
    let Ok(knowledge) = knowledge_of(alloc, row.as_str()) else {
        return Err(Unread);
    };
    Ok(put_behind(alloc, &knowledge))
}

// The fact is one element more: 60 of them are 64 with it, the record and its parts.
#[test]
fn more_than_64_levels_are_not_saved(rt: HostRuntime) -> Result<(), Fail> {
    assert!(rt; matches!(save_levels(rt.alloc(), 60), Ok(Ok(len)) if len > 64));
    assert!(rt; matches!(save_levels(rt.alloc(), 61), Ok(Err(SaveError::TooDeep))));
    Ok(())
}

/// One name of so many octets.
fn one_name(alloc: Global, len: usize) -> Result<Names, AllocError> {
    let Ok(octets) = [b'n'].repeat(alloc, len) else {
        return Err(AllocError);
    };
    let Ok(name) = Bytes::from_vec(octets) else {
        return Err(AllocError);
    };
    match vec![in alloc; name] {
        Ok(names) => Ok(Seq::from_vec(names)),
        Err(_) => Err(AllocError),
    }
}

/// The octets appended to none for names alone.
fn save_names(alloc: Global, names: &Names) -> Result<Vec<u8>, SaveError> {
    let knowledge = Knowledge::new(alloc);
    let mut out = Vec::new(alloc);
    match save(alloc, &knowledge, names, &mut out) {
        Ok(()) => Ok(out),
        Err(error) => Err(error),
    }
}

fn is_longer(alloc: Global, len: usize) -> bool {
    let Ok(names) = one_name(alloc, len) else {
        return false;
    };
    matches!(save_names(alloc, &names), Err(SaveError::TooLong))
}

#[test]
fn an_element_of_4194305_octets_is_not_saved(rt: HostRuntime) -> Result<(), Fail> {
    assert!(rt; is_longer(rt.alloc(), 4_194_295));
    Ok(())
}
