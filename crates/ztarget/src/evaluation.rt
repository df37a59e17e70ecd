//! What a criterion finds among the entries of a database. The list of a phrase is made once, however often the phrase
//! occurs in the criterion.
ghost use Rattle.std.specs.Prelude.{◌≡◌, IfOk, IfSome};
ghost use Rattle.ztarget.specs.Asking.{is_satisfied};
ghost use Rattle.ztarget.specs.Evaluating.{has_sought};
ghost use Rattle.ztarget.specs.Indexing.{IsIndexOf};
ghost use Rattle.ztarget.specs.Narrowing.{IsNarrowed, IsNeeded};
ghost use Rattle.ztarget.specs.Searching.{places_from};
ghost use Rattle.ztarget.specs.TargetStates.{criterion_meaning};

use crate::common_places::{are_few, in_both};
use crate::criterion::Criterion;
use crate::database::Entry;
use crate::index::Index;
use crate::merging::{IN_EITHER, IN_FIRST_ALONE, merged};
use crate::narrowed::narrowed_places;
use crate::needed_words::{Needed, needed_by, rarer};
use crate::phrase::with_phrase;
use crate::shared_places::SharedPlaces;
use crate::word::Word;
use std::alloc::{AllocError, Global};
use std::collections::BTreeMap;
use std::marker::Model;

/// A phrase to look for: words, one after the other, in a field of the Use. With truncation the last may be the
/// beginning of a word.
#[derive(Clone, Copy, PartialEq, Eq, PartialOrd, Ord)]
pub(crate) struct Sought<'a> {
    pub(crate) used: i64,
    pub(crate) truncated: bool,
    pub(crate) asked: &'a [Word],
}

/// The lists of the phrases that were looked up, with the database's index. Contracts see the entries of the database.
#[derive(Drop)]
pub(crate) struct Evaluation<'a> {
    alloc: Global,
    index: &'a Index,
    entries: &'a [Entry],
    lists: BTreeMap<Sought<'a>, SharedPlaces, Global>,
}

impl<'a> Model for Evaluation<'a> {
    ghost use Rattle.std.specs.Prelude.{List};
    ghost use Rattle.ztarget.specs.declared.database.Entry.{Entry};
    ghost use Rattle.ztarget.specs.Evaluating.{AreLists};
    ghost use Rattle.ztarget.specs.Indexing.{IsIndexOf};

    ghost Value = { List Entry };

    ghost view = { λ e. e.entries.now };

    ghost invariant = { λ e. IsIndexOf e.entries.now e.index.now × AreLists e.entries.now e.lists.entries };
}

impl<'a> Evaluation<'a> {
    /// Creates an evaluation that has no list yet.
    pub(crate) fn new(alloc: Global, index: &'a Index, entries: &'a [Entry]) -> Evaluation<'a>
        requires { IsIndexOf entries.now index.now }
        ensures { result ≡ entries.now }
    {
        Evaluation {
            alloc,
            index,
            entries,
            lists: BTreeMap::new(alloc),
        }
    }

    /// Returns the places of the entries that have the phrase, in order.
    fn list(&mut self, sought: Sought<'a>) -> Result<SharedPlaces, AllocError>
        ensures same { self.new ≡ self.old }
        ensures places { IfOk result (λ list. list ≡ places_from (has_sought sought.entry) 0 self.old) }
    {
        if let Some(list) = self.lists.get(&sought) {
            return list.again();
        }
        let found = with_phrase(
            self.alloc,
            self.index,
            self.entries,
            sought.used,
            sought.truncated,
            sought.asked,
        )?;
        let list = SharedPlaces::new(self.alloc, found)?;
        let copy = list.again()?;
        self.lists.insert(sought, copy)?;
        Ok(list)
    }

    /// Returns the rarest word without which no entry satisfies the criterion, if one is known without a search.
    #[tactic(auto, using(crate::proofs::Needs::needed_for_both, crate::proofs::Needs::needed_for_without))]
    fn rarest(&self, criterion: &'a Criterion) -> Option<Needed<'a>>
        ensures { IfSome result (IsNeeded (is_satisfied (criterion_meaning criterion.now))) }
    {
        match criterion {
            Criterion::Phrase {
                used,
                truncated,
                asked,
            } => needed_by(self.index, *used, *truncated, asked.as_slice()),
            Criterion::And(left, right) => rarer(self.rarest(left), self.rarest(right)),
            Criterion::Not(left, _) => self.rarest(left),
            Criterion::Never | Criterion::Or(..) => None,
        }
    }

    /// Returns the same, but `None` if `may_need` is false, or if the word's places are not few beside the entries.
    /// Then a walk over all of them costs no more.
    fn need_of(&self, criterion: &'a Criterion, may_need: bool) -> Option<Needed<'a>>
        ensures { IfSome result (IsNeeded (is_satisfied (criterion_meaning criterion.now))) }
    {
        if !may_need {
            return None;
        }
        match self.rarest(criterion) {
            Some(needed) if are_few(needed.places, self.entries.len()) => Some(needed),
            _ => None,
        }
    }

    /// Returns those of the places whose entries have the phrase as well, in order.
    fn narrowed_places(&mut self, sought: Sought<'a>, among: &[u32]) -> Result<Vec<u32>, AllocError>
        ensures same { self.new ≡ self.old }
        ensures narrowed { IfOk result (λ found. IsNarrowed (has_sought sought.entry) self.old among.now found.items) }
    {
        match sought.asked {
            [word] if !sought.truncated && are_few(among.len(), self.index.places(word).len()) => {
                let places = self.index.places(word);
                narrowed_places(self.alloc, sought.used, self.entries, places, among)
            }
            _ => {
                let alloc = self.alloc;
                let list = self.list(sought)?;
                in_both(alloc, among, list.as_slice())
            }
        }
    }

    /// Returns those of the places whose entries satisfy the criterion as well, in order.
    #[tactic(auto, using(crate::proofs::Needs::kept_by_both))]
    fn narrow(&mut self, criterion: &'a Criterion, among: &[u32]) -> Result<Vec<u32>, AllocError>
        ensures same { self.new ≡ self.old }
        ensures narrowed { IfOk result (λ found. IsNarrowed
            (is_satisfied (criterion_meaning criterion.now)) self.old among.now found.items) }
    {
        let alloc = self.alloc;
        match criterion {
            Criterion::Phrase {
                used,
                truncated,
                asked,
            } => {
                let sought = Sought {
                    used: *used,
                    truncated: *truncated,
                    asked: asked.as_slice(),
                };
                self.narrowed_places(sought, among)
            }
            Criterion::Never => Ok(Vec::new(alloc)),
            Criterion::And(left, right) => {
                let kept = self.narrow(left, among)?;
                self.narrow(right, &kept)
            }
            Criterion::Or(left, right) => {
                let left = self.narrow(left, among)?;
                let right = self.narrow(right, among)?;
                merged(alloc, IN_EITHER, &left, &right)
            }
            Criterion::Not(left, right) => {
                let kept = self.narrow(left, among)?;
                let dropped = self.narrow(right, &kept)?;
                merged(alloc, IN_FIRST_ALONE, &kept, &dropped)
            }
        }
    }

    /// Returns the places of the entries that satisfy the criterion, in order. It looks among those of a word that
    /// each of them has.
    fn found_among(
        &mut self,
        needed: Needed<'a>,
        criterion: &'a Criterion,
    ) -> Result<Vec<u32>, AllocError>
        requires { IsNeeded (is_satisfied (criterion_meaning criterion.now)) needed }
        ensures same { self.new ≡ self.old }
        ensures places { IfOk result (λ places. places.items
            ≡ places_from (is_satisfied (criterion_meaning criterion.now)) 0 self.old) }
    {
        let sought = Sought {
            used: needed.used,
            truncated: false,
            asked: needed.asked,
        };
        let among = self.list(sought)?;
        self.narrow(criterion, among.as_slice())
    }

    /// Returns the places of the entries that satisfy the criterion, in order. If `may_need` is true, and they all need
    /// a rare word, it looks for that first.
    fn found_by(
        &mut self,
        criterion: &'a Criterion,
        may_need: bool,
    ) -> Result<SharedPlaces, AllocError>
        ensures same { self.new ≡ self.old }
        ensures places { IfOk result (λ places. places
            ≡ places_from (is_satisfied (criterion_meaning criterion.now)) 0 self.old) }
    {
        let alloc = self.alloc;
        match criterion {
            Criterion::Phrase {
                used,
                truncated,
                asked,
            } => {
                let sought = Sought {
                    used: *used,
                    truncated: *truncated,
                    asked: asked.as_slice(),
                };
                self.list(sought)
            }
            Criterion::Never => SharedPlaces::new(alloc, Vec::new(alloc)),
            Criterion::And(left, right) => match self.need_of(criterion, may_need) {
                Some(needed) => {
                    let found = self.found_among(needed, criterion)?;
                    SharedPlaces::new(alloc, found)
                }
                None => {
                    let kept = self.found_by(left, false)?;
                    let found = self.narrow(right, kept.as_slice())?;
                    SharedPlaces::new(alloc, found)
                }
            },
            Criterion::Or(left, right) => {
                let left = self.found_by(left, true)?;
                let right = self.found_by(right, true)?;
                let found = merged(alloc, IN_EITHER, left.as_slice(), right.as_slice())?;
                SharedPlaces::new(alloc, found)
            }
            Criterion::Not(left, right) => {
                let left = self.found_by(left, may_need)?;
                let right = self.narrow(right, left.as_slice())?;
                let found = merged(alloc, IN_FIRST_ALONE, left.as_slice(), &right)?;
                SharedPlaces::new(alloc, found)
            }
        }
    }

    /// Returns the places of the entries that satisfy the criterion, in order.
    pub(crate) fn evaluate(&mut self, criterion: &'a Criterion) -> Result<SharedPlaces, AllocError>
        ensures { IfOk result (λ places. places
            ≡ places_from (is_satisfied (criterion_meaning criterion.now)) 0 self.old) }
    {
        self.found_by(criterion, true)
    }
}
