//! The elements of a production, taken over and read from left to right: what a value keeps of them is moved.
ghost use Rattle.std.specs.Prelude.{◌≡◌, [], ◌∷◌, true, false, length, IfSome, IfNone, IfOk, IfErr, OnOk, OnErr};
ghost use Rattle.zber.specs.AsnTags.{context};
ghost use Rattle.zber.specs.Elements.{prim, tag_of};
ghost use Rattle.zasn_tables.specs.Reading.{optional_at, required_at, ended_at};
ghost use Rattle.zasn_tables.specs.Place.{Place};
ghost use Rattle.zber.specs.Tags.{among};
ghost use Rattle.zasn_tables.specs.Within.{alone_at, sequence_of};
ghost use Rattle.zasn.specs.Results.{OwnStepResult, ReadingResult, has_first_tag, has_first_tag_in};

use crate::contents::{Contents, Tagged};
use crate::error::PartError;
use crate::owned::take_alone_tagged;
use bytes::Bytes;
use std::alloc::{AllocError, Global};
use std::collections::VecDeque;
use std::marker::Model;
use zber::{Node, Tag};

/// The elements of a production that are not yet read, and that its value takes over.
///
/// After `Misfit` as many are left as before. The first takes the place of the one at fault, and need not be equal to
/// it; the others are unchanged. After `Memory` the next one is lost, and the others are left.
#[derive(Drop)]
pub struct OwnParts {
    left: VecDeque<Node>,
}

impl Model for OwnParts {
    ghost use Rattle.std.specs.Prelude.{List};
    ghost use Rattle.std.specs.Coded.{coded_list};
    ghost use Rattle.zber.specs.Elements.{Element};
    ghost use Rattle.zber.specs.Coding.{coded_element};

    ghost Value = { List Element };

    ghost coded = { coded_list coded_element };

    ghost view = { λ p. p.left.items };
}

impl OwnParts {
    /// Starts at the first of these elements.
    pub fn new(nodes: Vec<Node>) -> OwnParts
        ensures { result ≡ nodes.items }
    {
        OwnParts {
            left: VecDeque::from_vec(nodes),
        }
    }

    /// Returns how many elements are not yet read.
    pub fn len(&self) -> usize
        ensures { result ≡ length self.now }
    {
        self.left.len()
    }

    /// Whether the next element has the tag.
    fn has_first_tag(&self, tag: Tag) -> bool
        ensures { result ≡ has_first_tag tag self.now }
    {
        match self.left.front() {
            Some(first) => first.tag == tag,
            None => false,
        }
    }

    /// Whether the next element has one of a value's tags.
    fn has_first_tag_in<T: Tagged>(&self) -> bool
        ensures { result ≡ has_first_tag_in T.place.tags self.now }
    {
        match self.left.front() {
            Some(first) => T::has(first.tag),
            None => false,
        }
    }

    /// Removes the next element and returns it. Returns `None` if none is left.
    pub(crate) fn next(&mut self) -> Option<Node>
        ensures some { IfSome result (λ n. self.old ≡ n ∷ self.new) }
        ensures none { IfNone result ((self.old ≡ []) × (self.new ≡ [])) }
    {
        self.left.pop_front()
    }

    /// Removes the next element and returns it, if it has the tag. Otherwise returns `None`, and nothing changes.
    fn next_with(&mut self, tag: Tag) -> Option<Node>
        ensures some { IfSome result (λ n. has_first_tag tag self.old ≡ true × self.old ≡ n ∷ self.new) }
        ensures none { IfNone result ((has_first_tag tag self.old ≡ false) × (self.new ≡ self.old)) }
    {
        if self.has_first_tag(tag) {
            self.next()
        } else {
            None
        }
    }

    /// Adds an element in front, for one that was at fault. Returns an error if no memory is found; the elements are
    /// unchanged.
    fn stand_in(&mut self) -> Result<(), AllocError>
        ensures ok { OnOk result (self.new ≡ prim (context 0) [] ∷ self.old) }
        ensures err { OnErr result (self.new ≡ self.old) }
    {
        self.left
            .push_front(Node::prim(Tag::context(0), Bytes::new()))?;
        Ok(())
    }

    /// Returns the value of the next element, if that has the tag. Returns `None` if none is left, or it has another
    /// tag.
    ///
    /// Returns `Misfit` if it has the tag and no such value, and `Memory` if no memory is found.
    pub fn optional<T: Contents>(&mut self, alloc: Global, tag: Tag) -> Result<Option<T>, PartError>
        ensures { OwnStepResult (optional_at (tag ∷ []) (T.place tag).meaning self.old) result self.old self.new }
    {
        let Some(first) = self.next_with(tag) else {
            return Ok(None);
        };
        match T::take_node(alloc, first) {
            Ok(value) => Ok(Some(value)),
            Err(PartError::Misfit) => {
                self.stand_in()?;
                Err(PartError::Misfit)
            }
            Err(PartError::Memory) => Err(PartError::Memory),
        }
    }

    /// Returns the value of the next element, which must have the tag.
    ///
    /// Returns `Misfit` if none is left, or if it has another tag or no such value. Returns `Memory` if no memory is
    /// found.
    pub fn required<T: Contents>(&mut self, alloc: Global, tag: Tag) -> Result<T, PartError>
        ensures { OwnStepResult (required_at (tag ∷ []) (T.place tag).meaning self.old) result self.old self.new }
    {
        self.optional(alloc, tag)?.ok_or(PartError::Misfit)
    }

    /// Returns the value of the next element, if that has one of the value's tags. Returns `None` if none is left, or
    /// it has another tag.
    ///
    /// Returns `Misfit` if it has such a tag and no such value, and `Memory` if no memory is found.
    pub fn optional_tagged<T: Tagged>(&mut self, alloc: Global) -> Result<Option<T>, PartError>
        ensures { OwnStepResult (optional_at T.place.tags T.place.meaning self.old) result self.old self.new }
    {
        if !self.has_first_tag_in::<T>() {
            return Ok(None);
        }
        let Some(first) = self.next() else {
            return Ok(None);
        };
        match T::take_element(alloc, first) {
            Ok(value) => Ok(Some(value)),
            Err(PartError::Misfit) => {
                self.stand_in()?;
                Err(PartError::Misfit)
            }
            Err(PartError::Memory) => Err(PartError::Memory),
        }
    }

    /// Returns the value of the next element, which must have one of the value's tags.
    ///
    /// Returns `Misfit` if none is left, or if it has another tag or no such value. Returns `Memory` if no memory is
    /// found.
    pub fn required_tagged<T: Tagged>(&mut self, alloc: Global) -> Result<T, PartError>
        ensures { OwnStepResult (required_at T.place.tags T.place.meaning self.old) result self.old self.new }
    {
        self.optional_tagged(alloc)?.ok_or(PartError::Misfit)
    }

    /// Returns the value of the one element within the next, which must have the outer tag. The inner element has a tag
    /// of its own.
    ///
    /// Returns `Misfit` if none is left, or if the next has another tag or is primitive. Also returns `Misfit` if it
    /// contains anything but one element of such a value. Returns `Memory` if no memory is found.
    pub fn required_explicit_tagged<T: Tagged>(
        &mut self,
        alloc: Global,
        outer: Tag,
    ) -> Result<T, PartError>
        ensures { OwnStepResult (required_at (outer ∷ [])
            (sequence_of (alone_at T.place.tags T.place.meaning)) self.old) result self.old self.new }
    {
        let Some(first) = self.next_with(outer) else {
            return Err(PartError::Misfit);
        };
        match take_alone_tagged(alloc, first) {
            Ok(value) => Ok(value),
            Err(PartError::Misfit) => {
                self.stand_in()?;
                Err(PartError::Misfit)
            }
            Err(PartError::Memory) => Err(PartError::Memory),
        }
    }

    /// Checks that nothing is left; returns `Misfit` if an element is. It changes nothing.
    pub fn end(&self) -> Result<(), PartError>
        ensures finds { ReadingResult (ended_at self.now) result self.now }
        ensures none { IfOk result (λ _. self.now ≡ []) }
        ensures misfit { IfErr result (λ e. e ≡ PartError.Misfit) }
    {
        if self.left.is_empty() {
            Ok(())
        } else {
            Err(PartError::Misfit)
        }
    }
}
