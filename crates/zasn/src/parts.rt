//! The elements of a production, read from left to right.
ghost use Rattle.std.specs.Prelude.{◌≡◌, [], ◌∷◌, true, false, length, drop, ◌-◌, IfSome, IfNone, IfOk, IfErr, OnErr};
ghost use Rattle.zasn_tables.specs.Reading.{optional_at, required_at, ended_at};
ghost use Rattle.zasn_tables.specs.Place.{Place};
ghost use Rattle.zasn_tables.specs.Table.{Elements};
ghost use Rattle.zasn_tables.specs.Within.{alone_at, any_at, list_meaning, sequence_of};
ghost use Rattle.zasn.specs.Results.{StepResult, ReadingResult, has_first_tag};
ghost use Rattle.zasn.specs.Places.{alone, kept, text_under};

use crate::any::read_any;
use crate::contents::{Contents, Tagged};
use crate::error::PartError;
use crate::own_parts::OwnParts;
use crate::production::{read_alone, read_alone_tagged};
use crate::texts::read_texts;
use bytes::Bytes;
use std::alloc::{AllocError, Global};
use std::marker::Model;
use zber::{Node, Seq, Tag};

/// The elements of a production that are not yet read. A step that returns an error leaves them unchanged, so that the
/// first of them is the one that failed.
#[derive(Drop)]
pub struct Parts<'a> {
    left: &'a [Node],
}

impl<'a> Model for Parts<'a> {
    ghost use Rattle.std.specs.Prelude.{List};
    ghost use Rattle.std.specs.Coded.{coded_list};
    ghost use Rattle.zber.specs.Elements.{Element};
    ghost use Rattle.zber.specs.Coding.{coded_element};

    ghost Value = { List Element };

    ghost coded = { coded_list coded_element };

    ghost view = { λ p. p.left.now };
}

impl<'a> Parts<'a> {
    /// Starts at the first of these elements.
    pub fn new(left: &'a [Node]) -> Self
        ensures { result ≡ left.now }
    {
        Parts { left }
    }

    /// Returns how many elements are not yet read.
    pub fn len(&self) -> usize
        ensures { result ≡ length self.now }
    {
        self.left.len()
    }

    /// Returns copies of the elements.
    pub(crate) fn copies(&self, alloc: Global) -> Result<OwnParts, AllocError>
        ensures { IfOk result (λ own. own ≡ self.now) }
    {
        let mut copies = Vec::with_capacity(alloc, self.left.len())?;
        for node in self.left {
            copies.push(node.copy(alloc)?)?;
        }
        Ok(OwnParts::new(copies))
    }

    /// Goes past all elements but the last `count`, if there are more.
    pub(crate) fn leave(&mut self, count: usize)
        ensures { self.new ≡ drop (length self.old - count) self.old }
    {
        self.left = &self.left[self.left.len().saturating_sub(count)..];
    }

    /// Returns the next element and those after it, if the next has the tag.
    fn next_with(&self, tag: Tag) -> Option<(&'a Node, &'a [Node])>
        ensures some { IfSome result (λ n. has_first_tag tag self.now ≡ true × self.now ≡ n.0.now ∷ n.1.now) }
        ensures none { IfNone result (has_first_tag tag self.now ≡ false) }
    {
        match self.left {
            [first, others @ ..] if first.tag == tag => Some((first, others)),
            _ => None,
        }
    }

    /// Returns the value of the next element, if that has the tag. Returns `None` if none is left, or it has another
    /// tag.
    ///
    /// Returns `Misfit` if it has the tag and no such value, and `Memory` if no memory is found.
    pub fn optional<T: Contents>(&mut self, alloc: Global, tag: Tag) -> Result<Option<T>, PartError>
        ensures takes { StepResult (optional_at (tag ∷ []) (T.place tag).meaning self.old) result self.new }
        ensures err { OnErr result (self.new ≡ self.old) }
    {
        let Some((first, others)) = self.next_with(tag) else {
            return Ok(None);
        };
        let value = T::of_node(alloc, first)?;
        self.left = others;
        Ok(Some(value))
    }

    /// Returns the value of the next element, which must have the tag.
    ///
    /// Returns `Misfit` if none is left, or if it has another tag or no such value. Returns `Memory` if no memory is
    /// found.
    pub fn required<T: Contents>(&mut self, alloc: Global, tag: Tag) -> Result<T, PartError>
        ensures takes { StepResult (required_at (tag ∷ []) (T.place tag).meaning self.old) result self.new }
        ensures err { OnErr result (self.new ≡ self.old) }
    {
        self.optional(alloc, tag)?.ok_or(PartError::Misfit)
    }

    /// Returns the value of the next element, if that has one of the value's tags. Returns `None` if none is left, or
    /// it has another tag.
    ///
    /// Returns `Misfit` if it has such a tag and no such value, and `Memory` if no memory is found.
    pub fn optional_tagged<T: Tagged>(&mut self, alloc: Global) -> Result<Option<T>, PartError>
        ensures takes { StepResult (optional_at T.place.tags T.place.meaning self.old) result self.new }
        ensures err { OnErr result (self.new ≡ self.old) }
    {
        match self.left {
            [] => Ok(None),
            [first, others @ ..] => {
                if !T::has(first.tag) {
                    return Ok(None);
                }
                let value = T::of_element(alloc, first)?;
                self.left = others;
                Ok(Some(value))
            }
        }
    }

    /// Returns the value of the next element, which must have one of the value's tags.
    ///
    /// Returns `Misfit` if none is left, or if it has another tag or no such value. Returns `Memory` if no memory is
    /// found.
    pub fn required_tagged<T: Tagged>(&mut self, alloc: Global) -> Result<T, PartError>
        ensures takes { StepResult (required_at T.place.tags T.place.meaning self.old) result self.new }
        ensures err { OnErr result (self.new ≡ self.old) }
    {
        self.optional_tagged(alloc)?.ok_or(PartError::Misfit)
    }

    /// Returns the value of the one element within the next, if the next has the outer tag (explicit tagging). Returns
    /// `None` if none is left, or it has another tag.
    ///
    /// Returns `Misfit` if it has the outer tag and is primitive, or contains anything but one element of such a value
    /// under the inner tag. Returns `Memory` if no memory is found.
    pub fn optional_explicit<T: Contents>(
        &mut self,
        alloc: Global,
        outer: Tag,
        inner: Tag,
    ) -> Result<Option<T>, PartError>
        ensures takes { StepResult (optional_at (outer ∷ [])
            (sequence_of (alone_at (inner ∷ []) (T.place inner).meaning)) self.old) result self.new }
        ensures err { OnErr result (self.new ≡ self.old) }
    {
        let Some((first, others)) = self.next_with(outer) else {
            return Ok(None);
        };
        let value = read_alone(alloc, first, inner)?;
        self.left = others;
        Ok(Some(value))
    }

    /// Returns the value of the one element within the next, which must have the outer tag. The inner element has a tag
    /// of its own.
    ///
    /// Returns `Misfit` if none is left, or if the next has another tag or is primitive. Also returns `Misfit` if it
    /// contains anything but one element of such a value. Returns `Memory` if no memory is found.
    pub fn required_explicit_tagged<T: Tagged>(
        &mut self,
        alloc: Global,
        outer: Tag,
    ) -> Result<T, PartError>
        ensures takes { StepResult (required_at (outer ∷ [])
            (sequence_of (alone_at T.place.tags T.place.meaning)) self.old) result self.new }
        ensures err { OnErr result (self.new ≡ self.old) }
    {
        self.optional_explicit_tagged(alloc, outer)?
            .ok_or(PartError::Misfit)
    }

    /// Returns the value of the one element within the next, if the next has the outer tag. The inner element has a tag
    /// of its own. Returns `None` if none is left, or the next has another tag.
    ///
    /// Returns `Misfit` if the next has the outer tag and is primitive, or contains anything but one element of such a
    /// value. Returns `Memory` if no memory is found.
    pub fn optional_explicit_tagged<T: Tagged>(
        &mut self,
        alloc: Global,
        outer: Tag,
    ) -> Result<Option<T>, PartError>
        ensures takes { StepResult (optional_at (outer ∷ [])
            (sequence_of (alone T.place).at) self.old) result self.new }
        ensures err { OnErr result (self.new ≡ self.old) }
    {
        let Some((first, others)) = self.next_with(outer) else {
            return Ok(None);
        };
        let value = read_alone_tagged(alloc, first)?;
        self.left = others;
        Ok(Some(value))
    }

    /// Returns the texts of the elements within the next, which must have the outer tag. Each of them must have the
    /// inner tag.
    ///
    /// Returns `Misfit` if none is left, or if the next has another tag or is primitive. Also returns `Misfit` if an
    /// element within has another tag or is no string. Returns `Memory` if no memory is found.
    pub fn required_texts(
        &mut self,
        alloc: Global,
        outer: Tag,
        inner: Tag,
    ) -> Result<Seq<Bytes>, PartError>
        ensures takes { StepResult (required_at (outer ∷ [])
            (list_meaning (text_under inner)) self.old) result self.new }
        ensures err { OnErr result (self.new ≡ self.old) }
    {
        let Some((first, others)) = self.next_with(outer) else {
            return Err(PartError::Misfit);
        };
        let texts = read_texts(alloc, first, inner)?;
        self.left = others;
        Ok(texts)
    }

    /// Returns a copy of the one element within the next, whatever it is, if the next has the tag (explicit tagging of
    /// ANY). Returns `None` if none is left, or the next has another tag.
    ///
    /// Returns `Misfit` if the next has the tag and is primitive, or contains none or several. Returns `Memory` if no
    /// memory is found.
    pub fn optional_any(&mut self, alloc: Global, tag: Tag) -> Result<Option<Node>, PartError>
        ensures takes { StepResult (optional_at (tag ∷ []) (sequence_of any_at) self.old) result self.new }
        ensures err { OnErr result (self.new ≡ self.old) }
    {
        let Some((first, others)) = self.next_with(tag) else {
            return Ok(None);
        };
        let value = read_any(alloc, first)?;
        self.left = others;
        Ok(Some(value))
    }

    /// Returns a copy of the next element, of either form, if it has the tag. Returns `None` if none is left, or it has
    /// another tag.
    ///
    /// Returns `Memory` if no memory is found, and never `Misfit`.
    pub fn optional_kept(&mut self, alloc: Global, tag: Tag) -> Result<Option<Node>, PartError>
        ensures takes { StepResult (optional_at (tag ∷ []) (kept tag []).meaning self.old) result self.new }
        ensures err { OnErr result (self.new ≡ self.old) }
    {
        let Some((first, others)) = self.next_with(tag) else {
            return Ok(None);
        };
        let value = first.copy(alloc)?;
        self.left = others;
        Ok(Some(value))
    }

    /// Checks that nothing is left; returns `Misfit` if an element is. It changes nothing.
    pub fn end(&self) -> Result<(), PartError>
        ensures finds { ReadingResult (ended_at self.now) result self.now }
        ensures none { IfOk result (λ _. self.now ≡ []) }
        ensures misfit { IfErr result (λ e. e ≡ PartError.Misfit) }
    {
        if self.left.is_empty() {
            Ok(())
        } else {
            Err(PartError::Misfit)
        }
    }
}
