//! Values that one element holds.
ghost use Rattle.std.specs.Prelude.{◌≡◌};
ghost use Rattle.zber.specs.AsnTags.{AsnTag};
ghost use Rattle.zber.specs.Elements.{tag_of};
ghost use Rattle.zber.specs.Tags.{among};
ghost use Rattle.zasn_tables.specs.Place.{Place};
ghost use Rattle.zasn.specs.Results.{MeaningResult, BuildResult};
ghost use Rattle.zasn.specs.Places.{octets, integer, boolean, oid, bits, opaque};

use crate::error::{BuildError, PartError};
use bytes::Bytes;
use std::alloc::Global;
use zber::{Bits, Body, Node, Oid, Tag};

/// A value whose element has the tag that its place gives it (implicit tagging).
pub trait Contents: Sized + Drop {
    /// The place of the value under a tag.
    ghost place: { AsnTag → Place Self };

    /// Returns the value of the element, whatever its tag.
    ///
    /// Returns `Misfit` if the element has no such value, and `Memory` if no memory is found.
    fn of_node(alloc: Global, node: &Node) -> Result<Self, PartError>
        ensures { MeaningResult ((place (tag_of node.now)).meaning node.now) result };

    /// Does the same with an element that it takes over, and returns the same errors. What the value keeps of the
    /// element is moved, not copied.
    fn take_node(alloc: Global, node: Node) -> Result<Self, PartError>
        ensures { MeaningResult ((place (tag_of node)).meaning node) result }
    {
        Self::of_node(alloc, &node)
    }

    /// Returns the element of the value under the tag.
    ///
    /// Returns `NotSpellable` if the value has none, and `Memory` if no memory is found.
    fn to_node(&self, alloc: Global, tag: Tag) -> Result<Node, BuildError>
        ensures { BuildResult ((place tag).spelling self.now) result };

    /// Does the same with a value that it takes over, and returns the same errors. What the value keeps of elements is
    /// moved, not copied.
    fn into_node(self, alloc: Global, tag: Tag) -> Result<Node, BuildError>
        ensures { BuildResult ((place tag).spelling self) result }
    {
        self.to_node(alloc, tag)
    }
}

/// A value whose element has a tag of its own: a choice, or a type with its own tag.
pub trait Tagged: Sized + Drop {
    /// The place of the value.
    ghost place: { Place Self };

    /// Whether an element with the tag may be that of such a value.
    fn has(tag: Tag) -> bool
        ensures { result ≡ among tag place.tags };

    /// Returns the value of an element that has such a tag.
    ///
    /// Returns `Misfit` if the element has no such value, and `Memory` if no memory is found.
    fn of_element(alloc: Global, node: &Node) -> Result<Self, PartError>
        ensures { MeaningResult (place.meaning node.now) result };

    /// Does the same with an element that it takes over, and returns the same errors. What the value keeps of the
    /// element is moved, not copied.
    fn take_element(alloc: Global, node: Node) -> Result<Self, PartError>
        ensures { MeaningResult (place.meaning node) result }
    {
        Self::of_element(alloc, &node)
    }

    /// Returns the element of the value.
    ///
    /// Returns `NotSpellable` if the value has none, and `Memory` if no memory is found.
    fn to_element(&self, alloc: Global) -> Result<Node, BuildError>
        ensures { BuildResult (place.spelling self.now) result };

    /// Does the same with a value that it takes over, and returns the same errors. What the value keeps of elements is
    /// moved, not copied.
    fn into_element(self, alloc: Global) -> Result<Node, BuildError>
        ensures { BuildResult (place.spelling self) result }
    {
        self.to_element(alloc)
    }
}

impl Contents for Bytes {
    ghost place = { octets };

    fn of_node(alloc: Global, node: &Node) -> Result<Self, PartError> {
        let octets = node.as_octets(alloc)?;
        Ok(octets)
    }

    fn to_node(&self, _alloc: Global, tag: Tag) -> Result<Node, BuildError> {
        let octets = self.clone()?;
        Ok(Node::prim(tag, octets))
    }
}

#[tactic(auto, using(zasn_tables::proofs::Meanings::fits_i64))]
impl Contents for i64 {
    ghost place = { integer };

    fn of_node(_alloc: Global, node: &Node) -> Result<Self, PartError> {
        let number = node.as_int()?;
        Ok(number)
    }

    fn to_node(&self, alloc: Global, tag: Tag) -> Result<Node, BuildError> {
        Ok(Node::of_int(alloc, tag, *self)?)
    }
}

impl Contents for bool {
    ghost place = { boolean };

    fn of_node(_alloc: Global, node: &Node) -> Result<Self, PartError> {
        let value = node.as_bool()?;
        Ok(value)
    }

    fn to_node(&self, alloc: Global, tag: Tag) -> Result<Node, BuildError> {
        Ok(Node::of_bool(tag, *self))
    }
}

#[tactic(auto, using(zber::proofs::OidTest::is_oid_pass))]
impl Contents for Oid {
    ghost place = { oid };

    fn of_node(alloc: Global, node: &Node) -> Result<Self, PartError> {
        let oid = node.as_oid(alloc)?;
        Ok(oid)
    }

    fn to_node(&self, alloc: Global, tag: Tag) -> Result<Node, BuildError> {
        // Its contract states that the arcs are an identifier's.
        let _arcs = self.arcs();
        Ok(Node::of_oid(alloc, tag, self)?)
    }
}

impl Contents for Bits {
    ghost place = { bits };

    fn of_node(alloc: Global, node: &Node) -> Result<Self, PartError> {
        let bits = node.as_bits(alloc)?;
        Ok(bits)
    }

    fn to_node(&self, alloc: Global, tag: Tag) -> Result<Node, BuildError> {
        Ok(Node::of_bits(alloc, tag, self)?)
    }
}

/// A constructed element, kept with whatever it contains.
impl Contents for Node {
    ghost place = { opaque };

    fn of_node(alloc: Global, node: &Node) -> Result<Self, PartError> {
        if let Body::Prim(_) = &node.body {
            return Err(PartError::Misfit);
        }
        Ok(node.copy(alloc)?)
    }

    fn take_node(_alloc: Global, node: Node) -> Result<Self, PartError> {
        if matches!(&node.body, Body::Prim(_)) {
            Err(PartError::Misfit)
        } else {
            Ok(node)
        }
    }

    fn to_node(&self, alloc: Global, tag: Tag) -> Result<Node, BuildError> {
        if let Body::Prim(_) = &self.body {
            return Err(BuildError::NotSpellable);
        }
        if self.tag != tag {
            return Err(BuildError::NotSpellable);
        }
        Ok(self.copy(alloc)?)
    }
}
