//! The elements of a production, built from left to right.
ghost use Rattle.std.specs.Prelude.{◌≡◌, [], ◌∷◌, ◌++◌, Some, OnErr};
ghost use Rattle.zber.specs.Elements.{cons};
ghost use Rattle.zasn_tables.specs.Building.{optional_put, required_put};
ghost use Rattle.zasn_tables.specs.Place.{Place};
ghost use Rattle.zasn.specs.Results.{BuildStepResult};
ghost use Rattle.zasn.specs.Places.{any, explicit, kept, strings};

use crate::any::{write_any, write_kept};
use crate::contents::{Contents, Tagged};
use crate::error::BuildError;
use crate::owned::give_alone_tagged;
use crate::production::{write_alone, write_alone_tagged};
use crate::texts::write_texts;
use bytes::Bytes;
use std::alloc::Global;
use std::marker::Model;
use zber::{Node, Seq, Tag};

/// The elements of a production that are built so far. A step that returns an error adds none.
#[derive(Drop)]
pub struct PartsBuf {
    nodes: Vec<Node>,
}

impl Model for PartsBuf {
    ghost use Rattle.std.specs.Prelude.{List};
    ghost use Rattle.std.specs.Coded.{coded_list};
    ghost use Rattle.zber.specs.Elements.{Element};
    ghost use Rattle.zber.specs.Coding.{coded_element};

    ghost Value = { List Element };

    ghost coded = { coded_list coded_element };

    ghost view = { λ p. p.nodes.items };
}

impl PartsBuf {
    /// Creates a buffer without elements.
    pub fn new(alloc: Global) -> PartsBuf
        ensures { result ≡ [] }
    {
        PartsBuf {
            nodes: Vec::new(alloc),
        }
    }

    /// Adds an element. Returns `Memory` if no memory is found, and never `NotSpellable`.
    pub fn push(&mut self, node: Node) -> Result<(), BuildError>
        ensures puts { BuildStepResult (Some (self.old ++ node ∷ [])) result self.new }
        ensures err { OnErr result (self.new ≡ self.old) }
    {
        self.nodes.push(node)?;
        Ok(())
    }

    /// Adds the element of a value under the tag.
    ///
    /// Returns `NotSpellable` if the value has none, and `Memory` if no memory is found.
    pub fn required<T: Contents>(
        &mut self,
        alloc: Global,
        tag: Tag,
        value: &T,
    ) -> Result<(), BuildError>
        ensures puts { BuildStepResult (required_put (T.place tag).spelling value.now self.old) result self.new }
        ensures err { OnErr result (self.new ≡ self.old) }
    {
        let node = value.to_node(alloc, tag)?;
        self.push(node)
    }

    /// Adds the element of a value under the tag, if there is a value.
    ///
    /// Returns `NotSpellable` if the value has none, and `Memory` if no memory is found.
    pub fn optional<T: Contents>(
        &mut self,
        alloc: Global,
        tag: Tag,
        value: &Option<T>,
    ) -> Result<(), BuildError>
        ensures puts { BuildStepResult (optional_put (T.place tag).spelling value.now self.old) result self.new }
        ensures err { OnErr result (self.new ≡ self.old) }
    {
        match value {
            None => Ok(()),
            Some(value) => self.required(alloc, tag, value),
        }
    }

    /// Adds the element of a value with a tag of its own.
    ///
    /// Returns `NotSpellable` if the value has none, and `Memory` if no memory is found.
    pub fn required_tagged<T: Tagged>(&mut self, alloc: Global, value: &T) -> Result<(), BuildError>
        ensures puts { BuildStepResult (required_put T.place.spelling value.now self.old) result self.new }
        ensures err { OnErr result (self.new ≡ self.old) }
    {
        let node = value.to_element(alloc)?;
        self.push(node)
    }

    /// Adds the element of a value with a tag of its own, if there is a value.
    ///
    /// Returns `NotSpellable` if the value has none, and `Memory` if no memory is found.
    pub fn optional_tagged<T: Tagged>(
        &mut self,
        alloc: Global,
        value: &Option<T>,
    ) -> Result<(), BuildError>
        ensures puts { BuildStepResult (optional_put T.place.spelling value.now self.old) result self.new }
        ensures err { OnErr result (self.new ≡ self.old) }
    {
        match value {
            None => Ok(()),
            Some(value) => self.required_tagged(alloc, value),
        }
    }

    /// Adds the element with the outer tag around the element of a value under the inner tag, if there is a value.
    ///
    /// Returns `NotSpellable` if the value has none, and `Memory` if no memory is found.
    pub fn optional_explicit<T: Contents>(
        &mut self,
        alloc: Global,
        outer: Tag,
        inner: Tag,
        value: &Option<T>,
    ) -> Result<(), BuildError>
        ensures puts { BuildStepResult (optional_put (explicit outer (T.place inner)).spelling
            value.now self.old) result self.new }
        ensures err { OnErr result (self.new ≡ self.old) }
    {
        match value {
            None => Ok(()),
            Some(value) => {
                let node = write_alone(alloc, value, outer, inner)?;
                self.push(node)
            }
        }
    }

    /// Adds the element with the outer tag around the element of a value with a tag of its own.
    ///
    /// Returns `NotSpellable` if the value has none, and `Memory` if no memory is found.
    pub fn required_explicit_tagged<T: Tagged>(
        &mut self,
        alloc: Global,
        outer: Tag,
        value: &T,
    ) -> Result<(), BuildError>
        ensures puts { BuildStepResult (required_put (explicit outer T.place).spelling
            value.now self.old) result self.new }
        ensures err { OnErr result (self.new ≡ self.old) }
    {
        let node = write_alone_tagged(alloc, value, outer)?;
        self.push(node)
    }

    /// Adds the element with the outer tag around the element of a value with a tag of its own, if there is a value.
    ///
    /// Returns `NotSpellable` if the value has none, and `Memory` if no memory is found.
    pub fn optional_explicit_tagged<T: Tagged>(
        &mut self,
        alloc: Global,
        outer: Tag,
        value: &Option<T>,
    ) -> Result<(), BuildError>
        ensures puts { BuildStepResult (optional_put (explicit outer T.place).spelling
            value.now self.old) result self.new }
        ensures err { OnErr result (self.new ≡ self.old) }
    {
        match value {
            None => Ok(()),
            Some(value) => self.required_explicit_tagged(alloc, outer, value),
        }
    }

    /// Adds the element with the outer tag around those of texts, each under the inner tag. Returns `Memory` if no
    /// memory is found, and never `NotSpellable`.
    pub fn required_texts(
        &mut self,
        alloc: Global,
        outer: Tag,
        inner: Tag,
        texts: &Seq<Bytes>,
    ) -> Result<(), BuildError>
        ensures puts { BuildStepResult (required_put (strings outer inner).spelling
            texts.now self.old) result self.new }
        ensures err { OnErr result (self.new ≡ self.old) }
    {
        let node = write_texts(alloc, texts, outer, inner)?;
        self.push(node)
    }

    /// Adds the element with the tag around a copy of an element, if there is one. Returns `Memory` if no memory is
    /// found, and never `NotSpellable`.
    pub fn optional_any(
        &mut self,
        alloc: Global,
        tag: Tag,
        value: &Option<Node>,
    ) -> Result<(), BuildError>
        ensures puts { BuildStepResult (optional_put (any tag).spelling value.now self.old) result self.new }
        ensures err { OnErr result (self.new ≡ self.old) }
    {
        match value {
            None => Ok(()),
            Some(value) => {
                let node = write_any(alloc, value, tag)?;
                self.push(node)
            }
        }
    }

    /// Adds a copy of an element of either form that has the tag, if there is one.
    ///
    /// Returns `NotSpellable` if it has another tag, and `Memory` if no memory is found.
    pub fn optional_kept(
        &mut self,
        alloc: Global,
        tag: Tag,
        value: &Option<Node>,
    ) -> Result<(), BuildError>
        ensures puts { BuildStepResult (optional_put (kept tag []).spelling value.now self.old) result self.new }
        ensures err { OnErr result (self.new ≡ self.old) }
    {
        match value {
            None => Ok(()),
            Some(value) => {
                let node = write_kept(alloc, value, tag)?;
                self.push(node)
            }
        }
    }

    /// Adds the element of a value with a tag of its own, and takes the value over.
    ///
    /// Returns `NotSpellable` if the value has none, and `Memory` if no memory is found.
    pub fn give_tagged<T: Tagged>(&mut self, alloc: Global, value: T) -> Result<(), BuildError>
        ensures puts { BuildStepResult (required_put T.place.spelling value self.old) result self.new }
        ensures err { OnErr result (self.new ≡ self.old) }
    {
        let node = value.into_element(alloc)?;
        self.push(node)
    }

    /// Adds the element with the outer tag around the element of a value with a tag of its own, and takes the value
    /// over.
    ///
    /// Returns `NotSpellable` if the value has none, and `Memory` if no memory is found.
    pub fn give_explicit_tagged<T: Tagged>(
        &mut self,
        alloc: Global,
        outer: Tag,
        value: T,
    ) -> Result<(), BuildError>
        ensures puts { BuildStepResult (required_put (explicit outer T.place).spelling value self.old) result self.new }
        ensures err { OnErr result (self.new ≡ self.old) }
    {
        let node = give_alone_tagged(alloc, value, outer)?;
        self.push(node)
    }

    /// Returns the constructed element with the tag around these elements.
    pub fn into_node(self, tag: Tag) -> Node
        ensures { result ≡ cons tag self }
    {
        let PartsBuf { nodes } = self;
        Node::cons(tag, nodes)
    }
}
