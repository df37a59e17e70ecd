//! Element set names: which elements of the records the origin asks for.
ghost use Rattle.zapdu.specs.Productions.ElementSets.{database_element_set_parts, element_set_names, whole_database_element_set};

use bytes::Bytes;
use std::alloc::Global;
use zasn::{
    BuildError, Contents, PartError, Parts, PartsBuf, Production, Tagged, read_within, write_within,
};
use zber::{Node, Seq, Tag};

/// The element set for the records of one database.
#[derive(Drop)]
pub struct DatabaseElementSet {
    /// dbName: the database.
    pub database_name: Bytes,
    /// esn: the element set.
    pub element_set_name: Bytes,
}

/// The element sets that the origin asks for (Z39.50-2003, 4.1: ElementSetNames).
pub enum ElementSetNames {
    /// genericElementSetName: one for all databases.
    Generic(Bytes),
    /// databaseSpecific: one for each of some databases.
    DatabaseSpecific(Seq<DatabaseElementSet>),
}

impl Drop for ElementSetNames {
    fn drop(self) {
        match self {
            ElementSetNames::Generic(_) => {}
            ElementSetNames::DatabaseSpecific(_) => {}
        }
    }
}

#[tactic(auto, unfolding(crate::specs::Productions::ElementSets::database_element_set_parts))]
impl Production for DatabaseElementSet {
    ghost table = { database_element_set_parts };

    fn read(alloc: Global, parts: &mut Parts<'_>) -> Result<Self, PartError> {
        let database_name = parts.required(alloc, Tag::context(105))?;
        let element_set_name = parts.required(alloc, Tag::context(103))?;
        parts.end()?;
        Ok(DatabaseElementSet {
            database_name,
            element_set_name,
        })
    }

    fn write(&self, alloc: Global, out: &mut PartsBuf) -> Result<(), BuildError> {
        out.required(alloc, Tag::context(105), &self.database_name)?;
        out.required(alloc, Tag::context(103), &self.element_set_name)
    }
}

impl Tagged for DatabaseElementSet {
    ghost place = { whole_database_element_set };

    fn has(tag: Tag) -> bool {
        tag == Tag::universal(16)
    }

    fn of_element(alloc: Global, node: &Node) -> Result<Self, PartError> {
        read_within(alloc, node)
    }

    fn to_element(&self, alloc: Global) -> Result<Node, BuildError> {
        write_within(alloc, self, Tag::universal(16))
    }
}

#[tactic(auto, unfolding(crate::specs::Productions::ElementSets::element_set_names))]
impl Tagged for ElementSetNames {
    ghost place = { element_set_names };

    fn has(tag: Tag) -> bool {
        tag == Tag::context(0) || tag == Tag::context(1)
    }

    fn of_element(alloc: Global, node: &Node) -> Result<Self, PartError> {
        if node.tag == Tag::context(0) {
            let name = Bytes::of_node(alloc, node)?;
            return Ok(ElementSetNames::Generic(name));
        }
        if node.tag == Tag::context(1) {
            let names = Seq::of_node(alloc, node)?;
            return Ok(ElementSetNames::DatabaseSpecific(names));
        }
        Err(PartError::Misfit)
    }

    fn to_element(&self, alloc: Global) -> Result<Node, BuildError> {
        match self {
            ElementSetNames::Generic(name) => name.to_node(alloc, Tag::context(0)),
            ElementSetNames::DatabaseSpecific(names) => names.to_node(alloc, Tag::context(1)),
        }
    }
}
