//! Ranges of records of a result set.
ghost use Rattle.zapdu.specs.Productions.Ranges.{range_parts, whole_range};

use std::alloc::Global;
use zasn::{BuildError, PartError, Parts, PartsBuf, Production, Tagged, read_within, write_within};
use zber::{Node, Tag};

/// Successive records of a result set (Z39.50-2003, 4.1: Range).
#[derive(Drop)]
pub struct Range {
    /// The first record's position; the set's first is 1.
    pub starting_position: i64,
    /// How many records.
    pub number_of_records: i64,
}

#[tactic(auto, unfolding(crate::specs::Productions::Ranges::range_parts))]
impl Production for Range {
    ghost table = { range_parts };

    fn read(alloc: Global, parts: &mut Parts<'_>) -> Result<Self, PartError> {
        let starting_position = parts.required(alloc, Tag::context(1))?;
        let number_of_records = parts.required(alloc, Tag::context(2))?;
        parts.end()?;
        Ok(Range {
            starting_position,
            number_of_records,
        })
    }

    fn write(&self, alloc: Global, out: &mut PartsBuf) -> Result<(), BuildError> {
        out.required(alloc, Tag::context(1), &self.starting_position)?;
        out.required(alloc, Tag::context(2), &self.number_of_records)
    }
}

impl Tagged for Range {
    ghost place = { whole_range };

    fn has(tag: Tag) -> bool {
        tag == Tag::universal(16)
    }

    fn of_element(alloc: Global, node: &Node) -> Result<Self, PartError> {
        read_within(alloc, node)
    }

    fn to_element(&self, alloc: Global) -> Result<Node, BuildError> {
        write_within(alloc, self, Tag::universal(16))
    }
}
