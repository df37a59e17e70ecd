//! The positions that are not yet cut into lists.
ghost use Rattle.std.specs.Prelude.{◌≡◌, IfOk};
ghost use Rattle.zplan.specs.Schedules.{IsUncut, IsCutOf, after_cut};

use crate::part::{Place, next_list, next_run};
use crate::span::Span;
use std::alloc::{AllocError, Global};

/// The wanted ranges up to the count, and the place of the next list.
#[derive(Drop)]
pub struct Uncut {
    /// The ranges, ascending.
    pub ranges: Vec<Span>,
    /// Where the next list begins.
    pub place: Place,
    /// How many positions the list at the place may still have.
    pub room: u32,
    /// How many positions a list has.
    pub step: u32,
    /// Whether version 3 is in force.
    pub three: bool,
}

/// A list that was cut off, and the place after it.
#[derive(Drop)]
pub struct Cut {
    /// The list.
    pub list: Vec<Span>,
    /// Where the next list begins.
    pub place: Place,
    /// How many positions the next list may have.
    pub room: u32,
}

impl Uncut {
    /// Returns the next list, or `None` if none is left. Returns `AllocError` if no memory is found.
    pub(crate) fn next(&self, alloc: Global) -> Result<Option<Cut>, AllocError>
        requires { IsUncut self.now }
        ensures { IfOk result (λ o. IsCutOf self.now o) }
    {
        if self.three {
            let (list, place) = next_list(alloc, &self.ranges, self.place, self.step)?;
            if list.is_empty() {
                return Ok(None);
            }
            return Ok(Some(Cut {
                list,
                place,
                room: self.room,
            }));
        }
        match next_run(&self.ranges, self.place, self.room, self.step) {
            Some(run) => {
                let mut list = Vec::new(alloc);
                list.push(run.range)?;
                Ok(Some(Cut {
                    list,
                    place: run.next,
                    room: run.room,
                }))
            }
            None => Ok(None),
        }
    }
}
