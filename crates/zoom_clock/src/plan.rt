//! How one connection is to be asked.
ghost use Rattle.std.specs.Prelude.{◌≡◌};
ghost use Rattle.zoom_clock.specs.Plans.{planned};

use crate::course::Course;
use crate::limits::Limits;

/// How one connection is to be asked.
#[derive(Clone, Copy, PartialEq, Eq)]
pub struct Plan {
    pub limits: Limits,
    /// Whether it is asked.
    pub chosen: bool,
}

/// The course of a connection at the start.
pub(crate) fn first_course(plan: Plan, start: u64, wanted: bool) -> Course
    ensures { result ≡ planned start wanted plan }
{
    Course::new(plan.limits, plan.chosen, start, wanted)
}
