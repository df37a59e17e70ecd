//! Whose turn it is.
ghost use Rattle.zoom_clock.specs.Turns.{IsFirstOpen};

use crate::course::Course;

/// The first connection from `from` on that is neither over nor not chosen. If there is none, a number past the end.
pub(crate) fn first_open(courses: &[Course], from: usize) -> usize
    ensures { IsFirstOpen courses.now from result }
{
    for c in from..courses.len() {
        if !courses[c].is_settled() {
            return c;
        }
    }
    if from < courses.len() {
        courses.len()
    } else {
        from
    }
}
