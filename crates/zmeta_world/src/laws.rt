//! A law of world files. It is the contract of a function that does nothing.
ghost use Rattle.zmeta_world.specs.Plans.{PlanLaw};

use zquery::laws::{one_answer, one_lexing};

/// A world file, with one search put to its questions, has one network plan.
pub fn plan_law()
    ensures { PlanLaw }
{
    one_lexing();
    one_answer();
}
