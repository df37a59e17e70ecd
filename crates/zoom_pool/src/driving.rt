//! Laws of connections that are driven for a question.
ghost use Rattle.zoom_pool.specs.Driving.{DrivenLaws};
ghost use Rattle.zoom_pool.specs.Due.{DueLaws};

use zorigin::laws::{orderly_logs, sendable_requests};
use zplan::laws::{bound_laws, number_law};

/// If each admitted call of a log was due, each accepted reply answers what was sent, once. Close aside, at most
/// two requests were sent, plus one for each wanted position up to the count.
pub fn driven_laws()
    ensures { DrivenLaws }
{
    orderly_logs();
    bound_laws();
}

/// The origin admits each call that is next. It admits the search too, unless the search is not offered or cannot
/// be sent.
pub fn due_laws()
    ensures { DueLaws }
{
    orderly_logs();
    bound_laws();
    number_law();
    sendable_requests();
    driven_laws();
}
