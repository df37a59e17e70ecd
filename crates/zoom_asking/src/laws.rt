//! Laws of every history of an inquiry. Each is the contract of a function that does nothing.
ghost use Rattle.zoom_asking.specs.Laws.{OwnLaw, CourseLaw, IsolationLaw, EndLaws, AskedLaws, AskedEndLaw, GivenUpLaw, PiecesLaw};

use zoom_pool::driving::driven_laws;
use zoom_pool::laws::{one_input, one_transcript};
use zplan::laws::number_law;

/// At once, what becomes of a connection is a function of the reports of it and of the times that passed.
pub fn own_law()
    ensures { OwnLaw }
{}

/// The clock rules the course of each connection, so the laws of the clock hold of it.
pub fn course_law()
    ensures { CourseLaw }
{}

/// Hosts do not touch one another: at once, the same becomes of a connection of which the same was reported, whatever
/// others do.
pub fn isolation_law()
    ensures { IsolationLaw }
{
    number_law();
    driven_laws();
    one_input();
    one_transcript();
}

/// A connection that is over is Closed or Failed; one that was not chosen has no events.
pub fn end_laws()
    ensures { EndLaws }
{
    one_input();
}

/// In any manner a connection has a history of its own. If it is over, it is Closed or Failed; if it was not chosen, it
/// has no events.
pub fn asked_laws()
    ensures { AskedLaws }
{
    end_laws();
}

/// Once each connection is over, those that were chosen are Closed or Failed, and the others have no events.
pub fn asked_end_law()
    ensures { AskedEndLaw }
{
    asked_laws();
}

/// After all were given up, each connection is over.
pub fn given_up_law()
    ensures { GivenUpLaw }
{}

/// In order, a connection stops for `Turns` after 1,000,000 pieces.
pub fn pieces_law()
    ensures { PiecesLaw }
{}
