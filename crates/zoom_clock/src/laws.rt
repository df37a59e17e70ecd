//! Laws of every history of one connection. Each is the contract of a function that does nothing.
ghost use Rattle.zoom_clock.specs.Laws.{EarlyLaws, LateLaws, WakeLaws, SettledLaw, AttemptLaws, LeaveLaw, TurnLaw, TimesLaw};

/// Nobody is given up early: how a connection ended was told, or the time had come.
pub fn early_laws()
    ensures { EarlyLaws }
{}

/// Nobody is waited for too long: after a tick, no time of the connection has come.
pub fn late_laws()
    ensures { LateLaws }
{}

/// A tick before the time to wake changes nothing; one from then on ends the connection, or begins an attempt. After a
/// tick the time to wake is later than the tick.
pub fn wake_laws()
    ensures { WakeLaws }
{}

/// A connection that is over stays so, whatever is told of it.
pub fn settled_law()
    ensures { SettledLaw }
{}

/// Each address is tried, in order and once, unless one before it has connected, or a time has come.
pub fn attempt_laws()
    ensures { AttemptLaws }
{}

/// No socket of a connection that is over is kept.
pub fn leave_law()
    ensures { LeaveLaw }
{}

/// Octets are wanted only of a connection whose turn has come.
pub fn turn_law()
    ensures { TurnLaw }
{}

/// The next attempt is due after 250 milliseconds; a connection that has all it wanted may be silent for two seconds.
pub fn times_law()
    ensures { TimesLaw }
{}
