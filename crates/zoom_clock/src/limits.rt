//! How long to wait.
ghost use Rattle.std.specs.Prelude.{◌≡◌, ℕ, ◌+◌, min, nat_le};
ghost use Rattle.zoom_clock.specs.Times.{IsTime, total_end};

/// How long to wait for a connection, in nanoseconds.
#[derive(Clone, Copy, PartialEq, Eq)]
pub struct Limits {
    /// From when its name was resolved until it has connected.
    pub connect: u64,
    /// From its last sign of life, or from when it was first listened to, until the next sign.
    pub patience: u64,
    /// From the start until it is over, if that has a limit.
    pub total: Option<u64>,
    /// How many pieces of octets may come before it is over, if that has a limit.
    pub pieces: Option<u32>,
}

/// The time that is `by` later than `time`, or `None` if no clock gets there.
pub(crate) fn later(time: u64, by: u64) -> Option<u64>
    ensures { IsTime (time + by) result }
{
    if by <= u64::MAX - time {
        Some(time + by)
    } else {
        None
    }
}

/// The earlier of two times, each `None` if no clock gets there.
pub(crate) fn earlier_of(a: Option<u64>, b: Option<u64>) -> Option<u64>
    ensures { (x y : ℕ) → IsTime x a → IsTime y b → IsTime (min x y) result }
{
    match a {
        None => b,
        Some(x) => match b {
            None => Some(x),
            Some(y) => Some(if x < y { x } else { y }),
        },
    }
}

/// When the total that began at `start` is over. `None` if there is none, or no clock gets there.
pub(crate) fn total_end(total: Option<u64>, start: u64) -> Option<u64>
    ensures { IsTime (total_end total start) result }
{
    match total {
        None => None,
        Some(total) => later(start, total),
    }
}

/// Whether the time has come.
pub(crate) fn has_come(time: Option<u64>, now: u64) -> bool
    ensures { (t : ℕ) → IsTime t time → result ≡ nat_le t now }
{
    match time {
        Some(t) => t <= now,
        None => false,
    }
}
