//! The limits of asking hosts.
ghost use Rattle.std.specs.Prelude.{◌≡◌, ◌*◌, ◌^◌, ◌-◌, ◌<◌, min, true, false, Some};
ghost use Rattle.std.specs.Duration.{as_nanos};
ghost use Rattle.zoom_tcp.specs.Asking.{nanos, total_of, asked_host, limits_for, limits_at};
ghost use Rattle.zoom_tcp.specs.Families.{is_used};

use std::net::SocketAddr;
use std::time::Duration;
use zoom_asking::AskedHost;

/// Which addresses of hosts are used.
#[derive(Clone, Copy, PartialEq, Eq)]
pub enum Family {
    /// All.
    Any,
    /// Those of IPv4 alone.
    V4,
    /// Those of IPv6 alone.
    V6,
}

impl Family {
    /// Whether an address is used.
    pub(crate) fn has(&self, address: &SocketAddr) -> bool
        ensures { result ≡ is_used self.now address.now }
    {
        match self {
            Family::Any => true,
            Family::V4 => address.is_ipv4(),
            Family::V6 => address.is_ipv6(),
        }
    }
}

/// The limits of asking hosts.
#[derive(Clone, Copy, PartialEq, Eq)]
pub struct Limits {
    /// The longest time for connecting to a host, from when its addresses are known.
    pub connect: Duration,
    /// The longest time that a host may be silent.
    pub patience: Duration,
    /// The longest time for everything, from the first look-up of a name on. `None` sets no limit.
    pub total: Option<Duration>,
    /// Which addresses of hosts are used.
    pub family: Family,
}

/// The waiting times that a host has of its own. `None`: it has none, and `Limits` hold.
#[derive(Clone, Copy, PartialEq, Eq)]
pub struct HostWaits {
    /// The longest time for connecting to the host, from when its addresses are known.
    pub connect: Option<Duration>,
    /// The longest time that the host may be silent.
    pub patience: Option<Duration>,
}

impl Default for Limits {
    /// 30 seconds for connecting and of silence, an hour for everything, and all addresses.
    fn default() -> Limits {
        Limits {
            connect: Duration::from_secs(30),
            patience: Duration::from_secs(30),
            total: Some(Duration::from_secs(3600)),
            family: Family::Any,
        }
    }
}

impl Limits {
    /// The limits of the host of connection `c`: the times at index `c` of `waits` that are some, else these.
    pub fn at(&self, waits: &[HostWaits], c: usize) -> Limits
        ensures { result ≡ limits_at self.now waits.now c }
    {
        match waits.get(c) {
            Some(own) => self.with(own),
            None => *self,
        }
    }

    /// The limits of a host with these waiting times of its own.
    fn with(&self, own: &HostWaits) -> Limits
        ensures { result ≡ limits_for self.now (Some own.now) }
    {
        Limits {
            connect: own.connect.unwrap_or(self.connect),
            patience: own.patience.unwrap_or(self.patience),
            ..*self
        }
    }

    /// How long to wait for a host with these limits.
    pub(crate) fn of_host(&self) -> AskedHost
        ensures { result ≡ asked_host self.now }
    {
        AskedHost {
            connect: nanos(self.connect),
            patience: nanos(self.patience),
        }
    }

    /// How long everything may take, in nanoseconds.
    pub(crate) fn total_nanos(&self) -> Option<u64>
        ensures { result ≡ total_of self.now }
    {
        match self.total {
            Some(total) => Some(nanos(total)),
            None => None,
        }
    }
}

/// A span of time in nanoseconds. One of more than 584 years counts as `u64::MAX`.
pub(crate) fn nanos(span: Duration) -> u64
    ensures { result ≡ nanos span }
{
    let count = span.as_nanos();
    if count < 18_446_744_073_709_551_615 {
        count as u64
    } else {
        u64::MAX
    }
}
