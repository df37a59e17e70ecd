//! The names of hosts, and when each is to be resolved.
ghost use Rattle.std.specs.Prelude.{◌≡◌, [], IfOk, IfSome, OnOk};
ghost use Rattle.zoom_tcp.specs.Families.{AreUsed};

use crate::limits::Family;
use crate::notice::of_name;
use bytes::Bytes;
use indexmap::IndexMap;
use std::alloc::{AllocError, Global};
use std::net::{Net, SocketAddr, ToSocketAddrs};
use zoom_trace::Notice;

/// How long hosts with an address in numbers are served before the first name is looked up, in nanoseconds.
const FIRST_PAUSE: u64 = 500_000_000;

/// The names that are to be resolved, each once, in the order in which they came first. A look-up waits, and nobody is
/// served meanwhile. So before it, and after it for as long as it took, the hosts that were found before are served.
#[derive(Drop)]
pub(crate) struct Names {
    alloc: Global,
    /// Each name, `host:port`, and the connections to it.
    names: IndexMap<Bytes, Vec<u32>>,
    /// How many of them were looked up.
    done: usize,
    /// When the next look-up is due at the latest, in nanoseconds.
    due_at: u64,
}

impl Names {
    /// No names. The first look-up is due half a second after `now`.
    pub(crate) fn new(alloc: Global, now: u64) -> Names {
        Names {
            alloc,
            names: IndexMap::new(alloc),
            done: 0,
            due_at: now.saturating_add(FIRST_PAUSE),
        }
    }

    /// Adds the name of a connection's host.
    pub(crate) fn put(&mut self, c: u32, name: Bytes) -> Result<(), AllocError> {
        if let Some(connections) = self.names.get_mut(&name) {
            connections.push(c)?;
            return Ok(());
        }
        let connections = vec![in self.alloc; c]?;
        self.names.insert(name, connections)?;
        Ok(())
    }

    /// When the next name is to be looked up, if there is one: at once if nobody is to be served.
    pub(crate) fn due_at(&self, is_idle: bool) -> Option<u64> {
        if self.done >= self.names.len() {
            return None;
        }
        Some(if is_idle { 0 } else { self.due_at })
    }

    /// The next name and the connections to it.
    pub(crate) fn next(&self) -> Result<Option<(Bytes, Vec<u32>)>, AllocError> {
        match self.names.get_index(self.done) {
            Some((name, connections)) => Ok(Some((name.clone()?, connections.clone()?))),
            None => Ok(None),
        }
    }

    /// The next name was looked up, from `before` until `now`.
    pub(crate) fn pass(&mut self, before: u64, now: u64) {
        self.done = self.done.saturating_add(1);
        self.due_at = now.saturating_add(now.saturating_sub(before));
    }
}

/// The addresses that were found for a name, and what is noticed if there are none.
#[derive(Drop)]
pub(crate) struct Found {
    pub(crate) addresses: Vec<SocketAddr>,
    pub(crate) notice: Notice,
}

/// No addresses, for this reason.
fn none_for(alloc: Global, notice: Notice) -> Found
    ensures { result.addresses.items ≡ [] }
{
    Found {
        addresses: Vec::new(alloc),
        notice,
    }
}

/// The addresses of a name that is one in numbers: itself, or none if it is not used. `None` if it is another name.
pub(crate) fn addresses_in(
    alloc: Global,
    name: &[u8],
    family: Family,
) -> Result<Option<Found>, AllocError>
    ensures { IfOk result (λ found. IfSome found (λ it. AreUsed family it.addresses.items)) }
{
    let Some(address) = address_in(name) else {
        return Ok(None);
    };
    let mut found = none_for(alloc, Notice::NoFamily);
    push_used(&mut found.addresses, family, address)?;
    Ok(Some(found))
}

/// The address that stands for itself, if the name is one in numbers.
fn address_in(name: &[u8]) -> Option<SocketAddr> {
    str::from_utf8(name).ok()?.parse::<SocketAddr>().ok()
}

/// Adds an address, if it is used.
fn push_used(
    addresses: &mut Vec<SocketAddr>,
    family: Family,
    address: SocketAddr,
) -> Result<(), AllocError>
    requires used { AreUsed family addresses.old.items }
    ensures used { OnOk result (AreUsed family addresses.new.items) }
{
    if family.has(&address) {
        addresses.push(address)?;
    }
    Ok(())
}

/// The used addresses of a name, `host:port`, in the order in which to try them. There are none if it is not known. It
/// waits for the system's name service.
pub(crate) fn resolve<N: Net>(
    alloc: Global,
    net: &N,
    name: &[u8],
    family: Family,
) -> Result<Found, AllocError>
    ensures { IfOk result (λ found. AreUsed family found.addresses.items) }
{
    let Ok(text) = str::from_utf8(name) else {
        return Ok(none_for(alloc, Notice::NoName));
    };
    let addresses = match text.to_socket_addrs(net) {
        Ok(addresses) => addresses,
        Err(error) => return Ok(none_for(alloc, of_name(&error))),
    };
    let mut found = none_for(alloc, Notice::NoFamily);
    for address in addresses {
        push_used(&mut found.addresses, family, address)?;
    }
    Ok(found)
}
