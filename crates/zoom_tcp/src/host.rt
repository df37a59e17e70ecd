//! One host: its addresses, its sockets, and the octets that it has not taken yet.
use crate::socket::{Moved, Socket};
use std::alloc::{AllocError, Global};
use std::net::SocketAddr;
use zoom_trace::Notice;

/// A host: its addresses, its sockets, and the octets that it has not taken yet.
#[derive(Drop)]
pub(crate) struct Host {
    pub(crate) addresses: Vec<SocketAddr>,
    /// What was noticed of it last.
    noticed: Notice,
    /// How many attempts to connect failed.
    failed: usize,
    /// The sockets of attempts to connect, by the number of the address.
    sockets: Vec<Option<Socket>>,
    /// The attempt that has connected.
    pub(crate) connected: Option<usize>,
    /// Whether octets of it are wanted.
    pub(crate) is_wanted: bool,
    /// Octets to be sent, of which so many were.
    pub(crate) unsent: Vec<u8>,
    sent: usize,
}

impl Host {
    /// A host of which nothing is known.
    pub(crate) fn new(alloc: Global) -> Host {
        Host {
            addresses: Vec::new(alloc),
            noticed: Notice::Nothing,
            failed: 0,
            sockets: Vec::new(alloc),
            connected: None,
            is_wanted: false,
            unsent: Vec::new(alloc),
            sent: 0,
        }
    }

    /// Notes what was noticed.
    pub(crate) fn note(&mut self, notice: Notice) {
        self.noticed = notice;
    }

    /// Notes that an attempt to connect failed.
    pub(crate) fn note_attempt(&mut self, notice: Notice) {
        self.failed = self.failed.saturating_add(1);
        self.noticed = notice;
    }

    /// What was noticed last. While attempts are left, those that failed tell nothing.
    pub(crate) fn notice(&self) -> Notice {
        match self.noticed {
            Notice::Refused | Notice::NoRoute if self.failed < self.addresses.len() =>
                Notice::Nothing,
            notice => notice,
        }
    }

    /// The socket of an attempt.
    pub(crate) fn socket(&mut self, k: usize) -> Option<&mut Socket> {
        self.sockets.get_mut(k)?.as_mut()
    }

    /// Keeps the socket of an attempt.
    pub(crate) fn put(&mut self, k: usize, socket: Socket) -> Result<(), AllocError> {
        while self.sockets.len() <= k {
            self.sockets.push(None)?;
        }
        if let Some(place) = self.sockets.get_mut(k) {
            *place = Some(socket);
        }
        Ok(())
    }

    /// Closes the socket of an attempt. Returns whether there was one.
    pub(crate) fn close(&mut self, k: usize) -> bool {
        if self.connected == Some(k) {
            self.connected = None;
            self.unsent.clear();
            self.sent = 0;
        }
        match self.sockets.get_mut(k) {
            Some(place) => place.take().is_some(),
            None => false,
        }
    }

    /// Whether octets wait to be sent.
    fn has_unsent(&self) -> bool {
        self.sent < self.unsent.len()
    }

    /// Whether the socket of an attempt is ready for octets that wait to be sent.
    pub(crate) fn is_to_write(&self, k: usize) -> bool {
        match self.sockets.get(k) {
            Some(Some(socket)) => socket.is_writable && self.has_unsent(),
            _ => false,
        }
    }

    /// Whether octets of the socket of an attempt are wanted, and may have come.
    pub(crate) fn is_to_read(&self, k: usize) -> bool {
        match self.sockets.get(k) {
            Some(Some(socket)) => socket.is_readable && self.is_wanted,
            _ => false,
        }
    }

    /// Writes what waits on the socket that has connected.
    pub(crate) fn write(&mut self, k: usize) -> Moved {
        let Some(Some(socket)) = self.sockets.get_mut(k) else {
            return Moved::Nothing;
        };
        let rest = self.unsent.as_slice().get(self.sent..).unwrap_or(&[]);
        let moved = socket.write(rest);
        match moved {
            Moved::Octets(count) => self.sent = self.sent.saturating_add(count),
            Moved::Failure => self.sent = self.unsent.len(),
            _ => {}
        }
        if self.sent >= self.unsent.len() {
            self.unsent.clear();
            self.sent = 0;
        }
        moved
    }
}
