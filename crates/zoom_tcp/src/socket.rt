//! One socket, read and written without waiting.
use crate::notice::of_attempt;
use libc::net as c;
use mio::event::Event;
use mio::net::TcpStream;
use std::io;
use std::io::{ErrorKind, Read, Write};
use std::os::fd::{AsRawFd, RawFd};
use zoom_trace::Notice;

/// What moving octets gave.
#[derive(Clone, Copy, PartialEq, Eq)]
pub(crate) enum Moved {
    /// So many octets were moved.
    Octets(usize),
    /// Nothing could be moved yet. The change will be reported.
    Nothing,
    /// No more octets come.
    End,
    /// The socket failed.
    Failure,
}

/// How an attempt to connect stands.
#[derive(Clone, Copy, PartialEq, Eq)]
pub(crate) enum Progress {
    Connected,
    Pending,
    Failed(Notice),
}

/// A socket, and what it was reported to be ready for.
#[derive(Drop)]
pub(crate) struct Socket {
    stream: TcpStream,
    pub(crate) is_connected: bool,
    /// Octets may have come, or their end.
    pub(crate) is_readable: bool,
    /// Octets may be taken.
    pub(crate) is_writable: bool,
    /// No more octets come than have come.
    is_closed: bool,
    /// Octets were read of it, and none was written since.
    is_unanswered: bool,
    /// It is to be served.
    pub(crate) is_queued: bool,
}

/// Has the system acknowledge at once what came (`TCP_QUICKACK`).
fn acknowledge(fd: RawFd) {
    let mut on = [0u8; 16];
    on[..4].copy_from_slice(&1i32.to_ne_bytes());
    let _ = unsafe { c::setsockopt(fd, c::IPPROTO_TCP, c::TCP_QUICKACK, &on, 4) };
}

/// The result of a call of a socket.
fn moved_by(moved: io::Result<usize>) -> Moved {
    match moved {
        Ok(count) => Moved::Octets(count),
        Err(error) => match error.kind() {
            ErrorKind::WouldBlock | ErrorKind::Interrupted => Moved::Nothing,
            _ => Moved::Failure,
        },
    }
}

impl Socket {
    /// A socket that connects.
    pub(crate) fn new(stream: TcpStream) -> Socket {
        Socket {
            stream,
            is_connected: false,
            is_readable: false,
            is_writable: false,
            is_closed: false,
            is_unanswered: false,
            is_queued: false,
        }
    }

    /// Notes what the socket is ready for by an event.
    pub(crate) fn note(&mut self, event: &Event) {
        let fails = event.is_error() || event.is_write_closed();
        self.is_closed = self.is_closed || event.is_read_closed() || fails;
        self.is_readable = self.is_readable || event.is_readable() || self.is_closed;
        self.is_writable = self.is_writable || event.is_writable() || fails;
    }

    /// How the attempt to connect stands.
    pub(crate) fn progress(&self) -> Progress {
        match self.stream.take_error() {
            Ok(None) => {}
            Ok(Some(error)) | Err(error) => return Progress::Failed(of_attempt(&error)),
        }
        match self.stream.peer_addr() {
            Ok(_) => Progress::Connected,
            Err(error) if error.kind() == ErrorKind::NotConnected => Progress::Pending,
            Err(error) => Progress::Failed(of_attempt(&error)),
        }
    }

    /// Reads octets into the front of `piece`, without waiting. `piece` has room for some.
    pub(crate) fn read(&mut self, piece: &mut [u8]) -> Moved {
        let moved = moved_by(self.stream.read(piece));
        match moved {
            Moved::Octets(0) => {
                self.is_readable = false;
                Moved::End
            }
            Moved::Octets(count) => {
                self.is_readable = count >= piece.len() || self.is_closed;
                self.is_unanswered = true;
                moved
            }
            _ => {
                self.is_readable = false;
                moved
            }
        }
    }

    /// Has the system acknowledge what was read, unless octets that were written since do so. Otherwise a host that
    /// holds back small writes until the acknowledgement stalls for 40 milliseconds.
    pub(crate) fn acknowledge(&mut self) {
        if self.is_unanswered {
            self.is_unanswered = false;
            acknowledge(self.stream.as_raw_fd());
        }
    }

    /// Writes a front of the octets, without waiting.
    pub(crate) fn write(&mut self, octets: &[u8]) -> Moved {
        let moved = moved_by(self.stream.write(octets));
        match moved {
            Moved::Octets(count) if count > 0 => {
                self.is_unanswered = false;
                moved
            }
            Moved::Failure => moved,
            _ => {
                self.is_writable = false;
                Moved::Nothing
            }
        }
    }
}
