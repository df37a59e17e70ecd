//! Which actions a connection may ask for, by the sockets that it has.
use crate::asking::fault::Fault;
use std::alloc::Global;
use zoom_asking::{Report, Task};

/// The socket of an attempt to connect.
#[derive(Clone, Copy)]
enum Socket {
    /// The attempt was not begun.
    Ahead,
    /// The attempt was begun.
    Open,
    /// The system had no socket for it.
    Waiting,
    /// The attempt failed.
    Failed,
    /// It has connected.
    Connected,
    /// It was closed.
    Left,
}

/// The sockets of a connection, and what was asked for.
#[derive(Drop)]
pub(crate) struct Conduct {
    sockets: Vec<Socket>,
    /// The attempt that connected.
    connected: Option<usize>,
    /// Whether its octets are wanted.
    pub(crate) reads: bool,
    /// Whether it has connected and was left.
    left: bool,
}

impl Conduct {
    /// No attempt was begun.
    pub(crate) fn new(alloc: Global, addresses: usize) -> Result<Conduct, Fault> {
        Ok(Conduct {
            sockets: vec![in alloc; Socket::Ahead; addresses]?,
            connected: None,
            reads: false,
            left: false,
        })
    }

    fn socket(&self, k: usize) -> Option<Socket> {
        self.sockets.get(k).copied()
    }

    fn put(&mut self, k: usize, socket: Socket) {
        if let Some(place) = self.sockets.get_mut(k) {
            *place = socket;
        }
    }

    /// Whether it has connected and goes on.
    fn is_talking(&self) -> bool {
        self.connected.is_some() && !self.left
    }

    fn connect(&mut self, k: usize) -> bool {
        let socket = self.socket(k);
        let may = matches!(socket, Some(Socket::Ahead) | Some(Socket::Waiting));
        self.put(k, Socket::Open);
        may && self.connected.is_none()
    }

    fn leave(&mut self, k: usize) -> bool {
        let socket = self.socket(k);
        let may = matches!(socket, Some(Socket::Open) | Some(Socket::Connected));
        self.left = self.left || self.connected == Some(k);
        self.put(k, Socket::Left);
        may
    }

    fn read(&mut self) -> bool {
        let may = self.is_talking() && !self.reads;
        self.reads = true;
        may
    }

    /// Notes what is to be done. Returns whether that may be asked for.
    pub(crate) fn note_task(&mut self, task: Task) -> bool {
        match task {
            Task::Connect(k) => self.connect(k),
            Task::Leave(k) => self.leave(k),
            Task::Send => self.is_talking(),
            Task::Read => self.read(),
        }
    }

    /// Notes the end of an attempt, if it is open. Returns whether it was.
    fn note_attempt(&mut self, k: usize, socket: Socket) -> bool {
        let was_open = matches!(self.socket(k), Some(Socket::Open));
        if was_open {
            self.put(k, socket);
        }
        was_open
    }

    fn note_connected(&mut self, k: usize) -> bool {
        let was_open = self.note_attempt(k, Socket::Connected);
        if was_open {
            self.connected = Some(k);
        }
        was_open
    }

    /// Notes what happened. Returns whether a caller with these sockets could see it.
    pub(crate) fn note_report(&mut self, report: Report) -> bool {
        match report {
            Report::Resolved(_) => true,
            Report::Connected(k) => self.note_connected(k),
            Report::Unreachable(k) => self.note_attempt(k, Socket::Failed),
            Report::NoSocket(k) => self.note_attempt(k, Socket::Waiting),
            _ => self.is_talking(),
        }
    }

    /// Whether octets can come.
    pub(crate) fn is_open(&self) -> bool {
        self.is_talking()
    }

    /// Whether each socket that was open is closed.
    pub(crate) fn is_clean(&self) -> bool {
        for socket in &self.sockets {
            if matches!(socket, Socket::Open | Socket::Connected) {
                return false;
            }
        }
        true
    }
}
