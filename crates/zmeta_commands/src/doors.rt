//! Addresses to listen at.
ghost use Rattle.std.specs.Prelude.{ℕ, List, IfOk, IfErr};

use std::io;
use std::io::{Read, Write};
use std::net::{OpenListener, OpenStream, TcpListener, TcpStream};

/// The addresses that a system can listen at.
pub trait Doors {
    /// The stream of a client.
    type Client: Read + Write + OpenStream + Drop;

    /// A listening socket.
    type Door: OpenListener<Stream = Self::Client> + Drop;

    /// The socket listens at this address.
    ghost IsAt: { Self.Door → List ℕ → Type 0 };

    /// Nothing can listen at this address.
    ghost IsShut: { Self → List ℕ → Type 0 };

    /// Listens at an address, as `host:port`.
    fn listen(&self, address: &str) -> io::Result<Self::Door>
        ensures open { IfOk result (λ door. IsAt door address.now) }
        ensures shut { IfErr result (λ _. IsShut self.now address.now) };
}

/// The kit does not say where a socket listens, so no address is known.
impl Doors for HostRuntime {
    type Client = TcpStream;

    type Door = TcpListener;

    ghost IsAt = { λ _ _. Unit {0} };

    ghost IsShut = { λ _ _. Unit {0} };

    fn listen(&self, address: &str) -> io::Result<TcpListener> {
        TcpListener::bind(self, address)
    }
}
