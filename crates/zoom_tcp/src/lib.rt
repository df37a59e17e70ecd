//! Asks catalogues over TCP, and serves catalogues over TCP, with time limits.
#![tactic(auto)]

mod asking;
mod clients;
mod failures;
mod host;
pub mod laws;
mod limits;
mod link;
mod loopback;
mod names;
mod notice;
mod ready;
mod service;
mod socket;
mod sockets;
mod stopwatch;
mod telling;
mod waking;
mod watch;

pub use asking::{Asked, ask};
pub use clients::{Arrival, Clients, TcpClients};
pub use limits::{Family, HostWaits, Limits};
pub use link::TcpLink;
pub use loopback::run_loopback;
pub use service::{ServeError, serve, serve_over};
pub use watch::{Unwatched, Watch};
