//! The interface of a client, whole (Z39.50-2003, 3.2 and 3.4; the calls of ZOOM): connections to targets in one pool,
//! result sets, what drives connections for questions, worlds in memory, talks over devices, and sockets.
//!
//! It has no code of its own: the members of the family have it, each proved by itself, and this hands it out.
#![tactic(auto)]

pub mod laws;

pub use zoom_asking::{Action, AskedHost, Asking, Manner, Report, Task};
pub use zoom_io::{
    AnswerError, Counting, Failed, PushError, Sink, Source, TalkError, answer, push, talk,
};
pub use zoom_pool::{Call, Host, Meta, Pool, Reason, ResultSet, State, Step, TakeError};
pub use zoom_questions::{MetaSettings, Move, Question};
pub use zoom_sim::channels::{Channel, InMemory};
pub use zoom_sim::{run_over, run_world};
pub use zoom_tcp::{
    Arrival, Asked, Clients, Family, HostWaits, Limits, ServeError, TcpClients, TcpLink, Unwatched,
    Watch, ask, run_loopback, serve, serve_over,
};
pub use zoom_trace::{
    EntryError, Given, Notice, Recorder, Trace, TraceEntry, TraceError, Traced, Tracer, feed,
    notices, put_entry, read_entry, read_trace, replay,
};
