//! The file of a search as a history: each report with its time, and each action, as a line of JSON.
#![tactic(auto)]

mod cutting;
mod entry;
mod fault;
mod feeding;
mod history;
pub mod laws;
mod notice;
mod noticing;
mod reading;
mod recording;
mod tracing;
mod writing;

pub use entry::{Given, TraceEntry, Traced};
pub use fault::{EntryError, TraceError};
pub use feeding::{feed, replay};
pub use history::{Trace, read_trace};
pub use notice::Notice;
pub use noticing::notices;
pub use reading::read_entry;
pub use recording::Recorder;
pub use tracing::Tracer;
pub use writing::put_entry;
