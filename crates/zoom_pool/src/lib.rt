//! Connections to targets, and what their replies make known. Nothing here does input or output.
#![tactic(auto)]

mod call;
mod connection;
mod driver;
pub mod driving;
mod host;
pub mod laws;
mod learning;
mod meta;
mod phase;
mod pool;
mod processing;
mod receiving;
mod result_set;
mod state;
mod step;
mod take;
mod waiting;

pub use call::Call;
pub use host::Host;
pub use meta::Meta;
pub use pool::Pool;
pub use result_set::ResultSet;
pub use state::{Reason, State};
pub use step::{Step, TakeError};
pub use zoom_questions::{MetaSettings, Move, Question};
