//! The origin: which calls are admitted, the requests that are sent for them, and which replies are accepted.
#![tactic(auto)]

mod admitting;
mod answer;
mod calls;
mod fitting;
pub mod laws;
mod origin;
mod range;
mod reference;
mod refusal;
mod refusing;
mod replies;
mod request;
mod sending;
mod settings;
mod state;

pub use answer::{Answer, Asked, Sent, Taken, What};
pub use fitting::records_in;
pub use origin::Origin;
pub use range::{first_of, natural};
pub use refusal::{CallRefused, Refused};
pub use settings::{Ask, Settings};
pub use state::State;
pub use zplan::Range;
