//! Devices that octets are read from and written to, with their failures counted.
#![tactic(auto)]

mod device;
mod stream;

pub use device::{Failed, Sink, Source};
pub use stream::Counting;
