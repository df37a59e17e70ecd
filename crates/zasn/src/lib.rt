//! Productions of ASN.1 over elements. A SEQUENCE is read place by place from a cursor, and built place by place.
#![tactic(auto)]

mod any;
mod build;
mod contents;
mod error;
mod own_parts;
mod owned;
mod parts;
mod production;
mod sequence_of;
mod texts;

pub use any::{read_any, sole, write_any, write_around};
pub use build::PartsBuf;
pub use contents::{Contents, Tagged};
pub use error::{BuildError, PartError};
pub use own_parts::OwnParts;
pub use owned::{
    Given, Taken, give_alone, give_alone_tagged, give_within, read_copies, take_alone,
    take_alone_tagged, take_any, take_within,
};
pub use parts::Parts;
pub use production::{
    Production, read_alone, read_alone_tagged, read_within, write_alone, write_alone_tagged,
    write_within,
};
pub use texts::{read_texts, write_texts};
