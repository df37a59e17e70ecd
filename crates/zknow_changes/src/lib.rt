//! What one saved file has that an earlier one has not: the records that are new, changed or gone, of each catalogue by
//! its name. Records are compared by their contents and by their own control numbers, not by their positions.
#![tactic(auto)]

mod between;
mod held;
mod index;
mod lists;
mod numbers;
mod parts;

pub use between::{Change, ChangeKind, changes};
pub use held::{Catalogue, Held};
pub use lists::{names_for, print_changes};
pub use parts::{count_part, news_of, part_of};
