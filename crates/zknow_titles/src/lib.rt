//! A view of what is known for people: a line for each catalogue, also for one that stopped, and one or more for each
//! position, with the years and titles of the records there, or with the whole records. Whatever the records are, the
//! text is safe to print on a terminal.
#![tactic(auto)]

mod blocks;
mod characters;
mod columns;
mod conditions;
mod diagnostics;
mod entries;
mod filled;
mod heads;
pub mod laws;
mod names;
mod parts;
mod rows;
mod sutrs;
mod titles;
mod wholes;

pub use blocks::{
    count_shown, counts_of, put_failure, put_joined, put_requests, records_of, show_numbers,
    show_search,
};
pub use entries::{Entry, entry_with, opac_of};
pub use filled::{Filled, count_filled};
pub use heads::show_stop;
pub use names::{label_of, name_of, show_names};
pub use parts::{print_title_head, print_title_rows};
pub use rows::{Widths, find_widths, wider};
pub use titles::{print_fields, print_titles};
pub use wholes::{Extent, lines_with};
