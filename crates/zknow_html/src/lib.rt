//! What is known, as a page of HTML for people: a table of the catalogues, with what each found and why anything is
//! missing, and a table of the records, by position. The page has no script and loads nothing, and no text of a
//! stranger becomes markup in it.
#![tactic(auto)]

mod catalogues;
mod cells;
mod changes;
mod descriptions;
mod differences;
mod fields;
pub mod laws;
mod page;
mod records;
mod style;

pub use changes::{ChangedParts, print_change_page};
pub use page::print_html;
