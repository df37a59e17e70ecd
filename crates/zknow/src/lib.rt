//! Knowledge of the targets' result sets: facts, joins, the printed list and its rows, and the saved file.
#![tactic(auto)]

mod encoding;
mod fact;
mod fact_order;
mod found_diags;
mod knowledge;
pub mod laws;
mod list;
mod saved;
mod tables;

pub use fact::{Fact, Known, Names};
pub use knowledge::Knowledge;
pub use list::{print_list, put_name, put_natural};
pub use saved::loading::{LoadError, load};
pub use saved::saving::{SaveError, save};
pub use tables::join::Join;
pub use tables::keys::{RowKey, SetKey};
pub use zber::Mode;
