//! What is told of records beside their text.
ghost use Rattle.std.specs.Prelude.{[]};
ghost use Rattle.zknow_forms.specs.Forms.{IsTold};
ghost use Rattle.zknow_forms.specs.declared.form.Form.{Form};

use std::alloc::Global;
use std::collections::BTreeMap;
use zknow::SetKey;
use zknow_records::LeftOut;
use zknow_titles::Widths;

/// What is told of records beside their text.
#[derive(Drop)]
pub struct Tally {
    /// What was left out of the octets; nothing in other forms.
    pub left: LeftOut,
    /// The columns that the rows of the view need; 0 in other forms.
    pub widths: Widths,
    /// At how many positions of each set a record is shown in the view; a set without an entry has no such position.
    /// Empty in other forms.
    pub filled: BTreeMap<SetKey, u64>,
}

impl Tally {
    /// Returns what is told of no facts, in any form.
    pub fn new(alloc: Global) -> Tally
        ensures { (form : Form) → IsTold form [] result }
    {
        Tally {
            left: LeftOut::default(),
            widths: Widths::default(),
            filled: BTreeMap::new(alloc),
        }
    }
}
