//! A form of facts, and their text in it.
ghost use Rattle.std.specs.Prelude.{◌≡◌, ◌↔◌, ◌+◌, ◌++◌, OnOk, IfOk, IsTrue, map, string_bytes};
ghost use Rattle.zknow_records.specs.Parts.{left_sum};
ghost use Rattle.zknow_titles.specs.Blocks.{filled_in, filled_at};
ghost use Rattle.zknow_titles.specs.Parts.{widest};
ghost use Rattle.zknow_titles.specs.Rows.{widths};
ghost use Rattle.zknow_titles.specs.Titles.{rows_of};
ghost use Rattle.zknow_forms.specs.Forms.{IsToldMore, IsAsTold, form_text, head_text};

use crate::tally::Tally;
use std::alloc::{AllocError, Global};
use std::collections::BTreeMap;
use zber::{Mode, Oid};
use zknow::{Knowledge, Names, SetKey, print_list};
use zknow_json::print_json;
use zknow_records::{LeftOut, write_records};
use zknow_titles::{
    Extent, Filled, Widths, count_filled, find_widths, print_title_head, print_title_rows,
};

/// A form of facts.
#[derive(Drop)]
pub enum Form {
    /// The octets of records, as `write_records` has them.
    Octets {
        /// Their record syntax, or none for any.
        syntax: Option<Oid>,
        /// Whether all records of a position that has several are taken. If not, none of them is.
        conflicts: bool,
    },
    /// The list, as `print_list` has it.
    List {
        names: Names,
        mode: Mode,
    },
    /// Lines of JSON, as `print_json` has them without stops and character sets.
    Json {
        names: Names,
    },
    /// The view for readers, as `print_titles` and `print_fields` have it without stops and character sets.
    Titles {
        /// The names as `show_names` returns them.
        shown: Vec<String>,
        extent: Extent,
        /// The columns of its rows, which may be wider or narrower than they need.
        widths: Widths,
        /// At how many positions of a set a record is shown, as its line says.
        filled: BTreeMap<SetKey, u64>,
    },
    /// No text. What is told is that of the view.
    Measures {
        /// The names as `show_names` returns them.
        shown: Vec<String>,
    },
}

/// Returns both counts of each kind together, or `AllocError` if one passes 64 bits.
fn sum_left(left: LeftOut, more: LeftOut) -> Result<LeftOut, AllocError>
    ensures { IfOk result (λ sum. sum ≡ left_sum left more) }
{
    match left.checked_add(more) {
        Some(sum) => Ok(sum),
        None => Err(AllocError),
    }
}

/// Adds what the view tells of facts: the columns that its rows need, and at how many positions of each set a record is
/// shown. Returns `AllocError` if no memory is found or a count passes 64 bits.
fn measure(
    alloc: Global,
    shown: &[String],
    knowledge: &Knowledge,
    tally: &mut Tally,
) -> Result<(), AllocError>
    ensures left { tally.new.left ≡ tally.old.left }
    ensures columns { OnOk result (tally.new.widths
        ≡ widest tally.old.widths (widths (map string_bytes shown.now) (rows_of knowledge.now))) }
    ensures positions { OnOk result ((b : SetKey) → filled_at tally.new.filled.entries b
        ≡ filled_at tally.old.filled.entries b + filled_in knowledge.now b) }
{
    let rows = knowledge.rows()?;
    let widths = find_widths(alloc, shown, &rows)?;
    tally.widths = tally.widths.widest(widths);
    count_filled(knowledge, &mut tally.filled)
}

/// Whether both tables have the same entries.
fn are_same(a: &BTreeMap<SetKey, u64>, b: &BTreeMap<SetKey, u64>) -> bool
    ensures { IsTrue result ↔ (a.now.entries ≡ b.now.entries) }
{
    a == b
}

impl Form {
    /// Appends the text of facts; of the view for readers the rows alone. Adds what is told of them beside it to the
    /// tally. Returns `AllocError` if no memory is found or a count of the tally passes 64 bits.
    pub fn write(
        &self,
        alloc: Global,
        knowledge: &Knowledge,
        out: &mut Vec<u8>,
        tally: &mut Tally,
    ) -> Result<(), AllocError>
        ensures ok { OnOk result (out.new.items ≡ out.old.items ++ form_text self.now knowledge.now) }
        ensures told { OnOk result (IsToldMore self.now knowledge.now tally.old tally.new) }
    {
        match self {
            Form::Octets { syntax, conflicts } => {
                let left = write_records(alloc, knowledge, syntax.as_ref(), *conflicts, out)?;
                tally.left = sum_left(tally.left, left)?;
                Ok(())
            }
            Form::List { names, mode } => print_list(alloc, knowledge, names, *mode, out),
            Form::Json { names } => print_json(alloc, knowledge, names, &[], &[], out),
            Form::Titles {
                shown,
                extent,
                widths,
                ..
            } => {
                print_title_rows(alloc, *extent, *widths, shown, &[], knowledge, out)?;
                measure(alloc, shown, knowledge, tally)
            }
            Form::Measures { shown } => measure(alloc, shown, knowledge, tally),
        }
    }

    /// Whether the columns and the numbers of positions that the form has are those that a tally tells. True of a form
    /// that has none.
    pub fn is_as_told(&self, tally: &Tally) -> bool
        ensures { IsTrue result ↔ IsAsTold self.now tally.now }
    {
        match self {
            Form::Titles { widths, filled, .. } => {
                *widths == tally.widths && are_same(filled, &tally.filled)
            }
            Form::Octets { .. } | Form::List { .. } | Form::Json { .. } | Form::Measures { .. } => {
                true
            }
        }
    }

    /// Appends the text of facts that stands before that of records: facts without records, as a rule. Returns
    /// `AllocError` if no memory is found.
    pub fn write_head(
        &self,
        alloc: Global,
        others: &Knowledge,
        out: &mut Vec<u8>,
    ) -> Result<(), AllocError>
        ensures { OnOk result (out.new.items ≡ out.old.items ++ head_text self.now others.now) }
    {
        match self {
            Form::Titles {
                shown,
                widths,
                filled,
                ..
            } => print_title_head(
                alloc,
                *widths,
                Filled::Told(filled),
                shown,
                others,
                &[],
                out,
            ),
            Form::Measures { .. } => Ok(()),
            Form::Octets { .. } | Form::List { .. } | Form::Json { .. } => {
                let mut tally = Tally::new(alloc);
                self.write(alloc, others, out, &mut tally)
            }
        }
    }
}
