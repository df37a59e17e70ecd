//! At how many positions of a set a record is shown.
ghost use Rattle.std.specs.Prelude.{◌≡◌, ◌≢◌, ◌+◌, IfOk, OnOk};
ghost use Rattle.zknow_titles.specs.Blocks.{filled_in, filled_at, filled_by};

use crate::blocks::{count_shown, is_shown_at};
use std::alloc::AllocError;
use std::collections::BTreeMap;
use zknow::{Knowledge, SetKey};

/// What tells at how many positions of a set a record is shown.
#[derive(Clone, Copy)]
pub enum Filled<'a> {
    /// The records that are known.
    Known,
    /// A table by set. A set without an entry has no such position.
    Told(&'a BTreeMap<SetKey, u64>),
}

/// Returns the entry of a set, or 0 if it has none.
fn filled_at(table: &BTreeMap<SetKey, u64>, key: &SetKey) -> u64
    ensures { result ≡ filled_at table.now.entries key.now }
{
    match table.get(key) {
        Some(count) => *count,
        None => 0,
    }
}

impl<'a> Filled<'a> {
    /// Returns at how many positions of a set a record is shown.
    pub(crate) fn count(self, knowledge: &Knowledge, key: &SetKey) -> Result<u64, AllocError>
        ensures { IfOk result (λ count. count ≡ filled_by self.entry knowledge.now key.now) }
    {
        match self {
            Filled::Known => Ok(count_shown(knowledge, key)? as u64),
            Filled::Told(table) => Ok(filled_at(table, key)),
        }
    }
}

/// Adds one to the entry of a set. Returns `AllocError` if no memory is found, or if the number passes 64 bits.
fn add_one(table: &mut BTreeMap<SetKey, u64>, key: SetKey) -> Result<(), AllocError>
    ensures own { OnOk result (filled_at table.new.entries key ≡ filled_at table.old.entries key + 1) }
    ensures others { OnOk result ((b : SetKey) → b ≢ key
        → filled_at table.new.entries b ≡ filled_at table.old.entries b) }
{
    let Some(more) = filled_at(table, &key).checked_add(1) else {
        return Err(AllocError);
    };
    table.insert(key, more)?;
    Ok(())
}

/// Adds at how many positions of each set a record is shown to a table. A set that is not in the table is put there.
/// Returns `AllocError` if no memory is found, or if a number passes 64 bits; the table may then have some of them.
pub fn count_filled(
    knowledge: &Knowledge,
    table: &mut BTreeMap<SetKey, u64>,
) -> Result<(), AllocError>
    ensures { OnOk result ((b : SetKey) → filled_at table.new.entries b
        ≡ filled_at table.old.entries b + filled_in knowledge.now b) }
{
    let rows = knowledge.rows()?;
    for row in &rows {
        let set = SetKey {
            target: row.target,
            set: row.set,
        };
        if is_shown_at(knowledge, &set, &row.position) {
            add_one(table, set)?;
        }
    }
    Ok(())
}
