//! The keys of the list's blocks and rows, in order and each once.
ghost use Rattle.std.specs.Prelude.{◌≡◌, ◌++◌, map, IfOk, OnOk};
ghost use Rattle.std.specs.Map.{keys_of};
ghost use Rattle.std.specs.List.{filter_map};
ghost use Rattle.zknow.specs.Tables.Keys.{set_cmp, row_cmp};
ghost use Rattle.zknow.specs.List.Listing.{ascending, block_key_of, row_key_of, positions_at};
ghost use Rattle.zknow.specs.Tables.Sections.{section, table_facts};
ghost use Rattle.zknow.specs.Tables.Tables.{AreLawfulTables};

use crate::tables::distinct::Distinct;
use crate::tables::join::{Join, Key};
use crate::tables::keys::{RowKey, SetKey};
use crate::tables::table::Table;
use crate::tables::{ByNumber, Tables, key_of};
use std::alloc::{AllocError, Global};
use zapdu::Record;

/// Returns the keys in order, each once.
fn sort_keys<K: Key>(mut keys: Vec<K>) -> Vec<K>
    ensures { result.items ≡ ascending K.cmp keys.items }
{
    keys.sort_unstable();
    keys.dedup();
    keys
}

fn put_keys<J: Join>(table: &Table<SetKey, J>, out: &mut Vec<SetKey>) -> Result<(), AllocError>
    ensures { OnOk result (out.new.items ≡ out.old.items ++ keys_of table.now) }
{
    for (key, _) in table.iter() {
        out.push(*key)?;
    }
    Ok(())
}

/// Returns the keys of the blocks, in order. Returns `AllocError` if no memory is found.
pub(crate) fn block_keys(alloc: Global, tables: &Tables) -> Result<Vec<SetKey>, AllocError>
    requires { AreLawfulTables tables.now }
    ensures { IfOk result (λ keys. keys.items ≡ ascending set_cmp (filter_map block_key_of (table_facts tables.now))) }
{
    let mut keys = Vec::new(alloc);
    put_keys(&tables.counts, &mut keys)?;
    put_keys(&tables.failed, &mut keys)?;
    put_keys(&tables.diags, &mut keys)?;
    Ok(sort_keys(keys))
}

/// Appends the positions of a set's rows.
fn put_positions(rows: &Table<i64, Distinct<Record>>, out: &mut Vec<i64>) -> Result<(), AllocError>
    ensures { OnOk result (out.new.items ≡ out.old.items ++ keys_of rows.now) }
{
    for (position, _) in rows.iter() {
        out.push(*position)?;
    }
    Ok(())
}

/// Returns the positions of a set at which a record is known, in order. Returns `AllocError` if no memory is found.
pub(crate) fn positions_of(
    alloc: Global,
    tables: &Tables,
    target: u32,
    set: u32,
) -> Result<Vec<i64>, AllocError>
    requires { AreLawfulTables tables.now }
    ensures { IfOk result (λ found. found.items ≡ positions_at target set (table_facts tables.now)) }
{
    let mut found = Vec::new(alloc);
    if let Some(rows) = tables.seen.get(&key_of(target, set)) {
        put_positions(rows, &mut found)?;
    }
    Ok(found)
}

fn put_rows(
    key: SetKey,
    rows: &Table<i64, Distinct<Record>>,
    out: &mut Vec<RowKey>,
) -> Result<(), AllocError>
    ensures { OnOk result (out.new.items ≡ out.old.items
        ++ map (λ p. record { position = p; target = key.target; set = key.set }) (keys_of rows.now)) }
{
    for (position, _) in rows.iter() {
        out.push(RowKey {
            position: *position,
            target: key.target,
            set: key.set,
        })?;
    }
    Ok(())
}

fn put_all_rows(table: &ByNumber<Record>, out: &mut Vec<RowKey>) -> Result<(), AllocError>
    ensures { OnOk result (out.new.items ≡ out.old.items
        ++ section keys_of (λ e p. record { position = p; target = e.target; set = e.set }) table.now) }
{
    for (key, rows) in table.iter() {
        put_rows(*key, rows, out)?;
    }
    Ok(())
}

/// Returns the keys of the rows, in order. Returns `AllocError` if no memory is found.
pub(crate) fn row_keys(alloc: Global, tables: &Tables) -> Result<Vec<RowKey>, AllocError>
    requires { AreLawfulTables tables.now }
    ensures { IfOk result (λ keys. keys.items ≡ ascending row_cmp (filter_map row_key_of (table_facts tables.now))) }
{
    let mut keys = Vec::new(alloc);
    put_all_rows(&tables.seen, &mut keys)?;
    Ok(sort_keys(keys))
}
