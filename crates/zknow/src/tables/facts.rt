//! The facts of the tables, in fact order.
ghost use Rattle.std.specs.Prelude.{◌≡◌, ◌++◌, map, IfOk, OnOk};
ghost use Rattle.zknow.specs.Tables.FactRefs.{fact_of};
ghost use Rattle.zknow.specs.declared.fact.Fact.TheVariants.{Count, Failed};
ghost use Rattle.zknow.specs.Tables.Sections.{section, marked, number_pairs, table_facts};

use crate::tables::distinct::Distinct;
use crate::tables::encoded_diag::EncodedDiag;
use crate::tables::fact_ref::FactRef;
use crate::tables::keys::{Mark, SetKey};
use crate::tables::ranked::Ranked;
use crate::tables::table::Table;
use crate::tables::{ByNumber, Tables};
use std::alloc::{AllocError, Global};
use zapdu::Record;

/// A value that a fact has at a number of a set: a record at a position, or a diagnostic at a place.
pub(crate) trait Numbered: Ranked {
    ghost use Rattle.std.specs.Prelude.{◌≡◌, ℤ};
    ghost use Rattle.zknow.specs.declared.fact.Fact.{Fact};
    ghost use Rattle.zknow.specs.Tables.FactRefs.{fact_of};
    ghost use Rattle.zknow.specs.declared.tables.keys.SetKey.{SetKey};

    /// The fact of the value.
    ghost fact: { SetKey → ℤ → Self → Fact };

    /// Returns a reference to the fact of the value.
    fn as_fact(&self, key: SetKey, number: &i64) -> FactRef<'_>
        ensures { fact_of result ≡ fact key number.now self.now };
}

impl Numbered for Record {
    ghost use Rattle.zknow.specs.declared.fact.Fact.TheVariants.{Seen};

    ghost fact = { λ key number rec. Seen key.target key.set number rec };

    fn as_fact(&self, key: SetKey, number: &i64) -> FactRef<'_> {
        FactRef::Seen {
            target: key.target,
            set: key.set,
            position: *number,
            rec: self,
        }
    }
}

impl Numbered for EncodedDiag {
    ghost use Rattle.zknow.specs.declared.fact.Fact.TheVariants.{Diag};

    ghost fact = { λ key number diag. Diag key.target key.set number diag };

    fn as_fact(&self, key: SetKey, number: &i64) -> FactRef<'_> {
        FactRef::Diag {
            target: key.target,
            set: key.set,
            place: *number,
            diag: self.diag(),
        }
    }
}

fn put_counts(key: SetKey, counts: &[i64], out: &mut Vec<FactRef<'_>>) -> Result<(), AllocError>
    ensures { OnOk result (map fact_of out.new.items ≡ map fact_of out.old.items
        ++ map (λ n. Count key.target key.set n) counts.now) }
{
    for count in counts {
        out.push(FactRef::Count {
            target: key.target,
            set: key.set,
            count: *count,
        })?;
    }
    Ok(())
}

fn put_all_counts(
    table: &Table<SetKey, Distinct<i64>>,
    out: &mut Vec<FactRef<'_>>,
) -> Result<(), AllocError>
    ensures { OnOk result (map fact_of out.new.items ≡ map fact_of out.old.items
        ++ section (λ xs. xs) (λ e n. Count e.target e.set n) table.now) }
{
    for (key, counts) in table.iter() {
        put_counts(*key, counts.values(), out)?;
    }
    Ok(())
}

fn put_failed(key: SetKey, mark: &Mark, out: &mut Vec<FactRef<'_>>) -> Result<(), AllocError>
    ensures { OnOk result (map fact_of out.new.items ≡ map fact_of out.old.items
        ++ map (λ u. Failed key.target key.set) (marked mark.now)) }
{
    if mark.is_set {
        out.push(FactRef::Failed {
            target: key.target,
            set: key.set,
        })?;
    }
    Ok(())
}

fn put_all_failed(table: &Table<SetKey, Mark>, out: &mut Vec<FactRef<'_>>) -> Result<(), AllocError>
    ensures { OnOk result (map fact_of out.new.items ≡ map fact_of out.old.items
        ++ section marked (λ e u. Failed e.target e.set) table.now) }
{
    for (key, mark) in table.iter() {
        put_failed(*key, mark, out)?;
    }
    Ok(())
}

fn put_values<'a, T: Numbered>(
    key: SetKey,
    number: &i64,
    values: &'a [T],
    out: &mut Vec<FactRef<'a>>,
) -> Result<(), AllocError>
    ensures { OnOk result (map fact_of out.new.items ≡ map fact_of out.old.items
        ++ map (λ x. T.fact key number.now x) values.now) }
{
    for value in values {
        out.push(value.as_fact(key, number))?;
    }
    Ok(())
}

fn put_numbered<'a, T: Numbered>(
    key: SetKey,
    values: &'a Table<i64, Distinct<T>>,
    out: &mut Vec<FactRef<'a>>,
) -> Result<(), AllocError>
    ensures { OnOk result (map fact_of out.new.items ≡ map fact_of out.old.items
        ++ map (λ x. T.fact key x.0 x.1) (number_pairs values.now)) }
{
    for (number, values) in values.iter() {
        put_values(key, number, values.values(), out)?;
    }
    Ok(())
}

fn put_all_numbered<'a, T: Numbered>(
    table: &'a ByNumber<T>,
    out: &mut Vec<FactRef<'a>>,
) -> Result<(), AllocError>
    ensures { OnOk result (map fact_of out.new.items ≡ map fact_of out.old.items
        ++ section number_pairs (λ e x. T.fact e x.0 x.1) table.now) }
{
    for (key, values) in table.iter() {
        put_numbered(*key, values, out)?;
    }
    Ok(())
}

/// Returns references to the facts of the tables, in fact order. It copies no record and no diagnostic. Returns
/// `AllocError` if no memory is found.
pub(crate) fn facts_in(alloc: Global, tables: &Tables) -> Result<Vec<FactRef<'_>>, AllocError>
    ensures { IfOk result (λ facts. map fact_of facts.items ≡ table_facts tables.now) }
{
    let mut facts = Vec::new(alloc);
    put_all_counts(&tables.counts, &mut facts)?;
    put_all_failed(&tables.failed, &mut facts)?;
    put_all_numbered(&tables.seen, &mut facts)?;
    put_all_numbered(&tables.diags, &mut facts)?;
    Ok(facts)
}
