//! The databases that a search names.
ghost use Rattle.std.specs.Prelude.{◌≡◌, ◌∷◌, [], ◌++◌, List, map, not, true, IfOk, OnOk};
ghost use Rattle.std.specs.BTreeSet.{Updates, contains};
ghost use Rattle.std.specs.Cmp.Lexicographic.{slice_cmp};
ghost use Rattle.std.specs.Ordering.{nat_cmp};
ghost use Rattle.std.specs.List.{All};
ghost use Rattle.ztarget.specs.declared.database.Database.{Database};
ghost use Rattle.ztarget.specs.Keeping.{IsNumberedDatabase, databases_of};
ghost use Rattle.ztarget.specs.Searching.{called, searched};

use crate::indexed::Indexed;
use bytes::Bytes;
use std::alloc::{AllocError, Global};
use std::collections::BTreeSet;

/// A database, with its number among those of the target, counted from 0.
#[derive(Clone, Copy)]
pub(crate) struct Numbered<'a> {
    pub(crate) number: usize,
    pub(crate) database: &'a Indexed,
}

/// Appends a database if it has the name.
fn put_if_called<'a>(
    numbered: Numbered<'a>,
    name: &Bytes,
    out: &mut Vec<Numbered<'a>>,
) -> Result<(), AllocError>
    ensures called { OnOk result (databases_of out.new.items ≡ databases_of out.old.items
        ++ called (numbered.entry.database.now ∷ []) name.now) }
    ensures numbered { (databases : List Database) → IsNumberedDatabase databases numbered.entry
        → All (IsNumberedDatabase databases) out.old.items
        → OnOk result (All (IsNumberedDatabase databases) out.new.items) }
{
    if numbered.database.name().as_slice() == name.as_slice() {
        out.push(numbered)?;
    }
    Ok(())
}

/// Appends the databases that have the name, in order.
fn put_called<'a>(
    databases: &'a [Indexed],
    name: &Bytes,
    out: &mut Vec<Numbered<'a>>,
) -> Result<(), AllocError>
    ensures called { OnOk result (databases_of out.new.items
        ≡ databases_of out.old.items ++ called databases.now name.now) }
    ensures numbered { All (IsNumberedDatabase databases.now) out.old.items
        → OnOk result (All (IsNumberedDatabase databases.now) out.new.items) }
{
    for number in 0..databases.len() {
        let database = &databases[number];
        put_if_called(Numbered { number, database }, name, out)?;
    }
    Ok(())
}

/// Adds a name to those before it. Returns whether it is new among them.
fn put_name(name: &Bytes, named: &mut BTreeSet<Bytes, Global>) -> Result<bool, AllocError>
    ensures added { IfOk result (λ added. added ≡ not (contains (slice_cmp nat_cmp) named.old name.now)) }
    ensures updates { OnOk result (Updates (slice_cmp nat_cmp) named.old named.new name.now true) }
{
    Ok(named.insert(name.clone()?)?)
}

/// Returns the databases of the names, in the order of the names. A repeated name counts once.
pub(crate) fn searched<'a>(
    alloc: Global,
    databases: &'a [Indexed],
    names: &[Bytes],
) -> Result<Vec<Numbered<'a>>, AllocError>
    ensures found { IfOk result (λ found. databases_of found.items ≡ searched databases.now names.now) }
    ensures numbered { IfOk result (λ found. All (IsNumberedDatabase databases.now) found.items) }
{
    let mut searched = Vec::new(alloc);
    let mut named: BTreeSet<Bytes, Global> = BTreeSet::new(alloc);
    for name in names {
        if put_name(name, &mut named)? {
            put_called(databases, name, &mut searched)?;
        }
    }
    Ok(searched)
}
