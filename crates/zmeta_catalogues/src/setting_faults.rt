//! The settings of a table that are at fault.

ghost use Rattle.std.specs.Prelude.{◌≡◌, ◌++◌, IfOk, OnOk, Ok};
ghost use Rattle.toml.specs.Data.{as_table};
ghost use Rattle.toml.specs.View.{view, table_view};
ghost use Rattle.zmeta_catalogues.specs.declared.fault.Key.TheVariants as keys;
ghost use Rattle.zmeta_catalogues.specs.Keys.{term_keys};
ghost use Rattle.zmeta_catalogues.specs.Mistakes.{HasAdded, HasStop, HasFault, own_value, faults_for_all, AreTermFaults, AreTermsFaults, AreFaultsIn, AreOwnTermFaults, AreQueryFaults, AreOwnFaults};
ghost use Rattle.zmeta_catalogues.specs.Values.{Reads, charset_of, value_of};

use crate::catalogue::{own_query, text_at};
use crate::charset::Charset;
use crate::fault::{FaultKind, Key, SettingFault, Stop, fault};
use crate::own_values::{
    address_at, charset_at, databases_at, number_at, records_at, syntax_at, terms_at,
};
use crate::queries::{check_prefix, check_query};
use crate::values::{charset_of, value_of};
use crate::words::{TableKind, keys_of};
use std::alloc::{AllocError, Global};
use toml::{Table, Value};

/// Adds the setting at fault for which a reading stopped.
fn put_fault(stop: Stop, faults: &mut Vec<SettingFault>) -> Result<(), AllocError>
    ensures { OnOk result (HasStop stop faults.old.items faults.new.items) }
{
    match stop {
        Stop::Fault(fault) => Ok(faults.push(fault)?),
        Stop::Memory => Err(AllocError),
    }
}

/// Adds the setting at fault, if reading it stopped.
fn put_stop<T: Drop>(
    reading: Result<T, Stop>,
    faults: &mut Vec<SettingFault>,
) -> Result<(), AllocError>
    ensures { OnOk result (HasFault reading faults.old.items faults.new.items) }
{
    match reading {
        Ok(_) => Ok(()),
        Err(stop) => put_fault(stop, faults),
    }
}

/// Adds the settings at fault, of those that may stand for all.
pub(crate) fn put_settings(
    alloc: Global,
    own: &Table,
    faults: &mut Vec<SettingFault>,
) -> Result<(), AllocError>
    ensures { OnOk result (faults.new.items ≡ faults.old.items ++ faults_for_all (table_view own.now)) }
{
    put_stop(syntax_at(alloc, own), faults)?;
    put_stop(text_at(alloc, Key::Elements, own), faults)?;
    put_stop(records_at(alloc, own), faults)?;
    put_stop(number_at(Key::Step, 1000, own), faults)?;
    put_stop(number_at(Key::Window, 64, own), faults)?;
    put_stop(charset_at(own), faults)?;
    put_stop(number_at(Key::Patience, 3600, own), faults)?;
    put_stop(number_at(Key::Connect, 3600, own), faults)
}

/// Adds a term at fault.
fn put_term(
    alloc: Global,
    key: Key,
    terms: &Table,
    faults: &mut Vec<SettingFault>,
) -> Result<(), AllocError>
    ensures { OnOk result (HasAdded (AreTermFaults (table_view terms.now) key) faults.old.items faults.new.items) }
{
    match text_at(alloc, key, terms) {
        Ok(text) => put_stop(check_prefix(alloc, key, &text), faults),
        Err(stop) => put_fault(stop, faults),
    }
}

/// Adds the terms at fault.
fn put_terms(alloc: Global, terms: &Table, faults: &mut Vec<SettingFault>) -> Result<(), AllocError>
    ensures { OnOk result
        (HasAdded (AreTermsFaults (table_view terms.now) term_keys) faults.old.items faults.new.items) }
{
    let keys = keys_of(TableKind::Terms);
    'keys: for key in keys {
        put_term(alloc, *key, terms, faults)?;
    }
    Ok(())
}

/// Adds the terms at fault, or that they are no table.
fn put_terms_in(
    alloc: Global,
    value: &Value,
    faults: &mut Vec<SettingFault>,
) -> Result<(), AllocError>
    ensures { OnOk result (HasAdded (AreFaultsIn (as_table (view value.now))) faults.old.items faults.new.items) }
{
    match value.as_table() {
        Some(terms) => put_terms(alloc, terms, faults),
        None => put_fault(fault(Key::Terms, FaultKind::Type), faults),
    }
}

/// Adds the terms at fault of a catalogue, if it has terms.
fn put_own_terms(
    alloc: Global,
    own: &Table,
    faults: &mut Vec<SettingFault>,
) -> Result<(), AllocError>
    ensures { OnOk result
        (HasAdded (AreOwnTermFaults (own_value keys.Terms (table_view own.now))) faults.old.items faults.new.items) }
{
    match terms_at(own) {
        Some(value) => put_terms_in(alloc, value, faults),
        None => Ok(()),
    }
}

/// Adds the query, if it is at fault.
fn put_query(
    alloc: Global,
    charset: Option<Charset>,
    own: &Table,
    faults: &mut Vec<SettingFault>,
) -> Result<(), AllocError>
    ensures { OnOk result (HasAdded (AreQueryFaults (Ok charset) (own_value keys.Query (table_view own.now)))
        faults.old.items faults.new.items) }
{
    match own_query(alloc, charset, own) {
        Ok(text) => put_stop(check_query(alloc, &text), faults),
        Err(stop) => put_fault(stop, faults),
    }
}

/// Reads the character set of a catalogue: its own, or else that for all.
fn charset_for(own: &Table, top: &Table) -> Result<Option<Charset>, Stop>
    ensures { Reads (charset_of (value_of keys.Charset (table_view own.now) (table_view top.now))) result }
{
    charset_of(value_of(Key::Charset, own, top))
}

/// Adds the query of a catalogue, if it is at fault. A charset at fault is a mistake of its own.
fn put_own_query(
    alloc: Global,
    own: &Table,
    top: &Table,
    faults: &mut Vec<SettingFault>,
) -> Result<(), AllocError>
    ensures { OnOk result (HasAdded
        (AreQueryFaults (charset_of (value_of keys.Charset (table_view own.now) (table_view top.now)))
        (own_value keys.Query (table_view own.now))) faults.old.items faults.new.items) }
{
    match charset_for(own, top) {
        Ok(charset) => put_query(alloc, charset, own, faults),
        Err(Stop::Fault(_)) => Ok(()),
        Err(Stop::Memory) => Err(AllocError),
    }
}

/// Returns the settings at fault of a catalogue's table.
pub(crate) fn own_faults(
    alloc: Global,
    own: &Table,
    top: &Table,
) -> Result<Vec<SettingFault>, AllocError>
    ensures { IfOk result (λ found. AreOwnFaults (table_view own.now) (table_view top.now) found.items) }
{
    let mut faults = Vec::new(alloc);
    put_stop(address_at(alloc, own), &mut faults)?;
    put_stop(databases_at(alloc, own), &mut faults)?;
    put_settings(alloc, own, &mut faults)?;
    put_own_terms(alloc, own, &mut faults)?;
    put_own_query(alloc, own, top, &mut faults)?;
    Ok(faults)
}
