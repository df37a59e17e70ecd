//! The targets of the lines that were read. Lines add to the last target only.
ghost use Rattle.std.specs.Prelude.{◌≡◌, ◌++◌, ◌∷◌, [], true, false, IfOk, IfErr, Option};
ghost use Rattle.zmeta_world.specs.declared.world.fault.LineFault.TheVariants.{Refused};
ghost use Rattle.ztarget.specs.declared.database.Entry.{Entry};
ghost use Rattle.zmeta_world.specs.World.{LineResult};
ghost use Rattle.zmeta_world.specs.WorldParts.{list_of};
ghost use Rattle.zmeta_world.specs.Worlds.{is_among, new_entry, new_database, new_target, in_last, in_target, add_field, add_content, in_database, add_database};

use crate::world::NamedTarget;
use crate::world::fault::LineFault;
use crate::world::line::Content;
use crate::world::names::add_name;
use bytes::Bytes;
use indexmap::IndexSet;
use std::alloc::{AllocError, Global};
use std::marker::Model;
use zber::{Oid, Seq};
use ztarget::{Database, Entry, Field, TargetSettings};

/// Records, the last of which may still get fields. Contracts see the whole list.
#[derive(Drop)]
pub(crate) struct OpenEntry {
    before: Vec<Entry>,
    syntax: Oid,
    octets: Bytes,
    fields: Vec<Field>,
}

impl Model for OpenEntry {
    ghost use Rattle.std.specs.Prelude.{List, [], ◌∷◌, ◌++◌};
    ghost use Rattle.ztarget.specs.declared.database.Entry.{Entry};
    ghost use Rattle.zmeta_world.specs.WorldParts.{entry};

    ghost Value = { List Entry };

    ghost view = { λ o. o.before.items ++ entry o.syntax o.octets o.fields.items ∷ [] };
}

/// Closes the last record, and returns all records.
fn closed_entries(alloc: Global, had: Option<OpenEntry>) -> Result<Vec<Entry>, AllocError>
    ensures { IfOk result (λ entries. entries.items ≡ list_of had) }
{
    let Some(had) = had else {
        return Ok(Vec::new(alloc));
    };
    let mut entries = had.before;
    entries.push(Entry {
        syntax: had.syntax,
        octets: had.octets,
        fields: Seq::from_vec(had.fields),
    })?;
    Ok(entries)
}

/// Appends a record without fields.
fn with_entry(
    alloc: Global,
    had: Option<OpenEntry>,
    syntax: Oid,
    octets: Bytes,
) -> Result<OpenEntry, AllocError>
    ensures { IfOk result (λ entries. entries ≡ list_of had ++ new_entry syntax octets ∷ []) }
{
    Ok(OpenEntry {
        before: closed_entries(alloc, had)?,
        syntax,
        octets,
        fields: Vec::new(alloc),
    })
}

/// Appends a field to the last record.
#[tactic(auto, using(crate::proofs::WorldLast::in_last_end))]
fn with_field(had: Option<OpenEntry>, field: Field) -> Result<OpenEntry, LineFault>
    ensures { LineResult (in_last (add_field field) (list_of had)) result }
{
    let Some(had) = had else {
        return Err(LineFault::Refused);
    };
    let mut fields = had.fields;
    fields.push(field)?;
    Ok(OpenEntry { fields, ..had })
}

/// Appends a record, or a field to the last record.
fn with_content(
    alloc: Global,
    had: Option<OpenEntry>,
    content: Content,
) -> Result<OpenEntry, LineFault>
    ensures { LineResult (add_content content (list_of had)) result }
{
    match content {
        Content::Record { syntax, octets } => Ok(with_entry(alloc, had, syntax, octets)?),
        Content::Field(field) => with_field(had, field),
    }
}

/// Databases, the last of which may still get records. Contracts see the whole list.
#[derive(Drop)]
pub(crate) struct OpenDatabase {
    before: Vec<Database>,
    name: Bytes,
    entries: Option<OpenEntry>,
}

impl Model for OpenDatabase {
    ghost use Rattle.std.specs.Prelude.{List, [], ◌∷◌, ◌++◌};
    ghost use Rattle.ztarget.specs.declared.database.Database.{Database};
    ghost use Rattle.zmeta_world.specs.WorldParts.{database, list_of};

    ghost Value = { List Database };

    ghost view = { λ o. o.before.items ++ database o.name (list_of o.entries) ∷ [] };
}

/// Ends the last database, so that it gets no more entries, and returns all databases.
fn closed_databases(alloc: Global, had: Option<OpenDatabase>) -> Result<Vec<Database>, AllocError>
    ensures { IfOk result (λ databases. databases.items ≡ list_of had) }
{
    let Some(had) = had else {
        return Ok(Vec::new(alloc));
    };
    let mut databases = had.before;
    databases.push(Database {
        name: had.name,
        entries: Seq::from_vec(closed_entries(alloc, had.entries)?),
    })?;
    Ok(databases)
}

/// Appends a database without records.
fn with_database(
    alloc: Global,
    had: Option<OpenDatabase>,
    name: Bytes,
) -> Result<OpenDatabase, AllocError>
    ensures { IfOk result (λ databases. databases ≡ list_of had ++ new_database name ∷ []) }
{
    Ok(OpenDatabase {
        before: closed_databases(alloc, had)?,
        name,
        entries: None,
    })
}

/// Adds to the last database.
#[tactic(auto, using(crate::proofs::WorldLast::in_last_end))]
fn with_database_content(
    alloc: Global,
    had: Option<OpenDatabase>,
    content: Content,
) -> Result<OpenDatabase, LineFault>
    ensures { LineResult (in_last (in_database (add_content content)) (list_of had)) result }
{
    let Some(had) = had else {
        return Err(LineFault::Refused);
    };
    let entries = Some(with_content(alloc, had.entries, content)?);
    Ok(OpenDatabase { entries, ..had })
}

/// Targets, the last of which may still get databases. Contracts see the whole list.
#[derive(Drop)]
pub(crate) struct OpenTarget {
    before: Vec<NamedTarget>,
    name: Bytes,
    settings: TargetSettings,
    databases: Option<OpenDatabase>,
    names: IndexSet<Bytes>,
}

impl Model for OpenTarget {
    ghost use Rattle.std.specs.Prelude.{◌≡◌, List, [], ◌∷◌, ◌++◌};
    ghost use Rattle.zmeta_world.specs.declared.world.NamedTarget.{NamedTarget};
    ghost use Rattle.zmeta_world.specs.WorldParts.{target, list_of};
    ghost use Rattle.zmeta_world.specs.Worlds.{database_names};

    ghost Value = { List NamedTarget };

    ghost view = { λ o. o.before.items ++ target o.name o.settings (list_of o.databases) ∷ [] };

    ghost invariant = { λ o. o.names.keys ≡ database_names (list_of o.databases) };
}

/// Ends the last target, so that it gets no more databases, and returns all targets.
pub(crate) fn closed_targets(
    alloc: Global,
    had: Option<OpenTarget>,
) -> Result<Vec<NamedTarget>, AllocError>
    ensures { IfOk result (λ targets. targets.items ≡ list_of had) }
{
    let Some(had) = had else {
        return Ok(Vec::new(alloc));
    };
    let mut targets = had.before;
    targets.push(NamedTarget {
        name: had.name,
        settings: had.settings,
        databases: Seq::from_vec(closed_databases(alloc, had.databases)?),
    })?;
    Ok(targets)
}

/// Appends a target without databases.
pub(crate) fn with_target(
    alloc: Global,
    had: Option<OpenTarget>,
    name: Bytes,
    settings: TargetSettings,
) -> Result<OpenTarget, AllocError>
    ensures { IfOk result (λ targets. targets ≡ list_of had ++ new_target name settings ∷ []) }
{
    Ok(OpenTarget {
        before: closed_targets(alloc, had)?,
        name,
        settings,
        databases: None,
        names: IndexSet::new(alloc),
    })
}

/// Appends a name. `Refused` if it is already among the names.
fn more_names(names: IndexSet<Bytes>, name: &Bytes) -> Result<IndexSet<Bytes>, LineFault>
    ensures more { IfOk result (λ all. all.keys ≡ names.keys ++ name.now ∷ []) }
    ensures fresh { IfOk result (λ all. is_among name.now names.keys ≡ false) }
    ensures taken { IfErr result (λ fault. fault ≡ Refused → is_among name.now names.keys ≡ true) }
{
    if names.contains(name) {
        return Err(LineFault::Refused);
    }
    let mut all = names;
    add_name(&mut all, name)?;
    Ok(all)
}

/// Appends a database to the last target.
#[tactic(auto, using(crate::proofs::WorldLast::in_last_end))]
pub(crate) fn with_target_database(
    alloc: Global,
    had: Option<OpenTarget>,
    name: Bytes,
) -> Result<OpenTarget, LineFault>
    ensures { LineResult (in_last (add_database name) (list_of had)) result }
{
    let Some(had) = had else {
        return Err(LineFault::Refused);
    };
    let names = more_names(had.names, &name)?;
    let databases = Some(with_database(alloc, had.databases, name)?);
    Ok(OpenTarget {
        databases,
        names,
        ..had
    })
}

/// Adds to the last database of the last target.
#[tactic(auto, using(crate::proofs::WorldLast::in_last_end))]
pub(crate) fn with_target_content(
    alloc: Global,
    had: Option<OpenTarget>,
    content: Content,
) -> Result<OpenTarget, LineFault>
    ensures { LineResult (in_last (in_target (in_database (add_content content))) (list_of had)) result }
{
    let Some(had) = had else {
        return Err(LineFault::Refused);
    };
    let databases = Some(with_database_content(alloc, had.databases, content)?);
    Ok(OpenTarget { databases, ..had })
}
