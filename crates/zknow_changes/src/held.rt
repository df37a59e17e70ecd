//! What a record of a catalogue has: its contents, or its control number.
ghost use Rattle.std.specs.Prelude.{◌≡◌, Contains, IfOk, OnOk};
ghost use Rattle.zknow.specs.Tables.Join.{IsUnion};
ghost use Rattle.zknow_changes.specs.Records.{contents, catalogue, held_contents, held_number};
ghost use Rattle.zknow_changes.specs.Indexes.{is_in};

use crate::numbers::number_of;
use bytes::Bytes;
use std::alloc::{AllocError, Global};
use std::collections::BTreeSet;
use zapdu::{BuildError, Record};
use zasn::Tagged;
use zknow::Names;

/// A catalogue: its name, or the number of its target if it has none.
#[derive(PartialEq, Eq, PartialOrd, Ord, Drop)]
pub enum Catalogue {
    /// The name.
    Named(Bytes),
    /// The number of the target.
    Numbered(u32),
}

/// Octets that a record of a catalogue has.
#[derive(PartialEq, Eq, PartialOrd, Ord, Drop)]
pub struct Held {
    /// The catalogue.
    pub catalogue: Catalogue,
    /// The contents of the record, or its control number.
    pub octets: Bytes,
}

/// Returns the catalogue of a target. Returns `AllocError` if no memory is found.
fn catalogue_of(names: &Names, target: u32) -> Result<Catalogue, AllocError>
    ensures { IfOk result (λ found. found ≡ catalogue names.now target) }
{
    match names.as_slice().get(target as usize) {
        Some(name) => Ok(Catalogue::Named(name.clone()?)),
        None => Ok(Catalogue::Numbered(target)),
    }
}

/// Returns the contents of a record: the canonical encoding of what the target sent, without the name of the database.
/// Returns `AllocError` if no memory is found.
fn contents_of(alloc: Global, record: &Record) -> Result<Vec<u8>, AllocError>
    ensures { IfOk result (λ octets. octets.items ≡ contents «record».now) }
{
    let mut octets = Vec::new(alloc);
    match record.body.to_element(alloc) {
        Ok(element) => {
            element.canonical(alloc, &mut octets)?;
            Ok(octets)
        }
        Err(BuildError::NotSpellable) => Ok(octets),
        Err(BuildError::Memory) => Err(AllocError),
    }
}

/// Returns the contents of a record of a target. Returns `AllocError` if no memory is found.
pub(crate) fn held_contents(
    alloc: Global,
    names: &Names,
    target: u32,
    record: &Record,
) -> Result<Held, AllocError>
    ensures { IfOk result (λ held. held ≡ held_contents names.now target «record».now) }
{
    let octets = contents_of(alloc, record)?;
    let octets = Bytes::from_vec(octets)?;
    let catalogue = catalogue_of(names, target)?;
    Ok(Held { catalogue, octets })
}

/// Returns the control number of a record of a target, `None` if it has none. Returns `AllocError` if no memory is
/// found.
pub(crate) fn held_number(
    alloc: Global,
    names: &Names,
    target: u32,
    record: &Record,
) -> Result<Option<Held>, AllocError>
    ensures { IfOk result (λ held. held ≡ held_number names.now target «record».now) }
{
    let Some(octets) = number_of(alloc, record)? else {
        return Ok(None);
    };
    let catalogue = catalogue_of(names, target)?;
    Ok(Some(Held { catalogue, octets }))
}

/// Adds to a set. Returns `AllocError` if no memory is found.
pub(crate) fn put(held: Held, set: &mut BTreeSet<Held>) -> Result<(), AllocError>
    ensures { OnOk result (IsUnion (Contains set.old.keys) (λ q. q ≡ held) (Contains set.new.keys)) }
{
    set.insert(held)?;
    Ok(())
}

/// Returns whether a set has this.
pub(crate) fn is_in(set: &BTreeSet<Held>, held: &Held) -> bool
    ensures { result ≡ is_in set.now held.now }
{
    set.contains(held)
}
