//! The facts of some catalogues alone.

ghost use Rattle.std.specs.Prelude.{◌≡◌, [], slice_get, IfOk, OnOk};
ghost use Rattle.zknow.specs.Facts.{fact_target, AreFacts};
ghost use Rattle.zmeta_args.specs.Texts.{texts_of};
ghost use Rattle.zmeta_offline.specs.Catalogues.{is_chosen, is_of_chosen, IsOfCatalogues, CataloguesResult};

use crate::names::{first_unknown, is_picked};
use bytes::Bytes;
use std::alloc::{AllocError, Global};
use zknow::{Fact, Knowledge, Names};
use zmeta_devices::fault::Fault;

/// Returns the number of the target that a fact is about.
pub(crate) fn target_of(fact: &Fact) -> u32
    ensures { result ≡ fact_target fact.now }
{
    match fact {
        Fact::Count { target, .. } => *target,
        Fact::Failed { target, .. } => *target,
        Fact::Seen { target, .. } => *target,
        Fact::Diag { target, .. } => *target,
    }
}

/// Returns whether the catalogue of this target has a name among `only`, or `only` is empty.
pub(crate) fn is_chosen(only: &[&str], names: &[Bytes], target: u32) -> bool
    ensures { result ≡ is_chosen (texts_of only.now) (slice_get names.now target) }
{
    match names.get(target as usize) {
        Some(name) => is_picked(only, name.as_slice()),
        None => only.is_empty(),
    }
}

/// Returns whether the fact is about a catalogue whose name is among `only`, or `only` is empty.
fn is_of_chosen(only: &[&str], names: &Names, fact: &Fact) -> bool
    ensures { result ≡ is_of_chosen (texts_of only.now) names.now fact.now }
{
    is_chosen(only, names.as_slice(), target_of(fact))
}

/// Adds those of the facts that are about the chosen catalogues.
fn add_facts(
    facts: &[Fact],
    names: &Names,
    only: &[&str],
    chosen: &mut Knowledge,
) -> Result<(), AllocError>
    requires facts { AreFacts facts.now }
    requires none { chosen.old ≡ [] }
    ensures { OnOk result (IsOfCatalogues (texts_of only.now) names.now facts.now chosen.new) }
{
    for fact in facts {
        if is_of_chosen(only, names, fact) {
            chosen.add(fact)?;
        }
    }
    chosen.lawful();
    Ok(())
}

/// Returns the facts about the chosen catalogues.
pub(crate) fn chosen_facts(
    alloc: Global,
    knowledge: &Knowledge,
    names: &Names,
    only: &[&str],
) -> Result<Knowledge, AllocError>
    ensures { IfOk result (IsOfCatalogues (texts_of only.now) names.now knowledge.now) }
{
    knowledge.lawful();
    let facts = knowledge.facts()?;
    let mut chosen = Knowledge::new(alloc);
    add_facts(facts.as_slice(), names, only, &mut chosen)?;
    Ok(chosen)
}

/// Returns the facts about the catalogues of these names, or all facts if there are no names. `NoCatalogue` gives the
/// first name that no catalogue has.
pub(crate) fn facts_of<'a>(
    alloc: Global,
    knowledge: &Knowledge,
    names: &Names,
    only: &[&'a str],
) -> Result<Knowledge, Fault<'a>>
    ensures { CataloguesResult (texts_of only.now) names.now knowledge.now result }
{
    match first_unknown(only, names.as_slice()) {
        Some(name) => Err(Fault::NoCatalogue(name)),
        None => Ok(chosen_facts(alloc, knowledge, names, only)?),
    }
}
