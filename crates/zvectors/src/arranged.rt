// Worlds that are arranged.
ghost use Rattle.std.specs.Prelude.{IfOk};
ghost use Rattle.zmeta_world.specs.InMemoryRuns.{CanBeRun};

use bytes::Bytes;
use std::alloc::{AllocError, Global};
use std::process::Abort;
use zmeta_world::in_memory::InMemoryRun;
use zmeta_world::world::{WorldError, read_world};

const TWO: &[u8] = b"step 3
window 5
target a 1 -
host x h:210
target b 1 r
target c 1 -
ask c d - 1 dune
ask a d - 1 emma
to a 7";

/// The world of a file of at most 1,000,000 octets, arranged for one who asks by the name `zmeta`.
pub(crate) fn in_memory(alloc: Global, file: &[u8]) -> Result<InMemoryRun, WorldError>
    ensures { IfOk result CanBeRun }
{
    if file.len() > 1_000_000 {
        return Err(WorldError::Memory);
    }
    let name = Bytes::copy_from_slice(alloc, b"zmeta")?;
    let world = read_world(alloc, file)?;
    world.in_memory(alloc, name)
}

/// Whether octets are those of a text.
pub(crate) fn spells(octets: &Bytes, text: &str) -> bool {
    octets.as_slice() == text.as_bytes()
}

fn has_names(names: &[Bytes]) -> bool {
    let [first, second] = names else {
        return false;
    };
    spells(first, "c") && spells(second, "a")
}

// How many targets, questions and moves there are, and the settings.
fn counts(alloc: Global, world: &InMemoryRun) -> Result<String, AllocError> {
    let (targets, questions) = (world.targets.len(), world.questions.len());
    let (moves, settings) = (world.moves.len(), &world.settings);
    let (step, window) = (settings.step, settings.window);
    format!(in alloc; "{targets} {questions} {moves} {step} {window}")
}

fn is_in_order(alloc: Global, world: &InMemoryRun) -> Result<bool, AllocError> {
    let Ok(counts) = counts(alloc, world) else {
        return Err(AllocError);
    };
    let is_asker = spells(&world.settings.name, "zmeta");
    Ok(is_asker && has_names(world.names.as_slice()) && counts.as_str() == "2 2 1 3 5")
}

fn is_arranged(alloc: Global) -> Result<bool, AllocError> {
    match in_memory(alloc, TWO) {
        Ok(world) => is_in_order(alloc, &world),
        Err(_) => Ok(false),
    }
}

#[test]
fn targets_stand_in_the_order_of_the_questions(rt: HostRuntime) {
    assert!(rt; is_arranged(rt.alloc()).unwrap_or(false));
}
