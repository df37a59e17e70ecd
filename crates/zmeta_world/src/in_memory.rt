//! In-memory runs: each question of a world with its own target in memory.

ghost use Rattle.std.specs.Prelude.{◌≡◌, ◌≤◌, ◌<◌, ◌^◌, length, IfOk, IfErr, IfSome};
ghost use Rattle.std.specs.Option.{option_map};
ghost use Rattle.ztarget.specs.Searching.{entries_in};
ghost use Rattle.std.specs.Str.{bytes_eq};
ghost use Rattle.zmeta_world.specs.InMemoryRuns.{AreSmall, IsFit, IsInMemoryRun, IsPutToHost, target_at, target_for, target_named, state_of};
ghost use Rattle.zmeta_world.specs.Finding.{AreFound, FindResult, IsFirstUnfound};

use crate::parts::{add, split_questions};
use crate::world::{AskedQuestion, End, NamedTarget, World, WorldError};
use bytes::Bytes;
use std::alloc::{AllocError, Global};
use zber::{Duplicate, Seq};
use zknow::Names;
use zoom_questions::{MetaSettings, Move, Question};
use ztarget::Target;

/// A plan for a run in memory: question `i` goes to target `i`, which the list shows as name `i`.
#[derive(Drop)]
pub struct InMemoryRun {
    /// The questions, in the order of the file.
    pub questions: Seq<Question>,
    /// The settings for the whole run: the origin's name, the step and the window.
    pub settings: MetaSettings,
    /// One new target for each question, in the order of the questions.
    pub targets: Seq<Target>,
    /// The names of the targets, in the order of the questions.
    pub names: Names,
    /// The moves, in order. The field `c` of a move is the index of a question.
    pub moves: Seq<Move>,
}

impl NamedTarget {
    /// Makes a target with these databases and settings that has received nothing yet. It shares the octets of the
    /// records.
    ///
    /// Requires fewer than 2^32 records in the databases. Returns an error only if no memory is found.
    pub fn target(&self, alloc: Global) -> Result<Target, AllocError>
        requires { length (entries_in self.now.databases) < 2 ^ 32 }
        ensures { IfOk result (λ target. target ≡ state_of self.now) }
    {
        let databases = self.databases.duplicate(alloc)?;
        Target::new(alloc, databases.into_vec(), self.settings)
    }
}

/// Returns the target at this end, or `None` if the end is a host.
fn target_at(targets: &[NamedTarget], end: End) -> Option<&NamedTarget>
    ensures { option_map (λ target. target.now) result ≡ target_at targets.entry.now end }
{
    match end {
        End::Target(place) => targets.get(place),
        End::Host(_) => None,
    }
}

/// Makes the target for a question. `Refused` if the question goes to a host.
fn target_for(
    alloc: Global,
    targets: &[NamedTarget],
    asked_question: &AskedQuestion,
) -> Result<Target, WorldError>
    requires { AreSmall targets.now }
    ensures { FindResult (target_for targets.now) asked_question.now result }
{
    match target_at(targets, asked_question.end) {
        Some(target) => Ok(target.target(alloc)?),
        None => Err(WorldError::Refused {
            line: asked_question.line,
        }),
    }
}

/// Makes the targets for the questions, in order.
fn targets_for(
    alloc: Global,
    targets: &[NamedTarget],
    asked_questions: &[AskedQuestion],
) -> Result<Vec<Target>, WorldError>
    requires { AreSmall targets.now }
    ensures found { IfOk result (λ found. AreFound (target_for targets.now) asked_questions.now found.items) }
    ensures fault { IfErr result (IsFirstUnfound (target_for targets.now) asked_questions.now) }
{
    let mut found = Vec::new(alloc);
    for asked_question in asked_questions {
        let target = target_for(alloc, targets, asked_question)?;
        add(&mut found, target)?;
    }
    Ok(found)
}

/// Returns whether this is the target's name.
fn has_name(target: &NamedTarget, name: &[u8]) -> bool
    ensures { result ≡ bytes_eq name.now target.now.name }
{
    name == target.name.as_slice()
}

/// Returns the target with this name, which no other target has.
fn target_named<'a>(targets: &'a [NamedTarget], name: &[u8]) -> Option<&'a NamedTarget>
    ensures { option_map (λ target. target.now) result ≡ target_named name.now targets.entry.now }
{
    for target in targets {
        if has_name(target, name) {
            return Some(target);
        }
    }
    None
}

impl World {
    /// Returns the target in memory with this name, or `None` if there is none.
    ///
    /// Requires a world that `read_world` returned. The target then has fewer than 2^32 records.
    pub fn target(&self, name: &[u8]) -> Option<&NamedTarget>
        requires { IsFit self.now }
        ensures named { option_map (λ target. target.now) result ≡ target_named name.now self.entry.now.targets }
        ensures small { IfSome result (λ target. length (entries_in target.now.databases) < 2 ^ 32) }
    {
        target_named(self.targets.as_slice(), name)
    }

    /// Plans a run in memory by an origin with this name.
    ///
    /// Requires a world that `read_world` returned, and a name of at most 2,000,000 octets.
    ///
    /// `Refused` gives the line of the first question that goes to a host. `Memory` if no memory is found.
    pub fn in_memory(self, alloc: Global, name: Bytes) -> Result<InMemoryRun, WorldError>
        requires fit { IsFit self }
        requires short { length name ≤ 2000000 }
        ensures in_memory_run { IfOk result (IsInMemoryRun name self) }
        ensures fault { IfErr result (IsPutToHost self) }
    {
        let World {
            step,
            window,
            targets,
            hosts: _,
            questions,
            moves,
        } = self;
        let targets = targets_for(alloc, targets.as_slice(), questions.as_slice())?;
        let parts = split_questions(alloc, questions.into_vec())?;
        Ok(InMemoryRun {
            questions: Seq::from_vec(parts.questions),
            settings: MetaSettings { name, step, window },
            targets: Seq::from_vec(targets),
            names: Seq::from_vec(parts.names),
            moves,
        })
    }
}
