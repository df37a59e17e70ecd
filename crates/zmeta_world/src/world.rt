//! World files: targets in memory, hosts, questions to them, and the order in which octets are carried.

ghost use Rattle.std.specs.Prelude.{◌≡◌, ◌<◌, ◌^◌, length, IfOk, IfErr};
ghost use Rattle.zmeta_world.specs.declared.world.WorldError.TheVariants.{Memory};
ghost use Rattle.zmeta_world.specs.WorldReading.{HasItsNames, ReadLineResult, IsFaultOf, world_of};
ghost use Rattle.zmeta_world.specs.Worlds.{IsWorld};
ghost use Rattle.zmeta_world.specs.InMemoryRuns.{IsFit};

mod cut;
pub(crate) mod fault;
mod keyword;
pub(crate) mod line;
mod names;
mod number;
mod parsing;
mod reader;
mod targets;
pub(crate) mod wanted;

use crate::world::cut::first_piece;
use crate::world::fault::LineFault;
use crate::world::reader::Reader;
use bytes::Bytes;
use std::alloc::{AllocError, Global};
use zber::Seq;
use zoom_questions::{Move, Question};
use ztarget::{Database, TargetSettings};

/// A target in memory, with its name.
#[derive(Drop)]
pub struct NamedTarget {
    /// The name. No other target and no host has it.
    pub name: Bytes,
    /// The services that the target offers, and how many octets the records of one response may have together.
    pub settings: TargetSettings,
    /// Its databases, in the order of the file.
    pub databases: Seq<Database>,
}

/// A host: a target at an address, with its name.
#[derive(Drop)]
pub struct NamedHost {
    /// The name. No other host and no target in memory has it.
    pub name: Bytes,
    /// The address, as `host:port`.
    pub address: Bytes,
}

/// The end that a question goes to: an index into the targets or into the hosts of the world.
#[derive(Clone, Copy, PartialEq, Eq)]
pub enum End {
    /// A target in memory, by its index in `targets`.
    Target(usize),
    /// A host, by its index in `hosts`.
    Host(usize),
}

/// A question with its line, and the target or host that it goes to.
#[derive(Drop)]
pub struct AskedQuestion {
    /// The number of the question's line in the file, from 1.
    pub line: u64,
    /// The name of the target or host.
    pub name: Bytes,
    /// The target or host itself, as an index.
    pub end: End,
    /// The question: databases, query, record syntax and wanted positions.
    pub question: Question,
}

/// The contents of a world file.
#[derive(Drop)]
pub struct World {
    /// How many positions one Present asks for, 1 to 1,000.
    pub step: u32,
    /// How many Presents of one connection may be outstanding at a time, 1 to 64.
    pub window: u32,
    /// The targets in memory, in the order of the file.
    pub targets: Seq<NamedTarget>,
    /// The hosts, in the order of the file.
    pub hosts: Seq<NamedHost>,
    /// The questions, in the order of the file.
    pub questions: Seq<AskedQuestion>,
    /// The moves, in order. The field `c` of a move is the index of a question.
    pub moves: Seq<Move>,
}

/// Why a world file is refused, or cannot be planned as the run that was asked for.
#[derive(Clone, Copy, PartialEq, Eq)]
pub enum WorldError {
    /// The first line at fault, from 1.
    Refused { line: u64 },
    /// No memory was found.
    Memory,
}

impl From<AllocError> for WorldError {
    ghost from_gives = { λ _ e. e ≡ Memory };

    fn from(_: AllocError) -> WorldError {
        WorldError::Memory
    }
}

/// Reads line `number`. `Refused` gives that number.
fn read_line(reader: &mut Reader, number: u64, text: &[u8]) -> Result<(), WorldError>
    requires names { HasItsNames reader.old }
    requires few { length reader.old.questions.items < 2 ^ 32 }
    ensures { ReadLineResult number text.now (world_of reader.old) reader.new result }
{
    match reader.read(number, text) {
        Ok(()) => Ok(()),
        Err(LineFault::Refused) => Err(WorldError::Refused { line: number }),
        Err(LineFault::Memory) => Err(WorldError::Memory),
    }
}

/// Reads a world file.
///
/// Requires a file of fewer than 2^32 octets. The result is exactly the world that the lines make, and it can be
/// planned by `in_memory` or `network`.
///
/// `Refused` gives the first line that is not a line of a world file, or that cannot follow the lines before it.
/// `Memory` if no memory is found.
pub fn read_world(alloc: Global, file: &[u8]) -> Result<World, WorldError>
    requires { length file.now < 2 ^ 32 }
    ensures world { IfOk result (IsWorld file.now) }
    ensures fit { IfOk result IsFit }
    ensures fault { IfErr result (IsFaultOf file.now) }
{
    let mut reader = Reader::new(alloc);
    let mut number = 0;
    let mut rest = Some(file);
    while let Some(texts) = rest {
        let (text, after) = first_piece(texts, b'\n');
        number += 1;
        read_line(&mut reader, number, text)?;
        rest = after;
    }
    Ok(reader.finish()?)
}
