//! One line of a world file, by itself.
ghost use Rattle.std.specs.Prelude.{◌≡◌, ◌<◌, ◌^◌};
ghost use Rattle.std.specs.List.{list_all};
ghost use Rattle.zmeta_world.specs.World.{LineResult};
ghost use Rattle.zmeta_world.specs.WorldLines.{token_texts, is_flag, are_flags, has_flag, settings, syntax_of, step_line, window_line, target_line, host_line, database_line, record_line, field_line, ask_line, carry_line, line_by, line_of};

use crate::world::fault::LineFault;
use crate::world::keyword::{Keyword, keyword_of};
use crate::world::number::number_in;
use crate::world::wanted::wanted_of;
use bytes::Bytes;
use std::alloc::Global;
use zber::{Oid, Seq};
use zplan::Range;
use zquery::{Token, oid_named};
use ztarget::{Field, TargetSettings};

/// The direction of a move.
#[derive(Clone, Copy, PartialEq, Eq)]
pub(crate) enum Way {
    /// From a connection to its target.
    To,
    /// At the target: releases a pending reply, so that its octets can be carried.
    Release,
    /// From a target to its connection.
    From,
}

/// The contents of an `ask` line.
#[derive(Drop)]
pub(crate) struct AskLine {
    /// The name of the target or host that the question goes to.
    pub(crate) name: Bytes,
    pub(crate) database: Bytes,
    pub(crate) syntax: Option<Oid>,
    pub(crate) wanted: Seq<Range>,
    /// The query, in the prefix notation.
    pub(crate) text: Bytes,
}

/// What a `rec` or a `field` line adds to the last database.
#[derive(Drop)]
pub(crate) enum Content {
    /// A record without fields.
    Record { syntax: Oid, octets: Bytes },
    /// A field of the last record.
    Field(Field),
}

/// The contents of a line.
#[derive(Drop)]
pub(crate) enum Line {
    Empty,
    Step(u32),
    Window(u32),
    Target {
        name: Bytes,
        settings: TargetSettings,
    },
    Host {
        name: Bytes,
        address: Bytes,
    },
    Database(Bytes),
    Content(Content),
    Ask(AskLine),
    Carry {
        way: Way,
        name: Bytes,
        k: u32,
    },
}

fn step_line(args: &[Token]) -> Result<Line, LineFault>
    ensures { LineResult (step_line (token_texts args.now)) result }
{
    let [n] = args else {
        return Err(LineFault::Refused);
    };
    match number_in(1, 1000, n.text.as_slice()) {
        Some(n) => Ok(Line::Step(n as u32)),
        None => Err(LineFault::Refused),
    }
}

fn window_line(args: &[Token]) -> Result<Line, LineFault>
    ensures { LineResult (window_line (token_texts args.now)) result }
{
    let [n] = args else {
        return Err(LineFault::Refused);
    };
    match number_in(1, 64, n.text.as_slice()) {
        Some(n) => Ok(Line::Window(n as u32)),
        None => Err(LineFault::Refused),
    }
}

fn is_flag(octet: u8) -> bool
    ensures { result ≡ is_flag octet }
{
    octet == b'c' || octet == b'n' || octet == b'r'
}

fn are_all_flags(text: &[u8]) -> bool
    ensures { result ≡ list_all is_flag text.now }
{
    text.iter().all(|octet| is_flag(*octet))
}

/// Returns whether the text is a list of a target's flags, or `-`.
fn are_flags(text: &[u8]) -> bool
    ensures { result ≡ are_flags text.now }
{
    text == b"-".as_slice() || (!text.is_empty() && are_all_flags(text))
}

/// Returns whether the octets contain this flag.
fn has_flag(flag: u8, text: &[u8]) -> bool
    ensures { result ≡ has_flag flag text.now }
{
    text.iter().any(|octet| *octet == flag)
}

fn settings(flags: &[u8], size: u64) -> TargetSettings
    requires { size < 2 ^ 63 }
    ensures { result ≡ settings flags.now size }
{
    TargetSettings {
        size: size as i64,
        concurrent: has_flag(b'c', flags),
        named: has_flag(b'n', flags),
        refuse: has_flag(b'r', flags),
    }
}

fn target_line(args: &[Token]) -> Result<Line, LineFault>
    ensures { LineResult (target_line (token_texts args.now)) result }
{
    let [name, size, flags] = args else {
        return Err(LineFault::Refused);
    };
    if !are_flags(flags.text.as_slice()) {
        return Err(LineFault::Refused);
    }
    match number_in(1, 9_223_372_036_854_775_807, size.text.as_slice()) {
        Some(size) => Ok(Line::Target {
            name: name.text.clone()?,
            settings: settings(flags.text.as_slice(), size),
        }),
        None => Err(LineFault::Refused),
    }
}

fn host_line(args: &[Token]) -> Result<Line, LineFault>
    ensures { LineResult (host_line (token_texts args.now)) result }
{
    let [name, address] = args else {
        return Err(LineFault::Refused);
    };
    Ok(Line::Host {
        name: name.text.clone()?,
        address: address.text.clone()?,
    })
}

fn database_line(args: &[Token]) -> Result<Line, LineFault>
    ensures { LineResult (database_line (token_texts args.now)) result }
{
    let [name] = args else {
        return Err(LineFault::Refused);
    };
    Ok(Line::Database(name.text.clone()?))
}

fn record_line(alloc: Global, args: &[Token]) -> Result<Line, LineFault>
    ensures { LineResult (record_line (token_texts args.now)) result }
{
    let [syntax, octets] = args else {
        return Err(LineFault::Refused);
    };
    match oid_named(alloc, syntax.text.as_slice())? {
        Some(syntax) => Ok(Line::Content(Content::Record {
            syntax,
            octets: octets.text.clone()?,
        })),
        None => Err(LineFault::Refused),
    }
}

fn field_line(args: &[Token]) -> Result<Line, LineFault>
    ensures { LineResult (field_line (token_texts args.now)) result }
{
    let [attr, text] = args else {
        return Err(LineFault::Refused);
    };
    match number_in(0, 9_223_372_036_854_775_807, attr.text.as_slice()) {
        Some(attr) => Ok(Line::Content(Content::Field(Field {
            attr: attr as i64,
            text: text.text.clone()?,
        }))),
        None => Err(LineFault::Refused),
    }
}

/// Returns the record syntax of a question: at most 1,000 arcs, or none for `-`.
#[tactic(auto, unfolding(crate::specs::WorldLines::syntax_of))]
pub(crate) fn syntax_of(alloc: Global, text: &[u8]) -> Result<Option<Oid>, LineFault>
    ensures { LineResult (syntax_of text.now) result }
{
    if text == b"-".as_slice() {
        return Ok(None);
    }
    match oid_named(alloc, text)? {
        Some(oid) if oid.arcs().len() <= 1000 => Ok(Some(oid)),
        _ => Err(LineFault::Refused),
    }
}

fn ask_line(alloc: Global, args: &[Token]) -> Result<Line, LineFault>
    ensures { LineResult (ask_line (token_texts args.now)) result }
{
    let [name, database, syntax, want, query] = args else {
        return Err(LineFault::Refused);
    };
    let syntax = syntax_of(alloc, syntax.text.as_slice())?;
    let wanted = wanted_of(alloc, want.text.as_slice())?;
    Ok(Line::Ask(AskLine {
        name: name.text.clone()?,
        database: database.text.clone()?,
        syntax,
        wanted,
        text: query.text.clone()?,
    }))
}

fn carry_line(way: Way, args: &[Token]) -> Result<Line, LineFault>
    ensures { LineResult (carry_line way (token_texts args.now)) result }
{
    let [name, k] = args else {
        return Err(LineFault::Refused);
    };
    match number_in(0, 4_294_967_295, k.text.as_slice()) {
        Some(k) => Ok(Line::Carry {
            way,
            name: name.text.clone()?,
            k: k as u32,
        }),
        None => Err(LineFault::Refused),
    }
}

/// Reads the tokens behind a keyword.
fn line_by(alloc: Global, key: Keyword, args: &[Token]) -> Result<Line, LineFault>
    ensures { LineResult (line_by key (token_texts args.now)) result }
{
    match key {
        Keyword::Step => step_line(args),
        Keyword::Window => window_line(args),
        Keyword::Target => target_line(args),
        Keyword::Host => host_line(args),
        Keyword::Database => database_line(args),
        Keyword::Record => record_line(alloc, args),
        Keyword::Field => field_line(args),
        Keyword::Ask => ask_line(alloc, args),
        Keyword::To => carry_line(Way::To, args),
        Keyword::Release => carry_line(Way::Release, args),
        Keyword::From => carry_line(Way::From, args),
    }
}

/// Reads the tokens of a line. `Refused` if they are no line of a world file.
pub(crate) fn line_of(alloc: Global, tokens: &[Token]) -> Result<Line, LineFault>
    ensures { LineResult (line_of (token_texts tokens.now)) result }
{
    let [word, args @ ..] = tokens else {
        return Ok(Line::Empty);
    };
    match keyword_of(word.text.as_slice()) {
        Some(key) => line_by(alloc, key, args),
        None => Err(LineFault::Refused),
    }
}
