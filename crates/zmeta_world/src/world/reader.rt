//! The reader: the world of the lines that were read, and what the next line adds to it.
ghost use Rattle.std.specs.Prelude.{◌≡◌, ◌<◌, ◌^◌, ◌++◌, ◌∷◌, [], length, false, Some, IfOk, OnOk};
ghost use Rattle.zmeta_world.specs.declared.world.line.Line.TheVariants as lines;
ghost use Rattle.zmeta_world.specs.WorldParts.{list_of};
ghost use Rattle.zmeta_world.specs.Worlds.{empty, is_among, asked_names, end_of, is_defined, put_target, put_host, change_target, add_database, add_content, in_database, in_target, asked_question, move_of, put_move, IsQueryOf, AfterLine};
ghost use Rattle.zmeta_world.specs.WorldReading.{HasItsNames, world_of, AddResult, AddLineResult, ReadResult};

use crate::world::fault::LineFault;
use crate::world::line::{AskLine, Content, Line, Way};
use crate::world::names::add_name;
use crate::world::parsing::{query_of, read_line};
use crate::world::targets::{
    OpenTarget, closed_targets, with_target, with_target_content, with_target_database,
};
use crate::world::{AskedQuestion, End, NamedHost, World};
use bytes::Bytes;
use indexmap::IndexSet;
use std::alloc::{AllocError, Global};
use zber::Seq;
use zoom_questions::{Move, Question};
use zquery::Query;
use ztarget::TargetSettings;

/// The world of the lines that were read, with the sets of its names.
#[derive(Drop)]
pub(crate) struct Reader {
    alloc: Global,
    step: u32,
    window: u32,
    targets: Option<OpenTarget>,
    target_names: IndexSet<Bytes>,
    hosts: Vec<NamedHost>,
    host_names: IndexSet<Bytes>,
    questions: Vec<AskedQuestion>,
    asked_names: IndexSet<Bytes>,
    moves: Vec<Move>,
}

/// Makes a question in one database.
fn asked_question(
    alloc: Global,
    number: u64,
    line: AskLine,
    query: Query,
    end: End,
) -> Result<AskedQuestion, AllocError>
    ensures { IfOk result (λ i. i ≡ asked_question number line query end) }
{
    let AskLine {
        name,
        database,
        syntax,
        wanted,
        text: _,
    } = line;
    let mut databases = Vec::new(alloc);
    databases.push(database)?;
    Ok(AskedQuestion {
        line: number,
        name,
        end,
        question: Question {
            databases: Seq::from_vec(databases),
            query,
            syntax,
            elements: None,
            wanted,
        },
    })
}

fn move_of(way: Way, c: u32, k: u32) -> Move
    ensures { result ≡ move_of way c k }
{
    match way {
        Way::To => Move::To { c, k },
        Way::Release => Move::Release { c, k },
        Way::From => Move::From { c, k },
    }
}

impl Reader {
    /// Returns a reader that has read no line. It allocates nothing.
    pub(crate) fn new(alloc: Global) -> Reader
        ensures names { HasItsNames result }
        ensures world { world_of result ≡ empty }
    {
        Reader {
            alloc,
            step: 10,
            window: 4,
            targets: None,
            target_names: IndexSet::new(alloc),
            hosts: Vec::new(alloc),
            host_names: IndexSet::new(alloc),
            questions: Vec::new(alloc),
            asked_names: IndexSet::new(alloc),
            moves: Vec::new(alloc),
        }
    }

    /// Returns the world of all lines that were read.
    pub(crate) fn finish(self) -> Result<World, AllocError>
        ensures { IfOk result (λ world. world ≡ world_of self) }
    {
        Ok(World {
            step: self.step,
            window: self.window,
            targets: Seq::from_vec(closed_targets(self.alloc, self.targets)?),
            hosts: Seq::from_vec(self.hosts),
            questions: Seq::from_vec(self.questions),
            moves: Seq::from_vec(self.moves),
        })
    }

    /// Returns whether a target or a host has this name.
    fn is_defined(&self, name: &Bytes) -> bool
        requires { HasItsNames self.now }
        ensures { result ≡ is_defined name.now (list_of self.now.targets) self.now.hosts.items }
    {
        self.target_names.contains(name) || self.host_names.contains(name)
    }

    /// Returns the target or host that has this name.
    fn end_of(&self, name: &Bytes) -> Option<End>
        requires { HasItsNames self.now }
        ensures { result ≡ end_of name.now (list_of self.now.targets) self.now.hosts.items }
    {
        match self.target_names.get_index_of(name) {
            Some(place) => Some(End::Target(place)),
            None => match self.host_names.get_index_of(name) {
                Some(place) => Some(End::Host(place)),
                None => None,
            },
        }
    }

    fn add_target(&mut self, name: Bytes, settings: TargetSettings) -> Result<(), LineFault>
        requires { HasItsNames self.old }
        ensures { AddResult (put_target name settings (world_of self.old)) self.new result }
    {
        if self.is_defined(&name) {
            return Err(LineFault::Refused);
        }
        add_name(&mut self.target_names, &name)?;
        let targets = with_target(self.alloc, self.targets.take(), name, settings)?;
        self.targets = Some(targets);
        Ok(())
    }

    fn add_host(&mut self, name: Bytes, address: Bytes) -> Result<(), LineFault>
        requires { HasItsNames self.old }
        ensures { AddResult (put_host name address (world_of self.old)) self.new result }
    {
        if self.is_defined(&name) {
            return Err(LineFault::Refused);
        }
        add_name(&mut self.host_names, &name)?;
        self.hosts.push(NamedHost { name, address })?;
        Ok(())
    }

    fn add_database(&mut self, name: Bytes) -> Result<(), LineFault>
        requires { HasItsNames self.old }
        ensures { AddResult (change_target (add_database name) (world_of self.old)) self.new result }
    {
        let targets = with_target_database(self.alloc, self.targets.take(), name)?;
        self.targets = Some(targets);
        Ok(())
    }

    fn add_content(&mut self, content: Content) -> Result<(), LineFault>
        requires { HasItsNames self.old }
        ensures { AddResult (change_target (in_target (in_database (add_content content))) (world_of self.old))
            self.new result }
    {
        let targets = with_target_content(self.alloc, self.targets.take(), content)?;
        self.targets = Some(targets);
        Ok(())
    }

    fn push_question(&mut self, asked_question: AskedQuestion) -> Result<(), AllocError>
        requires names { HasItsNames self.old }
        requires new { is_among asked_question.name (asked_names self.old.questions.items) ≡ false }
        ensures names { OnOk result (HasItsNames self.new) }
        ensures world { OnOk result (world_of self.new
            ≡ record (world_of self.old) { questions = self.old.questions.items ++ asked_question ∷ [] }) }
    {
        if add_name(&mut self.asked_names, &asked_question.name).is_err() {
            drop(asked_question);
            return Err(AllocError);
        }
        self.questions.push(asked_question)?;
        Ok(())
    }

    fn add_query(
        &mut self,
        number: u64,
        line: AskLine,
        query: Query,
        end: End,
    ) -> Result<(), AllocError>
        requires names { HasItsNames self.old }
        requires new { is_among line.name (asked_names self.old.questions.items) ≡ false }
        requires defined { end_of line.name (list_of self.old.targets) self.old.hosts.items ≡ Some end }
        requires asked { IsQueryOf line.text query }
        ensures { OnOk result
            (HasItsNames self.new × AfterLine number (lines.Ask line) (world_of self.old) (world_of self.new)) }
    {
        let asked_question = asked_question(self.alloc, number, line, query, end)?;
        self.push_question(asked_question)
    }

    fn add_end(&mut self, number: u64, line: AskLine, end: End) -> Result<(), LineFault>
        requires names { HasItsNames self.old }
        requires new { is_among line.name (asked_names self.old.questions.items) ≡ false }
        requires defined { end_of line.name (list_of self.old.targets) self.old.hosts.items ≡ Some end }
        ensures { AddLineResult number (lines.Ask line) (world_of self.old) self.new result }
    {
        match query_of(self.alloc, line.text.as_slice()) {
            Ok(query) => Ok(self.add_query(number, line, query, end)?),
            Err(fault) => Err(fault),
        }
    }

    fn add_question(&mut self, number: u64, line: AskLine) -> Result<(), LineFault>
        requires { HasItsNames self.old }
        ensures { AddLineResult number (lines.Ask line) (world_of self.old) self.new result }
    {
        if self.asked_names.contains(&line.name) {
            return Err(LineFault::Refused);
        }
        match self.end_of(&line.name) {
            Some(end) => self.add_end(number, line, end),
            None => Err(LineFault::Refused),
        }
    }

    fn add_move(&mut self, way: Way, name: Bytes, k: u32) -> Result<(), LineFault>
        requires names { HasItsNames self.old }
        requires few { length self.old.questions.items < 2 ^ 32 }
        ensures { AddResult (put_move way name k (world_of self.old)) self.new result }
    {
        if !self.target_names.contains(&name) {
            return Err(LineFault::Refused);
        }
        let Some(c) = self.asked_names.get_index_of(&name) else {
            return Err(LineFault::Refused);
        };
        self.moves.push(move_of(way, c as u32, k))?;
        Ok(())
    }

    /// Adds the contents of line `number`.
    fn add_line(&mut self, number: u64, line: Line) -> Result<(), LineFault>
        requires names { HasItsNames self.old }
        requires few { length self.old.questions.items < 2 ^ 32 }
        ensures { AddLineResult number line (world_of self.old) self.new result }
    {
        match line {
            Line::Empty => Ok(()),
            Line::Step(step) => {
                self.step = step;
                Ok(())
            }
            Line::Window(window) => {
                self.window = window;
                Ok(())
            }
            Line::Target { name, settings } => self.add_target(name, settings),
            Line::Host { name, address } => self.add_host(name, address),
            Line::Database(name) => self.add_database(name),
            Line::Content(content) => self.add_content(content),
            Line::Ask(line) => self.add_question(number, line),
            Line::Carry { way, name, k } => self.add_move(way, name, k),
        }
    }

    /// Reads line `number`.
    ///
    /// `Refused` if the text is no line of a world file, or cannot follow the lines before it. After an error the
    /// reader is of no further use.
    pub(crate) fn read(&mut self, number: u64, text: &[u8]) -> Result<(), LineFault>
        requires names { HasItsNames self.old }
        requires few { length self.old.questions.items < 2 ^ 32 }
        ensures { ReadResult number text.now (world_of self.old) self.new result }
    {
        match read_line(self.alloc, text) {
            Ok(line) => self.add_line(number, line),
            Err(fault) => Err(fault),
        }
    }
}
