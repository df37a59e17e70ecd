//! The questions of a world, split into what is asked and the names of those asked.

ghost use Rattle.std.specs.Prelude.{◌≡◌, [], ◌++◌, ◌∷◌, IfOk, OnOk};
ghost use Rattle.zmeta_world.specs.Finding.{AreParts, IsOneMore};

use crate::world::AskedQuestion;
use bytes::Bytes;
use std::alloc::{AllocError, Global};
use zoom_questions::Question;

/// The questions, and the names of the targets or hosts that they go to, in the same order.
#[derive(Drop)]
pub(crate) struct Parts {
    /// The questions.
    pub questions: Vec<Question>,
    /// The name of the target or host of each question.
    pub names: Vec<Bytes>,
}

impl Parts {
    /// Returns the parts of no questions. It allocates nothing.
    fn new(alloc: Global) -> Parts
        ensures { AreParts [] result }
    {
        Parts {
            questions: Vec::new(alloc),
            names: Vec::new(alloc),
        }
    }

    /// Appends the parts of one question.
    fn put(&mut self, asked_question: AskedQuestion) -> Result<(), AllocError>
        ensures { OnOk result (IsOneMore asked_question self.old self.new) }
    {
        let AskedQuestion {
            line: _,
            name,
            end: _,
            question,
        } = asked_question;
        self.questions.push(question)?;
        self.names.push(name)?;
        Ok(())
    }
}

/// Appends one value.
pub(crate) fn add<A: Drop>(all: &mut Vec<A>, one: A) -> Result<(), AllocError>
    ensures { OnOk result (all.new.items ≡ all.old.items ++ one ∷ []) }
{
    Ok(all.push(one)?)
}

/// Splits questions into their parts.
pub(crate) fn split_questions(
    alloc: Global,
    asked_questions: Vec<AskedQuestion>,
) -> Result<Parts, AllocError>
    ensures { IfOk result (AreParts asked_questions.items) }
{
    let mut parts = Parts::new(alloc);
    for asked_question in asked_questions {
        parts.put(asked_question)?;
    }
    Ok(parts)
}
