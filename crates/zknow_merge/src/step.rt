//! What a merge says after each step.
use zknow::LoadError;

/// What a merge needs next, or how it ended. Inputs have numbers from 0.
#[derive(Clone, Copy, PartialEq, Eq, Drop)]
pub enum Step {
    /// Octets of this input are needed: call `feed` with the next piece of it, or `end` at its end.
    Need(usize),
    /// Nothing is needed: call `next` again.
    Again,
    /// The input has this fault, as `load` returns it for each file that goes on from here. All inputs before it are at
    /// their ends, and are saved files with the same names.
    Refused { input: usize, fault: LoadError },
    /// The input is a saved file, and has other names than the first. All inputs before it are at their ends, and are
    /// saved files with the names of the first.
    NamesDiffer { input: usize },
    /// All inputs are at their ends, and the octets handed out are the saved file of all their facts.
    Done,
}
