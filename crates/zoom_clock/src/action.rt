//! What a caller is to do with the sockets of a connection.
ghost use Rattle.std.specs.Prelude.{◌≡◌, ◌++◌, ◌∷◌, [], OnOk};
ghost use Rattle.zoom_clock.specs.Actions.{for_connection};

use std::alloc::AllocError;
use std::collections::VecDeque;

/// What is to be done for a connection.
#[derive(Clone, Copy, PartialEq, Eq)]
pub enum Task {
    /// Begin to connect to the address of this number. The attempt has the same number.
    Connect(usize),
    /// Send all octets that wait on the connection.
    Send,
    /// Read octets of the connection from now on, and report them.
    Read,
    /// Close the socket of the attempt of this number, connected or not.
    Leave(usize),
}

/// A task for one connection.
#[derive(Clone, Copy, PartialEq, Eq)]
pub struct Action {
    /// The number of the connection.
    pub c: u32,
    pub task: Task,
}

/// Adds a task for a connection behind all others.
pub(crate) fn put(queue: &mut VecDeque<Action>, c: u32, task: Task) -> Result<(), AllocError>
    ensures { OnOk result (queue.new.items ≡ queue.old.items ++ for_connection c task ∷ []) }
{
    queue.push_back(Action { c, task })?;
    Ok(())
}
