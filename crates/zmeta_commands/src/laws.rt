//! Laws of the commands. Each is the contract of a function that does nothing.
ghost use Rattle.zmeta_commands.specs.Others.{OtherFilesLaw};
ghost use Rattle.zmeta_commands.specs.Replayed.{ReprintLaw};
ghost use Rattle.zmeta_commands.specs.Serve.{ServedAt};

use crate::doors::Doors;
use std::net::Net;
use std::time::Clock;
use zmeta_devices::files::Folder;
use zmeta_offline::laws::same_view_law;
use zmeta_trace::laws::{known_law, one_head_law};
use zmeta_world::laws::plan_law;
use zoom::laws::whole_law;

/// If `ask` did its work and wrote a trace, each `replay` of that trace that does its work prints the same on standard
/// output and on standard error, and saves the same. Premises: both use the same view, both tell faults in words or
/// neither; the limits are given, and are of less than 2^64 nanoseconds; and what `ask` told of why connections stopped
/// is what the trace says was noticed of their hosts.
///
/// Of a trace that is cut off, the entries that are read are the first that were written
/// (`zoom::laws::prefix_law`), and no line of it is refused (`sound_law`).
pub fn reprint_law()
    ensures { ReprintLaw }
{
    whole_law();
    one_head_law();
    plan_law();
    known_law();
    same_view_law();
}

/// Whatever a command does, and however it ends: at each path of another file than those of `--save` and `--trace`
/// stands what stood there.
pub fn other_files_law<S: Folder + Doors + Net + Clock>()
    ensures { (system : S) → OtherFilesLaw S.Stream (ServedAt S S.Client S.IsAt (S.IsShut system)) }
{}
