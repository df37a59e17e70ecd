//! Help, and why arguments are wrong.
ghost use Rattle.zmeta_devices.specs.Devices.{output_device, outputs};
ghost use Rattle.zmeta_commands.specs.Arguments.{HelpResult, AfterNotice, AfterUsage};

use clap::Error;
use clap::error::ErrorKind;
use std::alloc::Global;
use std::fmt::Display;
use std::io::Write;
use zmeta_devices::fault::{Fault, Status, end_done};
use zmeta_devices::output::Output;

/// Writes `clap`'s text and returns the status. Wrong arguments are reported on `errors`, and help is printed on
/// `output`.
pub(crate) fn print_usage<'a, W: Write, E: Write>(
    alloc: Global,
    error: &Error,
    output: &mut Output<'a, W>,
    errors: &mut Output<'a, E>,
) -> Status
    ensures { AfterUsage error.now (outputs W.contents E.contents output.old errors.old)
        (outputs W.contents E.contents output.new errors.new) result }
{
    print_notice(alloc, error.kind(), error, output, errors)
}

/// Writes a text of this kind and returns the status: the whole text, whatever it says, and nothing else.
#[tactic(auto, using(crate::proofs::Running::told))]
fn print_notice<'a, D: Display, W: Write, E: Write>(
    alloc: Global,
    kind: ErrorKind,
    text: &D,
    output: &mut Output<'a, W>,
    errors: &mut Output<'a, E>,
) -> Status
    ensures { AfterNotice kind (D.output text.now) (outputs W.contents E.contents output.old errors.old)
        (outputs W.contents E.contents output.new errors.new) result }
{
    match kind {
        ErrorKind::OutOfMemory => Fault::Memory.report(errors),
        ErrorKind::DisplayHelp | ErrorKind::DisplayVersion => {
            let answer = print_help(alloc, text, output);
            end_done(answer, errors)
        }
        _ => {
            // The arguments are wrong even if this cannot be written.
            let _ = errors.show(text);
            Status::Arguments
        }
    }
}

/// Prints the text of help or the version, once it stands in memory.
fn print_help<'a, D: Display, W: Write>(
    alloc: Global,
    text: &D,
    output: &mut Output<'a, W>,
) -> Result<(), Fault<'a>>
    ensures { HelpResult (D.output text.now) (output_device W.contents output.old) (output_device W.contents output.new)
        result }
{
    let whole = text.to_string(alloc)?;
    output.put(whole.as_bytes())
}
