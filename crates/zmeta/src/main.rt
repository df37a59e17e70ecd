//! The command `zmeta`: a Z39.50 metasearch client.
#![tactic(auto)]

ghost use Rattle.std.specs.Prelude.{◌≡◌};
ghost use Rattle.std.specs.Process.{exit_status};
ghost use Rattle.zmeta_devices.specs.Faults.{code_of};

use std::io::{ErrorKind, IsTerminal, Stderr};
use std::process::ExitCode;
use std::{env, io};
use zmeta_commands::commands::run;
use zmeta_devices::fault::Status;
use zmeta_devices::input::Input;
use zmeta_devices::output::Output;

fn main(mut rt: HostRuntime) -> ExitCode {
    let arguments = arguments_of(&rt);
    let mut input = Input::new("-", rt.stdin());
    let mut output = Output::new("-", rt.stdout());
    let mut errors = Output::new("-", rt.stderr());
    let given = match &arguments {
        Ok(arguments) => Ok(arguments.as_slice()),
        Err(error) => Err(error.kind()),
    };
    let screen = screen_of(&rt);
    // A person gets faults in words, too.
    errors.explain(rt.alloc(), screen.is_some());
    exit_of(run(
        rt.alloc(),
        &mut rt,
        given,
        &mut input,
        &mut output,
        &mut errors,
        screen,
    ))
}

/// Standard error, where it is a terminal.
fn screen_of(rt: &HostRuntime) -> Option<Stderr> {
    let errors = rt.stderr();
    if errors.is_terminal() {
        Some(errors)
    } else {
        None
    }
}

/// The arguments of the command line.
fn arguments_of(rt: &HostRuntime) -> io::Result<Vec<String>> {
    match env::args(rt)?.collect::<Vec<String>>(rt.alloc()) {
        Ok(arguments) => Ok(arguments),
        Err(_) => Err(io::Error::from(ErrorKind::OutOfMemory)),
    }
}

/// The exit status of the command.
fn exit_of(status: Status) -> ExitCode
    ensures { exit_status result ≡ code_of status }
{
    ExitCode::from(status.code())
}
