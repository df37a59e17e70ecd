//! From the arguments of the command line to the command that they ask for.
ghost use Rattle.std.specs.Prelude.{◌≡◌, Err, IfErr, IfOk, MatchResult, map, string_bytes};
ghost use Rattle.zmeta_devices.specs.Devices.{output_device, outputs, streams, explaining_streams};
ghost use Rattle.zmeta_devices.specs.Files.{folder};
ghost use Rattle.zmeta_commands.specs.Arguments.{AfterCall, AfterArguments, AfterUsage, IsWrong};
ghost use Rattle.zmeta_commands.specs.Serve.{ServedAt};

use crate::ask::{AskOptions, ask_named};
use crate::choice::{Choice, limits_of, manner_of};
use crate::dialogue::dialogue_named;
use crate::doors::Doors;
use crate::finished::Paths;
use crate::looped::loop_named;
use crate::replay::{ReplayPaths, replay_named};
use crate::run::run_named;
use crate::serve::{Service, serve_named};
use crate::usage::print_usage;
use clap::Error;
use std::alloc::Global;
use std::io::{ErrorKind, Write};
use std::net::Net;
use std::time::Clock;
use zmeta_args::{Arguments, CommandLine, odd_arguments, parse};
use zmeta_catalogue_files::{catalogues_named, catalogues_of_world, world_of_catalogues};
use zmeta_devices::fault::{Fault, Status};
use zmeta_devices::files::Folder;
use zmeta_devices::input::Input;
use zmeta_devices::output::Output;
use zmeta_devices::readable::Readable;
use zmeta_offline::join::{join_named, join_saved};
use zmeta_offline::merged::merge_named;
use zmeta_offline::new::new_named;
use zmeta_offline::pqf::pqf;
use zmeta_offline::records::{Extract, SavedFiles, records_named};
use zmeta_offline::show::show;

/// Runs the command that the arguments ask for: `arguments[0]` is the program's name and `arguments[1]` that of
/// the command.
///
/// `Err` gives the reason that there are no arguments: they are not UTF-8, or no memory was found. Then nothing is
/// read and nothing is printed on `output`. The result is `Memory` for `ErrorKind::OutOfMemory`, else `Arguments`
/// or `Memory`.
///
/// `ask` writes its progress on `screen`, if there is one.
pub fn run<'a, S: Folder + Doors + Net + Clock, R: Readable, W: Write, E: Write, P: Write + Drop>(
    alloc: Global,
    system: &mut S,
    arguments: Result<&[String], ErrorKind>,
    input: &mut Input<'a, R>,
    output: &mut Output<'a, W>,
    errors: &mut Output<'a, E>,
    screen: Option<P>,
) -> Status
    ensures done { IfOk arguments.entry (λ arguments. AfterArguments
        S.Stream (ServedAt S S.Client S.IsAt (S.IsShut system.old)) (map string_bytes arguments.now)
        (folder S.octets S.are_one S.steps system.old) (folder S.octets S.are_one S.steps system.new)
        (streams R.remaining W.contents E.contents input.old output.old errors.old)
        (streams R.remaining W.contents E.contents input.new output.new errors.new) result) }
    ensures wrong { IfErr arguments.entry (λ _. IsWrong result) }
    ensures memory { arguments.entry ≡ Err ErrorKind.OutOfMemory → result ≡ Status.Memory }
    ensures silent { IfErr arguments.entry (λ _. output_device W.contents output.new
        ≡ output_device W.contents output.old) }
    ensures unread { IfErr arguments.entry (λ _. input.new ≡ input.old) }
    ensures unmade { IfErr arguments.entry (λ _. system.new ≡ system.old) }
{
    match arguments {
        Ok(arguments) => run_arguments(alloc, system, arguments, input, output, errors, screen),
        Err(kind) => refuse(alloc, kind, output, errors),
    }
}

/// Runs the command that the arguments ask for.
fn run_arguments<
    'a,
    S: Folder + Doors + Net + Clock,
    R: Readable,
    W: Write,
    E: Write,
    P: Write + Drop,
>(
    alloc: Global,
    system: &mut S,
    arguments: &[String],
    input: &mut Input<'a, R>,
    output: &mut Output<'a, W>,
    errors: &mut Output<'a, E>,
    screen: Option<P>,
) -> Status
    ensures { AfterArguments S.Stream (ServedAt S S.Client S.IsAt (S.IsShut system.old))
        (map string_bytes arguments.now)
        (folder S.octets S.are_one S.steps system.old) (folder S.octets S.are_one S.steps system.new)
        (streams R.remaining W.contents E.contents input.old output.old errors.old)
        (streams R.remaining W.contents E.contents input.new output.new errors.new) result }
{
    let asked = parse(alloc, arguments);
    run_parsed(alloc, system, asked, input, output, errors, screen)
}

/// Runs the command that was asked for, or reports why there is none.
fn run_parsed<
    'a,
    S: Folder + Doors + Net + Clock,
    R: Readable,
    W: Write,
    E: Write,
    P: Write + Drop,
>(
    alloc: Global,
    system: &mut S,
    asked: Result<CommandLine<'_>, Error>,
    input: &mut Input<'a, R>,
    output: &mut Output<'a, W>,
    errors: &mut Output<'a, E>,
    screen: Option<P>,
) -> Status
    ensures { MatchResult asked.entry
        (λ line. AfterCall S.Stream (ServedAt S S.Client S.IsAt (S.IsShut system.old)) line.command
        (folder S.octets S.are_one S.steps system.old) (folder S.octets S.are_one S.steps system.new)
        (explaining_streams line.explain (streams R.remaining W.contents E.contents input.old output.old errors.old))
        (streams R.remaining W.contents E.contents input.new output.new errors.new) result)
        (λ error. (system.new ≡ system.old) × (input.new ≡ input.old)
        × AfterUsage error (outputs W.contents E.contents output.old errors.old)
        (outputs W.contents E.contents output.new errors.new) result) }
{
    match asked {
        Ok(line) => {
            errors.explain(alloc, line.explain);
            call(alloc, system, line.command, input, output, errors, screen)
        }
        Err(error) => print_usage(alloc, &error, output, errors),
    }
}

/// Reports why there are no arguments: they are not UTF-8, or no memory was found.
fn refuse<'a, W: Write, E: Write>(
    alloc: Global,
    kind: ErrorKind,
    output: &mut Output<'a, W>,
    errors: &mut Output<'a, E>,
) -> Status
    ensures memory { kind ≡ ErrorKind.OutOfMemory → result ≡ Status.Memory }
    ensures wrong { IsWrong result }
    ensures silent { output_device W.contents output.new ≡ output_device W.contents output.old }
{
    if kind == ErrorKind::OutOfMemory {
        return Fault::Memory.report(errors);
    }
    match odd_arguments(alloc) {
        Ok(error) => print_usage(alloc, &error, output, errors),
        Err(_) => Fault::Memory.report(errors),
    }
}

/// Runs a command with its arguments.
fn call<'a, S: Folder + Doors + Net + Clock, R: Readable, W: Write, E: Write, P: Write + Drop>(
    alloc: Global,
    system: &mut S,
    asked: Arguments<'_>,
    input: &mut Input<'a, R>,
    output: &mut Output<'a, W>,
    errors: &mut Output<'a, E>,
    screen: Option<P>,
) -> Status
    ensures { AfterCall S.Stream (ServedAt S S.Client S.IsAt (S.IsShut system.old)) asked.entry
        (folder S.octets S.are_one S.steps system.old) (folder S.octets S.are_one S.steps system.new)
        (streams R.remaining W.contents E.contents input.old output.old errors.old)
        (streams R.remaining W.contents E.contents input.new output.new errors.new) result }
{
    match asked {
        Arguments::Show => show(alloc, input, output, errors),
        Arguments::Dialogue { trace, only } => {
            dialogue_named(alloc, system, trace, only.as_slice(), output, errors)
        }
        Arguments::Pqf { text, search } => pqf(alloc, text, &search, output, errors),
        Arguments::Join {
            first,
            others,
            saved,
            quiet,
            view,
        } => {
            let others = others.as_slice();
            match saved {
                None => join_named(alloc, system, first, others, view, output, errors),
                Some(path) if quiet => merge_named(alloc, system, first, others, path, errors),
                Some(path) => join_saved(alloc, system, first, others, path, view, output, errors),
            }
        }
        Arguments::Run {
            world,
            saved,
            search,
            view,
        } => run_named(
            alloc,
            system,
            Paths { world, saved },
            &search,
            view,
            output,
            errors,
        ),
        Arguments::New {
            earlier,
            later,
            view,
        } => new_named(alloc, system, earlier, later, view, output, errors),
        Arguments::Records {
            first,
            others,
            since,
            only,
            syntax,
            conflicts,
        } => {
            let saved = SavedFiles {
                first,
                others: others.as_slice(),
            };
            let wanted = Extract {
                since,
                only: only.as_slice(),
                syntax,
                conflicts,
            };
            records_named(alloc, system, saved, wanted, output, errors)
        }
        Arguments::Replay { trace, saved, view } => replay_named(
            alloc,
            system,
            ReplayPaths { trace, saved },
            view,
            output,
            errors,
        ),
        Arguments::Ask {
            world,
            saved,
            trace,
            at_once,
            only,
            limits,
            search,
            view,
        } => {
            let choice = Choice {
                manner: manner_of(at_once),
                only: only.as_slice(),
                limits: limits_of(&limits),
            };
            let options = AskOptions {
                paths: Paths { world, saved },
                trace,
                choice,
                given: &limits,
                search: &search,
                view,
            };
            ask_named(alloc, system, options, screen, output, errors)
        }
        Arguments::Loop {
            world,
            saved,
            search,
            view,
        } => loop_named(
            alloc,
            system,
            Paths { world, saved },
            &search,
            view,
            output,
            errors,
        ),
        Arguments::Serve {
            address,
            name,
            world,
            count,
        } => {
            let service = Service {
                address,
                name,
                world,
                count,
            };
            serve_named(alloc, system, service, errors)
        }
        Arguments::Catalogues { path } => catalogues_named(alloc, system, path, output, errors),
        Arguments::WorldOf { catalogues, search } => {
            world_of_catalogues(alloc, system, catalogues, &search, output, errors)
        }
        Arguments::CataloguesOf { world } => {
            catalogues_of_world(alloc, system, world, output, errors)
        }
    }
}
