//! The command `serve`: a target of a world file answers clients over TCP.

ghost use Rattle.std.specs.Prelude.{◌≡◌, ◌≢◌, [], ◌∷◌, Err, IfErr, IfSome};
ghost use Rattle.zmeta_world.specs.InMemoryRuns.{IsFit, AreSmall};
ghost use Rattle.zmeta_devices.specs.Devices.{output_device};
ghost use Rattle.zmeta_commands.specs.Serve.{service_of, of_serve, ServedAt, ServeResult, ServeWorldResult, IsUnserved, IsServiceEnd, AfterServe};

use crate::doors::Doors;
use crate::worlds::world_in;
use std::alloc::Global;
use std::io::Write;
use std::time::Clock;
use zmeta_devices::fault::{Fault, Status, end_done};
use zmeta_devices::files::{Folder, file_at};
use zmeta_devices::output::Output;
use zmeta_world::world::{NamedTarget, World};
use zoom::{ServeError, serve};

/// Which target is served, where, and for how many connections.
#[derive(Clone, Copy)]
pub struct Service<'a> {
    /// The address to listen at, as `host:port`.
    pub address: &'a str,
    /// The name of the target.
    pub name: &'a str,
    /// The path of the world file.
    pub world: &'a str,
    /// How many connections are taken, up to 1,000,000.
    pub count: u32,
}

/// Serves a target of a world file at an address, for `count` connections one after the other. Each connection
/// gets a new target. If a connection fails, the next is still served.
///
/// If the target was not served, writes the reason on `errors`.
pub fn serve_named<'a, S: Folder + Doors + Clock, E: Write>(
    alloc: Global,
    system: &'a S,
    service: Service<'a>,
    errors: &mut Output<'_, E>,
) -> Status
    ensures { AfterServe (ServedAt S S.Client S.IsAt (S.IsShut system.now)) (service_of service.entry)
        (S.octets system.now service.entry.world.now)
        (output_device E.contents errors.old) (output_device E.contents errors.new) result }
{
    let answer = serve_file(alloc, system, service);
    end_done(answer, errors)
}

/// Reads the world, and serves its target.
fn serve_file<'a, S: Folder + Doors + Clock>(
    alloc: Global,
    system: &'a S,
    service: Service<'a>,
) -> Result<(), Fault<'a>>
    ensures serves { IfSome (S.octets system.now service.entry.world.now)
        (λ octets. ServeResult (ServedAt S S.Client S.IsAt (S.IsShut system.now)) (service_of service.entry) octets
        result) }
    ensures end { IsServiceEnd service.entry.world.now result }
{
    let mut file = file_at(system, service.world);
    let world = world_in(alloc, &mut file)?;
    let served = serve_world(alloc, system, service, &world);
    drop(world);
    served
}

/// Serves the target of a world that has the name.
fn serve_world<'a, S: Doors + Clock>(
    alloc: Global,
    system: &'a S,
    service: Service<'a>,
    world: &World,
) -> Result<(), Fault<'a>>
    requires { IsFit world.now }
    ensures serves { ServeWorldResult (ServedAt S S.Client S.IsAt (S.IsShut system.now)) (service_of service.entry)
        world.now result }
    ensures end { IfErr result IsUnserved }
{
    match world.target(service.name.as_bytes()) {
        Some(target) => serve_target(alloc, system, service.address, service.count, target),
        None => Err(Fault::Serve),
    }
}

/// Listens at an address, and serves a target for `count` connections. If that is 0, it needs no memory.
fn serve_target<'a, S: Doors + Clock>(
    alloc: Global,
    system: &'a S,
    address: &'a str,
    count: u32,
    target: &NamedTarget,
) -> Result<(), Fault<'a>>
    requires { AreSmall (target.now ∷ []) }
    ensures serves { ServedAt S S.Client S.IsAt (S.IsShut system.now) address.now target.now count result }
    ensures memory { result ≡ Err Fault.Memory → count ≢ 0 }
    ensures end { IfErr result IsUnserved }
{
    let Ok(door) = system.listen(address) else {
        return Err(Fault::Serve);
    };
    match serve(
        alloc,
        system,
        &door,
        &target.databases,
        target.settings,
        count,
    ) {
        Ok(()) => Ok(()),
        Err(error) => Err(fault_of(error)),
    }
}

/// Returns the fault for a target that cannot be served.
pub(crate) fn fault_of(error: ServeError) -> Fault<'static>
    ensures { result ≡ of_serve error }
{
    match error {
        ServeError::Listen => Fault::Serve,
        ServeError::Memory => Fault::Memory,
    }
}
