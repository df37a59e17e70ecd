//! The lines of the catalogues whose connection stopped.
ghost use Rattle.std.specs.Prelude.{◌≡◌, ◌++◌, OnOk, string_bytes};
ghost use Rattle.zknow_json.specs.Stops.{reason_members, stop_line, stop_lines, lines_from};

use crate::line::Line;
use crate::sets::put_catalogue;
use std::alloc::{AllocError, Global};
use zknow::Names;
use zknow_stops::Stop;

/// Writes the name of the reason, and what can be told of it.
#[tactic(auto, unfolding(crate::specs::Stops::reason_members))]
fn put_reason(alloc: Global, stop: &Stop, line: &mut Line) -> Result<(), AllocError>
    ensures { OnOk result (line.new ≡ line.old ++ reason_members stop.now) }
{
    let reason = String::from_utf8_lossy(alloc, stop.reason.as_bytes())?;
    line.put_text("reason", reason.as_str())?;
    let mut words = String::new(alloc);
    stop.detail.put_words(alloc, &mut words)?;
    line.put_text("detail", words.as_str())
}

/// Appends the line of a target that stopped.
#[tactic(auto, unfolding(crate::specs::Stops::stop_line))]
fn put_stop_line(
    alloc: Global,
    names: &Names,
    target: usize,
    stop: &Stop,
    out: &mut String,
) -> Result<(), AllocError>
    ensures { OnOk result (string_bytes out.new ≡ string_bytes out.old ++ stop_line names.now target stop.now) }
{
    let mut line = Line::new(alloc)?;
    line.put_text("type", "stopped")?;
    put_catalogue(names, target, &mut line)?;
    put_reason(alloc, stop, &mut line)?;
    line.finish(out)
}

/// Appends the line of a target, if it stopped.
fn put_stop(
    alloc: Global,
    names: &Names,
    target: usize,
    stop: &Option<Stop>,
    out: &mut String,
) -> Result<(), AllocError>
    ensures { OnOk result (string_bytes out.new ≡ string_bytes out.old ++ stop_lines names.now target stop.now) }
{
    match stop {
        None => Ok(()),
        Some(stop) => put_stop_line(alloc, names, target, stop, out),
    }
}

/// Appends the line of each target that stopped.
pub(crate) fn put_stops(
    alloc: Global,
    names: &Names,
    stops: &[Option<Stop>],
    out: &mut String,
) -> Result<(), AllocError>
    ensures { OnOk result (string_bytes out.new ≡ string_bytes out.old ++ lines_from names.now 0 stops.now) }
{
    for (target, stop) in stops.iter().enumerate() {
        put_stop(alloc, names, target, stop, out)?;
    }
    Ok(())
}
