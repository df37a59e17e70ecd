//! The command `show --trace`: prints the messages of a trace.

ghost use Rattle.std.specs.Prelude.{◌≡◌, IfOk, IfErr, IfSome, MatchResult};
ghost use Rattle.zmeta_args.specs.Texts.{texts_of};
ghost use Rattle.zmeta_devices.specs.Devices.{output_device, outputs};
ghost use Rattle.zmeta_trace.specs.Dialogue.{IsDialogue};
ghost use Rattle.zmeta_trace.specs.Heads.{head_texts};
ghost use Rattle.zmeta_commands.specs.Ask.{CanBeAsked};
ghost use Rattle.zmeta_commands.specs.Dialogue.{are_shown, IsOutside, IsDialogueBy, IsUnshownBy, IsDialogueOf, IsTraceUnshown, IsFileDialogue, IsFileUnshown, IsOfText, ShowTraceResult, IsOfShown, AfterDialogue};

use crate::replay::{chosen_in, fault_of, network_of, trace_in};
use crate::worlds::octets_at;
use bytes::Bytes;
use std::alloc::{AllocError, Global};
use std::io::Write;
use zmeta_devices::fault::{Fault, Status, end_done};
use zmeta_devices::files::Folder;
use zmeta_devices::output::Output;
use zmeta_offline::names::{first_unknown, is_picked};
use zmeta_trace::{Head, Shown, print_dialogue, read_head};
use zmeta_world::network::NetworkRun;
use zoom::Trace;

/// Prints the dialogue of the trace at a path: with the catalogues of these names, or with all if there are none.
///
/// `Line` with its number if a line of the trace is refused, as `replay_named` says. `NoQuestion` with the first name
/// that no catalogue of the trace has. Nothing is printed then.
pub(crate) fn dialogue_named<'a, 'o: 'a, F: Folder, W: Write, E: Write>(
    alloc: Global,
    files: &F,
    path: &'a str,
    only: &[&'a str],
    output: &mut Output<'o, W>,
    errors: &mut Output<'_, E>,
) -> Status
    ensures { AfterDialogue (texts_of only.now) (F.octets files.now path.entry.now) path.entry.now
        (outputs W.contents E.contents output.old errors.old)
        (outputs W.contents E.contents output.new errors.new) result }
{
    let shown = show_file(alloc, files, path, only, output);
    end_done(shown, errors)
}

/// Whether each catalogue of these names is shown.
fn chosen_of(alloc: Global, only: &[&str], names: &[Bytes]) -> Result<Vec<bool>, AllocError>
    ensures { IfOk result (λ chosen. chosen.items ≡ are_shown (texts_of only.now) names.now) }
{
    let mut chosen = Vec::new(alloc);
    for name in names {
        chosen.push(is_picked(only, name.as_slice()))?;
    }
    Ok(chosen)
}

/// Returns the text of the dialogue of these entries, with the catalogues of these names.
fn text_with<'a>(
    alloc: Global,
    trace: &Trace,
    only: &[&'a str],
    names: &[Bytes],
) -> Result<Vec<u8>, Fault<'a>>
    ensures { MatchResult result (λ text. IsDialogue names.now (are_shown (texts_of only.now) names.now)
        trace.now.entries.items text.items) (IsOutside names.now trace.now.entries.items) }
{
    let chosen = chosen_of(alloc, only, names)?;
    let shown = Shown {
        names,
        chosen: chosen.as_slice(),
    };
    let mut text = Vec::new(alloc);
    match print_dialogue(alloc, trace.entries.as_slice(), &shown, &mut text) {
        Ok(()) => Ok(text),
        Err(error) => Err(fault_of(error)),
    }
}

/// Returns the text of the dialogue of a trace with this head, whose world has this plan.
fn text_by<'a>(
    alloc: Global,
    trace: &Trace,
    head: &Head<'_>,
    network: &NetworkRun,
    only: &[&'a str],
) -> Result<Vec<u8>, Fault<'a>>
    requires { CanBeAsked network.now }
    ensures { MatchResult result (λ text. IsDialogueBy (texts_of only.now) trace.now (head_texts head.now) network.now
        text.items) (IsUnshownBy (texts_of only.now) trace.now (head_texts head.now) network.now) }
{
    let names = network.names.as_slice();
    let addresses = network.addresses.as_slice();
    match chosen_in(alloc, head.only.as_slice(), names, addresses) {
        Ok(chosen) => drop(chosen),
        Err(fault) => return Err(fault),
    }
    if let Some(unknown) = first_unknown(only, names) {
        return Err(Fault::NoQuestion(unknown));
    }
    text_with(alloc, trace, only, names)
}

/// Returns the text of the dialogue of a trace.
fn text_of<'a>(alloc: Global, trace: &Trace, only: &[&'a str]) -> Result<Vec<u8>, Fault<'a>>
    ensures { MatchResult result (λ text. IsDialogueOf (texts_of only.now) trace.now text.items)
        (IsTraceUnshown (texts_of only.now) trace.now) }
{
    let head = match read_head(alloc, trace.entries.as_slice()) {
        Ok(head) => head,
        Err(error) => return Err(fault_of(error)),
    };
    match network_of(alloc, &head) {
        Ok(network) => text_by(alloc, trace, &head, &network, only),
        Err(fault) => Err(fault),
    }
}

/// Returns the text of the dialogue of the file at a path.
#[tactic(auto, using(crate::proofs::Showing::text_faults))]
fn text_at<'a, F: Folder>(
    alloc: Global,
    files: &F,
    path: &'a str,
    only: &[&'a str],
) -> Result<Vec<u8>, Fault<'a>>
    ensures text { IfSome (F.octets files.now path.entry.now) (λ octets. MatchResult result
        (λ text. IsFileDialogue (texts_of only.now) octets text.items) (IsFileUnshown (texts_of only.now) octets)) }
    ensures fault { IfErr result (IsOfText path.entry.now) }
{
    let octets = octets_at(alloc, files, path)?;
    let trace = trace_in(alloc, octets.as_slice())?;
    drop(octets);
    text_of(alloc, &trace, only)
}

/// Prints the dialogue of the file at a path.
#[tactic(auto, using(crate::proofs::Showing::file_shown))]
fn show_file<'a, 'o: 'a, F: Folder, W: Write>(
    alloc: Global,
    files: &F,
    path: &'a str,
    only: &[&'a str],
    output: &mut Output<'o, W>,
) -> Result<(), Fault<'a>>
    ensures shown { IfSome (F.octets files.now path.entry.now) (λ octets. ShowTraceResult (texts_of only.now) octets
        (output_device W.contents output.old) (output_device W.contents output.new) result) }
    ensures fault { IfErr result (IsOfShown path.entry.now (output_device W.contents output.old).path) }
{
    match text_at(alloc, files, path, only) {
        Ok(text) => output.put(text.as_slice()),
        Err(fault) => Err(fault),
    }
}
