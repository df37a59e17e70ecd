//! Runs of questions against targets in memory.
ghost use Rattle.std.specs.Prelude.{◌≡◌, ◌<◌, ◌^◌, ◌++◌, true, length, IfOk, OnErr};
ghost use Rattle.zknow.specs.List.Listing.{listing};
ghost use Rattle.zoom_questions.specs.Askable.{AreFit, AreAskable};
ghost use Rattle.zoom_questions.specs.NewTargets.{AreNew};
ghost use Rattle.zoom_sim.specs.Run.{IsRun};
ghost use Rattle.zoom_sim.specs.RunRounds.{IsCompleteRun};
ghost use Rattle.zoom_sim.specs.RunMade.{IsMovedRun, IsMovedRunInMemory};
ghost use Rattle.zoom_sim.specs.RunCatalogue.{AreAnswerable, IsFaithfulRun, IsBroughtList};

use crate::channels::{Channel, InMemory};
use crate::laws::run_law;
use crate::peers::peers_of;
use crate::rounds::carry_out;
use std::alloc::{AllocError, Global};
use zber::Seq;
use zknow::{Mode, Names, print_list};
use zoom_pool::laws::one_transcript;
use zoom_pool::{Meta, MetaSettings, Move, Question};
use ztarget::Target;

/// Drives a connection for each question, with the target of the same number at its other end, until each connection
/// is Closed or Failed (Z39.50-2003, 3.2).
///
/// First, each connection is driven once. Then the moves are made, in order:
///
/// - `To` carries up to `k` octets to the target, which receives each whole message.
/// - `Release` releases pending reply `k` of the target.
/// - `From` carries up to `k` octets to the connection, which takes each whole message and is driven after each.
/// - A move on a connection that does not exist does nothing.
///
/// Then come rounds over all connections. A round carries all octets and releases all replies in order. If a round
/// carried and released nothing, the input of each connection that is not finished ends. If a target stopped, the input
/// of its connection ends once all its octets are carried. If the channel failed for a connection, it is stopped. No
/// connection is stopped for another reason, unless 2^64 - 1 rounds were made.
///
/// If the channel is sure to carry each piece, each connection has had a complete exchange with its target at the end.
/// It received exactly the replies that the target owes to its requests, each once, in some order. The exception is a
/// connection to whose requests the target owes a reply of more than 2,097,152 octets, the most of a message. It is
/// Failed for `Ended`.
///
/// A question is answerable if its search can be sent or was not skipped, and each record that is due fits. If its
/// target does not support the search, the response has at most 2,097,152 octets, as it has if the text that says why
/// has at most 2,000,000. The connection of an answerable question is then Closed, and exactly the facts are known of
/// its target that it brings from the target's databases.
///
/// Requires fewer than 2^32 questions that can be asked, settings that fit, and as many targets as questions. Each
/// target must have received nothing. Returns `AllocError` only if no memory is found.
pub fn run_over<W: Channel>(
    alloc: Global,
    questions: Vec<Question>,
    settings: MetaSettings,
    targets: Vec<Target>,
    channel: &mut W,
    moves: &[Move],
) -> Result<Meta, AllocError>
    // the questions and the settings
    requires some { length questions.items < 2 ^ 32 }
    requires askable { AreAskable questions.items }
    requires fit { AreFit settings }
    // a new target for each question
    requires new { AreNew targets.items }
    requires equal { length targets.items ≡ length questions.items }
    // over any channel
    ensures is_run { IfOk result (λ meta. IsRun questions.items settings targets.items meta) }
    ensures moved { IfOk result (λ meta. IsMovedRun W.carries_to W.carries_from W.fails
        questions.items settings targets.items moves.now channel.old channel.new meta) }
    // over a sure channel
    ensures whole { W.sure ≡ true
        → IfOk result (λ meta. IsCompleteRun questions.items settings targets.items meta) }
    ensures brings { W.sure ≡ true
        → IfOk result (λ meta. IsFaithfulRun questions.items targets.items meta) }
    // a connection for each question
    ensures size { IfOk result (λ meta. length meta.pool.connections ≡ length questions.items) }
{
    let mut meta = Meta::new(alloc, Seq::from_vec(questions), settings)?;
    let mut peers = peers_of(alloc, targets)?;
    carry_out(&mut peers, &mut meta, channel, moves)?;
    run_law();
    one_transcript();
    Ok(meta)
}

/// Does what `run_over` does, within memory, and appends the list of what is known at the end to `out`.
///
/// Memory carries each piece. So each connection has had a complete exchange with its target, or it is Failed for
/// `Ended` and the target owes a reply of more than 2,097,152 octets to its requests.
///
/// If each question is answerable, it appends the list of exactly the facts that the questions bring.
///
/// It requires what `run_over` requires. Returns `AllocError` only if no memory is found; `out` is unchanged.
pub fn run_world(
    alloc: Global,
    questions: Vec<Question>,
    settings: MetaSettings,
    targets: Vec<Target>,
    moves: &[Move],
    names: &Names,
    mode: Mode,
    out: &mut Vec<u8>,
) -> Result<Meta, AllocError>
    // the questions and the settings
    requires some { length questions.items < 2 ^ 32 }
    requires askable { AreAskable questions.items }
    requires fit { AreFit settings }
    // a new target for each question
    requires new { AreNew targets.items }
    requires equal { length targets.items ≡ length questions.items }
    // the run
    ensures is_run { IfOk result (λ meta. IsRun questions.items settings targets.items meta) }
    ensures moved { IfOk result
        (λ meta. IsMovedRunInMemory questions.items settings targets.items moves.now meta) }
    ensures whole { IfOk result (λ meta. IsCompleteRun questions.items settings targets.items meta) }
    ensures brings { IfOk result (λ meta. IsFaithfulRun questions.items targets.items meta) }
    ensures size { IfOk result (λ meta. length meta.pool.connections ≡ length questions.items) }
    // the list
    ensures list { IfOk result
        (λ meta. out.new.items ≡ out.old.items ++ listing names.now mode meta.pool.knowledge) }
    ensures brings_list { IfOk result (λ meta. AreAnswerable questions.items targets.items meta
        → IsBroughtList questions.items targets.items names.now mode out.old.items out.new.items) }
    // if no memory is found
    ensures err { OnErr result (out.new.items ≡ out.old.items) }
{
    let meta = run_over(alloc, questions, settings, targets, &mut InMemory, moves)?;
    print_list(alloc, meta.knowledge(), names, mode, out)?;
    Ok(meta)
}
