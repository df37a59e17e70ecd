//! Moves, and rounds over all connections until each is finished.
ghost use Rattle.std.specs.Prelude.{◌≡◌, ◌<◌, ◌^◌, true, List, [], length, IfOk, OnOk};
ghost use Rattle.ztarget.specs.Receiving.{TargetState};
ghost use Rattle.zoom_questions.specs.declared.question.Question.{Question};
ghost use Rattle.zoom_questions.specs.declared.question.MetaSettings.{MetaSettings};
ghost use Rattle.zoom_pool.specs.Metas.{MetaAfter};
ghost use Rattle.zoom_sim.specs.RunSteps.{AfterMoves, AfterAllRounds, ArePeersOf};
ghost use Rattle.zoom_sim.specs.RunRounds.{AfterSoundMoves, AfterSoundRound, AfterRoundOrEnd, AfterAllSoundRounds, IsCompleteRun};
ghost use Rattle.zoom_sim.specs.RunMoves.{AfterMoveIf, AreMade};
ghost use Rattle.zoom_sim.specs.RunMade.{RoundStep, GoOnStep, FinishStep, MovesFirst};

use crate::channels::Channel;
use crate::drives::{drive_all, end_inputs, stop_all};
use crate::peers::{Peer, connection_of};
use std::alloc::AllocError;
use zoom_laws::laws::exchange_laws;
use zoom_pool::laws::one_transcript;
use zoom_pool::{Meta, Move};

/// The most rounds. If nothing fails, each connection that is not finished sends at least one octet more in each round.
const MOST_ROUNDS: u64 = u64::MAX;

/// Makes one move. A move on a connection that does not exist does nothing.
fn make_move<W: Channel>(
    peers: &mut [Peer],
    meta: &mut Meta,
    channel: &mut W,
    step: Move,
) -> Result<(), AllocError>
    // the connections, and a peer for each
    requires few { length meta.old.pool.connections < 2 ^ 32 }
    requires equal { length peers.old ≡ length meta.old.pool.connections }
    // the worlds after it
    ensures goes { OnOk result (AfterMoves meta.old meta.new peers.old peers.new) }
    ensures stays { W.sure ≡ true → OnOk result (AfterSoundMoves meta.old meta.new peers.old peers.new) }
    // the move
    ensures moved { OnOk result (AfterMoveIf W.carries_to W.carries_from W.fails step
        channel.old channel.new meta.old meta.new peers.old peers.new) }
    // in each case
    ensures size { length meta.new.pool.connections ≡ length meta.old.pool.connections }
{
    let c = connection_of(step);
    if c as usize >= peers.len() {
        return Ok(());
    }
    peers[c as usize].make(meta, c, channel, step)?;
    Ok(())
}

/// Makes the moves in order. A move on a connection that does not exist does nothing.
///
/// Requires fewer than 2^32 connections, and one peer for each. Returns `AllocError` if no memory is found; the number
/// of connections is unchanged.
pub fn make_moves<W: Channel>(
    peers: &mut [Peer],
    meta: &mut Meta,
    channel: &mut W,
    moves: &[Move],
) -> Result<(), AllocError>
    // the connections, and a peer for each
    requires few { length meta.old.pool.connections < 2 ^ 32 }
    requires equal { length peers.old ≡ length meta.old.pool.connections }
    // the worlds after them
    ensures goes { OnOk result (AfterMoves meta.old meta.new peers.old peers.new) }
    ensures stays { W.sure ≡ true → OnOk result (AfterSoundMoves meta.old meta.new peers.old peers.new) }
    // the moves
    ensures moved { OnOk result (AreMade W.carries_to W.carries_from W.fails channel.old meta.old peers.old
        moves.now channel.new meta.new peers.new) }
    // in each case
    ensures size { length meta.new.pool.connections ≡ length meta.old.pool.connections }
{
    for step in moves {
        make_move(peers, meta, channel, *step)?;
    }
    Ok(())
}

/// Makes a round over all connections. Returns whether anything was carried or released.
fn go_round<W: Channel>(
    peers: &mut [Peer],
    meta: &mut Meta,
    channel: &mut W,
) -> Result<bool, AllocError>
    requires few { length meta.old.pool.connections < 2 ^ 32 }
    requires equal { length peers.old ≡ length meta.old.pool.connections }
    ensures goes { OnOk result (AfterMoves meta.old meta.new peers.old peers.new) }
    ensures rounds { W.sure ≡ true
        → IfOk result (λ moved. AfterSoundRound moved meta.old meta.new peers.old peers.new) }
    ensures own { IfOk result (λ moved. RoundStep W.carries_to W.carries_from W.fails moved
        channel.old channel.new meta.old meta.new peers.old peers.new) }
    ensures size { length meta.new.pool.connections ≡ length meta.old.pool.connections }
{
    one_transcript();
    let mut any = false;
    for c in 0..peers.len() {
        let moved = peers[c].go_round(meta, c as u32, channel)?;
        any = any | moved;
    }
    Ok(any)
}

/// Makes a round. If nothing was carried or released, ends the input of each connection that is not finished.
fn go_on<W: Channel>(peers: &mut [Peer], meta: &mut Meta, channel: &mut W) -> Result<(), AllocError>
    requires few { length meta.old.pool.connections < 2 ^ 32 }
    requires equal { length peers.old ≡ length meta.old.pool.connections }
    ensures goes { OnOk result (AfterMoves meta.old meta.new peers.old peers.new) }
    ensures grows { W.sure ≡ true → OnOk result (AfterRoundOrEnd meta.old meta.new peers.old peers.new) }
    ensures own { OnOk result (GoOnStep W.carries_to W.carries_from W.fails
        channel.old channel.new meta.old meta.new peers.old peers.new) }
    ensures size { length meta.new.pool.connections ≡ length meta.old.pool.connections }
{
    exchange_laws();
    if go_round(peers, meta, channel)? {
        Ok(())
    } else {
        end_inputs(meta)
    }
}

/// Makes rounds until each connection is finished. Stops the connections that are not finished after the last round.
fn finish<W: Channel>(
    peers: &mut [Peer],
    meta: &mut Meta,
    channel: &mut W,
) -> Result<(), AllocError>
    requires few { length meta.old.pool.connections < 2 ^ 32 }
    requires equal { length peers.old ≡ length meta.old.pool.connections }
    ensures ends { OnOk result (AfterAllRounds meta.old meta.new peers.old) }
    ensures whole { W.sure ≡ true → OnOk result (AfterAllSoundRounds meta.old meta.new peers.old) }
    ensures own { OnOk result (FinishStep W.carries_to W.carries_from W.fails
        channel.old channel.new meta.old meta.new peers.old peers.new) }
    ensures size { length meta.new.pool.connections ≡ length meta.old.pool.connections }
{
    one_transcript();
    exchange_laws();
    for _ in 0..MOST_ROUNDS {
        if meta.finished() {
            return Ok(());
        }
        go_on(peers, meta, channel)?;
    }
    end_inputs(meta)?;
    stop_all(meta);
    Ok(())
}

/// Drives each connection once, makes the moves, and makes rounds until each connection is finished.
pub(crate) fn carry_out<W: Channel>(
    peers: &mut [Peer],
    meta: &mut Meta,
    channel: &mut W,
    moves: &[Move],
) -> Result<(), AllocError>
    // the connections, and a peer for each
    requires few { length meta.old.pool.connections < 2 ^ 32 }
    requires equal { length peers.old ≡ length meta.old.pool.connections }
    // over any channel
    ensures ends { OnOk result (AfterAllRounds meta.old meta.new peers.old) }
    ensures moved { OnOk result (MovesFirst W.carries_to W.carries_from W.fails moves.now
        channel.old channel.new meta.old meta.new peers.old peers.new) }
    // over a sure channel
    ensures whole { W.sure ≡ true → OnOk result ((questions : List Question) (s : MetaSettings)
        (targets : List TargetState) → MetaAfter questions s [] meta.old → ArePeersOf targets peers.old
        → length targets ≡ length questions → IsCompleteRun questions s targets meta.new) }
    // in each case
    ensures size { length meta.new.pool.connections ≡ length meta.old.pool.connections }
{
    drive_all(meta)?;
    make_moves(peers, meta, channel, moves)?;
    finish(peers, meta, channel)
}
