// Moves that are made, and a round with a target that stopped.
ghost use Rattle.std.specs.Prelude.{◌≡◌, length, IfOk};
ghost use Rattle.zmeta_world.specs.InMemoryRuns.{CanBeRun};

use crate::arranged::in_memory;
use std::alloc::{AllocError, Global};
use std::process::Abort;
use std::test::Fail;
use zapdu_rows::boxes::box_value;
use zber_rows::rows::{each_row, halves, pair};
use zber_rows::unread::{Unread, read};
use zmeta_world::in_memory::InMemoryRun;
use zoom_pool::{Meta, Reason, State};
use zoom_questions::Move;
use zoom_sim::channels::InMemory;
use zoom_sim::drives::drive_all;
use zoom_sim::peers::{Peer, peers_of};
use zoom_sim::rounds::make_moves;

const ONE: &[u8] = b"step 10
window 4
target c 48 cn
db d
rec 1.2.840.10003.5.10 c1
field 4 dune
rec 1.2.840.10003.5.10 c2
field 4 dune
rec 1.2.840.10003.5.10 c3
field 4 dune
rec 1.2.840.10003.5.10 c4
field 4 dune
rec 1.2.840.10003.5.10 c5
field 4 dune
rec 1.2.840.10003.5.10 c6
field 4 dune
rec 1.2.840.10003.5.10 c7
field 4 dune
ask c d - 10 \"@attr 1=4 dune\"
";

// Moves, and whether the target has then accepted the association. Init has 35 octets.
const MADE: &str = "\
- => false
to 0 35, rel 0 0, from 0 1000 => true
to 0 34, to 0 1, rel 0 0, from 0 10, from 0 1000 => true
to 0 34, rel 0 0, from 0 1000 => false
to 0 35, rel 0 1, from 0 1000 => false
to 0 35, rel 0 0, from 0 10 => false
to 0 35, from 0 1000, rel 0 0 => false
to 1 35, rel 1 0, from 1 1000 => false
";

fn step(text: &str) -> Result<Move, Unread> {
    let (word, rest) = pair(text);
    let (c, k) = pair(rest);
    let (c, k) = (c.parse::<u32>()?, k.parse::<u32>()?);
    match word {
        "to" => Ok(Move::To { c, k }),
        "rel" => Ok(Move::Release { c, k }),
        "from" => Ok(Move::From { c, k }),
        _ => Err(Unread),
    }
}

// The moves of a row, each by its word, the number of a connection and a number; `-` stands for none.
fn moves(alloc: Global, row: &str) -> Result<Vec<Move>, Unread> {
    let mut moves = Vec::new(alloc);
    if row == "-" {
        return Ok(moves);
    }
    for text in row.split(", ") {
        moves.push(step(text)?)?;
    }
    Ok(moves)
}

fn connection(alloc: Global, arrangement: InMemoryRun) -> Result<Box<Meta>, AllocError>
    requires { CanBeRun arrangement }
{
    let InMemoryRun {
        questions,
        settings,
        targets: _,
        names: _,
        moves: _,
    } = arrangement;
    let Ok(meta) = Meta::new(alloc, questions, settings) else {
        return Err(AllocError);
    };
    box_value(alloc, meta)
}

fn ends(alloc: Global, arrangement: InMemoryRun) -> Result<Vec<Peer>, AllocError>
    requires { CanBeRun arrangement }
{
    let InMemoryRun {
        questions: _,
        settings: _,
        targets,
        names: _,
        moves: _,
    } = arrangement;
    peers_of(alloc, targets.into_vec())
}

fn has_one(meta: &Meta) -> Result<(), Unread>
    ensures { IfOk result (λ _. length meta.now.pool.connections ≡ 1) }
{
    if meta.connections() == 1 {
        Ok(())
    } else {
        Err(Unread)
    }
}

fn drive(meta: &mut Meta) -> Result<(), Unread> {
    let Ok(()) = has_one(meta) else {
        return Err(Unread);
    };
    read(drive_all(meta))
}

// A connection, driven once.
fn driven_connection(alloc: Global) -> Result<Box<Meta>, Unread> {
    let Ok(arrangement) = in_memory(alloc, ONE) else {
        return Err(Unread);
    };
    let Ok(mut meta) = connection(alloc, arrangement) else {
        return Err(Unread);
    };
    if drive(&mut meta).is_err() {
        return Err(Unread);
    }
    Ok(meta)
}

// The target at its other end.
fn peers(alloc: Global) -> Result<Vec<Peer>, Unread> {
    let Ok(arrangement) = in_memory(alloc, ONE) else {
        return Err(Unread);
    };
    read(ends(alloc, arrangement))
}

fn state(meta: &Meta) -> Result<State, Unread> {
    let Ok(()) = has_one(meta) else {
        return Err(Unread);
    };
    Ok(meta.state(0))
}

fn make(peers: &mut [Peer], meta: &mut Meta, steps: &[Move]) -> Result<(), Unread> {
    let Ok(()) = has_one(meta) else {
        return Err(Unread);
    };
    if peers.len() != 1 {
        return Err(Unread);
    }
    read(make_moves(peers, meta, &mut InMemory, steps))
}

// Whether the target has accepted the association once these moves were made.
fn is_ready_after(alloc: Global, steps: &[Move]) -> Result<bool, Unread> {
    let Ok(mut meta) = driven_connection(alloc) else {
        return Err(Unread);
    };
    let Ok(mut peers) = peers(alloc) else {
        return Err(Unread);
    };
    if make(&mut peers, &mut meta, steps).is_err() {
        return Err(Unread);
    }
    Ok(matches!(state(&meta)?, State::Ready { .. }))
}

fn is_made(alloc: Global, row: &str) -> Result<bool, Unread> {
    let (steps, due) = halves(row);
    let Ok(steps) = moves(alloc, steps) else {
        return Err(Unread);
    };
    let Ok(due) = due.parse::<bool>().map_err(|_| Unread) else {
        return Err(Unread);
    };
    Ok(is_ready_after(alloc, steps.as_slice())? == due)
}

#[test]
fn moves_are_made(rt: HostRuntime) -> Result<(), Fail> {
    each_row(rt.alloc(), MADE, is_made)
}

// Feeds a target octets that are no message.
fn feed(peer: &mut Peer) -> Result<(), AllocError> {
    peer.host.feed(&[4, 0])
}

// A round with a target that stopped.
fn stop(peers: &mut [Peer], meta: &mut Meta) -> Result<bool, Unread> {
    let Ok(()) = has_one(meta) else {
        return Err(Unread);
    };
    if peers.len() != 1 {
        return Err(Unread);
    }
    if feed(&mut peers[0]).is_err() {
        return Err(Unread);
    }
    read(peers[0].go_round(meta, 0, &mut InMemory))
}

fn is_ended(alloc: Global) -> Result<bool, Unread> {
    let Ok(mut meta) = driven_connection(alloc) else {
        return Err(Unread);
    };
    let Ok(mut peers) = peers(alloc) else {
        return Err(Unread);
    };
    let Ok(begun) = state(&meta) else {
        return Err(Unread);
    };
    let Ok(carried) = stop(&mut peers, &mut meta) else {
        return Err(Unread);
    };
    let Ok(ended) = state(&meta) else {
        return Err(Unread);
    };
    Ok(begun == State::Initialising && carried && ended == State::Failed(Reason::Ended))
}

#[test]
fn a_target_that_stopped_ends_its_connection(rt: HostRuntime) {
    assert!(rt; is_ended(rt.alloc()).unwrap_or(false));
}
