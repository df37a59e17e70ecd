//! Runs: hosts in memory are asked, by a seed.
use crate::asking::agenda::{Agenda, Event, What};
use crate::asking::catalogues::questions;
use crate::asking::conduct::Conduct;
use crate::asking::fault::Fault;
use crate::asking::peers::Peer;
use crate::asking::simulation::Simulation;
use crate::asking::tempers::{MILLISECOND, Nature, Temper, draw_nature};
use bytes::Bytes;
use std::alloc::Global;
use zber::Seq;
use zber_rows::dice::Dice;
use zoom_asking::{AskedHost, Asking, Manner, Report};
use zoom_questions::MetaSettings;

/// What a run does, all else by dice.
#[derive(Clone, Copy)]
pub struct Plan {
    /// Where the dice begin.
    pub seed: u64,
    /// How many hosts there are.
    pub hosts: u32,
    /// Whether they are asked at once, or in order.
    pub at_once: bool,
    /// Whether the caller gives up in the midst.
    pub gives_up: bool,
}

impl Plan {
    /// How long all may take, in nanoseconds.
    fn total(&self) -> u64 {
        if self.at_once {
            5_000 * MILLISECOND
        } else {
            30_000 * MILLISECOND
        }
    }

    fn manner(&self) -> Manner {
        if self.at_once {
            Manner::AtOnce
        } else {
            Manner::InOrder
        }
    }
}

/// The natures of the hosts.
fn natures(alloc: Global, hosts: u32, dice: &mut Dice) -> Result<Vec<Nature>, Fault> {
    let mut natures = Vec::new(alloc);
    for _ in 0..hosts {
        natures.push(draw_nature(dice))?;
    }
    Ok(natures)
}

/// Whom to ask, unless the host is not chosen.
fn asked_host(nature: Nature) -> Option<AskedHost> {
    if matches!(nature.temper, Temper::Unasked) {
        return None;
    }
    Some(AskedHost {
        connect: 1_000 * MILLISECOND,
        patience: 1_000 * MILLISECOND,
    })
}

/// Begins to ask hosts of these natures.
fn begin(alloc: Global, natures: &[Nature], plan: Plan, now: u64) -> Result<Asking, Fault> {
    let mut hosts = Vec::new(alloc);
    for nature in natures {
        hosts.push(asked_host(*nature))?;
    }
    let questions = questions(alloc, natures.len())?;
    if questions.len() != hosts.len() || questions.len() > 1_000_000 {
        return Err(Fault::Unread);
    }
    let settings = MetaSettings {
        name: Bytes::from_static(b"zmeta"),
        step: 3,
        window: 4,
    };
    let (manner, total) = (plan.manner(), Some(plan.total()));
    Ok(Asking::new(
        alloc,
        Seq::from_vec(questions),
        settings,
        hosts.as_slice(),
        manner,
        total,
        now,
    )?)
}

/// The names of the hosts are to be resolved, and nothing else happens.
fn agenda(alloc: Global, natures: &[Nature], now: u64) -> Result<Agenda, Fault> {
    let mut agenda = Agenda::new(alloc);
    let mut c = 0;
    for nature in natures {
        if !matches!(nature.temper, Temper::Unasked | Temper::Unresolved) {
            agenda.put(Event {
                time: now.saturating_add(nature.resolves_in),
                c,
                what: What::Report(Report::Resolved(nature.addresses)),
            })?;
        }
        c = c.saturating_add(1);
    }
    Ok(agenda)
}

/// The hosts of these natures.
fn peers(alloc: Global, natures: &[Nature]) -> Result<Vec<Peer>, Fault> {
    let mut peers = Vec::new(alloc);
    let mut c = 0;
    for nature in natures {
        peers.push(Peer::new(alloc, c, *nature)?)?;
        c = c.saturating_add(1);
    }
    Ok(peers)
}

/// What their connections may ask for, of which none was begun.
fn conducts(alloc: Global, natures: &[Nature]) -> Result<Vec<Conduct>, Fault> {
    let mut conducts = Vec::new(alloc);
    for nature in natures {
        conducts.push(Conduct::new(alloc, nature.addresses)?)?;
    }
    Ok(conducts)
}

/// A run of hosts of these natures that has begun. No step that can fail follows the one that begins to ask.
fn begun(
    alloc: Global,
    natures: &[Nature],
    plan: Plan,
    now: u64,
    dice: Dice,
    gives_up: Option<u64>,
) -> Result<Simulation, Fault> {
    let agenda = agenda(alloc, natures, now)?;
    let conducts = conducts(alloc, natures)?;
    let peers = peers(alloc, natures)?;
    let asking = begin(alloc, natures, plan, now)?;
    Ok(Simulation {
        alloc,
        asking,
        peers,
        conducts,
        agenda,
        held: Vec::new(alloc),
        dice,
        in_order: !plan.at_once,
        now,
        end: now.saturating_add(plan.total()),
        gives_up,
        digest: plan.seed,
    })
}

/// A run that has begun.
fn begun_by_dice(alloc: Global, plan: Plan) -> Result<Simulation, Fault> {
    let mut dice = Dice::new(plan.seed);
    let natures = natures(alloc, plan.hosts, &mut dice)?;
    let now = dice.number_below(5_000_000_000);
    let gives_up = if plan.gives_up {
        Some(now.saturating_add(dice.number_below(2_000 * MILLISECOND)))
    } else {
        None
    };
    begun(alloc, natures.as_slice(), plan, now, dice, gives_up)
}

/// Asks hosts in memory to the end. Returns a digest of all actions, with their times and octets; or what went wrong.
pub fn simulate(alloc: Global, plan: Plan) -> Result<u64, Fault> {
    let mut run = begun_by_dice(alloc, plan)?;
    run.go_well()
}
