//! Network runs: each question of a world with the address of its host.

ghost use Rattle.std.specs.Prelude.{◌≡◌, ◌≤◌, length, IfOk, IfErr};
ghost use Rattle.std.specs.Option.{option_map};
ghost use Rattle.zmeta_world.specs.InMemoryRuns.{IsFit};
ghost use Rattle.zmeta_world.specs.Finding.{AreFound, FindResult, IsFirstUnfound};
ghost use Rattle.zmeta_world.specs.NetworkRuns.{host_at, address_for, IsNetworkRun, IsPutToTarget};

use crate::parts::{add, split_questions};
use crate::world::{AskedQuestion, End, NamedHost, World, WorldError};
use bytes::Bytes;
use std::alloc::Global;
use zber::Seq;
use zknow::Names;
use zoom_questions::{MetaSettings, Question};

/// A plan for a run over the network: question `i` goes to the host at address `i`, which the list shows as name
/// `i`.
#[derive(Drop)]
pub struct NetworkRun {
    /// The questions, in the order of the file.
    pub questions: Seq<Question>,
    /// The settings for the whole run: the origin's name, the step and the window.
    pub settings: MetaSettings,
    /// One address for each question, as `host:port`, in the order of the questions.
    pub addresses: Seq<Bytes>,
    /// The names of the hosts, in the order of the questions.
    pub names: Names,
}

/// Returns the host at this end. `None` if the end is a target in memory, or if there is no host at its place.
fn host_at(hosts: &[NamedHost], end: End) -> Option<&NamedHost>
    ensures { option_map (λ host. host.now) result ≡ host_at hosts.entry.now end }
{
    match end {
        End::Host(place) => hosts.get(place),
        End::Target(_) => None,
    }
}

/// Returns the address for a question. `Refused`, with the line of the question, if it goes to a target in memory, or
/// to a place where there is no host; `Memory` if no memory is found.
fn address_for(hosts: &[NamedHost], asked_question: &AskedQuestion) -> Result<Bytes, WorldError>
    ensures { FindResult (address_for hosts.now) asked_question.now result }
{
    match host_at(hosts, asked_question.end) {
        Some(host) => Ok(host.address.clone()?),
        None => Err(WorldError::Refused {
            line: asked_question.line,
        }),
    }
}

/// Returns the addresses for the questions, in order.
fn addresses_for(
    alloc: Global,
    hosts: &[NamedHost],
    asked_questions: &[AskedQuestion],
) -> Result<Vec<Bytes>, WorldError>
    ensures found { IfOk result (λ found. AreFound (address_for hosts.now) asked_questions.now found.items) }
    ensures fault { IfErr result (IsFirstUnfound (address_for hosts.now) asked_questions.now) }
{
    let mut found = Vec::new(alloc);
    for asked_question in asked_questions {
        let address = address_for(hosts, asked_question)?;
        add(&mut found, address)?;
    }
    Ok(found)
}

impl World {
    /// Plans a run over the network by an origin with this name.
    ///
    /// Requires a world that `read_world` returned, and a name of at most 2,000,000 octets.
    ///
    /// `Refused` gives the line of the first question that goes to a target in memory. `Memory` if no memory is
    /// found.
    pub fn network(self, alloc: Global, name: Bytes) -> Result<NetworkRun, WorldError>
        requires fit { IsFit self }
        requires short { length name ≤ 2000000 }
        ensures network { IfOk result (IsNetworkRun name self) }
        ensures fault { IfErr result (IsPutToTarget self) }
    {
        let World {
            step,
            window,
            targets: _,
            hosts,
            questions,
            moves: _,
        } = self;
        let addresses = addresses_for(alloc, hosts.as_slice(), questions.as_slice())?;
        let parts = split_questions(alloc, questions.into_vec())?;
        Ok(NetworkRun {
            questions: Seq::from_vec(parts.questions),
            settings: MetaSettings { name, step, window },
            addresses: Seq::from_vec(addresses),
            names: Seq::from_vec(parts.names),
        })
    }
}
