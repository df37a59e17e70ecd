//! The world that a search asks of the catalogues of a file.

ghost use Rattle.std.specs.Prelude.{◌≡◌, ◌<◌, ◌≤◌, ◌^◌, length, IfOk, IfErr};
ghost use Rattle.zmeta_world.specs.InMemoryRuns.{IsFit};
ghost use Rattle.zmeta_catalogues.specs.Asked.{asked_search, number_or, least_step, least_window, host_of, IsAskedWorld};
ghost use Rattle.zmeta_catalogues.specs.AskErrors.{AreAskErrors};
ghost use Rattle.zmeta_catalogues.specs.Asking.{IsAskedSoFar};

use crate::catalogue::Catalogue;
use crate::parts::asked_question;
use crate::reader::Catalogues;
use crate::search::{AskError, CatalogueSearch};
use std::alloc::{AllocError, Global};
use zber::Seq;
use zmeta_world::world::{AskedQuestion, NamedHost, World};

/// Returns the number that is given, 1 at least, or else this one.
fn number_or(default: u32, given: Option<u32>) -> u32
    ensures { result ≡ number_or default given }
{
    given.unwrap_or(default).max(1)
}

/// Returns how many positions one Present asks for: the least that is given for a catalogue, where 10 stands for none.
fn least_step(catalogues: &[Catalogue]) -> u32
    ensures least { result ≡ least_step catalogues.now }
    ensures some { 0 < result }
    ensures most { result ≤ 1000 }
{
    let mut least: u32 = 1000;
    'catalogues: for catalogue in catalogues {
        least = least.min(number_or(10, catalogue.settings.step));
    }
    least
}

/// Returns how many Presents may be outstanding: the least that is given for a catalogue, where 4 stands for none.
fn least_window(catalogues: &[Catalogue]) -> u32
    ensures least { result ≡ least_window catalogues.now }
    ensures some { 0 < result }
    ensures most { result ≤ 64 }
{
    let mut least: u32 = 64;
    'catalogues: for catalogue in catalogues {
        least = least.min(number_or(4, catalogue.settings.window));
    }
    least
}

/// Returns the host of a catalogue.
fn host_of(catalogue: &Catalogue) -> Result<NamedHost, AllocError>
    ensures { IfOk result (λ host. host ≡ host_of catalogue.now) }
{
    Ok(NamedHost {
        name: catalogue.name.clone()?,
        address: catalogue.address.clone()?,
    })
}

/// The hosts and the questions of a world.
#[derive(Drop)]
pub(crate) struct AskedHosts {
    /// The hosts.
    pub(crate) hosts: Vec<NamedHost>,
    /// The questions, one to each host.
    pub(crate) questions: Vec<AskedQuestion>,
}

/// Returns each catalogue as a host, with the question of the search to it.
///
/// The errors are those of `Catalogues::world`.
fn asked_hosts(
    alloc: Global,
    search: &CatalogueSearch<'_>,
    catalogues: &[Catalogue],
) -> Result<AskedHosts, AskError>
    ensures ok { IfOk result (IsAskedSoFar (asked_search search.now) catalogues.now (length catalogues.now)) }
    ensures err { IfErr result (AreAskErrors (asked_search search.now) catalogues.now) }
{
    let mut hosts = Vec::new(alloc);
    let mut questions = Vec::new(alloc);
    'catalogues: for (at, catalogue) in catalogues.iter().enumerate() {
        let question = asked_question(alloc, search, catalogue, at)?;
        hosts.push(host_of(catalogue)?)?;
        questions.push(question)?;
    }
    Ok(AskedHosts { hosts, questions })
}

impl Catalogues {
    /// Returns the world that a search asks: each catalogue is a host, with one question, in the order of the list.
    ///
    /// A catalogue's own query stands in place of the search's for it. Positions, element set name and record syntax
    /// are those of the search, or else the catalogue's. The result can be planned by `network`.
    ///
    /// Requires fewer than 2^32 catalogues, as `read_catalogues` returns.
    ///
    /// The errors name a catalogue and why it cannot be asked: `NoSearch`, `TooManyTerms`, `BlankTerm`, `TermCharset`,
    /// `QueryCharset`, `Query`, `Setting`, `Records`, `Syntax`. `Memory` if no memory is found.
    pub fn world(&self, alloc: Global, search: &CatalogueSearch<'_>) -> Result<World, AskError>
        requires { length self.now.list < 2 ^ 32 }
        ensures world { IfOk result (IsAskedWorld (asked_search search.now) self.now.list) }
        ensures fit { IfOk result IsFit }
        ensures err { IfErr result (AreAskErrors (asked_search search.now) self.now.list) }
    {
        let catalogues = self.list.as_slice();
        let asked = asked_hosts(alloc, search, catalogues)?;
        Ok(World {
            step: least_step(catalogues),
            window: least_window(catalogues),
            targets: Seq::from_vec(Vec::new(alloc)),
            hosts: Seq::from_vec(asked.hosts),
            questions: Seq::from_vec(asked.questions),
            moves: Seq::from_vec(Vec::new(alloc)),
        })
    }
}
