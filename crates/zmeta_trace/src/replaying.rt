//! What became of the hosts of a trace.
ghost use Rattle.std.specs.Prelude.{◌≡◌, ◌<◌, ◌^◌, [], length, IfOk};
ghost use Rattle.std.specs.Option.{option_map};
ghost use Rattle.zoom_questions.specs.Askable.{AreAskable, AreFit};
ghost use Rattle.zoom_asking.specs.Askings.{AskingAfter};
ghost use Rattle.zoom_trace.specs.Replays.{size_of};
ghost use Rattle.zmeta_trace.specs.Replays.{host_by, hosts_by, inquiry_by, ReplayedResult};

use crate::head::Begun;
use bytes::Bytes;
use std::alloc::{AllocError, Global};
use zber::Seq;
use zoom_asking::{AskedHost, Asking};
use zoom_pool::{Meta, MetaSettings, Question};
use zoom_trace::{Notice, TraceEntry, TraceError, notices};

/// What became of the hosts of a trace.
#[derive(Drop)]
pub struct Replayed {
    /// The connections and their facts.
    pub meta: Meta,
    /// What was noticed of the host of each connection.
    pub notices: Vec<Notice>,
    /// Whether each connection is over, or was not chosen.
    pub is_over: bool,
}

/// A host, if there is an address.
fn host_at(begun: &Begun, address: &Option<Bytes>) -> Option<AskedHost>
    ensures { result ≡ option_map (λ address. host_by begun.now) address.now }
{
    match address {
        Some(_) => Some(AskedHost {
            connect: begun.connect,
            patience: begun.patience,
        }),
        None => None,
    }
}

/// A host for each address.
fn hosts_at(
    alloc: Global,
    begun: &Begun,
    addresses: &[Option<Bytes>],
) -> Result<Vec<Option<AskedHost>>, AllocError>
    ensures { IfOk result (λ v. v.items ≡ hosts_by begun.now addresses.now) }
{
    addresses
        .iter()
        .map(|address| host_at(begun, address))
        .collect(alloc)
}

/// Begins to ask as the head of a trace says.
fn begin(
    alloc: Global,
    begun: &Begun,
    questions: Vec<Question>,
    settings: MetaSettings,
    addresses: &[Option<Bytes>],
) -> Result<Asking, AllocError>
    requires some { length questions.items < 2 ^ 32 }
    requires askable { AreAskable questions.items }
    requires fit { AreFit settings }
    requires equal { length addresses.now ≡ length questions.items }
    ensures after { IfOk result (AskingAfter (inquiry_by questions.items settings begun.now addresses.now) []) }
    ensures size { IfOk result (λ asking. size_of asking ≡ length questions.items) }
{
    let hosts = hosts_at(alloc, begun, addresses)?;
    Asking::new(
        alloc,
        Seq::from_vec(questions),
        settings,
        hosts.as_slice(),
        begun.manner,
        begun.total,
        begun.start,
    )
}

/// Feeds the entries to an asking of these questions, put to the hosts at these addresses, from the time on, in the
/// manner and with the limits that the head says. Nobody is asked. `Refused` gives the first entry, from 1, that speaks
/// of a connection that is not there.
#[tactic(auto, using(crate::proofs::Again::stopped))]
pub fn replay(
    alloc: Global,
    entries: &[TraceEntry],
    begun: &Begun,
    questions: Vec<Question>,
    settings: MetaSettings,
    addresses: &[Option<Bytes>],
) -> Result<Replayed, TraceError>
    requires some { length questions.items < 2 ^ 32 }
    requires askable { AreAskable questions.items }
    requires fit { AreFit settings }
    requires equal { length addresses.now ≡ length questions.items }
    ensures { ReplayedResult (inquiry_by questions.items settings begun.now addresses.now) entries.now result }
{
    let mut asking = begin(alloc, begun, questions, settings, addresses)?;
    match zoom_trace::replay(&mut asking, entries) {
        Ok(()) => {}
        Err(error) => return Err(error),
    }
    let notices = notices(alloc, entries, addresses.len())?;
    let is_over = asking.is_over();
    Ok(Replayed {
        meta: asking.into_meta(),
        notices,
        is_over,
    })
}
