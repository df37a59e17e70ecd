//! The parts of a trace's head, read one after the other.
ghost use Rattle.std.specs.Prelude.{◌≡◌, ◌-◌};
ghost use Rattle.std.specs.Option.{option_map};
ghost use Rattle.zmeta_trace.specs.Heads.{text_of, number_of, manner_of, first_given, first_text, first_number, first_manner, behind};

use zoom_asking::Manner;
use zoom_trace::{Given, TraceEntry, Traced};

/// What octets are given for.
#[derive(Clone, Copy)]
pub(crate) enum Part {
    World,
    Query,
    Records,
    Elements,
    Syntax,
    Only,
}

/// What a number is given for.
#[derive(Clone, Copy)]
pub(crate) enum Measure {
    Version,
    Connect,
    Patience,
    Total,
}

/// The octets that are given for a part, if it is that one.
fn text_of(part: Part, given: &Given) -> Option<&[u8]>
    ensures { option_map (λ text. text.now) result ≡ text_of part given.entry.now }
{
    match (part, given) {
        (Part::World, Given::World(octets)) => Some(octets.as_slice()),
        (Part::Query, Given::Query(octets)) => Some(octets.as_slice()),
        (Part::Records, Given::Records(octets)) => Some(octets.as_slice()),
        (Part::Elements, Given::Elements(octets)) => Some(octets.as_slice()),
        (Part::Syntax, Given::Syntax(octets)) => Some(octets.as_slice()),
        (Part::Only, Given::Only(octets)) => Some(octets.as_slice()),
        _ => None,
    }
}

/// The number that is given for a measure, if it is that one.
fn number_of(measure: Measure, given: &Given) -> Option<u64>
    ensures { result ≡ number_of measure given.now }
{
    match (measure, given) {
        (Measure::Version, Given::Version(number)) => Some(*number),
        (Measure::Connect, Given::Connect(number)) => Some(*number),
        (Measure::Patience, Given::Patience(number)) => Some(*number),
        (Measure::Total, Given::Total(number)) => Some(*number),
        _ => None,
    }
}

/// The manner that is given, if it is a manner.
fn manner_of(given: &Given) -> Option<Manner>
    ensures { result ≡ manner_of given.now }
{
    match given {
        Given::Manner(manner) => Some(*manner),
        _ => None,
    }
}

/// What the first entry tells that the search was given, if it tells that.
fn first_given(entries: &[TraceEntry]) -> Option<&Given>
    ensures { option_map (λ given. given.now) result ≡ first_given entries.entry.now }
{
    match entries.first() {
        Some(entry) => match &entry.what {
            Traced::Began { given } => Some(given),
            _ => None,
        },
        None => None,
    }
}

/// The entries of a head that are not read yet.
#[derive(Clone, Copy)]
pub(crate) struct Rest<'t> {
    pub entries: &'t [TraceEntry],
}

impl<'t> Rest<'t> {
    ghost use Rattle.std.specs.Prelude.{◌≡◌, is_some, true};
    ghost use Rattle.std.specs.Option.{option_map};
    ghost use Rattle.zmeta_trace.specs.Heads.{first_given, first_text, first_number, first_manner, is_version, behind};

    /// Goes behind the first entry, if there is one and it was read.
    fn go(&mut self, was_read: bool)
        ensures { self.new.entries.now ≡ behind was_read self.old.entries.now }
    {
        if was_read {
            let entries = self.entries;
            if let Some((_, rest)) = entries.split_first() {
                self.entries = rest;
            }
        }
    }

    /// Reads the version, if the first entry gives that of the format.
    pub(crate) fn version(&mut self) -> bool
        ensures version { result ≡ is_version (first_number Measure.Version self.old.entries.now) }
        ensures rest { self.new.entries.now ≡ behind result self.old.entries.now }
    {
        let is_version = match first_given(self.entries) {
            Some(given) => number_of(Measure::Version, given) == Some(1),
            None => false,
        };
        self.go(is_version);
        is_version
    }

    /// Reads the octets of a part, if the first entry gives them.
    pub(crate) fn text(&mut self, part: Part) -> Option<&'t [u8]>
        ensures text { option_map (λ text. text.now) result ≡ first_text part self.old.entries.now }
        ensures rest { self.new.entries.now ≡ behind (is_some result) self.old.entries.now }
    {
        let given = first_given(self.entries)?;
        let text = text_of(part, given);
        self.go(text.is_some());
        text
    }

    /// Reads the number of a measure, if the first entry gives it.
    pub(crate) fn number(&mut self, measure: Measure) -> Option<u64>
        ensures number { result ≡ first_number measure self.old.entries.now }
        ensures rest { self.new.entries.now ≡ behind (is_some result) self.old.entries.now }
    {
        let given = first_given(self.entries)?;
        let number = number_of(measure, given);
        self.go(number.is_some());
        number
    }

    /// Reads the manner and its time, if the first entry gives it.
    pub(crate) fn manner(&mut self) -> Option<(u64, Manner)>
        ensures manner { result ≡ first_manner self.old.entries.now }
        ensures rest { self.new.entries.now ≡ behind (is_some result) self.old.entries.now }
    {
        let at = self.entries.first()?.at;
        let given = first_given(self.entries)?;
        let manner = manner_of(given)?;
        self.go(true);
        Some((at, manner))
    }

    /// Whether the first entry tells what the search was given.
    pub(crate) fn is_given(&self) -> bool
        ensures { result ≡ is_some (first_given self.now.entries.now) }
    {
        first_given(self.entries).is_some()
    }
}
