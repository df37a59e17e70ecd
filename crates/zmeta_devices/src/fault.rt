//! Why a command stopped, and the status that it ends with.
ghost use Rattle.std.specs.Prelude.{◌≡◌, Some};
ghost use Rattle.zmeta_devices.specs.Faults.{code_of, status_of, own_status, as_done, fault_text, of_frame, of_apdu, of_query, of_print, of_build, of_load, of_options, of_text, of_world, of_search};
ghost use Rattle.zmeta_devices.specs.Devices.{output_device, AfterTell, AfterReport, AfterEnd};
ghost use Rattle.zmeta_devices.specs.declared.fault.Fault.TheVariants.{Memory};

use crate::output::Output;
use std::alloc::AllocError;
use std::fmt;
use std::io::Write;
use zapdu::{ApduError, Kind};
use zber::{FaultKind, FrameError};
use zknow::LoadError;
use zmeta_args::SearchOptions;
use zmeta_world::search::SearchError;
use zmeta_world::world::WorldError;
use zquery::{BuildError, PqfError, PqfErrorKind, PrintError};

/// How a command ends. If several apply, `Memory` comes before `Refused`, and `Refused` before `Failed`. With wrong
/// arguments no command runs, so `Arguments` stands alone.
#[derive(Clone, Copy, PartialEq, Eq)]
pub enum Status {
    /// The command did all of its work.
    Done,
    /// A search, an association or a connection failed, or a question was not asked. The rest was done.
    Failed,
    /// The arguments of the command line are wrong.
    Arguments,
    /// Input was refused, or a file, a stream (standard error too) or a listening socket failed.
    Refused,
    /// No memory was found.
    Memory,
}

impl Status {
    /// Returns the exit status, 0 to 4, in the order of the variants.
    pub fn code(self) -> u8
        ensures { result ≡ code_of self }
    {
        match self {
            Status::Done => 0,
            Status::Failed => 1,
            Status::Arguments => 2,
            Status::Refused => 3,
            Status::Memory => 4,
        }
    }

    /// Returns the status of a command that would end with this one, by whether standard error failed.
    fn after_errors(self, has_failed: bool) -> Status
        ensures { result ≡ own_status has_failed self }
    {
        if !has_failed {
            return self;
        }
        match self {
            Status::Memory => Status::Memory,
            _ => Status::Refused,
        }
    }
}

/// Why a command stopped before its end.
#[derive(Clone, Copy)]
pub enum Fault<'a> {
    /// The file, or the standard stream for `-`, could not be read.
    Read(&'a str),
    /// The file, or the standard stream for `-`, could not be written.
    Write(&'a str),
    /// The file would be written over another that the command reads or writes: both are one file.
    Overwrite(&'a str),
    /// The text is not an even number of hexadecimal digits.
    Hex,
    /// The octets do not begin with a message. `at` counts octets from the first of the message.
    Frame {
        kind: FaultKind,
        at: usize,
    },
    /// The message is not an APDU that the program knows.
    NotApdu,
    /// The message has the tag of an APDU, but is malformed at this element.
    Malformed {
        kind: Kind,
        at: usize,
    },
    /// The text is not a query. `at` counts octets from the first of the text, which is `None` for a query that terms
    /// make.
    Query {
        kind: PqfErrorKind,
        at: usize,
        text: Option<&'a str>,
    },
    /// The query has no text in the prefix notation.
    NotPrintable,
    /// The saved file at this path has no valid element at this index.
    NotKnowledge {
        path: &'a str,
        at: usize,
    },
    /// The saved file at this path has an element at this index that is not in canonical form, or is out of order.
    NotCanonical {
        path: &'a str,
        at: usize,
    },
    /// Two saved files have different names for their targets.
    NamesDiffer,
    /// The line of a world file, from 1, is refused. It is no valid line, cannot follow the lines before it, or
    /// asks a target or host that the command does not ask.
    Line(u64),
    /// The text of `--records` names no wanted positions. `None` if the text is not known here.
    Wanted(Option<&'a str>),
    /// The text of `--syntax` is no record syntax that a question can have. `None` if the text is not known here.
    Syntax(Option<&'a str>),
    /// No question has this name.
    NoQuestion(&'a str),
    /// No catalogue of the saved files has this name.
    NoCatalogue(&'a str),
    /// The text is not an object identifier in dotted form.
    NotOid(&'a str),
    /// The file has no such target, the program cannot listen at the address, or it cannot take a connection.
    Serve,
    /// No memory was found.
    Memory,
}

impl fmt::Display for Fault<'_> {
    ghost output = { λ x. Some (fault_text x) };

    fn fmt<W: fmt::Write>(&self, f: &mut fmt::Formatter<W>) -> fmt::Result {
        match self {
            Fault::Read(path) => write!(f, "cannot read {path}"),
            Fault::Write(path) => write!(f, "cannot write {path}"),
            Fault::Overwrite(path) => write!(f, "would overwrite {path}"),
            Fault::Hex => write!(f, "hex refused"),
            Fault::Frame { kind, at } => {
                let word = kind.name();
                write!(f, "{word} at {at}")
            }
            Fault::NotApdu => write!(f, "not an APDU"),
            Fault::Malformed { kind, at } => {
                let word = kind.name();
                write!(f, "{word} malformed at {at}")
            }
            Fault::Query { kind, at, .. } => {
                let word = kind.name();
                write!(f, "{word} at {at}")
            }
            Fault::NotPrintable => write!(f, "not printable"),
            Fault::NotKnowledge { at, .. } => {
                let word = LoadError::NotKnowledge { at: *at }.name();
                write!(f, "knowledge refused: {word} at {at}")
            }
            Fault::NotCanonical { at, .. } => {
                let word = LoadError::NotCanonical { at: *at }.name();
                write!(f, "knowledge refused: {word} at {at}")
            }
            Fault::NamesDiffer => write!(f, "names differ"),
            Fault::Line(number) => write!(f, "line {number} refused"),
            Fault::Wanted(_) => write!(f, "--records refused"),
            Fault::Syntax(_) => write!(f, "--syntax refused"),
            Fault::NoQuestion(name) => write!(f, "no question {name}"),
            Fault::NoCatalogue(name) => write!(f, "no catalogue {name}"),
            Fault::NotOid(text) => write!(f, "no OID {text}"),
            Fault::Serve => write!(f, "cannot serve"),
            Fault::Memory => write!(f, "out of memory"),
        }
    }
}

impl From<AllocError> for Fault<'_> {
    ghost from_gives = { λ _ f. f ≡ Memory };

    fn from(_error: AllocError) -> Self {
        Fault::Memory
    }
}

impl From<FrameError> for Fault<'_> {
    ghost from_gives = { λ e f. f ≡ of_frame e };

    fn from(error: FrameError) -> Self {
        match error {
            FrameError::Fault { kind, at } => Fault::Frame { kind, at },
            FrameError::Memory => Fault::Memory,
        }
    }
}

impl From<ApduError> for Fault<'_> {
    ghost from_gives = { λ e f. f ≡ of_apdu e };

    fn from(error: ApduError) -> Self {
        match error {
            ApduError::NotApdu => Fault::NotApdu,
            ApduError::Malformed { kind, at } => Fault::Malformed { kind, at },
            ApduError::Memory => Fault::Memory,
        }
    }
}

impl From<PqfError> for Fault<'_> {
    ghost from_gives = { λ e f. f ≡ of_query e };

    fn from(error: PqfError) -> Self {
        match error.kind {
            PqfErrorKind::Memory => Fault::Memory,
            kind => Fault::Query {
                kind,
                at: error.at,
                text: None,
            },
        }
    }
}

impl From<PrintError> for Fault<'_> {
    ghost from_gives = { λ e f. f ≡ of_print e };

    fn from(error: PrintError) -> Self {
        match error {
            PrintError::NotPrintable => Fault::NotPrintable,
            PrintError::Memory => Fault::Memory,
        }
    }
}

impl From<BuildError> for Fault<'_> {
    ghost from_gives = { λ e f. f ≡ of_build e };

    fn from(error: BuildError) -> Self {
        match error {
            BuildError::NotSpellable => Fault::NotPrintable,
            BuildError::Memory => Fault::Memory,
        }
    }
}

impl From<WorldError> for Fault<'_> {
    ghost from_gives = { λ e f. f ≡ of_world e };

    fn from(error: WorldError) -> Self {
        match error {
            WorldError::Refused { line } => Fault::Line(line),
            WorldError::Memory => Fault::Memory,
        }
    }
}

impl From<SearchError> for Fault<'_> {
    ghost from_gives = { λ e f. f ≡ of_search e };

    fn from(error: SearchError) -> Self {
        match error {
            SearchError::Query { kind, at } => Fault::Query {
                kind,
                at,
                text: None,
            },
            SearchError::Records => Fault::Wanted(None),
            SearchError::Syntax => Fault::Syntax(None),
            SearchError::Memory => Fault::Memory,
        }
    }
}

impl<'a> Fault<'a> {
    /// Returns the fault of the saved file at this path.
    pub fn of_load(path: &'a str, error: LoadError) -> Fault<'a>
        ensures { result ≡ of_load path.entry error }
    {
        match error {
            LoadError::NotKnowledge { at } => Fault::NotKnowledge { path, at },
            LoadError::NotCanonical { at } => Fault::NotCanonical { path, at },
            LoadError::Memory => Fault::Memory,
        }
    }

    /// Returns the fault of a search with the text of the option that it speaks of.
    pub fn of_options(self, search: &SearchOptions<'a>) -> Fault<'a>
        ensures { result ≡ of_options search.now self.entry }
    {
        match self {
            Fault::Query { kind, at, .. } => Fault::Query {
                kind,
                at,
                text: search.query,
            },
            Fault::Wanted(_) => Fault::Wanted(search.records),
            Fault::Syntax(_) => Fault::Syntax(search.syntax),
            other => other,
        }
    }

    /// Returns the fault with the text of the query that it speaks of.
    pub fn of_text(self, text: &'a str) -> Fault<'a>
        ensures { result ≡ of_text text.entry self.entry }
    {
        match self {
            Fault::Query { kind, at, .. } => Fault::Query {
                kind,
                at,
                text: Some(text),
            },
            other => other,
        }
    }

    /// Returns the status of a command that this fault stopped.
    fn status(&self) -> Status
        ensures { result ≡ status_of self.now }
    {
        match self {
            Fault::Memory => Status::Memory,
            _ => Status::Refused,
        }
    }

    /// Writes the fault as one line on `errors`, and returns its status. The status is the same if the line cannot
    /// be written.
    pub fn report<E: Write>(&self, errors: &mut Output<'_, E>) -> Status
        ensures status { result ≡ status_of self.now }
        ensures reported { AfterTell (output_device E.contents errors.old)
            (output_device E.contents errors.new) self.now }
    {
        errors.write_fault(self);
        self.status()
    }
}

/// Reports the fault that this result is, if it is one.
pub fn report_failure<E: Write>(done: Result<(), Fault<'_>>, errors: &mut Output<'_, E>)
    ensures { AfterReport (output_device E.contents errors.old) (output_device E.contents errors.new) done.entry }
{
    if let Err(fault) = done {
        errors.write_fault(&fault);
    }
}

/// Ends a command: reports the fault that stopped it, and returns its status. That is `Refused` if a write of
/// `errors` failed, unless it is `Memory`.
pub fn end<E: Write>(done: Result<Status, Fault<'_>>, errors: &mut Output<'_, E>) -> Status
    ensures { AfterEnd done.entry (output_device E.contents errors.old) (output_device E.contents errors.new) result }
{
    match done {
        Ok(status) => status.after_errors(errors.has_failed()),
        Err(fault) => fault.report(errors),
    }
}

/// Ends a command that has no other status than `Done` unless a fault stops it.
pub fn end_done<E: Write>(done: Result<(), Fault<'_>>, errors: &mut Output<'_, E>) -> Status
    ensures { AfterEnd (as_done done.entry) (output_device E.contents errors.old)
        (output_device E.contents errors.new) result }
{
    match done {
        Ok(()) => end(Ok(Status::Done), errors),
        Err(fault) => end(Err(fault), errors),
    }
}
