//! Why a call or a reply is refused.
ghost use Rattle.std.specs.Prelude.{◌≡◌};
ghost use Rattle.zorigin.specs.Refusal.{call_refusal_name, reply_refusal_name};

use std::alloc::{AllocError, AllocFailed};
use std::fmt::{self, Display};
use thiserror::Error;

/// Why a call is refused. Of several reasons it is the first here. The origin is unchanged.
#[derive(Clone, Copy, Debug, PartialEq, Eq, Error)]
pub enum CallRefused {
    /// `init` was called and the state is not Fresh, or another call was made and the state is not Ready.
    WrongState,
    /// The search or present option is not in force; or a Present asks for two or more ranges and version 3 is not in
    /// force.
    NotOffered,
    /// An earlier admitted call had this operation number. The number of `init` is 0.
    OpUsed,
    /// An earlier admitted search had this set.
    SetUsed,
    /// No admitted search had this set.
    SetUnknown,
    /// The set's search is unanswered, or failed.
    SetNotReady,
    /// Named result sets are not in force, and a later search was admitted.
    SetReplaced,
    /// A search is of set 0, has a negative bound, or has a large bound not above the small one. Or a Present has no
    /// range; has a range whose start or number is below 1, or that does not begin after the end of the one before; or
    /// asks for a position above the count or above 2,147,483,647.
    OutOfRange,
    /// An operation is outstanding, and concurrent operations are not in force. Or an operation is outstanding, the
    /// call is a search, named result sets are not in force, and an earlier search was admitted.
    Busy,
    /// The request has no element, more than 64 levels of constructed elements, or more than 2,097,152 octets.
    Unsendable,
    /// No memory was found. No reason above but `Unsendable` is true.
    Memory,
}

impl CallRefused {
    /// Returns the fault in words.
    fn text(self) -> &'static str {
        match self {
            CallRefused::WrongState => "not in this state",
            CallRefused::NotOffered => "the option is not in force",
            CallRefused::OpUsed => "the operation's number was used",
            CallRefused::SetUsed => "the set was used",
            CallRefused::SetUnknown => "the set is unknown",
            CallRefused::SetNotReady => "the set is not ready",
            CallRefused::SetReplaced => "the set was replaced",
            CallRefused::OutOfRange => "out of range",
            CallRefused::Busy => "an operation is outstanding",
            CallRefused::Unsendable => "the request can't be sent",
            CallRefused::Memory => "out of memory",
        }
    }
}

impl Display for CallRefused {
    fn fmt<W: fmt::Write>(&self, f: &mut fmt::Formatter<W>) -> fmt::Result {
        f.write_str(self.text())
    }
}

/// Why an APDU is refused. Of several reasons it is the first here, with one exception: for a reply of another kind
/// than its operation, an unknown reference comes first. After a take the origin has failed, if not stated otherwise.
#[derive(Clone, Copy, Debug, PartialEq, Eq, Error)]
pub enum Refused {
    /// The origin is Fresh, Closed or Failed. It is unchanged.
    WrongState,
    /// The APDU is a request, or a reply of another kind than its operation.
    WrongKind,
    /// The reference id is not four octets that name an outstanding operation. Or it is absent, and concurrent
    /// operations are in force or not exactly one operation is outstanding.
    UnknownReference,
    /// No diagnostics came, and numberOfRecordsReturned is not the number of records.
    CountMismatch,
    /// resultCount is negative.
    BadNumber,
    /// The reply has more records than resultCount or than asked for, or a fragment of a record; or the reply to a
    /// Present has neither a record nor a diagnostic.
    BadShape,
    /// No memory was found. The origin is unchanged.
    Memory,
}

impl Refused {
    /// Returns the fault in words.
    fn text(self) -> &'static str {
        match self {
            Refused::WrongState => "not in this state",
            Refused::WrongKind => "not the kind of reply",
            Refused::UnknownReference => "the reference id names no outstanding operation",
            Refused::CountMismatch => "the number of records is not the one told",
            Refused::BadNumber => "a negative number",
            Refused::BadShape => "not the records that were asked for",
            Refused::Memory => "out of memory",
        }
    }
}

impl Display for Refused {
    fn fmt<W: fmt::Write>(&self, f: &mut fmt::Formatter<W>) -> fmt::Result {
        f.write_str(self.text())
    }
}

impl CallRefused {
    /// Returns the variant's name in ASCII letters. It takes no memory.
    pub fn name(&self) -> &'static str
        ensures { result.now ≡ call_refusal_name self.now }
    {
        match self {
            CallRefused::WrongState => "WrongState",
            CallRefused::NotOffered => "NotOffered",
            CallRefused::OpUsed => "OpUsed",
            CallRefused::SetUsed => "SetUsed",
            CallRefused::SetUnknown => "SetUnknown",
            CallRefused::SetNotReady => "SetNotReady",
            CallRefused::SetReplaced => "SetReplaced",
            CallRefused::OutOfRange => "OutOfRange",
            CallRefused::Busy => "Busy",
            CallRefused::Unsendable => "Unsendable",
            CallRefused::Memory => "Memory",
        }
    }
}

impl Refused {
    /// Returns the variant's name in ASCII letters. It takes no memory.
    pub fn name(&self) -> &'static str
        ensures { result.now ≡ reply_refusal_name self.now }
    {
        match self {
            Refused::WrongState => "WrongState",
            Refused::WrongKind => "WrongKind",
            Refused::UnknownReference => "UnknownReference",
            Refused::CountMismatch => "CountMismatch",
            Refused::BadNumber => "BadNumber",
            Refused::BadShape => "BadShape",
            Refused::Memory => "Memory",
        }
    }
}

impl From<AllocError> for CallRefused {
    ghost use Rattle.std.specs.Prelude.{◌≡◌};
    ghost use Rattle.zorigin.specs.declared.refusal.CallRefused.TheVariants.{Memory};

    ghost from_gives = { λ _ e. e ≡ Memory };

    fn from(_: AllocError) -> CallRefused {
        CallRefused::Memory
    }
}

impl<T: Drop> From<AllocFailed<T>> for CallRefused {
    ghost use Rattle.std.specs.Prelude.{◌≡◌};
    ghost use Rattle.zorigin.specs.declared.refusal.CallRefused.TheVariants.{Memory};

    ghost from_gives = { λ _ e. e ≡ Memory };

    fn from(_: AllocFailed<T>) -> CallRefused {
        CallRefused::Memory
    }
}
