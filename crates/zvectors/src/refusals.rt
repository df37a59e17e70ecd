// How each refusal is shown to whoever made the call.
use bytes::Bytes;
use std::alloc::{AllocError, Global};
use std::fmt::{Debug, Display};
use std::process::Abort;
use std::test::Fail;
use zapdu::{ApduError, Kind};
use zasn::{BuildError, PartError};
use zber::{EncodeError, FaultKind, FrameError, OidError, ValueError};
use zknow::{LoadError, SaveError};
use zorigin::{CallRefused, Refused};
use zquery::{PqfError, PqfErrorKind, PrintError};
use ztarget::{MatchError, TargetError};

// Types, their values as they are written in code, and their texts.
const TEXTS: &str = r#"FrameError Fault { kind: StrayEnd, at: 2 }: StrayEnd at 2
FrameError Memory: out of memory
ValueError WrongForm: the element is constructed
ValueError WrongLength: the contents have a wrong length
ValueError IntegerTooLarge: the integer has more than eight octets
ValueError BadOid: the contents are no object identifier
ValueError Memory: out of memory
OidError OidText: not arcs in decimal with dots between them
OidError OidArc: an arc above 4294967295
OidError OidTooShort: fewer than two arcs
OidError OidFirst: a first arc above 2, or a second above 39 under 0 or 1
OidError Memory: out of memory
EncodeError TooDeep: more than 64 constructed elements stand within one another
EncodeError TooLong: the encoding is longer than the limit
EncodeError Memory: out of memory
PartError Misfit: misfit
PartError Memory: out of memory
BuildError NotSpellable: not spellable
BuildError Memory: out of memory
ApduError NotApdu: not an APDU
ApduError Malformed { kind: Close, at: 1 }: Close malformed at 1
ApduError Memory: out of memory
PqfErrorKind OpenQuote: OpenQuote
PqfErrorKind Empty: Empty
PqfErrorKind UnknownWord: UnknownWord
PqfErrorKind MissingOperand: MissingOperand
PqfErrorKind BadAttribute: BadAttribute
PqfErrorKind UnknownSet: UnknownSet
PqfErrorKind BadTermType: BadTermType
PqfErrorKind BadNumber: BadNumber
PqfErrorKind TooDeep: TooDeep
PqfErrorKind Trailing: Trailing
PqfErrorKind Memory: Memory
PqfError PqfError { at: 6, kind: UnknownSet }: UnknownSet at 6
PrintError NotPrintable: not printable
PrintError Memory: out of memory
SaveError TooDeep: more than 64 constructed elements stand within one another
SaveError TooLong: an element is longer than 4,194,304 octets
SaveError Memory: out of memory
LoadError NotKnowledge { at: 1 }: NotKnowledge at 1
LoadError NotCanonical { at: 2 }: NotCanonical at 2
LoadError Memory: out of memory
CallRefused WrongState: not in this state
CallRefused NotOffered: the option is not in force
CallRefused OpUsed: the operation's number was used
CallRefused SetUsed: the set was used
CallRefused SetUnknown: the set is unknown
CallRefused SetNotReady: the set is not ready
CallRefused SetReplaced: the set was replaced
CallRefused OutOfRange: out of range
CallRefused Busy: an operation is outstanding
CallRefused Unsendable: the request can't be sent
CallRefused Memory: out of memory
Refused WrongState: not in this state
Refused WrongKind: not the kind of reply
Refused UnknownReference: the reference id names no outstanding operation
Refused CountMismatch: the number of records is not the one told
Refused BadNumber: a negative number
Refused BadShape: not the records that were asked for
Refused Memory: out of memory
TargetError NotRequest: not a request
TargetError WrongState: not in this state
TargetError Memory: out of memory
MatchError Code { code: 114, info: b"5" }: diagnostic 114
MatchError Memory: out of memory
"#;

// Appends a line for each of the refusals of a type.
fn put<E: Debug + Display>(
    alloc: Global,
    name: &str,
    refusals: &[E],
    out: &mut String,
) -> Result<(), AllocError> {
    for refusal in refusals {
        let Ok(line) = format!(in alloc; "{name} {refusal:?}: {refusal}\n") else {
            return Err(AllocError);
        };
        if out.push_str(line.as_str()).is_err() {
            return Err(AllocError);
        }
    }
    Ok(())
}

fn put_of_elements(alloc: Global, out: &mut String) -> Result<(), AllocError> {
    let fault = FrameError::Fault {
        kind: FaultKind::StrayEnd,
        at: 2,
    };
    if put(alloc, "FrameError", &[fault, FrameError::Memory], out).is_err() {
        return Err(AllocError);
    }
    let of_values = [
        ValueError::WrongForm,
        ValueError::WrongLength,
        ValueError::IntegerTooLarge,
        ValueError::BadOid,
        ValueError::Memory,
    ];
    if put(alloc, "ValueError", &of_values, out).is_err() {
        return Err(AllocError);
    }
    let of_identifiers = [
        OidError::OidText,
        OidError::OidArc,
        OidError::OidTooShort,
        OidError::OidFirst,
        OidError::Memory,
    ];
    if put(alloc, "OidError", &of_identifiers, out).is_err() {
        return Err(AllocError);
    }
    let of_encoding = [
        EncodeError::TooDeep,
        EncodeError::TooLong,
        EncodeError::Memory,
    ];
    put(alloc, "EncodeError", &of_encoding, out)
}

fn put_of_notation(alloc: Global, out: &mut String) -> Result<(), AllocError> {
    let kinds = [
        PqfErrorKind::OpenQuote,
        PqfErrorKind::Empty,
        PqfErrorKind::UnknownWord,
        PqfErrorKind::MissingOperand,
        PqfErrorKind::BadAttribute,
        PqfErrorKind::UnknownSet,
        PqfErrorKind::BadTermType,
        PqfErrorKind::BadNumber,
        PqfErrorKind::TooDeep,
        PqfErrorKind::Trailing,
        PqfErrorKind::Memory,
    ];
    if put(alloc, "PqfErrorKind", &kinds, out).is_err() {
        return Err(AllocError);
    }
    let kind = PqfErrorKind::UnknownSet;
    if put(alloc, "PqfError", &[PqfError { kind, at: 6 }], out).is_err() {
        return Err(AllocError);
    }
    put(
        alloc,
        "PrintError",
        &[PrintError::NotPrintable, PrintError::Memory],
        out,
    )
}

fn put_of_apdus(alloc: Global, out: &mut String) -> Result<(), AllocError> {
    if put(
        alloc,
        "PartError",
        &[PartError::Misfit, PartError::Memory],
        out,
    )
    .is_err()
    {
        return Err(AllocError);
    }
    if put(
        alloc,
        "BuildError",
        &[BuildError::NotSpellable, BuildError::Memory],
        out,
    )
    .is_err()
    {
        return Err(AllocError);
    }
    let malformed = ApduError::Malformed {
        kind: Kind::Close,
        at: 1,
    };
    put(
        alloc,
        "ApduError",
        &[ApduError::NotApdu, malformed, ApduError::Memory],
        out,
    )
}

fn put_of_knowledge(alloc: Global, out: &mut String) -> Result<(), AllocError> {
    let of_saving = [SaveError::TooDeep, SaveError::TooLong, SaveError::Memory];
    if put(alloc, "SaveError", &of_saving, out).is_err() {
        return Err(AllocError);
    }
    let of_loading = [
        LoadError::NotKnowledge { at: 1 },
        LoadError::NotCanonical { at: 2 },
        LoadError::Memory,
    ];
    put(alloc, "LoadError", &of_loading, out)
}

fn put_of_origins(alloc: Global, out: &mut String) -> Result<(), AllocError> {
    let of_calls = [
        CallRefused::WrongState,
        CallRefused::NotOffered,
        CallRefused::OpUsed,
        CallRefused::SetUsed,
        CallRefused::SetUnknown,
        CallRefused::SetNotReady,
        CallRefused::SetReplaced,
        CallRefused::OutOfRange,
        CallRefused::Busy,
        CallRefused::Unsendable,
        CallRefused::Memory,
    ];
    if put(alloc, "CallRefused", &of_calls, out).is_err() {
        return Err(AllocError);
    }
    let of_replies = [
        Refused::WrongState,
        Refused::WrongKind,
        Refused::UnknownReference,
        Refused::CountMismatch,
        Refused::BadNumber,
        Refused::BadShape,
        Refused::Memory,
    ];
    put(alloc, "Refused", &of_replies, out)
}

fn put_of_targets(alloc: Global, out: &mut String) -> Result<(), AllocError> {
    let of_requests = [
        TargetError::NotRequest,
        TargetError::WrongState,
        TargetError::Memory,
    ];
    if put(alloc, "TargetError", &of_requests, out).is_err() {
        return Err(AllocError);
    }
    let diagnostic = MatchError::Code {
        code: 114,
        info: Bytes::from_static(b"5"),
    };
    put(alloc, "MatchError", &[diagnostic, MatchError::Memory], out)
}

#[test]
fn each_refusal_has_its_text(rt: HostRuntime) -> Result<(), Fail> {
    let mut out = String::new(rt.alloc());
    put_of_elements(rt.alloc(), &mut out)?;
    put_of_apdus(rt.alloc(), &mut out)?;
    put_of_notation(rt.alloc(), &mut out)?;
    put_of_knowledge(rt.alloc(), &mut out)?;
    put_of_origins(rt.alloc(), &mut out)?;
    put_of_targets(rt.alloc(), &mut out)?;
    assert!(rt; out.as_str() == TEXTS, "{out}");
    Ok(())
}
