//! What went on one way of a connection, cut into messages.
ghost use Rattle.std.specs.Prelude.{◌≡◌, ◌++◌, None, false, OnOk, IfOk};
ghost use Rattle.zber.specs.declared.framer.TheConstants.{MESSAGE_LIMIT};
ghost use Rattle.zmeta_trace.specs.Dialogue.{place_text, fault_text, message_text, IsDecoded};
ghost use Rattle.zmeta_trace.specs.Messages.{IsMessagePut, NextResult, AreAllShown};

use crate::place::{Place, put_place};
use std::alloc::{AllocError, Global};
use std::marker::Model;
use zapdu::{Apdu, ApduError, from_element};
use zapdu_lines::print_apdu;
use zber::{FaultKind, FrameError, Framer, MESSAGE_LIMIT, Node};

/// What went on one way of a connection.
#[derive(Drop)]
pub(crate) struct Way {
    framer: Framer,
    /// Whether the octets show a fault: nothing more is shown of them.
    is_over: bool,
}

impl Model for Way {
    ghost use Rattle.std.specs.Prelude.{List, ℕ, Option};
    ghost use Rattle.zmeta_trace.specs.Ways.{left_of, IsOpenUnless};

    ghost Value = { Option (List ℕ) };

    ghost view = { λ w. left_of w.is_over w.framer.stream.octets };

    ghost invariant = { λ w. IsOpenUnless w.is_over w.framer.stream };
}

/// Appends a line of a fault of octets, at an octet of the message.
#[tactic(auto, unfolding(crate::specs::Dialogue::fault_text))]
fn put_fault(
    alloc: Global,
    place: &Place<'_>,
    kind: FaultKind,
    at: usize,
    out: &mut Vec<u8>,
) -> Result<(), AllocError>
    ensures { OnOk result (out.new.items ≡ out.old.items
        ++ (place_text place.now.at place.now.name.now place.now.mark.now ++ fault_text kind at)) }
{
    put_place(alloc, place, out)?;
    out.extend_from_slice(kind.name().as_bytes())?;
    out.extend_from_slice(b" at ")?;
    let digits = at.to_string(alloc)?;
    out.extend_from_slice(digits.as_bytes())?;
    out.extend_from_slice(b"\n")
}

/// Appends the lines of an APDU, or a line that says why a message is none.
#[tactic(auto, unfolding(crate::specs::Dialogue::message_text))]
fn put_decoded(
    alloc: Global,
    place: &Place<'_>,
    decoded: Result<Apdu, ApduError>,
    out: &mut Vec<u8>,
) -> Result<(), AllocError>
    ensures lines { OnOk result (out.new.items ≡ out.old.items
        ++ (place_text place.now.at place.now.name.now place.now.mark.now ++ message_text decoded)) }
    ensures read { OnOk result (IsDecoded decoded) }
{
    match decoded {
        Ok(apdu) => {
            put_place(alloc, place, out)?;
            print_apdu(alloc, apdu, out)
        }
        Err(ApduError::NotApdu) => {
            put_place(alloc, place, out)?;
            out.extend_from_slice(b"not an APDU\n")
        }
        Err(ApduError::Malformed { kind, at }) => {
            put_place(alloc, place, out)?;
            out.extend_from_slice(kind.name().as_bytes())?;
            out.extend_from_slice(b" malformed at ")?;
            let digits = at.to_string(alloc)?;
            out.extend_from_slice(digits.as_bytes())?;
            out.extend_from_slice(b"\n")
        }
        Err(ApduError::Memory) => Err(AllocError),
    }
}

/// Appends the lines of a message.
fn put_message(
    alloc: Global,
    place: &Place<'_>,
    message: Node,
    out: &mut Vec<u8>,
) -> Result<(), AllocError>
    ensures { OnOk result (IsMessagePut (place_text place.now.at place.now.name.now place.now.mark.now) message
        out.old.items out.new.items) }
{
    put_decoded(alloc, place, from_element(alloc, message), out)
}

/// Appends the lines of the next message, or of a fault: then it is over. Returns whether there was a message.
#[tactic(auto, using(crate::proofs::Talking::next_steps))]
fn put_next(
    alloc: Global,
    place: &Place<'_>,
    framer: &mut Framer,
    is_over: &mut bool,
    out: &mut Vec<u8>,
) -> Result<bool, AllocError>
    requires limited { framer.old.stream.limit ≡ MESSAGE_LIMIT }
    requires no_fault { framer.old.stream.fault ≡ None }
    requires going { is_over.old ≡ false }
    ensures { IfOk result (NextResult (place_text place.now.at place.now.name.now place.now.mark.now)
        framer.old.stream framer.new.stream is_over.new out.old.items out.new.items) }
{
    match framer.next() {
        Ok(None) => Ok(false),
        Ok(Some(message)) => {
            put_message(alloc, place, message, out)?;
            Ok(true)
        }
        Err(FrameError::Fault { kind, at }) => {
            *is_over = true;
            put_fault(alloc, place, kind, at, out)?;
            Ok(false)
        }
        Err(FrameError::Memory) => Err(AllocError),
    }
}

/// Appends the lines of the messages that the octets have, and of the first fault. Returns whether there was a fault.
#[tactic(auto, using(crate::proofs::Talking::taken_steps))]
fn put_messages(
    alloc: Global,
    place: &Place<'_>,
    framer: &mut Framer,
    out: &mut Vec<u8>,
) -> Result<bool, AllocError>
    requires limited { framer.old.stream.limit ≡ MESSAGE_LIMIT }
    requires no_fault { framer.old.stream.fault ≡ None }
    ensures { IfOk result (λ over. AreAllShown (place_text place.now.at place.now.name.now place.now.mark.now)
        framer.old.stream.octets framer.new.stream over out.old.items out.new.items) }
{
    let mut is_over = false;
    while put_next(alloc, place, framer, &mut is_over, out)? {}
    Ok(is_over)
}

impl Way {
    ghost use Rattle.std.specs.Prelude.{◌≡◌, ◌++◌, List, ℕ, [], Some, None, OnOk};
    ghost use Rattle.zmeta_trace.specs.Dialogue.{place_text, OctetsText, end_text};

    /// A way on which nothing went yet.
    pub(crate) fn new(alloc: Global) -> Way
        ensures { result ≡ Some [] }
    {
        Way {
            framer: Framer::new(alloc, MESSAGE_LIMIT),
            is_over: false,
        }
    }

    /// Takes octets, and appends the lines of the messages that they end. If no memory is found, nothing more is shown.
    pub(crate) fn put_octets(
        &mut self,
        alloc: Global,
        place: &Place<'_>,
        octets: &[u8],
        out: &mut Vec<u8>,
    ) -> Result<(), AllocError>
        ensures { OnOk result ((text : List ℕ)
            × OctetsText (place_text place.now.at place.now.name.now place.now.mark.now) octets.now self.old self.new
            text × (out.new.items ≡ out.old.items ++ text)) }
    {
        if self.is_over {
            return Ok(());
        }
        self.framer.feed(octets)?;
        self.is_over = true;
        self.is_over = put_messages(alloc, place, &mut self.framer, out)?;
        Ok(())
    }

    /// Appends a line if the octets end within a message. Nothing more is shown then.
    pub(crate) fn put_end(
        &mut self,
        alloc: Global,
        place: &Place<'_>,
        out: &mut Vec<u8>,
    ) -> Result<(), AllocError>
        ensures over { self.new ≡ None }
        ensures line { OnOk result (out.new.items ≡ out.old.items
            ++ end_text (place_text place.now.at place.now.name.now place.now.mark.now) self.old) }
    {
        if self.is_over {
            return Ok(());
        }
        self.is_over = true;
        match self.framer.finish() {
            Err(FrameError::Fault { kind, at }) => put_fault(alloc, place, kind, at, out),
            _ => Ok(()),
        }
    }
}
