//! APDUs and their octets.
ghost use Rattle.std.specs.Prelude.{IfOk};
ghost use Rattle.zorigin.specs.Sending.{IsEncodeResult, IsEncodedApdu, IsFramed, IsReadBack};

use crate::answer::Sent;
use crate::refusal::CallRefused;
use bytes::Bytes;
use std::alloc::Global;
use zapdu::{Apdu, BuildError, to_node};
use zber::{EncodeError, MESSAGE_LIMIT, Node};

/// Returns the canonical encoding of an element. Returns `Unsendable` if it is too deep or too long, and `Memory` if no
/// memory is found.
fn encode(alloc: Global, node: &Node) -> Result<Bytes, CallRefused>
    ensures exact { IsEncodeResult node.now result }
    ensures framed { IfOk result (IsFramed node.now) }
{
    let mut octets = Vec::new(alloc);
    match node.encode(alloc, MESSAGE_LIMIT, &mut octets) {
        Ok(()) => Ok(Bytes::from_vec(octets)?),
        Err(EncodeError::Memory) => Err(CallRefused::Memory),
        Err(_) => Err(CallRefused::Unsendable),
    }
}

/// Returns the APDU with its canonical encoding. Returns `Unsendable` if it has no element, more than 64 levels of
/// constructed elements, or more octets than the limit. Returns `Memory` if no memory is found.
#[tactic(auto, unfolding(crate::specs::Sending::is_unsendable, crate::specs::Sending::encoding_of))]
pub(crate) fn send(alloc: Global, apdu: Apdu) -> Result<Sent, CallRefused>
    ensures exact { IsEncodedApdu apdu result }
    ensures framed { IfOk result IsReadBack }
{
    match to_node(alloc, &apdu) {
        Ok(node) => {
            let octets = encode(alloc, &node)?;
            Ok(Sent { apdu, octets })
        }
        Err(BuildError::NotSpellable) => Err(CallRefused::Unsendable),
        Err(BuildError::Memory) => Err(CallRefused::Memory),
    }
}
