//! Strings, primitive or cut into segments (X.690, 8.7 and 8.23).
ghost use Rattle.std.specs.Prelude.{◌≡◌, ◌++◌, true, false, IfSome, IfNone, OnOk};
ghost use Rattle.zber.specs.Segments.{is_segment, is_string, string_octets};
ghost use Rattle.zber.specs.Values.{as_octets, ValueResult};

use crate::node::{Body, Node};
use crate::tag::Tag;
use crate::value::ValueError;
use bytes::Bytes;
use std::alloc::{AllocError, Global};

/// Whether an element with this tag is a segment.
fn is_segment(tag: Tag) -> bool
    ensures { result ≡ is_segment tag }
{
    tag == Tag::universal(4)
}

impl Node {
    /// Returns the room that the octets of a string take, at most `usize::MAX`. Returns `None` if an element within it
    /// is no segment.
    fn string_room(&self) -> Option<usize>
        ensures some { IfSome result (λ room. is_string self.now ≡ true) }
        ensures none { IfNone result (is_string self.now ≡ false) }
    {
        match &self.body {
            Body::Prim(contents) => Some(contents.len()),
            Body::Cons(kids) => {
                let mut room = 0usize;
                for kid in kids {
                    if !is_segment(kid.tag) {
                        return None;
                    }
                    room = room.saturating_add(kid.string_room()?);
                }
                Some(room)
            }
        }
    }

    /// Returns the contents of the only segment. Returns `None` if there are none or several.
    fn only_segment(&self) -> Option<&Bytes>
        ensures { IfSome result (λ contents. contents.now ≡ string_octets self.now) }
    {
        match &self.body {
            Body::Prim(contents) => Some(contents),
            Body::Cons(kids) => match kids.as_slice() {
                [kid] => kid.only_segment(),
                _ => None,
            },
        }
    }

    /// Appends the octets of a string.
    fn append_string(&self, out: &mut Vec<u8>) -> Result<(), AllocError>
        ensures { OnOk result (out.new.items ≡ out.old.items ++ string_octets self.now) }
    {
        match &self.body {
            Body::Prim(contents) => out.extend_from_slice(contents.as_slice()),
            Body::Cons(kids) => {
                for kid in kids {
                    kid.append_string(out)?;
                }
                Ok(())
            }
        }
    }

    /// Returns the octets of an OCTET STRING, or of any string, whatever its tag (X.690, 8.7 and 8.23). If the element
    /// is primitive, they are its contents octets. If it is constructed, the elements within it are segments, each an
    /// OCTET STRING in either form, and the octets are those of the segments in order.
    ///
    /// The octets of a single segment are shared with it. Others are copied once, into room of their length.
    ///
    /// Returns `WrongForm` if an element within, at any depth, is no OCTET STRING, and `Memory` if no memory is found.
    pub fn as_octets(&self, alloc: Global) -> Result<Bytes, ValueError>
        ensures { ValueResult result (as_octets self.now) }
    {
        let Some(room) = self.string_room() else {
            return Err(ValueError::WrongForm);
        };
        if let Some(contents) = self.only_segment() {
            return Ok(contents.clone()?);
        }
        let mut octets = Vec::with_capacity(alloc, room)?;
        self.append_string(&mut octets)?;
        Ok(Bytes::from_vec(octets)?)
    }
}
