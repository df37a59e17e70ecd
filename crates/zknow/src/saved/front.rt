//! The element that a file's octets begin with.
ghost use Rattle.std.specs.Prelude.{◌≡◌, IfOk, IfErr};
ghost use Rattle.zknow.specs.Saved.Fronts.{IsFrontElement, IsFrontValue, IsTakenFront, IsFrontFault, IsFrontOf};

use crate::encoding::encode;
use crate::saved::saving::LONGEST;
use std::alloc::{AllocError, Global};
use zasn::{PartError, Tagged};
use zber::{FrameError, Framer, Node};

/// Why no value was taken from the octets.
#[derive(Clone, Copy, PartialEq, Eq, Drop)]
pub(crate) enum FrontError {
    /// The octets do not begin with an element of such a value.
    NoValue,
    /// They do, and the element is not encoded canonically.
    NotCanonical,
    /// No memory was found.
    Memory,
}

impl From<AllocError> for FrontError {
    ghost use Rattle.std.specs.Prelude.{◌≡◌};
    ghost use Rattle.zknow.specs.declared.saved.front.FrontError.TheVariants.{Memory};

    ghost from_gives = { λ _ e. e ≡ Memory };

    fn from(_: AllocError) -> FrontError {
        FrontError::Memory
    }
}

/// How much octets show of the element that they begin with.
#[derive(Drop)]
pub(crate) enum Front {
    /// The whole element.
    Whole(Node),
    /// A fault, whatever octets come after them.
    Fault,
    /// Neither an element nor a fault yet.
    Unfinished,
}

/// How many octets are read first for an element; most elements have no more.
const WINDOW: usize = 256;

/// Returns how much these octets show. Returns `AllocError` if no memory is found.
fn front_of(alloc: Global, octets: &[u8]) -> Result<Front, AllocError>
    ensures { IfOk result (IsFrontOf octets.now) }
{
    let mut framer = Framer::new(alloc, LONGEST);
    framer.feed(octets)?;
    match framer.next() {
        Ok(Some(node)) => Ok(Front::Whole(node)),
        Ok(None) => Ok(Front::Unfinished),
        Err(FrameError::Fault { .. }) => Ok(Front::Fault),
        Err(FrameError::Memory) => Err(AllocError),
    }
}

/// Returns the element that octets begin with, or `None` if there is none. Returns `AllocError` if no memory is found.
///
/// It reads `WINDOW` octets, then twice as many each time, until they show the element or a fault. If it reads more
/// than `WINDOW`, these are fewer than twice the octets that show it. It never reads more than `LONGEST`.
fn front_element(alloc: Global, octets: &[u8]) -> Result<Option<Node>, AllocError>
    ensures { IfOk result (IsFrontElement octets.now) }
{
    let limit = octets.len().min(LONGEST as usize);
    let mut size = WINDOW;
    loop {
        let (window, _) = octets.split_at(size.min(limit));
        match front_of(alloc, window)? {
            Front::Whole(node) => return Ok(Some(node)),
            Front::Fault => return Ok(None),
            Front::Unfinished => {
                if size >= limit {
                    return Ok(None);
                }
                size *= 2;
            }
        }
    }
}

/// Returns the value of the element that octets begin with, or `None` if there is none. Returns `AllocError` if no
/// memory is found.
fn front_value<T: Tagged>(alloc: Global, octets: &[u8]) -> Result<Option<T>, AllocError>
    ensures { IfOk result (IsFrontValue T.place octets.now) }
{
    let Some(node) = front_element(alloc, octets)? else {
        return Ok(None);
    };
    if !T::has(node.tag) {
        return Ok(None);
    }
    match T::of_element(alloc, &node) {
        Ok(value) => Ok(Some(value)),
        Err(PartError::Misfit) => Ok(None),
        Err(PartError::Memory) => Err(AllocError),
    }
}

/// Returns the value whose canonical element octets begin with, and the length of that element in octets. Returns why
/// there is none, or `Memory`.
pub(crate) fn take_front<T: Tagged>(alloc: Global, octets: &[u8]) -> Result<(T, usize), FrontError>
    ensures taken { IfOk result (λ r. IsTakenFront T.place octets.now r.0 r.1) }
    ensures fault { IfErr result (IsFrontFault T.place octets.now) }
{
    let Some(value) = front_value::<T>(alloc, octets)? else {
        return Err(FrontError::NoValue);
    };
    let canonical = encode(alloc, &value)?;
    if !octets.starts_with(canonical.as_slice()) {
        return Err(FrontError::NotCanonical);
    }
    Ok((value, canonical.len()))
}
