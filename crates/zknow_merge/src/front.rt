//! The element that octets begin with, if more octets may come after them.
ghost use Rattle.std.specs.Prelude.{◌≡◌, ◌<◌, List, ℕ, IfOk, IfErr, Some, None};
ghost use Rattle.zknow.specs.Encodings.{encoding};
ghost use Rattle.zknow.specs.Saved.Fronts.{IsFrontElement};
ghost use Rattle.zknow_merge.specs.Fronts.{IsFrontOf, IsTaken, IsFrontFault, IsNodeResult, IsValueResult};
ghost use Rattle.zknow_merge.specs.Heads.{IsLawfulAt};

use std::alloc::{AllocError, Global};
use zasn::{BuildError, PartError, Tagged};
use zber::{FrameError, Framer, Node};

/// The most octets that an element of a saved file may have.
pub(crate) const LONGEST: u32 = 4_194_304;

/// How many octets are looked at first for an element, if its header does not tell its size.
const WINDOW: usize = 256;

/// Why no value was taken from the octets.
#[derive(Clone, Copy, PartialEq, Eq, Drop)]
pub(crate) enum FrontError {
    /// Whatever comes after the octets, they do not begin with an element of such a value.
    NoValue,
    /// Whatever comes after the octets, they begin with such an element, and it is not encoded canonically.
    NotCanonical,
    /// The octets do not begin with a whole element yet.
    Unfinished,
    /// No memory was found.
    Memory,
}

impl From<AllocError> for FrontError {
    ghost use Rattle.std.specs.Prelude.{◌≡◌};
    ghost use Rattle.zknow_merge.specs.declared.front.FrontError.TheVariants.{Memory};

    ghost from_gives = { λ _ e. e ≡ Memory };

    fn from(_: AllocError) -> FrontError {
        FrontError::Memory
    }
}

/// How much octets show of the element that they begin with.
#[derive(Drop)]
pub(crate) enum Front {
    /// The whole element.
    Whole(Node),
    /// A fault, whatever octets come after them.
    Fault,
    /// Neither an element nor a fault yet.
    Unfinished,
}

/// Returns how much these octets show. Returns `AllocError` if no memory is found.
fn front_of(alloc: Global, octets: &[u8]) -> Result<Front, AllocError>
    ensures { IfOk result (IsFrontOf octets.now) }
{
    let mut framer = Framer::new(alloc, LONGEST);
    framer.feed(octets)?;
    match framer.next() {
        Ok(Some(node)) => Ok(Front::Whole(node)),
        Ok(None) => Ok(Front::Unfinished),
        Err(FrameError::Fault { .. }) => Ok(Front::Fault),
        Err(FrameError::Memory) => Err(AllocError),
    }
}

/// Returns how many octets the element has that octets begin with, as far as its header tells; else `WINDOW`.
fn first_window(octets: &[u8]) -> usize
    ensures { 0 < result }
{
    match octets {
        [_, size, ..] if *size < 128 => 2 + usize::from(*size),
        [_, 0x81, size, ..] => 3 + usize::from(*size),
        [_, 0x82, high, low, ..] => 4 + usize::from(*high) * 256 + usize::from(*low),
        _ => WINDOW,
    }
}

/// Returns how much these octets show, and looks at few of them. Returns `AllocError` if no memory is found.
///
/// It looks at as many octets as the element has by its header, then at twice as many each time, until they show the
/// element or a fault. It never looks at more than `LONGEST`.
fn front_element(alloc: Global, octets: &[u8]) -> Result<Front, AllocError>
    ensures { IfOk result (IsFrontOf octets.now) }
{
    let limit = octets.len().min(LONGEST as usize);
    let mut size = first_window(octets);
    loop {
        let (window, _) = octets.split_at(size.min(limit));
        match front_of(alloc, window)? {
            Front::Whole(node) => return Ok(Front::Whole(node)),
            Front::Fault => return Ok(Front::Fault),
            Front::Unfinished => {
                if size >= limit {
                    return Ok(all_unfinished(octets));
                }
                size *= 2;
            }
        }
    }
}

/// Returns what octets show if they begin with no element: a fault, if as many as an element may have show none.
fn all_unfinished(octets: &[u8]) -> Front
    requires { IsFrontElement octets.now None }
    ensures { IsFrontOf octets.now result }
{
    if octets.len() >= LONGEST as usize {
        Front::Fault
    } else {
        Front::Unfinished
    }
}

/// Returns the canonical encoding of the value's element, empty if it has none. Returns `AllocError` if no memory is
/// found.
pub(crate) fn encode<T: Tagged>(alloc: Global, value: &T) -> Result<Vec<u8>, AllocError>
    ensures octets { IfOk result (λ octets. octets.items ≡ encoding T.place value.now) }
    ensures lawful { IfOk result (λ _. IsLawfulAt T.place value.now) }
{
    let mut octets = Vec::new(alloc);
    match value.to_element(alloc) {
        Ok(node) => {
            node.canonical(alloc, &mut octets)?;
            Ok(octets)
        }
        Err(BuildError::NotSpellable) => Ok(octets),
        Err(BuildError::Memory) => Err(AllocError),
    }
}

/// Returns the element that octets begin with, or why there is none.
fn whole_node(alloc: Global, octets: &[u8]) -> Result<Node, FrontError>
    ensures { IsNodeResult octets.now result }
{
    match front_element(alloc, octets)? {
        Front::Whole(node) => Ok(node),
        Front::Fault => Err(FrontError::NoValue),
        Front::Unfinished => Err(FrontError::Unfinished),
    }
}

/// Returns the value of an element. Returns `NoValue` if it has none, and `Memory` if no memory is found.
fn value_in<T: Tagged>(alloc: Global, node: &Node) -> Result<T, FrontError>
    ensures { (octets : List ℕ) → IsFrontElement octets (Some node.now) → IsValueResult T.place octets result }
{
    if !T::has(node.tag) {
        return Err(FrontError::NoValue);
    }
    match T::of_element(alloc, node) {
        Ok(value) => Ok(value),
        Err(PartError::Misfit) => Err(FrontError::NoValue),
        Err(PartError::Memory) => Err(FrontError::Memory),
    }
}

/// Returns the value whose canonical element octets begin with, and the octets of that element. Returns why there is
/// none, or `Memory`.
pub(crate) fn take_front<T: Tagged>(
    alloc: Global,
    octets: &[u8],
) -> Result<(T, Vec<u8>), FrontError>
    ensures taken { IfOk result (λ r. IsTaken T.place octets.now r.0 r.1.items) }
    ensures fault { IfErr result (IsFrontFault T.place octets.now) }
{
    let node = whole_node(alloc, octets)?;
    let value = value_in::<T>(alloc, &node)?;
    let canonical = encode(alloc, &value)?;
    if !octets.starts_with(canonical.as_slice()) {
        return Err(FrontError::NotCanonical);
    }
    Ok((value, canonical))
}
