//! Reads a message as its octets come: which elements are open, and which are finished.
ghost use Rattle.std.specs.Prelude.{◌≡◌, ◌≢◌, ◌+◌, ◌-◌, ◌<◌, ◌≤◌, ◌^◌, ◌++◌, ◌∷◌, [], List, ℕ, Bool, true, false, length, take, drop, get_or, min, IfOk, IfErr, OnOk, OnErr, IfSome, Ok, Err, IsTrue, ◌↔◌};
ghost use Rattle.zber.specs.Elements.{Element};
ghost use Rattle.zber.specs.declared.fault.HeaderPlace.{HeaderPlace};
ghost use Rattle.zber.specs.Headers.{Header, HasHeaderFault};
ghost use Rattle.zber.specs.Fronts.{IsHeaderFrontOf};
ghost use Rattle.zber.specs.declared.scan.Reading.TheVariants.{Head, Whole, Front as AtFront};
ghost use Rattle.zber.specs.Shown.{HasFault};
ghost use Rattle.zber.specs.Counts.{ScanProgress, IsQuiet, ScanCounts, CountsAtFault, MoveCounts, FoundCounts};
ghost use Rattle.zber.specs.Moves.{AfterMove, AfterScan, AfterLookOn, HasPosition, pos};
ghost use Rattle.zber.specs.Scans.{ScanPlace, IsGoing, IsScanned, IsReadingOf, behind_reading, inner_window, BeforePass, BeforeEnter, BeforeClose, SameScan};

use crate::fault::{FaultKind, HeaderPlace};
use crate::front::{Front, Step, advance};
use crate::tag::Tag;
use std::alloc::{AllocError, Global};

/// An element that is finished. In the list it comes after the elements within it.
#[derive(Clone, Copy)]
pub(crate) enum Finished {
    /// A primitive element. Its contents are `size` octets, `from` octets after the start of the message.
    Prim { tag: Tag, from: usize, size: usize },
    /// A constructed element. It holds all finished elements but the first `behind`.
    Cons { tag: Tag, behind: usize },
}

/// The octets that elements may occupy, up to an end.
#[derive(Clone, Copy)]
pub(crate) struct Window {
    /// The end, in octets from the start of the message.
    pub end: usize,
    /// The fault if a header, or the contents that it announces, pass that end.
    pub past: FaultKind,
    /// Whether an element of indefinite length ends here, by the end-of-contents octets (X.690, 8.1.5).
    pub marked: bool,
}

/// A constructed element that is open.
#[derive(Clone, Copy)]
pub(crate) struct Open {
    pub tag: Tag,
    /// The window around this element.
    pub outer: Window,
    /// How many elements were finished when it opened.
    pub behind: usize,
}

/// What the octets at the current place are.
#[derive(Clone, Copy)]
pub(crate) enum Reading {
    /// The front of a header: `len` octets of it were read.
    Front {
        front: Front,
        len: usize,
    },
    /// A whole header of `len` octets.
    Head {
        tag: Tag,
        constructed: bool,
        size: Option<usize>,
        len: usize,
    },
    /// The end of an element of indefinite length.
    End,
    /// Nothing more: the message is whole.
    Whole,
}

/// How one step of the scan ended: it went on, it lacks octets, or it found a fault.
#[derive(Clone, Copy)]
enum Move {
    On,
    Lack,
    Fault(FaultKind),
}

/// What the octets are: they begin with a message, they are the front of one, or they show a fault.
#[derive(Clone, Copy)]
pub(crate) enum Found {
    Message,
    Front,
    Fault(FaultKind),
}

#[derive(Drop)]
pub(crate) struct Scan {
    /// How many octets come before the header that is being read.
    pub at: usize,
    pub window: Window,
    pub reading: Reading,
    pub opened: Vec<Open>,
    pub finished: Vec<Finished>,
    /// How many elements are finished and not within a finished element.
    pub count: usize,
    /// How many of the octets are contents of primitive elements.
    pub contents: usize,
}

/// Looks at one octet, and counts it.
fn examine(octets: &[u8], at: usize, examined: &mut u64) -> u8
    requires { at < length octets.now }
    ensures octet { result ≡ get_or octets.now at 0 }
    ensures counted { examined.new ≡ min (examined.old + 1) (2 ^ 64 - 1) }
{
    *examined = examined.saturating_add(1);
    octets[at]
}

/// Returns what the next octet makes of a header, or the fault that it shows.
#[inline(always)]
fn look(front: Front, len: usize, place: HeaderPlace, x: u8) -> Result<Reading, FaultKind>
    requires { (xs : List ℕ) × IsHeaderFrontOf place.marked front xs × (len ≡ length xs) × (len < place.size) }
    ensures goes { IfOk result (λ r. (xs : List ℕ)
        → IsHeaderFrontOf place.marked front xs → len ≡ length xs → IsReadingOf place (xs ++ x ∷ []) r) }
    ensures fault { IfErr result (λ k. (xs rest : List ℕ)
        → IsHeaderFrontOf place.marked front xs → len ≡ length xs → HasHeaderFault place ((xs ++ x ∷ []) ++ rest) k) }
{
    let len = len + 1;
    match advance(front, place.marked, x) {
        Step::On(front) => Ok(Reading::Front { front, len }),
        Step::End => Ok(Reading::End),
        Step::Whole {
            tag,
            constructed,
            size,
        } => {
            if let Some(size) = size {
                if size > place.size - len {
                    return Err(place.past);
                }
            }
            if constructed && place.room == 0 {
                return Err(FaultKind::TooDeep);
            }
            Ok(Reading::Head {
                tag,
                constructed,
                size,
                len,
            })
        }
        Step::Bad(kind) => Err(kind),
    }
}

/// Returns what follows a finished element, if `opened` elements are open around it.
fn reading_behind(opened: usize) -> Reading
    ensures { result ≡ behind_reading opened }
{
    if opened == 0 {
        Reading::Whole
    } else {
        Reading::Front {
            front: Front::Nothing,
            len: 0,
        }
    }
}

/// Whether an element of definite length ends at this place.
fn is_at_end(place: HeaderPlace, len: usize, opened: usize) -> bool
    ensures { IsTrue result ↔ ((len ≡ 0) × (place.marked ≡ false) × (place.size ≡ 0) × (0 < opened)) }
{
    len == 0 && !place.marked && place.size == 0 && opened > 0
}

/// Returns the window inside an element that opens. `at` is where its contents begin.
fn inner(outer: Window, at: usize, size: Option<usize>) -> Window
    requires { IfSome size (λ z. at + z ≤ outer.end) }
    ensures { result ≡ inner_window outer at size }
{
    match size {
        Some(size) => Window {
            end: at + size,
            past: FaultKind::Overrun,
            marked: false,
        },
        None => Window {
            end: outer.end,
            past: outer.past,
            marked: true,
        },
    }
}

impl Scan {
    /// Makes the scan of a message of at most `limit` octets, before its first octet. It takes no memory.
    pub fn new(alloc: Global, limit: u32) -> Scan
        ensures holds { (xs : List ℕ) → IsScanned limit xs result }
        ensures begins { (pos result ≡ 0) × (result.contents ≡ 0) }
    {
        Scan {
            at: 0,
            window: Window {
                end: limit as usize,
                past: FaultKind::TooLong,
                marked: false,
            },
            reading: Reading::Front {
                front: Front::Nothing,
                len: 0,
            },
            opened: Vec::new(alloc),
            finished: Vec::new(alloc),
            count: 0,
            contents: 0,
        }
    }

    /// Whether the message is whole. It takes no memory.
    pub fn is_whole(&self) -> bool
        ensures { IsTrue result ↔ (self.now.reading ≡ Whole) }
    {
        matches!(self.reading, Reading::Whole)
    }

    /// Starts again, at the next message.
    pub fn restart(&mut self, limit: u32)
        requires { self.old.opened.items ≡ [] }
        ensures holds { (xs : List ℕ) → IsScanned limit xs self.new }
        ensures begins { (pos self.new ≡ 0) × (self.new.contents ≡ 0) }
    {
        self.window = Window {
            end: limit as usize,
            past: FaultKind::TooLong,
            marked: false,
        };
        self.at = 0;
        self.reading = Reading::Front {
            front: Front::Nothing,
            len: 0,
        };
        self.finished.clear();
        self.count = 0;
        self.contents = 0;
    }

    /// Returns the place of the header that is being read.
    fn place(&self) -> HeaderPlace
        requires end { self.now.at ≤ self.now.window.end }
        requires few { length self.now.opened.items ≤ 64 }
        ensures { (limit : ℕ) (xs : List ℕ) (es : List Element) (p : HeaderPlace)
            → ScanPlace limit xs self.now es p → result ≡ p }
    {
        HeaderPlace {
            size: self.window.end - self.at,
            past: self.window.past,
            marked: self.window.marked,
            room: 64 - self.opened.len() as u32,
        }
    }

    /// Finishes the innermost open element, whose end takes `len` octets. Returns an error if no memory is found; the
    /// scan is the same.
    fn close(&mut self, len: usize) -> Result<(), AllocError>
        requires { (limit : ℕ) × (xs : List ℕ) × BeforeClose limit xs self.old len × (length xs < 2 ^ 64) }
        ensures ok { OnOk result ((limit : ℕ) (xs : List ℕ)
            → BeforeClose limit xs self.old len → IsScanned limit xs self.new) }
        ensures stands { OnOk result
            (HasPosition self.new (self.old.at + len) self.old.contents (length self.old.opened.items - 1)) }
        ensures err { OnErr result (SameScan self.old self.new) }
    {
        self.finished.reserve(1)?;
        let Some(open) = self.opened.pop() else {
            unreachable!()
        };
        self.finished.push_reserved(Finished::Cons {
            tag: open.tag,
            behind: open.behind,
        });
        self.window = open.outer;
        self.at += len;
        self.count = open.behind + 1;
        self.reading = reading_behind(self.opened.len());
        Ok(())
    }

    /// Goes past a primitive element: its header of `len` octets and its contents of `size` octets. Returns an error if
    /// no memory is found; the scan is the same.
    fn pass(&mut self, tag: Tag, len: usize, size: usize) -> Result<(), AllocError>
        requires { (limit : ℕ) × (xs : List ℕ) × BeforePass limit xs self.old tag len size × (length xs < 2 ^ 64) }
        ensures ok { OnOk result ((limit : ℕ) (xs : List ℕ)
            → BeforePass limit xs self.old tag len size → IsScanned limit xs self.new) }
        ensures stands { OnOk result
            (HasPosition self.new (self.old.at + (len + size)) (self.old.contents + size)
            (length self.old.opened.items)) }
        ensures err { OnErr result (SameScan self.old self.new) }
    {
        self.finished.push(Finished::Prim {
            tag,
            from: self.at + len,
            size,
        })?;
        self.contents += size;
        self.at += len + size;
        self.count += 1;
        self.reading = reading_behind(self.opened.len());
        Ok(())
    }

    /// Goes into a constructed element, after its header of `len` octets. Returns an error if no memory is found; the
    /// scan is the same.
    fn enter(&mut self, tag: Tag, size: Option<usize>, len: usize) -> Result<(), AllocError>
        requires { (limit : ℕ)
            × (xs : List ℕ)
            × BeforeEnter limit xs self.old tag size len
            × (limit < 2 ^ 32)
            × (length xs < 2 ^ 64) }
        ensures ok { OnOk result ((limit : ℕ) (xs : List ℕ)
            → BeforeEnter limit xs self.old tag size len → IsScanned limit xs self.new) }
        ensures stands { OnOk result
            (HasPosition self.new (self.old.at + len) self.old.contents (length self.old.opened.items + 1)) }
        ensures err { OnErr result (SameScan self.old self.new) }
    {
        self.opened.push(Open {
            tag,
            outer: self.window,
            behind: self.count,
        })?;
        self.at += len;
        self.window = inner(self.window, self.at, size);
        self.reading = Reading::Front {
            front: Front::Nothing,
            len: 0,
        };
        Ok(())
    }

    /// Takes one step at a whole header. Returns an error if no memory is found; the scan is the same.
    fn go_head(
        &mut self,
        octets: &[u8],
        tag: Tag,
        constructed: bool,
        size: Option<usize>,
        len: usize,
    ) -> Result<Move, AllocError>
        requires going { (limit : ℕ)
            × IsGoing limit octets.now self.old (Head tag constructed size len)
            × (limit < 2 ^ 32) }
        requires reads { self.old.reading ≡ Head tag constructed size len }
        ensures ok { IfOk result (λ m. (limit : ℕ)
            → IsGoing limit octets.now self.old (Head tag constructed size len)
            → AfterMove limit octets.now self.old self.new m) }
        ensures err { OnErr result (SameScan self.old self.new) }
        ensures quiet { IfOk result (λ m. (ScanProgress 0 self.old self.new) × IsQuiet m) }
    {
        if constructed {
            self.enter(tag, size, len)?;
            return Ok(Move::On);
        }
        let Some(size) = size else { unreachable!() };
        if octets.len() - self.at - len < size {
            return Ok(Move::Lack);
        }
        self.pass(tag, len, size)?;
        Ok(Move::On)
    }

    /// If the next octet is the first of a length and has come, looks at it. Otherwise changes nothing.
    fn look_on(&mut self, octets: &[u8], examined: &mut u64) -> Result<(), FaultKind>
        requires holds { (limit : ℕ) × IsScanned limit octets.now self.old × (limit < 2 ^ 32) }
        ensures ok { OnOk result ((limit : ℕ) → IsScanned limit octets.now self.old
            → AfterLookOn limit octets.now self.old self.new) }
        ensures fault { IfErr result (λ k. (limit : ℕ) → IsScanned limit octets.now self.old
            → HasFault limit octets.now k self.new.at) }
        ensures counts { OnOk result (ScanCounts self.old self.new examined.old examined.new) }
        ensures at_fault { OnErr result
            (CountsAtFault (length octets.now) self.old examined.old examined.new) }
    {
        let reading = self.reading;
        let Reading::Front { front, len } = reading else {
            return Ok(());
        };
        let Front::NoLength { .. } = front else {
            return Ok(());
        };
        let place = self.place();
        if len == place.size || octets.len() - self.at == len {
            return Ok(());
        }
        let x = examine(octets, self.at + len, examined);
        match look(front, len, place, x) {
            Ok(reading) => {
                self.reading = reading;
                Ok(())
            }
            Err(kind) => Err(kind),
        }
    }

    /// Takes one step in the front of a header. Returns an error if no memory is found; the scan is the same.
    fn go_front(
        &mut self,
        octets: &[u8],
        examined: &mut u64,
        front: Front,
        len: usize,
    ) -> Result<Move, AllocError>
        // where the scan is
        requires going { (limit : ℕ) × IsGoing limit octets.now self.old (AtFront front len) × (limit < 2 ^ 32) }
        requires reads { self.old.reading ≡ AtFront front len }
        requires some { 0 < length octets.now }
        // the step
        ensures ok { IfOk result (λ m. (limit : ℕ)
            → IsGoing limit octets.now self.old (AtFront front len) → AfterMove limit octets.now self.old self.new m) }
        ensures err { OnErr result (SameScan self.old self.new) }
        // how many octets were examined
        ensures counts { IfOk result
            (λ m. MoveCounts (length octets.now) self.old self.new examined.old examined.new m) }
        ensures idle { OnErr result (examined.new ≡ examined.old) }
    {
        let place = self.place();
        if is_at_end(place, len, self.opened.len()) {
            self.close(0)?;
            return Ok(Move::On);
        }
        if len == place.size {
            return Ok(Move::Fault(place.past));
        }
        if octets.len() - self.at == len {
            return Ok(Move::Lack);
        }
        let x = examine(octets, self.at + len, examined);
        match look(front, len, place, x) {
            Ok(reading) => {
                self.reading = reading;
                match self.look_on(octets, examined) {
                    Ok(()) => Ok(Move::On),
                    Err(kind) => Ok(Move::Fault(kind)),
                }
            }
            Err(kind) => Ok(Move::Fault(kind)),
        }
    }

    /// Takes one step. Returns an error if no memory is found; the scan is the same.
    fn go(&mut self, octets: &[u8], examined: &mut u64) -> Result<Move, AllocError>
        // where the scan is
        requires holds { (limit : ℕ) × IsScanned limit octets.now self.old × (limit < 2 ^ 32) }
        requires some { 0 < length octets.now }
        requires going { self.old.reading ≢ Whole }
        // the step
        ensures ok { IfOk result (λ m. (limit : ℕ)
            → IsScanned limit octets.now self.old → AfterMove limit octets.now self.old self.new m) }
        ensures err { OnErr result (SameScan self.old self.new) }
        // how many octets were examined
        ensures counts { IfOk result
            (λ m. MoveCounts (length octets.now) self.old self.new examined.old examined.new m) }
        ensures idle { OnErr result (examined.new ≡ examined.old) }
    {
        let reading = self.reading;
        match reading {
            Reading::Whole => Ok(Move::Lack),
            Reading::End => {
                self.close(2)?;
                Ok(Move::On)
            }
            Reading::Head {
                tag,
                constructed,
                size,
                len,
            } => self.go_head(octets, tag, constructed, size, len),
            Reading::Front { front, len } => self.go_front(octets, examined, front, len),
        }
    }

    /// Looks at the octets that have come since the last call, up to the end of a message or a fault.
    ///
    /// Returns an error if no memory is found. The scan keeps its progress.
    pub fn scan(&mut self, octets: &[u8], examined: &mut u64) -> Result<Found, AllocError>
        // where the scan is
        requires holds { (limit : ℕ) × IsScanned limit octets.now self.old × (limit < 2 ^ 32) }
        requires some { 0 < length octets.now }
        // what was found
        ensures ok { IfOk result (λ f. (limit : ℕ)
            → IsScanned limit octets.now self.old → AfterScan limit octets.now self.new f) }
        ensures err { OnErr result ((limit : ℕ)
            → IsScanned limit octets.now self.old → IsScanned limit octets.now self.new) }
        // how many octets were examined
        ensures counts { IfOk result
            (λ f. FoundCounts (length octets.now) self.old self.new examined.old examined.new f) }
        ensures stopped { OnErr result (ScanCounts self.old self.new examined.old examined.new) }
    {
        while !self.is_whole() {
            match self.go(octets, examined)? {
                Move::On => {}
                Move::Lack => return Ok(Found::Front),
                Move::Fault(kind) => return Ok(Found::Fault(kind)),
            }
        }
        Ok(Found::Message)
    }
}
