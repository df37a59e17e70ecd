//! The front of a header, read octet by octet.
ghost use Rattle.std.specs.Prelude.{◌≡◌, ◌≢◌, ◌⊎◌, ◌≤◌, true, false, ◌+◌, length, ◌<◌, ◌++◌, ◌∷◌, [], List, ℕ, Bool};
ghost use Rattle.zber.specs.Spelling.{lead, Identifier};
ghost use Rattle.zber.specs.Fronts.{GroupsFront, SizeFront, IsHeaderFrontOf, IsStepOf};

use crate::fault::FaultKind;
use crate::tag::{Class, Tag};

/// What is known of a header whose octets have not all come.
#[derive(Clone, Copy)]
pub(crate) enum Front {
    Nothing,
    /// 0 directly within an element of indefinite length: half of its end, if 0 follows.
    HalfEnd,
    /// A tag number in groups of seven bits. `number` is what the groups so far form: 0 if none has come.
    Groups {
        class: Class,
        constructed: bool,
        number: u32,
    },
    NoLength {
        tag: Tag,
        constructed: bool,
    },
    /// A length in the long form: `left` octets are still to come, and those that came form `size`.
    SizeOctets {
        tag: Tag,
        constructed: bool,
        left: usize,
        size: usize,
    },
}

/// What one more octet makes of the front of a header.
#[derive(Clone, Copy)]
pub(crate) enum Step {
    On(Front),
    /// The two octets that end an element of indefinite length.
    End,
    Whole {
        tag: Tag,
        constructed: bool,
        size: Option<usize>,
    },
    Bad(FaultKind),
}

/// Returns the parts of an identifier's first octet: the class, whether the form is constructed, and the low five bits.
fn parts(x: u8) -> (Class, bool, u8)
    ensures { (x ≡ lead result.0 result.1 result.2) × (result.2 < 32) }
{
    let class = match x / 64 {
        0 => Class::Universal,
        1 => Class::Application,
        2 => Class::Context,
        _ => Class::Private,
    };
    (class, x / 32 % 2 == 1, x % 32)
}

fn first_octet(marked: bool, x: u8) -> Step
    ensures { IsStepOf marked (x ∷ []) result }
{
    let (class, constructed, low) = parts(x);
    if low == 31 {
        return Step::On(Front::Groups {
            class,
            constructed,
            number: 0,
        });
    }
    match Tag::new(class, u32::from(low)) {
        Some(tag) => Step::On(Front::NoLength { tag, constructed }),
        None => {
            if marked && !constructed {
                Step::On(Front::HalfEnd)
            } else {
                Step::Bad(FaultKind::StrayEnd)
            }
        }
    }
}

/// Whether a first group of a tag number is idle, or is the whole of a number below 31, which belongs in the low five
/// bits.
fn is_bad_group_start(number: u32, x: u8) -> bool
    ensures yes { result ≡ true → (number ≡ 0) × ((x ≡ 128) ⊎ (x < 31)) }
    ensures no { result ≡ false → number ≡ 0 → (x ≢ 128) × (31 ≤ x) }
{
    number == 0 && (x == 128 || x < 31)
}

fn group(class: Class, constructed: bool, number: u32, x: u8) -> Step
    ensures { (marked : Bool) (xs : List ℕ)
        → GroupsFront xs number → IsStepOf marked (lead class constructed 31 ∷ (xs ++ x ∷ [])) result }
{
    if is_bad_group_start(number, x) {
        return Step::Bad(FaultKind::TagForm);
    }
    let number = u64::from(number) * 128 + u64::from(x % 128);
    if number >= 1 << 32 {
        return Step::Bad(FaultKind::TagTooLarge);
    }
    let number = number as u32;
    if x >= 128 {
        return Step::On(Front::Groups {
            class,
            constructed,
            number,
        });
    }
    let Some(tag) = Tag::new(class, number) else {
        unreachable!()
    };
    Step::On(Front::NoLength { tag, constructed })
}

fn length_octet(tag: Tag, constructed: bool, x: u8) -> Step
    ensures { (marked : Bool) (i : List ℕ) → Identifier tag constructed i → IsStepOf marked (i ++ x ∷ []) result }
{
    if x < 128 {
        return Step::Whole {
            tag,
            constructed,
            size: Some(usize::from(x)),
        };
    }
    if x == 128 {
        if !constructed {
            return Step::Bad(FaultKind::IndefinitePrimitive);
        }
        return Step::Whole {
            tag,
            constructed,
            size: None,
        };
    }
    if x > 136 {
        return Step::Bad(FaultKind::LengthForm);
    }
    Step::On(Front::SizeOctets {
        tag,
        constructed,
        left: usize::from(x - 128),
        size: 0,
    })
}

fn size_octet(tag: Tag, constructed: bool, left: usize, size: usize, x: u8) -> Step
    requires { (xs : List ℕ) × SizeFront xs left size }
    ensures { (marked : Bool) (i xs : List ℕ)
        → Identifier tag constructed i → SizeFront xs left size
        → IsStepOf marked (i ++ (128 + (length xs + left)) ∷ (xs ++ x ∷ [])) result }
{
    let size = size * 256 + usize::from(x);
    if left == 1 {
        return Step::Whole {
            tag,
            constructed,
            size: Some(size),
        };
    }
    Step::On(Front::SizeOctets {
        tag,
        constructed,
        left: left - 1,
        size,
    })
}

/// Returns what the next octet makes of the front of a header.
#[inline(always)]
pub(crate) fn advance(front: Front, marked: bool, x: u8) -> Step
    requires { (xs : List ℕ) × IsHeaderFrontOf marked front xs }
    ensures { (xs : List ℕ) → IsHeaderFrontOf marked front xs → IsStepOf marked (xs ++ x ∷ []) result }
{
    match front {
        Front::Nothing => first_octet(marked, x),
        Front::HalfEnd => {
            if x == 0 {
                Step::End
            } else {
                Step::Bad(FaultKind::StrayEnd)
            }
        }
        Front::Groups {
            class,
            constructed,
            number,
        } => group(class, constructed, number, x),
        Front::NoLength { tag, constructed } => length_octet(tag, constructed, x),
        Front::SizeOctets {
            tag,
            constructed,
            left,
            size,
        } => size_octet(tag, constructed, left, size, x),
    }
}
