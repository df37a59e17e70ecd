//! Words without which no entry satisfies a criterion.
ghost use Rattle.std.specs.Prelude.{◌≡◌, IfSome};
ghost use Rattle.ztarget.specs.Asking.{HasPhrase, is_satisfied};
ghost use Rattle.ztarget.specs.Narrowing.{IsNeeded, rarer};

use crate::index::Index;
use crate::word::Word;

/// A word that an entry needs in a field of the Use, as a list of one, and the number of its places in all fields.
#[derive(Clone, Copy)]
pub(crate) struct Needed<'a> {
    pub(crate) used: i64,
    pub(crate) asked: &'a [Word],
    pub(crate) places: usize,
}

/// Returns the word of a phrase if the phrase is one word without truncation.
pub(crate) fn needed_by<'a>(
    index: &Index,
    used: i64,
    truncated: bool,
    asked: &'a [Word],
) -> Option<Needed<'a>>
    ensures { IfSome result (IsNeeded (is_satisfied (HasPhrase used truncated asked.now))) }
{
    match asked {
        [word] if !truncated => {
            let places = index.places(word).len();
            Some(Needed {
                used,
                asked,
                places,
            })
        }
        _ => None,
    }
}

/// Returns the word that has fewer places; the first if both have as many.
pub(crate) fn rarer<'a>(first: Option<Needed<'a>>, second: Option<Needed<'a>>) -> Option<Needed<'a>>
    ensures { result ≡ rarer first.entry second.entry }
{
    match (first, second) {
        (None, second) => second,
        (first, None) => first,
        (Some(a), Some(b)) => {
            if a.places <= b.places {
                Some(a)
            } else {
                Some(b)
            }
        }
    }
}
