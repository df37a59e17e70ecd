//! Which source is next.
ghost use Rattle.std.specs.Prelude.{◌≡◌, ◌<◌, true, false, length, slice_index_or, ◌+◌, IfSome, IfNone};
ghost use Rattle.zknow_merge.specs.declared.source.Source.{Source};
ghost use Rattle.zknow_merge.specs.Sources.{AreSettled, IsWantingAt, HaveSameNames, HaveOtherNames, AreSame, IsFirstSourceOfOtherNames, AreHeaded, IsLeast, IsLeastAt, IsLeastOf};

use crate::head::is_below;
use crate::source::Source;

/// Returns the number of the first source that has to read an element.
pub(crate) fn first_wanting(sources: &[Source]) -> Option<usize>
    ensures some { IfSome result (IsWantingAt sources.now) }
    ensures none { IfNone result (AreSettled sources.now) }
{
    for (k, source) in sources.iter().enumerate() {
        if source.is_wanting() {
            return Some(k);
        }
    }
    None
}

/// Whether two sources have read the same names.
fn have_same_names(mine: &Source, theirs: &Source) -> bool
    ensures same { result ≡ true → HaveSameNames mine.now theirs.now }
    ensures others { result ≡ false → HaveOtherNames mine.now theirs.now }
{
    match (&mine.names, &theirs.names) {
        (Some(mine), Some(theirs)) => mine.as_slice() == theirs.as_slice(),
        _ => false,
    }
}

/// Returns the number of the first source that has read other names than the first of all.
pub(crate) fn first_other(sources: &[Source]) -> Option<usize>
    ensures some { IfSome result (IsFirstSourceOfOtherNames sources.now) }
    ensures none { IfNone result (AreSame sources.now (length sources.now)) }
{
    for (k, source) in sources.iter().enumerate() {
        if !have_same_names(&sources[0], source) {
            return Some(k);
        }
    }
    None
}

/// Whether the last fact of a source is below that of another.
fn is_less(mine: &Source, theirs: &Source) -> bool
    ensures less { result ≡ true → IsLeast mine.now theirs.now }
    ensures not_less { result ≡ false → IsLeast theirs.now mine.now }
{
    match (&mine.last, &theirs.last) {
        (Some(mine), Some(theirs)) => is_below(mine, theirs),
        _ => false,
    }
}

/// Returns the number of the source whose fact is less, of one found before and of this one, whose fact waits.
fn less_of(sources: &[Source], found: Option<usize>, k: usize) -> usize
    requires found { IfSome found (λ j. j < length sources.now) }
    requires among { k < length sources.now }
    ensures among { result < length sources.now }
    ensures waits { IfSome found (λ j. (d : Source) → (slice_index_or sources.now j d).waiting ≡ true)
        → ((d : Source) → (slice_index_or sources.now k d).waiting ≡ true)
        → (d : Source) → (slice_index_or sources.now result d).waiting ≡ true }
    ensures least { AreHeaded sources.now → IsLeastOf sources.now k found
        → ((d : Source) → (slice_index_or sources.now k d).waiting ≡ true)
        → IsLeastAt sources.now (k + 1) result }
{
    match found {
        None => k,
        Some(least) => {
            if is_less(&sources[k], &sources[least]) {
                k
            } else {
                least
            }
        }
    }
}

/// Returns the number of a source with the least fact that waits, or `None` if none waits.
pub(crate) fn least(sources: &[Source]) -> Option<usize>
    ensures among { IfSome result (λ k. k < length sources.now) }
    ensures waits { IfSome result (λ k. (d : Source) → (slice_index_or sources.now k d).waiting ≡ true) }
    ensures least { AreHeaded sources.now → IsLeastOf sources.now (length sources.now) result }
{
    let mut found: Option<usize> = None;
    for (k, source) in sources.iter().enumerate() {
        if source.waiting {
            found = Some(less_of(sources, found, k));
        }
    }
    found
}
