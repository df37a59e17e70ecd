//! A word, with its first octets as a number: most comparisons of words need no more than that.
ghost use Rattle.std.specs.Prelude.{◌≡◌, ◌<◌, nat_eq, refl, slice_index, IfOk, Some};
ghost use Rattle.std.specs.Ordering.{nat_cmp};
ghost use Rattle.std.specs.Cmp.Lexicographic.{pointwise, slice_cmp, nat_list_eq_equiv, nat_list_cmp_total, texts_ties, texts_po};
ghost use Rattle.std.specs.Cmp.{partial_equiv_from_equiv};
ghost use Rattle.ztarget.specs.Words.{leading, AreOctetsByIndex};

use bytes::Bytes;
use std::alloc::AllocError;
use std::cmp::Ordering;
use std::marker::Model;

/// A word. Contracts see its octets.
#[derive(Drop)]
pub(crate) struct Word {
    octets: Bytes,
    leading: u64,
}

impl Model for Word {
    ghost use Rattle.std.specs.Prelude.{ℕ, List};
    ghost use Rattle.ztarget.specs.Words.{IsLedBy};

    ghost Value = { List ℕ };

    ghost view = { λ w. w.octets };

    ghost invariant = { λ w. IsLedBy w.leading w.octets };
}

/// Returns the octet with this number, or 0 if there is none.
fn octet_at(octets: &[u8], at: usize) -> u8
    ensures { result ≡ slice_index octets.now at }
{
    match octets.get(at) {
        Some(octet) => *octet,
        None => 0,
    }
}

/// Returns the number that the first eight octets spell, most significant first. Zeros follow a shorter word.
fn leading(octets: &[u8]) -> u64
    ensures leading { result ≡ leading 0 8 octets.now }
    ensures octets { AreOctetsByIndex octets.now }
{
    u64::from_be_bytes([
        octet_at(octets, 0),
        octet_at(octets, 1),
        octet_at(octets, 2),
        octet_at(octets, 3),
        octet_at(octets, 4),
        octet_at(octets, 5),
        octet_at(octets, 6),
        octet_at(octets, 7),
    ])
}

impl Word {
    /// Creates a word of these octets.
    pub(crate) fn new(octets: Bytes) -> Word
        ensures { result ≡ octets }
    {
        let leading = leading(octets.as_slice());
        Word { octets, leading }
    }

    pub(crate) fn as_slice(&self) -> &[u8]
        ensures { result.now ≡ self.now }
    {
        self.octets.as_slice()
    }

    /// Returns the same word. It shares the octets, and copies none.
    pub(crate) fn again(&self) -> Result<Word, AllocError>
        ensures { IfOk result (λ word. word ≡ self.now) }
    {
        let octets = self.octets.clone()?;
        let leading = self.leading;
        Ok(Word { octets, leading })
    }
}

impl PartialEq for Word {
    ghost eq = { pointwise nat_eq };

    ghost laws = { partial_equiv_from_equiv nat_list_eq_equiv };

    fn eq(&self, other: &Self) -> bool {
        self.as_slice() == other.as_slice()
    }
}

impl Eq for Word {
    ghost laws = { nat_list_eq_equiv };
}

impl PartialOrd for Word {
    ghost partial_cmp = { λ x y. Some (slice_cmp nat_cmp x y) };

    ghost laws = { texts_po };

    fn partial_cmp(&self, other: &Self) -> Option<Ordering> {
        Some(self.cmp(other))
    }
}

/// Words are in order of their octets.
impl Ord for Word {
    ghost cmp = { slice_cmp nat_cmp };

    ghost total = { nat_list_cmp_total };

    ghost matches_partial_cmp = { λ x y. refl };

    ghost matches_eq = { texts_ties };

    fn cmp(&self, other: &Self) -> Ordering {
        if self.leading < other.leading {
            return Ordering::Less;
        }
        if other.leading < self.leading {
            return Ordering::Greater;
        }
        self.octets.as_slice().cmp(other.octets.as_slice())
    }
}
