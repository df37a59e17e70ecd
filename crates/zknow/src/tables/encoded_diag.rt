//! Diagnostics as a knowledge keeps them.
ghost use Rattle.std.specs.Prelude.{◌≡◌, IfOk};
ghost use Rattle.zapdu.specs.Productions.Diagnostics.{diag_rec};
ghost use Rattle.zknow.specs.Encodings.{IsEncodedAs};

use crate::encoding::encode;
use crate::tables::ranked::{Ranked, show_spelled};
use std::alloc::{AllocError, Global};
use std::cmp::Ordering;
use std::marker::Model;
use zapdu::DiagRec;
use zber::Duplicate;

/// A diagnostic, and the canonical encoding of its element.
#[derive(Drop)]
struct Entry {
    octets: Vec<u8>,
    diag: DiagRec,
}

/// A diagnostic with its canonical encoding, which is made once, so that comparing two takes no memory. Both are behind
/// a pointer, so that inserting a diagnostic between others moves only pointers.
#[derive(Drop)]
pub(crate) struct EncodedDiag {
    entry: Box<Entry>,
}

impl Model for EncodedDiag {
    ghost use Rattle.zapdu.specs.declared.productions.diagnostic.DiagRec.{DiagRec};
    ghost use Rattle.zapdu.specs.contracts.productions.diagnostic.DiagRec as diag;
    ghost use Rattle.std.specs.Coded.{codes};

    ghost Value = { DiagRec };

    ghost coded = { Prim.hlevel (codes, diag.the_row.coded) };

    ghost use Rattle.zapdu.specs.Productions.Diagnostics.{diag_rec};
    ghost use Rattle.zknow.specs.Encodings.{IsEncodedAs};

    ghost view = { λ e. e.entry.value.diag };

    ghost invariant = { λ e. IsEncodedAs diag_rec e.entry.value.diag e.entry.value.octets.items };
}

impl EncodedDiag {
    /// Returns a copy of the diagnostic, with its encoding. Returns `AllocError` if no memory is found.
    pub(crate) fn of(alloc: Global, diag: &DiagRec) -> Result<EncodedDiag, AllocError>
        ensures { IfOk result (λ e. e ≡ diag.now) }
    {
        show_spelled(diag);
        let octets = encode(alloc, diag)?;
        let entry = Entry {
            octets,
            diag: diag.copy(alloc)?,
        };
        Ok(EncodedDiag {
            entry: Box::new(alloc, entry)?,
        })
    }

    /// Returns the diagnostic.
    pub(crate) fn diag(&self) -> &DiagRec
        ensures { result.now ≡ self.now }
    {
        &self.entry.diag
    }
}

impl Duplicate for EncodedDiag {
    fn duplicate(&self, alloc: Global) -> Result<Self, AllocError> {
        let entry = Entry {
            octets: Vec::from_slice(alloc, &self.entry.octets)?,
            diag: self.entry.diag.copy(alloc)?,
        };
        Ok(EncodedDiag {
            entry: Box::new(alloc, entry)?,
        })
    }
}

/// The order is that of the canonical encodings.
impl Ranked for EncodedDiag {
    type Key = ();

    ghost use Rattle.std.specs.Prelude.{⊤};
    ghost use Rattle.zapdu.specs.Productions.Diagnostics.{diag_rec};
    ghost use Rattle.zknow.specs.Encodings.{encoding_cmp, encoding_total};

    ghost order = { encoding_cmp diag_rec };

    ghost is_valid = { λ _. ⊤ };

    ghost is_key = { λ _ _. ⊤ };

    ghost total = { encoding_total diag_rec };

    fn key(&self, _alloc: Global) -> Result<(), AllocError> {
        Ok(())
    }

    fn compare(
        &self,
        _alloc: Global,
        other: &EncodedDiag,
        _key: &(),
    ) -> Result<Ordering, AllocError> {
        Ok(self.entry.octets.cmp(&other.entry.octets))
    }
}
