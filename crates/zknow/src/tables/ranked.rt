//! Values in an order whose comparison may need memory.
ghost use Rattle.std.specs.Prelude.{◌≡◌, true, IfSome};
ghost use Rattle.zber.specs.Oids.{is_oid};
ghost use Rattle.zasn.specs.Meanings.{is_i64};
ghost use Rattle.zapdu.specs.Productions.Diagnostics.{diag_rec};
ghost use Rattle.zasn.specs.Place.{IsSpellable};

use crate::encoding;
use std::alloc::{AllocError, Global};
use std::cmp::Ordering;
use zapdu::{DiagRec, Record};
use zber::{Duplicate, Oid};

/// A value with an order. A comparison may need memory.
pub(crate) trait Ranked: Duplicate + Drop {
    /// What is made of a value once, to compare many others with it.
    type Key: Drop;

    ghost use Rattle.std.specs.Cmp.{IsTotalOrder};
    ghost use Rattle.std.specs.declared.cmp.Ordering.{Ordering};
    ghost use Rattle.std.specs.declared.cmp.Ordering.TheVariants.{Equal};
    ghost use Rattle.std.specs.Prelude.{◌≡◌, IfOk};

    ghost order: { Self → Self → Ordering };

    /// The order distinguishes the value from all others.
    ghost is_valid: { Self → Type 0 };

    /// The key is that of the value.
    ghost is_key: { Self → Self.Key → Type 0 };

    /// Returns the value's key. Returns `AllocError` if no memory is found.
    fn key(&self, alloc: Global) -> Result<Self::Key, AllocError>
        requires { is_valid self.now }
        ensures { IfOk result (λ key. is_key self.now key) };

    /// Compares the value with another, whose key is given. It is a tie only if the values are equal. Returns
    /// `AllocError` if no memory is found.
    fn compare(&self, alloc: Global, other: &Self, key: &Self::Key) -> Result<Ordering, AllocError>
        requires mine { is_valid self.now }
        requires theirs { is_valid other.now }
        requires key { is_key other.now key.now }
        ensures order { IfOk result (λ o. o ≡ order self.now other.now) }
        ensures exact { IfOk result (λ o. o ≡ Equal → self.now ≡ other.now) };

    ghost total: { IsTotalOrder order };
}

impl Ranked for i64 {
    type Key = ();

    ghost use Rattle.std.specs.Prelude.{⊤};
    ghost use Rattle.std.specs.Ordering.{int_cmp};
    ghost use Rattle.std.proofs.lemmas.Cmp.{int_cmp_total};

    ghost order = { int_cmp };

    ghost is_valid = { λ _. ⊤ };

    ghost is_key = { λ _ _. ⊤ };

    ghost total = { int_cmp_total };

    fn key(&self, _alloc: Global) -> Result<(), AllocError> {
        Ok(())
    }

    fn compare(&self, _alloc: Global, other: &i64, _key: &()) -> Result<Ordering, AllocError> {
        Ok(self.cmp(other))
    }
}

/// The order is that of the canonical encodings. It distinguishes only records that have an element.
impl Ranked for Record {
    /// Its canonical encoding.
    type Key = Vec<u8>;

    ghost use Rattle.zapdu.specs.Productions.Records.{whole_record};
    ghost use Rattle.zknow.specs.Encodings.{encoding_cmp, encoding_total, IsEncodedAs};
    ghost use Rattle.zasn.specs.Place.{IsSpellable};

    ghost order = { encoding_cmp whole_record };

    ghost is_valid = { IsSpellable whole_record };

    ghost is_key = { λ rec octets. IsEncodedAs whole_record rec octets.items };

    ghost total = { encoding_total whole_record };

    fn key(&self, alloc: Global) -> Result<Vec<u8>, AllocError> {
        encoding::encode(alloc, self)
    }

    fn compare(
        &self,
        alloc: Global,
        _other: &Record,
        key: &Vec<u8>,
    ) -> Result<Ordering, AllocError> {
        encoding::compare(alloc, self, key)
    }
}

/// Does nothing. Its contract says that each diagnostic has an element.
pub(crate) fn show_spelled(diag: &DiagRec)
    ensures { IsSpellable diag_rec diag.now }
{
    match diag {
        DiagRec::Default(default) => {
            oid_fits(&default.diag_set);
            number_fits(&default.condition);
        }
        DiagRec::Ext(external) => {
            each_oid_fits(&external.direct);
            each_number_fits(&external.indirect);
        }
    }
}

#[tactic(auto, using(zber::proofs::OidTest::is_oid_pass))]
fn oid_fits(oid: &Oid)
    ensures { is_oid oid.now ≡ true }
{
    let _ = oid.arcs();
}

fn each_oid_fits(oid: &Option<Oid>)
    ensures { IfSome oid.now (λ arcs. is_oid arcs ≡ true) }
{
    if let Some(oid) = oid {
        oid_fits(oid);
    }
}

#[tactic(auto, using(zasn_tables::proofs::Meanings::fits_i64))]
fn fits(number: i64)
    ensures { is_i64 number ≡ true }
{}

pub(crate) fn number_fits(number: &i64)
    ensures { is_i64 number.now ≡ true }
{
    fits(*number);
}

fn each_number_fits(number: &Option<i64>)
    ensures { IfSome number.now (λ n. is_i64 n ≡ true) }
{
    if let Some(number) = number {
        number_fits(number);
    }
}
