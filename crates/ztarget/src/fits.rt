//! Facts that hold of each value of a type, for contracts that need them. The functions do nothing.
ghost use Rattle.std.specs.Prelude.{◌≡◌, true};
ghost use Rattle.zber.specs.Oids.{IsOid};
ghost use Rattle.zasn.specs.Meanings.{is_i64};

use zber::Oid;

/// Does nothing: it shows that a number is within 64 bits.
#[tactic(auto, using(zasn_tables::proofs::Meanings::fits_i64))]
pub(crate) fn show_i64(number: i64)
    ensures { is_i64 number ≡ true }
{}

/// Does nothing: it shows that the arcs are those of an object identifier.
pub(crate) fn show_oid(oid: &Oid)
    ensures { IsOid oid.now }
{
    let _ = oid.arcs();
}
