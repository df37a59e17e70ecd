//! Each fact has an element.
ghost use Rattle.std.specs.Prelude.{◌≡◌, ◌<◌, ◌^◌, true};
ghost use Rattle.zasn.specs.Meanings.{is_i64};
ghost use Rattle.zapdu.specs.Productions.Diagnostics.{diag_rec};
ghost use Rattle.zasn.specs.Place.{IsSpellable};
ghost use Rattle.zknow.specs.Tables.FactRefs.{fact_of};
ghost use Rattle.zknow.specs.Facts.{IsFact};
ghost use Rattle.zknow.specs.Saved.Naturals.{is_natural};
ghost use Rattle.zknow.specs.Saved.SavedFacts.{saved_fact};

use crate::tables::fact_ref::FactRef;
use crate::tables::ranked::{number_fits, show_spelled};

fn natural_fits(number: &u32)
    ensures { is_natural number.now ≡ true }
{
    small_fits(*number);
}

fn small_fits(number: u32)
    ensures { is_natural number ≡ true }
{}

/// Does nothing. Its contract says that the fact has an element.
pub(crate) fn fits(fact: &FactRef<'_>)
    requires { IsFact (fact_of fact.now) }
    ensures { IsSpellable saved_fact (fact_of fact.now) }
{
    match fact {
        FactRef::Count { target, set, count } => {
            natural_fits(target);
            natural_fits(set);
            number_fits(count);
        }
        FactRef::Failed { target, set } => {
            natural_fits(target);
            natural_fits(set);
        }
        FactRef::Seen {
            target,
            set,
            position,
            ..
        } => {
            natural_fits(target);
            natural_fits(set);
            number_fits(position);
        }
        FactRef::Diag {
            target,
            set,
            place,
            diag,
        } => {
            natural_fits(target);
            natural_fits(set);
            number_fits(place);
            show_spelled(*diag);
        }
    }
}
