//! Diagnostics in a table, each with its place.
ghost use Rattle.std.specs.Prelude.{◌≡◌, ◌++◌, OnOk, map};
ghost use Rattle.zknow.specs.Known.{referenced_pairs};
ghost use Rattle.zknow.specs.Tables.Sections.{number_pairs};

use crate::tables::distinct::Distinct;
use crate::tables::encoded_diag::EncodedDiag;
use crate::tables::table::Table;
use std::alloc::AllocError;
use zapdu::DiagRec;

/// Takes the diagnostics at one place.
fn take_diags<'a>(
    place: i64,
    diags: &'a [EncodedDiag],
    found: &mut Vec<(i64, &'a DiagRec)>,
) -> Result<(), AllocError>
    ensures { OnOk result (referenced_pairs found.new.items
        ≡ referenced_pairs found.old.items ++ map (λ d. (place, d)) diags.now) }
{
    for diag in diags {
        found.push((place, diag.diag()))?;
    }
    Ok(())
}

/// Takes all diagnostics of a table, by place.
pub(crate) fn take_all_diags<'a>(
    diags: &'a Table<i64, Distinct<EncodedDiag>>,
    found: &mut Vec<(i64, &'a DiagRec)>,
) -> Result<(), AllocError>
    ensures { OnOk result (referenced_pairs found.new.items
        ≡ referenced_pairs found.old.items ++ number_pairs diags.now) }
{
    for (place, diags) in diags.iter() {
        take_diags(*place, diags.values(), found)?;
    }
    Ok(())
}
