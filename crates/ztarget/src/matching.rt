//! Which fields a search looks in.
ghost use Rattle.std.specs.Prelude.{◌≡◌};
ghost use Rattle.ztarget.specs.Matching.{is_searched_field};

use crate::criterion::ANY;
use crate::database::Field;

/// Returns whether searches with this Use look in the field.
pub(crate) fn is_searched_field(used: i64, field: &Field) -> bool
    ensures { result ≡ is_searched_field used field.now }
{
    used == ANY || field.attr == used
}
