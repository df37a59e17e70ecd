//! Names in order, each of them once.
ghost use Rattle.std.specs.Prelude.{◌≡◌, ◌++◌, ◌∷◌, [], false, OnOk};
ghost use Rattle.zmeta_world.specs.Worlds.{is_among};

use bytes::Bytes;
use indexmap::IndexSet;
use std::alloc::AllocError;

/// Appends a name that is not yet among the names.
pub(crate) fn add_name(names: &mut IndexSet<Bytes>, name: &Bytes) -> Result<(), AllocError>
    ensures { is_among name.now names.old.keys ≡ false
        → OnOk result (names.new.keys ≡ names.old.keys ++ name.now ∷ []) }
{
    names.insert(name.clone()?)?;
    Ok(())
}
