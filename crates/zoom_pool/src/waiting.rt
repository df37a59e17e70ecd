//! The octets that wait to go out.
ghost use Rattle.std.specs.Prelude.{◌≡◌, ◌+◌, ◌≤◌, ◌++◌, ◌∷◌, [], vec_len, vec_capacity, OnOk, OnErr};
ghost use Rattle.zoom_pool.specs.Transcripts.{joined};

use bytes::Bytes;
use std::alloc::AllocError;

/// Puts octets last. The caller has reserved room for them.
pub(crate) fn put(waiting: &mut Vec<Bytes>, octets: Bytes)
    requires { vec_len waiting.old + 1 ≤ vec_capacity waiting.old }
    ensures { waiting.new.items ≡ waiting.old.items ++ octets ∷ [] }
{
    let _ = waiting.push(octets);
}

/// Appends all octets that wait. If no memory is found, it appends none.
pub(crate) fn append_all(waiting: &[Bytes], out: &mut Vec<u8>) -> Result<(), AllocError>
    ensures ok { OnOk result (out.new.items ≡ out.old.items ++ joined waiting.now) }
    ensures err { OnErr result (out.new.items ≡ out.old.items) }
{
    let start = out.len();
    for octets in waiting {
        if out.extend_from_slice(octets).is_err() {
            out.truncate(start);
            return Err(AllocError);
        }
    }
    Ok(())
}
