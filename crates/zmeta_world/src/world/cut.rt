//! Texts split at an octet.
ghost use Rattle.std.specs.Prelude.{◌≡◌, ◌≢◌, ◌∷◌, ◌==◌, ◌++◌, ◌<◌, length, All, IfSome};
ghost use Rattle.std.specs.List.{slice_split};
ghost use Rattle.std.specs.Option.{option_map};
ghost use Rattle.zmeta_world.specs.World.{pieces, behind};

/// Returns the text before the first octet `at`, and the text behind it if the octet occurs.
fn split_at(text: &[u8], at: u8) -> (&[u8], Option<&[u8]>)
    ensures whole { text.now ≡ result.0.now ++ behind at (option_map (λ r. r.now) result.1) }
    ensures shorter { IfSome result.1 (λ r. length r.now < length text.now) }
    ensures plain { All (λ x. x ≢ at) result.0.now }
{
    match text.iter().position(|octet| *octet == at) {
        Some(place) => (&text[..place], Some(&text[place + 1..])),
        None => (text, None),
    }
}

/// Returns the first piece of a text that is split at each octet `at`, and the text of the other pieces.
pub(crate) fn first_piece(text: &[u8], at: u8) -> (&[u8], Option<&[u8]>)
    ensures shorter { IfSome result.1 (λ r. length r.now < length text.now) }
    ensures pieces { slice_split (λ b. b == at) text.now ≡ result.0.now ∷ pieces at (option_map (λ r. r.now) result.1) }
{
    split_at(text, at)
}
