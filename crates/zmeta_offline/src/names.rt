//! Names that are chosen among those of catalogues or questions.

ghost use Rattle.std.specs.Prelude.{◌≡◌};
ghost use Rattle.std.specs.List.{list_any};
ghost use Rattle.std.specs.Option.{option_map};
ghost use Rattle.std.specs.Str.{bytes_eq};
ghost use Rattle.zmeta_args.specs.Texts.{texts_of};
ghost use Rattle.zmeta_offline.specs.Names.{is_among, is_picked, FirstUnknownResult};

use bytes::Bytes;

/// Returns whether the name is among the names.
fn is_among(names: &[Bytes], name: &[u8]) -> bool
    ensures { result ≡ is_among names.now name.now }
{
    names.iter().any(|known| known.as_slice() == name)
}

/// Returns whether the name is among the texts.
fn is_text(texts: &[&str], name: &[u8]) -> bool
    ensures { result ≡ list_any (λ text. bytes_eq text.now name.now) texts.now }
{
    texts.iter().any(|text| text.as_bytes() == name)
}

/// Returns whether the name is among `only`, or `only` is empty.
pub fn is_picked(only: &[&str], name: &[u8]) -> bool
    ensures { result ≡ is_picked (texts_of only.now) name.now }
{
    only.is_empty() || is_text(only, name)
}

/// Returns the first of these texts that is not among the names, if there is one.
pub fn first_unknown<'a>(only: &[&'a str], names: &[Bytes]) -> Option<&'a str>
    ensures { FirstUnknownResult (texts_of only.now) names.now (option_map (λ text. text.now) result) }
{
    for text in only {
        if !is_among(names, text.as_bytes()) {
            return Some(*text);
        }
    }
    None
}
