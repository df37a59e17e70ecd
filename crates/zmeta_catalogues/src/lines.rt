//! Lines and columns of a file, and what may stand before and behind a key on its line.

ghost use Rattle.std.specs.Prelude.{◌≡◌, ◌+◌, ◌≤◌, length, take, count_by, position, IfSome};
ghost use Rattle.zmeta_catalogues.specs.Lines.{is_feed, is_front, is_bare, is_no_front, behind_front, ends_key};

/// Returns whether the octet may stand before a key on its line.
#[tactic(auto, unfolding(crate::specs::Lines::is_front))]
fn is_front(octet: u8) -> bool
    ensures { result ≡ is_front octet }
{
    octet == b' ' || octet == b'\t' || octet == b'[' || octet == b'"' || octet == b'\''
}

/// Returns whether the octet belongs to a bare key.
#[tactic(auto, unfolding(crate::specs::Lines::is_bare))]
pub(crate) fn is_bare(octet: u8) -> bool
    ensures { result ≡ is_bare octet }
{
    octet.is_ascii_alphanumeric() || octet == b'-' || octet == b'_'
}

/// Returns the place of the first octet that may not stand before a key.
fn front_end(line: &[u8]) -> Option<usize>
    ensures at { result ≡ position is_no_front line.now }
    ensures within { IfSome result (λ at. at ≤ length line.now) }
{
    line.iter().position(|octet| !is_front(*octet))
}

/// Returns the line behind what may stand before a key.
pub(crate) fn behind_front(line: &[u8]) -> &[u8]
    ensures { result.now ≡ behind_front line.now }
{
    match front_end(line) {
        Some(at) => &line[at..],
        None => b"".as_slice(),
    }
}

/// Returns whether no octet of a bare key is at the front of the text.
pub(crate) fn ends_key(text: &[u8]) -> bool
    ensures { result ≡ ends_key text.now }
{
    match text {
        [first, ..] => !is_bare(*first),
        [] => true,
    }
}

/// Returns how many line feeds there are.
fn feeds_in(text: &[u8]) -> u64
    ensures { result ≡ count_by is_feed text.now }
{
    text.iter().filter(|octet| **octet == b'\n').count() as u64
}

/// Returns how many octets stand behind the last line feed.
fn octets_behind(text: &[u8]) -> u64 {
    match text.iter().rposition(|octet| *octet == b'\n') {
        Some(at) => (text.len() - at - 1) as u64,
        None => text.len() as u64,
    }
}

/// Returns the line and the column of the octet behind a text, both from 1. Columns count octets.
pub(crate) fn place_behind(text: &[u8]) -> (u64, u64)
    ensures { result.0 ≡ count_by is_feed text.now + 1 }
{
    (
        feeds_in(text).saturating_add(1),
        octets_behind(text).saturating_add(1),
    )
}
