//! Places in a text: what stands before and from the first octet of a kind.
ghost use Rattle.std.specs.Prelude.{◌≡◌, drop};
ghost use Rattle.std.specs.List.{before_first, position};
ghost use Rattle.zmeta_explain.specs.Places.{is_space, is_quote, is_colon, is_feed, is_hyphen, is_token_octet, from_first};

fn is_space(octet: u8) -> bool
    ensures { result ≡ is_space octet }
{
    octet == 0x20 || octet == 0x09 || octet == 0x0A || octet == 0x0D
}

fn is_quote(octet: u8) -> bool
    ensures { result ≡ is_quote octet }
{
    octet == b'"'
}

fn is_colon(octet: u8) -> bool
    ensures { result ≡ is_colon octet }
{
    octet == b':'
}

fn is_feed(octet: u8) -> bool
    ensures { result ≡ is_feed octet }
{
    octet == b'\n'
}

fn is_hyphen(octet: u8) -> bool
    ensures { result ≡ is_hyphen octet }
{
    octet == b'-'
}

/// Tells whether the octet is no white space.
fn is_token_octet(octet: u8) -> bool
    ensures { result ≡ is_token_octet octet }
{
    !is_space(octet)
}

/// Returns the text behind its first `at` octets, nothing if it has no more.
pub(crate) fn behind(text: &[u8], at: usize) -> &[u8]
    ensures { result.now ≡ drop at text.now }
{
    if at < text.len() {
        text.split_at(at).1
    } else {
        &[]
    }
}

fn space_place(text: &[u8]) -> Option<usize>
    ensures { result ≡ position is_space text.now }
{
    text.iter().position(|octet| is_space(*octet))
}

pub(crate) fn before_space(text: &[u8]) -> &[u8]
    ensures { result.now ≡ before_first is_space text.now }
{
    match space_place(text) {
        Some(place) => text.split_at(place).0,
        None => text,
    }
}

pub(crate) fn from_space(text: &[u8]) -> &[u8]
    ensures { result.now ≡ from_first is_space text.now }
{
    match space_place(text) {
        Some(place) => text.split_at(place).1,
        None => &[],
    }
}

fn quote_place(text: &[u8]) -> Option<usize>
    ensures { result ≡ position is_quote text.now }
{
    text.iter().position(|octet| is_quote(*octet))
}

pub(crate) fn before_quote(text: &[u8]) -> &[u8]
    ensures { result.now ≡ before_first is_quote text.now }
{
    match quote_place(text) {
        Some(place) => text.split_at(place).0,
        None => text,
    }
}

pub(crate) fn from_quote(text: &[u8]) -> &[u8]
    ensures { result.now ≡ from_first is_quote text.now }
{
    match quote_place(text) {
        Some(place) => text.split_at(place).1,
        None => &[],
    }
}

fn colon_place(text: &[u8]) -> Option<usize>
    ensures { result ≡ position is_colon text.now }
{
    text.iter().position(|octet| is_colon(*octet))
}

pub(crate) fn before_colon(text: &[u8]) -> &[u8]
    ensures { result.now ≡ before_first is_colon text.now }
{
    match colon_place(text) {
        Some(place) => text.split_at(place).0,
        None => text,
    }
}

pub(crate) fn from_colon(text: &[u8]) -> &[u8]
    ensures { result.now ≡ from_first is_colon text.now }
{
    match colon_place(text) {
        Some(place) => text.split_at(place).1,
        None => &[],
    }
}

fn feed_place(text: &[u8]) -> Option<usize>
    ensures { result ≡ position is_feed text.now }
{
    text.iter().position(|octet| is_feed(*octet))
}

pub(crate) fn before_feed(text: &[u8]) -> &[u8]
    ensures { result.now ≡ before_first is_feed text.now }
{
    match feed_place(text) {
        Some(place) => text.split_at(place).0,
        None => text,
    }
}

pub(crate) fn from_feed(text: &[u8]) -> &[u8]
    ensures { result.now ≡ from_first is_feed text.now }
{
    match feed_place(text) {
        Some(place) => text.split_at(place).1,
        None => &[],
    }
}

fn word_place(text: &[u8]) -> Option<usize>
    ensures { result ≡ position is_token_octet text.now }
{
    text.iter().position(|octet| is_token_octet(*octet))
}

pub(crate) fn from_word(text: &[u8]) -> &[u8]
    ensures { result.now ≡ from_first is_token_octet text.now }
{
    match word_place(text) {
        Some(place) => text.split_at(place).1,
        None => &[],
    }
}

fn hyphen_place(text: &[u8]) -> Option<usize>
    ensures { result ≡ position is_hyphen text.now }
{
    text.iter().position(|octet| is_hyphen(*octet))
}

pub(crate) fn before_hyphen(text: &[u8]) -> &[u8]
    ensures { result.now ≡ before_first is_hyphen text.now }
{
    match hyphen_place(text) {
        Some(place) => text.split_at(place).0,
        None => text,
    }
}

pub(crate) fn from_hyphen(text: &[u8]) -> &[u8]
    ensures { result.now ≡ from_first is_hyphen text.now }
{
    match hyphen_place(text) {
        Some(place) => text.split_at(place).1,
        None => &[],
    }
}
