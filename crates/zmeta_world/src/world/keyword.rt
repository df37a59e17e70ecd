//! The keyword of a line: its first token.
ghost use Rattle.std.specs.Prelude.{◌≡◌};
ghost use Rattle.zmeta_world.specs.WorldLines.{keyword_of};

/// The keywords of the lines of a world file.
#[derive(Clone, Copy, PartialEq, Eq)]
pub(crate) enum Keyword {
    Step,
    Window,
    Target,
    Host,
    Database,
    Record,
    Field,
    Ask,
    To,
    Release,
    From,
}

/// Returns the keyword that a token is.
#[tactic(auto, unfolding(crate::specs::WorldLines::keyword_of))]
pub(crate) fn keyword_of(word: &[u8]) -> Option<Keyword>
    ensures { result ≡ keyword_of word.now }
{
    if word == b"step".as_slice() {
        Some(Keyword::Step)
    } else if word == b"window".as_slice() {
        Some(Keyword::Window)
    } else if word == b"target".as_slice() {
        Some(Keyword::Target)
    } else if word == b"host".as_slice() {
        Some(Keyword::Host)
    } else if word == b"db".as_slice() {
        Some(Keyword::Database)
    } else if word == b"rec".as_slice() {
        Some(Keyword::Record)
    } else if word == b"field".as_slice() {
        Some(Keyword::Field)
    } else if word == b"ask".as_slice() {
        Some(Keyword::Ask)
    } else if word == b"to".as_slice() {
        Some(Keyword::To)
    } else if word == b"rel".as_slice() {
        Some(Keyword::Release)
    } else if word == b"from".as_slice() {
        Some(Keyword::From)
    } else {
        None
    }
}
