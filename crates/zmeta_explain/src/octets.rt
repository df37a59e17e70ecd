//! What can be wrong with octets that are to be messages, in words.
ghost use Rattle.std.specs.Prelude.{◌≡◌};
ghost use Rattle.zmeta_explain.specs.Octets.{frame_words};
ghost use Rattle.zmeta_explain.specs.Sentences.{sentence_text};

use crate::sentences::{Insert, Sentence};
use zber::FaultKind;

/// Returns the words for octets that are no message, for this reason. The number is that of the octets in front of the
/// header at fault; if the octets end too early, of those that are left.
pub(crate) fn frame_sentence(kind: FaultKind, at: u64) -> Sentence<'static>
    ensures { sentence_text result ≡ frame_words kind at }
{
    let at = Insert::Number(at);
    match kind {
        FaultKind::TagForm => Sentence::One(
            "the tag behind ",
            at,
            " octets has a form that BER forbids; are these octets from the front of a message?",
        ),
        FaultKind::TagTooLarge => {
            Sentence::One("the tag behind ", at, " octets is larger than 4294967295")
        }
        FaultKind::StrayEnd => Sentence::One(
            "the end of contents behind ",
            at,
            " octets ends no element that is open",
        ),
        FaultKind::LengthForm => Sentence::One(
            "the length of the element behind ",
            at,
            " octets has a form that BER forbids",
        ),
        FaultKind::IndefinitePrimitive => Sentence::One(
            "the element behind ",
            at,
            " octets is primitive, and its length is not definite",
        ),
        FaultKind::Overrun => Sentence::One(
            "the element behind ",
            at,
            " octets is longer than the one around it",
        ),
        FaultKind::TooLong => Sentence::One(
            "the element behind ",
            at,
            " octets makes the message longer than 2097152 octets",
        ),
        FaultKind::TooDeep => Sentence::One(
            "the element behind ",
            at,
            " octets is deeper than 64 others",
        ),
        FaultKind::Truncated => Sentence::One(
            "the last ",
            at,
            " octets are not a whole message; give the others too",
        ),
    }
}
