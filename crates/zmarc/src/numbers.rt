//! Numbers in decimal digits, as leaders and directories have them.
ghost use Rattle.std.specs.Prelude.{◌≡◌, ◌≤◌, ◌<◌, ◌^◌, length, IfSome};
ghost use Rattle.zmarc.specs.Numbers.{number, digit_or};

/// The number that the octets spell, if each of them is a digit.
#[tactic(auto, unfolding(crate::specs::Numbers::number))]
pub(crate) fn read_number(octets: &[u8]) -> Option<usize>
    requires { length octets.now ≤ 9 }
    ensures value { result ≡ number octets.now }
    ensures short { IfSome result (λ n. n < 10 ^ 9) }
{
    let mut value = 0;
    for octet in octets {
        if !octet.is_ascii_digit() {
            return None;
        }
        value = 10 * value + usize::from(*octet - b'0');
    }
    Some(value)
}

/// What the octet says if it is a digit, else the other number.
pub(crate) fn read_digit_or(other: usize, octet: u8) -> usize
    requires { other ≤ 9 }
    ensures value { result ≡ digit_or other octet }
    ensures short { result ≤ 9 }
{
    if octet.is_ascii_digit() {
        usize::from(octet - b'0')
    } else {
        other
    }
}
