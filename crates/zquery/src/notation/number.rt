// Numbers in decimal.
ghost use Rattle.std.specs.Prelude.{◌≡◌, ◌≤◌, ◌^◌, drop, true, false, IfSome, IfNone};
ghost use Rattle.std.specs.Char.{is_ascii_digit};
ghost use Rattle.std.specs.List.{list_all};
ghost use Rattle.zquery.specs.Notation.Numbers.{is_numeral, has_minus, number_of_text, integer_of, minus};

fn are_digits(text: &[u8]) -> bool
    ensures { result ≡ list_all is_ascii_digit text.now }
{
    text.iter().all(|octet| octet.is_ascii_digit())
}

/// Whether the text is one decimal digit or more.
fn is_numeral(text: &[u8]) -> bool
    ensures { result ≡ is_numeral text.now }
{
    !text.is_empty() && are_digits(text)
}

/// Parses a text of decimal digits as a number. Returns `None` if the number is above `most`, if the text is empty, or
/// if it has other octets. It takes no memory.
pub fn number(text: &[u8], most: u64) -> Option<u64>
    ensures value { result ≡ number_of_text most text.now }
    ensures small { IfSome result (λ n. n ≤ most) }
{
    if !is_numeral(text) {
        return None;
    }
    let Ok(digits) = str::from_utf8(text) else {
        return None;
    };
    match digits.parse::<u64>() {
        Ok(number) if number <= most => Some(number),
        _ => None,
    }
}

/// Returns the number below 0 of this size, which is at most 2^63.
fn negate(number: u64) -> i64
    requires { number ≤ 2 ^ 63 }
    ensures { result ≡ minus number }
{
    if number == 0 {
        0
    } else {
        -((number - 1) as i64) - 1
    }
}

/// Returns the octets behind a minus, or `None` if the text does not begin with one.
fn after_minus(text: &[u8]) -> Option<&[u8]>
    ensures some { IfSome result (λ digits. (has_minus text.now ≡ true)
        × (digits.now ≡ drop 1 text.now)) }
    ensures none { IfNone result (has_minus text.now ≡ false) }
{
    match text {
        [b'-', digits @ ..] => Some(digits),
        _ => None,
    }
}

/// Parses decimal digits, with or without a minus before them, as a number of 64 bits. Returns `None` for any other
/// text.
#[tactic(auto, unfolding(crate::specs::Notation::Numbers::integer_of))]
pub(crate) fn integer(text: &[u8]) -> Option<i64>
    ensures { result ≡ integer_of text.now }
{
    if let Some(digits) = after_minus(text) {
        return match number(digits, 9_223_372_036_854_775_808) {
            Some(number) => Some(negate(number)),
            None => None,
        };
    }
    match number(text, 9_223_372_036_854_775_807) {
        Some(number) => Some(number as i64),
        None => None,
    }
}
