//! Texts cut at octets, and the words and numbers of a line.
ghost use Rattle.std.specs.Prelude.{◌≡◌, ◌==◌, ◌<◌, ◌≤◌, length, position, IfSome};
ghost use Rattle.std.specs.Option.{option_map};
ghost use Rattle.zoom_trace.specs.Reading.{cut, word, number_in};

/// Returns the place of the first octet `mark`.
fn place_of(text: &[u8], mark: u8) -> Option<usize>
    ensures place { result ≡ position (λ x. x == mark) text.now }
    ensures within { IfSome result (λ k. k < length text.now) }
{
    text.iter().position(|octet| *octet == mark)
}

/// Returns the text before the first octet `mark`, and the text behind it. Returns `None` if the octet does not occur.
pub(crate) fn cut(text: &[u8], mark: u8) -> Option<(&[u8], &[u8])>
    ensures { option_map (λ p. (p.0.now, p.1.now)) result ≡ cut mark text.now }
{
    let place = place_of(text, mark)?;
    Some((&text[..place], &text[place + 1..]))
}

/// Returns the text between the first two quotation marks, and the text behind them.
pub(crate) fn word(text: &[u8]) -> Option<(&[u8], &[u8])>
    ensures { option_map (λ p. (p.0.now, p.1.now)) result ≡ word text.now }
{
    let (_, behind) = cut(text, b'"')?;
    cut(behind, b'"')
}

/// Returns the number between the first colon and the octet `mark`, if it is at most `most`, and the text behind it.
pub(crate) fn number_in(text: &[u8], mark: u8, most: u64) -> Option<(u64, &[u8])>
    ensures value { option_map (λ p. (p.0, p.1.now)) result ≡ number_in mark most text.now }
    ensures small { IfSome result (λ p. p.0 ≤ most) }
{
    let (_, behind) = cut(text, b':')?;
    let (digits, rest) = cut(behind, mark)?;
    let number = zquery::number(digits, most)?;
    Some((number, rest))
}
