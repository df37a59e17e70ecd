//! Elements with one identifier octet and a length in its shortest form, read where they stand.
ghost use Rattle.std.specs.Prelude.{◌≡◌, ◌+◌, ◌*◌, ◌++◌, pos, length, true, IfSome};
ghost use Rattle.zber.specs.Canonical.{size};
ghost use Rattle.zber.specs.Integers.{integer_octets};
ghost use Rattle.zknow_merge.specs.Canonical.{framed, IsOidOctets, IsSyntaxEnd};

/// Returns the length that octets begin with and the octets behind it, or `None` if it is not in its shortest form or
/// exceeds 3 octets.
fn take_size<'a>(octets: &'a [u8]) -> Option<(usize, &'a [u8])>
    ensures { IfSome result (λ r. octets.now ≡ size r.0 ++ r.1.now) }
{
    match octets {
        [a, rest @ ..] if *a < 128 => Some((usize::from(*a), rest)),
        [0x81, a, rest @ ..] if *a >= 128 => Some((usize::from(*a), rest)),
        [0x82, a, b, rest @ ..] if *a > 0 => Some((usize::from(*a) * 256 + usize::from(*b), rest)),
        [0x83, a, b, c, rest @ ..] if *a > 0 => {
            let front = usize::from(*a) * 256 + usize::from(*b);
            Some((front * 256 + usize::from(*c), rest))
        }
        _ => None,
    }
}

/// Returns the contents octets of the element that octets begin with, and the octets behind it. Returns `None` if the
/// element has another identifier or its length is not in its shortest form, or if octets of it are missing.
#[tactic(auto, unfolding(crate::specs::Canonical::framed))]
pub(crate) fn take<'a>(octets: &'a [u8], identifier: u8) -> Option<(&'a [u8], &'a [u8])>
    ensures { IfSome result (λ r. octets.now ≡ framed identifier r.0.now ++ r.1.now) }
{
    let [first, rest @ ..] = octets else {
        return None;
    };
    if *first != identifier {
        return None;
    }
    let (size, rest) = take_size(rest)?;
    if rest.len() < size {
        return None;
    }
    Some(rest.split_at(size))
}

/// Returns the contents octets of the element that the octets are, as `take` does.
pub(crate) fn whole<'a>(octets: &'a [u8], identifier: u8) -> Option<&'a [u8]>
    ensures { IfSome result (λ r. octets.now ≡ framed identifier r.now) }
{
    let (contents, rest) = take(octets, identifier)?;
    if rest.is_empty() {
        Some(contents)
    } else {
        None
    }
}

/// Returns the number of two octets.
fn pair(a: u8, b: u8) -> u32
    ensures { result ≡ a * 256 + b }
{
    u32::from(a) * 256 + u32::from(b)
}

/// Returns the number that contents octets mean, or `None` if it is none from 0 to 2,147,483,647, or if fewer octets
/// would do.
#[tactic(auto, using(crate::proofs::CanonicalTheory::one, crate::proofs::CanonicalTheory::two, crate::proofs::CanonicalTheory::three, crate::proofs::CanonicalTheory::four))]
fn number_in(octets: &[u8]) -> Option<u32>
    ensures { IfSome result (λ n. octets.now ≡ integer_octets (pos n)) }
{
    match octets {
        [a] if *a < 128 => Some(u32::from(*a)),
        [a, b] if *a < 128 && pair(*a, *b) >= 128 => Some(pair(*a, *b)),
        [a, b, c] if *a < 128 && pair(*a, *b) >= 128 => Some(pair(*a, *b) * 256 + u32::from(*c)),
        [a, b, c, d] if *a < 128 && pair(*a, *b) >= 128 => {
            Some((pair(*a, *b) * 256 + u32::from(*c)) * 256 + u32::from(*d))
        }
        _ => None,
    }
}

/// Returns the number in the element that octets begin with, and the octets behind it.
pub(crate) fn take_number<'a>(octets: &'a [u8], identifier: u8) -> Option<(u32, &'a [u8])>
    ensures { IfSome result (λ r. octets.now ≡ framed identifier (integer_octets (pos r.0)) ++ r.1.now) }
{
    let (contents, rest) = take(octets, identifier)?;
    let number = number_in(contents)?;
    Some((number, rest))
}

/// Whether these octets end the contents octets of an object identifier of a record syntax: n, or 109 and n.
fn is_syntax_end(octets: &[u8]) -> bool
    ensures { result ≡ true → IsSyntaxEnd octets.now }
{
    match octets {
        [n] => *n < 128,
        [x, n] => *x == 109 && *n < 128,
        _ => false,
    }
}

/// Whether contents octets are those of an object identifier that record syntaxes of Z39.50 have: 1.2.840.10003.5.n or
/// 1.2.840.10003.5.109.n, with n below 128.
#[tactic(auto, using(crate::proofs::CanonicalTheory::syntax_oid))]
pub(crate) fn is_syntax(octets: &[u8]) -> bool
    ensures { result ≡ true → IsOidOctets octets.now }
{
    match octets {
        [a, b, c, d, e, f, end @ ..] => {
            let front = pair(*a, *b) * 256 + u32::from(*c);
            let middle = pair(*d, *e) * 256 + u32::from(*f);
            if front != 0x2a_8648 || middle != 0xce_1305 {
                return false;
            }
            is_syntax_end(end)
        }
        _ => false,
    }
}
