//! The positions that a question wants.
ghost use Rattle.std.specs.Prelude.{◌≡◌, ◌∷◌, ◌≤◌, ◌<◌, ◌+◌, Option, None, IfSome, IfOk, IfErr};
ghost use Rattle.zmeta_world.specs.declared.world.fault.LineFault.TheVariants.{Memory};
ghost use Rattle.std.specs.Option.{option_map};
ghost use Rattle.std.specs.List.{slice_split};
ghost use Rattle.zmeta_world.specs.World.{LineResult};
ghost use Rattle.zmeta_world.specs.WorldWants.{highest, most_wanted, two, ends_of, ends_in, count, range, firsts, ranges_in, wanted_of, is_comma, is_hyphen};

use crate::world::cut::first_piece;
use crate::world::fault::LineFault;
use crate::world::number::number_in;
use std::alloc::Global;
use zber::Seq;
use zplan::Range;

/// The highest position that a Present can name.
const HIGHEST: u64 = 2_147_483_647;

/// The most positions that a question may want.
const MOST: u64 = 1_000_000;

/// Returns both texts if the second has no hyphen.
fn pair<'a>(first: &'a [u8], rest: &'a [u8]) -> Option<(&'a [u8], &'a [u8])>
    ensures { option_map (λ texts. (texts.0.now, texts.1.now)) result
        ≡ two (first.now ∷ slice_split is_hyphen rest.now) }
{
    let (last, more) = first_piece(rest, b'-');
    match more {
        None => Some((first, last)),
        Some(_) => None,
    }
}

/// Returns the texts before and behind the only hyphen.
fn two(text: &[u8]) -> Option<(&[u8], &[u8])>
    ensures { option_map (λ texts. (texts.0.now, texts.1.now)) result ≡ two (slice_split is_hyphen text.now) }
{
    let (first, after) = first_piece(text, b'-');
    match after {
        Some(rest) => pair(first, rest),
        None => None,
    }
}

/// Returns the first and the last position of a range, if it begins at `low` or later.
fn ends_of(low: u64, first: &[u8], last: &[u8]) -> Option<(u64, u64)>
    ensures value { result ≡ ends_of low (first.now, last.now) }
    ensures low { IfSome result (λ ends. low ≤ ends.0) }
    ensures order { IfSome result (λ ends. ends.0 ≤ ends.1) }
    ensures high { IfSome result (λ ends. ends.1 ≤ highest) }
{
    let Some(first) = number_in(low, HIGHEST, first) else {
        return None;
    };
    match number_in(first, HIGHEST, last) {
        Some(last) => Some((first, last)),
        None => None,
    }
}

/// Reads a range: two numbers with a hyphen between them.
#[tactic(auto, unfolding(crate::specs::WorldWants::ends_in))]
fn ends_in(low: u64, room: u64, text: &[u8]) -> Option<(u64, u64)>
    ensures value { result ≡ ends_in low room text.now }
    ensures low { IfSome result (λ ends. low ≤ ends.0) }
    ensures order { IfSome result (λ ends. ends.0 ≤ ends.1) }
    ensures high { IfSome result (λ ends. ends.1 ≤ highest) }
    ensures fits { IfSome result (λ ends. count ends ≤ room) }
{
    let Some((first, last)) = two(text) else {
        return None;
    };
    match ends_of(low, first, last) {
        Some(ends) if ends.1 - ends.0 + 1 <= room => Some(ends),
        _ => None,
    }
}

fn range(ends: (u64, u64)) -> Range
    requires order { ends.0 ≤ ends.1 }
    requires high { ends.1 ≤ highest }
    ensures { result ≡ range ends }
{
    Range {
        start: ends.0 as i64,
        n: (ends.1 - ends.0 + 1) as i64,
    }
}

/// Reads a list of ranges that ascend and neither touch nor overlap.
fn ranges_of(alloc: Global, text: &[u8]) -> Result<Seq<Range>, LineFault>
    ensures { LineResult (ranges_in 1 most_wanted (slice_split is_comma text.now)) result }
{
    let mut ranges = Vec::new(alloc);
    let mut low = 1;
    let mut room = MOST;
    let mut rest = Some(text);
    while let Some(texts) = rest {
        let (text, after) = first_piece(texts, b',');
        let Some(ends) = ends_in(low, room, text) else {
            return Err(LineFault::Refused);
        };
        ranges.push(range(ends))?;
        low = ends.1 + 2;
        room -= ends.1 - ends.0 + 1;
        rest = after;
    }
    Ok(Seq::from_vec(ranges))
}

/// Returns the positions from 1 to `n`.
fn firsts(alloc: Global, n: u64) -> Result<Seq<Range>, LineFault>
    requires { n ≤ most_wanted }
    ensures ok { IfOk result (λ ranges. ranges ≡ firsts n) }
    ensures memory { IfErr result (λ e. e ≡ Memory) }
{
    let mut ranges = Vec::new(alloc);
    if n > 0 {
        ranges.push(Range {
            start: 1,
            n: n as i64,
        })?;
    }
    Ok(Seq::from_vec(ranges))
}

/// Reads the wanted positions: a number of positions from 1 on, or a list of ranges.
#[tactic(auto, unfolding(crate::specs::WorldWants::wanted_of))]
pub(crate) fn wanted_of(alloc: Global, text: &[u8]) -> Result<Seq<Range>, LineFault>
    ensures { LineResult (wanted_of text.now) result }
{
    if let Some(n) = number_in(0, MOST, text) {
        return firsts(alloc, n);
    }
    ranges_of(alloc, text)
}
