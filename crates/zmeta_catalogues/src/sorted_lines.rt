//! The lines of a file in the order of what they begin with: halving finds the lines that begin with a name.

ghost use Rattle.std.specs.Prelude.{◌≡◌, ◌≤◌, true, false, not, length, map, IfOk, IsPermutation};
ghost use Rattle.std.specs.List.Sorted.{IsPartitionPoint};
ghost use Rattle.std.specs.Ordering.{is_lt, is_gt};
ghost use Rattle.zmeta_catalogues.specs.Lines.{lines_of, line_of};
ghost use Rattle.zmeta_catalogues.specs.SortedLines.{AreNumbered, AreInOrder, AreSorted, IsSource, order_to, ends_name, IsLeast, lesser};

use crate::lines::{behind_front, ends_key};
use std::alloc::{AllocError, Global};
use std::cmp::Ordering;

/// A line of a file.
#[derive(Clone, Copy)]
pub(crate) struct Line<'a> {
    /// What stands behind all that may stand before a key.
    pub(crate) rest: &'a [u8],
    /// Its number, from 1.
    pub(crate) number: u64,
}

/// A file, and its lines in the order of what they begin with.
#[derive(Drop)]
pub(crate) struct Source<'a> {
    /// The octets of the file.
    pub(crate) text: &'a [u8],
    /// The lines.
    pub(crate) lines: Vec<Line<'a>>,
}

/// Cuts a text into its lines.
fn lines_in<'a>(alloc: Global, text: &'a [u8]) -> Result<Vec<&'a [u8]>, AllocError>
    ensures { IfOk result (λ lines. map (λ l. l.now) lines.items ≡ lines_of text.now) }
{
    text.split(|octet| *octet == b'\n').collect(alloc)
}

/// Numbers the lines, from 1.
fn numbered<'a>(alloc: Global, lines: &[&'a [u8]]) -> Result<Vec<Line<'a>>, AllocError>
    ensures { IfOk result (λ numbered. AreNumbered (map (λ l. l.now) lines.now) numbered.items) }
{
    let mut numbered = Vec::new(alloc);
    'lines: for (at, line) in lines.iter().enumerate() {
        let rest = behind_front(*line);
        let number = at as u64 + 1;
        numbered.push(Line { rest, number })?;
    }
    Ok(numbered)
}

/// Puts the lines into the order of what they begin with.
fn in_order<'a>(lines: Vec<Line<'a>>) -> Result<Vec<Line<'a>>, AllocError>
    ensures same { IfOk result (λ sorted. IsPermutation lines.entry.items sorted.items) }
    ensures order { IfOk result (λ sorted. AreInOrder sorted.items) }
{
    let mut sorted = lines;
    sorted.sort_by_key(|line| line.rest)?;
    Ok(sorted)
}

/// Reads the lines of a file.
pub(crate) fn source_of<'a>(alloc: Global, text: &'a [u8]) -> Result<Source<'a>, AllocError>
    ensures text { IfOk result (λ source. source.text.now ≡ text.now) }
    ensures lines { IfOk result IsSource }
{
    let lines = lines_in(alloc, text)?;
    let numbered = numbered(alloc, lines.as_slice())?;
    let lines = in_order(numbered)?;
    Ok(Source { text, lines })
}

/// Compares a line, up to the length of the name, with the name.
fn order_to(line: &Line<'_>, name: &[u8]) -> Ordering
    ensures { result ≡ order_to name.now line.now }
{
    let front = match line.rest.get(..name.len()) {
        Some(front) => front,
        None => line.rest,
    };
    front.cmp(&name)
}

/// Returns whether the line comes before all that begin with the name.
fn is_before(line: &Line<'_>, name: &[u8]) -> bool
    ensures { result ≡ is_lt (order_to name.now line.now) }
{
    order_to(line, name).is_lt()
}

/// Returns whether the line does not come behind all that begin with the name.
fn is_upto(line: &Line<'_>, name: &[u8]) -> bool
    ensures { result ≡ not (is_gt (order_to name.now line.now)) }
{
    !order_to(line, name).is_gt()
}

/// Returns how many lines come before all that begin with the name.
fn before(lines: &[Line<'_>], name: &[u8]) -> usize
    requires { AreInOrder lines.now }
    ensures point { IsPartitionPoint (λ l. is_lt (order_to name.now l) ≡ true)
        (λ l. is_lt (order_to name.now l) ≡ false) lines.now result }
{
    lines.partition_point(|line| is_before(line, name))
}

/// Returns how many lines do not come behind all that begin with the name.
fn upto(lines: &[Line<'_>], name: &[u8]) -> usize
    requires { AreInOrder lines.now }
    ensures within { result ≤ length lines.now }
    ensures point { IsPartitionPoint (λ l. not (is_gt (order_to name.now l)) ≡ true)
        (λ l. not (is_gt (order_to name.now l)) ≡ false) lines.now result }
{
    lines.partition_point(|line| is_upto(line, name))
}

/// Returns whether no octet of a bare key follows the first octets of the line, as many as these.
fn ends_name(line: &Line<'_>, len: usize) -> bool
    ensures { result ≡ ends_name len line.now }
{
    match line.rest.get(len..) {
        Some(behind) => ends_key(behind),
        None => true,
    }
}

/// Returns the lesser of the numbers.
fn lesser(least: Option<u64>, number: u64) -> u64
    ensures { result ≡ lesser least number }
{
    match least {
        Some(n) if n <= number => n,
        _ => number,
    }
}

/// Returns the least number of the lines in this range behind whose first octets no octet of a bare key follows.
fn least_number(lines: &[Line<'_>], from: usize, to: usize, len: usize) -> Option<u64>
    requires { to ≤ length lines.now }
    ensures { IsLeast (ends_name len) lines.now from to result }
{
    let mut least: Option<u64> = None;
    'lines: for at in from..to {
        let line = &lines[at];
        if ends_name(line, len) {
            least = Some(lesser(least, line.number));
        }
    }
    least
}

/// Returns the number of the first line that begins with the name, from 1; 0 if none does.
pub(crate) fn line_of(source: &Source<'_>, name: &[u8]) -> u64
    requires { IsSource source.now }
    ensures { result ≡ line_of source.now.text.now name.now }
{
    let lines = source.lines.as_slice();
    let from = before(lines, name);
    let to = upto(lines, name);
    least_number(lines, from, to, name.len()).unwrap_or(0)
}
