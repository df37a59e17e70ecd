//! The view for readers in parts: what stands before the rows, and the rows.
ghost use Rattle.std.specs.Prelude.{◌≡◌, ◌++◌, OnOk, OnErr, map, string_bytes};
ghost use Rattle.zknow_titles.specs.Blocks.{filled_by};
ghost use Rattle.zknow_titles.specs.Parts.{gap, title_top, title_rows};

use crate::filled::Filled;
use crate::heads::show_head;
use crate::rows::Widths;
use crate::titles::put_rows;
use crate::wholes::Extent;
use std::alloc::{AllocError, Global};
use zknow::Knowledge;
use zknow_stops::Stop;
use zmarc::Charset;

/// Appends an empty line where there is a head and rows have columns.
fn put_gap(w: &Widths, head: &[u8], out: &mut Vec<u8>) -> Result<(), AllocError>
    ensures { OnOk result (out.new.items ≡ out.old.items ++ gap w.now head.now) }
{
    if head.is_empty() || w.position == 0 {
        return Ok(());
    }
    out.extend_from_slice(b"\n")
}

/// Appends what stands in the view before its rows, if their columns have these widths. If there are no rows, positions
/// have 0 columns. The line of a set says at how many positions a record is shown, as `filled` tells it. `shown` has
/// the names as `show_names` returns them; the stops are as in `print_titles`. Returns `AllocError` if no memory is
/// found; nothing is appended.
pub fn print_title_head(
    alloc: Global,
    w: Widths,
    filled: Filled<'_>,
    shown: &[String],
    knowledge: &Knowledge,
    stops: &[Option<Stop>],
    out: &mut Vec<u8>,
) -> Result<(), AllocError>
    ensures ok { OnOk result (out.new.items
        ≡ out.old.items ++ title_top w (filled_by filled.entry knowledge.now) (map string_bytes shown.now) stops.now
        knowledge.now) }
    ensures err { OnErr result (out.new.items ≡ out.old.items) }
{
    let sets = knowledge.sets()?;
    let mut text = show_head(alloc, filled, shown, knowledge, stops, &sets)?;
    let mut between = Vec::new(alloc);
    put_gap(&w, &text, &mut between)?;
    text.extend_from_slice(&between)?;
    out.extend_from_slice(&text)
}

/// Appends the rows of the view, in columns of these widths; a position or a name that is wider is not cut. `shown` has
/// the names as `show_names` returns them; the character sets are as in `print_titles`. Returns `AllocError` if no
/// memory is found; nothing is appended.
pub fn print_title_rows(
    alloc: Global,
    extent: Extent,
    w: Widths,
    shown: &[String],
    charsets: &[Option<Charset>],
    knowledge: &Knowledge,
    out: &mut Vec<u8>,
) -> Result<(), AllocError>
    ensures ok { OnOk result (out.new.items
        ≡ out.old.items ++ title_rows extent w (map string_bytes shown.now) charsets.now knowledge.now) }
    ensures err { OnErr result (out.new.items ≡ out.old.items) }
{
    let rows = knowledge.rows()?;
    let mut text = Vec::new(alloc);
    put_rows(
        alloc, extent, &w, shown, charsets, knowledge, &rows, &mut text,
    )?;
    out.extend_from_slice(&text)
}
