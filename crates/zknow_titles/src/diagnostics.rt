//! Diagnostics in words (Z39.50-2003, 4.1: DiagRec; Appendix DIAG).
ghost use Rattle.std.specs.Prelude.{◌≡◌, ◌++◌, OnOk, IfOk, string_bytes};
ghost use Rattle.std.specs.Str.{bytes_eq};
ghost use Rattle.zapdu.specs.Text.{info_octets};
ghost use Rattle.zmarc.specs.Charsets.{text};
ghost use Rattle.zmarc.specs.declared.charset.Charset.TheVariants.{Utf8};
ghost use Rattle.zknow_titles.specs.Diagnostics.{bib1, condition_text, bracketed, default_words, diag_words};

use crate::conditions::find_words;
use std::alloc::{AllocError, Global};
use zapdu::{DefaultDiag, DiagRec, Info};
use zber::Oid;
use zmarc::{Charset, put_text};

/// The object identifier of the diagnostic set bib-1.
const BIB_1: [u32; 6] = [1, 2, 840, 10003, 4, 1];

/// Appends a condition: of bib-1 its number and its words, of another set its number and the set.
fn put_condition(
    alloc: Global,
    set: &Oid,
    condition: i64,
    line: &mut String,
) -> Result<(), AllocError>
    ensures { OnOk result (string_bytes line.new ≡ string_bytes line.old ++ condition_text set.now condition) }
{
    let number = condition.to_string(alloc)?;
    if set.arcs() == BIB_1.as_slice() {
        line.push_str(number.as_str())?;
        if let Some(words) = find_words(condition) {
            line.push(' ')?;
            put_text(alloc, Charset::Utf8, words, line)?;
        }
        return Ok(());
    }
    line.push_str("condition ")?;
    line.push_str(number.as_str())?;
    line.push_str(" of ")?;
    let text = set.text(alloc)?;
    line.push_str(text.as_str())
}

/// Appends additional information in brackets, nothing if it is empty.
fn put_info(alloc: Global, info: &Info, line: &mut String) -> Result<(), AllocError>
    ensures { OnOk result (string_bytes line.new
        ≡ string_bytes line.old ++ bracketed (text Utf8 (info_octets info.now))) }
{
    let octets = match info {
        Info::V2(octets) => octets,
        Info::V3(octets) => octets,
    };
    let mut shown = String::new(alloc);
    put_text(alloc, Charset::Utf8, octets.as_slice(), &mut shown)?;
    if shown.is_empty() {
        return Ok(());
    }
    line.push_str(" (")?;
    line.push_str(shown.as_str())?;
    line.push_str(")")
}

/// Appends a diagnostic in the default format.
fn put_default(alloc: Global, diag: &DefaultDiag, line: &mut String) -> Result<(), AllocError>
    ensures { OnOk result (string_bytes line.new ≡ string_bytes line.old ++ default_words diag.now) }
{
    put_condition(alloc, &diag.diag_set, diag.condition, line)?;
    put_info(alloc, &diag.info, line)
}

/// Appends a diagnostic in words.
pub(crate) fn put_diag(alloc: Global, diag: &DiagRec, line: &mut String) -> Result<(), AllocError>
    ensures { OnOk result (string_bytes line.new ≡ string_bytes line.old ++ diag_words diag.now) }
{
    match diag {
        DiagRec::Default(value) => put_default(alloc, value, line),
        DiagRec::Ext(_) => line.push_str("diagnostic in another format"),
    }
}
