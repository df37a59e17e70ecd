//! The names of catalogues, as they are shown.
ghost use Rattle.std.specs.Prelude.{◌≡◌, ◌++◌, OnOk, IfOk, map, slice_get, string_bytes};
ghost use Rattle.zknow_titles.specs.Names.{shown_names, name_or_number, set_part, label};

use std::alloc::{AllocError, Global};
use zknow::Names;
use zmarc::{Charset, put_text};

/// Returns each name as safe text.
pub fn show_names(alloc: Global, names: &Names) -> Result<Vec<String>, AllocError>
    ensures { IfOk result (λ shown. map string_bytes shown.items ≡ shown_names names.now) }
{
    let mut shown = Vec::new(alloc);
    for name in names.as_slice() {
        let mut text = String::new(alloc);
        put_text(alloc, Charset::Utf8, name.as_slice(), &mut text)?;
        shown.push(text)?;
    }
    Ok(shown)
}

/// Appends the name of a target, or `#` and its number where it has no name.
fn put_name(
    alloc: Global,
    shown: &[String],
    target: usize,
    line: &mut String,
) -> Result<(), AllocError>
    ensures { OnOk result (string_bytes line.new
        ≡ string_bytes line.old ++ name_or_number target (slice_get (map string_bytes shown.now) target)) }
{
    match shown.get(target) {
        None => {
            line.push('#')?;
            let number = target.to_string(alloc)?;
            line.push_str(number.as_str())
        }
        Some(name) => line.push_str(name.as_str()),
    }
}

/// Returns the name of a target, or `#` and its number where it has no name.
pub fn name_of(alloc: Global, shown: &[String], target: usize) -> Result<String, AllocError>
    ensures { IfOk result (λ found. string_bytes found
        ≡ name_or_number target (slice_get (map string_bytes shown.now) target)) }
{
    let mut found = String::new(alloc);
    put_name(alloc, shown, target, &mut found)?;
    Ok(found)
}

/// Appends the number of a set other than the connection and the first.
fn put_set(alloc: Global, set: u32, line: &mut String) -> Result<(), AllocError>
    ensures { OnOk result (string_bytes line.new ≡ string_bytes line.old ++ set_part set) }
{
    if set <= 1 {
        return Ok(());
    }
    line.push_str(" set ")?;
    let number = set.to_string(alloc)?;
    line.push_str(number.as_str())
}

/// Returns the name of a target's set: the target's name, or `#` and its number, and the number of a set other than the
/// connection and the first.
pub fn label_of(
    alloc: Global,
    shown: &[String],
    target: u32,
    set: u32,
) -> Result<String, AllocError>
    ensures { IfOk result (λ found. string_bytes found ≡ label (map string_bytes shown.now) target set) }
{
    let mut found = String::new(alloc);
    put_name(alloc, shown, target as usize, &mut found)?;
    put_set(alloc, set, &mut found)?;
    Ok(found)
}
