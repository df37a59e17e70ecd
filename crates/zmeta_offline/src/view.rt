//! What is printed of what is known.
ghost use Rattle.std.specs.Prelude.{◌≡◌, ◌++◌, OnOk, OnErr};
ghost use Rattle.zmeta_offline.specs.Views.{printed};

use std::alloc::{AllocError, Global};
use zknow::{Knowledge, Mode, Names, print_list};
use zknow_html::print_html;
use zknow_json::print_json;
use zknow_stops::Stop;
use zknow_titles::{print_fields, print_titles};
use zmarc::Charset;
use zmeta_args::View;

/// Appends the list, the view for readers, that with the fields of records, lines of JSON, or a page. All but the list
/// tell why connections stopped, and read the records of target `c` in the character set of entry `c` of `charsets`, if
/// it has one. Returns `AllocError` if no memory is found; `out` is unchanged.
pub fn print_view(
    alloc: Global,
    knowledge: &Knowledge,
    names: &Names,
    charsets: &[Option<Charset>],
    stops: &[Option<Stop>],
    view: View<'_>,
    out: &mut Vec<u8>,
) -> Result<(), AllocError>
    ensures ok { OnOk result (out.new.items
        ≡ out.old.items ++ printed names.now view.entry charsets.now stops.now knowledge.now) }
    ensures err { OnErr result (out.new.items ≡ out.old.items) }
{
    match view {
        View::Text => print_list(alloc, knowledge, names, Mode::Text, out),
        View::Hex => print_list(alloc, knowledge, names, Mode::Hex, out),
        View::Titles => print_titles(alloc, knowledge, names, charsets, stops, out),
        View::Fields => print_fields(alloc, knowledge, names, charsets, stops, out),
        View::Json => print_json(alloc, knowledge, names, charsets, stops, out),
        View::Html { heading } => print_html(
            alloc,
            heading.as_bytes(),
            names,
            charsets,
            stops,
            knowledge,
            out,
        ),
    }
}
