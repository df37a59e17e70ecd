//! Where the descriptions of the records at one position differ.
ghost use Rattle.std.specs.Prelude.{◌≡◌, ◌∷◌, ◌++◌, [], map, IfOk, OnOk, string_bytes};
ghost use Rattle.std.specs.Cmp.Lexicographic.{pointwise};
ghost use Rattle.std.specs.Str.{bytes_eq};
ghost use Rattle.zknow_html.specs.Differences.{no_differences, differences, united, name_if, difference_names};

use std::alloc::{AllocError, Global};
use std::marker::Model;

/// What is shown of a record.
#[derive(Drop)]
pub(crate) struct Description {
    /// The year, empty if it has none.
    pub(crate) year: String,
    /// The title, or what stands for it.
    pub(crate) title: String,
    /// Who made it, empty if that is not known.
    pub(crate) author: String,
    /// The number of its ISBN, empty if it has none.
    pub(crate) isbn: String,
    /// A line for each copy.
    pub(crate) copies: Vec<String>,
    /// The lines of all its fields.
    pub(crate) lines: Vec<String>,
}

impl Model for Description {
    ghost use Rattle.std.specs.Prelude.{map, string_bytes};
    ghost use Rattle.zknow_html.specs.Differences.{DescriptionTexts};

    ghost Value = { DescriptionTexts };

    ghost view = { λ d. record {
      year = string_bytes d.year;
      title = string_bytes d.title;
      author = string_bytes d.author;
      isbn = string_bytes d.isbn;
      copies = map string_bytes d.copies.items;
      lines = map string_bytes d.lines.items;
    } };
}

/// The parts of descriptions that not all records have alike.
#[derive(Clone, Copy)]
pub(crate) struct Differences {
    /// The year.
    pub(crate) year: bool,
    /// The title.
    pub(crate) title: bool,
    /// Who made it.
    pub(crate) author: bool,
    /// The number of its ISBN.
    pub(crate) isbn: bool,
    /// The copies.
    pub(crate) copies: bool,
    /// The lines of all fields.
    pub(crate) lines: bool,
}

/// Returns whether these are the same lines.
#[tactic(auto, using(crate::proofs::DifferenceTheory::lines_equal))]
fn are_same(lines: &[String], others: &[String]) -> bool
    ensures { result ≡ pointwise bytes_eq (map string_bytes lines.now) (map string_bytes others.now) }
{
    lines == others
}

/// Returns no part.
pub(crate) fn no_differences() -> Differences
    ensures { result ≡ no_differences }
{
    Differences {
        year: false,
        title: false,
        author: false,
        isbn: false,
        copies: false,
        lines: false,
    }
}

/// Returns the parts that two descriptions do not have alike.
fn compare_pair(first: &Description, other: &Description) -> Differences
    ensures { result ≡ differences first.now (other.now ∷ []) }
{
    Differences {
        year: first.year.as_str() != other.year.as_str(),
        title: first.title.as_str() != other.title.as_str(),
        author: first.author.as_str() != other.author.as_str(),
        isbn: first.isbn.as_str() != other.isbn.as_str(),
        copies: !are_same(&first.copies, &other.copies),
        lines: !are_same(&first.lines, &other.lines),
    }
}

/// Returns the parts that are among these or those.
fn unite(these: Differences, those: Differences) -> Differences
    ensures { result ≡ united these those }
{
    Differences {
        year: these.year || those.year,
        title: these.title || those.title,
        author: these.author || those.author,
        isbn: these.isbn || those.isbn,
        copies: these.copies || those.copies,
        lines: these.lines || those.lines,
    }
}

/// Returns the parts that not all have alike.
#[tactic(auto, using(crate::proofs::DifferenceTheory::step_at, crate::proofs::DifferenceTheory::united_none))]
pub(crate) fn compare(first: &Description, others: &[Description]) -> Differences
    ensures { result ≡ differences first.now others.now }
{
    let mut found = no_differences();
    for other in others {
        found = unite(found, compare_pair(first, other));
    }
    found
}

/// Appends the name of a part, if it differs.
fn put_name(
    alloc: Global,
    other: bool,
    name: &str,
    names: &mut Vec<String>,
) -> Result<(), AllocError>
    ensures { OnOk result (map string_bytes names.new.items
        ≡ map string_bytes names.old.items ++ name_if other name.now) }
{
    if !other {
        return Ok(());
    }
    let text = String::from_str(alloc, name)?;
    names.push(text)?;
    Ok(())
}

/// Returns the names of the parts that differ.
#[tactic(auto, unfolding(crate::specs::Differences::difference_names))]
pub(crate) fn name_differences(alloc: Global, parts: Differences) -> Result<Vec<String>, AllocError>
    ensures { IfOk result (λ names. map string_bytes names.items ≡ difference_names parts) }
{
    let mut names = Vec::new(alloc);
    put_name(alloc, parts.year, "year", &mut names)?;
    put_name(alloc, parts.title, "title", &mut names)?;
    put_name(alloc, parts.author, "author", &mut names)?;
    put_name(alloc, parts.isbn, "ISBN", &mut names)?;
    put_name(alloc, parts.copies, "copies", &mut names)?;
    put_name(alloc, parts.lines, "fields", &mut names)?;
    Ok(names)
}
