//! The terms of a search, and what each asks of a catalogue.

ghost use Rattle.std.specs.Prelude.{◌≡◌};
ghost use Rattle.std.specs.List.{list_all};
ghost use Rattle.zmeta_searches.specs.Terms.{use_of, relation_of, more_of, may_be_cut, ends_starred, is_cut, is_hyphen, uncut, is_blank};

/// What a term is looked for in.
#[derive(Clone, Copy, PartialEq, Eq)]
pub enum Access {
    /// The title (Use 4 of bib-1).
    Title,
    /// The author (Use 1003).
    Author,
    /// The subject (Use 21).
    Subject,
    /// The ISBN (Use 7).
    Isbn,
    /// The ISSN (Use 8).
    Issn,
    /// The year of publication (Use 31).
    Year,
    /// This year or a later one (Use 31, and Relation 4).
    Since,
    /// This year or an earlier one (Use 31, and Relation 2).
    Until,
    /// Anything (Use 1016).
    Any,
}

/// A term of a search.
#[derive(Clone, Copy)]
pub struct SearchTerm<'a> {
    /// What it is looked for in.
    pub access: Access,
    /// The text. An asterisk at the end of a title, an author, a subject or a term for anything asks for all that
    /// begins so. Hyphens of an ISBN say nothing.
    pub text: &'a str,
}

/// Returns the number of the Use attribute of bib-1.
pub(crate) fn use_of(access: Access) -> u32
    ensures { result ≡ use_of access }
{
    match access {
        Access::Title => 4,
        Access::Author => 1003,
        Access::Subject => 21,
        Access::Isbn => 7,
        Access::Issn => 8,
        Access::Year => 31,
        Access::Since => 31,
        Access::Until => 31,
        Access::Any => 1016,
    }
}

/// Returns the type and the value of the Relation attribute of an access point, if it has one.
fn relation_of(access: Access) -> Option<(u32, u32)>
    ensures { result ≡ relation_of access }
{
    match access {
        Access::Since => Some((2, 4)),
        Access::Until => Some((2, 2)),
        _ => None,
    }
}

/// Returns whether an asterisk at the end of a term of this access point truncates.
fn may_be_cut(access: Access) -> bool
    ensures { result ≡ may_be_cut access }
{
    match access {
        Access::Title | Access::Author | Access::Subject | Access::Any => true,
        _ => false,
    }
}

/// Returns whether the octets end with an asterisk.
fn ends_starred(octets: &[u8]) -> bool
    ensures { result ≡ ends_starred octets.now }
{
    let len = octets.len();
    0 < len && octets[len - 1] == b'*'
}

/// Returns whether a term is truncated.
fn is_cut(access: Access, octets: &[u8]) -> bool
    ensures { result ≡ is_cut access octets.now }
{
    may_be_cut(access) && ends_starred(octets)
}

/// Returns the type and the value of the attribute beside Use that a term asks with, if there is one.
pub(crate) fn more_of(access: Access, octets: &[u8]) -> Option<(u32, u32)>
    ensures { result ≡ more_of access octets.now }
{
    if is_cut(access, octets) {
        Some((5, 1))
    } else {
        relation_of(access)
    }
}

/// Returns the octets without the asterisk that truncates, if there is one.
pub(crate) fn uncut(access: Access, octets: &[u8]) -> &[u8]
    ensures { result.now ≡ uncut access octets.entry.now }
{
    if is_cut(access, octets) {
        &octets[..octets.len() - 1]
    } else {
        octets
    }
}

/// Returns whether all octets are hyphens.
fn are_hyphens(octets: &[u8]) -> bool
    ensures { result ≡ list_all is_hyphen octets.now }
{
    octets.iter().all(|octet| *octet == b'-')
}

/// Returns whether nothing is left of a term.
#[tactic(auto, using(crate::proofs::Blanks::all_hyphens))]
pub(crate) fn is_blank(term: SearchTerm<'_>) -> bool
    ensures { result ≡ is_blank term.entry.access term.entry.text.now }
{
    let octets = term.text.as_bytes();
    if term.access == Access::Isbn {
        return are_hyphens(octets);
    }
    uncut(term.access, octets).is_empty()
}
