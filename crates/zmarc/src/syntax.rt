//! How records in a syntax are read.
ghost use Rattle.std.specs.Prelude.{◌≡◌};
ghost use Rattle.zmarc.specs.Syntaxes.{is_marc, format_of};

use crate::format::Format;
use crate::records::is_record;

/// The syntax of UNIMARC.
const UNIMARC: [u32; 6] = [1, 2, 840, 10003, 5, 1];
/// The syntax of SUTRS.
const SUTRS: [u32; 6] = [1, 2, 840, 10003, 5, 101];
/// The syntax of XML.
const XML: [u32; 7] = [1, 2, 840, 10003, 5, 109, 10];
/// What the syntaxes of MARC begin with.
const SYNTAXES: [u32; 5] = [1, 2, 840, 10003, 5];

/// Whether a syntax is one of MARC: 1.2.840.10003.5.0 to 1.2.840.10003.5.99.
fn is_marc(syntax: &[u32]) -> bool
    ensures { result ≡ is_marc syntax.now }
{
    syntax.len() == 6 && &syntax[..5] == SYNTAXES.as_slice() && syntax[5] <= 99
}

/// Tells in which format octets in a syntax are read (Z39.50-2003, Appendix REC). A syntax has the numbers of its
/// object identifier; where no identifier names it, there are none.
///
/// Octets in the syntax UNIMARC (1.2.840.10003.5.1) are read as UNIMARC. Those in another syntax of MARC (up to
/// 1.2.840.10003.5.99) are read as MARC 21, and so is a record (`is_record`) in any syntax but SUTRS
/// (1.2.840.10003.5.101) and XML (1.2.840.10003.5.109.10). Returns `None` for other octets. Octets that have a format
/// need not be a record.
#[tactic(auto, unfolding(crate::specs::Syntaxes::format_of))]
pub fn format_of(syntax: &[u32], octets: &[u8]) -> Option<Format>
    ensures { result ≡ format_of syntax.now octets.now }
{
    if syntax == SUTRS.as_slice() || syntax == XML.as_slice() {
        return None;
    }
    if syntax == UNIMARC.as_slice() {
        return Some(Format::Unimarc);
    }
    if is_marc(syntax) || is_record(octets) {
        return Some(Format::Marc21);
    }
    None
}
