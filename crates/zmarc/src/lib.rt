//! Bibliographic records of ISO 2709 (ANSI/NISO Z39.2) as one readable line each: the title and who made it, and the
//! ISBN, of records in MARC 21 and UNIMARC; year, title, author and ISBN each by itself; and a whole record line by
//! line. All of these are texts that are safe to print, whatever the octets are.
#![tactic(auto)]

mod brief;
mod charset;
mod fields;
mod format;
mod isbn;
pub mod laws;
mod lines;
mod marc8;
mod numbers;
mod pieces;
mod records;
mod shown;
mod subfields;
mod syntax;
mod year;

pub use brief::put_brief;
pub use charset::{Charset, charset_at, put_text, read_characters};
pub use fields::{put_author, put_isbn, put_title, put_year};
pub use format::{Format, Reading};
pub use lines::{gather_lines, put_lines};
pub use records::{count_lost, first_field, is_record};
pub use subfields::subfield_in;
pub use syntax::format_of;
pub use year::find_year;
