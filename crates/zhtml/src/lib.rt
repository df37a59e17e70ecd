//! A small HTML: elements, attributes, texts and one kind of style sheet, appended to a text one after the other. The
//! names of elements and attributes are the program's own. Texts and values of attributes may be a stranger's: whatever
//! their octets are, they are shown as text, and none of them becomes markup.
#![tactic(auto)]

mod attributes;
mod elements;
pub mod laws;
mod markup;
mod texts;

pub use attributes::{Attribute, AttributeName};
pub use elements::{Element, VoidElement};
pub use markup::{put_doctype, put_end, put_start, put_style, put_void};
pub use texts::put_text;
