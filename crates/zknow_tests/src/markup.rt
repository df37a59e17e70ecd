// Texts of strangers, as they stand in the small HTML.
use std::alloc::{AllocError, Global};
use std::test::Fail;
use zhtml::{Attribute, AttributeName, Element, put_start, put_text};

// Octets, and the text that is wanted.
const TEXTS: [(&[u8], &str); 7] = [
    (b"", ""),
    (
        b"</td><script>alert(1)</script>",
        "&lt;/td&gt;&lt;script&gt;alert(1)&lt;/script&gt;",
    ),
    (b"\" onload='x'", "&quot; onload=&#39;x&#39;"),
    (b"&lt;&amp", "&amp;lt;&amp;amp"),
    (
        b"a\x00b\x1bc\x7fd\te\nf",
        "a\u{fffd}b\u{fffd}c\u{fffd}d e f",
    ),
    (
        b"x\xe2\x80\xaey\xd8\x9cz\xe2\x81\xa6",
        "x\u{fffd}y\u{fffd}z\u{fffd}",
    ),
    (b"\xff\xc3\xa9\xf0\x9d\x84\x9e", "\u{fffd}\u{e9}\u{1d11e}"),
];

// Whether a text of these octets is appended.
fn is_text(alloc: Global, octets: &[u8], due: &str) -> Result<bool, AllocError> {
    let mut out = String::new(alloc);
    put_text(alloc, octets, &mut out)?;
    Ok(out.as_str() == due)
}

// Whether a value of these octets is appended.
fn is_value(alloc: Global, octets: &[u8], due: &str) -> Result<bool, AllocError> {
    let title = Attribute {
        name: AttributeName::AriaLabel,
        value: octets,
    };
    let mut out = String::new(alloc);
    put_start(alloc, Element::Td, &[title], &mut out)?;
    let wanted = format!(in alloc; "<td aria-label=\"{due}\">")?;
    Ok(out.as_str() == wanted.as_str())
}

// Each text is shown, as a text and as a value.
#[test]
fn texts_of_strangers(rt: HostRuntime) -> Result<(), Fail> {
    for (octets, due) in TEXTS {
        assert!(rt; is_text(rt.alloc(), octets, due) == Ok(true), "{due}");
        assert!(rt; is_value(rt.alloc(), octets, due) == Ok(true), "{due}");
    }
    Ok(())
}
