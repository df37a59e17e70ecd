//! One line: an object that is written member by member.
ghost use Rattle.std.specs.Prelude.{◌≡◌, ◌++◌, ◌∷◌, [], IfOk, OnOk, string_bytes};
ghost use Rattle.std.specs.Str.{is_utf8};
ghost use Rattle.json.specs.Token.{begin_object, end_object, begin_array, end_array, key};
ghost use Rattle.zknow_json.specs.Members.{text_member, natural_member, integer_member, boolean_member, octets_member, octets_unless_utf8, received_member, line};

use base64::engine::general_purpose::STANDARD;
use json::Writer;
use std::alloc::{AllocError, Global};
use std::marker::Model;

/// What is written of a line. Contracts see its tokens.
#[derive(Drop)]
pub(crate) struct Line {
    alloc: Global,
    writer: Writer,
}

impl Model for Line {
    ghost use Rattle.std.specs.Prelude.{◌≡◌, List, []};
    ghost use Rattle.json.specs.Token.{Token, tokens_code};

    ghost Value = { List Token };

    ghost coded = { tokens_code };

    ghost view = { λ l. l.writer.tokens };

    ghost invariant = { λ l. l.writer.before ≡ [] };
}

/// Whether the octets are UTF-8.
fn is_utf8(octets: &[u8]) -> bool
    ensures { result ≡ is_utf8 octets.now }
{
    str::from_utf8(octets).is_ok()
}

impl Line {
    /// Returns a line that begins an object.
    pub(crate) fn new(alloc: Global) -> Result<Self, AllocError>
        ensures { IfOk result (λ line. line ≡ begin_object ∷ []) }
    {
        let mut writer = Writer::new(Vec::new(alloc));
        writer.begin_object()?;
        Ok(Line { alloc, writer })
    }

    /// Begins an object within an array.
    pub(crate) fn begin(&mut self) -> Result<(), AllocError>
        ensures { OnOk result (self.new ≡ self.old ++ begin_object ∷ []) }
    {
        self.writer.begin_object()
    }

    /// Ends an object within an array.
    pub(crate) fn end(&mut self) -> Result<(), AllocError>
        ensures { OnOk result (self.new ≡ self.old ++ end_object ∷ []) }
    {
        self.writer.end_object()
    }

    /// Begins a member with an array.
    pub(crate) fn begin_array(&mut self, name: &str) -> Result<(), AllocError>
        ensures { OnOk result (self.new ≡ self.old ++ key name.now ∷ begin_array ∷ []) }
    {
        self.writer.key(name)?;
        self.writer.begin_array()
    }

    /// Ends an array.
    pub(crate) fn end_array(&mut self) -> Result<(), AllocError>
        ensures { OnOk result (self.new ≡ self.old ++ end_array ∷ []) }
    {
        self.writer.end_array()
    }

    /// Writes a member with a text.
    #[tactic(auto, unfolding(crate::specs::Members::text_member))]
    pub(crate) fn put_text(&mut self, name: &str, text: &str) -> Result<(), AllocError>
        ensures { OnOk result (self.new ≡ self.old ++ text_member name.now text.now) }
    {
        self.writer.key(name)?;
        self.writer.string(text)
    }

    /// Writes a member with a natural number.
    #[tactic(auto, unfolding(crate::specs::Members::natural_member))]
    pub(crate) fn put_natural(&mut self, name: &str, number: u64) -> Result<(), AllocError>
        ensures { OnOk result (self.new ≡ self.old ++ natural_member name.now number) }
    {
        self.writer.key(name)?;
        self.writer.u64(number)
    }

    /// Writes a member with an integer.
    #[tactic(auto, unfolding(crate::specs::Members::integer_member))]
    pub(crate) fn put_integer(&mut self, name: &str, number: i64) -> Result<(), AllocError>
        ensures { OnOk result (self.new ≡ self.old ++ integer_member name.now number) }
    {
        self.writer.key(name)?;
        self.writer.i64(number)
    }

    /// Writes a member with `true` or `false`.
    #[tactic(auto, unfolding(crate::specs::Members::boolean_member))]
    pub(crate) fn put_boolean(&mut self, name: &str, value: bool) -> Result<(), AllocError>
        ensures { OnOk result (self.new ≡ self.old ++ boolean_member name.now value) }
    {
        self.writer.key(name)?;
        self.writer.boolean(value)
    }

    /// Writes a member with octets, in base64.
    #[tactic(auto, unfolding(crate::specs::Members::octets_member))]
    pub(crate) fn put_octets(&mut self, name: &str, octets: &[u8]) -> Result<(), AllocError>
        ensures { OnOk result (self.new ≡ self.old ++ octets_member name.now octets.now) }
    {
        let text = STANDARD.encode(self.alloc, octets)?;
        self.put_text(name, text.as_str())
    }

    /// Writes a member with octets in base64, if they are not UTF-8.
    #[tactic(auto, unfolding(crate::specs::Members::octets_unless_utf8))]
    fn put_unless_utf8(&mut self, name: &str, octets: &[u8]) -> Result<(), AllocError>
        ensures { OnOk result (self.new ≡ self.old ++ octets_unless_utf8 name.now octets.now) }
    {
        if is_utf8(octets) {
            return Ok(());
        }
        self.put_octets(name, octets)
    }

    /// Writes a member with a text that came as octets. If they are not UTF-8, writes a second member with all octets.
    #[tactic(auto, unfolding(crate::specs::Members::received_member))]
    pub(crate) fn put_received(
        &mut self,
        name: &str,
        octets_name: &str,
        octets: &[u8],
    ) -> Result<(), AllocError>
        ensures { OnOk result (self.new ≡ self.old ++ received_member name.now octets_name.now octets.now) }
    {
        let text = String::from_utf8_lossy(self.alloc, octets)?;
        self.put_text(name, text.as_str())?;
        self.put_unless_utf8(octets_name, octets)
    }

    /// Ends the object, and appends the line.
    #[tactic(auto, unfolding(crate::specs::Members::line))]
    pub(crate) fn finish(self, out: &mut String) -> Result<(), AllocError>
        ensures { OnOk result (string_bytes out.new ≡ string_bytes out.old ++ line (self ++ end_object ∷ [])) }
    {
        let Line { mut writer, .. } = self;
        writer.end_object()?;
        let octets = writer.into_inner();
        match str::from_utf8(&octets) {
            Ok(text) => {
                out.push_str(text)?;
                out.push_str("\n")
            }
            Err(_) => unreachable!(),
        }
    }
}
