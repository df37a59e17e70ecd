//! Counts of the records that are left out.
ghost use Rattle.std.specs.Prelude.{◌≡◌, IfSome, IfNone};
ghost use Rattle.zknow_records.specs.Parts.{left_sum, HasTooMany};

/// Counts of what was left out of the octets written. A position that is left out is counted once, and its records are
/// not counted.
#[derive(Clone, Copy, PartialEq, Eq, Default)]
pub struct LeftOut {
    /// How many positions have several records, whatever their syntaxes; 0 if conflicts were asked for.
    pub conflicts: u64,
    /// How many records have another syntax than the one asked for; 0 if none was asked for.
    pub syntaxes: u64,
    /// How many surrogate diagnostics were taken. Each takes the place of a record (Z39.50-2003, 4.1: NamePlusRecord).
    pub diagnostics: u64,
    /// How many other records without octets of their own were taken: fragments, and EXTERNALs with anything but a
    /// syntax and octets. An OPAC record is one of these if its bibliographic record is, or is not there.
    pub others: u64,
}

impl LeftOut {
    /// Returns the counts of what was left out of these positions and of others. Returns `None` if a count passes 64
    /// bits.
    pub fn checked_add(self, more: LeftOut) -> Option<LeftOut>
        ensures sum { IfSome result (λ sum. sum ≡ left_sum self more) }
        ensures none { IfNone result (HasTooMany (left_sum self more)) }
    {
        Some(LeftOut {
            conflicts: self.conflicts.checked_add(more.conflicts)?,
            syntaxes: self.syntaxes.checked_add(more.syntaxes)?,
            diagnostics: self.diagnostics.checked_add(more.diagnostics)?,
            others: self.others.checked_add(more.others)?,
        })
    }
}
