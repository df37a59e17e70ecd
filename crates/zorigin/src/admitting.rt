//! What an admitted call changes.
ghost use Rattle.std.specs.Prelude.{◌≡◌, true, nat_eq, IfErr, OnOk, OnErr};
ghost use Rattle.indexmap.specs.IndexMap.{insert_entry};
ghost use Rattle.indexmap.specs.IndexSet.{insert_key};
ghost use Rattle.zorigin.specs.Standings.{Init, Search, Present};
ghost use Rattle.zorigin.specs.Changes.{admitted_at};
ghost use Rattle.zorigin.specs.Ranges.{are_ranges};

use crate::answer::{Asked, What};
use crate::origin::Origin;
use crate::refusal::CallRefused;
use crate::settings::Ask;
use crate::state::{Searched, State};
use indexmap::{IndexMap, IndexSet};
use zber::{Duplicate, Seq};
use zplan::Range;

/// Adds an operation to those admitted and those outstanding. Returns `Memory` if no memory is found; both are then
/// unchanged.
fn admit(
    used: &mut IndexSet<u32>,
    outstanding: &mut IndexMap<u32, Asked>,
    asked: Asked,
) -> Result<(), CallRefused>
    ensures memory { IfErr result (λ e. e ≡ CallRefused.Memory) }
    ensures used { OnOk result (used.new.keys ≡ insert_key nat_eq used.old.keys asked.op) }
    ensures outstanding { OnOk result
        (outstanding.new.entries ≡ insert_entry nat_eq outstanding.old.entries asked.op asked) }
    ensures err { OnErr result ((used.new.keys ≡ used.old.keys) × (outstanding.new.entries ≡ outstanding.old.entries)) }
{
    let op = asked.op;
    used.reserve(1)?;
    outstanding.insert(op, asked)?;
    used.insert(op)?;
    Ok(())
}

impl Origin {
    /// Notes that Init was admitted. Returns `Memory` if no memory is found; the origin is unchanged.
    pub(crate) fn admit_init(&mut self) -> Result<(), CallRefused>
        ensures memory { IfErr result (λ e. e ≡ CallRefused.Memory) }
        ensures ok { OnOk result (self.new ≡ admitted_at self.old Init) }
        ensures err { OnErr result (self.new ≡ self.old) }
    {
        let asked = Asked {
            op: 0,
            set: 0,
            what: What::Init,
        };
        admit(&mut self.used, &mut self.outstanding, asked)?;
        self.state = State::Initialising;
        Ok(())
    }

    /// Notes that a search was admitted. Returns `Memory` if no memory is found; the origin is unchanged.
    pub(crate) fn admit_search(&mut self, op: u32, set: u32, ask: &Ask) -> Result<(), CallRefused>
        ensures memory { IfErr result (λ e. e ≡ CallRefused.Memory) }
        ensures ok { OnOk result (self.new ≡ admitted_at self.old (Search op set ask.now)) }
        ensures err { OnErr result (self.new ≡ self.old) }
    {
        let searched = Searched {
            op,
            set,
            syntax: ask.syntax.duplicate(self.alloc)?,
            elements: ask.elements.duplicate(self.alloc)?,
            outcome: None,
        };
        self.searches.reserve(1)?;
        let asked = Asked {
            op,
            set,
            what: What::Search,
        };
        admit(&mut self.used, &mut self.outstanding, asked)?;
        self.searches.insert(set, searched)?;
        Ok(())
    }

    /// Notes that a Present was admitted. Returns `Memory` if no memory is found; the origin is unchanged.
    pub(crate) fn admit_present(
        &mut self,
        op: u32,
        set: u32,
        ranges: &[Range],
    ) -> Result<(), CallRefused>
        requires { are_ranges ranges.now ≡ true }
        ensures memory { IfErr result (λ e. e ≡ CallRefused.Memory) }
        ensures ok { OnOk result (self.new ≡ admitted_at self.old (Present op set ranges.now)) }
        ensures err { OnErr result (self.new ≡ self.old) }
    {
        let asked = Asked {
            op,
            set,
            what: What::Present {
                ranges: Seq::from_vec(Vec::from_slice(self.alloc, ranges)?),
            },
        };
        admit(&mut self.used, &mut self.outstanding, asked)
    }
}
