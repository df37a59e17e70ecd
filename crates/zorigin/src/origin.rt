//! An origin: what it keeps, and its state.
ghost use Rattle.std.specs.Prelude.{[]};
ghost use Rattle.zorigin.specs.Log.{After, IsState};

use crate::answer::Asked;
use crate::settings::Settings;
use crate::state::{InForce, Searched, State};
use indexmap::{IndexMap, IndexSet};
use std::alloc::Global;
use std::marker::Model;

/// An origin: the operations of one connection (Z39.50-2003, 3.2 and 3.4). It sends and receives nothing itself: a call
/// returns the request to be sent, and `take` is given each APDU that was received.
///
/// A log is a list of the calls made and the APDUs taken. Contracts are about each log that can have left the origin.
#[derive(Drop)]
pub struct Origin {
    pub(crate) alloc: Global,
    pub(crate) settings: Settings,
    pub(crate) state: State,
    /// The options and version in force. They stay in force while the association closes.
    pub(crate) force: InForce,
    /// The numbers of the operations that were admitted, in the order of their calls.
    pub(crate) used: IndexSet<u32>,
    /// The searches that were admitted, by set, in order.
    pub(crate) searches: IndexMap<u32, Searched>,
    /// The operations that are admitted and unanswered, by number, in the order of their calls.
    pub(crate) outstanding: IndexMap<u32, Asked>,
}

impl Model for Origin {
    ghost use Rattle.zorigin.specs.Standings.{Standing};
    ghost use Rattle.zorigin.specs.Answers.{HaveValidRanges};

    ghost Value = { Standing };

    ghost view = { λ o. record {
      settings = o.settings;
      state = o.state;
      force = o.force;
      used = o.used.keys;
      searches = o.searches.entries;
      outstanding = o.outstanding.entries;
    } };

    ghost invariant = { λ o. HaveValidRanges o.outstanding.entries };
}

impl Origin {
    /// Returns an origin in state Fresh. It takes no memory.
    pub fn new(alloc: Global, settings: Settings) -> Self
        ensures { After settings [] result }
    {
        Origin {
            alloc,
            settings,
            state: State::Fresh,
            force: InForce {
                search: false,
                present: false,
                v3: false,
                concurrent: false,
                named: false,
            },
            used: IndexSet::new(alloc),
            searches: IndexMap::new(alloc),
            outstanding: IndexMap::new(alloc),
        }
    }

    /// Returns the origin's state. It takes no memory.
    pub fn state(&self) -> State
        ensures { IsState self.now result }
    {
        self.state
    }
}
