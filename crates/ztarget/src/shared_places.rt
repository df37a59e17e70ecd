//! Lists of places that several owners share.
ghost use Rattle.std.specs.Prelude.{◌≡◌, IfOk};

use std::alloc::{AllocError, Global};
use std::marker::Model;
use std::rc::Rc;

/// A list of places that may have several owners. Contracts see the places.
#[derive(Drop)]
pub(crate) struct SharedPlaces {
    places: Rc<Vec<u32>, Global>,
}

impl Model for SharedPlaces {
    ghost use Rattle.std.specs.Prelude.{ℕ, List};

    ghost Value = { List ℕ };

    ghost view = { λ s. s.places.value.items };
}

impl SharedPlaces {
    pub(crate) fn new(alloc: Global, places: Vec<u32>) -> Result<SharedPlaces, AllocError>
        ensures { IfOk result (λ shared. shared ≡ places.items) }
    {
        let places = Rc::new(alloc, places)?;
        Ok(SharedPlaces { places })
    }

    pub(crate) fn as_slice(&self) -> &[u32]
        ensures { result.now ≡ self.now }
    {
        self.places.as_ref().as_slice()
    }

    /// Returns the same list for another owner. It copies no places.
    pub(crate) fn again(&self) -> Result<SharedPlaces, AllocError>
        ensures { IfOk result (λ shared. shared ≡ self.now) }
    {
        let places = self.places.clone()?;
        Ok(SharedPlaces { places })
    }
}
