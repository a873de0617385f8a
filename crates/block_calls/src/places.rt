//! The places of the formals of an activation.
ghost use Rattle.std.specs.Prelude.{◌≡◌, ◌++◌, ◌<◌, [], ◌∷◌, length, IfOk};

use memory_areas::Place;
use s7_base::NoMemory;
use std::alloc::Global;
use std::marker::Model;

/// The most formals that a block may have.
const MOST: usize = 64;

/// The places of the formals, in their order; none where a call left one out. Room for all is reserved once.
#[derive(Drop)]
pub struct Places {
    places: Vec<Option<Place>>,
    count: usize,
}

impl Model for Places {
    ghost use Rattle.std.specs.Prelude.{List, Option, ◌≡◌, ◌≤◌, length, take};
    ghost use Rattle.memory_areas.specs.declared.place.Place.{Place};

    ghost Value = { List (Option Place) };

    ghost view = { λ p. take p.count p.places.items };

    ghost invariant = { λ p. (p.count ≤ 64) × (length p.places.items ≡ 64) };
}

impl Places {
    /// No places, with room for those of any block.
    pub fn new(alloc: Global) -> Result<Places, NoMemory>
        ensures { IfOk result (λ places. places ≡ []) }
    {
        Ok(Places {
            places: vec![in alloc; None; MOST]?,
            count: 0,
        })
    }

    /// Removes all places.
    pub fn clear(&mut self)
        ensures { self.new ≡ [] }
    {
        self.count = 0;
    }

    /// Adds the place of one more formal.
    pub fn push(&mut self, place: Option<Place>)
        requires { length self.old < 64 }
        ensures { self.new ≡ self.old ++ place ∷ [] }
    {
        self.places[self.count] = place;
        self.count += 1;
    }

    /// The places in their order.
    pub fn as_slice(&self) -> &[Option<Place>]
        ensures { result.now ≡ self.now }
    {
        &self.places[..self.count]
    }
}
