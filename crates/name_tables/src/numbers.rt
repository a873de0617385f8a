//! The blocks of a text by kind and number.
ghost use Rattle.std.specs.Prelude.{◌≡◌, ◌<◌, IfOk, IfSome, OnOk, length, slice_get, take};
ghost use Rattle.std.specs.Map.{lookup};
ghost use Rattle.name_tables.specs.Places.{first_place, with_place};
ghost use Rattle.stl_rules.specs.Stages.{is_among};
ghost use Rattle.name_tables.specs.Before.{is_block, numbers_before};
ghost use Rattle.name_tables.specs.inner.Places.{AreNumberPlaces, is_same_block, with_number_place};

use indexmap::IndexMap;
use s7_base::{NoMemory, Reason};
use std::alloc::Global;
use std::marker::Model;
use stl_tree::BlockKind;

/// The kind and the number of each block, or why it has no number. Contracts see the list of these.
#[derive(Drop)]
pub struct Numbers {
    numbers: Vec<(BlockKind, Result<u32, Reason>)>,

    /// The place of the first block of each kind and number.
    places: IndexMap<(BlockKind, u32), usize>,
}

impl Model for Numbers {
    ghost use Rattle.std.specs.Prelude.{ℕ, List, Result};
    ghost use Rattle.s7_base.specs.declared.reason.Reason.{Reason};
    ghost use Rattle.stl_tree.specs.declared.raw.BlockKind.{BlockKind};
    ghost use Rattle.name_tables.specs.inner.Places.{AreNumberPlaces};

    ghost Value = { List (BlockKind × Result ℕ Reason) };

    ghost view = { λ n. n.numbers.items };

    ghost invariant = { λ n. AreNumberPlaces n.numbers.items n.places.entries };
}

/// The place that is kept for a kind and a number.
#[tactic(auto, using(crate::proofs::Tables::looks_up))]
fn look_up(
    places: &IndexMap<(BlockKind, u32), usize>,
    kind: BlockKind,
    number: u32,
) -> Option<usize>
    ensures { result ≡ lookup (is_same_block (kind, number)) places.now.entries }
{
    places.get(&(kind, number)).copied()
}

/// Keeps the place of a kind and a number that has none.
#[tactic(auto, using(crate::proofs::Tables::kept_number, crate::proofs::Tables::put_number))]
fn put_number(
    places: &mut IndexMap<(BlockKind, u32), usize>,
    kind: BlockKind,
    number: u32,
    place: usize,
) -> Result<(), NoMemory>
    ensures { OnOk result (places.new.entries ≡ with_place is_same_block (kind, number) place places.old.entries) }
{
    if look_up(places, kind, number).is_some() {
        return Ok(());
    }
    places.insert((kind, number), place)?;
    Ok(())
}

/// Keeps the place of a block.
fn put_place(
    places: &mut IndexMap<(BlockKind, u32), usize>,
    kind: BlockKind,
    number: Result<u32, Reason>,
    place: usize,
) -> Result<(), NoMemory>
    ensures { OnOk result (places.new.entries ≡ with_number_place kind number place places.old.entries) }
{
    match number {
        Ok(number) => put_number(places, kind, number, place),
        Err(_) => Ok(()),
    }
}

/// The places of the first blocks of all kinds and numbers.
fn places_of(
    alloc: Global,
    numbers: &[(BlockKind, Result<u32, Reason>)],
) -> Result<IndexMap<(BlockKind, u32), usize>, NoMemory>
    ensures { IfOk result (λ places. AreNumberPlaces numbers.now places.entries) }
{
    let mut places = IndexMap::with_capacity(alloc, numbers.len())?;
    for place in 0..numbers.len() {
        let (kind, number) = numbers[place];
        put_place(&mut places, kind, number, place)?;
    }
    Ok(places)
}

impl Numbers {
    /// Blocks by kind and number, whose places are to be found.
    pub fn new(
        alloc: Global,
        numbers: Vec<(BlockKind, Result<u32, Reason>)>,
    ) -> Result<Numbers, NoMemory>
        ensures { IfOk result (λ all. all ≡ numbers.items) }
    {
        let places = places_of(alloc, numbers.as_slice())?;
        Ok(Numbers { numbers, places })
    }

    /// The number of the block at a place.
    #[tactic(auto, using(crate::proofs::Places::read_number))]
    pub fn number_at(&self, place: usize) -> Result<u32, Reason>
        requires { place < length self.now }
        ensures { IfSome (slice_get self.now place) (λ b. result ≡ b.1) }
    {
        let (_, number) = self.numbers[place];
        number
    }

    /// The place of the first block of a kind and a number.
    pub fn place_of(&self, kind: BlockKind, number: u32) -> Option<usize>
        ensures { result ≡ first_place (is_block kind number) self.now }
    {
        look_up(&self.places, kind, number)
    }

    /// Whether a block before a place has the kind and the number.
    #[tactic(auto, using(crate::proofs::Places::number_repeated))]
    pub fn is_repeated(&self, kind: BlockKind, number: u32, place: usize) -> bool
        ensures { result ≡ is_among kind number (numbers_before (take place self.now)) }
    {
        match self.place_of(kind, number) {
            Some(first) => first < place,
            None => false,
        }
    }
}
