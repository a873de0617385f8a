//! Where labels are.
ghost use Rattle.std.specs.Prelude.{◌≡◌, ◌<◌, ◌^◌, IfOk, OnOk, length, map, nat_lt};
ghost use Rattle.stl_rules.specs.Labels.{target_in};
ghost use Rattle.body_labels.specs.inner.Positions.{AreLabelPlaces, with_label_place};

use indexmap::IndexMap;
use name_tables::{look_up, put_place};
use s7_base::{List, NoMemory};
use std::alloc::Global;
use std::marker::Model;
use stl_tree::RawInstr;

/// The most instructions of which each has a position that a jump may name.
const MOST_POSITIONS: usize = 4_294_967_295;

/// The labels of a body, each with the position of the first instruction that has it. Contracts see the body.
#[derive(Drop)]
pub struct Labels<'t> {
    body: &'t [RawInstr],

    /// The position of the first instruction with each label.
    places: IndexMap<Vec<u8>, usize>,
}

impl<'t> Model for Labels<'t> {
    ghost use Rattle.std.specs.Prelude.{List, length, map, ◌<◌, ◌^◌};
    ghost use Rattle.std.specs.Coded.{codes};
    ghost use Rattle.stl_tree.specs.declared.raw.RawInstr.{RawInstr};
    ghost use Rattle.stl_tree.specs.contracts.raw.RawOperand as operand;
    ghost use Rattle.body_labels.specs.inner.Positions.{AreLabelPlaces};

    ghost Value = { List RawInstr };

    ghost coded = { Prim.hlevel (codes, operand.the_row.coded) };

    ghost view = { λ l. l.body.now };

    ghost invariant = { λ l. AreLabelPlaces l.body.now (map (λ e. (e.0.items, e.1)) l.places.entries) × (length l.body.now < 2 ^ 32) };
}

/// Keeps the position of a label that has none.
fn put_label(
    alloc: Global,
    places: &mut IndexMap<Vec<u8>, usize>,
    label: &Option<List<u8>>,
    place: usize,
) -> Result<(), NoMemory>
    ensures { OnOk result (map (λ e. (e.0.items, e.1)) places.new.entries
        ≡ with_label_place label.now place (map (λ e. (e.0.items, e.1)) places.old.entries)) }
{
    match label {
        Some(label) => {
            let key = Vec::from_slice(alloc, label.as_slice())?;
            put_place(places, key, place)
        }
        None => Ok(()),
    }
}

/// The positions of the first instructions of all labels.
fn places_of(alloc: Global, body: &[RawInstr]) -> Result<IndexMap<Vec<u8>, usize>, NoMemory>
    ensures { IfOk result (λ places. AreLabelPlaces body.now (map (λ e. (e.0.items, e.1)) places.entries)) }
{
    let mut places = IndexMap::new(alloc);
    for place in 0..body.len() {
        put_label(alloc, &mut places, &body[place].label, place)?;
    }
    Ok(places)
}

impl<'t> Labels<'t> {
    /// The labels of a body.
    pub fn new(alloc: Global, body: &'t [RawInstr]) -> Result<Labels<'t>, NoMemory>
        ensures { IfOk result (λ labels. labels ≡ body.now) }
    {
        if body.len() > MOST_POSITIONS {
            return Err(NoMemory);
        }
        let places = places_of(alloc, body)?;
        Ok(Labels { body, places })
    }

    /// The position of a label, as an index.
    #[tactic(auto, using(crate::proofs::Targets::target_laws))]
    fn place_of(&self, label: &[u8]) -> usize
        ensures place { result ≡ target_in self.now label.now }
        ensures within { result < 2 ^ 32 }
    {
        match look_up(&self.places, label) {
            Some(place) => place,
            None => self.body.len(),
        }
    }

    /// The position of the first instruction that has a label; the length of the body where none has it.
    pub fn target(&self, label: &[u8]) -> u32
        ensures { result ≡ target_in self.now label.now }
    {
        self.place_of(label) as u32
    }

    /// Whether an instruction has a label.
    pub fn is_known(&self, label: &[u8]) -> bool
        ensures { result ≡ nat_lt (target_in self.now label.now) (length self.now) }
    {
        self.place_of(label) < self.body.len()
    }
}
