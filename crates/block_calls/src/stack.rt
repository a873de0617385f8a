//! The frames of the activations, of which eight are reserved.
ghost use Rattle.std.specs.Prelude.{◌≡◌, ◌≢◌, ◌<◌, ◌≤◌, [], ◌∷◌, length, IfOk, List, Some};
ghost use Rattle.memory_areas.specs.declared.sizes.TheConstants.{ACTIVATIONS};
ghost use Rattle.block_calls.specs.inner.Views.{HasPlace, activation};
ghost use Rattle.stl_tree.specs.Calls.{going_on_at};
ghost use Rattle.stl_tree.specs.Now.{Activation, depth};
ghost use Rattle.stl_tree.specs.Operands.{formal_place};

use crate::places::Places;
use memory_areas::{ACTIVATIONS, Place};
use s7_base::NoMemory;
use std::alloc::Global;
use std::marker::Model;
use std::mem;

/// An activation: the position of its block in the program, the position at which it continues, the number of
/// the data block that is its instance, 0 where it has none, the numbers that the DB and the DI register take
/// again when the block ends, and the places of its formals.
#[derive(Drop)]
pub struct Frame {
    pub block: u32,
    pub at: u32,
    pub instance: u16,
    pub db: u16,
    pub di: u16,
    pub formals: Places,
}

impl Frame {
    fn new(alloc: Global) -> Result<Frame, NoMemory> {
        Ok(Frame {
            block: 0,
            at: 0,
            instance: 0,
            db: 0,
            di: 0,
            formals: Places::new(alloc)?,
        })
    }
}

/// The activations, at most eight. The frames after the free places are theirs, the running one first.
#[derive(Drop)]
pub struct Stack {
    frames: Vec<Frame>,
    free: usize,
}

impl Model for Stack {
    ghost use Rattle.std.specs.Prelude.{List, drop, length, map, ◌≡◌, ◌≤◌};
    ghost use Rattle.block_calls.specs.inner.Views.{activation};
    ghost use Rattle.stl_tree.specs.Now.{Activation};

    ghost Value = { List Activation };

    ghost view = { λ s. map activation (drop s.free s.frames.items) };

    ghost invariant = { λ s. (s.free ≤ 8) × (length s.frames.items ≡ 8) };
}

fn new_frames(alloc: Global) -> Result<Vec<Frame>, NoMemory>
    ensures { IfOk result (λ frames. length frames.items ≡ 8) }
{
    let mut frames = Vec::new(alloc);
    for _ in 0..ACTIVATIONS {
        frames.push(Frame::new(alloc)?)?;
    }
    Ok(frames)
}

impl Stack {
    /// No block runs.
    pub fn new(alloc: Global) -> Result<Stack, NoMemory>
        ensures { IfOk result (λ stack. stack ≡ []) }
    {
        Ok(Stack {
            frames: new_frames(alloc)?,
            free: ACTIVATIONS,
        })
    }

    /// How many activations there are.
    pub fn depth(&self) -> u8
        ensures depth { result ≡ length self.now }
        ensures most { result ≤ ACTIVATIONS }
    {
        (ACTIVATIONS - self.free) as u8
    }

    /// The number of the running activation, from 0: how many wait.
    pub fn number(&self) -> u8
        ensures number { result ≡ depth self.now }
        ensures few { result < ACTIVATIONS }
    {
        self.depth().saturating_sub(1)
    }

    /// The running activation.
    pub fn running(&self) -> &Frame
        requires { self.now ≢ [] }
        ensures { (waiting : List Activation) × (self.now ≡ activation result.now ∷ waiting) }
    {
        &self.frames[self.free]
    }

    /// The place of a formal of the running activation.
    pub fn formal(&self, k: u32) -> Place
        requires { HasPlace k self.now }
        ensures { formal_place k self.now ≡ Some result }
    {
        match self.running().formals.as_slice().get(k as usize) {
            Some(Some(place)) => *place,
            _ => unreachable!(),
        }
    }

    /// Puts an activation before the others, of which the running one continues at a position. Its formals have
    /// the places that are given; places that nothing uses are given back instead.
    pub fn push(
        &mut self,
        block: u32,
        instance: u16,
        db: u16,
        di: u16,
        places: &mut Places,
        next: u32,
    )
        requires { length self.old < ACTIVATIONS }
        ensures { self.new ≡ record { block = block; at = 0; instance = instance; db = db; di = di; formals = places.old }
            ∷ going_on_at next self.old }
    {
        if self.free < ACTIVATIONS {
            self.frames[self.free].at = next;
        }
        self.free -= 1;
        let frame = &mut self.frames[self.free];
        frame.block = block;
        frame.at = 0;
        frame.instance = instance;
        frame.db = db;
        frame.di = di;
        mem::swap(&mut frame.formals, places);
    }

    /// Ends the running activation.
    pub fn pop(&mut self)
        requires { self.old ≢ [] }
        ensures { (done : Activation) × (self.old ≡ done ∷ self.new) }
    {
        self.free += 1;
    }
}
