//! What an instruction works on.
ghost use Rattle.std.specs.Prelude.{◌≡◌, ◌<◌, Ok};
ghost use Rattle.memory_areas.specs.Memory.{IsActivation};
ghost use Rattle.memory_areas.specs.declared.sizes.TheConstants.{ACTIVATIONS};
ghost use Rattle.status_word.specs.Flags.{bits};
ghost use Rattle.status_word.specs.StatusBits.{entry_of};
ghost use Rattle.stl_machine.specs.inner.Operands.{HasPlaceOf, IsFound};
ghost use Rattle.stl_machine.specs.inner.Views.{now_of};
ghost use Rattle.stl_tree.specs.Brackets.{after_bracket, in_bracket_of, push_bracket};
ghost use Rattle.stl_tree.specs.Now.{depth};
ghost use Rattle.stl_tree.specs.Operands.{aimed_by, aimed_in, place_of_operand, found_at, place_in};

use address_registers::{Pointer, resolve};
use block_calls::Frames;
use memory_areas::{AreaName, Memory, Place};
use nesting_stack::Nesting;
use s7_base::{Check, Entry, Fault};
use status_word::{Flag, Status};
use stl_registers::Registers;
use stl_tree::Operand;

/// What a bracket keeps that is opened with this status word.
fn entry_of(check: Check, status: Status) -> Entry
    ensures { result ≡ entry_of check (bits status) }
{
    Entry {
        check,
        rlo: status.get(Flag::Rlo),
        orb: status.get(Flag::Orb),
        nfc: status.get(Flag::Nfc),
    }
}

/// Keeps an entry where there is room for it.
#[tactic(auto, using(crate::proofs::Pushing::is_pushed))]
fn push(brackets: &mut Nesting, e: Entry)
    ensures { brackets.new ≡ push_bracket e brackets.old }
{
    match brackets.push(e) {
        Ok(()) | Err(_) => {}
    }
}

/// The registers, the open brackets and the memory, with the activations and the position at which the running
/// one continues in the body of its block.
#[derive(Drop)]
pub struct State {
    pub registers: Registers,
    pub brackets: Nesting,
    pub memory: Memory,
    pub frames: Frames,
    pub at: usize,
}

impl State {
    /// The number of the running activation, from 0.
    #[tactic(auto, using(crate::proofs::Activations::number_of_running))]
    fn depth(&self) -> u8
        ensures depth { result ≡ depth (now_of self.now).activations }
        ensures few { result < ACTIVATIONS }
    {
        self.frames.depth().saturating_sub(1)
    }

    /// A byte and a bit in a named area, by the data blocks that are open.
    fn place_in(&self, name: AreaName, byte: u32, bit: u8) -> Place
        ensures place { result ≡ place_in name byte bit (now_of self.now) }
        ensures activation { IsActivation result.area }
    {
        Place {
            area: name.area(self.registers.db, self.registers.di, self.depth()),
            byte,
            bit,
        }
    }

    /// The byte and the bit of a pointer in a named area.
    fn aimed_in(&self, name: AreaName, p: Pointer) -> Place
        ensures place { found_at (aimed_in name p.0 (now_of self.now)) (now_of self.now)
            ≡ Ok (record { place = result; after = now_of self.now }) }
        ensures activation { IsActivation result.area }
    {
        self.place_in(name, p.byte(), p.bit())
    }

    /// The byte and the bit of a pointer in the area that its code names, if it names one.
    fn aimed_by(&self, p: Pointer) -> Result<Place, Fault>
        ensures { IsFound (found_at (aimed_by p.0 (now_of self.now)) (now_of self.now)) result self.now }
    {
        resolve(p, self.registers.db, self.registers.di, self.depth())
    }

    /// The place that an operand names, or the first fault on the way to it. An operand with the number of
    /// its data block opens that block first.
    #[tactic(auto, using(crate::proofs::Activations::formal_found))]
    pub fn place_of(&mut self, operand: &Operand) -> Result<Place, Fault>
        requires { HasPlaceOf operand.now self.old.frames }
        ensures place { IsFound (place_of_operand operand.now (now_of self.old)) result self.new }
        ensures memory { self.new.memory ≡ self.old.memory }
        ensures frames { self.new.frames ≡ self.old.frames }
        ensures at { self.new.at ≡ self.old.at }
    {
        match *operand {
            Operand::Direct(name, byte, bit) => Ok(self.place_in(name, byte, bit)),
            Operand::Opened(number, byte, bit) => {
                self.registers = self.registers.db_opened(number);
                Ok(self.place_in(AreaName::Db, byte, bit))
            }
            Operand::Formal(k) => Ok(self.frames.formal(k)),
            Operand::ByMemory(name, pointer_area, byte) => {
                let place = self.place_in(pointer_area, byte, 0);
                let p = self.memory.read_dword(place)?;
                Ok(self.aimed_in(name, Pointer(p)))
            }
            Operand::ByRegister(name, register, offset) => {
                let p = self.registers.pointer_with_offset(register, offset);
                Ok(self.aimed_in(name, p))
            }
            Operand::Crossing(register, offset) => {
                let p = self.registers.pointer_with_offset(register, offset);
                self.aimed_by(p)
            }
        }
    }

    /// Opens a bracket.
    pub fn open(&mut self, check: Check)
        ensures now { now_of self.new ≡ in_bracket_of check (now_of self.old) }
        ensures frames { self.new.frames ≡ self.old.frames }
        ensures at { self.new.at ≡ self.old.at }
    {
        let status = self.registers.status;
        push(&mut self.brackets, entry_of(check, status));
        self.registers.status = status.opened();
    }

    /// Closes the last bracket that is open.
    pub fn close(&mut self)
        ensures now { now_of self.new ≡ after_bracket (now_of self.old) }
        ensures frames { self.new.frames ≡ self.old.frames }
        ensures at { self.new.at ≡ self.old.at }
    {
        if let Some(e) = self.brackets.pop() {
            self.registers.status = self.registers.status.closed(e);
        }
    }
}
