//! The state of a run: its memory, its registers and its activations.
ghost use Rattle.std.specs.Prelude.{◌≡◌, ◌<◌, ◌-◌, length, map, slice_get, Ok, Err, IfOk, MatchResult, pos, vec_capacity, ℕ};
ghost use Rattle.memory_areas.specs.Memory.{IsActivation, Writes};
ghost use Rattle.st_runner.specs.inner.View.{AreFrames, Changes, HasLocal, IsLocal, IsReachable, SameShape, IsSound, activation_view, state_of};
ghost use Rattle.st_runner.specs.inner.Runnable.{AreGlobals};
ghost use Rattle.st_tree.specs.declared.state.Reference.TheVariants as reference;
ghost use Rattle.st_tree.specs.State.{locals_of, read_at, read_place, there, with_local, write_at, write_place};

use crate::operators::{fit, is_set, low_byte, low_dword, low_word};
use crate::registers::Registers;
use memory_areas::{Memory, Place};
use s7_base::{Fault, Reg};
use st_tree::{Reference, StType, Value, type_of_register};

/// A unit that runs: the values of its locals, and the references of its formals.
#[derive(Drop)]
pub struct Activation {
    pub locals: Vec<Value>,
    pub formals: Vec<Reference>,
}

/// The memory, the registers and the activations, the running one last. Those of `spare` wait for calls,
/// so that a call takes no memory.
#[derive(Drop)]
pub struct State {
    pub memory: Memory,
    pub registers: Registers,
    pub activations: Vec<Activation>,
    pub spare: Vec<Activation>,
}

/// The number that a place in memory holds, read in a type.
#[inline(always)]
fn number_at(memory: &Memory, ty: StType, place: Place) -> Result<i64, Fault>
    requires { IsActivation place.area }
    ensures { MatchResult result (λ n. read_place ty place memory.now ≡ Ok (record { ty = ty; n = n }))
        (λ fault. read_place ty place memory.now ≡ Err fault) }
{
    match ty {
        StType::Bool => Ok(i64::from(memory.read_bit(place)?)),
        StType::Byte => Ok(fit(ty, i64::from(memory.read_byte(place)?))),
        StType::Word | StType::Int => Ok(fit(ty, i64::from(memory.read_word(place)?))),
        StType::Dword | StType::Dint | StType::Lint => {
            Ok(fit(ty, i64::from(memory.read_dword(place)?)))
        }
    }
}

/// The value that a place in memory holds, read in a type. Its number alone comes out of the tests, since a
/// value that is moved takes its unused bytes with it.
#[inline(always)]
pub fn read_place(memory: &Memory, ty: StType, place: Place) -> Result<Value, Fault>
    requires { IsActivation place.area }
    ensures { result ≡ read_place ty place memory.now }
{
    match number_at(memory, ty, place) {
        Ok(n) => Ok(Value { ty, n }),
        Err(fault) => Err(fault),
    }
}

/// Gives a place in memory a value in a type.
#[inline(always)]
pub fn write_place(memory: &mut Memory, ty: StType, place: Place, v: Value) -> Result<(), Fault>
    requires { IsActivation place.area }
    ensures { Writes (write_place ty place v memory.old) result memory.old memory.new }
{
    match ty {
        StType::Bool => memory.write_bit(place, is_set(v)),
        StType::Byte => memory.write_byte(place, low_byte(v.n)),
        StType::Word | StType::Int => memory.write_word(place, low_word(v.n)),
        StType::Dword | StType::Dint | StType::Lint => memory.write_dword(place, low_dword(v.n)),
    }
}

/// A local of an activation.
pub fn local_at(activations: &[Activation], d: u8, i: u32) -> Result<Value, Fault>
    ensures { result ≡ there (slice_get (locals_of (slice_get (map activation_view activations.now) d)) i) }
{
    let Some(activation) = activations.get(d as usize) else {
        return Err(Fault::AreaLength);
    };
    match activation.locals.get(i as usize) {
        Some(value) => Ok(*value),
        None => Err(Fault::AreaLength),
    }
}

/// Gives a local that exists a value.
fn put_local(activations: &mut Vec<Activation>, d: usize, i: usize, v: Value)
    requires { IsLocal activations.old.items d i }
    ensures change { map activation_view activations.new.items ≡ with_local d i v (map activation_view activations.old.items) }
    ensures frames { (l f : ℕ) → AreFrames l f activations.old.items → AreFrames l f activations.new.items }
    ensures len { length activations.new.items ≡ length activations.old.items }
    ensures capacity { vec_capacity activations.new ≡ vec_capacity activations.old }
{
    let activation = &mut activations[d];
    activation.locals[i] = v;
}

/// Gives a local of an activation a value.
#[tactic(auto, using(crate::proofs::Frames::is_local))]
fn set_local(activations: &mut Vec<Activation>, d: u8, i: u32, v: Value) -> Result<(), Fault>
    ensures change { HasLocal d i v result (map activation_view activations.old.items) (map activation_view activations.new.items) }
    ensures frames { (l f : ℕ) → AreFrames l f activations.old.items → AreFrames l f activations.new.items }
    ensures len { length activations.new.items ≡ length activations.old.items }
    ensures capacity { vec_capacity activations.new ≡ vec_capacity activations.old }
{
    local_at(activations, d, i)?;
    put_local(activations, d as usize, i as usize, v);
    Ok(())
}

impl State {
    /// The value of a register.
    pub fn register(&self, r: Reg) -> Value
        ensures { Ok result ≡ read_at (reference.Register r) (state_of self.now) }
    {
        Value {
            ty: type_of_register(r),
            n: self.registers.get(r),
        }
    }

    /// The value at a reference.
    #[inline(always)]
    pub fn read_at(&self, reference: Reference) -> Result<Value, Fault>
        requires { IsReachable reference }
        ensures { result ≡ read_at reference (state_of self.now) }
    {
        match reference {
            Reference::Register(r) => Ok(self.register(r)),
            Reference::Local(d, i) => local_at(&self.activations, d, i),
            Reference::Place(place, ty) => read_place(&self.memory, ty, place),
        }
    }

    /// Gives a local of an activation a value. A fault changes nothing.
    pub fn write_local(&mut self, d: u8, i: u32, v: Value) -> Result<(), Fault>
        ensures change { Changes (write_at (reference.Local d i) v (state_of self.old)) result
            (state_of self.old) (state_of self.new) }
        ensures sound { (l f : ℕ) → IsSound l f self.old → IsSound l f self.new }
        ensures same { SameShape self.old self.new }
    {
        set_local(&mut self.activations, d, i, v)
    }

    /// Writes a value at a reference. A fault changes nothing.
    #[inline(always)]
    pub fn write_at(&mut self, reference: Reference, v: Value) -> Result<(), Fault>
        requires { IsReachable reference }
        ensures change { Changes (write_at reference v (state_of self.old)) result
            (state_of self.old) (state_of self.new) }
        ensures sound { (l f : ℕ) → IsSound l f self.old → IsSound l f self.new }
        ensures same { SameShape self.old self.new }
    {
        match reference {
            Reference::Register(r) => {
                self.registers.give_number(r, v.n);
                Ok(())
            }
            Reference::Local(d, i) => self.write_local(d, i, v),
            Reference::Place(place, ty) => write_place(&mut self.memory, ty, place, v),
        }
    }
}
