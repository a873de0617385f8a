//! The places and values that variables and pointers name, and what they read and write.
ghost use Rattle.std.specs.Prelude.{◌≡◌, ◌<◌, length, slice_get, IfOk, Ok, ℕ};
ghost use Rattle.memory_areas.specs.Access.{and_then};
ghost use Rattle.memory_areas.specs.Memory.{IsActivation};
ghost use Rattle.memory_areas.specs.declared.sizes.TheConstants.{ACTIVATIONS};
ghost use Rattle.st_runner.specs.inner.View.{Changes, IsReachable, IsRunning, IsSound, SameShape, state_of};
ghost use Rattle.st_runner.specs.inner.Runnable.{AreGlobals};
ghost use Rattle.st_tree.specs.State.{area_read, area_write, db_number, depth, di_number, formals_of, place_of, pointed_at, read, reference_of, there, write};
ghost use Rattle.st_tree.specs.declared.program.Located.{Located as GlobalPlace};
ghost use Rattle.st_tree.specs.declared.state.Reference.TheVariants.{Place as PlaceReference};

use crate::operators::{low_dword, low_word};
use crate::state::{State, local_at, read_place, write_place};
use address_registers::{Pointer, resolve};
use memory_areas::{Area, AreaName, Place};
use s7_base::{Fault, Reg, Width};
use st_tree::{Located, Reference, Value, Var, type_of_width};

impl State {
    /// The number of the running activation.
    pub fn depth(&self) -> u8
        requires { IsRunning self.now }
        ensures value { result ≡ depth (state_of self.now) }
        ensures few { result < ACTIVATIONS }
    {
        (self.activations.len() - 1) as u8
    }

    fn db_number(&self) -> u16
        ensures { result ≡ db_number (state_of self.now) }
    {
        low_word(self.registers.get(Reg::DbNo))
    }

    fn di_number(&self) -> u16
        ensures { result ≡ di_number (state_of self.now) }
    {
        low_word(self.registers.get(Reg::DiNo))
    }

    /// The place that a direct variable names. It is inlined, so that the place is not copied.
    #[inline(always)]
    pub fn place_of(&self, name: AreaName, byte: u32, bit: u8) -> Place
        requires { IsRunning self.now }
        ensures place { result ≡ place_of name byte bit (state_of self.now) }
        ensures activation { IsActivation result.area }
    {
        Place {
            area: name.area(self.db_number(), self.di_number(), self.depth()),
            byte,
            bit,
        }
    }

    /// The reference of a formal of the running unit.
    #[inline(always)]
    fn formal(&self, i: u32) -> Result<Reference, Fault>
        requires { IsRunning self.now }
        ensures { result
            ≡ there (slice_get (formals_of (slice_get (state_of self.now).activations (depth (state_of self.now)))) i) }
    {
        let running = &self.activations[self.activations.len() - 1];
        match running.formals.get(i as usize) {
            Some(reference) => Ok(*reference),
            None => Err(Fault::AreaLength),
        }
    }

    /// The reference of a variable of the running unit.
    #[tactic(auto, using(crate::proofs::Frames::formal_reach, crate::proofs::Frames::global_reach))]
    pub fn reference_of(&self, globals: &[Located], var: &Var) -> Result<Reference, Fault>
        requires running { IsRunning self.now }
        requires globals { AreGlobals globals.now }
        ensures value { result ≡ reference_of globals.now var.now (state_of self.now) }
        ensures reachable { IfOk result IsReachable }
    {
        match var {
            Var::Register(r) => Ok(Reference::Register(*r)),
            Var::Local(i) => Ok(Reference::Local(self.depth(), *i)),
            Var::Formal(i) => self.formal(*i),
            Var::Global(i) => global(globals, *i),
            Var::Direct(name, byte, bit, width) => {
                let place = self.place_of(*name, *byte, *bit);
                Ok(Reference::Place(place, type_of_width(*width)))
            }
            Var::InBlock(number, byte, bit, width) => {
                let area = Area::Db(*number);
                Ok(Reference::Place(
                    Place {
                        area,
                        byte: *byte,
                        bit: *bit,
                    },
                    type_of_width(*width),
                ))
            }
        }
    }

    /// The place that a pointer names.
    fn pointed_at(&self, p: Value) -> Result<Place, Fault>
        requires { IsRunning self.now }
        ensures place { result ≡ pointed_at p (state_of self.now) }
        ensures activation { IfOk result (λ place. IsActivation place.area) }
    {
        let pointer = Pointer(low_dword(p.n));
        resolve(pointer, self.db_number(), self.di_number(), self.depth())
    }

    /// The value at the reference of a variable. It stays a call, since few variables are formals or globals.
    #[inline(never)]
    #[tactic(auto, using(crate::proofs::Frames::formal_reach))]
    fn read_referred(&self, globals: &[Located], var: &Var) -> Result<Value, Fault>
        requires running { IsRunning self.now }
        requires globals { AreGlobals globals.now }
        ensures { result ≡ read globals.now var.now (state_of self.now) }
    {
        match var {
            Var::Formal(i) => {
                let reference = self.formal(*i)?;
                self.read_at(reference)
            }
            _ => {
                let reference = self.reference_of(globals, var)?;
                self.read_at(reference)
            }
        }
    }

    /// Gives what is at the reference of a variable a value. A fault changes nothing. It stays a call, since few
    /// variables are formals or globals.
    #[inline(never)]
    #[tactic(auto, using(crate::proofs::Frames::formal_reach))]
    fn write_referred(&mut self, globals: &[Located], var: &Var, v: Value) -> Result<(), Fault>
        requires running { IsRunning self.old }
        requires globals { AreGlobals globals.now }
        ensures change { Changes (write globals.now var.now v (state_of self.old)) result
            (state_of self.old) (state_of self.new) }
        ensures sound { (l f : ℕ) → IsSound l f self.old → IsSound l f self.new }
        ensures same { SameShape self.old self.new }
    {
        match var {
            Var::Formal(i) => {
                let reference = self.formal(*i)?;
                self.write_at(reference, v)
            }
            _ => {
                let reference = self.reference_of(globals, var)?;
                self.write_at(reference, v)
            }
        }
    }

    /// The value of a variable.
    #[inline(always)]
    pub fn read(&self, globals: &[Located], var: &Var) -> Result<Value, Fault>
        requires running { IsRunning self.now }
        requires globals { AreGlobals globals.now }
        ensures { result ≡ read globals.now var.now (state_of self.now) }
    {
        match var {
            Var::Register(r) => Ok(self.register(*r)),
            Var::Local(i) => local_at(&self.activations, self.depth(), *i),
            Var::Direct(name, byte, bit, width) => {
                let place = self.place_of(*name, *byte, *bit);
                read_place(&self.memory, type_of_width(*width), place)
            }
            Var::InBlock(number, byte, bit, width) => {
                let area = Area::Db(*number);
                read_place(
                    &self.memory,
                    type_of_width(*width),
                    Place {
                        area,
                        byte: *byte,
                        bit: *bit,
                    },
                )
            }
            Var::Formal(_) | Var::Global(_) => self.read_referred(globals, var),
        }
    }

    /// Gives a variable a value. A fault changes nothing.
    #[inline(always)]
    pub fn write(&mut self, globals: &[Located], var: &Var, v: Value) -> Result<(), Fault>
        requires running { IsRunning self.old }
        requires globals { AreGlobals globals.now }
        ensures change { Changes (write globals.now var.now v (state_of self.old)) result
            (state_of self.old) (state_of self.new) }
        ensures sound { (l f : ℕ) → IsSound l f self.old → IsSound l f self.new }
        ensures same { SameShape self.old self.new }
    {
        match var {
            Var::Register(r) => {
                self.registers.give_number(*r, v.n);
                Ok(())
            }
            Var::Local(i) => {
                let d = self.depth();
                self.write_local(d, *i, v)
            }
            Var::Direct(name, byte, bit, width) => {
                let place = self.place_of(*name, *byte, *bit);
                write_place(&mut self.memory, type_of_width(*width), place, v)
            }
            Var::InBlock(number, byte, bit, width) => {
                let area = Area::Db(*number);
                write_place(
                    &mut self.memory,
                    type_of_width(*width),
                    Place {
                        area,
                        byte: *byte,
                        bit: *bit,
                    },
                    v,
                )
            }
            Var::Formal(_) | Var::Global(_) => self.write_referred(globals, var, v),
        }
    }

    /// The value of a width at the place that a pointer names.
    pub fn area_read(&self, width: Width, p: Value) -> Result<Value, Fault>
        requires { IsRunning self.now }
        ensures { result ≡ area_read width p (state_of self.now) }
    {
        let place = self.pointed_at(p)?;
        self.read_at(Reference::Place(place, type_of_width(width)))
    }

    /// Gives the place that a pointer names a value of a width. A fault changes nothing.
    pub fn area_write(&mut self, width: Width, p: Value, v: Value) -> Result<(), Fault>
        requires { IsRunning self.old }
        ensures change { Changes (area_write width p v (state_of self.old)) result
            (state_of self.old) (state_of self.new) }
        ensures sound { (l f : ℕ) → IsSound l f self.old → IsSound l f self.new }
        ensures same { SameShape self.old self.new }
    {
        let place = self.pointed_at(p)?;
        self.write_at(Reference::Place(place, type_of_width(width)), v)
    }
}

/// The reference of a global.
fn global(globals: &[Located], i: u32) -> Result<Reference, Fault>
    ensures { result
        ≡ and_then (there (slice_get globals.now i)) (λ (g : GlobalPlace). Ok (PlaceReference g.place g.ty)) }
{
    match globals.get(i as usize) {
        Some(global) => Ok(Reference::Place(global.place, global.ty)),
        None => Err(Fault::AreaLength),
    }
}
