//! Activations: how a unit is entered and left.
ghost use Rattle.std.specs.Prelude.{◌≡◌, ◌+◌, ◌≤◌, [], length, map, Ok, Err, IfErr, IfOk, OnOk, vec_capacity, ℕ};
ghost use Rattle.memory_areas.specs.Access.{and_then};
ghost use Rattle.st_runner.specs.inner.View.{AreReachable, Changes, IsDeeper, IsReachable, IsRunning, IsSound, MayEnter, MayLeave, state_of};
ghost use Rattle.st_runner.specs.inner.Runnable.{AreGlobals};
ghost use Rattle.st_tree.specs.Calls.{state_on_entry, left, located_actual, located_actuals, check_access, zero_of};
ghost use Rattle.st_tree.specs.State.{reference_of};

use crate::state::State;
use s7_base::Fault;
use st_tree::{Local, Located, Pou, Reference, Value, Var, type_of_width, width_at};

/// Makes locals those of a unit at its start.
pub fn zero_locals(locals: &mut Vec<Value>, declared: &[Local])
    requires { length declared.now ≤ vec_capacity locals.old }
    ensures zero { locals.new.items ≡ map zero_of declared.now }
    ensures capacity { vec_capacity locals.new ≡ vec_capacity locals.old }
{
    locals.clear();
    for local in declared {
        locals.push_reserved(Value { ty: local.ty, n: 0 });
    }
}

impl State {
    /// A reference, or the fault of an access to the place that it names.
    #[inline(always)]
    fn check_access(&self, reference: Reference) -> Result<Reference, Fault>
        requires { IsReachable reference }
        ensures { result ≡ check_access reference (state_of self.now) }
    {
        if let Reference::Place(place, ty) = reference {
            self.memory.find(place, width_at(ty))?;
        }
        Ok(reference)
    }

    /// The reference of a variable that is no formal, or the fault of an access to it.
    fn located(&self, globals: &[Located], var: &Var) -> Result<Reference, Fault>
        requires running { IsRunning self.now }
        requires globals { AreGlobals globals.now }
        ensures value { result
            ≡ and_then (reference_of globals.now var.now (state_of self.now)) (λ r. check_access r (state_of self.now)) }
        ensures reachable { IfOk result IsReachable }
    {
        let reference = self.reference_of(globals, var)?;
        self.check_access(reference)
    }

    /// The reference of an actual, or the fault of an access to it.
    #[inline(always)]
    fn located_actual(&self, globals: &[Located], var: &Var) -> Result<Reference, Fault>
        requires running { IsRunning self.now }
        requires globals { AreGlobals globals.now }
        ensures value { result ≡ located_actual globals.now var.now (state_of self.now) }
        ensures reachable { IfOk result IsReachable }
    {
        match var {
            Var::Formal(_) => self.reference_of(globals, var),
            Var::Register(_) => self.located(globals, var),
            Var::Local(i) => Ok(Reference::Local(self.depth(), *i)),
            Var::Global(_) => self.located(globals, var),
            Var::Direct(name, byte, bit, width) => {
                let place = self.place_of(*name, *byte, *bit);
                self.check_access(Reference::Place(place, type_of_width(*width)))
            }
            Var::InBlock(_, _, _, _) => self.located(globals, var),
        }
    }

    /// Locates actuals in their order, up to the first fault.
    fn locate_actuals(
        &self,
        globals: &[Located],
        actuals: &[Var],
        formals: &mut Vec<Reference>,
    ) -> Result<(), Fault>
        requires running { IsRunning self.now }
        requires globals { AreGlobals globals.now }
        requires room { length actuals.now ≤ vec_capacity formals.old }
        ensures located { OnOk result (located_actuals globals.now actuals.now (state_of self.now)
            ≡ Ok formals.new.items) }
        ensures fault { IfErr result
            (λ fault. located_actuals globals.now actuals.now (state_of self.now) ≡ Err fault) }
        ensures reachable { AreReachable formals.new.items }
        ensures capacity { vec_capacity formals.new ≡ vec_capacity formals.old }
    {
        formals.clear();
        for actual in actuals {
            match self.located_actual(globals, actual) {
                Ok(reference) => formals.push_reserved(reference),
                Err(fault) => return Err(fault),
            }
        }
        Ok(())
    }

    /// Enters a unit with its actuals. A fault leaves the state as it was.
    pub fn enter(&mut self, globals: &[Located], unit: &Pou, actuals: &[Var]) -> Result<(), Fault>
        requires may { MayEnter self.old unit.now actuals.now }
        requires globals { AreGlobals globals.now }
        ensures change { Changes
            (and_then (located_actuals globals.now actuals.now (state_of self.old))
            (λ formals. Ok (state_on_entry unit.now formals (state_of self.old))))
            result (state_of self.old) (state_of self.new) }
        ensures sound { (l f : ℕ) → IsSound l f self.old → IsSound l f self.new }
        ensures deeper { IsDeeper result self.old self.new }
    {
        let Some(mut activation) = self.spare.pop() else {
            unreachable!()
        };
        if let Err(fault) = self.locate_actuals(globals, actuals, &mut activation.formals) {
            self.spare.push_reserved(activation);
            return Err(fault);
        }
        zero_locals(&mut activation.locals, unit.locals.as_slice());
        self.memory.clear(self.activations.len() as u8);
        self.activations.push_reserved(activation);
        Ok(())
    }

    /// Leaves the running unit.
    pub fn leave(&mut self)
        requires { MayLeave self.old }
        ensures change { state_of self.new ≡ left (state_of self.old) }
        ensures sound { (l f : ℕ) → IsSound l f self.old → IsSound l f self.new }
        ensures less { length self.new.activations.items + 1 ≡ length self.old.activations.items }
    {
        if let Some(activation) = self.activations.pop() {
            self.spare.push_reserved(activation);
        }
    }
}
