//! Expressions, assignments and choices.
ghost use Rattle.std.specs.Prelude.{◌≡◌, ◌∷◌, ◌++◌, Ok, Err, IfSome, MatchResult, ℕ};
ghost use Rattle.memory_areas.specs.Access.{and_then};
ghost use Rattle.st_runner.specs.inner.Begun.{HasBegun};
ghost use Rattle.st_runner.specs.inner.Choice.{case_body, if_body};
ghost use Rattle.st_runner.specs.inner.Plan.{Stands, arms_parts, body_parts, case_part, inside_case};
ghost use Rattle.st_runner.specs.inner.View.{Changes, IsRunning, IsSound, MayRun, SameShape, state_of};
ghost use Rattle.st_runner.specs.inner.Runnable.{AreGlobals};
ghost use Rattle.st_tree.specs.Meaning.{Calls, Faults, area_assignment, assignment, body_meaning};
ghost use Rattle.st_tree.specs.Value.{value};
ghost use Rattle.st_tree.specs.Values.{is_set};

use crate::operators::{binary, converted_value, is_set, selected_value, shift, unary};
use crate::plan::{Part, behind_part, further};
use crate::state::{State, local_at};
use s7_base::{Fault, Width};
use st_tree::{Arm, CaseArm, Expr, Located, Stmt, Value, Var};

impl State {
    /// The value of a literal, a local or a register, as operands most often are; none of another
    /// expression.
    #[inline(always)]
    fn value_at_once(&self, globals: &[Located], e: &Expr) -> Option<Result<Value, Fault>>
        requires running { IsRunning self.now }
        requires globals { AreGlobals globals.now }
        ensures { IfSome result (λ found. found ≡ value globals.now e.now (state_of self.now)) }
    {
        match e {
            Expr::Literal(ty, n) => Some(Ok(Value { ty: *ty, n: *n })),
            Expr::Read(Var::Local(i)) => Some(local_at(&self.activations, self.depth(), *i)),
            Expr::Read(Var::Register(r)) => Some(Ok(self.register(*r))),
            _ => None,
        }
    }

    /// The value of an expression. It stays a call, so that no place is cleared for the values of operands
    /// where there are none.
    #[inline(never)]
    pub fn value(&self, globals: &[Located], e: &Expr) -> Result<Value, Fault>
        requires running { IsRunning self.now }
        requires globals { AreGlobals globals.now }
        ensures { result ≡ value globals.now e.now (state_of self.now) }
    {
        match e {
            Expr::Literal(ty, n) => Ok(Value { ty: *ty, n: *n }),
            Expr::Read(var) => self.read(globals, var),
            Expr::Unary(op, operand) => {
                let v = match self.value_at_once(globals, operand.get()) {
                    Some(v) => v?,
                    None => self.value(globals, operand.get())?,
                };
                unary(*op, v)
            }
            Expr::Binary(op, left, right) => {
                let v = match self.value_at_once(globals, left.get()) {
                    Some(v) => v?,
                    None => self.value(globals, left.get())?,
                };
                let w = match self.value_at_once(globals, right.get()) {
                    Some(w) => w?,
                    None => self.value(globals, right.get())?,
                };
                binary(*op, v, w)
            }
            Expr::Convert(_, to, operand) => {
                let v = match self.value_at_once(globals, operand.get()) {
                    Some(v) => v?,
                    None => self.value(globals, operand.get())?,
                };
                Ok(converted_value(*to, v))
            }
            Expr::Select(gate, first, second) => {
                let gate = self.value(globals, gate.get())?;
                let v = self.value(globals, first.get())?;
                let w = self.value(globals, second.get())?;
                Ok(selected_value(gate, v, w))
            }
            Expr::Shift(op, operand, count) => {
                let v = self.value(globals, operand.get())?;
                let count = self.value(globals, count.get())?;
                Ok(shift(*op, v, count))
            }
            Expr::AreaRead(width, pointer) => {
                let pointer = self.value(globals, pointer.get())?;
                self.area_read(*width, pointer)
            }
        }
    }

    /// The value of an expression that has no operands, or operands that have their values at once; none of
    /// another expression, and none where there is a fault.
    #[inline(always)]
    fn soon(&self, globals: &[Located], e: &Expr) -> Option<Value>
        requires running { IsRunning self.now }
        requires globals { AreGlobals globals.now }
        ensures { IfSome result (λ v. value globals.now e.now (state_of self.now) ≡ Ok v) }
    {
        let found = match e {
            Expr::Literal(ty, n) => Ok(Value { ty: *ty, n: *n }),
            Expr::Read(var) => self.read(globals, var),
            Expr::Binary(op, left, right) => {
                let Some(Ok(v)) = self.value_at_once(globals, left.get()) else {
                    return None;
                };
                let Some(Ok(w)) = self.value_at_once(globals, right.get()) else {
                    return None;
                };
                binary(*op, v, w)
            }
            Expr::Convert(_, to, operand) => {
                let Some(Ok(v)) = self.value_at_once(globals, operand.get()) else {
                    return None;
                };
                Ok(converted_value(*to, v))
            }
            _ => return None,
        };
        match found {
            Ok(v) => Some(v),
            Err(_) => None,
        }
    }

    /// Whether a test that is no literal is TRUE. It stays a call, which a loop whose test is TRUE does
    /// without.
    #[inline(never)]
    fn is_found_true(&self, globals: &[Located], test: &Expr) -> Result<bool, Fault>
        requires running { IsRunning self.now }
        requires globals { AreGlobals globals.now }
        ensures { result ≡ and_then (value globals.now test.now (state_of self.now)) (λ v. Ok (is_set v)) }
    {
        if let Some(v) = self.soon(globals, test) {
            return Ok(is_set(v));
        }
        let v = self.value(globals, test)?;
        Ok(is_set(v))
    }

    /// Whether a test is TRUE.
    #[inline(always)]
    pub fn is_true(&self, globals: &[Located], test: &Expr) -> Result<bool, Fault>
        requires running { IsRunning self.now }
        requires globals { AreGlobals globals.now }
        ensures { result ≡ and_then (value globals.now test.now (state_of self.now)) (λ v. Ok (is_set v)) }
    {
        match test {
            Expr::Literal(ty, n) => Ok(is_set(Value { ty: *ty, n: *n })),
            _ => self.is_found_true(globals, test),
        }
    }

    /// Assigns a value that is found by steps of its own. It stays a call, so that its operands take no
    /// place where there are none.
    #[inline(never)]
    fn assign_found(&mut self, globals: &[Located], var: &Var, e: &Expr) -> Result<(), Fault>
        requires running { IsRunning self.old }
        requires globals { AreGlobals globals.now }
        ensures change { Changes (assignment globals.now var.now e.now (state_of self.old)) result
            (state_of self.old) (state_of self.new) }
        ensures sound { (l f : ℕ) → IsSound l f self.old → IsSound l f self.new }
        ensures same { SameShape self.old self.new }
    {
        let v = self.value(globals, e)?;
        self.write(globals, var, v)
    }

    /// Assigns the value of an expression to a variable. A fault changes nothing. A literal for a register, as most
    /// often, is given at once.
    #[inline(always)]
    pub fn assign(&mut self, globals: &[Located], var: &Var, e: &Expr) -> Result<(), Fault>
        requires running { IsRunning self.old }
        requires globals { AreGlobals globals.now }
        ensures change { Changes (assignment globals.now var.now e.now (state_of self.old)) result
            (state_of self.old) (state_of self.new) }
        ensures sound { (l f : ℕ) → IsSound l f self.old → IsSound l f self.new }
        ensures same { SameShape self.old self.new }
    {
        if let Expr::Literal(_, n) = e {
            if let Var::Register(r) = var {
                self.registers.give_number(*r, *n);
                return Ok(());
            }
        }
        match self.soon(globals, e) {
            Some(v) => self.write(globals, var, v),
            None => self.assign_found(globals, var, e),
        }
    }

    /// Does the assignments that some statements begin with, and gives the statements behind them.
    pub fn assign_first<'t>(
        &mut self,
        globals: &[Located],
        body: &'t [Stmt],
    ) -> Result<&'t [Stmt], Fault>
        requires sound { MayRun self.old }
        requires globals { AreGlobals globals.now }
        ensures begun { MatchResult result
            (λ rest. HasBegun globals.now body.now rest.now (state_of self.old) (state_of self.new))
            (λ fault. (c : Calls) (u : ℕ) → body_meaning globals.now c body.now u (state_of self.old)
            ≡ Faults fault (state_of self.new)) }
        ensures sound { (l f : ℕ) → IsSound l f self.old → IsSound l f self.new }
        ensures same { SameShape self.old self.new }
    {
        let mut rest = body;
        while let Some((stmt, behind)) = rest.split_first() {
            let Stmt::Assign(var, e) = stmt else {
                return Ok(rest);
            };
            self.assign(globals, var, e)?;
            rest = behind;
        }
        Ok(rest)
    }

    /// Writes the value of an expression through a pointer. A fault changes nothing.
    pub fn area_assign(
        &mut self,
        globals: &[Located],
        width: Width,
        pointer: &Expr,
        e: &Expr,
    ) -> Result<(), Fault>
        requires running { IsRunning self.old }
        requires globals { AreGlobals globals.now }
        ensures change { Changes (area_assignment globals.now width pointer.now e.now (state_of self.old)) result
            (state_of self.old) (state_of self.new) }
        ensures sound { (l f : ℕ) → IsSound l f self.old → IsSound l f self.new }
        ensures same { SameShape self.old self.new }
    {
        let p = self.value(globals, pointer)?;
        let v = self.value(globals, e)?;
        self.area_write(width, p, v)
    }

    /// The statements that an IF chooses, and the place of their parts. Those of the arms start at `at`.
    pub fn if_body<'t>(
        &self,
        globals: &[Located],
        plan: &[Part<'t>],
        at: usize,
        arms: &'t [Arm],
        other: &'t [Stmt],
    ) -> Result<(&'t [Stmt], usize), Fault>
        requires running { IsRunning self.now }
        requires globals { AreGlobals globals.now }
        requires planned { Stands plan.now at (arms_parts arms.now ++ body_parts other.now) }
        ensures { MatchResult result
            (λ found. (if_body globals.now arms.now other.now (state_of self.now) ≡ Ok found.0.now)
            × Stands plan.now found.1 (body_parts found.0.now))
            (λ fault. if_body globals.now arms.now other.now (state_of self.now) ≡ Err fault) }
    {
        let mut rest = arms;
        let mut place = at;
        while let Some((arm, behind)) = rest.split_first() {
            if self.is_true(globals, &arm.test)? {
                return Ok((arm.body.as_slice(), further(plan, place, 1)));
            }
            rest = behind;
            place = behind_part(plan, place);
        }
        Ok((other, place))
    }
}

/// The statements that a CASE chooses, and the place of their parts. Its own part stands at `at`.
pub fn case_body<'t>(
    plan: &[Part<'t>],
    at: usize,
    v: Value,
    arms: &'t [CaseArm],
    other: &'t [Stmt],
) -> (&'t [Stmt], usize)
    requires { Stands plan.now at (case_part arms.now other.now ∷ inside_case arms.now other.now) }
    ensures body { result.0.now ≡ case_body v.n arms.now other.now }
    ensures planned { Stands plan.now result.1 (body_parts result.0.now) }
{
    let Part::Choice(_, table, starts) = &plan[at] else {
        unreachable!()
    };
    let inside = further(plan, at, 1);
    match table.find(v.n) {
        Some(n) => (
            arms[n].body.as_slice(),
            further(plan, inside, starts.as_slice()[n]),
        ),
        None => (other, inside),
    }
}
