//! The state of the parser between two tokens of statements: what is open, and what may come next.

ghost use Rattle.std.specs.Prelude.{◌≡◌, ◌∷◌, Some, suc, IfOk, OnOk};
ghost use Rattle.st_grammar.specs.Grammar.{on_line};
ghost use Rattle.st_grammar.specs.inner.Machine.{code, closing, no_statements, opening, operand, operator, part, statement, waiting, within};
ghost use Rattle.st_grammar.specs.inner.Steps.{body_start, body_state, shallower};
ghost use Rattle.st_statement_parser.specs.inner.BodyStates.{begun_statement_of, body_at, body_state_of, frame_of, leads_to, need_of, outer_statement_of, part_of, place_of, stack_of};

use crate::expression::{BoxedExpression, one_more, shallower};
use s7_base::{Boxed, Line, List, NoMemory, Width};
use st_grammar::{Function, Measured, OneOperand, Prefix};
use st_tree::{BinaryOp, RawArm, RawCaseArm, RawStmt, RawStmtKind, RawVar, ShiftOp, StType};
use std::alloc::Global;
use std::mem::replace;

/// A statement that has begun: those before it, and its line.
#[derive(Drop)]
pub struct BegunStatement {
    pub before: List<RawStmt>,
    pub line: Line,
}

/// A call while it is read: the name of its function, and the actuals so far.
#[derive(Drop)]
pub struct Call {
    pub name: List<u8>,
    pub actuals: List<(List<u8>, RawVar)>,
}

/// An actual while it is read: the call with those before it, and the name of its formal.
#[derive(Drop)]
pub struct BegunActual {
    pub call: Boxed<Call>,
    pub formal: List<u8>,
}

/// A CASE while it is read: its selector, and the arms so far.
#[derive(Drop)]
pub struct Cases {
    pub selector: BoxedExpression,
    pub arms: List<RawCaseArm>,
}

/// An arm of an IF whose statements are read: the arms before it, and its test.
#[derive(Drop)]
pub struct BegunIfArm {
    pub arms: List<RawArm>,
    pub test: BoxedExpression,
}

/// An arm of a CASE while it is read: the CASE with the arms before it, and its labels so far.
#[derive(Drop)]
pub struct BegunCaseArm {
    pub cases: Boxed<Cases>,
    pub labels: List<(StType, i64)>,
}

/// An area write whose value is read: its width, and its pointer.
#[derive(Drop)]
pub struct BegunWrite {
    pub width: Width,
    pub pointer: BoxedExpression,
}

/// An operand of a function, with those before it.
#[derive(Drop)]
pub enum Argument {
    /// The operand of a function of one.
    Only(OneOperand),

    /// The value of a shift or a rotation.
    Shifted(ShiftOp),

    /// The count of a shift or a rotation, after its value.
    ShiftedBy(ShiftOp, BoxedExpression),

    /// The BOOL of SEL.
    Gate,

    /// The value of SEL where its BOOL is FALSE.
    First(BoxedExpression),

    /// The value of SEL where its BOOL is TRUE.
    Second(BoxedExpression, BoxedExpression),
}

/// What a statement needs an expression for.
#[derive(Drop)]
pub enum Need {
    /// The value that a variable takes.
    ToVar(RawVar),

    /// The pointer of an area write.
    ToArea(Width),

    /// The value of an area write, after its pointer.
    AreaValue(BegunWrite),

    /// The test of an arm of an IF, after these arms.
    Test(List<RawArm>),

    /// The selector of a CASE.
    Selector,

    /// The test of a WHILE.
    LoopTest,
}

/// A statement whose own statements are read.
#[derive(Drop)]
pub enum OuterStatement {
    /// An arm of an IF.
    Choosing(BegunIfArm),

    /// The statements after the ELSE of an IF.
    Otherwise(List<RawArm>),

    /// The statements of a WHILE with this test.
    Looping(BoxedExpression),

    /// An arm of a CASE.
    Selecting(BegunCaseArm),

    /// The statements after the ELSE of a CASE.
    OtherwiseCase(Boxed<Cases>),
}

/// Something that is open.
#[derive(Drop)]
pub enum Frame {
    /// An operator that waits for its operand.
    Unary(Prefix),

    /// An operator with its left operand, which waits for the right one.
    Left(BinaryOp, BoxedExpression),

    /// A bracket of an expression.
    Bracket,

    /// An operand of a function.
    Argument(Argument),

    /// A statement that waits for an expression.
    Waiting(BegunStatement, Need),

    /// A statement whose own statements are read.
    Within(BegunStatement, OuterStatement),
}

/// A part of a statement that is no expression.
#[derive(Drop)]
pub enum Part {
    /// What follows a variable at the beginning of a statement.
    Target(RawVar),

    /// The bracket of an area write.
    WriteOpen(Width),

    /// The first formal of a call, or its closing bracket.
    FirstFormal(List<u8>),

    /// A further formal of a call.
    NextFormal(Boxed<Call>),

    /// The `:=` after a formal of a call.
    Becoming(BegunActual),

    /// The variable that a formal of a call is given.
    Giving(BegunActual),

    /// The comma or the closing bracket after an actual of a call.
    Given(Boxed<Call>),

    /// The first label of a CASE.
    FirstLabel(Boxed<Cases>),

    /// A further label of an arm, after a comma.
    NextLabel(BegunCaseArm),

    /// The comma or the `:` after a label.
    Labelled(BegunCaseArm),
}

/// What may come next in statements. It is moved at each token, so what is large and rare is in a box.
#[derive(Drop)]
pub enum Place {
    /// A statement, after these.
    Statement(List<RawStmt>),

    Part(BegunStatement, Part),

    /// The `;` of a statement.
    Closing(List<RawStmt>, Boxed<RawStmt>),

    Operand,
    Operator(Measured),

    /// The bracket of a function.
    Opening(Function),
}

/// The state of the parser in statements. The frame that was opened last is the last one.
#[derive(Drop)]
pub struct BodyState {
    pub depth: usize,
    pub frames: List<Frame>,
    pub place: Place,
}

impl BodyState {
    /// The beginning of the statements of a unit.
    pub fn new(alloc: Global) -> BodyState
        ensures { body_state_of result ≡ body_start code }
    {
        BodyState {
            depth: 0,
            frames: List::new(alloc),
            place: Place::Statement(List::new(alloc)),
        }
    }

    /// The statements of a unit that can end here, where nothing is open and one may begin.
    pub fn into_body(self) -> Option<List<RawStmt>>
        ensures { result ≡ body_at (stack_of self.frames) (place_of self.place) }
    {
        let BodyState {
            mut frames,
            place,
            ..
        } = self;
        if let Some(frame) = frames.pop() {
            drop(frame);
            drop(place);
            return None;
        }
        match place {
            Place::Statement(body) => Some(body),
            other => {
                drop(other);
                None
            }
        }
    }

    /// Continues at a place. The few places that there are have calls of their own below, since each that
    /// names the whole type costs the prover. A step has taken the old place out, so there is nothing to drop
    /// but in a call from elsewhere.
    fn go(&mut self, place: Place)
        ensures { body_state_of self.new
            ≡ body_state code self.old.depth (stack_of self.old.frames) (place_of place) }
    {
        match replace(&mut self.place, place) {
            Place::Operand => {}
            other => drop(other),
        }
    }

    /// A statement may come next, after these.
    pub fn go_statement(&mut self, before: List<RawStmt>)
        ensures { body_state_of self.new
            ≡ body_state code self.old.depth (stack_of self.old.frames) (statement before) }
    {
        self.go(Place::Statement(before));
    }

    /// A part of a statement that is no expression is next.
    pub fn go_part(&mut self, begun: BegunStatement, next: Part)
        ensures { body_state_of self.new
            ≡ body_state code self.old.depth (stack_of self.old.frames)
            (part (begun_statement_of begun) (part_of next)) }
    {
        self.go(Place::Part(begun, next));
    }

    /// The `;` of a statement is next.
    pub fn go_closing(
        &mut self,
        alloc: Global,
        before: List<RawStmt>,
        line: Line,
        kind: RawStmtKind,
    ) -> Result<(), NoMemory>
        ensures { OnOk result (body_state_of self.new
            ≡ body_state code self.old.depth (stack_of self.old.frames) (closing before (on_line line kind))) }
    {
        let statement = Boxed::new(alloc, RawStmt { line, kind })?;
        self.go(Place::Closing(before, statement));
        Ok(())
    }

    /// An operand was read: an operator or the end of the expression is next.
    pub fn go_operator(&mut self, whole: Measured)
        ensures { body_state_of self.new
            ≡ body_state code self.old.depth (stack_of self.old.frames) (operator whole) }
    {
        self.go(Place::Operator(whole));
    }

    /// The bracket of a function is next.
    pub fn go_opening(&mut self, function: Function)
        ensures { body_state_of self.new
            ≡ body_state code self.old.depth (stack_of self.old.frames) (opening function) }
    {
        self.go(Place::Opening(function));
    }

    /// Goes one level of nesting deeper.
    pub fn deepen(&mut self) -> Result<(), NoMemory>
        ensures { OnOk result (body_state_of self.new
            ≡ body_state code (suc self.old.depth) (stack_of self.old.frames) (place_of self.old.place)) }
    {
        self.depth = one_more(self.depth)?;
        Ok(())
    }

    /// Goes one level of nesting back.
    pub fn rise(&mut self)
        ensures { body_state_of self.new
            ≡ body_state code (shallower self.old.depth) (stack_of self.old.frames) (place_of self.old.place) }
    {
        self.depth = shallower(self.depth);
    }

    /// An operand is next, for which a frame waits.
    pub fn expect(&mut self, frame: Frame) -> Result<(), NoMemory>
        ensures { OnOk result (body_state_of self.new
            ≡ body_state code self.old.depth (frame_of frame ∷ stack_of self.old.frames) operand) }
    {
        self.frames.push(frame)?;
        self.go(Place::Operand);
        Ok(())
    }

    /// An operand is next, which a statement needs.
    pub fn wait(&mut self, begun: BegunStatement, need: Need) -> Result<(), NoMemory>
        ensures { OnOk result (body_state_of self.new
            ≡ body_state code self.old.depth
            (waiting (begun_statement_of begun) (need_of need) ∷ stack_of self.old.frames) operand) }
    {
        self.expect(Frame::Waiting(begun, need))
    }

    /// The statements inside of one that has begun are next.
    pub fn enter(
        &mut self,
        alloc: Global,
        begun: BegunStatement,
        outer: OuterStatement,
    ) -> Result<(), NoMemory>
        ensures { OnOk result (body_state_of self.new
            ≡ body_state code self.old.depth
            (within (begun_statement_of begun) (outer_statement_of outer) ∷ stack_of self.old.frames)
            (statement (no_statements code))) }
    {
        self.frames.push(Frame::Within(begun, outer))?;
        self.go_statement(List::new(alloc));
        Ok(())
    }

    /// A statement that opened a level ends, up to its `;`. Answers what the step answers that ends with this
    /// call.
    pub fn close(
        &mut self,
        alloc: Global,
        begun: BegunStatement,
        kind: RawStmtKind,
    ) -> Result<bool, NoMemory>
        ensures { IfOk result (λ goes. leads_to goes self.new
            ≡ Some (body_state code (shallower self.old.depth) (stack_of self.old.frames)
            (closing begun.before (on_line begun.line kind)))) }
    {
        self.rise();
        self.go_closing(alloc, begun.before, begun.line, kind)?;
        Ok(true)
    }
}
