//! Expressions, and the variables that they read.
ghost use Rattle.std.specs.Prelude.{◌≡◌, IfOk};

use memory_areas::AreaName;
use s7_base::{Boxed, NoMemory, Reg, Width};
use std::alloc::Global;

/// The type of a value: four of bit patterns, three of signed whole numbers.
#[derive(Clone, Copy, Debug, PartialEq, Eq)]
pub enum StType {
    Bool,
    Byte,
    Word,
    Dword,
    Int,
    Dint,
    Lint,
}

/// An operator on one operand.
#[derive(Clone, Copy, Debug, PartialEq, Eq)]
pub enum UnaryOp {
    Minus,
    Not,

    /// `BCD_TO_INT`: a WORD of three digits and a sign as an INT.
    BcdToInt,

    /// `BCD_TO_DINT`: a DWORD of seven digits and a sign as a DINT.
    BcdToDint,
}

/// An operator between its operands.
#[derive(Clone, Copy, Debug, PartialEq, Eq)]
pub enum BinaryOp {
    Mul,
    Div,
    Mod,
    Add,
    Sub,
    Lt,
    Gt,
    Le,
    Ge,
    Eq,
    Ne,
    And,
    Xor,
    Or,
}

/// A shift or a rotation of a bit pattern.
#[derive(Clone, Copy, Debug, PartialEq, Eq)]
pub enum ShiftOp {
    Shl,
    Shr,
    Rol,
    Ror,
}

/// What an expression reads and an assignment writes.
#[derive(Clone, Copy, Debug, PartialEq, Eq)]
pub enum Var {
    /// A variable that needs no declaration.
    Register(Reg),

    /// The unit's local at this position.
    Local(u32),

    /// The unit's formal at this position.
    Formal(u32),

    /// The global at this position that isn't a data block.
    Global(u32),

    /// A place: its area, its byte, its bit and its width. The bit is 0 unless the width is that of a bit.
    Direct(AreaName, u32, u8, Width),

    /// A place in a numbered data block: the block, the byte, the bit and the width.
    InBlock(u16, u32, u8, Width),
}

/// An expression, without the brackets of a text.
#[derive(Drop, PartialEq)]
pub enum Expr {
    /// A value of its type. FALSE is 0 and TRUE is 1; that of a bit type is its pattern, read without a
    /// sign.
    Literal(StType, i64),

    Read(Var),
    Unary(UnaryOp, Boxed<Expr>),
    Binary(BinaryOp, Boxed<Expr>, Boxed<Expr>),

    /// A conversion from the first type to the second.
    Convert(StType, StType, Boxed<Expr>),

    /// `SEL(g, a, b)`: `a` where `g` is FALSE, `b` where it is TRUE.
    Select(Boxed<Expr>, Boxed<Expr>, Boxed<Expr>),

    /// A pattern, and by how many bits, an INT.
    Shift(ShiftOp, Boxed<Expr>, Boxed<Expr>),

    /// A value of this width, read through a pointer, a DWORD.
    AreaRead(Width, Boxed<Expr>),
}

impl Expr {
    /// An equal expression in memory of its own.
    #[cycle(copied)]
    pub fn copy(&self, alloc: Global) -> Result<Expr, NoMemory>
        ensures { IfOk result (λ copy. copy ≡ self.now) }
    {
        match self {
            Expr::Literal(ty, value) => Ok(Expr::Literal(*ty, *value)),
            Expr::Read(var) => Ok(Expr::Read(*var)),
            Expr::Unary(op, operand) => Ok(Expr::Unary(*op, operand.get().boxed_copy(alloc)?)),
            Expr::Binary(op, left, right) => {
                let left = left.get().boxed_copy(alloc)?;
                let right = right.get().boxed_copy(alloc)?;
                Ok(Expr::Binary(*op, left, right))
            }
            Expr::Convert(from, to, operand) => {
                Ok(Expr::Convert(*from, *to, operand.get().boxed_copy(alloc)?))
            }
            Expr::Select(gate, first, second) => {
                let gate = gate.get().boxed_copy(alloc)?;
                let first = first.get().boxed_copy(alloc)?;
                let second = second.get().boxed_copy(alloc)?;
                Ok(Expr::Select(gate, first, second))
            }
            Expr::Shift(op, operand, count) => {
                let operand = operand.get().boxed_copy(alloc)?;
                let count = count.get().boxed_copy(alloc)?;
                Ok(Expr::Shift(*op, operand, count))
            }
            Expr::AreaRead(width, pointer) => {
                Ok(Expr::AreaRead(*width, pointer.get().boxed_copy(alloc)?))
            }
        }
    }

    #[cycle(copied)]
    fn boxed_copy(&self, alloc: Global) -> Result<Boxed<Expr>, NoMemory>
        ensures { IfOk result (λ copy. copy ≡ self.now) }
    {
        let copy = self.copy(alloc)?;
        Boxed::new(alloc, copy)
    }
}
