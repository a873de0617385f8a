//! The kinds of tokens that the grammar tells apart.

use s7_base::{Line, Width};
use st_tree::{BinaryOp, RawVar, ShiftOp, StType};

/// An operator before its operand.
#[derive(Clone, Copy)]
pub enum Prefix {
    Minus,
    Not,
}

/// A function of one operand.
#[derive(Clone, Copy)]
pub enum OneOperand {
    /// A conversion from the first type to the second.
    Convert(StType, StType),

    BcdToInt,
    BcdToDint,
    AreaRead(Width),
}

/// A function, by the number of its operands.
#[derive(Clone, Copy)]
pub enum Function {
    One(OneOperand),
    Shift(ShiftOp),
    Select,
}

/// A literal as the grammar sees it.
#[derive(Clone, Copy)]
pub enum Literal {
    /// A decimal without a type; a number above the greatest of 32 bits is kept as that.
    Decimal(u32),

    /// `16#` and two digits.
    Byte(u8),

    /// Any other literal, with its type and its value.
    Typed(StType, i64),
}

/// A statement of one word.
#[derive(Clone, Copy)]
pub enum Jump {
    Exit,
    Continue,
    Return,
}

/// A word at which a statement or a unit begins.
#[derive(Clone, Copy)]
pub enum Lead {
    If,
    Case,
    While,
    Jump(Jump),
    AreaWrite(Width),
    Program,
    Function,
}

/// A word or a sign whose line doesn't matter.
#[derive(Clone, Copy)]
pub enum Fixed {
    VarGlobal,
    VarInOut,
    VarTemp,
    EndVar,
    At,
    Array,
    Of,
    EndProgram,
    EndFunction,
    Then,
    Elsif,
    Else,
    EndIf,
    EndCase,
    Do,
    EndWhile,
    Not,

    /// `-` too, which is also an operator before an operand.
    Between(BinaryOp),

    Type(StType),
    Function(Function),
    Becomes,
    Colon,
    Semicolon,
    Comma,
    Open,
    Close,
    OpenSquare,
    CloseSquare,
    Dots,

    /// The end of the text.
    End,
}

/// A reserved word.
#[derive(Clone, Copy)]
pub enum Word {
    Fixed(Fixed),
    Lead(Lead),
    Truth(bool),
}

/// What a token is in the grammar; with its line where a statement, a declaration or a unit may begin with
/// it.
#[derive(Drop)]
pub enum GrammarKind {
    Fixed(Fixed),
    Lead(Lead, Line),

    /// A name or a direct variable.
    Variable(RawVar, Line),

    Literal(Literal),

    /// A token that the grammar does not have.
    Misfit,
}
