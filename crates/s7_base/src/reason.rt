//! Why a text is refused, and where.
ghost use Rattle.std.specs.Prelude.{◌≡◌, Some};
ghost use Rattle.s7_base.specs.Reason.{name_of, kind_name_of, reason_text};
ghost use Rattle.s7_base.specs.declared.reason.Rejection.TheVariants as rejection;

use crate::memory::NoMemory;
use std::fmt;

/// A line of a text, counted from 1. A line past the greatest number is kept as that number.
#[derive(Clone, Copy, Debug, PartialEq, Eq, PartialOrd, Ord)]
pub struct Line(pub u32);

/// Why a text gave no program: it breaks a rule, or memory ran out.
#[derive(Clone, Copy, Debug, PartialEq, Eq)]
pub enum Rejection {
    /// The line of the first broken rule, and the rule.
    Refused(Line, Reason),

    /// Memory ran out.
    NoMemory,
}

/// A rule that a text may break. Of two on one line the one that is listed first here counts.
#[derive(Clone, Copy, Debug, PartialEq, Eq)]
pub enum Reason {
    /// Characters form no token; in Structured Text also a literal outside its type's range.
    BadToken,

    /// An item of STL has no form of the language at its place.
    BadStatement,

    /// An item of STL has a form that is not supported, of this kind.
    Unsupported(Kind),

    /// Nothing declares the name.
    UnknownName,

    /// A called block, or the data block or function block of an instance, is not in the text.
    UnknownBlock,

    /// An operand, a constant, an initial value or an actual has the wrong width or kind; a name or a
    /// data block is none of the kind that its place asks for; or a formal has no actual.
    BadOperand,

    /// A written address lies outside its area, a bit number is above 7, or a block number is out of
    /// range.
    BadAddress,

    /// A second block has the same kind and number.
    DuplicateBlock,

    /// A name is declared twice in its scope, or a formal is given twice in a call.
    DuplicateName,

    /// Array bounds are out of order or out of range, or there are more than 6 dimensions.
    BadType,

    /// A data block, an interface or local data has too many bytes, or there are too many data blocks.
    TooLarge,

    /// A body has the same label twice.
    DuplicateLabel,

    /// A jump leads to a label that its body lacks.
    UnknownLabel,

    /// A label, a jump, a call or an end comes while a bracket is open.
    BracketOpen,

    /// `)` comes while no bracket is open.
    BracketMissing,

    /// An eighth bracket opens.
    TooManyBrackets,

    /// After `JL` must come one to 255 `JU` without labels, and then its label.
    BadJumpList,

    /// A body has more than 32,768 instructions, its end word not counted.
    TooManyInstructions,

    /// A block has more than 64 formals.
    TooManyParameters,

    /// A call lies on a cycle of calls.
    CallCycle,

    /// A chain of calls has more than 8 blocks.
    CallTooDeep,

    /// The text has no block that can be called; on line 1.
    NoBlocks,

    /// Structured Text: the token cannot follow here.
    BadSyntax,

    /// Structured Text: the token makes more than 200 levels of nesting.
    TooDeep,

    /// Structured Text: an expression, a target, an actual, a location or an initial value has the
    /// wrong type or length; a call leaves out a formal, or names what is no function.
    TypeMismatch,
}

/// A group of forms of STL that the translator does not support.
#[derive(Clone, Copy, Debug, PartialEq, Eq)]
pub enum Kind {
    /// Timers: `SP`, `SE`, `SD`, `SS`, `SF`, operands `T 1`.
    Timer,

    /// Counters: `CU`, `CD`, operands `C 1`.
    Counter,

    /// Floating point: instructions, constants and the type REAL.
    Real,

    /// The master control relay: `MCR(`, `)MCR`, `MCRA`, `MCRD`.
    MasterControl,

    /// System functions and system function blocks: SFC, SFB.
    SystemCall,

    /// `UC` or `CC` of a function block, or of a block whose number is in memory.
    IndirectBlock,

    /// An instance inside an instance: `CALL #name`, a variable of type `FB 1`.
    MultiInstance,

    /// The types ANY, POINTER, TIMER, COUNTER, and those of blocks.
    PointerType,

    /// The type STRING.
    StringType,

    /// Types and constants of time and date.
    DateTime,

    /// User-defined types: UDT, TYPE.
    UserType,

    /// A formal of ARRAY or STRUCT.
    ComplexParameter,

    /// The length of an open data block: `L DBLG`, `L DILG`.
    DbLength,

    /// A pointer to a name: `P##name`.
    NamePointer,

    /// Peripheral inputs and outputs: PI, PQ.
    Peripheral,

    /// The third and the fourth accumulator of the S7-400: `ENT`, `LEAVE`.
    Accumulators,
}

impl Reason {
    /// The name that a refusal's line shows; that of `Unsupported` is followed by its kind in brackets.
    pub fn name(self) -> &'static str
        ensures { result.now ≡ name_of self }
    {
        match self {
            Reason::BadToken => "BadToken",
            Reason::BadStatement => "BadStatement",
            Reason::Unsupported(_) => "Unsupported",
            Reason::UnknownName => "UnknownName",
            Reason::UnknownBlock => "UnknownBlock",
            Reason::BadOperand => "BadOperand",
            Reason::BadAddress => "BadAddress",
            Reason::DuplicateBlock => "DuplicateBlock",
            Reason::DuplicateName => "DuplicateName",
            Reason::BadType => "BadType",
            Reason::TooLarge => "TooLarge",
            Reason::DuplicateLabel => "DuplicateLabel",
            Reason::UnknownLabel => "UnknownLabel",
            Reason::BracketOpen => "BracketOpen",
            Reason::BracketMissing => "BracketMissing",
            Reason::TooManyBrackets => "TooManyBrackets",
            Reason::BadJumpList => "BadJumpList",
            Reason::TooManyInstructions => "TooManyInstructions",
            Reason::TooManyParameters => "TooManyParameters",
            Reason::CallCycle => "CallCycle",
            Reason::CallTooDeep => "CallTooDeep",
            Reason::NoBlocks => "NoBlocks",
            Reason::BadSyntax => "BadSyntax",
            Reason::TooDeep => "TooDeep",
            Reason::TypeMismatch => "TypeMismatch",
        }
    }
}

impl Kind {
    /// The name that the line of a refusal shows for the kind.
    pub fn name(self) -> &'static str
        ensures { result.now ≡ kind_name_of self }
    {
        match self {
            Kind::Timer => "Timer",
            Kind::Counter => "Counter",
            Kind::Real => "Real",
            Kind::MasterControl => "MasterControl",
            Kind::SystemCall => "SystemCall",
            Kind::IndirectBlock => "IndirectBlock",
            Kind::MultiInstance => "MultiInstance",
            Kind::PointerType => "PointerType",
            Kind::StringType => "StringType",
            Kind::DateTime => "DateTime",
            Kind::UserType => "UserType",
            Kind::ComplexParameter => "ComplexParameter",
            Kind::DbLength => "DbLength",
            Kind::NamePointer => "NamePointer",
            Kind::Peripheral => "Peripheral",
            Kind::Accumulators => "Accumulators",
        }
    }
}

impl fmt::Display for Reason {
    ghost output = { λ reason. Some (reason_text reason) };

    fn fmt<W: fmt::Write>(&self, f: &mut fmt::Formatter<W>) -> fmt::Result {
        match self {
            Reason::Unsupported(kind) => write!(f, "{}({kind})", self.name()),
            _ => f.write_str(self.name()),
        }
    }
}

impl fmt::Display for Kind {
    ghost output = { λ kind. Some (kind_name_of kind) };

    fn fmt<W: fmt::Write>(&self, f: &mut fmt::Formatter<W>) -> fmt::Result {
        f.write_str(self.name())
    }
}

impl From<NoMemory> for Rejection {
    ghost from_gives = { λ _ made. made ≡ rejection.NoMemory };

    fn from(_refused: NoMemory) -> Rejection {
        Rejection::NoMemory
    }
}
