//! The state of the parser between two tokens of a text.

use s7_base::{Line, List};
use st_grammar::Heading;
use st_statement_parser::BodyState;
use st_tree::{RawGlobal, RawGlobalType, RawLocal, RawPou, RawVar, StType};

/// A global that has begun: those before it, its name, and its line.
#[derive(Drop)]
pub struct BegunGlobal {
    pub before: List<RawGlobal>,
    pub name: List<u8>,
    pub line: Line,
}

/// What may come next in a global, after its name: each is named by that token, and holds what was read
/// before it.
#[derive(Drop)]
pub enum GlobalTail {
    AtWord,
    AtPlace,
    AtColon(RawVar),
    AtType(RawVar),
    AtSquare(RawVar),
    AtZero(RawVar),
    AtDots(RawVar),
    AtLast(RawVar),
    AtClose(RawVar, u32),
    AtOf(RawVar, u32),
    AtByte(RawVar, u32),
    AtBecomes(RawVar, u32),
    AtOpen(RawVar, u32),
    AtItem(RawVar, u32, List<(u32, u8)>),
    AtCount(RawVar, u32, List<(u32, u8)>, u32),
    AtValue(RawVar, u32, List<(u32, u8)>, u32),
    AtValueEnd(RawVar, u32, List<(u32, u8)>, u32, u8),
    AtComma(RawVar, u32, List<(u32, u8)>),
    AtEnd(RawVar, RawGlobalType),
}

/// What may come next in a local, after its name.
#[derive(Clone, Copy)]
pub enum Typing {
    Colon,
    Type,
    End(StType),
}

/// The text so far: its globals, and the units that have ended.
#[derive(Drop)]
pub struct TextSoFar {
    pub globals: List<RawGlobal>,
    pub units: List<RawPou>,
}

/// A unit that has begun: the text before it, and its heading.
#[derive(Drop)]
pub struct BegunUnit {
    pub text: TextSoFar,
    pub head: Heading,
}

/// The section that is read.
#[derive(Drop)]
pub enum SectionKind {
    Formals,

    /// The locals, after these formals.
    Temps(List<RawLocal>),
}

/// A section of a unit that has begun: the unit, which section it is, and what it declares so far.
#[derive(Drop)]
pub struct BegunSection {
    pub unit: BegunUnit,
    pub which: SectionKind,
    pub done: List<RawLocal>,
}

/// A unit with its declarations: what comes before its statements.
#[derive(Drop)]
pub struct DeclaredUnit {
    pub begun: BegunUnit,
    pub formals: List<RawLocal>,
    pub locals: List<RawLocal>,
}

/// The state of the parser in a text.
#[derive(Drop)]
pub enum State {
    /// Nothing was read.
    Start,

    /// In the section of globals, where one may begin.
    Globals(List<RawGlobal>),

    /// In a global, after its name.
    GlobalTail(BegunGlobal, GlobalTail),

    /// Before a unit, or the end of the text.
    Between(TextSoFar),

    /// After `PROGRAM` or `FUNCTION`, before the unit's name.
    Heading(TextSoFar, bool, Line),

    /// After the name of a unit.
    Opened(BegunUnit),

    /// After the formals of a unit.
    FormalsDone(BegunUnit, List<RawLocal>),

    /// In a section of a unit, where a declaration may begin.
    Section(BegunSection),

    /// In a declaration of a unit, after its name.
    Typing(BegunSection, List<u8>, Line, Typing),

    /// In the statements of a unit.
    Inside(DeclaredUnit, BodyState),

    /// After the end of the text.
    Over(TextSoFar),
}
