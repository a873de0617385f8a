//! A source text as the reader gives it: its items in their order, names as texts, and lines.
//!
//! Byte, bit and block numbers above 4,294,967,295 are kept as that number.

use crate::program::Ar;
use memory_areas::AreaName;
use s7_base::{Boxed, Line, List, SmallText, Width};
use status_word::Test;

/// An elementary type.
#[derive(Clone, Copy, Debug, PartialEq, Eq)]
pub enum ElemType {
    Bool,
    Byte,
    Char,
    Word,
    Int,
    Dword,
    Dint,
}

/// A constant. It is `signed` exactly where it is written as a plain number, and `binary` exactly where it
/// is written as `2#` and binary digits.
#[derive(Clone, Copy, Debug, PartialEq, Eq)]
pub struct Constant {
    pub width: Width,
    pub signed: bool,
    pub binary: bool,
    pub value: u32,
}

/// Initial values, and how many times they come.
#[derive(Drop)]
pub struct InitialItem {
    pub count: u32,
    pub values: List<Constant>,
}

/// The type of a declaration.
#[derive(Drop)]
#[cycle(declarations)]
pub enum DeclType {
    Elementary(ElemType),
    DateAndTime,

    /// The bounds of each dimension, and the type of the elements.
    Array(List<(i64, i64)>, Boxed<DeclType>),

    Struct(List<Declaration>),
}

/// A declaration, with the line of its name.
#[derive(Drop)]
#[cycle(declarations)]
pub struct Declaration {
    pub name: List<u8>,
    pub line: Line,
    pub ty: DeclType,
    pub initial: List<InitialItem>,
}

/// Declarations that are laid out together, by sections, each of which begins at an even byte: one section for a
/// data block of its own or for the local data of a block, and one for each kind of variable of an instance.
#[derive(Drop)]
pub struct Declarations {
    pub sections: List<List<Declaration>>,
}

/// A step of a path: a component, or the indices of an element.
#[derive(Drop)]
pub enum PathStep {
    Name(List<u8>),
    Index(List<i64>),
}

/// A block as it is named: by its number, or by a name of the symbol table.
#[derive(Drop)]
pub enum RawName {
    Number(u32),
    Name(List<u8>),
}

/// The four kinds of blocks.
#[derive(Clone, Copy, Debug, PartialEq, Eq, Hash)]
pub enum BlockKind {
    Ob,
    Fc,
    Fb,
    Db,
}

/// A written place, with the number of its data block where one is written.
#[derive(Clone, Copy, Debug, PartialEq, Eq)]
pub struct RawPlace {
    pub block: Option<u32>,
    pub area: AreaName,
    pub width: Width,
    pub byte: u32,
    pub bit: u32,
}

/// A pointer constant or an offset; its code is 0 where it names no area.
#[derive(Clone, Copy, Debug, PartialEq, Eq)]
pub struct RawPointer {
    pub code: u8,
    pub byte: u32,
    pub bit: u32,
}

/// What a call gives a formal.
#[derive(Drop)]
#[cycle(raw_operands)]
pub struct RawActual {
    pub formal: List<u8>,
    pub line: Line,
    pub value: RawOperand,
}

/// A call, with the data block of its instance where one is named.
#[derive(Drop)]
#[cycle(raw_operands)]
pub struct RawCall {
    pub kind: BlockKind,
    pub block: RawName,
    pub db: Option<RawName>,
    pub actuals: List<RawActual>,
}

/// An operand as it is written.
#[derive(Drop)]
#[cycle(raw_operands)]
pub enum RawOperand {
    Missing,
    Constant(Constant),
    Pointer(RawPointer),
    At(RawPlace),

    /// A name of the symbol table.
    Named(List<u8>),

    /// A data block by its name, and a path in it.
    InBlock(List<u8>, List<PathStep>),

    /// A path that begins with a variable of the block.
    Local(List<PathStep>),

    /// An area and a width, and the place of the pointer.
    ByMemory(AreaName, Width, RawPlace),

    ByRegister(AreaName, Width, Ar, RawPointer),
    Crossing(Width, Ar, RawPointer),

    /// A test of the status word.
    Flag(Test),

    /// The status word.
    Stw,

    DbNo,
    DiNo,

    /// The other address register.
    OtherAr,

    Label(List<u8>),
    OpenDb(RawName),
    OpenDi(RawName),
    OpenDbBy(RawPlace),
    OpenDiBy(RawPlace),
    Call(Boxed<RawCall>),
}

/// A mnemonic, in capitals, and its operand.
#[derive(Drop)]
pub struct RawOp {
    pub mnemonic: SmallText,
    pub operand: RawOperand,
}

/// An instruction, with its label if it has one, and the line of its first token.
#[derive(Drop)]
pub struct RawInstr {
    pub label: Option<List<u8>>,
    pub line: Line,
    pub op: RawOp,
}

/// The address in a line of the symbol table.
#[derive(Clone, Copy, Debug, PartialEq, Eq)]
pub enum SymbolAddress {
    At(RawPlace),
    Block(BlockKind, u32),

    /// An address that no operand and no call can have.
    Other,
}

/// A line of the symbol table.
#[derive(Drop)]
pub struct SymbolLine {
    pub name: List<u8>,
    pub line: Line,
    pub address: SymbolAddress,
}

/// An initial value in the `BEGIN` part of a data block.
#[derive(Drop)]
pub struct RawInitial {
    pub path: List<PathStep>,
    pub line: Line,
    pub value: Constant,
}

/// The contents of a data block: declarations of its own, or an instance of a function block.
#[derive(Drop)]
pub enum RawDataKind {
    Own(List<Declaration>),
    Instance(RawName),
}

/// A data block, with the line of its heading.
#[derive(Drop)]
pub struct RawData {
    pub name: RawName,
    pub line: Line,
    pub kind: RawDataKind,
    pub initial: List<RawInitial>,
}

/// An organization block, a function or a function block, with the lines of its heading and its end word.
#[derive(Drop)]
pub struct RawBlock {
    pub kind: BlockKind,
    pub name: RawName,
    pub line: Line,

    /// The type of a function, `None` for `VOID`.
    pub result: Option<ElemType>,

    pub inputs: List<Declaration>,
    pub outputs: List<Declaration>,
    pub in_outs: List<Declaration>,
    pub statics: List<Declaration>,
    pub temps: List<Declaration>,
    pub body: List<RawInstr>,
    pub end_line: Line,
}

/// A text: its symbol lines, data blocks and other blocks, each in the order of the text.
#[derive(Drop)]
pub struct RawProgram {
    pub symbols: List<SymbolLine>,
    pub dbs: List<RawData>,
    pub blocks: List<RawBlock>,
}
