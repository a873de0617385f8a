//! The program that a source text means.
ghost use Rattle.std.specs.Prelude.{◌≡◌};
ghost use Rattle.stl_tree.specs.Accepted.{may_hold_pointers};
ghost use Rattle.stl_tree.specs.AddressRegisters.{other_of};

use crate::accumulator::{Arith, LogicRow, ShiftRow, UnaryRow};
use memory_areas::{AreaName, BlockName, DataBlock, Place};
use s7_base::{Check, Line, List, Width};
use status_word::Test;

/// One of the two address registers.
#[derive(Clone, Copy, Debug, PartialEq, Eq)]
pub enum Ar {
    One,
    Two,
}

impl Ar {
    /// The other address register.
    pub fn other(self) -> Ar
        ensures { result ≡ other_of self }
    {
        match self {
            Ar::One => Ar::Two,
            Ar::Two => Ar::One,
        }
    }
}

/// Whether a pointer may be stored in an area: not in the inputs and the outputs.
pub fn may_hold_pointers(area: AreaName) -> bool
    ensures { result ≡ may_hold_pointers area }
{
    match area {
        AreaName::I | AreaName::Q => false,
        AreaName::M | AreaName::L | AreaName::Db | AreaName::Di => true,
    }
}

/// Where an instruction finds its operand. Offsets have the bit in their lowest three bits, and the byte above.
#[derive(Clone, Copy)]
pub enum Operand {
    /// An area, a byte in it and a bit from 0 to 7.
    Direct(AreaName, u32, u8),

    /// A data block that is opened first, a byte in it and a bit from 0 to 7.
    Opened(u16, u32, u8),

    /// The actual of a formal of the running function, by the position of the formal.
    Formal(u32),

    /// An area, and byte and bit of a pointer in memory, which is a double word of an area from a byte on.
    ByMemory(AreaName, AreaName, u32),

    /// An area, and byte and bit of an address register and an offset.
    ByRegister(AreaName, Ar, u32),

    /// Area, byte and bit of an address register, with an offset.
    Crossing(Ar, u32),
}

/// What a bit check tests.
#[derive(Clone, Copy)]
pub enum BitArg {
    At(Operand),

    /// A test of the status word.
    Flag(Test),
}

/// What `L` loads.
#[derive(Clone, Copy)]
pub enum LoadArg {
    /// A byte, a word or a double word.
    At(Operand, Width),

    /// A constant, extended to 32 bits.
    Constant(u32),
}

/// What an address register is loaded with.
#[derive(Clone, Copy)]
pub enum ArLoad {
    Accu1,

    /// A pointer.
    Constant(u32),

    /// A double word in memory.
    At(Operand),

    /// The other address register.
    OtherAr,
}

/// Where an address register is stored.
#[derive(Clone, Copy)]
pub enum ArStore {
    /// In ACCU1, whose old value goes to ACCU2.
    Accu1,

    /// In a double word.
    At(Operand),

    /// In the other address register.
    OtherAr,
}

/// Where a jump looks before it is made.
#[derive(Clone, Copy, Debug, PartialEq, Eq)]
pub enum JumpTest {
    /// Nowhere: `JU`.
    Always,

    /// The RLO is this: `JC` and `JCN`.
    Rlo(bool),

    /// The RLO is this, and BR takes it: `JCB` and `JNB`.
    RloSaved(bool),

    /// BR is this: `JBI` and `JNBI`.
    Br(bool),

    /// OV is 1: `JO`.
    Overflow,

    /// OS is 1, and is cleared: `JOS`.
    StoredOverflow,

    /// CC1 and CC0 pass a test: `JZ`, `JN`, `JP`, `JM`, `JPZ`, `JMZ` and `JUO`.
    Result(Test),
}

/// Which data block `OPN` opens.
#[derive(Clone, Copy)]
pub enum OpenArg {
    Number(u16),

    /// The data block whose number is in a word.
    At(Operand),
}

/// What a formal of a called block means.
#[derive(Clone, Copy)]
pub enum Actual {
    /// The call leaves the formal out.
    Missing,

    /// A constant, extended to 32 bits.
    Constant(u32),

    At(Operand),
}

/// A call inside a program: the position of its block, the data block of its instance, which is 0 for a
/// function, and the actuals of the block's formals, in their order.
#[derive(Drop)]
pub struct BlockCall {
    pub block: u32,
    pub instance: u16,
    pub actuals: List<Actual>,
}

/// An instruction with its operand.
#[derive(Drop)]
pub enum Op {
    /// `A`, `AN`, `O`, `ON`, `X` and `XN` on a bit.
    Check(Check, BitArg),

    /// `O` without operand.
    OrAlone,

    /// `A(`, `AN(`, `O(`, `ON(`, `X(` and `XN(`.
    Bracket(Check),

    /// `)`, which closes a bracket.
    Close,

    /// `=`, which assigns the RLO to a bit.
    Assign(Operand),

    /// `S`, which sets a bit where the RLO is 1.
    Set(Operand),

    /// `R`, which resets a bit where the RLO is 1.
    Reset(Operand),

    /// `SET`, which sets the RLO.
    SetRlo,

    /// `CLR`, which clears the RLO.
    ClearRlo,

    /// `NOT`, which inverts the RLO.
    NotRlo,

    /// `SAVE`, which copies the RLO to BR.
    Save,

    /// `FP`, on the bit that keeps the last RLO.
    EdgeUp(Operand),

    /// `FN`, on the bit that keeps the last RLO.
    EdgeDown(Operand),

    /// `L`, which loads a value into ACCU1.
    Load(LoadArg),

    /// `T`, of a byte, a word or a double word.
    Transfer(Operand, Width),

    /// `L STW`, which loads the status word.
    LoadStw,

    /// `T STW`, which stores into the status word.
    TransferStw,

    /// `L DBNO`, which loads the number in the DB register.
    LoadDbNo,

    /// `L DINO`, which loads the number in the DI register.
    LoadDiNo,

    Arith(Arith),

    /// `+ n`, which adds to the low word of ACCU1.
    AddWord(i16),

    /// `+ L#n`, which adds to ACCU1.
    AddDword(i32),

    /// `INC`, which adds to the lowest byte of ACCU1.
    Inc(u8),

    /// `DEC`, which subtracts from the lowest byte of ACCU1.
    Dec(u8),

    /// `==I` to `<=I` with the width of a word, `==D` to `<=D` with that of a double word.
    Compare(Test, Width),

    /// A shift or rotation, by a constant or by ACCU2.
    Shift(ShiftRow, Option<u8>),

    /// `RLDA`, which rotates ACCU1 and CC1 to the left.
    Rlda,

    /// `RRDA`, which rotates ACCU1 and CC1 to the right.
    Rrda,

    /// Word logic, with a constant or with ACCU2.
    Logic(LogicRow, Option<u32>),

    Unary(UnaryRow),

    /// `TAK`, which exchanges ACCU1 and ACCU2.
    Tak,

    /// `PUSH`, which copies ACCU1 to ACCU2.
    Push,

    /// `POP`, which copies ACCU2 to ACCU1.
    Pop,

    /// `LAR1` and `LAR2`, which load an address register.
    LoadAr(Ar, ArLoad),

    /// `TAR1` and `TAR2`, which store an address register.
    StoreAr(Ar, ArStore),

    /// `CAR`, which exchanges AR1 and AR2.
    ExchangeAr,

    /// `+AR1` and `+AR2`, of an offset, or of the low word of ACCU1 with its sign.
    AddAr(Ar, Option<u32>),

    /// `OPN` of a data block.
    OpenDb(OpenArg),

    /// `OPN` of an instance.
    OpenDi(OpenArg),

    /// `CDB`, which exchanges the DB and the DI register.
    ExchangeDb,

    /// `NOP` and `BLD`, which do nothing.
    Nop,

    /// A jump to the instruction at this position of the body.
    Jump(JumpTest, u32),

    /// `LOOP`, which counts the low word of ACCU1 down and jumps to this position where it is not 0.
    Loop(u32),

    /// `JL`, with the number of the `JU` after it, and the position of its label, which is after these.
    JumpList(u8, u32),

    /// `BE`, `BEU` and the end word of a block.
    BlockEnd,

    /// `BEC`, which ends its block where the RLO is 1.
    BlockEndIf,

    /// `CALL` and `UC`.
    Call(BlockCall),

    /// `CC`, which calls where the RLO is 1.
    CallIf(BlockCall),
}

/// An instruction, with the line of its first token.
#[derive(Drop)]
pub struct Instr {
    pub line: Line,
    pub op: Op,
}

/// How a called block and its caller share a formal.
#[derive(Clone, Copy)]
pub enum Mode {
    Input,
    Output,
    InOut,
}

/// A formal of a block, with its place in the instance of a function block.
#[derive(Drop)]
pub struct Formal {
    pub name: List<u8>,
    pub mode: Mode,
    pub width: Width,
    pub byte: u32,
    pub bit: u8,
}

/// A block, with the line of its heading. The last instruction of its body is that of its end word.
#[derive(Drop)]
pub struct Block {
    pub name: BlockName,
    pub line: Line,
    pub formals: List<Formal>,
    pub body: List<Instr>,
}

/// A data block that is an instance of a function block.
#[derive(Clone, Copy)]
pub struct Instance {
    pub db: u16,
    pub fb: u16,
}

/// A name of the symbol table for a place.
#[derive(Drop)]
pub struct Symbol {
    pub name: List<u8>,
    pub place: Place,
    pub width: Width,
}

/// A text: its data blocks in ascending order of their numbers; and its instances, blocks and symbols in
/// the order of the text.
#[derive(Drop)]
pub struct Program {
    pub dbs: List<DataBlock>,
    pub instances: List<Instance>,
    pub blocks: List<Block>,
    pub symbols: List<Symbol>,
}
