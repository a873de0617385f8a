//! What mnemonics are, the forms of their operands, and what is read of an operand.

use s7_base::{Check, Kind, Width};
use status_word::Test;
use stl_tree::{Ar, Arith, JumpTest, LogicRow, ShiftRow, UnaryRow};

/// What a mnemonic is.
#[derive(Clone, Copy, Debug, PartialEq, Eq)]
pub enum Mnemonic {
    /// A check of a bit or of the status word; `O` may be without operand.
    Check(Check),

    /// A check with a bracket.
    Bracket(Check),

    /// `)`, which closes a bracket.
    Close,

    /// `=`, which assigns the RLO to a bit.
    Assign,

    /// `S`, which sets a bit where the RLO is 1.
    Set,

    /// `R`, which resets a bit where the RLO is 1.
    Reset,

    /// `SET`, which sets the RLO.
    SetRlo,

    /// `CLR`, which clears the RLO.
    ClearRlo,

    /// `NOT`, which inverts the RLO.
    NotRlo,

    /// `SAVE`, which copies the RLO to BR.
    Save,

    /// `FP`, which detects a rising edge of the RLO.
    EdgeUp,

    /// `FN`, which detects a falling edge of the RLO.
    EdgeDown,

    /// `L`, which loads a value into ACCU1.
    Load,

    /// `T`, which stores ACCU1.
    Transfer,

    /// Arithmetic, `+I` to `MOD`.
    Arith(Arith),

    /// `==I` to `<=D`, on words or on double words.
    Compare(Test, Width),

    /// `+` with a number.
    Plus,

    /// `INC`, which adds to the lowest byte of ACCU1.
    Inc,

    /// `DEC`, which subtracts from the lowest byte of ACCU1.
    Dec,

    /// A shift or a rotation; a count may follow.
    Shift(ShiftRow),

    /// `RLDA`, which rotates ACCU1 and CC1 to the left.
    Rlda,

    /// `RRDA`, which rotates ACCU1 and CC1 to the right.
    Rrda,

    /// Word logic; a constant may follow.
    Logic(LogicRow),

    /// An instruction on ACCU1 alone, `BTI` to `NEGD`.
    Unary(UnaryRow),

    /// `TAK`, which exchanges ACCU1 and ACCU2.
    Tak,

    /// `PUSH`, which copies ACCU1 to ACCU2.
    Push,

    /// `POP`, which copies ACCU2 to ACCU1.
    Pop,

    /// `LAR1` and `LAR2`, which load an address register.
    LoadAr(Ar),

    /// `TAR1` and `TAR2`, which store an address register.
    StoreAr(Ar),

    /// `CAR`, which exchanges AR1 and AR2.
    ExchangeAr,

    /// `+AR1` and `+AR2`, which add to an address register.
    AddAr(Ar),

    /// `OPN`, which opens a data block.
    Open,

    /// `CDB`, which exchanges the open data block and the open instance.
    ExchangeDb,

    /// `NOP` and `BLD`, with a number that says nothing.
    Nop,

    /// A jump to a label, `JU` to `JUO`.
    Jump(JumpTest),

    /// `LOOP`, which counts the low word of ACCU1 down and jumps to a label.
    Loop,

    /// `JL`, which begins a jump list.
    JumpList,

    /// `BE` and `BEU`, which end their block.
    BlockEnd,

    /// `BEC`, which ends its block where the RLO is 1.
    BlockEndIf,

    /// `FR` and `LC`, which are not supported, of the kind of their operand.
    TimerOrCounter,

    /// `CALL`, of a function with its actuals or of an instance of a function block.
    Call,

    /// `UC`, of a function without formals.
    CallAlone,

    /// `CC`, of a function without formals where the RLO is 1.
    CallIf,

    /// A form of this kind, which is not supported whatever its operand is.
    LeftOut(Kind),
}

/// What the operand of a mnemonic may be.
#[derive(Clone, Copy)]
pub enum OperandForm {
    /// No operand.
    Nothing,

    /// A bit, which may be written as a place of any width.
    Bit,

    /// A bit, or a test of the status word.
    Checked,

    /// A bit, a test of the status word, or no operand.
    CheckedOrNothing,

    /// A number from 0 to this one.
    Number(u8),

    /// A number from 0 to this one, or no operand.
    NumberOrNothing(u8),

    /// A plain number or one with `L#`.
    Addend,

    /// A place, a constant, the status word, or the number of the open data block.
    Loaded,

    /// A place or the status word.
    Stored,

    /// A constant, or no operand.
    ConstantOrNothing,

    /// What this address register is loaded with, or no operand.
    PointerLoaded(Ar),

    /// Where this address register is stored, or no operand.
    PointerStored(Ar),

    /// An offset, or no operand.
    OffsetOrNothing,

    /// A data block that is opened.
    Opened,

    /// A label.
    Label,

    /// A timer or a counter, which are not supported.
    TimerOrCounter,

    /// A block, and what is given to its formals.
    Called,

    /// A function without formals.
    CalledAlone,

    /// Any operand: the form is of this kind, which is not supported.
    LeftOut(Kind),
}

/// What follows the `#` of a constant.
#[derive(Clone, Copy)]
pub enum Prefix {
    /// A number with its sign, of a double word.
    Long,

    /// `16#` and hexadecimal digits, of this width.
    Hex(Width),

    /// `16#` and hexadecimal digits of a byte, or bytes in brackets.
    Bytes,

    /// Binary digits of any width.
    Binary,

    /// A pointer to a name with another `#`, which is not supported; other pointers are no such constants.
    Pointer,

    /// Any constant of this kind, which is not supported.
    LeftOut(Kind),
}

/// What the tokens of an operand begin with.
#[derive(Drop)]
pub enum Read<T> {
    /// A form that fits, with the number of its tokens.
    Fits(T, usize),

    /// A listed form of this kind, which is not supported, whatever follows.
    LeftOut(Kind),

    /// No form that fits, and no listed form.
    No,
}
