//! STL programs, raw and made, and what they do.
//!
//! Uses `s7_base` and `memory_areas`. `specs/` has the rules that each accepted program keeps, and what a
//! program does: the state that an instruction works on, what operands name, the effects of instructions,
//! calls and the run, whose laws `run_laws` proves. How a source text becomes a program is in `stl_grammar`
//! and `stl_rules`.
#![tactic(auto)]

pub use accumulator::{Arith, LogicRow, ShiftRow, UnaryRow};
pub use memory_areas::{BlockName, Call};
pub use program::{
    Actual, Ar, ArLoad, ArStore, BitArg, Block, BlockCall, Formal, Instance, Instr, JumpTest,
    LoadArg, Mode, Op, OpenArg, Operand, Program, Symbol, may_hold_pointers,
};
pub use raw::{
    BlockKind, Constant, DeclType, Declaration, Declarations, ElemType, InitialItem, PathStep,
    RawActual, RawBlock, RawCall, RawData, RawDataKind, RawInitial, RawInstr, RawName, RawOp,
    RawOperand, RawPlace, RawPointer, RawProgram, SymbolAddress, SymbolLine,
};
pub use run_laws::{end_stays, steps_add};

mod accumulator;
mod program;
mod raw;
mod run_laws;
