//! Laws of instructions: what an instruction does depends on no register but those that it reads, it keeps
//! registers and memory in their ranges, and its accesses follow the tests of `located`.
//!
//! Uses `stl_tree`, whose table of instructions these laws are about, and `st_tree`, whose proofs show that
//! writes keep a memory of bytes. It computes nothing: the contracts of its functions are the laws.
#![tactic(auto)]

ghost use Rattle.instruction_laws.specs.InstructionLaws.{AccessesAreLocated, CallsKeepRanges, EffectsDependOnReads, RangesAreKept};

/// What an instruction does depends on no register but those that it reads.
pub fn effects_depend_on_reads()
    ensures { EffectsDependOnReads }
{}

/// An instruction keeps registers and memory in their ranges.
pub fn ranges_are_kept()
    ensures { RangesAreKept }
{}

/// A call, and the end of the block that it began, keep registers and memory in their ranges.
pub fn calls_keep_ranges()
    ensures { CallsKeepRanges }
{}

/// An access reaches the place that its operand is aimed at, or has the fault of the first test that is true
/// there.
pub fn accesses_are_located()
    ensures { AccessesAreLocated }
{}
