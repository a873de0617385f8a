//! The operand of an instruction, with all names in it resolved.

use memory_areas::AreaName;
use s7_base::Width;
use status_word::Test;
use stl_tree::{Constant, Operand};

/// The operand of an instruction, with all names in it resolved.
#[derive(Clone, Copy)]
pub enum ResolvedOperand {
    Nothing,

    /// A place of this width in its area, or one that a pointer names.
    At(Operand, Width),

    /// A place of this area and width that has a number outside its range, or is named by a pointer that has one.
    Outside(AreaName, Width),

    /// A test of the status word.
    Flag(Test),

    /// The status word.
    Stw,

    /// The number in the DB register.
    DbNo,

    /// The number in the DI register.
    DiNo,

    /// A constant; a pointer is one of a double word.
    Constant(Constant),

    /// A pointer whose byte or bit is outside its range.
    NoPointer,

    /// The other address register.
    OtherAr,

    /// The number of a data block that is opened.
    Db(u16),

    /// The number of an instance that is opened.
    Di(u16),

    /// A word with the number of a data block that is opened.
    DbBy(Operand),

    /// A word with the number of an instance that is opened.
    DiBy(Operand),

    /// The number of a data block that none may have, or the place of one outside its area.
    NoNumber,

    /// The position of the first instruction with a label; the length of the body where none has it.
    Target(u32),

    /// A name that is not declared.
    Unknown,

    /// Something that is no operand, or a name for it.
    Unfit,

    /// A path into declarations that break a rule, which is named at the declarations.
    Unjudged,
}
