//! Variables.
ghost use Rattle.std.specs.Prelude.{◌≡◌, ◌++◌, codes, OnOk};
ghost use Rattle.st_tree.specs.Words.{type_word};
ghost use Rattle.st_tree.specs.Spelling.{bit_text, place_text, var_text, names_in};

use crate::names::{global_name, local_name};
use crate::text::{put_bytes, put_number, put_text};
use s7_base::{NoMemory, Width};
use st_tree::{Pou, StProgram, StType, Var, area_word, register_word, type_word, width_word};

/// Appends a point and the number of a bit, which only a bit shows.
fn put_bit(out: &mut Vec<u8>, width: Width, bit: u8) -> Result<(), NoMemory>
    ensures { OnOk result (out.new.items ≡ out.old.items ++ bit_text width bit) }
{
    match width {
        Width::Bit => {
            put_text(out, ".")?;
            put_number(out, u64::from(bit))
        }
        Width::Byte | Width::Word | Width::Dword => Ok(()),
    }
}

/// Appends a place after the letters of its area, as `X0.0` or `W10`.
pub fn put_place(out: &mut Vec<u8>, width: Width, byte: u32, bit: u8) -> Result<(), NoMemory>
    ensures { OnOk result (out.new.items ≡ out.old.items ++ place_text width byte bit) }
{
    put_text(out, width_word(width))?;
    put_number(out, u64::from(byte))?;
    put_bit(out, width, bit)
}

/// Appends a variable of a unit: a register or a name as it is declared, a direct variable as `%MW10` or
/// `%DB5.DBW4`.
pub fn put_var(out: &mut Vec<u8>, tree: &StProgram, unit: &Pou, var: Var) -> Result<(), NoMemory>
    ensures { OnOk result (out.new.items ≡ out.old.items ++ var_text (names_in tree.now unit.now) var) }
{
    match var {
        Var::Register(register) => put_text(out, register_word(register)),
        Var::Local(position) => put_bytes(out, local_name(unit.locals.as_slice(), position)),
        Var::Formal(position) => put_bytes(out, local_name(unit.formals.as_slice(), position)),
        Var::Global(position) => put_bytes(out, global_name(tree.globals.as_slice(), position)),
        Var::Direct(area, byte, bit, width) => {
            put_text(out, "%")?;
            put_text(out, area_word(area))?;
            put_place(out, width, byte, bit)
        }
        Var::InBlock(block, byte, bit, width) => {
            put_text(out, "%DB")?;
            put_number(out, u64::from(block))?;
            put_text(out, ".DB")?;
            put_place(out, width, byte, bit)
        }
    }
}

/// Appends the type of a declaration, to the end of its line.
pub fn put_type(out: &mut Vec<u8>, ty: StType) -> Result<(), NoMemory>
    ensures { OnOk result (out.new.items ≡ out.old.items ++ codes " : " ++ type_word ty ++ codes ";\n") }
{
    put_text(out, " : ")?;
    put_text(out, type_word(ty))?;
    put_text(out, ";\n")
}
