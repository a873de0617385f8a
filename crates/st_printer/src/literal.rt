//! Literals of their types.
ghost use Rattle.std.specs.Prelude.{◌≡◌, ◌++◌, OnOk};
ghost use Rattle.st_tree.specs.Spelling.{literal_text};

use crate::text::{put_hexadecimal, put_integer, put_text};
use s7_base::NoMemory;
use st_tree::StType;

/// Appends a literal of a type: a DINT from 0 on in plain digits, any other value with its type.
#[tactic(auto, unfolding(st_tree::specs::Spelling::literal_text))]
pub fn put_literal(out: &mut Vec<u8>, ty: StType, value: i64) -> Result<(), NoMemory>
    ensures { OnOk result (out.new.items ≡ out.old.items ++ literal_text ty value) }
{
    match ty {
        StType::Bool => put_text(out, if value == 0 { "FALSE" } else { "TRUE" }),
        StType::Byte => {
            put_text(out, "BYTE#16#")?;
            put_hexadecimal(out, 2, value.unsigned_abs())
        }
        StType::Word => {
            put_text(out, "WORD#16#")?;
            put_hexadecimal(out, 4, value.unsigned_abs())
        }
        StType::Dword => {
            put_text(out, "DWORD#16#")?;
            put_hexadecimal(out, 8, value.unsigned_abs())
        }
        StType::Int => {
            put_text(out, "INT#")?;
            put_integer(out, value)
        }
        StType::Dint => {
            put_text(out, if value < 0 { "DINT#" } else { "" })?;
            put_integer(out, value)
        }
        StType::Lint => {
            put_text(out, "LINT#")?;
            put_integer(out, value)
        }
    }
}
