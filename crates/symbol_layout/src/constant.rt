//! Which constants fit a width.
ghost use Rattle.std.specs.Prelude.{◌≡◌};
ghost use Rattle.stl_statement_grammar.specs.Constants.{fits};

use s7_base::Width;
use stl_tree::Constant;

/// Whether a constant fits a width: its own, a greater one where it is binary, a double word where it is a
/// plain number.
pub fn fits(width: Width, constant: Constant) -> bool
    ensures { result ≡ fits width constant }
{
    match (width, constant.width) {
        (Width::Byte, Width::Byte) | (Width::Word, Width::Word) | (Width::Dword, Width::Dword) => {
            true
        }
        (Width::Word | Width::Dword, Width::Byte) => constant.binary,
        (Width::Dword, Width::Word) => constant.binary || constant.signed,
        _ => false,
    }
}
