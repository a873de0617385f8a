//! The templates of bit logic: the statements of checks, brackets, edges and of what sets a bit or the RLO.
//!
//! Uses `template_parts`. What an instruction does is a definition of `stl_tree` and `status_word`. The code
//! appends the statements of an instruction and gives the types of their locals. `bit_logic_serves` promises
//! of them what `Serves` asks; and of brackets that the locals keep what a bracket kept.
#![tactic(auto)]

ghost use Rattle.bit_templates.specs.BitLaw.{BitLogicServes};

pub use bits::{
    push_assigned, push_falling, push_inverted, push_reset, push_rising, push_rlo, push_saved,
    push_set, types_of_edge,
};
pub use brackets::{push_closed, push_opened, types_of_bracket};
pub use chain::{Chain, OpenBracket};
pub use checks::{answer, push_checked, push_or_alone, types_checked};

mod bits;
mod brackets;
mod chain;
mod checks;

/// The statements of each instruction of bit logic do what it does. They read the registers alone that it reads, are
/// at most eleven with at most 91 nodes of expressions, and are well typed and low; no division in them has a fault,
/// and their locals are written before they are read. A bracket that is opened is kept in three locals, and those of
/// one that is closed do its check in the chain that they kept.
pub fn bit_logic_serves()
    ensures { BitLogicServes }
{}
