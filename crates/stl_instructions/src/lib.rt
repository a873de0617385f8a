//! Reads the tokens of one statement of STL, without its `;`: its mnemonic and its operand.
//!
//! Uses `stl_mnemonics` for the mnemonic at the front, `stl_constants` and `stl_places` for the parts of
//! operands, and `stl_statement_grammar`, which has the forms of operands as definitions. `instruction` gives
//! exactly the instruction of the tokens, or its refusal; `instructions_have_forms` is the law that the
//! functions of `stl_statement_grammar` and its forms say the same.
#![tactic(auto)]

pub use laws::instructions_have_forms;
pub use statement::{begins_with_label, instruction};

mod call;
mod laws;
mod located;
mod opened;
mod operand;
mod statement;
