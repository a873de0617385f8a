//! What names mean in a block: the operand of an instruction, with all names in it resolved.
//!
//! Uses `stl_rules`, which has all of this as definitions, `name_tables` for the names of a text, `block_variables`
//! for the variables of its blocks, `component_index` for its data blocks, `body_labels` for the labels of a body
//! and `instruction_operands` for what is found.
#![tactic(auto)]

pub use declarations::IndexedDeclarations;
pub use scope::OperandScope;

mod declarations;
mod scope;
