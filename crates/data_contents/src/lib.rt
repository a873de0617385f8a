//! What a data block of a source holds: its bytes, or the first rule that it breaks, and data blocks in the
//! order of their numbers.
//!
//! Uses `symbol_layout` for the layout of the declarations, `component_index` for the components that initial
//! values name, and `stl_rules` for what data blocks are.
#![tactic(auto)]

mod content;
mod order;
mod values;
mod writes;

pub use content::{Content, content_of};
pub use order::in_order;
pub use values::first_of_values;
