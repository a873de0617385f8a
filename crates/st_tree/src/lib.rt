//! The tree of an ST text, how a tree is spelled, and what it does.
//!
//! Uses `s7_base`, `digit_texts`, `memory_areas`, `address_registers` and `bcd_words`. The trees are those of
//! the whole language, and so are the raw trees, which have names as texts and lines, and the tokens.
//! `specs/` defines the canonical spelling of every tree and the types of expressions; the value of an
//! expression, the meaning of statements and the run of a unit (`run_laws`); and which trees a text can have,
//! whose runs keep types (`type_laws`). How a text is read is in `st_lexer`, `st_types` and `st_parser`.
#![tactic(auto)]

pub use expr::{BinaryOp, Expr, ShiftOp, StType, UnaryOp, Var};
pub use graph::{GraphPou, GraphProgram, StExit, StGraph, StNode};
pub use memory_areas::AreaName;
pub use names::{
    is_free, is_name, is_unreserved, key_of, may_name_global, may_name_local, may_name_unit,
    names_block,
};
pub use program::{Arm, CaseArm, Local, Located, Pou, StProgram, Stmt};
pub use raw::{
    RawArm, RawCaseArm, RawExpr, RawGlobal, RawGlobalType, RawLocal, RawPou, RawSt, RawStmt,
    RawStmtKind, RawVar,
};
pub use state::{Reference, Value};
pub use token::{StKind, StToken};
pub use type_rules::{
    has_width, is_selector, is_type, type_of_binary, type_of_choice, type_of_conversion,
    type_of_read, type_of_shift, type_of_unary,
};
pub use types::{type_of_register, type_of_width, width_at};
pub use words::{
    area_word, infix_level_of, operator_word, prefix_level_of, prefix_word, register_word,
    shift_word, type_word, width_word,
};

mod expr;
mod graph;
pub mod graph_laws;
mod names;
mod program;
mod raw;
pub mod run_laws;
mod state;
mod token;
pub mod tree_laws;
pub mod type_laws;
mod type_rules;
mod types;
mod words;
