//! Reads the body of a unit of Structured Text: the state of the parser in expressions and statements after
//! one more token, and whether the token makes a level too many.
//!
//! Uses `st_grammar`, and gives what the pass defined there does. It knows no declarations, and not which
//! names may be declared.
#![tactic(auto)]

pub use body_state::{
    Argument, BegunActual, BegunCaseArm, BegunIfArm, BegunStatement, BegunWrite, BodyState, Call,
    Cases, Frame, Need, OuterStatement, Part, Place,
};
pub use depth::is_deep_at;
pub use expression::BoxedExpression;
pub use statement::step;

mod body_state;
mod depth;
mod expression;
mod need;
mod operand;
mod statement;
