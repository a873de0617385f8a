//! The statements of the conversions from and to numbers in decimal digits: BTI, BTD, ITB and DTB.
//!
//! Uses `template_parts`, of whose parts they are made. The code appends them and gives the types of their
//! locals. The crate promises that they do what the instructions do, and what else is asked of a template
//! (`digits_serve`).
#![tactic(auto)]

ghost use Rattle.digit_templates.specs.DigitLaw.{DigitsServe};

pub use from_digits::{push_btd, push_bti, types_of_btd, types_of_bti};
pub use to_digits::{push_dtb, push_itb, types_of_dtb, types_of_itb};

mod from_digits;
mod to_digits;

/// The statements of BTI, BTD, ITB and DTB do what the instruction does. They read the registers alone that it reads,
/// are at most eleven with at most 91 nodes of expressions, and are well typed, low and without a fault by division;
/// their locals are written before they are read.
pub fn digits_serve()
    ensures { DigitsServe }
{}
