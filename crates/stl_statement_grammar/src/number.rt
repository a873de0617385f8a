//! What binary digits are.

/// Binary digits: how many, and their number.
#[derive(Clone, Copy)]
pub struct Bits {
    pub count: u32,
    pub value: u32,
}
