//! What operators and functions give for the values of their operands.
ghost use Rattle.std.specs.Prelude.{◌≡◌, ◌≢◌, ◌-◌, ◌+◌, ◌*◌, ◌/◌, ◌%◌, ◌^◌, ◌<◌, ◌≤◌, ◌+ℤ◌, ◌-ℤ◌, ◌*ℤ◌, neg_ℤ, pos, Ok, int_div, int_rem, unsigned_abs};
ghost use Rattle.st_tree.specs.Operators.{binary_value, selected_value, converted_value, division, from_digits, shift_value, shift_result, turned_left, turned_right, unary_value};
ghost use Rattle.st_tree.specs.Values.{bits_of, fit, flag, is_set, number_of, of_bits, pattern, typed, width_of};
ghost use Rattle.bcd_words.specs.Bcd.{bcd_value};
ghost use Rattle.st_tree.specs.declared.expr.ShiftOp.TheVariants.{Shl, Shr};

use bcd_words::{bcd3_to_int, bcd7_to_dint};
use s7_base::Fault;
use st_tree::{BinaryOp, ShiftOp, StType, UnaryOp, Value};

/// How many bits a value of a type has.
pub fn width_of(ty: StType) -> u32
    ensures value { result ≡ width_of ty }
    ensures few { 0 < result × (result ≤ 64) }
{
    match ty {
        StType::Bool => 1,
        StType::Byte => 8,
        StType::Word | StType::Int => 16,
        StType::Dword | StType::Dint => 32,
        StType::Lint => 64,
    }
}

fn low_bit(n: i64) -> u8
    ensures { result ≡ pattern 1 n }
{
    (n.cast_unsigned() % 2) as u8
}

/// The lowest 8 bits of a number, as the pattern of a BYTE.
pub fn low_byte(n: i64) -> u8
    ensures { result ≡ pattern 8 n }
{
    (n.cast_unsigned() & 0xff) as u8
}

/// The lowest 16 bits of a number, as the pattern of a WORD or an INT.
pub fn low_word(n: i64) -> u16
    ensures { result ≡ pattern 16 n }
{
    (n.cast_unsigned() & 0xffff) as u16
}

/// The lowest 32 bits of a number, as the pattern of a DWORD or a DINT.
pub fn low_dword(n: i64) -> u32
    ensures { result ≡ pattern 32 n }
{
    (n.cast_unsigned() & 0xffff_ffff) as u32
}

/// The number of a type that a number becomes, cut to the bits of the type.
#[inline(always)]
pub fn fit(ty: StType, n: i64) -> i64
    ensures { result ≡ fit ty n }
{
    match ty {
        StType::Bool => i64::from(low_bit(n)),
        StType::Byte => i64::from(low_byte(n)),
        StType::Word => i64::from(low_word(n)),
        StType::Dword => i64::from(low_dword(n)),
        StType::Int => i64::from(low_word(n).cast_signed()),
        StType::Dint => i64::from(low_dword(n).cast_signed()),
        StType::Lint => n,
    }
}

/// The value of a type that a number becomes.
pub fn typed(ty: StType, n: i64) -> Value
    ensures { result ≡ typed ty n }
{
    Value { ty, n: fit(ty, n) }
}

/// The pattern of a value.
fn bits_of(v: Value) -> u64
    ensures value { result ≡ bits_of v }
    ensures few { result < 2 ^ width_of v.ty }
{
    match v.ty {
        StType::Bool => u64::from(low_bit(v.n)),
        StType::Byte => u64::from(low_byte(v.n)),
        StType::Word | StType::Int => u64::from(low_word(v.n)),
        StType::Dword | StType::Dint => u64::from(low_dword(v.n)),
        StType::Lint => v.n.cast_unsigned(),
    }
}

/// The value of a type that has this pattern.
fn of_bits(ty: StType, bits: u64) -> Value
    ensures { result ≡ of_bits ty bits }
{
    typed(ty, bits.cast_signed())
}

/// A truth value as a BOOL.
pub fn flag(b: bool) -> Value
    ensures { result ≡ flag b }
{
    Value {
        ty: StType::Bool,
        n: i64::from(b),
    }
}

/// Whether a BOOL is TRUE.
pub fn is_set(v: Value) -> bool
    ensures { result ≡ is_set v }
{
    v.n != 0
}

#[tactic(auto, using(crate::proofs::Wraps::fit_negation))]
fn negation(v: Value) -> Value
    ensures { result ≡ typed v.ty (neg_ℤ v.n) }
{
    typed(v.ty, v.n.wrapping_neg())
}

#[tactic(auto, using(crate::proofs::Wraps::fit_sum))]
fn sum(v: Value, w: Value) -> Value
    ensures { result ≡ typed v.ty (v.n +ℤ w.n) }
{
    typed(v.ty, v.n.wrapping_add(w.n))
}

#[tactic(auto, using(crate::proofs::Wraps::fit_difference))]
fn difference(v: Value, w: Value) -> Value
    ensures { result ≡ typed v.ty (v.n -ℤ w.n) }
{
    typed(v.ty, v.n.wrapping_sub(w.n))
}

#[tactic(auto, using(crate::proofs::Wraps::fit_product))]
fn product(v: Value, w: Value) -> Value
    ensures { result ≡ typed v.ty (v.n *ℤ w.n) }
{
    typed(v.ty, v.n.wrapping_mul(w.n))
}

#[tactic(auto, using(crate::proofs::Wraps::fit_quotient))]
fn truncated_quotient(v: Value, w: Value) -> Value
    requires { w.n ≢ pos 0 }
    ensures { result ≡ typed v.ty (int_div v.n w.n) }
{
    typed(v.ty, v.n.wrapping_div(w.n))
}

fn quotient(v: Value, w: Value) -> Result<Value, Fault>
    ensures { result ≡ division int_div v w }
{
    if w.n == 0 {
        return Err(Fault::DivideByZero);
    }
    Ok(truncated_quotient(v, w))
}

fn remainder(v: Value, w: Value) -> Result<Value, Fault>
    ensures { result ≡ division int_rem v w }
{
    if w.n == 0 {
        return Err(Fault::DivideByZero);
    }
    Ok(typed(v.ty, v.n.wrapping_rem(w.n)))
}

/// The value of NOT, which inverts each bit.
fn inversion(v: Value) -> Value
    ensures { result ≡ of_bits v.ty (2 ^ width_of v.ty - 1 - bits_of v) }
{
    of_bits(v.ty, u64::MAX - bits_of(v))
}

/// The value of an operator before its operand.
pub fn unary(op: UnaryOp, v: Value) -> Result<Value, Fault>
    ensures { result ≡ unary_value op v }
{
    match op {
        UnaryOp::Minus => Ok(negation(v)),
        UnaryOp::Not => Ok(inversion(v)),
        UnaryOp::BcdToInt => Ok(typed(StType::Int, i64::from(bcd3_to_int(low_word(v.n))?))),
        UnaryOp::BcdToDint => Ok(typed(StType::Dint, i64::from(bcd7_to_dint(low_dword(v.n))?))),
    }
}

/// The value of an operator between its operands.
#[inline(always)]
pub fn binary(op: BinaryOp, v: Value, w: Value) -> Result<Value, Fault>
    ensures { result ≡ binary_value op v w }
{
    match op {
        BinaryOp::Mul => Ok(product(v, w)),
        BinaryOp::Div => quotient(v, w),
        BinaryOp::Mod => remainder(v, w),
        BinaryOp::Add => Ok(sum(v, w)),
        BinaryOp::Sub => Ok(difference(v, w)),
        BinaryOp::Lt => Ok(flag(v.n < w.n)),
        BinaryOp::Gt => Ok(flag(v.n > w.n)),
        BinaryOp::Le => Ok(flag(v.n <= w.n)),
        BinaryOp::Ge => Ok(flag(v.n >= w.n)),
        BinaryOp::Eq => Ok(flag(v.n == w.n)),
        BinaryOp::Ne => Ok(flag(v.n != w.n)),
        BinaryOp::And => Ok(of_bits(v.ty, bits_of(v) & bits_of(w))),
        BinaryOp::Xor => Ok(of_bits(v.ty, bits_of(v) ^ bits_of(w))),
        BinaryOp::Or => Ok(of_bits(v.ty, bits_of(v) | bits_of(w))),
    }
}

/// A value in another type.
pub fn converted_value(ty: StType, v: Value) -> Value
    ensures { result ≡ converted_value ty v }
{
    typed(ty, v.n)
}

/// The second value where the gate is TRUE, else the first.
pub fn selected_value(gate: Value, v: Value, w: Value) -> Value
    ensures { result ≡ selected_value gate v w }
{
    Value {
        ty: v.ty,
        n: if is_set(gate) { w.n } else { v.n },
    }
}

/// The lowest `j` bits of a pattern, `k` bits further up.
fn moved_up(bits: u64, j: u32, k: u32) -> u64
    requires { 0 < j × 0 < k × (j + k ≤ 64) }
    ensures value { result ≡ bits % 2 ^ j * 2 ^ k }
    ensures few { result + 2 ^ k ≤ 2 ^ (j + k) }
{
    (bits % (1 << j)) << k
}

/// A pattern of `j + k` bits, turned to the left by `k`.
fn rotation(bits: u64, j: u32, k: u32) -> u64
    requires sizes { 0 < j × 0 < k × (j + k ≤ 64) }
    requires bits { bits < 2 ^ (j + k) }
    ensures { result ≡ bits % 2 ^ j * 2 ^ k + bits / 2 ^ j }
{
    moved_up(bits, j, k) + (bits >> j)
}

#[tactic(auto, using(crate::proofs::Shifts::shifts_none, crate::proofs::Shifts::shifts))]
fn shifted_left(width: u32, bits: u64, count: u64) -> u64
    requires { 0 < width × (width ≤ 64) × (bits < 2 ^ width) }
    ensures { result ≡ shift_result Shl width bits count }
{
    if count >= u64::from(width) {
        return 0;
    }
    if count == 0 {
        return bits;
    }
    let k = count as u32;
    moved_up(bits, width - k, k)
}

fn shifted_right(width: u32, bits: u64, count: u64) -> u64
    requires { 0 < width × (width ≤ 64) × (bits < 2 ^ width) }
    ensures { result ≡ shift_result Shr width bits count }
{
    if count >= u64::from(width) {
        return 0;
    }
    bits >> count
}

#[tactic(auto, using(crate::proofs::Shifts::turns_none_left, crate::proofs::Shifts::turns_left))]
fn turned_left(width: u32, bits: u64, k: u32) -> u64
    requires { (width ≤ 64) × (bits < 2 ^ width) × k < width }
    ensures { result ≡ turned_left width bits k }
{
    if k == 0 {
        return bits;
    }
    rotation(bits, width - k, k)
}

#[tactic(auto, using(crate::proofs::Shifts::turns_none_right, crate::proofs::Shifts::turns_right))]
fn turned_right(width: u32, bits: u64, k: u32) -> u64
    requires { (width ≤ 64) × (bits < 2 ^ width) × k < width }
    ensures { result ≡ turned_right width bits k }
{
    if k == 0 {
        return bits;
    }
    rotation(bits, k, width - k)
}

fn shift_result(op: ShiftOp, width: u32, bits: u64, count: u64) -> u64
    requires { 0 < width × (width ≤ 64) × (bits < 2 ^ width) }
    ensures { result ≡ shift_result op width bits count }
{
    match op {
        ShiftOp::Shl => shifted_left(width, bits, count),
        ShiftOp::Shr => shifted_right(width, bits, count),
        ShiftOp::Rol => turned_left(width, bits, (count % u64::from(width)) as u32),
        ShiftOp::Ror => turned_right(width, bits, (count % u64::from(width)) as u32),
    }
}

/// A value shifted or rotated by another.
pub fn shift(op: ShiftOp, v: Value, count: Value) -> Value
    ensures { result ≡ shift_value op v count }
{
    if count.n < 0 {
        return v;
    }
    let bits = shift_result(op, width_of(v.ty), bits_of(v), count.n.unsigned_abs());
    of_bits(v.ty, bits)
}
