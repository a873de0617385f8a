//! Initial values: which ones a type may have.
ghost use Rattle.std.specs.Prelude.{◌≡◌};
ghost use Rattle.std.specs.List.{list_all};
ghost use Rattle.stl_rules.specs.DeclarationRules.{all_fit, are_values, elementary, fits_width, is_bit, is_plain_byte, takes, values_in};
ghost use Rattle.symbol_layout.specs.Kept.{capped_bits};
ghost use Rattle.symbol_layout.specs.inner.Capped.{capped_takes};

use crate::constant::fits;
use crate::extent::{elements_in, product, sum, width_of};
use s7_base::Width;
use stl_tree::{Constant, DeclType, ElemType, InitialItem};

fn is_plain_byte(width: Width, constant: Constant) -> bool
    ensures { result ≡ is_plain_byte width constant }
{
    match width {
        Width::Byte => constant.signed && constant.value <= 255,
        _ => false,
    }
}

fn is_bit(width: Width) -> bool
    ensures { result ≡ is_bit width }
{
    matches!(width, Width::Bit)
}

/// Whether a constant is a value of a width.
pub fn fits_width(width: Width, constant: Constant) -> bool
    ensures { result ≡ fits_width width constant }
{
    match width {
        Width::Bit => is_bit(constant.width),
        _ => fits(width, constant) || is_plain_byte(width, constant),
    }
}

/// The elementary type that a type is, if it is one.
#[tactic(auto, using(stl_rules::proofs::Equations::elementary_equations))]
pub fn elementary(ty: &DeclType) -> Option<ElemType>
    ensures { result ≡ elementary ty.now }
{
    match ty {
        DeclType::Elementary(kind) => Some(*kind),
        DeclType::DateAndTime => None,
        DeclType::Array(_, _) => None,
        DeclType::Struct(_) => None,
    }
}

/// The elementary type of the initial values of a type, and how many there may be.
#[tactic(auto, using(stl_rules::proofs::Equations::takes_equations))]
fn takes(ty: &DeclType) -> Option<(ElemType, u64)>
    ensures { result ≡ capped_takes (takes ty.now) }
{
    match ty {
        DeclType::Elementary(kind) => Some((*kind, 1)),
        DeclType::DateAndTime => None,
        DeclType::Array(bounds, element) => {
            let kind = elementary(element.get())?;
            Some((kind, elements_in(bounds.as_slice())))
        }
        DeclType::Struct(_) => None,
    }
}

/// How many values there are.
#[tactic(auto, using(crate::proofs::Capped::counts))]
fn values_in(items: &[InitialItem]) -> u64
    ensures { result ≡ capped_bits (values_in items.now) }
{
    let mut count = 0;
    for item in items {
        let more = product(u64::from(item.count), item.values.len() as u64);
        count = sum(count, more);
    }
    count
}

fn all_fit(width: Width, items: &[InitialItem]) -> bool
    ensures { result ≡ all_fit width items.now }
{
    items
        .iter()
        .all(|item| are_of_width(width, item.values.as_slice()))
}

fn are_of_width(width: Width, values: &[Constant]) -> bool
    ensures { result ≡ list_all (fits_width width) values.now }
{
    values.iter().all(|value| fits_width(width, *value))
}

/// Whether a type may have these values.
pub fn are_values(ty: &DeclType, items: &[InitialItem]) -> bool
    ensures { result ≡ are_values (takes ty.now) items.now }
{
    match takes(ty) {
        None => items.is_empty(),
        Some((kind, most)) => all_fit(width_of(kind), items) && values_in(items) <= most,
    }
}
