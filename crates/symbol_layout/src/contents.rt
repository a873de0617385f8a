//! The initial contents of declarations, bit by bit.
ghost use Rattle.std.specs.Prelude.{◌≡◌, [], ◌++◌, ◌-◌, OnOk, IfOk};
ghost use Rattle.stl_rules.specs.Contents.{bits_behind, bits_of_sections, filled_to, times, type_bits, values_of};
ghost use Rattle.stl_rules.specs.Extents.{elements_in};
ghost use Rattle.symbol_layout.specs.Kept.{sections_now};

use crate::bits::{fill, put_times, value_bits, zeros};
use crate::extent::{MOST_BITS, elements_in, extent_of, width_of};
use s7_base::NoMemory;
use std::alloc::Global;
use std::slice::from_ref;
use stl_tree::{Constant, DeclType, Declaration, InitialItem};

/// The values of some items: those in brackets this many times.
fn values_of(alloc: Global, items: &[InitialItem]) -> Result<Vec<Constant>, NoMemory>
    ensures { IfOk result (λ values. values.items ≡ values_of items.now) }
{
    let mut values = Vec::new(alloc);
    for item in items {
        put_times(&mut values, u64::from(item.count), item.values.as_slice())?;
    }
    Ok(values)
}

/// Appends the elements without a value to those that have one. More elements than any limit has bits count
/// as out of memory, unless they have none.
#[tactic(auto, using(crate::proofs::BitLists::times_none))]
fn put_blank(
    bits: &mut Vec<bool>,
    bounds: &[(i64, i64)],
    done: usize,
    blank: &[bool],
) -> Result<(), NoMemory>
    ensures { OnOk result (bits.new.items ≡ bits.old.items ++ times (elements_in bounds.now - done) blank.now) }
{
    if blank.is_empty() {
        return Ok(());
    }
    let count = elements_in(bounds);
    if count == MOST_BITS {
        return Err(NoMemory);
    }
    put_times(bits, count.saturating_sub(done as u64), blank)
}

/// The contents of a type with some values.
#[cycle(contents)]
#[tactic(auto, using(stl_rules::proofs::Equations::bits_equations))]
fn type_bits(alloc: Global, ty: &DeclType, values: &[Constant]) -> Result<Vec<bool>, NoMemory>
    ensures { IfOk result (λ bits. bits.items ≡ type_bits ty.now values.now) }
{
    match ty {
        DeclType::Elementary(kind) => value_bits(alloc, width_of(*kind), values),
        DeclType::DateAndTime => zeros(alloc, 64),
        DeclType::Array(bounds, element) => {
            let mut bits = Vec::new(alloc);
            for value in values {
                let one = type_bits(alloc, element.get(), from_ref(value))?;
                bits.extend_from_slice(one.as_slice())?;
            }
            let blank = type_bits(alloc, element.get(), &[])?;
            put_blank(&mut bits, bounds.as_slice(), values.len(), blank.as_slice())?;
            fill(&mut bits, 16)?;
            Ok(bits)
        }
        DeclType::Struct(parts) => {
            let mut bits = Vec::new(alloc);
            put_bits(alloc, &mut bits, parts.as_slice())?;
            fill(&mut bits, 16)?;
            Ok(bits)
        }
    }
}

/// Appends the contents of declarations one after another.
#[cycle(contents)]
#[tactic(auto, using(stl_rules::proofs::Equations::laid_equations))]
fn put_bits(alloc: Global, bits: &mut Vec<bool>, decls: &[Declaration]) -> Result<(), NoMemory>
    ensures { OnOk result (bits.new.items ≡ bits_behind bits.old.items decls.now) }
{
    for d in decls {
        fill(bits, extent_of(&d.ty).alignment)?;
        let values = values_of(alloc, d.initial.as_slice())?;
        let own = type_bits(alloc, &d.ty, values.as_slice())?;
        bits.extend_from_slice(own.as_slice())?;
    }
    Ok(())
}

/// The contents of sections one after another.
pub fn bits_of_sections(alloc: Global, sections: &[&[Declaration]]) -> Result<Vec<bool>, NoMemory>
    ensures { IfOk result (λ bits. bits.items ≡ bits_of_sections [] (sections_now sections.now)) }
{
    let mut bits = Vec::new(alloc);
    for section in sections {
        fill(&mut bits, 16)?;
        put_bits(alloc, &mut bits, section)?;
    }
    Ok(bits)
}
