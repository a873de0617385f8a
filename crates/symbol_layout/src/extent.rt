//! Extents: the alignments and the lengths of types, in bits.
ghost use Rattle.std.specs.Prelude.{◌≡◌, ◌+◌, ◌*◌, ◌≤◌, ◌^◌};
ghost use Rattle.stl_rules.specs.Extents.{elements_in, end_behind, end_of_all, end_of_sections, extent_of, extent_of_width, even_extent, indices_in, place_behind, section_behind, width_of};
ghost use Rattle.symbol_layout.specs.Kept.{IsAlignment, sections_now, capped_bits, capped_extent};
ghost use Rattle.symbol_layout.specs.Structs.{AreBits, struct_in};

use s7_base::Width;
use stl_rules::Extent;
use stl_tree::{DeclType, Declaration, ElemType};

/// A number of bits above any limit: 2^60. More bits than these are kept as this number.
pub const MOST_BITS: u64 = 1 << 60;

/// The width of an elementary type.
pub fn width_of(kind: ElemType) -> Width
    ensures { result ≡ width_of kind }
{
    match kind {
        ElemType::Bool => Width::Bit,
        ElemType::Byte | ElemType::Char => Width::Byte,
        ElemType::Word | ElemType::Int => Width::Word,
        ElemType::Dword | ElemType::Dint => Width::Dword,
    }
}

/// The extent of a number of a width.
pub fn extent_of_width(width: Width) -> Extent
    ensures same { result ≡ extent_of_width width }
    ensures alignment { IsAlignment result.alignment }
    ensures few { result.bits ≤ 32 }
{
    match width {
        Width::Bit => Extent {
            alignment: 1,
            bits: 1,
        },
        Width::Byte => Extent {
            alignment: 8,
            bits: 8,
        },
        Width::Word => Extent {
            alignment: 16,
            bits: 16,
        },
        Width::Dword => Extent {
            alignment: 16,
            bits: 32,
        },
    }
}

/// The extent of this many bits from an even byte on, filled up to an even length.
pub fn even_extent(bits: u64) -> Extent
    requires { bits ≤ 2 ^ 60 }
    ensures same { result ≡ even_extent bits }
    ensures alignment { IsAlignment result.alignment }
    ensures few { result.bits ≤ 2 ^ 60 }
{
    Extent {
        alignment: 16,
        bits: bits.next_multiple_of(16),
    }
}

/// A product of lengths, at most 2^60.
pub fn product(a: u64, b: u64) -> u64
    ensures { result ≡ capped_bits (a * b) }
{
    a.saturating_mul(b).min(MOST_BITS)
}

/// A sum of lengths, at most 2^60.
pub fn sum(a: u64, b: u64) -> u64
    ensures { result ≡ capped_bits (a + b) }
{
    a.saturating_add(b).min(MOST_BITS)
}

/// How many indices a dimension has.
pub fn indices_in(bounds: (i64, i64)) -> u64
    ensures { result ≡ capped_bits (indices_in bounds) }
{
    if bounds.1 < bounds.0 {
        0
    } else {
        sum(bounds.1.abs_diff(bounds.0), 1)
    }
}

/// How many elements an array has.
#[tactic(auto, using(crate::proofs::Capped::capped_laws))]
pub fn elements_in(bounds: &[(i64, i64)]) -> u64
    ensures { result ≡ capped_bits (elements_in bounds.now) }
{
    let mut count = 1;
    for dimension in bounds {
        count = product(count, indices_in(*dimension));
    }
    count
}

/// The place in bits of a component after one that ends at `end`.
#[tactic(auto, using(crate::proofs::Capped::place_low))]
pub fn place_behind(end: u64, extent: Extent) -> u64
    requires end { end ≤ 2 ^ 60 }
    requires alignment { IsAlignment extent.alignment }
    ensures same { result ≡ place_behind end extent }
    ensures few { result ≤ 2 ^ 60 }
{
    end.next_multiple_of(extent.alignment)
}

/// The end in bits of a component after one that ends at `end`.
pub fn end_behind(end: u64, extent: Extent) -> u64
    requires end { end ≤ 2 ^ 60 }
    requires alignment { IsAlignment extent.alignment }
    ensures { result ≡ capped_bits (end_behind end extent) }
{
    sum(place_behind(end, extent), extent.bits)
}

/// The extent of a type, where the STRUCT inside has this many bits.
#[tactic(auto, using(crate::proofs::Structs::extent_laws, crate::proofs::Structs::array_bits))]
pub fn extent_by(ty: &DeclType, bits: u64) -> Extent
    ensures same { AreBits bits (struct_in ty.now) → result ≡ capped_extent (extent_of ty.now) }
    ensures alignment { IsAlignment result.alignment }
{
    match ty {
        DeclType::Elementary(kind) => extent_of_width(width_of(*kind)),
        DeclType::DateAndTime => Extent {
            alignment: 16,
            bits: 64,
        },
        DeclType::Array(bounds, element) => {
            let count = elements_in(bounds.as_slice());
            even_extent(product(count, extent_by(element.get(), bits).bits))
        }
        DeclType::Struct(_) => Extent {
            alignment: 16,
            bits,
        },
    }
}

/// The length in bits of the STRUCT inside a type; any number where none is inside.
#[cycle(extent)]
#[tactic(auto, using(crate::proofs::Structs::inner_equations))]
fn struct_bits(ty: &DeclType) -> u64
    ensures { AreBits result (struct_in ty.now) }
{
    match ty {
        DeclType::Elementary(_) => 0,
        DeclType::DateAndTime => 0,
        DeclType::Array(_, element) => struct_bits(element.get()),
        DeclType::Struct(parts) => even_extent(end_of_all(0, parts.as_slice())).bits,
    }
}

/// The end in bits of declarations, one after another, from `start` on.
#[cycle(extent)]
#[tactic(auto, using(crate::proofs::Capped::capped_end))]
pub fn end_of_all(start: u64, decls: &[Declaration]) -> u64
    requires { start ≤ 2 ^ 60 }
    ensures { result ≡ capped_bits (end_of_all start decls.now) }
{
    let mut end = start;
    for d in decls {
        end = end_behind(end, extent_by(&d.ty, struct_bits(&d.ty)));
    }
    end
}

/// The extent of a type.
pub fn extent_of(ty: &DeclType) -> Extent
    ensures same { result ≡ capped_extent (extent_of ty.now) }
    ensures alignment { IsAlignment result.alignment }
{
    extent_by(ty, struct_bits(ty))
}

/// The beginning in bits of a section after one that ends at `end`.
#[tactic(auto, using(crate::proofs::Capped::place_low))]
pub fn section_behind(end: u64) -> u64
    requires { end ≤ 2 ^ 60 }
    ensures same { result ≡ section_behind end }
    ensures few { result ≤ 2 ^ 60 }
{
    end.next_multiple_of(16)
}

/// The end in bits of sections, one after another.
pub fn end_of_sections(sections: &[&[Declaration]]) -> u64
    ensures { result ≡ capped_bits (end_of_sections 0 (sections_now sections.now)) }
{
    let mut end = 0;
    for section in sections {
        end = end_of_all(section_behind(end), section);
    }
    end
}
