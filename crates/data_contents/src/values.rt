//! Initial values: the rules that they break, and their writes.
ghost use Rattle.std.specs.Prelude.{◌≡◌, ◌++◌, length, IfOk, IfSome, OnOk};
ghost use Rattle.std.specs.List.{flat_map, fold};
ghost use Rattle.data_contents.specs.inner.Inside.{AreInside, IsInside};
ghost use Rattle.s7_base.specs.Broken.{first_of_all};
ghost use Rattle.stl_rules.specs.DataBlocks.{with_constant, with_value, with_value_at};
ghost use Rattle.stl_rules.specs.Stages.{breaks_at, fits_kind, initial_breaks};

use crate::writes::put_number;
use component_index::Components;
use s7_base::{Break, List, NoMemory, Reason, first_of_all, note};
use std::alloc::Global;
use stl_rules::Component;
use stl_tree::{Constant, ElemType, RawInitial};
use symbol_layout::{fits_width, value_in, width_of};

/// Whether a constant is a value of a component of this type.
fn fits_kind(value: Constant, kind: Option<ElemType>) -> bool
    ensures { result ≡ fits_kind value kind }
{
    match kind {
        None => false,
        Some(kind) => fits_width(width_of(kind), value),
    }
}

/// Notes the rule that an initial value breaks at the component that its path names.
fn judge(v: &RawInitial, at: Option<Component>, breaks: &mut List<Break>) -> Result<(), NoMemory>
    ensures { OnOk result (breaks.new ≡ breaks.old ++ breaks_at v.now at) }
{
    match at {
        None => note(breaks, v.line, Reason::UnknownName),
        Some(at) => {
            if fits_kind(v.value, at.kind) {
                Ok(())
            } else {
                note(breaks, v.line, Reason::BadOperand)
            }
        }
    }
}

/// Puts a value into its component, cut to the width of that.
fn put_constant(bytes: &mut [u8], at: Component, value: Constant)
    requires { IsInside (length bytes.old) at }
    ensures { bytes.new ≡ with_constant bytes.old at value at.kind }
{
    if let Some(kind) = at.kind {
        let width = width_of(kind);
        put_number(bytes, at, width, value_in(width, value));
    }
}

/// Puts a value into the component that a path names, where it names one, cut to its width.
fn put_at(bytes: &mut [u8], at: Option<Component>, value: Constant)
    requires { IfSome at (IsInside (length bytes.old)) }
    ensures { bytes.new ≡ with_value_at bytes.old value at }
{
    if let Some(at) = at {
        put_constant(bytes, at, value);
    }
}

/// Puts an initial value, and notes the rule that it breaks. A value that breaks one is put too, so that the
/// bytes are the defined ones whatever is noted.
fn put_value(
    alloc: Global,
    components: &Components<'_>,
    v: &RawInitial,
    bytes: &mut [u8],
    breaks: &mut List<Break>,
) -> Result<(), NoMemory>
    requires { AreInside (length bytes.old) components.now }
    ensures bytes { OnOk result (bytes.new ≡ with_value components.now bytes.old v.now) }
    ensures breaks { OnOk result (breaks.new ≡ breaks.old ++ initial_breaks components.now v.now) }
{
    let at = components.component(alloc, v.path.as_slice())?;
    judge(v, at, breaks)?;
    put_at(bytes, at, v.value);
    Ok(())
}

/// Puts initial values one after another, and notes the rules that they break.
pub fn put_values(
    alloc: Global,
    components: &Components<'_>,
    values: &[RawInitial],
    bytes: &mut [u8],
    breaks: &mut List<Break>,
) -> Result<(), NoMemory>
    requires { AreInside (length bytes.old) components.now }
    ensures bytes { OnOk result (bytes.new ≡ fold (with_value components.now) bytes.old values.now) }
    ensures breaks { OnOk result (breaks.new ≡ breaks.old ++ flat_map (initial_breaks components.now) values.now) }
{
    for v in values {
        put_value(alloc, components, v, bytes, breaks)?;
    }
    Ok(())
}

/// Notes the rules that an initial value breaks.
fn judge_value(
    alloc: Global,
    components: &Components<'_>,
    v: &RawInitial,
    breaks: &mut List<Break>,
) -> Result<(), NoMemory>
    ensures { OnOk result (breaks.new ≡ breaks.old ++ initial_breaks components.now v.now) }
{
    let at = components.component(alloc, v.path.as_slice())?;
    judge(v, at, breaks)
}

/// The first rule that initial values break in declarations that keep the rules.
pub fn first_of_values(
    alloc: Global,
    components: &Components<'_>,
    values: &[RawInitial],
) -> Result<Option<Break>, NoMemory>
    ensures { IfOk result (λ first. first ≡ first_of_all (flat_map (initial_breaks components.now) values.now)) }
{
    let mut breaks = List::new(alloc);
    for v in values {
        judge_value(alloc, components, v, &mut breaks)?;
    }
    Ok(first_of_all(breaks.as_slice()))
}
