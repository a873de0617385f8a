//! Templates of the instructions that set a bit, the RLO or BR, and of edges.
ghost use Rattle.std.specs.Prelude.{◌≡◌, ◌<◌, ◌+◌, ◌^◌, [], ◌∷◌, ◌++◌, length, OnOk};
ghost use Rattle.bit_templates.specs.Bits.{assigned_of, edge_at, edge_of, falling, inverted_of, reset_value, rising, rlo_set, saved_of, set_value, store_of, stored_of, types_of_edge};
ghost use Rattle.template_parts.specs.Builders.{read_of};
ghost use Rattle.template_parts.specs.Fetching.{types_fetched, writing_of};

use s7_base::{List, NoMemory, Reg, Width};
use st_tree::{Expr, StType, Stmt};
use std::alloc::Global;
use stl_tree::Operand;
use template_parts::{
    and, fetched_value, literal, local, may_fault, not, or, push_clear_or, push_fetch, push_reach,
    read, set_local, set_register, writing,
};

/// The statements of `=` of a bit.
pub fn push_assigned(
    alloc: Global,
    steps: &mut List<Stmt>,
    first: u32,
    operand: &Operand,
) -> Result<(), NoMemory>
    requires { first + 8 < 2 ^ 32 }
    ensures { OnOk result (steps.new ≡ steps.old ++ assigned_of first operand.now) }
{
    push_reach(alloc, steps, first, operand)?;
    push_store(alloc, steps, first, operand, read(Reg::Rlo))
}

/// The statements of `S` of a bit.
pub fn push_set(
    alloc: Global,
    steps: &mut List<Stmt>,
    first: u32,
    operand: &Operand,
) -> Result<(), NoMemory>
    requires { first + 8 < 2 ^ 32 }
    ensures { OnOk result (steps.new ≡ steps.old ++ stored_of first operand.now set_value) }
{
    push_fetch(alloc, steps, first, operand, Width::Bit)?;
    let value = or(
        alloc,
        fetched_value(first, operand, Width::Bit),
        read(Reg::Rlo),
    )?;
    push_store(alloc, steps, first, operand, value)
}

/// The statements of `R` of a bit.
pub fn push_reset(
    alloc: Global,
    steps: &mut List<Stmt>,
    first: u32,
    operand: &Operand,
) -> Result<(), NoMemory>
    requires { first + 8 < 2 ^ 32 }
    ensures { OnOk result (steps.new ≡ steps.old ++ stored_of first operand.now reset_value) }
{
    push_fetch(alloc, steps, first, operand, Width::Bit)?;
    let low = not(alloc, read(Reg::Rlo))?;
    let value = and(alloc, fetched_value(first, operand, Width::Bit), low)?;
    push_store(alloc, steps, first, operand, value)
}

/// A bit that was reached takes a value, and the chain ends.
fn push_store(
    alloc: Global,
    steps: &mut List<Stmt>,
    first: u32,
    operand: &Operand,
    value: Expr,
) -> Result<(), NoMemory>
    requires { first + 8 < 2 ^ 32 }
    ensures { OnOk result (steps.new ≡ steps.old ++ store_of first operand.now value) }
{
    let write = writing(alloc, first, operand, Width::Bit, value)?;
    steps.push(write)?;
    push_clear_or(steps, false)
}

/// The RLO is set or cleared, and the chain ends.
pub fn push_rlo(steps: &mut List<Stmt>, rlo: bool) -> Result<(), NoMemory>
    ensures { OnOk result (steps.new ≡ steps.old ++ rlo_set rlo) }
{
    steps.push(set_register(Reg::Rlo, literal(rlo)))?;
    push_clear_or(steps, false)
}

/// The RLO is inverted.
pub fn push_inverted(alloc: Global, steps: &mut List<Stmt>) -> Result<(), NoMemory>
    ensures { OnOk result (steps.new ≡ steps.old ++ inverted_of) }
{
    let inverted = not(alloc, read(Reg::Rlo))?;
    steps.push(set_register(Reg::Rlo, inverted))
}

/// BR keeps the RLO.
pub fn push_saved(steps: &mut List<Stmt>) -> Result<(), NoMemory>
    ensures { OnOk result (steps.new ≡ steps.old ++ saved_of) }
{
    steps.push(set_register(Reg::Br, read(Reg::Rlo)))
}

/// The types of the locals of an edge: those of its bit, where that may fault, and one for the RLO.
pub fn types_of_edge(operand: &Operand) -> &'static [StType]
    ensures { result.now ≡ types_of_edge operand.now }
{
    match *operand {
        Operand::ByMemory(_, _, _) => &[StType::Dword, StType::Dword, StType::Bool, StType::Bool],
        Operand::ByRegister(_, _, _) | Operand::Crossing(_, _) => {
            &[StType::Dword, StType::Bool, StType::Bool]
        }
        _ => {
            if may_fault(operand) {
                &[StType::Bool, StType::Bool]
            } else {
                &[StType::Bool]
            }
        }
    }
}

/// The statements of `FP` with an edge bit.
pub fn push_rising(
    alloc: Global,
    steps: &mut List<Stmt>,
    first: u32,
    operand: &Operand,
) -> Result<(), NoMemory>
    requires { first + 8 < 2 ^ 32 }
    ensures { OnOk result (steps.new ≡ steps.old ++ edge_at first operand.now rising) }
{
    push_fetch(alloc, steps, first, operand, Width::Bit)?;
    let old = not(alloc, fetched_value(first, operand, Width::Bit))?;
    let value = and(alloc, read(Reg::Rlo), old)?;
    push_edge(alloc, steps, first, operand, value)
}

/// The statements of `FN` with an edge bit.
pub fn push_falling(
    alloc: Global,
    steps: &mut List<Stmt>,
    first: u32,
    operand: &Operand,
) -> Result<(), NoMemory>
    requires { first + 8 < 2 ^ 32 }
    ensures { OnOk result (steps.new ≡ steps.old ++ edge_at first operand.now falling) }
{
    push_fetch(alloc, steps, first, operand, Width::Bit)?;
    let low = not(alloc, read(Reg::Rlo))?;
    let value = and(alloc, low, fetched_value(first, operand, Width::Bit))?;
    push_edge(alloc, steps, first, operand, value)
}

/// The edge bit takes the RLO; a local keeps what the RLO becomes until then.
fn push_edge(
    alloc: Global,
    steps: &mut List<Stmt>,
    first: u32,
    operand: &Operand,
    value: Expr,
) -> Result<(), NoMemory>
    requires { first + 8 < 2 ^ 32 }
    ensures { OnOk result (steps.new ≡ steps.old ++ edge_of first operand.now (first + length (types_fetched operand.now Width.Bit)) value) }
{
    let index = behind_fetched(first, operand);
    steps.push(set_local(index, value))?;
    push_edge_bit(alloc, steps, first, operand)?;
    steps.push(set_register(Reg::Rlo, local(index)))?;
    push_clear_or(steps, true)
}

/// The edge bit takes the RLO.
fn push_edge_bit(
    alloc: Global,
    steps: &mut List<Stmt>,
    first: u32,
    operand: &Operand,
) -> Result<(), NoMemory>
    requires { first + 8 < 2 ^ 32 }
    ensures { OnOk result (steps.new ≡ steps.old ++ writing_of first operand.now Width.Bit (read_of Reg.Rlo) ∷ []) }
{
    let write = writing(alloc, first, operand, Width::Bit, read(Reg::Rlo))?;
    steps.push(write)
}

/// The number of the first local after those of a fetched bit.
fn behind_fetched(first: u32, operand: &Operand) -> u32
    requires { first + 8 < 2 ^ 32 }
    ensures { result ≡ first + length (types_fetched operand.now Width.Bit) }
{
    match *operand {
        Operand::ByMemory(_, _, _) => first + 3,
        Operand::ByRegister(_, _, _) | Operand::Crossing(_, _) => first + 2,
        _ => { if may_fault(operand) { first + 1 } else { first } }
    }
}
