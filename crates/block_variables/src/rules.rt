//! The rules that the variables of a block break.
ghost use Rattle.std.specs.Prelude.{◌≡◌, ◌++◌, ◌∷◌, [], IfOk, Some};
ghost use Rattle.block_variables.specs.inner.Kept.{AreRules};
ghost use Rattle.s7_base.specs.Broken.{first_of_all};
ghost use Rattle.stl_rules.specs.DeclarationRules.{section_breaks};
ghost use Rattle.stl_rules.specs.Interfaces.{interface_breaks, interface_large, interface_of, result_declared, temporaries_of, variable_breaks};
ghost use Rattle.stl_tree.specs.declared.raw.BlockKind.TheVariants as block;

use crate::first::join;
use s7_base::{Break, List, NoMemory};
use std::alloc::Global;
use stl_tree::{BlockKind, DeclType, Declaration, ElemType, RawBlock};
use symbol_layout::{MOST_IN_BLOCK, MOST_LOCAL, first_break, first_in_sections, first_large};

/// What the variables of a block break.
#[derive(Drop)]
pub struct VariableRules {
    /// Whether the interface breaks a rule by itself.
    pub interface: bool,

    /// Whether the temporaries break a rule by themselves.
    pub temporaries: bool,

    /// The first rule that is broken.
    pub first: Option<Break>,
}

/// The result of a function of a type, as a declaration on the line of the heading.
fn result_of(alloc: Global, raw: &RawBlock, kind: ElemType) -> Result<Declaration, NoMemory>
    ensures { IfOk result (λ d. d ∷ [] ≡ result_declared block.Fc raw.now.line (Some kind)) }
{
    Ok(Declaration {
        name: List::from_vec(Vec::from_slice(alloc, b"RET_VAL")?),
        line: raw.line,
        ty: DeclType::Elementary(kind),
        initial: List::new(alloc),
    })
}

/// The result of a function as declarations; no other block has one.
pub fn result_declared(alloc: Global, raw: &RawBlock) -> Result<List<Declaration>, NoMemory>
    ensures { IfOk result (λ all. all ≡ result_declared raw.now.kind raw.now.line raw.now.result) }
{
    let mut all = List::new(alloc);
    match (raw.kind, raw.result) {
        (BlockKind::Fc, Some(kind)) => {
            all.push(result_of(alloc, raw, kind)?)?;
            Ok(all)
        }
        _ => Ok(all),
    }
}

/// The rule that is broken where the interface of a function block is too long.
#[tactic(auto, using(crate::proofs::Interfaces::large_laws))]
fn interface_large(raw: &RawBlock) -> Option<Break>
    ensures { result ≡ first_of_all (interface_large raw.now.kind (interface_of raw.now)) }
{
    let sections = [
        raw.inputs.as_slice(),
        raw.outputs.as_slice(),
        raw.in_outs.as_slice(),
        raw.statics.as_slice(),
    ];
    match raw.kind {
        BlockKind::Fb => first_large(&sections, MOST_IN_BLOCK),
        BlockKind::Ob | BlockKind::Fc | BlockKind::Db => None,
    }
}

/// The first rule that the interface breaks by itself.
#[tactic(auto, using(crate::proofs::Interfaces::in_parts, crate::proofs::Interfaces::first_both))]
fn first_of_interface(alloc: Global, raw: &RawBlock) -> Result<Option<Break>, NoMemory>
    ensures { IfOk result (λ first. first ≡ first_of_all (interface_breaks raw.now)) }
{
    let output = result_declared(alloc, raw)?;
    let sections = [
        raw.inputs.as_slice(),
        raw.outputs.as_slice(),
        output.as_slice(),
        raw.in_outs.as_slice(),
        raw.statics.as_slice(),
    ];
    let mut first = first_in_sections(alloc, &sections)?;
    join(&mut first, interface_large(raw));
    Ok(first)
}

/// The first rule that the variables break in their declarations.
#[tactic(auto, using(crate::proofs::Interfaces::all_in_parts))]
fn first_in_scope(alloc: Global, raw: &RawBlock) -> Result<Option<Break>, NoMemory>
    ensures { IfOk result (λ first. first ≡ first_of_all (section_breaks (interface_of raw.now ++ temporaries_of raw.now))) }
{
    let output = result_declared(alloc, raw)?;
    let sections = [
        raw.inputs.as_slice(),
        raw.outputs.as_slice(),
        output.as_slice(),
        raw.in_outs.as_slice(),
        raw.statics.as_slice(),
        raw.temps.as_slice(),
    ];
    first_in_sections(alloc, &sections)
}

/// The first rule that the variables break.
#[tactic(auto, using(crate::proofs::Interfaces::first_of_three))]
fn first_of_variables(alloc: Global, raw: &RawBlock) -> Result<Option<Break>, NoMemory>
    ensures { IfOk result (λ first. first ≡ first_of_all (variable_breaks raw.now)) }
{
    let mut first = first_in_scope(alloc, raw)?;
    join(&mut first, interface_large(raw));
    join(&mut first, first_large(&[raw.temps.as_slice()], MOST_LOCAL));
    Ok(first)
}

impl VariableRules {
    /// What the variables of a block break.
    pub fn new(alloc: Global, raw: &RawBlock) -> Result<VariableRules, NoMemory>
        ensures { IfOk result (λ rules. AreRules raw.now rules) }
    {
        let interface = first_of_interface(alloc, raw)?;
        let temporaries = first_break(alloc, &[raw.temps.as_slice()], MOST_LOCAL)?;
        Ok(VariableRules {
            interface: interface.is_some(),
            temporaries: temporaries.is_some(),
            first: first_of_variables(alloc, raw)?,
        })
    }
}
