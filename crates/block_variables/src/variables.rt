//! The variables of a block.
ghost use Rattle.std.specs.Prelude.{◌≡◌, ◌||◌, IfOk, None, Some, if◌then◌else◌, map, option_map};
ghost use Rattle.block_variables.specs.inner.FormalPlaces.{AreFormalPlaces};
ghost use Rattle.block_variables.specs.inner.Kept.{has_name};
ghost use Rattle.memory_areas.specs.declared.place.AreaName.TheVariants as area;
ghost use Rattle.s7_base.specs.Broken.{first_of_all};
ghost use Rattle.stl_rules.specs.Interfaces.{are_temporaries_refused, begins_in, formal_named, formals_of, interface_of, is_declared, is_interface_refused, most_local, result_declared, temporaries_of, variable_breaks};
ghost use Rattle.stl_rules.specs.Raw.{formal_operand, given_formal, given_in_instance, given_in_interface, given_path, given_variable};
ghost use Rattle.stl_rules.specs.declared.resolved_operand.ResolvedOperand.TheVariants as behind;
ghost use Rattle.stl_tree.specs.declared.raw.BlockKind.TheVariants as block;

use crate::formals::Formals;
use crate::rules::VariableRules;
use component_index::Components;
use indexmap::IndexMap;
use instruction_operands::given_component;
use memory_areas::AreaName;
use s7_base::{Break, List, NoMemory};
use std::alloc::Global;
use std::marker::Model;
use stl_rules::ResolvedOperand;
use stl_tree::{BlockKind, Formal, Operand, PathStep, RawBlock};

/// The variables of a block, which are found by their names. Contracts see the block.
#[derive(Drop)]
pub struct BlockVariables<'t> {
    raw: &'t RawBlock,

    /// The interface, but for the result of a function.
    interface: Components<'t>,

    temporaries: Components<'t>,
    formals: Formals,
    rules: VariableRules,
}

impl<'t> Model for BlockVariables<'t> {
    ghost use Rattle.std.specs.Prelude.{◌≡◌, ◌∷◌, []};
    ghost use Rattle.std.specs.Coded.{codes};
    ghost use Rattle.stl_rules.specs.Interfaces.{formals_of};
    ghost use Rattle.stl_tree.specs.declared.raw.RawBlock.{RawBlock};
    ghost use Rattle.stl_tree.specs.contracts.raw.DeclType as declared;
    ghost use Rattle.stl_tree.specs.contracts.raw.Declaration as declaration;
    ghost use Rattle.stl_tree.specs.contracts.raw.RawOperand as operand;
    ghost use Rattle.block_variables.specs.inner.Kept.{AreRules, own_sections};

    ghost Value = { RawBlock };

    ghost coded = { Prim.hlevel (codes, declared.the_row.coded, declaration.the_row.coded, operand.the_row.coded) };

    ghost view = { λ v. v.raw.now };

    ghost invariant = { λ v. (v.interface ≡ own_sections v.raw.now) × (v.temporaries ≡ v.raw.now.temps ∷ [])
        × (v.formals ≡ formals_of v.raw.now) × AreRules v.raw.now v.rules };
}

/// Whether a function has a result of this name.
fn is_result(raw: &RawBlock, name: &[u8]) -> bool
    ensures { result ≡ has_name name.now (result_declared raw.now.kind raw.now.line raw.now.result) }
{
    match (raw.kind, raw.result) {
        (BlockKind::Fc, Some(_)) => name.eq_ignore_ascii_case(b"RET_VAL"),
        _ => false,
    }
}

/// The operand that a formal of a function is, by its place.
fn formal_operand(formal: Option<(u32, &Formal)>) -> ResolvedOperand
    ensures { result ≡ formal_operand (option_map (λ p. (p.0, p.1.now)) formal.entry) }
{
    match formal {
        None => ResolvedOperand::Unknown,
        Some((place, formal)) => ResolvedOperand::At(Operand::Formal(place), formal.width),
    }
}

impl<'t> BlockVariables<'t> {
    /// The variables of a block.
    pub fn new(alloc: Global, raw: &'t RawBlock) -> Result<BlockVariables<'t>, NoMemory>
        ensures { IfOk result (λ v. v ≡ raw.now) }
    {
        let sections = [
            raw.inputs.as_slice(),
            raw.outputs.as_slice(),
            raw.in_outs.as_slice(),
            raw.statics.as_slice(),
        ];
        let interface = Components::new(alloc, &sections)?;
        let temporaries = Components::new(alloc, &[raw.temps.as_slice()])?;
        let formals = Formals::new(alloc, raw, &interface)?;
        let rules = VariableRules::new(alloc, raw)?;
        Ok(BlockVariables {
            raw,
            interface,
            temporaries,
            formals,
            rules,
        })
    }

    /// The formals of the block.
    pub fn formals(&self) -> &[Formal]
        ensures { result.now ≡ formals_of self.now }
    {
        self.formals.all()
    }

    /// The place of the first formal of each name, by its key.
    pub fn formal_places(&self) -> &IndexMap<Vec<u8>, usize>
        ensures { AreFormalPlaces (formals_of self.now) (map (λ e. (e.0.items, e.1)) result.now.entries) }
    {
        self.formals.places()
    }

    /// A copy of the formals of the block.
    pub fn copy_formals(&self, alloc: Global) -> Result<List<Formal>, NoMemory>
        ensures { IfOk result (λ all. all ≡ formals_of self.now) }
    {
        self.formals.copy(alloc)
    }

    /// The formal of a name, with its place.
    pub fn formal_named(
        &self,
        alloc: Global,
        name: &[u8],
    ) -> Result<Option<(u32, &Formal)>, NoMemory>
        ensures { IfOk result (λ f. option_map (λ p. (p.0, p.1.now)) f ≡ formal_named 0 (formals_of self.now) name.now) }
    {
        self.formals.formal_named(alloc, name)
    }

    /// The first rule that the variables break.
    pub fn first(&self) -> Option<Break>
        ensures { result ≡ first_of_all (variable_breaks self.now) }
    {
        self.rules.first
    }

    /// Whether the interface breaks a rule by itself.
    pub fn is_interface_refused(&self) -> bool
        ensures { result ≡ is_interface_refused self.now }
    {
        self.rules.interface
    }

    /// The sections of the interface of a function block.
    #[tactic(auto, using(crate::proofs::Interfaces::of_function_block))]
    pub fn interface(&self) -> &Components<'t>
        requires { self.now.kind ≡ block.Fb }
        ensures { result.now ≡ interface_of self.now }
    {
        &self.interface
    }

    /// Whether the interface has a variable of this name.
    #[tactic(auto, using(crate::proofs::Interfaces::declared_in_parts))]
    fn is_in_interface(&self, alloc: Global, name: &[u8]) -> Result<bool, NoMemory>
        ensures { IfOk result (λ found. found ≡ is_declared name.now (interface_of self.now)) }
    {
        Ok(self.interface.declares(alloc, name)? || is_result(self.raw, name))
    }

    /// The operand that a path names in an instance, which is the data block of a number.
    pub fn given_in_instance(
        &self,
        alloc: Global,
        number: u32,
        path: &[PathStep],
    ) -> Result<ResolvedOperand, NoMemory>
        requires { self.now.kind ≡ block.Fb }
        ensures { IfOk result (λ g. g ≡ given_in_instance number path.now (Some self.now)) }
    {
        if self.rules.interface {
            return Ok(ResolvedOperand::Unjudged);
        }
        let at = self.interface.component(alloc, path)?;
        Ok(given_component(Some(number), AreaName::Db, at))
    }

    /// The operand that a path names among the formals; nothing is inside a formal.
    fn given_formal(&self, alloc: Global, path: &[PathStep]) -> Result<ResolvedOperand, NoMemory>
        ensures { IfOk result (λ g. g ≡ given_formal (formals_of self.now) path.now) }
    {
        match path {
            [PathStep::Name(name)] => {
                Ok(formal_operand(self.formals.formal_named(alloc, name.as_slice())?))
            }
            _ => Ok(ResolvedOperand::Unknown),
        }
    }

    /// The operand that a path into the interface is.
    #[tactic(auto, using(crate::proofs::Interfaces::of_function_block))]
    fn given_in_interface(
        &self,
        alloc: Global,
        path: &[PathStep],
    ) -> Result<ResolvedOperand, NoMemory>
        ensures { IfOk result (λ g. g
            ≡ (if is_interface_refused self.now then behind.Unjudged else given_in_interface self.now self.now.kind path.now)) }
    {
        if self.rules.interface {
            return Ok(ResolvedOperand::Unjudged);
        }
        match self.raw.kind {
            BlockKind::Fb => {
                let at = self.interface.component(alloc, path)?;
                Ok(given_component(None, AreaName::Di, at))
            }
            BlockKind::Ob | BlockKind::Fc | BlockKind::Db => self.given_formal(alloc, path),
        }
    }

    /// The operand that a path into the temporaries is.
    fn given_temporary(&self, alloc: Global, path: &[PathStep]) -> Result<ResolvedOperand, NoMemory>
        ensures { IfOk result (λ g. g ≡ given_path most_local None area.L (temporaries_of self.now) path.now) }
    {
        if self.rules.temporaries {
            return Ok(ResolvedOperand::Unjudged);
        }
        let at = self.temporaries.component(alloc, path)?;
        Ok(given_component(None, AreaName::L, at))
    }

    /// The operand of a path from no variable: it may be one that broken rules hide.
    fn given_nothing(&self) -> ResolvedOperand
        ensures { result
            ≡ (if is_interface_refused self.now || are_temporaries_refused self.now then behind.Unjudged else behind.Unknown) }
    {
        if self.rules.interface || self.rules.temporaries {
            ResolvedOperand::Unjudged
        } else {
            ResolvedOperand::Unknown
        }
    }

    /// The operand that a path from the variable of a name is.
    fn given_from(
        &self,
        alloc: Global,
        name: &[u8],
        path: &[PathStep],
    ) -> Result<ResolvedOperand, NoMemory>
        requires interface { begins_in (interface_of self.now) path.now ≡ is_declared name.now (interface_of self.now) }
        requires temporaries { begins_in (temporaries_of self.now) path.now ≡ is_declared name.now (temporaries_of self.now) }
        ensures { IfOk result (λ g. g ≡ given_variable self.now path.now) }
    {
        if self.is_in_interface(alloc, name)? {
            return self.given_in_interface(alloc, path);
        }
        if self.temporaries.declares(alloc, name)? {
            return self.given_temporary(alloc, path);
        }
        Ok(self.given_nothing())
    }

    /// The operand that a path from a variable is, in a body.
    pub fn given_variable(
        &self,
        alloc: Global,
        path: &[PathStep],
    ) -> Result<ResolvedOperand, NoMemory>
        ensures { IfOk result (λ g. g ≡ given_variable self.now path.now) }
    {
        match path {
            [PathStep::Name(name), ..] => self.given_from(alloc, name.as_slice(), path),
            _ => Ok(self.given_nothing()),
        }
    }
}
