//! Declarations whose rules are judged and whose components are found by maps.
ghost use Rattle.std.specs.Prelude.{◌≡◌, IfOk};
ghost use Rattle.stl_rules.specs.Interfaces.{are_refused};
ghost use Rattle.stl_rules.specs.Raw.{given_path};

use component_index::Components;
use instruction_operands::given_component;
use memory_areas::AreaName;
use s7_base::NoMemory;
use std::alloc::Global;
use std::marker::Model;
use stl_rules::ResolvedOperand;
use stl_tree::PathStep;

/// The declarations of a data block. Contracts see their sections after the most bytes that they may take.
#[derive(Drop)]
pub struct IndexedDeclarations<'d> {
    limit: u32,

    /// Whether they break a rule.
    refused: bool,

    components: Components<'d>,
}

impl<'d> Model for IndexedDeclarations<'d> {
    ghost use Rattle.std.specs.Prelude.{◌≡◌, ℕ, List};
    ghost use Rattle.std.specs.Coded.{codes};
    ghost use Rattle.stl_rules.specs.Interfaces.{are_refused};
    ghost use Rattle.stl_tree.specs.declared.raw.Declaration.{Declaration};
    ghost use Rattle.stl_tree.specs.contracts.raw.DeclType as declared;
    ghost use Rattle.stl_tree.specs.contracts.raw.Declaration as declaration;

    ghost Value = { ℕ × List (List Declaration) };

    ghost coded = { Prim.hlevel (codes, declared.the_row.coded, declaration.the_row.coded) };

    ghost view = { λ l. (l.limit, l.components) };

    ghost invariant = { λ l. l.refused ≡ are_refused l.limit l.components };
}

impl<'d> IndexedDeclarations<'d> {
    /// The index of sections that break a rule within a limit, or none.
    pub fn new(components: Components<'d>, limit: u32, refused: bool) -> IndexedDeclarations<'d>
        requires { refused ≡ are_refused limit components }
        ensures { result ≡ (limit, components.entry) }
    {
        IndexedDeclarations {
            limit,
            refused,
            components,
        }
    }

    /// The operand that a path names, in an area or in the data block of a number.
    pub fn resolved_operand(
        &self,
        alloc: Global,
        number: Option<u32>,
        area: AreaName,
        path: &[PathStep],
    ) -> Result<ResolvedOperand, NoMemory>
        ensures { IfOk result (λ g. g ≡ given_path self.now.0 number area self.now.1 path.now) }
    {
        if self.refused {
            return Ok(ResolvedOperand::Unjudged);
        }
        let at = self.components.component(alloc, path)?;
        Ok(given_component(number, area, at))
    }
}
