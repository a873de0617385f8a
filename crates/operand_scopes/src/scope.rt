//! The operand of a mnemonic, by what names mean in a block.
ghost use Rattle.std.specs.Prelude.{◌≡◌, ◌∷◌, [], IfOk, map, option_and_then, option_map, slice_get};
ghost use Rattle.stl_rules.specs.Calls.{or_zero};
ghost use Rattle.stl_rules.specs.Interfaces.{most_in_block};
ghost use Rattle.stl_rules.specs.Labels.{target_in};
ghost use Rattle.stl_rules.specs.Names.{block_found, block_number, block_numbered, block_position, db_numbered, number_at, symbol_named};
ghost use Rattle.stl_rules.specs.Raw.{resolved_operand, given_in_data, given_in_instance, given_in_kind, given_number, given_open, given_symbol, given_variable};
ghost use Rattle.stl_rules.specs.declared.resolved_operand.ResolvedOperand.TheVariants as behind;
ghost use Rattle.stl_tree.specs.declared.raw.BlockKind.TheVariants as block;
ghost use Rattle.operand_scopes.specs.Refused.{decls_of, own_of};
ghost use Rattle.operand_scopes.specs.inner.Opened.{db_opened};

use crate::declarations::IndexedDeclarations;
use block_variables::BlockVariables;
use body_labels::Labels;
use instruction_operands::{
    given_by_memory, given_by_register, given_crossing, given_db_by, given_di_by, given_place,
    given_pointer, given_symbol, may_have,
};
use memory_areas::AreaName;
use name_tables::Names;
use s7_base::{NoMemory, Reason};
use std::alloc::Global;
use std::marker::Model;
use stl_rules::ResolvedOperand;
use stl_tree::{BlockKind, PathStep, RawBlock, RawData, RawDataKind, RawName, RawOperand};

/// What names mean in a block. Contracts see the text and the block.
#[derive(Drop)]
pub struct OperandScope<'s, 't> {
    names: &'s Names<'t>,

    /// The declarations of the data blocks.
    declarations: &'s [IndexedDeclarations<'t>],

    /// The variables of all blocks.
    blocks: &'s [BlockVariables<'t>],

    block: &'t RawBlock,

    /// The variables of the block.
    variables: &'s BlockVariables<'t>,

    /// The labels of its body.
    labels: &'s Labels<'t>,
}

impl<'s, 't> Model for OperandScope<'s, 't> {
    ghost use Rattle.std.specs.Prelude.{◌≡◌, map};
    ghost use Rattle.stl_rules.specs.Raw.{OperandScope};
    ghost use Rattle.operand_scopes.specs.Refused.{own_of};
    ghost use Rattle.std.specs.Coded.{codes};
    ghost use Rattle.stl_tree.specs.contracts.raw.DeclType as declared;
    ghost use Rattle.stl_tree.specs.contracts.raw.Declaration as declaration;
    ghost use Rattle.stl_tree.specs.contracts.raw.RawOperand as operand;

    ghost Value = { OperandScope };

    ghost coded = { Prim.hlevel (codes, declared.the_row.coded, declaration.the_row.coded, operand.the_row.coded) };

    ghost view = { λ s. record { text = s.names.now; block = s.block.now } };

    ghost invariant = { λ s. (s.declarations.now ≡ map own_of s.names.now.dbs) × (s.blocks.now ≡ s.names.now.blocks)
        × (s.variables.now ≡ s.block.now) × (s.labels.now ≡ s.block.now.body) };
}

/// The number of the data block that OPN opens, or what its operand is without one.
fn db_opened(number: Result<u32, Reason>) -> Result<u16, ResolvedOperand>
    ensures { result ≡ db_opened number }
{
    match number {
        Ok(number) if may_have(BlockKind::Db, number) => Ok(number as u16),
        Ok(_) => Err(ResolvedOperand::NoNumber),
        Err(Reason::UnknownName) => Err(ResolvedOperand::Unknown),
        Err(_) => Err(ResolvedOperand::Unfit),
    }
}

impl<'s, 't> OperandScope<'s, 't> {
    /// What names mean in a block with these variables and labels.
    pub fn new(
        names: &'s Names<'t>,
        declarations: &'s [IndexedDeclarations<'t>],
        blocks: &'s [BlockVariables<'t>],
        block: &'t RawBlock,
        variables: &'s BlockVariables<'t>,
        labels: &'s Labels<'t>,
    ) -> OperandScope<'s, 't>
        requires data { declarations.now ≡ map own_of names.now.dbs }
        requires blocks { blocks.now ≡ names.now.blocks }
        requires variables { variables.now ≡ block.now }
        requires labels { labels.now ≡ block.now.body }
        ensures { result ≡ record { text = names.now; block = block.now } }
    {
        OperandScope {
            names,
            declarations,
            blocks,
            block,
            variables,
            labels,
        }
    }

    /// The names of the text.
    pub fn names(&self) -> &'s Names<'t>
        ensures { result.now ≡ self.now.text }
    {
        self.names
    }

    /// The place of the first block of a kind and a number.
    fn place_of(&self, kind: BlockKind, number: u32) -> Option<usize>
        ensures position { result ≡ block_position self.now.text kind number }
        ensures lookup { option_and_then (λ place. slice_get self.now.text.blocks place) result ≡ block_numbered self.now.text kind number }
    {
        let names = self.names;
        names.blocks().place_of(kind, number)
    }

    /// The variables of the first block of a kind and a number.
    pub fn block_numbered(&self, kind: BlockKind, number: u32) -> Option<&'s BlockVariables<'t>>
        ensures { option_map (λ b. b.now) result ≡ block_numbered self.now.text kind number }
    {
        let blocks = self.blocks;
        match self.place_of(kind, number) {
            Some(place) => blocks.get(place),
            None => None,
        }
    }

    /// The position of the first block of a kind and a number, 0 where there is none. One that has more than 32 bits
    /// counts as out of memory.
    pub fn position_of(&self, kind: BlockKind, number: u32) -> Result<u32, NoMemory>
        ensures { IfOk result (λ n. n ≡ or_zero (block_position self.now.text kind number)) }
    {
        match self.place_of(kind, number) {
            Some(place) if place <= u32::MAX as usize => Ok(place as u32),
            Some(_) => Err(NoMemory),
            None => Ok(0),
        }
    }

    /// The first data block of a number.
    pub fn db_numbered(&self, number: u32) -> Option<&'t RawData>
        ensures { option_map (λ d. d.now) result ≡ db_numbered self.now.text.symbols self.now.text.dbs number }
    {
        let names = self.names;
        let place = names.place_of_db(number)?;
        names.text().dbs.as_slice().get(place)
    }

    /// The variables of the first block of a kind and a number, if the number is known.
    fn block_found(
        &self,
        kind: BlockKind,
        number: Result<u32, Reason>,
    ) -> Option<&'s BlockVariables<'t>>
        ensures { option_map (λ b. b.now) result ≡ block_found self.now.text kind number }
    {
        match number {
            Ok(number) => self.block_numbered(kind, number),
            Err(_) => None,
        }
    }

    /// The operand that a path names in the instance of a function block, which is the data block of a number.
    fn given_in_instance(
        &self,
        alloc: Global,
        number: u32,
        path: &[PathStep],
        name: &RawName,
    ) -> Result<ResolvedOperand, NoMemory>
        ensures { IfOk result (λ g. g ≡ given_in_instance number path.now
            (block_found self.now.text block.Fb (block_number self.now.text.symbols block.Fb name.now))) }
    {
        let names = self.names;
        let fb = names.symbols().block_number(alloc, BlockKind::Fb, name)?;
        match self.block_found(BlockKind::Fb, fb) {
            Some(variables) => variables.given_in_instance(alloc, number, path),
            None => Ok(ResolvedOperand::Unknown),
        }
    }

    /// The operand that a path names in a data block of a number.
    fn given_in_kind(
        &self,
        alloc: Global,
        declarations: &IndexedDeclarations<'_>,
        number: u32,
        path: &[PathStep],
        kind: &RawDataKind,
    ) -> Result<ResolvedOperand, NoMemory>
        requires { declarations.now ≡ (most_in_block, decls_of kind.now ∷ []) }
        ensures { IfOk result (λ g. g ≡ given_in_kind self.now.text number path.now kind.now) }
    {
        match kind {
            RawDataKind::Own(_) => declarations.resolved_operand(
                alloc,
                Some(number),
                AreaName::Db,
                path,
            ),
            RawDataKind::Instance(name) => self.given_in_instance(alloc, number, path, name),
        }
    }

    /// The raw block.
    pub fn block(&self) -> &'t RawBlock
        ensures { result.now ≡ self.now.block }
    {
        self.block
    }

    /// The address of a name, as an operand.
    fn given_name(&self, alloc: Global, name: &[u8]) -> Result<ResolvedOperand, NoMemory>
        ensures { IfOk result (λ g. g ≡ given_symbol (symbol_named self.now.text.symbols name.now)) }
    {
        let names = self.names;
        Ok(given_symbol(names.symbols().address_named(alloc, name)?))
    }

    /// The operand that a path names in the data block of a number.
    fn given_in_data(
        &self,
        alloc: Global,
        number: u32,
        path: &[PathStep],
    ) -> Result<ResolvedOperand, NoMemory>
        ensures { IfOk result (λ g. g ≡ given_in_data self.now.text number path.now (db_numbered self.now.text.symbols self.now.text.dbs number)) }
    {
        let names = self.names;
        let Some(place) = names.place_of_db(number) else {
            return Ok(ResolvedOperand::Unknown);
        };
        let Some(d) = names.text().dbs.as_slice().get(place) else {
            return Ok(ResolvedOperand::Unknown);
        };
        let Some(declarations) = self.declarations.get(place) else {
            return Ok(ResolvedOperand::Unknown);
        };
        self.given_in_kind(alloc, declarations, number, path, &d.kind)
    }

    /// The operand that a path names in the data block of a name.
    fn given_in_block(
        &self,
        alloc: Global,
        name: &[u8],
        path: &[PathStep],
    ) -> Result<ResolvedOperand, NoMemory>
        ensures { IfOk result (λ g. g
            ≡ given_number (λ n. given_in_data self.now.text n path.now (db_numbered self.now.text.symbols self.now.text.dbs n))
            (number_at block.Db (symbol_named self.now.text.symbols name.now))) }
    {
        let names = self.names;
        match names.symbols().number_named(alloc, BlockKind::Db, name)? {
            Ok(number) => self.given_in_data(alloc, number, path),
            Err(Reason::UnknownName) => Ok(ResolvedOperand::Unknown),
            Err(_) => Ok(ResolvedOperand::Unfit),
        }
    }

    /// The number of the data block of a name that OPN opens, or what its operand is without one.
    fn db_named(
        &self,
        alloc: Global,
        name: &RawName,
    ) -> Result<Result<u16, ResolvedOperand>, NoMemory>
        ensures { IfOk result (λ n. n ≡ db_opened (block_number self.now.text.symbols block.Db name.now)) }
    {
        let names = self.names;
        let number = names.symbols().block_number(alloc, BlockKind::Db, name)?;
        Ok(db_opened(number))
    }

    /// The operand of OPN for a data block by its name.
    #[tactic(auto, using(crate::proofs::Operands::opened, crate::proofs::Operands::not_opened))]
    fn given_open_db(&self, alloc: Global, name: &RawName) -> Result<ResolvedOperand, NoMemory>
        ensures { IfOk result (λ g. g ≡ given_number (given_open (λ n. behind.Db n)) (block_number self.now.text.symbols block.Db name.now)) }
    {
        match self.db_named(alloc, name)? {
            Ok(number) => Ok(ResolvedOperand::Db(number)),
            Err(operand) => Ok(operand),
        }
    }

    /// The operand of OPN for an instance by its name.
    #[tactic(auto, using(crate::proofs::Operands::opened, crate::proofs::Operands::not_opened))]
    fn given_open_di(&self, alloc: Global, name: &RawName) -> Result<ResolvedOperand, NoMemory>
        ensures { IfOk result (λ g. g ≡ given_number (given_open (λ n. behind.Di n)) (block_number self.now.text.symbols block.Db name.now)) }
    {
        match self.db_named(alloc, name)? {
            Ok(number) => Ok(ResolvedOperand::Di(number)),
            Err(operand) => Ok(operand),
        }
    }

    /// The operand that a path from a variable of the block is.
    fn given_local(&self, alloc: Global, path: &[PathStep]) -> Result<ResolvedOperand, NoMemory>
        ensures { IfOk result (λ g. g ≡ given_variable self.now.block path.now) }
    {
        self.variables.given_variable(alloc, path)
    }

    /// The position of a label.
    fn given_label(&self, label: &[u8]) -> ResolvedOperand
        ensures { result ≡ behind.Target (target_in self.now.block.body label.now) }
    {
        ResolvedOperand::Target(self.labels.target(label))
    }

    /// The operand of a mnemonic, from a raw operand.
    #[tactic(auto, unfolding(stl_rules::specs::Raw::resolved_operand))]
    pub fn resolved_operand(
        &self,
        alloc: Global,
        operand: &RawOperand,
    ) -> Result<ResolvedOperand, NoMemory>
        ensures { IfOk result (λ g. g ≡ resolved_operand self.now operand.now) }
    {
        match operand {
            RawOperand::Missing => Ok(ResolvedOperand::Nothing),
            RawOperand::At(place) => Ok(given_place(*place)),
            RawOperand::Named(name) => self.given_name(alloc, name.as_slice()),
            RawOperand::InBlock(name, path) => {
                self.given_in_block(alloc, name.as_slice(), path.as_slice())
            }
            RawOperand::Local(path) => self.given_local(alloc, path.as_slice()),
            RawOperand::Flag(test) => Ok(ResolvedOperand::Flag(*test)),
            RawOperand::Stw => Ok(ResolvedOperand::Stw),
            RawOperand::DbNo => Ok(ResolvedOperand::DbNo),
            RawOperand::DiNo => Ok(ResolvedOperand::DiNo),
            RawOperand::Constant(constant) => Ok(ResolvedOperand::Constant(*constant)),
            RawOperand::Pointer(pointer) => Ok(given_pointer(*pointer)),
            RawOperand::ByMemory(area, width, place) => Ok(given_by_memory(*area, *width, *place)),
            RawOperand::ByRegister(area, width, ar, offset) => {
                Ok(given_by_register(*area, *width, *ar, *offset))
            }
            RawOperand::Crossing(width, ar, offset) => Ok(given_crossing(*width, *ar, *offset)),
            RawOperand::OtherAr => Ok(ResolvedOperand::OtherAr),
            RawOperand::OpenDb(name) => self.given_open_db(alloc, name),
            RawOperand::OpenDi(name) => self.given_open_di(alloc, name),
            RawOperand::OpenDbBy(place) => Ok(given_db_by(*place)),
            RawOperand::OpenDiBy(place) => Ok(given_di_by(*place)),
            RawOperand::Label(label) => Ok(self.given_label(label.as_slice())),
            RawOperand::Call(_) => Ok(ResolvedOperand::Unfit),
        }
    }
}
