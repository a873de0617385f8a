//! What names mean in a text.
ghost use Rattle.std.specs.Prelude.{◌≡◌, ◌∷◌, ◌++◌, [], IfOk, OnOk, option_and_then, slice_get};
ghost use Rattle.stl_rules.specs.Names.{block_number, db_numbered};
ghost use Rattle.name_tables.specs.Before.{block_numbers, db_numbers};

use crate::numbers::Numbers;
use crate::symbols::Symbols;
use s7_base::{NoMemory, Reason};
use std::alloc::Global;
use std::marker::Model;
use stl_tree::{BlockKind, RawBlock, RawData, RawName, RawProgram};

/// A text whose names are found by maps. Contracts see the text.
#[derive(Drop)]
pub struct Names<'t> {
    text: &'t RawProgram,
    symbols: Symbols<'t>,
    dbs: Numbers,
    blocks: Numbers,
}

impl<'t> Model for Names<'t> {
    ghost use Rattle.std.specs.Prelude.{◌≡◌};
    ghost use Rattle.stl_tree.specs.declared.raw.RawProgram.{RawProgram};
    ghost use Rattle.name_tables.specs.Before.{block_numbers, db_numbers};
    ghost use Rattle.std.specs.Coded.{codes};
    ghost use Rattle.stl_tree.specs.contracts.raw.DeclType as declared;
    ghost use Rattle.stl_tree.specs.contracts.raw.Declaration as declaration;
    ghost use Rattle.stl_tree.specs.contracts.raw.RawOperand as operand;

    ghost Value = { RawProgram };

    ghost coded = { Prim.hlevel (codes, declared.the_row.coded, declaration.the_row.coded, operand.the_row.coded) };

    ghost view = { λ n. n.text.now };

    ghost invariant = { λ n. (n.symbols ≡ n.text.now.symbols)
        × (n.dbs ≡ db_numbers n.text.now.symbols n.text.now.dbs)
        × (n.blocks ≡ block_numbers n.text.now.symbols n.text.now.blocks) };
}

/// Adds a block by kind and number.
fn put_number(
    alloc: Global,
    symbols: &Symbols<'_>,
    kind: BlockKind,
    name: &RawName,
    numbers: &mut Vec<(BlockKind, Result<u32, Reason>)>,
) -> Result<(), NoMemory>
    ensures { OnOk result (numbers.new.items ≡ numbers.old.items ++ (kind, block_number symbols.now kind name.now) ∷ []) }
{
    let number = symbols.block_number(alloc, kind, name)?;
    numbers.push((kind, number))?;
    Ok(())
}

/// Data blocks by kind and number.
fn numbers_of_dbs(
    alloc: Global,
    symbols: &Symbols<'_>,
    dbs: &[RawData],
) -> Result<Vec<(BlockKind, Result<u32, Reason>)>, NoMemory>
    ensures { IfOk result (λ numbers. numbers.items ≡ db_numbers symbols.now dbs.now) }
{
    let mut numbers = Vec::with_capacity(alloc, dbs.len())?;
    for d in dbs {
        put_number(alloc, symbols, BlockKind::Db, &d.name, &mut numbers)?;
    }
    Ok(numbers)
}

/// The blocks that are no data blocks by kind and number.
fn numbers_of_blocks(
    alloc: Global,
    symbols: &Symbols<'_>,
    blocks: &[RawBlock],
) -> Result<Vec<(BlockKind, Result<u32, Reason>)>, NoMemory>
    ensures { IfOk result (λ numbers. numbers.items ≡ block_numbers symbols.now blocks.now) }
{
    let mut numbers = Vec::with_capacity(alloc, blocks.len())?;
    for raw in blocks {
        put_number(alloc, symbols, raw.kind, &raw.name, &mut numbers)?;
    }
    Ok(numbers)
}

impl<'t> Names<'t> {
    /// The names of a text.
    pub fn new(alloc: Global, text: &'t RawProgram) -> Result<Names<'t>, NoMemory>
        ensures { IfOk result (λ names. names ≡ text.now) }
    {
        let symbols = Symbols::new(alloc, text.symbols.as_slice())?;
        let numbers = numbers_of_dbs(alloc, &symbols, text.dbs.as_slice())?;
        let dbs = Numbers::new(alloc, numbers)?;
        let numbers = numbers_of_blocks(alloc, &symbols, text.blocks.as_slice())?;
        let blocks = Numbers::new(alloc, numbers)?;
        Ok(Names {
            text,
            symbols,
            dbs,
            blocks,
        })
    }

    /// The text.
    pub fn text(&self) -> &'t RawProgram
        ensures { result.now ≡ self.now }
    {
        self.text
    }

    /// The symbols of the text.
    pub fn symbols(&self) -> &Symbols<'t>
        ensures { result.now ≡ self.now.symbols }
    {
        &self.symbols
    }

    /// The data blocks of the text by kind and number.
    pub fn dbs(&self) -> &Numbers
        ensures { result.now ≡ db_numbers self.now.symbols self.now.dbs }
    {
        &self.dbs
    }

    /// The other blocks of the text by kind and number.
    pub fn blocks(&self) -> &Numbers
        ensures { result.now ≡ block_numbers self.now.symbols self.now.blocks }
    {
        &self.blocks
    }

    /// The place of the data block of a number.
    pub fn place_of_db(&self, number: u32) -> Option<usize>
        ensures { option_and_then (λ place. slice_get self.now.dbs place) result ≡ db_numbered self.now.symbols self.now.dbs number }
    {
        self.dbs.place_of(BlockKind::Db, number)
    }
}
