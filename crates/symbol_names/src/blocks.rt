//! The blocks of a text that are no data blocks.
ghost use Rattle.std.specs.Prelude.{◌≡◌, ◌∷◌, ◌++◌, [], IfOk, OnOk, Ok, map, take};
ghost use Rattle.name_tables.specs.Before.{block_numbers, numbers_before};
ghost use Rattle.stl_rules.specs.Names.{block_number};
ghost use Rattle.stl_rules.specs.Programs.{block_name, body_of};
ghost use Rattle.stl_rules.specs.Stages.{blocks_behind};
ghost use Rattle.block_variables.specs.Firsts.{with_breaks};
ghost use Rattle.symbol_names.specs.inner.Kept.{block_breaks, block_within, content_breaks_of, name_within};
ghost use Rattle.operand_scopes.specs.Refused.{own_of};

use crate::bodies::{body_of, note_instrs};
use crate::headings::note_heading;
use block_variables::{BlockVariables, join};
use body_labels::Labels;
use instruction_operands::may_have;
use name_tables::Names;
use operand_scopes::{IndexedDeclarations, OperandScope};
use s7_base::{Break, List, NoMemory, Reason};
use std::alloc::Global;
use stl_tree::{Block, BlockKind, BlockName, Instr, RawBlock};

/// The blocks of a text, and the first rule that is broken in them.
#[derive(Drop)]
pub struct Blocks {
    /// One block for each raw block, in the order of the text.
    pub made: List<Block>,

    pub first: Option<Break>,
}

/// The name of a block by its kind and its number.
fn name_numbered(kind: BlockKind, number: u16) -> BlockName
    ensures { result ≡ block_name kind (Ok number) }
{
    match kind {
        BlockKind::Fc => BlockName::Fc(number),
        BlockKind::Fb => BlockName::Fb(number),
        BlockKind::Ob | BlockKind::Db => BlockName::Ob(number),
    }
}

/// The name of a block; any name where the number is none of its kind.
fn name_within(kind: BlockKind, number: Result<u32, Reason>) -> BlockName
    ensures { result ≡ name_within kind number }
{
    match number {
        Ok(number) if may_have(kind, number) => name_numbered(kind, number as u16),
        _ => BlockName::Ob(0),
    }
}

/// What is known of the blocks of a text when their bodies are judged.
#[derive(Clone, Copy)]
pub struct Known<'s, 't> {
    pub names: &'s Names<'t>,

    /// The declarations of the data blocks.
    pub declarations: &'s [IndexedDeclarations<'t>],

    /// The variables of the blocks.
    pub variables: &'s [BlockVariables<'t>],
}

/// The instructions of a block, by what names mean in it; notes the rules that its variables and its instructions
/// break.
#[tactic(auto, using(block_variables::proofs::Firsts::behind, block_variables::proofs::Firsts::joins))]
fn body_in(
    alloc: Global,
    known: &Known<'_, '_>,
    variables: &BlockVariables<'_>,
    raw: &RawBlock,
    first: &mut Option<Break>,
) -> Result<List<Instr>, NoMemory>
    requires declarations { known.now.declarations.now ≡ map own_of known.now.names.now.dbs }
    requires variables { known.now.variables.now ≡ known.now.names.now.blocks }
    requires own { variables.now ≡ raw.now }
    ensures body { IfOk result (λ body. body ≡ body_of (record { text = known.now.names.now; block = raw.now })) }
    ensures first { OnOk result (first.new ≡ with_breaks first.old (content_breaks_of (record { text = known.now.names.now; block = raw.now }))) }
{
    join(first, variables.first());
    let labels = Labels::new(alloc, raw.body.as_slice())?;
    let scope = OperandScope::new(
        known.names,
        known.declarations,
        known.variables,
        raw,
        variables,
        &labels,
    );
    body_of(alloc, &scope, first)
}

/// Notes the rules that the variables and the instructions of a block break.
#[tactic(auto, using(block_variables::proofs::Firsts::behind, block_variables::proofs::Firsts::joins))]
fn note_body(
    alloc: Global,
    known: &Known<'_, '_>,
    variables: &BlockVariables<'_>,
    raw: &RawBlock,
    first: &mut Option<Break>,
) -> Result<(), NoMemory>
    requires declarations { known.now.declarations.now ≡ map own_of known.now.names.now.dbs }
    requires variables { known.now.variables.now ≡ known.now.names.now.blocks }
    requires own { variables.now ≡ raw.now }
    ensures { OnOk result (first.new ≡ with_breaks first.old (content_breaks_of (record { text = known.now.names.now; block = raw.now }))) }
{
    join(first, variables.first());
    let labels = Labels::new(alloc, raw.body.as_slice())?;
    let scope = OperandScope::new(
        known.names,
        known.declarations,
        known.variables,
        raw,
        variables,
        &labels,
    );
    note_instrs(alloc, &scope, raw.body.as_slice(), first)
}

/// Adds a block, by its place, its number and its variables.
#[tactic(auto, using(block_variables::proofs::Firsts::behind))]
fn put_block(
    alloc: Global,
    known: &Known<'_, '_>,
    place: usize,
    number: Result<u32, Reason>,
    variables: &BlockVariables<'_>,
    raw: &RawBlock,
    blocks: &mut Blocks,
) -> Result<(), NoMemory>
    requires declarations { known.now.declarations.now ≡ map own_of known.now.names.now.dbs }
    requires variables { known.now.variables.now ≡ known.now.names.now.blocks }
    requires own { variables.now ≡ raw.now }
    requires number { number ≡ block_number known.now.names.now.symbols raw.now.kind raw.now.name }
    ensures made { OnOk result (blocks.new.made ≡ blocks.old.made ++ block_within known.now.names.now raw.now ∷ []) }
    ensures first { OnOk result (blocks.new.first ≡ with_breaks blocks.old.first (block_breaks known.now.names.now
        (numbers_before (take place (block_numbers known.now.names.now.symbols known.now.names.now.blocks))) raw.now)) }
{
    let numbers = known.names.blocks();
    note_heading(
        raw.kind,
        raw.line,
        numbers,
        place,
        number,
        &mut blocks.first,
    );
    let body = body_in(alloc, known, variables, raw, &mut blocks.first)?;
    blocks.made.push(Block {
        name: name_within(raw.kind, number),
        line: raw.line,
        formals: variables.copy_formals(alloc)?,
        body,
    })
}

/// Adds blocks one after another.
#[tactic(auto, using(crate::proofs::Parts::same_at))]
fn put_each(
    alloc: Global,
    known: &Known<'_, '_>,
    raws: &[RawBlock],
    blocks: &mut Blocks,
) -> Result<(), NoMemory>
    requires declarations { known.now.declarations.now ≡ map own_of known.now.names.now.dbs }
    requires variables { known.now.variables.now ≡ known.now.names.now.blocks }
    requires raws { raws.now ≡ known.now.names.now.blocks }
    ensures made { OnOk result (blocks.new.made ≡ blocks.old.made ++ map (block_within known.now.names.now) raws.now) }
    ensures first { OnOk result (blocks.new.first ≡ with_breaks blocks.old.first (blocks_behind known.now.names.now [] raws.now)) }
{
    for place in 0..raws.len() {
        let raw = &raws[place];
        let number = known.names.blocks().number_at(place);
        let variables = &known.variables[place];
        put_block(alloc, known, place, number, variables, raw, blocks)?;
    }
    Ok(())
}

/// Adds the blocks of a text.
pub fn put_blocks(
    alloc: Global,
    known: &Known<'_, '_>,
    raws: &[RawBlock],
    first: Option<Break>,
) -> Result<Blocks, NoMemory>
    requires declarations { known.now.declarations.now ≡ map own_of known.now.names.now.dbs }
    requires variables { known.now.variables.now ≡ known.now.names.now.blocks }
    requires raws { raws.now ≡ known.now.names.now.blocks }
    ensures made { IfOk result (λ b. b.made ≡ map (block_within known.now.names.now) raws.now) }
    ensures first { IfOk result (λ b. b.first ≡ with_breaks first (blocks_behind known.now.names.now [] raws.now)) }
{
    let mut blocks = Blocks {
        made: List::new(alloc),
        first,
    };
    put_each(alloc, known, raws, &mut blocks)?;
    Ok(blocks)
}

/// Notes the rules that a block breaks, by its place, its number and its variables.
#[tactic(auto, using(block_variables::proofs::Firsts::behind))]
fn note_block(
    alloc: Global,
    known: &Known<'_, '_>,
    place: usize,
    number: Result<u32, Reason>,
    variables: &BlockVariables<'_>,
    raw: &RawBlock,
    first: &mut Option<Break>,
) -> Result<(), NoMemory>
    requires declarations { known.now.declarations.now ≡ map own_of known.now.names.now.dbs }
    requires variables { known.now.variables.now ≡ known.now.names.now.blocks }
    requires own { variables.now ≡ raw.now }
    requires number { number ≡ block_number known.now.names.now.symbols raw.now.kind raw.now.name }
    ensures { OnOk result (first.new ≡ with_breaks first.old (block_breaks known.now.names.now
        (numbers_before (take place (block_numbers known.now.names.now.symbols known.now.names.now.blocks))) raw.now)) }
{
    note_heading(
        raw.kind,
        raw.line,
        known.names.blocks(),
        place,
        number,
        first,
    );
    note_body(alloc, known, variables, raw, first)
}

/// Notes the rules that the blocks of a text break.
#[tactic(auto, using(crate::proofs::Parts::same_at))]
pub fn note_blocks(
    alloc: Global,
    known: &Known<'_, '_>,
    raws: &[RawBlock],
    first: &mut Option<Break>,
) -> Result<(), NoMemory>
    requires declarations { known.now.declarations.now ≡ map own_of known.now.names.now.dbs }
    requires variables { known.now.variables.now ≡ known.now.names.now.blocks }
    requires raws { raws.now ≡ known.now.names.now.blocks }
    ensures { OnOk result (first.new ≡ with_breaks first.old (blocks_behind known.now.names.now [] raws.now)) }
{
    for place in 0..raws.len() {
        let raw = &raws[place];
        let number = known.names.blocks().number_at(place);
        let variables = &known.variables[place];
        note_block(alloc, known, place, number, variables, raw, first)?;
    }
    Ok(())
}

/// The variables of all blocks.
pub fn variables_of<'t>(
    alloc: Global,
    raws: &'t [RawBlock],
) -> Result<Vec<BlockVariables<'t>>, NoMemory>
    ensures { IfOk result (λ variables. variables.items ≡ raws.now) }
{
    let mut variables = Vec::with_capacity(alloc, raws.len())?;
    for raw in raws {
        variables.push(BlockVariables::new(alloc, raw)?)?;
    }
    Ok(variables)
}
