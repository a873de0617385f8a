//! The data blocks of a text.
ghost use Rattle.std.specs.Prelude.{◌≡◌, ◌∷◌, ◌++◌, ◌&&◌, [], IfOk, OnOk, Ok, Some, is_none, map, slice_get, take, true};
ghost use Rattle.std.specs.List.{filter_map};
ghost use Rattle.std.specs.Option.{option_to_list};
ghost use Rattle.memory_areas.specs.declared.sizes.TheConstants.{MOST_BLOCKS};
ghost use Rattle.s7_base.specs.Broken.{first_of_all};
ghost use Rattle.stl_rules.specs.Names.{block_number};
ghost use Rattle.stl_rules.specs.Interfaces.{are_refused, most_in_block};
ghost use Rattle.stl_rules.specs.Stages.{content_breaks, dbs_behind, one_too_many, valued_breaks};
ghost use Rattle.stl_tree.specs.declared.raw.BlockKind.TheVariants as block;
ghost use Rattle.block_variables.specs.Firsts.{with_breaks};
ghost use Rattle.symbol_names.specs.inner.Kept.{bytes_kept, bytes_of_sections, data_by, data_kept, db_breaks, instance_kept, kept_if};
ghost use Rattle.name_tables.specs.Before.{db_numbers, numbers_before};
ghost use Rattle.operand_scopes.specs.Refused.{decls_of, is_refused, own_of};

use crate::headings::note_heading;
use crate::instances::{fill_instance, put_instance};
use block_variables::{BlockVariables, join, note};
use component_index::Components;
use data_contents::{Content, content_of};
use instruction_operands::may_have;
use memory_areas::{DataBlock, MOST_BLOCKS};
use name_tables::Names;
use operand_scopes::IndexedDeclarations;
use s7_base::{Break, List, NoMemory, Reason};
use std::alloc::Global;
use stl_tree::{BlockKind, Declaration, Instance, RawData, RawDataKind, RawInitial};
use symbol_layout::MOST_IN_BLOCK;

/// The result for a data block.
#[derive(Drop)]
struct DataBlockResult {
    /// Whether its declarations break a rule.
    refused: bool,

    first: Option<Break>,

    /// The bytes of the data block, where it has declarations of its own and breaks no rule.
    bytes: Option<List<u8>>,
}

/// The data blocks of a text, and the first rule that is broken in them.
#[derive(Drop)]
pub struct FoundDataBlocks<'t> {
    /// The declarations of the data blocks.
    pub declarations: Vec<IndexedDeclarations<'t>>,

    /// The data blocks that break no rule of their own.
    pub made: List<DataBlock>,

    pub instances: List<Instance>,

    pub first: Option<Break>,
}

/// The result of declarations and initial values.
#[tactic(auto, using(crate::proofs::Contents::content_laws))]
fn fill_own(
    alloc: Global,
    components: &Components<'_>,
    values: &[RawInitial],
) -> Result<DataBlockResult, NoMemory>
    ensures refused { IfOk result (λ f. f.refused ≡ are_refused most_in_block components.now) }
    ensures first { IfOk result (λ f. f.first ≡ first_of_all (valued_breaks components.now values.now)) }
    ensures bytes { IfOk result (λ f. f.bytes ≡ bytes_of_sections values.now components.now) }
{
    match content_of(alloc, components, values)? {
        Content::Bytes(bytes) => Ok(DataBlockResult {
            refused: false,
            first: None,
            bytes: Some(bytes),
        }),
        Content::BadDeclarations(first) => Ok(DataBlockResult {
            refused: true,
            first: Some(first),
            bytes: None,
        }),
        Content::BadValues(first) => Ok(DataBlockResult {
            refused: false,
            first: Some(first),
            bytes: None,
        }),
    }
}

/// The result for a data block, by the index of its declarations.
fn fill(
    alloc: Global,
    names: &Names<'_>,
    blocks: &[BlockVariables<'_>],
    keep: bool,
    components: &Components<'_>,
    d: &RawData,
) -> Result<DataBlockResult, NoMemory>
    requires blocks { blocks.now ≡ names.now.blocks }
    requires components { components.now ≡ decls_of d.now.kind ∷ [] }
    ensures refused { IfOk result (λ f. f.refused ≡ is_refused d.now.kind) }
    ensures first { IfOk result (λ f. f.first ≡ first_of_all (content_breaks names.now d.now.line d.now.initial d.now.kind)) }
    ensures bytes { IfOk result (λ f. keep ≡ true → f.bytes ≡ bytes_kept names.now d.now.initial d.now.kind) }
{
    match &d.kind {
        RawDataKind::Own(_) => fill_own(alloc, components, d.initial.as_slice()),
        RawDataKind::Instance(name) => {
            let filled = fill_instance(alloc, names, blocks, keep, name, d)?;
            Ok(DataBlockResult {
                refused: false,
                first: filled.first,
                bytes: filled.bytes,
            })
        }
    }
}

/// The data block of a number with these bytes.
fn data_of(number: u32, bytes: List<u8>) -> Option<DataBlock>
    ensures { result ≡ data_by (Ok number) (Some bytes) }
{
    if may_have(BlockKind::Db, number) {
        Some(DataBlock {
            number: number as u16,
            bytes,
        })
    } else {
        None
    }
}

/// A data block, where it has a number and bytes.
fn data_by(number: Result<u32, Reason>, bytes: Option<List<u8>>) -> Option<DataBlock>
    ensures { result ≡ data_by number bytes }
{
    match number {
        Ok(number) => data_of(number, bytes?),
        Err(_) => None,
    }
}

/// Adds a data block to the others, where there are not too many.
fn put_made(
    made: &mut List<DataBlock>,
    keep: bool,
    block: Option<DataBlock>,
) -> Result<(), NoMemory>
    ensures { OnOk result (made.new ≡ made.old ++ option_to_list (kept_if keep block)) }
{
    match block {
        Some(block) if keep => made.push(block),
        _ => Ok(()),
    }
}

/// The declarations of a data block; an instance has none of its own.
fn decls_of(kind: &RawDataKind) -> &[Declaration]
    ensures { result.now ≡ decls_of kind.now }
{
    match kind {
        RawDataKind::Own(decls) => decls.as_slice(),
        RawDataKind::Instance(_) => &[],
    }
}

/// Adds a data block, by its place and its number.
#[tactic(auto, using(crate::proofs::Contents::put_laws))]
fn put_data<'t>(
    alloc: Global,
    names: &Names<'_>,
    blocks: &[BlockVariables<'_>],
    keep: bool,
    place: usize,
    number: Result<u32, Reason>,
    d: &'t RawData,
    found: &mut FoundDataBlocks<'t>,
) -> Result<(), NoMemory>
    requires blocks { blocks.now ≡ names.now.blocks }
    requires number { number ≡ block_number names.now.symbols block.Db d.now.name }
    ensures declarations { OnOk result (found.new.declarations.items ≡ found.old.declarations.items ++ own_of d.now ∷ []) }
    ensures made { OnOk result (found.new.made ≡ found.old.made ++ option_to_list (data_kept keep names.now d.now)) }
    ensures instances { OnOk result (found.new.instances ≡ found.old.instances ++ option_to_list (instance_kept names.now d.now)) }
    ensures first { OnOk result (found.new.first ≡ with_breaks found.old.first (db_breaks names.now
        (numbers_before (take place (db_numbers names.now.symbols names.now.dbs))) d.now (block_number names.now.symbols block.Db d.now.name))) }
{
    note_heading(
        BlockKind::Db,
        d.line,
        names.dbs(),
        place,
        number,
        &mut found.first,
    );
    let components = Components::new(alloc, &[decls_of(&d.kind)])?;
    let DataBlockResult {
        refused,
        first,
        bytes,
    } = fill(alloc, names, blocks, keep, &components, d)?;
    join(&mut found.first, first);
    put_made(&mut found.made, keep, data_by(number, bytes))?;
    put_instance(alloc, names, number, &d.kind, &mut found.instances)?;
    found.declarations.push(IndexedDeclarations::new(components, MOST_IN_BLOCK, refused))?;
    Ok(())
}

/// Notes the rule that the data blocks break whose place is past the last that a program may have.
#[tactic(auto, using(block_variables::proofs::Firsts::none_more))]
pub fn note_too_many(dbs: &[RawData], first: &mut Option<Break>)
    ensures { first.new ≡ with_breaks first.old (one_too_many (slice_get dbs.now MOST_BLOCKS)) }
{
    match dbs.get(MOST_BLOCKS) {
        Some(d) => note(first, d.line, Reason::TooLarge),
        None => {}
    }
}

/// Whether there are no more data blocks than a program may have.
fn are_few(dbs: &[RawData]) -> bool
    ensures { result ≡ is_none (slice_get dbs.now MOST_BLOCKS) }
{
    match dbs.get(MOST_BLOCKS) {
        Some(_) => false,
        None => true,
    }
}

/// Adds data blocks one after another.
fn put_each<'t>(
    alloc: Global,
    names: &Names<'_>,
    blocks: &[BlockVariables<'_>],
    keep: bool,
    dbs: &'t [RawData],
    found: &mut FoundDataBlocks<'t>,
) -> Result<(), NoMemory>
    requires blocks { blocks.now ≡ names.now.blocks }
    requires dbs { dbs.now ≡ names.now.dbs }
    ensures declarations { OnOk result (found.new.declarations.items ≡ found.old.declarations.items ++ map own_of dbs.now) }
    ensures made { OnOk result (found.new.made ≡ found.old.made ++ filter_map (data_kept keep names.now) dbs.now) }
    ensures instances { OnOk result (found.new.instances ≡ found.old.instances ++ filter_map (instance_kept names.now) dbs.now) }
    ensures first { OnOk result (found.new.first ≡ with_breaks found.old.first (dbs_behind names.now [] dbs.now)) }
{
    for place in 0..dbs.len() {
        let d = &dbs[place];
        let number = names.dbs().number_at(place);
        put_data(alloc, names, blocks, keep, place, number, d, found)?;
    }
    Ok(())
}

/// Adds the data blocks of a text.
pub fn put_dbs<'t>(
    alloc: Global,
    names: &Names<'_>,
    blocks: &[BlockVariables<'_>],
    keep: bool,
    dbs: &'t [RawData],
    first: Option<Break>,
) -> Result<FoundDataBlocks<'t>, NoMemory>
    requires blocks { blocks.now ≡ names.now.blocks }
    requires dbs { dbs.now ≡ names.now.dbs }
    ensures declarations { IfOk result (λ f. f.declarations.items ≡ map own_of dbs.now) }
    ensures made { IfOk result (λ f. f.made ≡ filter_map (data_kept (keep && is_none (slice_get dbs.now MOST_BLOCKS)) names.now) dbs.now) }
    ensures instances { IfOk result (λ f. f.instances ≡ filter_map (instance_kept names.now) dbs.now) }
    ensures first { IfOk result (λ f. f.first ≡ with_breaks first (dbs_behind names.now [] dbs.now)) }
{
    let mut found = FoundDataBlocks {
        declarations: Vec::new(alloc),
        made: List::new(alloc),
        instances: List::new(alloc),
        first,
    };
    put_each(alloc, names, blocks, keep && are_few(dbs), dbs, &mut found)?;
    Ok(found)
}
