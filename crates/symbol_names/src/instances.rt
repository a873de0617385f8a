//! The instances of a text: data blocks with the interface of a function block.
ghost use Rattle.std.specs.Prelude.{◌≡◌, ◌++◌, IfOk, IfSome, OnOk, false, option_and_then, option_map, slice_get, true};
ghost use Rattle.std.specs.Option.{option_to_list};
ghost use Rattle.block_variables.specs.Firsts.{with_breaks};
ghost use Rattle.s7_base.specs.Broken.{first_of_all};
ghost use Rattle.stl_rules.specs.Interfaces.{are_refused, most_in_block};
ghost use Rattle.stl_rules.specs.Names.{block_found};
ghost use Rattle.stl_rules.specs.Stages.{content_breaks, instance_values, values_in};
ghost use Rattle.stl_tree.specs.declared.raw.BlockKind.TheVariants as block;
ghost use Rattle.stl_tree.specs.declared.raw.RawDataKind.TheVariants as data_kind;
ghost use Rattle.symbol_names.specs.inner.Kept.{bytes_in, bytes_kept, bytes_of_sections, function_block_breaks, instance_by, instance_in_kind};

use block_variables::{BlockVariables, join, note, note_if};
use component_index::Components;
use data_contents::{Content, content_of, first_of_values};
use instruction_operands::may_have;
use name_tables::Names;
use s7_base::{Break, Line, List, NoMemory, Reason};
use std::alloc::Global;
use stl_tree::{BlockKind, Instance, RawData, RawDataKind, RawInitial, RawName};

/// The result for an instance.
#[derive(Drop)]
pub struct FilledInstance {
    pub first: Option<Break>,

    /// Its bytes, where they are wanted and it breaks no rule.
    pub bytes: Option<List<u8>>,
}

/// The variables of the block at a place, if there is one.
#[tactic(auto, using(operand_scopes::proofs::Blocks::lent_at))]
fn block_at<'s, 't>(
    blocks: &'s [BlockVariables<'t>],
    place: Option<usize>,
) -> Option<&'s BlockVariables<'t>>
    ensures { option_map (λ b. b.now) result ≡ option_and_then (λ i. slice_get blocks.now i) place }
{
    match place {
        Some(place) => blocks.get(place),
        None => None,
    }
}

/// The variables of the function block of a number.
fn function_block<'s, 't>(
    names: &Names<'_>,
    blocks: &'s [BlockVariables<'t>],
    number: Result<u32, Reason>,
) -> Option<&'s BlockVariables<'t>>
    requires { blocks.now ≡ names.now.blocks }
    ensures { option_map (λ b. b.now) result ≡ block_found names.now block.Fb number }
{
    match number {
        Ok(number) => block_at(blocks, names.blocks().place_of(BlockKind::Fb, number)),
        Err(_) => None,
    }
}

/// Notes the rules that the name of an instance's function block breaks, on the line of the heading.
#[tactic(auto, using(block_variables::proofs::Firsts::behind))]
fn note_function_block(
    line: Line,
    number: Result<u32, Reason>,
    is_found: bool,
    first: &mut Option<Break>,
)
    ensures { first.new ≡ with_breaks first.old (function_block_breaks line number is_found) }
{
    match number {
        Ok(number) => {
            note_if(first, !is_found, line, Reason::UnknownBlock);
            note_if(
                first,
                !may_have(BlockKind::Fb, number),
                line,
                Reason::BadAddress,
            );
        }
        Err(rule) => note(first, line, rule),
    }
}

/// The result of initial values in an interface that keeps the rules.
#[tactic(auto, using(crate::proofs::Contents::kept_laws))]
fn fill_kept(
    alloc: Global,
    keep: bool,
    interface: &Components<'_>,
    values: &[RawInitial],
) -> Result<FilledInstance, NoMemory>
    requires { are_refused most_in_block interface.now ≡ false }
    ensures first { IfOk result (λ f. f.first ≡ first_of_all (values_in interface.now values.now)) }
    ensures bytes { IfOk result (λ f. keep ≡ true → f.bytes ≡ bytes_of_sections values.now interface.now) }
{
    if !keep {
        let first = first_of_values(alloc, interface, values)?;
        return Ok(FilledInstance { first, bytes: None });
    }
    match content_of(alloc, interface, values)? {
        Content::Bytes(bytes) => Ok(FilledInstance {
            first: None,
            bytes: Some(bytes),
        }),
        Content::BadDeclarations(_) => Ok(FilledInstance {
            first: None,
            bytes: None,
        }),
        Content::BadValues(first) => Ok(FilledInstance {
            first: Some(first),
            bytes: None,
        }),
    }
}

/// The result of initial values in the interface of a function block, if that is found.
#[tactic(auto, using(crate::proofs::FunctionBlocks::instance_laws))]
fn fill_found(
    alloc: Global,
    keep: bool,
    found: Option<&BlockVariables<'_>>,
    values: &[RawInitial],
) -> Result<FilledInstance, NoMemory>
    requires { IfSome found (λ v. v.now.kind ≡ block.Fb) }
    ensures first { IfOk result (λ f. f.first ≡ first_of_all (instance_values (option_map (λ v. v.now) found.entry) values.now)) }
    ensures bytes { IfOk result (λ f. keep ≡ true → f.bytes ≡ bytes_in values.now (option_map (λ v. v.now) found.entry)) }
{
    match found {
        None => {
            let nothing = Components::new(alloc, &[])?;
            let first = first_of_values(alloc, &nothing, values)?;
            Ok(FilledInstance { first, bytes: None })
        }
        Some(variables) if variables.is_interface_refused() => Ok(FilledInstance {
            first: None,
            bytes: None,
        }),
        Some(variables) => fill_kept(alloc, keep, variables.interface(), values),
    }
}

/// The result for an instance of the function block of a name.
pub fn fill_instance(
    alloc: Global,
    names: &Names<'_>,
    blocks: &[BlockVariables<'_>],
    keep: bool,
    name: &RawName,
    d: &RawData,
) -> Result<FilledInstance, NoMemory>
    requires { blocks.now ≡ names.now.blocks }
    ensures first { IfOk result (λ f. f.first ≡ first_of_all (content_breaks names.now d.now.line d.now.initial (data_kind.Instance name.now))) }
    ensures bytes { IfOk result (λ f. keep ≡ true → f.bytes ≡ bytes_kept names.now d.now.initial (data_kind.Instance name.now)) }
{
    let number = names.symbols().block_number(alloc, BlockKind::Fb, name)?;
    let found = function_block(names, blocks, number);
    let mut first = None;
    note_function_block(d.line, number, found.is_some(), &mut first);
    let filled = fill_found(alloc, keep, found, d.initial.as_slice())?;
    join(&mut first, filled.first);
    Ok(FilledInstance {
        first,
        bytes: filled.bytes,
    })
}

/// An instance by two numbers.
fn instance_by(db: Result<u32, Reason>, fb: Result<u32, Reason>) -> Option<Instance>
    ensures { result ≡ instance_by db fb }
{
    match (db, fb) {
        (Ok(db), Ok(fb)) if db <= 65_535 && fb <= 65_535 => Some(Instance {
            db: db as u16,
            fb: fb as u16,
        }),
        _ => None,
    }
}

/// Adds the instance that a data block of a number is, if it is one.
pub fn put_instance(
    alloc: Global,
    names: &Names<'_>,
    db: Result<u32, Reason>,
    kind: &RawDataKind,
    instances: &mut List<Instance>,
) -> Result<(), NoMemory>
    ensures { OnOk result (instances.new ≡ instances.old ++ option_to_list (instance_in_kind names.now db kind.now)) }
{
    match kind {
        RawDataKind::Own(_) => Ok(()),
        RawDataKind::Instance(name) => {
            let fb = names.symbols().block_number(alloc, BlockKind::Fb, name)?;
            match instance_by(db, fb) {
                Some(instance) => instances.push(instance),
                None => Ok(()),
            }
        }
    }
}
