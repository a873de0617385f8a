//! The effect of declarations on the raw program.
ghost use Rattle.std.specs.Prelude.{◌≡◌, [], ◌∷◌, Some, option_map, IfOk, OnOk};
ghost use Rattle.stl_grammar.specs.RawPrograms.{array_of, after_struct_end, declaration, with_declared, with_last, with_own, with_part, with_type};

use s7_base::{Boxed, Line, List, NoMemory};
use std::alloc::Global;
use std::collections::LinkedList;
use stl_grammar::{Innermost, OpenStruct, Reading, Section, Written};
use stl_tree::{DeclType, Declaration, InitialItem, RawBlock, RawData, RawDataKind};

/// A type with arrays around it, the outermost first; there are eight at most.
fn array_of(
    alloc: Global,
    arrays: LinkedList<List<(i64, i64)>>,
    ty: DeclType,
) -> Result<DeclType, NoMemory>
    ensures { IfOk result (λ whole. whole ≡ array_of arrays ty) }
{
    let mut arrays = arrays;
    match arrays.pop_front() {
        Some(bounds) => {
            let element = array_of(alloc, arrays, ty)?;
            Ok(DeclType::Array(bounds, Boxed::new(alloc, element)?))
        }
        None => Ok(ty),
    }
}

/// A declaration by its arrays, their elements, and its initial values.
fn declaration(
    alloc: Global,
    name: List<u8>,
    line: Line,
    arrays: LinkedList<List<(i64, i64)>>,
    ty: DeclType,
    initial: List<InitialItem>,
) -> Result<Declaration, NoMemory>
    ensures { IfOk result (λ one. one ≡ declaration name line arrays ty initial) }
{
    let ty = array_of(alloc, arrays, ty)?;
    Ok(Declaration {
        name,
        line,
        ty,
        initial,
    })
}

/// Adds a declaration to a data block.
fn put_own(db: &mut RawData, one: Declaration) -> Result<(), NoMemory>
    ensures { OnOk result (db.new ≡ with_own one db.old) }
{
    match &mut db.kind {
        RawDataKind::Own(decls) => decls.push(one),
        RawDataKind::Instance(_) => Ok(()),
    }
}

/// Adds a declaration to a section of a block.
fn put_part(block: &mut RawBlock, section: Section, one: Declaration) -> Result<(), NoMemory>
    ensures { OnOk result (block.new ≡ with_part section one block.old) }
{
    match section {
        Section::Input => block.inputs.push(one),
        Section::Output => block.outputs.push(one),
        Section::InOut => block.in_outs.push(one),
        Section::Static => block.statics.push(one),
        Section::Temp => block.temps.push(one),
        Section::Own => Ok(()),
    }
}

/// Adds a declaration to the last data block.
fn put_last_own(last_db: &mut Option<RawData>, one: Declaration) -> Result<(), NoMemory>
    ensures { OnOk result (last_db.new ≡ option_map (with_own one) last_db.old) }
{
    match last_db {
        Some(db) => put_own(db, one),
        None => Ok(()),
    }
}

/// Adds a declaration to a section of the last block.
fn put_last_part(
    last: &mut Option<RawBlock>,
    section: Section,
    one: Declaration,
) -> Result<(), NoMemory>
    ensures { OnOk result (last.new ≡ option_map (with_part section one) last.old) }
{
    match last {
        Some(block) => put_part(block, section, one),
        None => Ok(()),
    }
}

/// Adds a declaration to the section that opened last.
fn put_last(reading: &mut Reading, one: Declaration) -> Result<(), NoMemory>
    requires { reading.now.structs ≡ [] }
    ensures { OnOk result (reading.new ≡ with_last one reading.old.section reading.old) }
{
    let section = reading.section;
    match section {
        Section::Own => put_last_own(&mut reading.last_db, one),
        Section::Input | Section::Output | Section::InOut | Section::Static | Section::Temp => {
            put_last_part(&mut reading.last, section, one)
        }
    }
}

/// Adds a declaration to the innermost STRUCT that is open, or to the section that opened last.
fn put_declared(reading: &mut Reading, one: Declaration) -> Result<(), NoMemory>
    ensures { OnOk result (reading.new ≡ with_declared one reading.old.structs reading.old) }
{
    match reading.structs.pop_front() {
        Some(mut inner) => {
            inner.members.push(one)?;
            reading.structs.push_front(inner)?;
            Ok(())
        }
        None => put_last(reading, one),
    }
}

/// Adds a declaration, or opens a STRUCT.
pub fn put_type(
    alloc: Global,
    reading: &mut Reading,
    name: List<u8>,
    line: Line,
    written: Written,
) -> Result<(), NoMemory>
    ensures { OnOk result (reading.new ≡ with_type name line written written.innermost reading.old) }
{
    let Written {
        arrays,
        innermost,
        initial,
    } = written;
    let ty = match innermost {
        Innermost::Struct => {
            let members = List::new(alloc);
            reading.structs.push_front(OpenStruct {
                name,
                line,
                arrays,
                members,
            })?;
            return Ok(());
        }
        Innermost::Elementary(ty) => DeclType::Elementary(ty),
        Innermost::DateAndTime => DeclType::DateAndTime,
    };
    let one = declaration(alloc, name, line, arrays, ty, initial)?;
    put_declared(reading, one)
}

/// Ends the innermost STRUCT, with its initial values.
pub fn put_closed(
    alloc: Global,
    reading: &mut Reading,
    items: List<InitialItem>,
) -> Result<(), NoMemory>
    ensures { OnOk result (reading.new ≡ after_struct_end items reading.old.structs reading.old) }
{
    match reading.structs.pop_front() {
        Some(inner) => {
            let ty = DeclType::Struct(inner.members);
            let one = declaration(alloc, inner.name, inner.line, inner.arrays, ty, items)?;
            put_declared(reading, one)
        }
        None => Ok(()),
    }
}
