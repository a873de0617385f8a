//! Cases for what no clause says and no command shows: that the word of a call means the block and the places
//! that it names, and that a call answers while there is memory.
use crate::wants::wants;
use command_words::{Command, WordsRefusal, image_name, read_words};
use memory_areas::{Area, BlockName, Call, Place};
use s7_base::{List, NoMemory, Width};
use std::alloc::Global;
use std::process::Abort;
use std::test::Fail;

/// An actual parameter: its area, byte, bit and width.
type Actual = (Area, u32, u8, Width);

/// A case: the word of a call, its block, its instance and its actual parameters.
type Case = (&'static str, BlockName, u16, &'static [Actual]);

const WORD: Actual = (Area::M, 4, 0, Width::Word);

const BIT: Actual = (Area::M, 0, 0, Width::Bit);

static CALLS: [Case; 8] = [
    ("ob1", BlockName::Ob(1), 0, &[]),
    ("OB00001", BlockName::Ob(1), 0, &[]),
    ("FC10", BlockName::Fc(10), 0, &[]),
    ("fc10(mw4,M0.0)", BlockName::Fc(10), 0, &[WORD, BIT]),
    ("FC10(MW4,M0.0)", BlockName::Fc(10), 0, &[WORD, BIT]),
    ("FB1/db5", BlockName::Fb(1), 5, &[]),
    (
        "FC1(DB5.DBX0.7,DB5.DBB4,db5.dbw65535,DB5.DBD0)",
        BlockName::Fc(1),
        0,
        &[
            (Area::Db(5), 0, 7, Width::Bit),
            (Area::Db(5), 4, 0, Width::Byte),
            (Area::Db(5), 65535, 0, Width::Word),
            (Area::Db(5), 0, 0, Width::Dword),
        ],
    ),
    (
        "FC65535(I0.7,qb00004,ID65535)",
        BlockName::Fc(65535),
        0,
        &[
            (Area::I, 0, 7, Width::Bit),
            (Area::Q, 4, 0, Width::Byte),
            (Area::I, 65535, 0, Width::Dword),
        ],
    ),
];

/// The actual parameters as a call has them.
fn actuals_of(alloc: Global, actuals: &[Actual]) -> Result<List<(Place, Width)>, NoMemory> {
    let mut list = List::new(alloc);
    for (area, byte, bit, width) in actuals {
        let place = Place {
            area: *area,
            byte: *byte,
            bit: *bit,
        };
        list.push((place, *width))?;
    }
    Ok(list)
}

/// The command that runs five steps of a block.
fn run_of(alloc: Global, row: &Case) -> Result<Command, NoMemory> {
    let (_, block, instance, actuals) = row;
    let call = Call {
        block: *block,
        instance: *instance,
        actuals: actuals_of(alloc, actuals)?,
    };
    Ok(Command::RunStl(5, call))
}

/// The words of a run of five steps from a call on.
fn run_words(alloc: Global, call: &str) -> Result<Vec<String>, NoMemory> {
    let mut words = Vec::new(alloc);
    for word in ["run-stl", "05", call, "image"] {
        words.push(String::from_str(alloc, word)?)?;
    }
    Ok(words)
}

/// The words of a run are read as its command, and name its image.
fn wants_read(rt: &impl Abort, alloc: Global, row: &Case) -> Result<(), WordsRefusal> {
    let words = run_words(alloc, row.0)?;
    let found = read_words(alloc, words.as_slice())?;
    let wanted = run_of(alloc, row)?;
    wants(rt, &row.0, &found, &wanted);
    wants(rt, &row.0, &image_name(words.as_slice()), &Some("image"));
    Ok(())
}

fn want_read(rt: &impl Abort, alloc: Global, rows: &[Case]) -> Result<(), WordsRefusal> {
    for row in rows {
        wants_read(rt, alloc, row)?;
    }
    Ok(())
}

#[test]
fn calls_are_read(rt: HostRuntime) -> Result<(), Fail> {
    Ok(want_read(&rt, rt.alloc(), &CALLS)?)
}
