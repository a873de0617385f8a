//! Cases for what no clause says: that address registers, pointer constants and operands that are found by a
//! pointer are read as the language asks for.
use crate::stl_instructions_cases::Wanted::{
    ByMemory, ByRegister, Crossing, Nothing, OpenDbBy, OpenDiBy, OtherAr, Place, Pointer,
};
use crate::stl_instructions_cases::{Case, want_instructions};
use memory_areas::AreaName;
use s7_base::{Check, Width};
use std::test::Fail;
use stl_statement_grammar::Mnemonic;
use stl_tree::{Ar, LogicRow};

static CASES: [Case; 24] = [
    (b"LAR1", b"LAR1", Mnemonic::LoadAr(Ar::One), Nothing),
    (b"lar2", b"LAR2", Mnemonic::LoadAr(Ar::Two), Nothing),
    (b"LAR1 AR2", b"LAR1", Mnemonic::LoadAr(Ar::One), OtherAr),
    (
        b"LAR1 P#M 10.3",
        b"LAR1",
        Mnemonic::LoadAr(Ar::One),
        Pointer(131, 10, 3),
    ),
    (
        b"LAR2 P#DIX0.7",
        b"LAR2",
        Mnemonic::LoadAr(Ar::Two),
        Pointer(133, 0, 7),
    ),
    (
        b"LAR2 LD 4",
        b"LAR2",
        Mnemonic::LoadAr(Ar::Two),
        Place(AreaName::L, Width::Dword, 4),
    ),
    (b"TAR1", b"TAR1", Mnemonic::StoreAr(Ar::One), Nothing),
    (b"TAR1 AR2", b"TAR1", Mnemonic::StoreAr(Ar::One), OtherAr),
    (
        b"TAR2 DID 0",
        b"TAR2",
        Mnemonic::StoreAr(Ar::Two),
        Place(AreaName::Di, Width::Dword, 0),
    ),
    (b"CAR", b"CAR", Mnemonic::ExchangeAr, Nothing),
    (b"+AR1", b"+AR1", Mnemonic::AddAr(Ar::One), Nothing),
    (
        b"+ar2 P#0.6",
        b"+AR2",
        Mnemonic::AddAr(Ar::Two),
        Pointer(0, 0, 6),
    ),
    (b"+\nAR1", b"+AR1", Mnemonic::AddAr(Ar::One), Nothing),
    (b"L P#10.0", b"L", Mnemonic::Load, Pointer(0, 10, 0)),
    (
        b"L p#q 70000.9",
        b"L",
        Mnemonic::Load,
        Pointer(130, 70000, 9),
    ),
    (
        b"XOD P#I 0.0",
        b"XOD",
        Mnemonic::Logic(LogicRow::Xod),
        Pointer(129, 0, 0),
    ),
    (
        b"L MW [MD 0]",
        b"L",
        Mnemonic::Load,
        ByMemory(AreaName::M, Width::Word, AreaName::M, 0),
    ),
    (
        b"A DBX[ DID 65536 ]",
        b"A",
        Mnemonic::Check(Check::A),
        ByMemory(AreaName::Db, Width::Bit, AreaName::Di, 65536),
    ),
    (
        b"= L [AR1,P#0.7]",
        b"=",
        Mnemonic::Assign,
        ByRegister(AreaName::L, Width::Bit, Ar::One, 0, 7),
    ),
    (
        b"T QD [ AR2 , P#65535.0 ]",
        b"T",
        Mnemonic::Transfer,
        ByRegister(AreaName::Q, Width::Dword, Ar::Two, 65535, 0),
    ),
    (
        b"FP [AR2,P#1.2]",
        b"FP",
        Mnemonic::EdgeUp,
        Crossing(Width::Bit, Ar::Two, 1, 2),
    ),
    (
        b"L w [AR1,P#2.0]",
        b"L",
        Mnemonic::Load,
        Crossing(Width::Word, Ar::One, 2, 0),
    ),
    (
        b"OPN DB [MW 2]",
        b"OPN",
        Mnemonic::Open,
        OpenDbBy(AreaName::M, 2),
    ),
    (
        b"OPN di [ DBW 0 ]",
        b"OPN",
        Mnemonic::Open,
        OpenDiBy(AreaName::Db, 0),
    ),
];

#[test]
fn reads_pointers(rt: HostRuntime) -> Result<(), Fail> {
    want_instructions(&rt, rt.alloc(), &CASES)?;
    Ok(())
}
