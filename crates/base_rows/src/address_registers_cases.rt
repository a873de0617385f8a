//! Cases for what no clause says: that the definitions give the pointers that a programmer writes.
use crate::wants::wants;
use address_registers::{Pointer, resolve};
use memory_areas::{Area, Place};
use s7_base::Fault;
use std::process::Abort;
use std::test::Fail;

const POINTER: Pointer = Pointer(0x8300_0053);

const OTHER: Pointer = Pointer(0x8700_0053);

/// Pointers to byte 10, bit 3, where data blocks 20 and 30 are open in the activation 4, and their areas.
static AREAS: [(u32, Area); 5] = [
    (0x8100_0053, Area::I),
    (0x8300_0053, Area::M),
    (0x8400_0053, Area::Db(20)),
    (0x8500_0053, Area::Db(30)),
    (0x8600_0053, Area::Local(4)),
];

fn want_areas(rt: &impl Abort, rows: &[(u32, Area)]) {
    for (pointer, area) in rows {
        let place = Place {
            area: *area,
            byte: 10,
            bit: 3,
        };
        let found = resolve(Pointer(*pointer), 20, 30, 4);
        wants(rt, pointer, &found, &Ok(place));
    }
}

#[test]
fn pointers_name_places(rt: HostRuntime) -> Result<(), Fail> {
    let parts = (POINTER.area(), POINTER.byte(), POINTER.bit());
    wants(&rt, &POINTER, &parts, &(0x83, 10, 3));
    want_areas(&rt, &AREAS);
    let other = resolve(OTHER, 20, 30, 4);
    wants(&rt, &OTHER, &other, &Err(Fault::AreaCode));
    Ok(())
}

#[test]
fn pointers_are_moved(rt: HostRuntime) -> Result<(), Fail> {
    wants(&rt, &6, &POINTER.add_offset(6), &Pointer(0x8300_0059));
    wants(&rt, &-83, &POINTER.add_signed(-83), &Pointer(0x8300_0000));
    wants(&rt, &-84, &POINTER.add_signed(-84), &Pointer(0x83FF_FFFF));
    Ok(())
}
