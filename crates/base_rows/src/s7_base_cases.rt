//! Cases for what no clause says: that calls succeed while there is memory.
use crate::wants::{wants, wants_text};
use s7_base::{Boxed, List, NoMemory, SmallText};
use std::alloc::Global;
use std::process::Abort;
use std::test::Fail;

fn two_bytes(alloc: Global) -> Result<List<u8>, NoMemory> {
    let mut list = List::new(alloc);
    list.push(7)?;
    list.push(9)?;
    Ok(list)
}

fn wants_copy(rt: &impl Abort, list: &List<u8>, copy: &mut List<u8>) {
    wants_text(rt, b"a copy", copy.as_slice(), &[7, 9]);
    wants(rt, &"a copy", &*copy, list);
    wants(rt, &"the last", &copy.pop(), &Some(9));
    wants(rt, &"another list", &(*copy == *list), &false);
}

#[test]
fn takes_memory_for_lists(rt: HostRuntime) -> Result<(), Fail> {
    let list = two_bytes(rt.alloc())?;
    let mut copy = list.copy(rt.alloc())?;
    wants_copy(&rt, &list, &mut copy);
    Ok(())
}

fn box_of_two(alloc: Global) -> Result<Boxed<List<u8>>, NoMemory> {
    let list = two_bytes(alloc)?;
    Boxed::new(alloc, list)
}

fn box_of_one(alloc: Global) -> Result<Boxed<List<u8>>, NoMemory> {
    let mut list = two_bytes(alloc)?;
    let _ = list.pop();
    Boxed::new(alloc, list)
}

#[test]
fn takes_memory_for_boxes(rt: HostRuntime) -> Result<(), Fail> {
    let boxed = box_of_two(rt.alloc())?;
    let other = box_of_one(rt.alloc())?;
    wants(&rt, &"another box", &(boxed == other), &false);
    wants_text(&rt, b"a box", boxed.get().as_slice(), &[7, 9]);
    Ok(())
}

/// Texts that are kept without memory of their own, up to 14 bytes, and one that is longer.
static TEXTS: [&[u8]; 4] = [b"", b"A", b"14 bytes of it", b"15 bytes of it."];

fn want_texts(rt: &impl Abort, alloc: Global, texts: &[&[u8]]) -> Result<(), NoMemory> {
    for text in texts {
        let kept = SmallText::new(alloc, text)?;
        wants_text(rt, text, kept.as_slice(), text);
    }
    Ok(())
}

#[test]
fn keeps_small_texts(rt: HostRuntime) -> Result<(), Fail> {
    Ok(want_texts(&rt, rt.alloc(), &TEXTS)?)
}
