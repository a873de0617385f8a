//! The source of the demo, and its blocks.
ghost use Rattle.std.specs.Prelude.{◌≡◌, ◌≤◌, ◌+◌, ◌*◌, ◌++◌, flat_map, length, IfOk, OnOk};
ghost use Rattle.s7_demo.specs.Demo.{call_line, demo_source, function_text, functions_of, network_text, networks_of};

use crate::network::put_network;
use crate::text::{put_number, put_text};
use s7_base::NoMemory;
use std::alloc::Global;

/// How many networks a source may have.
pub const MOST_NETWORKS: u32 = 50_000;

/// How many networks a function has, but for the last one.
const NETWORKS: u32 = 100;

/// Room for a network and its part of the lines of a function.
const NETWORK_ROOM: usize = 66;

/// Room for the lines of the block that makes the calls, and of a function.
const BLOCKS_ROOM: usize = 108;

/// Appends the networks of a function, by its number.
fn put_networks(out: &mut Vec<u8>, networks: u32, function: u32) -> Result<(), NoMemory>
    requires { function ≤ 500 }
    ensures { OnOk result (out.new.items ≡ out.old.items ++ flat_map network_text (networks_of networks function)) }
{
    let first = NETWORKS * function.saturating_sub(1);
    let count = networks.saturating_sub(first).min(NETWORKS);
    for network in first..first + count {
        put_network(out, network)?;
    }
    Ok(())
}

/// Appends the lines of a function.
fn put_function(out: &mut Vec<u8>, networks: u32, function: u32) -> Result<(), NoMemory>
    requires { function ≤ 500 }
    ensures { OnOk result (out.new.items ≡ out.old.items ++ function_text networks function) }
{
    put_text(out, "FUNCTION FC ")?;
    put_number(out, function)?;
    put_text(out, " : VOID\nBEGIN\n")?;
    put_networks(out, networks, function)?;
    put_text(out, "END_FUNCTION\n")
}

fn put_functions(out: &mut Vec<u8>, networks: u32) -> Result<(), NoMemory>
    requires { networks ≤ MOST_NETWORKS }
    ensures { OnOk result (out.new.items ≡ out.old.items ++ flat_map (function_text networks) (functions_of networks)) }
{
    for function in 1..networks.div_ceil(NETWORKS) + 1 {
        put_function(out, networks, function)?;
    }
    Ok(())
}

fn put_call(out: &mut Vec<u8>, function: u32) -> Result<(), NoMemory>
    ensures { OnOk result (out.new.items ≡ out.old.items ++ call_line function) }
{
    put_text(out, "CALL FC ")?;
    put_number(out, function)?;
    put_text(out, ";\n")
}

fn put_calls(out: &mut Vec<u8>, networks: u32) -> Result<(), NoMemory>
    requires { networks ≤ MOST_NETWORKS }
    ensures { OnOk result (out.new.items ≡ out.old.items ++ flat_map call_line (functions_of networks)) }
{
    for function in 1..networks.div_ceil(NETWORKS) + 1 {
        put_call(out, function)?;
    }
    Ok(())
}

/// The source of a program with so many networks.
pub fn demo_source(alloc: Global, networks: u32) -> Result<Vec<u8>, NoMemory>
    requires { networks ≤ MOST_NETWORKS }
    ensures source { IfOk result (λ text. text.items ≡ demo_source networks) }
    ensures within { IfOk result (λ text. length text.items ≤ 66 * networks + 108) }
{
    let room = NETWORK_ROOM * networks as usize + BLOCKS_ROOM;
    let mut text = Vec::with_capacity(alloc, room)?;
    put_functions(&mut text, networks)?;
    put_text(&mut text, "ORGANIZATION_BLOCK OB 1\nBEGIN\n")?;
    put_calls(&mut text, networks)?;
    put_text(&mut text, "END_ORGANIZATION_BLOCK\n")?;
    Ok(text)
}
