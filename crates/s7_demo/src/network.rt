//! The lines of a network, which are seven instructions.
ghost use Rattle.std.specs.Prelude.{◌≡◌, ◌++◌, OnOk};
ghost use Rattle.s7_demo.specs.Demo.{bit_text, jump_line, label_text, network_text, sum_lines, target_line, test_line, test_word, word_text};

use crate::text::{put_number, put_text};
use s7_base::NoMemory;

fn put_bit(out: &mut Vec<u8>, network: u32) -> Result<(), NoMemory>
    ensures { OnOk result (out.new.items ≡ out.old.items ++ bit_text network) }
{
    put_text(out, "M ")?;
    put_number(out, network % 4000)?;
    put_text(out, ".0")
}

fn put_word(out: &mut Vec<u8>, network: u32) -> Result<(), NoMemory>
    ensures { OnOk result (out.new.items ≡ out.old.items ++ word_text network) }
{
    put_text(out, "MW ")?;
    put_number(out, 4000 + 2 * (network % 2000))
}

fn put_label(out: &mut Vec<u8>, network: u32) -> Result<(), NoMemory>
    ensures { OnOk result (out.new.items ≡ out.old.items ++ label_text network) }
{
    let tens = (network % 100 / 10) as u8;
    let ones = (network % 10) as u8;
    out.extend_from_slice(&[b'L', b'0' + tens, b'0' + ones])?;
    Ok(())
}

/// The operation that tests the bit: an odd network asks for 0.
fn test_word(network: u32) -> &'static str
    ensures { result.now ≡ test_word network }
{
    if network % 2 == 0 { "A " } else { "AN " }
}

/// The line that tests a bit.
fn put_test(out: &mut Vec<u8>, network: u32) -> Result<(), NoMemory>
    ensures { OnOk result (out.new.items ≡ out.old.items ++ test_line network) }
{
    put_text(out, test_word(network))?;
    put_bit(out, network)?;
    put_text(out, ";\n")
}

fn put_jump(out: &mut Vec<u8>, network: u32) -> Result<(), NoMemory>
    ensures { OnOk result (out.new.items ≡ out.old.items ++ jump_line network) }
{
    put_text(out, "JCN ")?;
    put_label(out, network)?;
    put_text(out, ";\n")
}

/// The lines that add 1 to a word.
fn put_sum(out: &mut Vec<u8>, network: u32) -> Result<(), NoMemory>
    ensures { OnOk result (out.new.items ≡ out.old.items ++ sum_lines network) }
{
    put_text(out, "L ")?;
    put_word(out, network)?;
    put_text(out, ";\nL 1;\n+I;\nT ")?;
    put_word(out, network)?;
    put_text(out, ";\n")
}

/// The line to which the network jumps.
fn put_target(out: &mut Vec<u8>, network: u32) -> Result<(), NoMemory>
    ensures { OnOk result (out.new.items ≡ out.old.items ++ target_line network) }
{
    put_label(out, network)?;
    put_text(out, ": NOP 0;\n")
}

/// Appends the lines of a network.
pub fn put_network(out: &mut Vec<u8>, network: u32) -> Result<(), NoMemory>
    ensures { OnOk result (out.new.items ≡ out.old.items ++ network_text network) }
{
    put_test(out, network)?;
    put_jump(out, network)?;
    put_sum(out, network)?;
    put_target(out, network)
}
