//! Chains of checks: the RLO as the next check leaves it.
ghost use Rattle.std.specs.Prelude.{◌≡◌, ◌+◌, ◌^◌, ◌<◌, IfOk};
ghost use Rattle.bit_templates.specs.Bits.{and_joined, next_rlo, rlo_before_and, rlo_before_or, running_chain};
ghost use Rattle.bit_templates.specs.Brackets.{bracket_at, chain_at};
ghost use Rattle.template_parts.specs.Builders.{or_of, xor_of};

use s7_base::{Check, NoMemory, Reg};
use st_tree::{Expr, Var};
use std::alloc::Global;
use template_parts::{and, not, or, xor};

/// The RLO, /FC and OR of a chain of checks, as expressions.
#[derive(Clone, Copy)]
pub struct Chain {
    pub rlo: Var,
    pub nfc: Var,
    pub orb: Var,
}

/// A bracket that is open, and the locals that keep the chain from before it.
#[derive(Clone, Copy)]
pub struct OpenBracket {
    pub check: Check,
    pub kept: Chain,
}

impl OpenBracket {
    /// The bracket of a check whose chain is kept by three locals, `first` and the next two: RLO, OR, NFC.
    pub fn at(first: u32, check: Check) -> OpenBracket
        requires { first + 2 < 2 ^ 32 }
        ensures { result ≡ bracket_at first check }
    {
        OpenBracket {
            check,
            kept: chain_at(first),
        }
    }
}

/// The chain that is kept by three locals, `first` and the next two.
fn chain_at(first: u32) -> Chain
    requires { first + 2 < 2 ^ 32 }
    ensures { result ≡ chain_at first }
{
    Chain {
        rlo: Var::Local(first),
        nfc: Var::Local(first + 2),
        orb: Var::Local(first + 1),
    }
}

/// The chain that goes on in the registers.
pub fn running_chain() -> Chain
    ensures { result ≡ running_chain }
{
    Chain {
        rlo: Var::Register(Reg::Rlo),
        nfc: Var::Register(Reg::Nfc),
        orb: Var::Register(Reg::Orb),
    }
}

/// What the RLO becomes at a check of a bit.
pub fn next_rlo(alloc: Global, chain: Chain, check: Check, bit: Expr) -> Result<Expr, NoMemory>
    ensures { IfOk result (λ value. value ≡ next_rlo chain check bit) }
{
    match check {
        Check::A => and_joined(alloc, chain, bit),
        Check::An => {
            let inverted = not(alloc, bit)?;
            and_joined(alloc, chain, inverted)
        }
        Check::O => or_joined(alloc, chain, bit),
        Check::On => {
            let inverted = not(alloc, bit)?;
            or_joined(alloc, chain, inverted)
        }
        Check::X => xor_joined(alloc, chain, bit),
        Check::Xn => {
            let inverted = not(alloc, bit)?;
            xor_joined(alloc, chain, inverted)
        }
    }
}

/// The RLO after an AND: the bit is joined to the RLO, and to what OR keeps.
fn and_joined(alloc: Global, chain: Chain, bit: Expr) -> Result<Expr, NoMemory>
    ensures { IfOk result (λ value. value ≡ and_joined chain bit) }
{
    let before = rlo_before_and(alloc, chain)?;
    let joined = and(alloc, before, bit)?;
    or(alloc, joined, Expr::Read(chain.orb))
}

/// The RLO after an OR.
fn or_joined(alloc: Global, chain: Chain, bit: Expr) -> Result<Expr, NoMemory>
    ensures { IfOk result (λ value. value ≡ or_of (rlo_before_or chain) bit) }
{
    let before = rlo_before_or(alloc, chain)?;
    or(alloc, before, bit)
}

/// The RLO after an XOR.
fn xor_joined(alloc: Global, chain: Chain, bit: Expr) -> Result<Expr, NoMemory>
    ensures { IfOk result (λ value. value ≡ xor_of (rlo_before_or chain) bit) }
{
    let before = rlo_before_or(alloc, chain)?;
    xor(alloc, before, bit)
}

/// The RLO before an AND: a first check, where NFC is FALSE, takes it as TRUE.
fn rlo_before_and(alloc: Global, chain: Chain) -> Result<Expr, NoMemory>
    ensures { IfOk result (λ value. value ≡ rlo_before_and chain) }
{
    let is_first = not(alloc, Expr::Read(chain.nfc))?;
    or(alloc, Expr::Read(chain.rlo), is_first)
}

/// The RLO before an OR or an XOR: a first check, where NFC is FALSE, takes it as FALSE.
fn rlo_before_or(alloc: Global, chain: Chain) -> Result<Expr, NoMemory>
    ensures { IfOk result (λ value. value ≡ rlo_before_or chain) }
{
    and(alloc, Expr::Read(chain.rlo), Expr::Read(chain.nfc))
}
