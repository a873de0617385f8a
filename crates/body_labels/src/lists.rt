//! The `JU` of jump lists.
ghost use Rattle.std.specs.Prelude.{◌≡◌, ◌≤◌, length};
ghost use Rattle.std.specs.List.{prefix_len};
ghost use Rattle.stl_rules.specs.Labels.{is_always, list_count, listed_in};
ghost use Rattle.body_labels.specs.inner.Listed.{begins_with_ju, is_ju};

use s7_base::rest_after;
use stl_mnemonics::mnemonic_named;
use stl_statement_grammar::Mnemonic;
use stl_tree::{JumpTest, RawInstr};

/// The most `JU` in a jump list.
pub const MOST_LISTED: usize = 255;

/// Whether a mnemonic is `JU`.
fn is_always(what: Option<Mnemonic>) -> bool
    ensures { result ≡ is_always what }
{
    match what {
        Some(Mnemonic::Jump(JumpTest::Always)) => true,
        _ => false,
    }
}

/// Whether an instruction is a `JU` without a label.
#[tactic(auto, unfolding(crate::specs::inner::Listed::is_ju))]
fn is_ju(raw: &RawInstr) -> bool
    ensures { result ≡ is_ju raw.now }
{
    raw.label.is_none() && is_always(mnemonic_named(raw.op.mnemonic.as_slice()))
}

/// Whether the first of some instructions is a `JU` without a label.
fn begins_with_ju(rest: &[RawInstr]) -> bool
    ensures { result ≡ begins_with_ju rest.now }
{
    match rest {
        [raw, ..] => is_ju(raw),
        [] => false,
    }
}

#[tactic(auto, using(crate::proofs::Counting::ju_laws))]
fn count_of_ju(rest: &[RawInstr]) -> usize
    ensures count { result ≡ prefix_len is_ju rest.now }
    ensures within { result ≤ length rest.now }
{
    let mut count = 0;
    let mut left = rest;
    while begins_with_ju(left) {
        count += 1;
        left = rest_after(left, 1);
    }
    count
}

/// How many `JU` without a label come first among some instructions.
#[tactic(auto, unfolding(crate::specs::inner::Listed::is_ju))]
pub fn listed_in(rest: &[RawInstr]) -> usize
    ensures count { result ≡ listed_in rest.now }
    ensures within { result ≤ length rest.now }
{
    count_of_ju(rest)
}

/// How many of them a jump list has before these instructions: at most as many as there may be.
pub fn list_count(rest: &[RawInstr]) -> u8
    ensures { result ≡ list_count rest.now }
{
    listed_in(rest).min(MOST_LISTED) as u8
}
