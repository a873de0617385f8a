//! The rule of the least number.
ghost use Rattle.std.specs.Prelude.{◌≡◌, ◌∷◌, []};
ghost use Rattle.call_operands.specs.inner.Rules.{on_line, with_rules};
ghost use Rattle.stl_rules.specs.Calls.{lesser, rule_if, with_rule};

use s7_base::{Break, Line, Reason, sooner};

/// A broken rule on a line that all rules of a call share.
fn on_line(rule: Reason) -> Break
    ensures { result ≡ on_line rule }
{
    Break {
        line: Line(0),
        rule,
    }
}

/// Of two rules the one with the lesser number.
#[tactic(auto, using(crate::proofs::LeastRules::line_laws))]
fn lesser(a: Reason, b: Reason) -> Reason
    ensures { result ≡ lesser a b }
{
    match sooner(Some(on_line(a)), on_line(b)) {
        Some(first) => first.rule,
        None => b,
    }
}

/// The rule of the least number so far, and one more.
fn with_rule(least: Option<Reason>, rule: Reason) -> Option<Reason>
    ensures { result ≡ with_rule least rule }
{
    match least {
        None => Some(rule),
        Some(least) => Some(lesser(least, rule)),
    }
}

/// Notes a broken rule.
#[tactic(auto, using(crate::proofs::LeastRules::one_more))]
pub fn note(least: &mut Option<Reason>, rule: Reason)
    ensures { least.new ≡ with_rules least.old (rule ∷ []) }
{
    *least = with_rule(*least, rule);
}

/// Notes a broken rule where a condition is true.
#[tactic(auto, using(crate::proofs::LeastRules::no_more))]
pub fn note_if(least: &mut Option<Reason>, holds: bool, rule: Reason)
    ensures { least.new ≡ with_rules least.old (rule_if holds rule) }
{
    if holds {
        note(least, rule);
    }
}
