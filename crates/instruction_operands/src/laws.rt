//! The law of the rules that operands break. It computes nothing: its contract is the law.
ghost use Rattle.instruction_operands.specs.RuleLaws.{LeastRuleIsNamed};

/// Of the rules that the operand of a mnemonic breaks, the one with the least number is named.
pub fn least_rule_is_named()
    ensures { LeastRuleIsNamed }
{}
