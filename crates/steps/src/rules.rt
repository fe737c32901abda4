// The rules' numbers, the groups of rules that the steps speak of, and the rule and the tenor in force.
#![tactic(auto, unfolding(crate::specs::Rules::rule_number, crate::specs::Rules::one_of, crate::specs::Rules::is_zero, crate::specs::Rules::is_backward, crate::specs::Rules::on_twentieths, crate::specs::Rules::in_imm_months, crate::specs::Rules::is_credit, crate::specs::Rules::is_old_cds))]

ghost use Rattle.std.specs.Prelude.{◌≡◌};
ghost use Rattle.steps.specs.Rules.{rule_number, is_zero, is_backward, on_twentieths, in_imm_months, is_credit, is_old_cds, rule_in_force, tenor_in_force};

use crate::{Request, Rule, tenors};
use period::{Period, Unit};

// Document 01's number of a rule.
pub fn rule_number(rule: Rule) -> u8
    ensures { result ≡ rule_number rule }
{
    rule as u8
}

pub fn is_zero(rule: Rule) -> bool
    ensures { result ≡ is_zero rule }
{
    rule == Rule::Zero
}

pub fn is_backward(rule: Rule) -> bool
    ensures { result ≡ is_backward rule }
{
    rule == Rule::Backward
}

// The middle dates are twentieths.
pub fn on_twentieths(rule: Rule) -> bool
    ensures { result ≡ on_twentieths rule }
{
    matches!(
        rule,
        Rule::Twentieth | Rule::TwentiethIMM | Rule::OldCDS | Rule::CDS | Rule::CDS2015
    )
}

// The twentieths are those of March, June, September and December.
pub fn in_imm_months(rule: Rule) -> bool
    ensures { result ≡ in_imm_months rule }
{
    matches!(
        rule,
        Rule::TwentiethIMM | Rule::OldCDS | Rule::CDS | Rule::CDS2015
    )
}

// The dates start at the previous twentieth.
pub fn is_credit(rule: Rule) -> bool
    ensures { result ≡ is_credit rule }
{
    matches!(rule, Rule::CDS | Rule::CDS2015)
}

pub fn is_old_cds(rule: Rule) -> bool
    ensures { result ≡ is_old_cds rule }
{
    rule == Rule::OldCDS
}

// Length 0 forces Zero.
pub fn rule_in_force(q: Request) -> Rule
    ensures { result ≡ rule_in_force q }
{
    if tenors::is_none(q.tenor) {
        return Rule::Zero;
    }
    q.rule
}

// Under Zero 0 years, else the tenor given.
pub fn tenor_in_force(q: Request) -> Period
    ensures { result ≡ tenor_in_force q }
{
    let tenor = q.tenor;
    if is_zero(rule_in_force(q)) {
        return Period {
            length: 0,
            unit: Unit::Years,
        };
    }
    tenor
}
