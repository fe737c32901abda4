// What crosses to other languages and to bytes, in numbers: the choices of a request, and answers. Here stand the units, the
// rules, the conventions and the flags, by number and back.
#![tactic(auto)]

ghost use Rattle.std.specs.Prelude.{◌≡◌};
ghost use Rattle.refusal.specs.Answer.{answered};
ghost use Rattle.crossing.specs.Numbers.{unit_of, rule_of, convention_of, flag_of, unit_number};

use calendar::Convention;
use period::Unit;
use refusal::Refusal;
use steps::Rule;

// Answers as one number.
pub mod answers;
// Counts with a sign, in a lent list.
pub mod counts;
// Names of refusals.
pub mod names;
// Requests.
pub mod requests;
// Year fractions.
pub mod years;

#[tactic(auto, unfolding(crate::specs::Numbers::unit_of))]
pub fn unit_of(n: u8) -> Result<Unit, Refusal>
    ensures { answered result ≡ unit_of n }
{
    Unit::try_from(n)
}

#[tactic(auto, unfolding(crate::specs::Numbers::rule_of, steps::specs::Rules::rule_of))]
pub fn rule_of(n: u8) -> Result<Rule, Refusal>
    ensures { answered result ≡ rule_of n }
{
    Rule::try_from(n)
}

#[tactic(auto, unfolding(crate::specs::Numbers::convention_of, calendar::specs::Adjust::conventions))]
pub fn convention_of(n: u8) -> Result<Convention, Refusal>
    ensures { answered result ≡ convention_of n }
{
    match n {
        0 => Ok(Convention::Unadjusted),
        1 => Ok(Convention::Following),
        2 => Ok(Convention::ModifiedFollowing),
        3 => Ok(Convention::Preceding),
        4 => Ok(Convention::ModifiedPreceding),
        _ => Err(Refusal::Request),
    }
}

#[tactic(auto, unfolding(crate::specs::Numbers::flag_of))]
pub fn flag_of(n: u8) -> Result<bool, Refusal>
    ensures { answered result ≡ flag_of n }
{
    match n {
        0 => Ok(false),
        1 => Ok(true),
        _ => Err(Refusal::Request),
    }
}

#[tactic(auto, unfolding(crate::specs::Numbers::unit_number))]
pub fn unit_number(unit: Unit) -> u32
    ensures { result ≡ unit_number unit }
{
    unit as u32
}
