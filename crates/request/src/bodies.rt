// What a field's body may be, and what its letters and bytes stand for.
ghost use Rattle.std.specs.Prelude.{◌≡◌};
ghost use Rattle.request.specs.Format.{is_letter, is_tenor, is_below, body_ok, unit_of, rule_of, convention_of};

use crate::tags;
use calendar::Convention;
use period::Unit;
use steps::Rule;

// Whether a unit has the letter.
#[tactic(auto, unfolding(crate::specs::Format::is_letter, crate::specs::Format::pick))]
pub fn is_letter(b: u8) -> bool
    ensures { result ≡ is_letter b }
{
    matches!(b, b'D' | b'W' | b'M' | b'Y')
}

#[tactic(auto, unfolding(crate::specs::Format::is_tenor))]
fn is_tenor(body: &[u8]) -> bool
    ensures { result ≡ is_tenor body.now }
{
    body.len() == 3 && is_letter(body[0])
}

#[tactic(auto, unfolding(crate::specs::Format::is_below))]
fn is_below(limit: u8, body: &[u8]) -> bool
    ensures { result ≡ is_below limit body.now }
{
    body.len() == 1 && body[0] < limit
}

// Whether the tag has a field, and the body is one that it may have.
#[tactic(auto, unfolding(crate::specs::Format::body_ok, crate::specs::Format::pick, crate::specs::Format::is_date, crate::specs::Format::are_dates, steps::specs::Rules::rules, calendar::specs::Adjust::conventions))]
pub(crate) fn body_ok(tag: u8, body: &[u8]) -> bool
    ensures { result ≡ body_ok tag body.now }
{
    match tag {
        tags::EFFECTIVE => body.len() == 4,
        tags::TERMINATION => body.len() == 4,
        tags::TENOR => is_tenor(body),
        tags::RULE => is_below(10, body),
        tags::CONVENTION => is_below(5, body),
        tags::TERMINAL => is_below(5, body),
        tags::MONTHEND => is_below(2, body),
        tags::FIRST => body.len() == 4,
        tags::PENULTIMATE => body.len() == 4,
        tags::MASK => is_below(128, body),
        tags::CLOSED => body.len() <= 16384 && body.len() % 4 == 0,
        _ => false,
    }
}

#[tactic(auto, unfolding(crate::specs::Format::unit_of, crate::specs::Format::pick))]
pub(crate) fn unit_of(b: u8) -> Unit
    ensures { result ≡ unit_of b }
{
    match b {
        b'D' => Unit::Days,
        b'W' => Unit::Weeks,
        b'M' => Unit::Months,
        _ => Unit::Years,
    }
}

// Document 01's rules, in number order. A byte that was let by stands in the list, so that what stands for others, as in specs/Format, is no
// refusal of `Rule::try_from`.
const RULES: [Rule; 10] = [
    Rule::Zero,
    Rule::Backward,
    Rule::Forward,
    Rule::Twentieth,
    Rule::TwentiethIMM,
    Rule::ThirdWednesday,
    Rule::ThirdWednesdayInclusive,
    Rule::OldCDS,
    Rule::CDS,
    Rule::CDS2015,
];

#[tactic(auto, unfolding(crate::specs::Format::rule_of, steps::specs::Rules::rules))]
pub(crate) fn rule_of(b: u8) -> Rule
    ensures { result ≡ rule_of b }
{
    RULES.get(b as usize).copied().unwrap_or(Rule::CDS2015)
}

// Document 01's conventions, in number order.
const CONVENTIONS: [Convention; 5] = [
    Convention::Unadjusted,
    Convention::Following,
    Convention::ModifiedFollowing,
    Convention::Preceding,
    Convention::ModifiedPreceding,
];

#[tactic(auto, unfolding(crate::specs::Format::convention_of, calendar::specs::Adjust::conventions))]
pub(crate) fn convention_of(b: u8) -> Convention
    ensures { result ≡ convention_of b }
{
    CONVENTIONS
        .get(b as usize)
        .copied()
        .unwrap_or(Convention::ModifiedPreceding)
}
