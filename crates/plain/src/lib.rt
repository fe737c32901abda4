// The plain builds: those of which demand 3 says the whole list in one sentence (specs/Demand.antt).
#![tactic(auto)]

ghost use Rattle.std.specs.Prelude.{◌≡◌};
ghost use Rattle.period.specs.Period.{is_positive};
ghost use Rattle.plain.specs.Demand.{PlainIf};
ghost use Rattle.plain.specs.PlainTests.{is_unadjusted, is_unanchored, is_straight};

use calendar::Convention;
use period::Period;
use steps::{Request, rules};

#[tactic(auto, unfolding(crate::specs::PlainTests::is_unadjusted))]
fn is_unadjusted(convention: Convention) -> bool
    ensures { result ≡ is_unadjusted convention }
{
    matches!(convention, Convention::Unadjusted)
}

fn is_positive(tenor: Period) -> bool
    ensures { result ≡ is_positive tenor.length }
{
    0 < tenor.length
}

// No anchors, and effective before termination.
fn is_unanchored(q: Request) -> bool
    ensures { result ≡ is_unanchored q }
{
    q.first.day == 0 && q.penultimate.day == 0 && q.effective.day < q.termination.day
}

// Whether a request is straight: positive tenor, no anchors, both conventions Unadjusted, end of month off, effective before
// termination, under whatever rule.
#[tactic(auto, unfolding(crate::specs::PlainTests::is_straight))]
pub fn is_straight(q: Request) -> bool
    ensures { result ≡ is_straight q }
{
    let convention = q.convention;
    let terminal = q.terminal;
    is_positive(q.tenor)
        && is_unadjusted(convention)
        && is_unadjusted(terminal)
        && !q.monthend
        && is_unanchored(q)
}

// Whether a request is plain: Backward and straight. The input checks are the builder's.
#[tactic(auto, using(crate::proofs::Ways::not_backward, crate::proofs::Ways::then_straight))]
pub fn is_plain(q: Request) -> bool
    ensures { PlainIf result q }
{
    let rule = q.rule;
    rules::is_backward(rule) && is_straight(q)
}
