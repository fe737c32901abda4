// The sums of the numerators over the periods of a list of dates, one for each basis.
ghost use Rattle.std.specs.Prelude.{◌≡◌, ◌≤◌};
ghost use Rattle.std.specs.List.{list_all};
ghost use Rattle.date.specs.Date.{SPAN_LAST};
ghost use Rattle.fractions.specs.Fractions.{in_span};
ghost use Rattle.refusal.specs.Answer.{answered};
ghost use Rattle.fractions.specs.Reports.{rises, report_of};
ghost use Rattle.fractions.specs.Laws.Ends.{between};

use crate::counts;
use date::span;
use refusal::Refusal;

#[derive(Clone, Copy, Debug, PartialEq, Eq)]
pub struct Sums {
    pub actual360: u32,
    pub actual365: u32,
    pub thirty360: u32,
}

fn all_in_span(dates: &[u32]) -> bool
    ensures { result ≡ list_all in_span dates.now }
{
    dates.iter().all(|n| counts::in_span(*n))
}

// Whether no date lies before the one before it: one pass, without a branch for each date.
fn in_order(dates: &[u32]) -> bool
    ensures { result ≡ rises dates.now }
{
    let mut keeps = true;
    for i in 1..dates.len() {
        keeps = keeps & (dates[i - 1] <= dates[i]);
    }
    keeps
}

// The sums of dates in order: those of one period from the first to the last.
#[tactic(auto, using(crate::proofs::Passes::between_is))]
fn sums_between(first: u32, last: u32) -> Sums
    requires { (1 ≤ first) × (first ≤ last) × (last ≤ SPAN_LAST) }
    ensures { result ≡ between first last }
{
    let days = last - first;
    let thirties = counts::thirties(first, last);
    Sums {
        actual360: days,
        actual365: days,
        thirty360: thirties,
    }
}

// A list out of order is looked through for dates outside the span; one in order lies in it if its first and its last date do.
#[tactic(auto, using(crate::proofs::Passes::first_last, crate::proofs::Passes::reports))]
pub fn report(dates: &[u32]) -> Result<Sums, Refusal>
    ensures { answered result ≡ report_of dates.now }
{
    if dates.is_empty() {
        return Ok(Sums {
            actual360: 0,
            actual365: 0,
            thirty360: 0,
        });
    }
    if in_order(dates) {
        let first = dates[0];
        let last = dates[dates.len() - 1];
        if first < span::FIRST || span::LAST < last {
            return Err(Refusal::Book);
        }
        return Ok(sums_between(first, last));
    }
    if all_in_span(dates) {
        return Err(Refusal::Reversed);
    }
    Err(Refusal::Book)
}
