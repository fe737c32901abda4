// The days from one day to another, by the basis.
ghost use Rattle.std.specs.Prelude.{◌≡◌, ◌-◌, ◌≤◌, min};
ghost use Rattle.date.specs.Date.{SPAN_LAST};
ghost use Rattle.fractions.specs.Fractions.{in_span, place, count};

use crate::Basis;
use date::{civil, span};

// From 1800 to 2399: paid dates may lie beyond the book.
#[tactic(auto, unfolding(crate::specs::Fractions::in_span, date::specs::Date::within_span, refusal::specs::Answer::need))]
pub(crate) fn in_span(n: u32) -> bool
    ensures { result ≡ in_span n }
{
    span::within(n as u64).is_ok()
}

// The 31st counts as the 30th.
fn at_most_30(day: u32) -> u32
    ensures { result ≡ min day 30 }
{
    if day < 30 { day } else { 30 }
}

// Where a day stands among days of months of 30.
#[tactic(auto, using(date::specs::Laws::Moves::year_at_lem, crate::proofs::Ways::month_few, crate::proofs::Ways::place_is))]
fn place_of(n: u32) -> u32
    requires { n ≤ SPAN_LAST }
    ensures { result ≡ place n }
{
    let f = civil::fields_of(n);
    360 * f.year + 30 * f.month + at_most_30(f.day)
}

// The days of 30E/360.
#[tactic(auto, using(crate::proofs::Ways::places))]
pub(crate) fn thirties(a: u32, b: u32) -> u32
    requires { (1 ≤ a) × (a ≤ b) × (b ≤ SPAN_LAST) }
    ensures { result ≡ place b - place a }
{
    let to = place_of(b);
    to - place_of(a)
}

#[tactic(auto, unfolding(crate::specs::Fractions::count))]
pub(crate) fn count_of(basis: Basis, a: u32, b: u32) -> u32
    requires { (1 ≤ a) × (a ≤ b) × (b ≤ SPAN_LAST) }
    ensures { result ≡ count basis a b }
{
    match basis {
        Basis::Actual360 => b - a,
        Basis::Actual365 => b - a,
        Basis::Thirty360 => thirties(a, b),
    }
}
