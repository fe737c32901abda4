// Year fractions of a period, as paid: Actual/360, Actual/365 Fixed and 30E/360, as numerator and denominator and as a float.
#![tactic(auto)]

ghost use Rattle.std.specs.Prelude.{◌≡◌};
ghost use Rattle.refusal.specs.Answer.{answered};
ghost use Rattle.fractions.specs.Fractions.{fraction, basis_of, under, quotient, parts_of, fraction_of};

use date::Date;
use refusal::Refusal;

// The days of a period.
mod counts;
// Sums over the periods of a list of dates.
pub mod reports;

#[derive(Clone, Copy, Debug, PartialEq, Eq)]
pub enum Basis {
    Actual360,
    Actual365,
    Thirty360,
}

// Bases by their numbers, which are their places in the request's list.
impl TryFrom<u8> for Basis {
    type Error = Refusal;

    ghost try_from_gives = { λ n r. answered r ≡ basis_of n };

    fn try_from(number: u8) -> Result<Basis, Refusal> {
        match number {
            0 => Ok(Basis::Actual360),
            1 => Ok(Basis::Actual365),
            2 => Ok(Basis::Thirty360),
            _ => Err(Refusal::Request),
        }
    }
}

// Not reduced, so that numerators of one basis can be summed.
#[derive(Clone, Copy, Debug, PartialEq, Eq)]
pub struct Parts {
    pub numerator: u32,
    pub denominator: u32,
}

// A fraction, or the number of a refusal: document 01 names this form ("Which form belongs where").
#[derive(Clone, Copy)]
pub enum Fraction {
    Of(f64),
    Refused(u8),
}

#[tactic(auto, unfolding(crate::specs::Fractions::under))]
fn under_of(basis: Basis) -> u32
    ensures { result ≡ under basis }
{
    match basis {
        Basis::Actual360 => 360,
        Basis::Actual365 => 365,
        Basis::Thirty360 => 360,
    }
}

// Numerator and denominator of a period.
#[tactic(auto, unfolding(crate::specs::Fractions::parts_of, crate::specs::Fractions::in_span, refusal::specs::Answer::need))]
pub fn year_parts(basis: Basis, start: Date, end: Date) -> Result<Parts, Refusal>
    ensures { answered result ≡ parts_of basis start.day end.day }
{
    let a = start.day;
    let b = end.day;
    if !counts::in_span(a) || !counts::in_span(b) {
        return Err(Refusal::Book);
    }
    if b < a {
        return Err(Refusal::Reversed);
    }
    let days = counts::count_of(basis, a, b);
    let year = under_of(basis);
    Ok(Parts {
        numerator: days,
        denominator: year,
    })
}

// One division: each of the two numbers is a float exactly.
#[tactic(auto, unfolding(crate::specs::Fractions::quotient))]
fn quotient_of(p: Parts) -> f64
    ensures { result ≡ quotient p }
{
    p.numerator as f64 / p.denominator as f64
}

// The fraction of a year that a period is.
#[tactic(auto, unfolding(crate::specs::Fractions::fraction, crate::specs::Fractions::fraction_of, refusal::specs::Answer::then))]
pub fn year_fraction(basis: Basis, start: Date, end: Date) -> Fraction
    ensures { fraction result ≡ fraction_of basis start.day end.day }
{
    match year_parts(basis, start, end) {
        Ok(p) => Fraction::Of(quotient_of(p)),
        Err(r) => Fraction::Refused(r.number()),
    }
}
