// Year fractions: a basis by its number, the float by its bits, and numerators at the start of a lent list. A list that is too short
// is 14, before all else, and a refusal leaves it as it was.
ghost use Rattle.std.specs.Prelude.{◌≡◌, T, pos};
ghost use Rattle.std.specs.Float.{binary64};
ghost use Rattle.std.specs.Float.Ieee.{to_bits, fits};
ghost use Rattle.refusal.specs.Answer.{answered, answered_by, then};
ghost use Rattle.fractions.specs.Fractions.{parts_of, fraction_of};
ghost use Rattle.fractions.specs.Promise.{from_zero};
ghost use Rattle.crossing.specs.Answers.{one_number_of};
ghost use Rattle.crossing.specs.Years.{basis_of, bits, two_parts, three_sums, Laid};

use crate::answers;
use date::Date;
use fractions::reports::Sums;
use fractions::{Basis, Fraction, Parts};
use refusal::{Refusal, Refuses};

pub fn basis_of(n: u8) -> Result<Basis, Refusal>
    ensures { answered result ≡ basis_of n }
{
    Basis::try_from(n)
}

// A float that is not below zero has no sign bit, so that its bits are a number from 0.
fn bits_of(x: f64) -> i64
    requires { T (fits binary64 x) × T (from_zero x) }
    ensures { result ≡ pos (to_bits binary64 x) }
{
    f64::to_bits(x) as i64
}

fn of_basis(basis: Basis, start: u32, end: u32) -> i64
    ensures { result ≡ one_number_of bits (fraction_of basis start end) }
{
    let f = fractions::year_fraction(basis, Date { day: start }, Date { day: end });
    match f {
        Fraction::Of(x) => bits_of(x),
        Fraction::Refused(n) => answers::minus(n),
    }
}

// The fraction of a period.
#[tactic(auto, unfolding(refusal::specs::Answer::then))]
pub fn fraction(basis: u8, start: u32, end: u32) -> i64
    ensures { result ≡ one_number_of bits (then (basis_of basis) (λ k. fraction_of k start end)) }
{
    match basis_of(basis) {
        Ok(k) => of_basis(k, start, end),
        Err(refusal) => answers::refused(refusal),
    }
}

// Numerator and denominator of a period.
#[tactic(auto, unfolding(refusal::specs::Answer::then))]
pub fn parts(basis: u8, start: u32, end: u32) -> Result<Parts, Refusal>
    ensures { answered result ≡ then (basis_of basis) (λ k. parts_of k start end) }
{
    fractions::year_parts(basis_of(basis)?, Date { day: start }, Date { day: end })
}

// Numbers over the start of a lent list.
fn put_numbers<E: Refuses + Drop, const N: usize>(
    numbers: Result<[u32; N], E>,
    list: &mut [u32],
) -> i64
    ensures { Laid N (answered_by E.numbered numbers) result list.old list.new }
{
    if list.len() < N {
        return answers::refused(Refusal::Room);
    }
    match numbers {
        Ok(numbers) => {
            list[..N].copy_from_slice(&numbers);
            0
        }
        Err(refusal) => answers::refused(refusal),
    }
}

#[tactic(auto, unfolding(crate::specs::Years::two_parts, refusal::specs::Answer::then))]
fn two_parts<E: Refuses>(parts: Result<Parts, E>) -> Result<[u32; 2], E>
    ensures { answered_by E.numbered result ≡ then (answered_by E.numbered parts) two_parts }
{
    let parts = parts?;
    Ok([parts.numerator, parts.denominator])
}

pub fn put_parts<E: Refuses + Drop>(parts: Result<Parts, E>, list: &mut [u32]) -> i64
    ensures { Laid 2 (then (answered_by E.numbered parts) two_parts) result list.old list.new }
{
    put_numbers(two_parts(parts), list)
}

#[tactic(auto, unfolding(crate::specs::Years::three_sums, refusal::specs::Answer::then))]
fn three_sums<E: Refuses>(sums: Result<Sums, E>) -> Result<[u32; 3], E>
    ensures { answered_by E.numbered result ≡ then (answered_by E.numbered sums) three_sums }
{
    let sums = sums?;
    Ok([sums.actual360, sums.actual365, sums.thirty360])
}

pub fn put_report<E: Refuses + Drop>(sums: Result<Sums, E>, list: &mut [u32]) -> i64
    ensures { Laid 3 (then (answered_by E.numbered sums) three_sums) result list.old list.new }
{
    put_numbers(three_sums(sums), list)
}
