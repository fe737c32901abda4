// IMM dates as day numbers, also beyond the book.
#![tactic(auto, using(date::specs::Laws::Moves::year_at_lem, crate::proofs::Ways::month_at), unfolding(crate::specs::Imm::third_of, crate::specs::Imm::cycle_from, crate::specs::Imm::stride, crate::specs::Imm::next_from, crate::specs::Imm::next_of, crate::specs::Imm::or_else, crate::specs::Imm::first_year, crate::specs::Imm::date_from, crate::specs::Imm::date_of, date::specs::Date::month_index, refusal::specs::Answer::then))]

ghost use Rattle.std.specs.Prelude.{◌≡◌, ◌≤◌, ◌<◌};
ghost use Rattle.date.specs.Date.{dated, month_index};
ghost use Rattle.imm.specs.Imm.{third_wednesday, third_of, cycle_from, stride, next_from, next_of, first_year, date_from, date_of};

use date::Date;
use refusal::Refusal;

pub(crate) const WEDNESDAY: u32 = 3;

fn third_wednesday(month: u32, year: u32) -> Result<Date, Refusal>
    ensures { dated result ≡ third_wednesday month year }
{
    Date::nth_weekday(3, WEDNESDAY, month, year)
}

// The IMM date of a month counted as 12 * year + month - 1.
fn third_of(t: u32) -> Result<Date, Refusal>
    ensures { dated result ≡ third_of t }
{
    third_wednesday(t % 12 + 1, t / 12)
}

fn month_index(n: u32) -> u32
    ensures { (result ≡ month_index n) × (result < 200000000) }
{
    let f = date::civil::fields_of(n);
    12 * f.year + f.month - 1
}

// The first month of the cycle from month t on.
fn cycle_from(main: bool, t: u32) -> u32
    requires { t < 200000000 }
    ensures { (result ≡ cycle_from main t) × (result < 200000003) }
{
    if main { t + (2 - t % 3) } else { t }
}

// How many months lie from one month of the cycle to the next.
fn stride_of(main: bool) -> u32
    ensures { (result ≡ stride main) × (result ≤ 3) }
{
    if main { 3 } else { 1 }
}

fn next_from(main: bool, n: u32, t: u32) -> Result<Date, Refusal>
    requires { t < 200000003 }
    ensures { dated result ≡ next_from main n t }
{
    let coming = third_of(t)?;
    if n < coming.day {
        return Ok(coming);
    }
    third_of(t + stride_of(main))
}

// The earliest IMM date after day n.
pub(crate) fn next_after(main: bool, n: u32) -> Result<Date, Refusal>
    ensures { dated result ≡ next_of main n }
{
    next_from(main, n, cycle_from(main, month_index(n)))
}

// The first year from this one on with that last digit.
fn first_year(year: u32, digit: u32) -> u32
    requires { (year < 20000000) × (digit < 10) }
    ensures { (result ≡ first_year year digit) × (result < 20000010) }
{
    year + (digit + 10 - year % 10) % 10
}

fn date_from(month: u32, year: u32, n: u32) -> Result<Date, Refusal>
    requires { year < 20000010 }
    ensures { dated result ≡ date_from month year n }
{
    let first = third_wednesday(month, year)?;
    if n <= first.day {
        return Ok(first);
    }
    third_wednesday(month, year + 10)
}

// The earliest IMM date on or after day n of that month, in a year with that last digit.
pub(crate) fn date_of(month: u32, digit: u32, n: u32) -> Result<Date, Refusal>
    requires { digit < 10 }
    ensures { dated result ≡ date_of month digit n }
{
    let f = date::civil::fields_of(n);
    date_from(month, first_year(f.year, digit), n)
}
