// Days from 1800-01-01 to 2399-12-31: what the crates above use for dates that may lie beyond the book.
ghost use Rattle.std.specs.Prelude.{◌≡◌, ◌+◌, ◌<◌, min};
ghost use Rattle.date.specs.Date.{dated, within_span, in_month, last_of_month, step, shift_days, shift_months, shifted};

use crate::{Date, civil};
use period::Unit;
use refusal::Refusal;

pub const FIRST: u32 = 657072;

pub const LAST: u32 = 876216;

// The day, or refusal 2 where it lies outside.
#[tactic(auto, unfolding(crate::specs::Date::within_span, refusal::specs::Answer::need))]
pub fn within(n: u64) -> Result<Date, Refusal>
    ensures { dated result ≡ within_span n }
{
    if FIRST as u64 <= n && n <= LAST as u64 {
        Ok(Date { day: n as u32 })
    } else {
        Err(Refusal::Book)
    }
}

// The number of the day of a month counted as 12 * year + month - 1, or of the month's last day where it is shorter; 0 outside. No month is
// shorter than 28 days, so most days are numbered without a length. A number comes back in a register; a date would come through memory,
// where its two parts, written apart and read as one, hold up a loop over candidates.
#[tactic(auto, using(crate::proofs::Ends::not_over, crate::specs::Laws::Moves::month_day, crate::specs::Laws::Moves::month_day_0, crate::specs::Laws::Moves::month_early, crate::specs::Laws::Moves::month_late, crate::specs::Laws::Moves::month_outside, crate::specs::Laws::Moves::month_within))]
fn number_in(t: u64, day: u32) -> u32
    ensures { within_span result ≡ in_month t day }
{
    if 28799 < t {
        return 0;
    }
    if t < 21600 {
        return 0;
    }
    if day < 1 {
        return 0;
    }
    let year = (t / 12) as u32;
    let month = (t % 12) as u32 + 1;
    if 28 < day {
        return civil::clamped_number(year, month, day);
    }
    civil::day_number(year, month, day)
}

// The day of a month, or the month's last day where it is shorter.
pub fn in_month(t: u64, day: u32) -> Result<Date, Refusal>
    ensures { dated result ≡ in_month t day }
{
    within(number_in(t, day) as u64)
}

// A day's own number, taken for a day of the month, is past the month's end but for days of year 1, which lie outside. With 31 in
// its place the compiler expands `in_month` here.
pub fn last_of_month(n: u32) -> Result<Date, Refusal>
    ensures { dated result ≡ last_of_month n }
{
    let f = civil::fields_of(n);
    in_month(12 * (f.year as u64) + (f.month as u64) - 1, n)
}

// k further on, or back; what lies before 0 is 0.
#[tactic(auto, using(crate::specs::Laws::Moves::step_back, crate::specs::Laws::Moves::step_on))]
fn step_by(back: bool, n: u64, k: u64) -> u64
    requires { n + k < 18446744073709551616 }
    ensures { result ≡ step back n k }
{
    if back {
        if n < k { 0 } else { n - k }
    } else {
        n + k
    }
}

// The day k days after or before day n.
#[tactic(auto, unfolding(crate::specs::Date::shift_days, refusal::specs::Answer::need))]
fn shift_days(n: u32, back: bool, k: u64) -> Result<Date, Refusal>
    requires { k < 1099511627776 }
    ensures { dated result ≡ shift_days n back k }
{
    within(step_by(back, n as u64, k))
}

// The same day k months after or before day n, or the last day of a shorter month.
fn shift_months(n: u32, back: bool, k: u64) -> Result<Date, Refusal>
    requires { k < 1099511627776 }
    ensures { dated result ≡ shift_months n back k }
{
    let f = civil::fields_of(n);
    let t = step_by(back, 12 * (f.year as u64) + (f.month as u64) - 1, k);
    in_month(t, f.day)
}

// The day of the month k months after or before month t, or that month's last day where it is shorter.
pub fn months_from(t: u32, back: bool, k: u32, day: u32) -> Result<Date, Refusal>
    ensures { dated result ≡ in_month (step back t k) day }
{
    within(number_in(step_by(back, t as u64, k as u64), day) as u64)
}

#[tactic(auto, unfolding(crate::specs::Date::shifted, refusal::specs::Answer::need))]
fn shift(n: u32, back: bool, k: u64, unit: Unit) -> Result<Date, Refusal>
    requires { k < 4294967296 }
    ensures { dated result ≡ shifted n back k unit }
{
    match unit {
        Unit::Days => shift_days(n, back, k),
        Unit::Weeks => shift_days(n, back, 7 * k),
        Unit::Months => shift_months(n, back, k),
        Unit::Years => shift_months(n, back, 12 * k),
    }
}

// The day k units after or before day n.
pub fn shift_by(n: u32, back: bool, k: u32, unit: Unit) -> Result<Date, Refusal>
    ensures { dated result ≡ shifted n back k unit }
{
    shift(n, back, k as u64, unit)
}
