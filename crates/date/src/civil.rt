// Years, months and days of a day number, by ISO 8601 (proleptic Gregorian).
ghost use Rattle.std.specs.Prelude.{◌≡◌, ◌<◌, ◌≤◌, min, get_or};
ghost use Rattle.date.specs.Civil.{leap, row_of, month_length, gone, years_gone, sum_to, month_in, place_of, fields_at, fields_of, day_number, weekday_of, days_until, pick_n};

use crate::Fields;

// A month and a day of it, both from 0.
#[derive(Clone, Copy)]
pub struct Place {
    pub month: u32,
    pub day: u32,
}

#[tactic(auto, unfolding(crate::specs::Civil::leap))]
pub fn is_leap(year: u32) -> bool
    ensures { result ≡ leap year }
{
    year % 4 == 0 && (year % 100 != 0 || year % 400 == 0)
}

// The days of a month, from 0; there are none in a month that is not there. February stands apart; the others have 31 and 30
// days by turns, the other way round from August on.
#[tactic(auto, using(crate::proofs::Rows::february, crate::proofs::Rows::turns, crate::specs::Laws::Months::row_past))]
fn length_at(leaps: bool, month: usize) -> u32
    ensures { result ≡ get_or (row_of leaps) month 0 }
{
    if month == 1 {
        return 28 + leaps as u32;
    }
    if month < 12 {
        return 30 + 9 * (month as u32 + 1) / 8 % 2;
    }
    0
}

#[tactic(auto, unfolding(crate::specs::Civil::month_length))]
pub fn month_length(year: u32, month: u32) -> u32
    ensures { result ≡ month_length year month }
{
    if month == 0 {
        length_at(is_leap(year), 0)
    } else {
        length_at(is_leap(year), (month - 1) as usize)
    }
}

// The days of the first p years.
#[tactic(auto, unfolding(crate::specs::Civil::gone))]
fn days_gone(p: u64) -> u64
    requires { p < 4294967296 }
    ensures { result ≡ gone p }
{
    365 * p + p / 4 + p / 400 - p / 100
}

// The whole years before day z, from 0: one division, and one step where it falls short.
#[tactic(auto, using(crate::specs::Laws::Years::years_stay, crate::specs::Laws::Years::years_up), unfolding(crate::specs::Civil::guess))]
fn years_gone(z: u64) -> u64
    requires { z < 4294967296 }
    ensures { result ≡ years_gone z }
{
    let g = z * 400 / 146097;
    if days_gone(g + 1) <= z { g + 1 } else { g }
}

// The days of the first m months: by the rule for months of 30 and 31 days, less what February falls short of 30.
#[tactic(auto, using(crate::specs::Laws::Months::sum_early, crate::specs::Laws::Months::sum_late))]
fn days_before(leaps: bool, m: u32) -> u32
    requires { m < 12 }
    ensures { result ≡ sum_to (row_of leaps) m }
{
    let starts = (367 * m + 5) / 12;
    if m < 2 {
        return starts;
    }
    starts + leaps as u32 - 2
}

// The month, from 0, of a day of the year, from 0. Months have at most 31 days and few have less, so that 32 goes into the day as
// often as there are months before it, or once less.
#[tactic(auto, using(crate::specs::Laws::Months::month_last, crate::specs::Laws::Months::month_short, crate::specs::Laws::Months::month_whole))]
fn month_in(leaps: bool, j: u32) -> u32
    requires { j < pick_n leaps 366 365 }
    ensures { result ≡ month_in (row_of leaps) j }
{
    let g = j / 32;
    if g < 11 {
        if days_before(leaps, g + 1) <= j {
            return g + 1;
        }
    }
    g
}

// The month and the day of it that a day of the year, from 0, is.
fn place_in(leaps: bool, j: u32) -> Place
    requires { j < pick_n leaps 366 365 }
    ensures { result ≡ place_of leaps j }
{
    let m = month_in(leaps, j);
    Place {
        month: m,
        day: j - days_before(leaps, m),
    }
}

// Year, month and day of day z, from 0.
fn fields_at(z: u32) -> Fields
    ensures { result ≡ fields_at z }
{
    let p = years_gone(z as u64);
    let y = (p + 1) as u32;
    let j = (z as u64 - days_gone(p)) as u32;
    let at = place_in(is_leap(y), j);
    Fields {
        year: y,
        month: at.month + 1,
        day: at.day + 1,
    }
}

// Year, month and day of a day number; those of day 1 for 0.
pub fn fields_of(n: u32) -> Fields
    ensures { result ≡ fields_of n }
{
    if n == 0 {
        fields_at(0)
    } else {
        fields_at(n - 1)
    }
}

// The day number of a year, month and day that are there.
#[tactic(auto, using(crate::specs::Laws::Months::sum_small, crate::specs::Laws::Years::gone_small), unfolding(crate::specs::Civil::day_number))]
pub(crate) fn day_number(year: u32, month: u32, day: u32) -> u32
    requires { (1 ≤ year) × (year < 2400) × (1 ≤ month) × (month ≤ 12) × (day ≤ 31) }
    ensures { result ≡ day_number year month day }
{
    days_gone((year - 1) as u64) as u32 + days_before(is_leap(year), month - 1) + day
}

// The same, of the month's last day where the month is shorter; one leap test serves the month's start and its length.
#[tactic(auto, using(crate::specs::Laws::Months::row_le, crate::specs::Laws::Months::sum_small, crate::specs::Laws::Years::gone_small), unfolding(crate::specs::Civil::day_number, crate::specs::Civil::month_length))]
pub(crate) fn clamped_number(year: u32, month: u32, day: u32) -> u32
    requires { (1 ≤ year) × (year < 2400) × (1 ≤ month) × (month ≤ 12) }
    ensures { result ≡ day_number year month (min day (month_length year month)) }
{
    let leaps = is_leap(year);
    let before = days_gone((year - 1) as u64) as u32 + days_before(leaps, month - 1);
    before + day.min(length_at(leaps, (month - 1) as usize))
}

// 1 is Monday and 7 Sunday.
#[tactic(auto, unfolding(crate::specs::Civil::weekday_of))]
pub fn weekday_of(n: u32) -> u32
    ensures { result ≡ weekday_of n }
{
    ((n as u64 + 6) % 7 + 1) as u32
}

// How many days after day n the next day with that weekday is, 0 if n has it.
#[tactic(auto, using(crate::specs::Laws::Moves::weekday_small), unfolding(crate::specs::Civil::days_until))]
pub(crate) fn days_until(n: u32, weekday: u32) -> u32
    requires { weekday ≤ 7 }
    ensures { result ≡ days_until n weekday }
{
    (weekday + 7 - weekday_of(n)) % 7
}
