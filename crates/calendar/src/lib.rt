// Open days of a calendar: weekly closed days, Monday the lowest bit of the mask, and a lent list of closed dates.
#![tactic(auto)]

ghost use Rattle.std.specs.Prelude.{◌≡◌, true, IfOk};
ghost use Rattle.refusal.specs.Answer.{answered};
ghost use Rattle.calendar.specs.Open.{calendar_ok, closed_ok};
ghost use Rattle.calendar.specs.Calendar.{check_of, is_open_of, is_month_end_of, tenor_ok};
ghost use Rattle.calendar.specs.Moves.{moved, adjust_move_of, last_open_move_of, advance_move_of};

use date::Date;
use period::{Period, Unit, sign};
use refusal::Refusal;

// The leaves: the list of closed dates, with its rule and the place of a day in it; the weekly mask; months.
pub mod closed_dates;
pub mod months;
mod weekdays;
// The search for open days, and the conventions over it.
mod conventions;
// For the crates above, on days from 1800 to 2399 and a list that they have checked.
pub mod advances;
pub mod month_ends;
pub mod moves;
pub mod scan;
pub mod search;
// A calendar that was checked once.
pub mod sound;

#[derive(Clone, Copy, Debug, PartialEq, Eq)]
pub enum Convention {
    Unadjusted,
    Following,
    ModifiedFollowing,
    Preceding,
    ModifiedPreceding,
}

// An adjusted date, and the days that it moved, later being positive.
#[derive(Clone, Copy, Debug, PartialEq, Eq)]
pub struct Moved {
    pub date: Date,
    pub days: i32,
}

#[tactic(auto, using(crate::proofs::Ways::open_mask, crate::proofs::Ways::shut_mask))]
fn is_sound(mask: u8, closed: &[u32]) -> bool
    ensures { result ≡ calendar_ok mask closed.now }
{
    if mask % 128 == 127 {
        return false;
    }
    closed_dates::keep_rule(closed)
}

// The size is at most 366 days, 520 weeks, 1,200 months or 100 years.
#[tactic(auto, unfolding(crate::specs::Calendar::tenor_ok, crate::specs::Calendar::longest))]
pub fn is_short(size: u32, unit: Unit) -> bool
    ensures { result ≡ tenor_ok size unit }
{
    match unit {
        Unit::Days => size <= 366,
        Unit::Weeks => size <= 520,
        Unit::Months => size <= 1200,
        Unit::Years => size <= 100,
    }
}

#[tactic(auto, unfolding(crate::specs::Calendar::check_of, crate::specs::Open::calendar_ok, refusal::specs::Answer::need))]
pub fn check(mask: u8, closed: &[u32]) -> Result<(), Refusal>
    ensures value { answered result ≡ check_of mask closed.now }
    ensures list { IfOk result (λ _. closed_ok closed.now ≡ true) }
{
    if is_sound(mask, closed) {
        Ok(())
    } else {
        Err(Refusal::Calendar)
    }
}

#[tactic(auto, unfolding(crate::specs::Calendar::is_open_of, crate::specs::Calendar::check_of, refusal::specs::Answer::need))]
pub fn is_open(date: Date, mask: u8, closed: &[u32]) -> Result<bool, Refusal>
    ensures { answered result ≡ is_open_of mask closed.now date.day }
{
    let day = date.booked()?;
    check(mask, closed)?;
    Ok(scan::is_open(day, mask, closed))
}

#[tactic(auto, unfolding(crate::specs::Moves::adjust_move_of, crate::specs::Moves::moved_from, crate::specs::Calendar::adjust_of, crate::specs::Calendar::check_of, refusal::specs::Answer::need, refusal::specs::Answer::then))]
pub fn adjust(
    date: Date,
    convention: Convention,
    mask: u8,
    closed: &[u32],
) -> Result<Moved, Refusal>
    ensures { moved result ≡ adjust_move_of mask closed.now convention date.day }
{
    let day = date.booked()?;
    check(mask, closed)?;
    search::adjust(day, convention, mask, closed)
}

// The last open day of the date's month, and the days from the month's last day to it.
#[tactic(auto, unfolding(crate::specs::Moves::last_open_move_of, crate::specs::Moves::moved_from, crate::specs::Calendar::last_open_of, crate::specs::Calendar::check_of, refusal::specs::Answer::need, refusal::specs::Answer::then))]
pub fn month_end(date: Date, mask: u8, closed: &[u32]) -> Result<Moved, Refusal>
    ensures { moved result ≡ last_open_move_of mask closed.now date.day }
{
    let day = date.booked()?;
    check(mask, closed)?;
    month_ends::last_open(day, mask, closed)
}

// Whether the date is the last open day of its month, or after it. The empty date is not.
#[tactic(auto, unfolding(crate::specs::Calendar::is_month_end_of, crate::specs::Calendar::unless_empty, crate::specs::Calendar::check_of, refusal::specs::Answer::need))]
pub fn is_month_end(date: Date, mask: u8, closed: &[u32]) -> Result<bool, Refusal>
    ensures { answered result ≡ is_month_end_of mask closed.now date.day }
{
    if date.day == 0 {
        check(mask, closed)?;
        return Ok(false);
    }
    let day = date.booked()?;
    check(mask, closed)?;
    month_ends::at_month_end(day, mask, closed)
}

// The date moved by the period: days are open days, the other units are added and adjusted. The days are those from the sum to it, or from the
// sum's month end where the month end is given.
#[tactic(auto, unfolding(crate::specs::Moves::advance_move_of, crate::specs::Moves::moved_from, crate::specs::Calendar::advanced_of, crate::specs::Calendar::check_of, refusal::specs::Answer::need, refusal::specs::Answer::then))]
pub fn advance(
    date: Date,
    tenor: Period,
    convention: Convention,
    monthend: bool,
    mask: u8,
    closed: &[u32],
) -> Result<Moved, Refusal>
    ensures { moved result ≡ advance_move_of mask closed.now tenor.length tenor.unit convention monthend date.day }
{
    let day = date.booked()?;
    check(mask, closed)?;
    let back = sign::is_negative(tenor.length);
    let size = sign::size(tenor.length);
    let unit = tenor.unit;
    if !is_short(size, unit) {
        return Err(Refusal::Tenor);
    }
    advances::advance(day, back, size, unit, convention, monthend, mask, closed)
}
