// Neighbouring open days and the ends of months, from 1800-01-01 to 2399-12-31, for the crates above: on a list of closed dates that the caller has
// checked.
ghost use Rattle.std.specs.Prelude.{◌≡◌, true};
ghost use Rattle.refusal.specs.Answer.{answered};
ghost use Rattle.date.specs.Date.{dated, step, last_of_month};
ghost use Rattle.calendar.specs.Open.{closed_ok};
ghost use Rattle.calendar.specs.Adjust.{towards, adjusted, last_open, at_month_end};
ghost use Rattle.calendar.specs.Moves.{moved, moved_from};

use crate::{Convention, Moved, closed_dates, months, scan, search};
use date::{Date, span};
use period::Unit;
use refusal::Refusal;

fn toward(day: u32, back: bool, mask: u8, closed: &[u32]) -> Result<Date, Refusal>
    ensures { closed_ok closed.now ≡ true → dated result ≡ adjusted mask closed.now (towards back) day }
{
    let place = closed_dates::lower_bound(closed, day);
    scan::look(place, day, back, mask, closed)
}

// The calendar's month end: the last open day of the month, looked for from its last day.
#[tactic(auto, unfolding(crate::specs::AnyCalendar::last_open, crate::specs::Moves::moved_from, refusal::specs::Answer::then))]
pub fn last_open(day: u32, mask: u8, closed: &[u32]) -> Result<Moved, Refusal>
    ensures { closed_ok closed.now ≡ true → moved result ≡ moved_from (last_of_month day) (last_open mask closed.now day) }
{
    let end = span::last_of_month(day)?;
    search::adjust(end.day, Convention::Preceding, mask, closed)
}

// The next open day after `day`, or before it.
#[tactic(auto, using(crate::proofs::Ways::beside_day, crate::proofs::Ways::beside_refused), unfolding(date::specs::Date::shifted, date::specs::Date::shift_days))]
pub(crate) fn neighbour(day: u32, back: bool, mask: u8, closed: &[u32]) -> Result<Date, Refusal>
    ensures { closed_ok closed.now ≡ true → dated result ≡ adjusted mask closed.now (towards back) (step back day 1) }
{
    let from = span::shift_by(day, back, 1, Unit::Days)?;
    toward(from.day, back, mask, closed)
}

#[tactic(auto, unfolding(crate::specs::AnyCalendar::at_month_end, refusal::specs::Answer::need, refusal::specs::Answer::then))]
pub fn at_month_end(day: u32, mask: u8, closed: &[u32]) -> Result<bool, Refusal>
    ensures { closed_ok closed.now ≡ true → answered result ≡ at_month_end mask closed.now day }
{
    if !scan::in_span(day) {
        return Err(Refusal::Book);
    }
    let open = neighbour(day, false, mask, closed)?;
    Ok(!months::same_month(day, open.day))
}
