// Advance from 1800-01-01 to 2399-12-31, for the crates above: on a list of closed dates that the caller has checked.
ghost use Rattle.std.specs.Prelude.{◌≡◌, true};
ghost use Rattle.refusal.specs.Answer.{answered, then};
ghost use Rattle.period.specs.declared.Unit.TheVariants.{Days, Weeks};
ghost use Rattle.date.specs.Date.{dated, shifted};
ghost use Rattle.calendar.specs.Open.{closed_ok};
ghost use Rattle.calendar.specs.Adjust.{in_span, open_steps, end_asked, landed, add_weeks, add_months, advanced};
ghost use Rattle.calendar.specs.Moves.{moved, moved_from, land_base, months_base, advance_base};

use crate::{Convention, Moved, month_ends, moves, scan, search};
use date::{Date, span};
use period::Unit;
use refusal::Refusal;

// So many open days on, or back, each found from the neighbouring day.
fn step_open(day: u32, back: bool, size: u32, mask: u8, closed: &[u32]) -> Result<Date, Refusal>
    ensures { closed_ok closed.now ≡ true → dated result ≡ open_steps mask closed.now back size day }
{
    let mut at = day;
    for _ in 0..size {
        at = month_ends::neighbour(at, back, mask, closed)?.day;
    }
    Ok(Date { day: at })
}

// The days are those from so many natural days on, or back: all the steps' moves together.
#[tactic(auto, unfolding(crate::specs::Moves::moved_from, refusal::specs::Answer::then))]
fn step_days(day: u32, back: bool, size: u32, mask: u8, closed: &[u32]) -> Result<Moved, Refusal>
    ensures { closed_ok closed.now ≡ true → in_span day ≡ true → moved result ≡ moved_from (shifted day back size Days) (open_steps mask closed.now back size day) }
{
    let date = step_open(day, back, size, mask, closed)?;
    let base = span::shift_by(day, back, size, Unit::Days)?;
    moves::to(base.day, Ok(date))
}

#[tactic(auto, unfolding(crate::specs::AnyCalendar::end_asked))]
fn end_asked(day: u32, asked: bool, mask: u8, closed: &[u32]) -> Result<bool, Refusal>
    ensures { closed_ok closed.now ≡ true → answered result ≡ end_asked mask closed.now asked day }
{
    if asked {
        return month_ends::at_month_end(day, mask, closed);
    }
    Ok(false)
}

#[tactic(auto, unfolding(crate::specs::AnyCalendar::add_weeks, crate::specs::Moves::moved_from, refusal::specs::Answer::then))]
fn add_weeks(
    day: u32,
    back: bool,
    size: u32,
    convention: Convention,
    mask: u8,
    closed: &[u32],
) -> Result<Moved, Refusal>
    ensures { closed_ok closed.now ≡ true → moved result ≡ moved_from (shifted day back size Weeks) (add_weeks mask closed.now back size convention day) }
{
    let sum = span::shift_by(day, back, size, Unit::Weeks)?;
    search::adjust(sum.day, convention, mask, closed)
}

#[tactic(auto, unfolding(crate::specs::Moves::land_base, crate::specs::Moves::moved_from, crate::specs::AnyCalendar::landed, refusal::specs::Answer::then))]
fn land(
    sum: u32,
    convention: Convention,
    end: Result<bool, Refusal>,
    mask: u8,
    closed: &[u32],
) -> Result<Moved, Refusal>
    ensures { closed_ok closed.now ≡ true → moved result ≡ moved_from (then (answered end) (land_base sum)) (then (answered end) (landed mask closed.now convention sum)) }
{
    if end? {
        month_ends::last_open(sum, mask, closed)
    } else {
        search::adjust(sum, convention, mask, closed)
    }
}

// The day so many months or years on, or back, then the month's end or adjusted.
#[tactic(auto, unfolding(crate::specs::AnyCalendar::add_months, crate::specs::Moves::months_base, crate::specs::Moves::moved_from, refusal::specs::Answer::then))]
fn add_months(
    day: u32,
    back: bool,
    size: u32,
    unit: Unit,
    convention: Convention,
    monthend: bool,
    mask: u8,
    closed: &[u32],
) -> Result<Moved, Refusal>
    ensures { closed_ok closed.now ≡ true → moved result ≡ moved_from (months_base mask closed.now back size unit monthend day) (add_months mask closed.now back size unit convention monthend day) }
{
    let sum = span::shift_by(day, back, size, unit)?.day;
    let end = end_asked(day, monthend, mask, closed);
    land(sum, convention, end, mask, closed)
}

#[tactic(auto, unfolding(crate::specs::AnyCalendar::advanced, crate::specs::AnyCalendar::by_unit, crate::specs::Moves::advance_base, crate::specs::Moves::moved_from, refusal::specs::Answer::need, refusal::specs::Answer::then))]
pub fn advance(
    day: u32,
    back: bool,
    size: u32,
    unit: Unit,
    convention: Convention,
    monthend: bool,
    mask: u8,
    closed: &[u32],
) -> Result<Moved, Refusal>
    ensures { closed_ok closed.now ≡ true → moved result ≡ moved_from (advance_base mask closed.now back size unit monthend day) (advanced mask closed.now back size unit convention monthend day) }
{
    if !scan::in_span(day) {
        return Err(Refusal::Book);
    }
    match unit {
        Unit::Days => step_days(day, back, size, mask, closed),
        Unit::Weeks => add_weeks(day, back, size, convention, mask, closed),
        Unit::Months => add_months(
            day,
            back,
            size,
            Unit::Months,
            convention,
            monthend,
            mask,
            closed,
        ),
        Unit::Years => add_months(
            day,
            back,
            size,
            Unit::Years,
            convention,
            monthend,
            mask,
            closed,
        ),
    }
}
