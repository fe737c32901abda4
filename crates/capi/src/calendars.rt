// Calendars: a mask of weekly closed days, Monday the lowest bit, and a list of closed dates.
ghost use Rattle.std.specs.Prelude.{◌≡◌};
ghost use Rattle.refusal.specs.Answer.{then};
ghost use Rattle.calendar.specs.Calendar.{check_of, is_open_of, is_month_end_of};
ghost use Rattle.calendar.specs.Moves.{moved, adjust_move_of, last_open_move_of, advance_move_of};
ghost use Rattle.crossing.specs.Answers.{one_number_of, yes, done, MovePlace};
ghost use Rattle.crossing.specs.Numbers.{unit_of, convention_of, flag_of};

use calendar::Moved;
use crossing::answers::one_number;
use crossing::counts::put_count;
use date::Date;
use period::Period;
use refusal::Refusal;

// 0 where the calendar keeps its rule.
pub fn heronspan_calendar_check(mask: u8, closed: &[u32]) -> i64
    ensures { result ≡ one_number_of done (check_of mask closed.now) }
{
    one_number(calendar::check(mask, closed))
}

// 1 where the day is open, 0 where it is closed.
pub fn heronspan_is_open(day: u32, mask: u8, closed: &[u32]) -> i64
    ensures { result ≡ one_number_of yes (is_open_of mask closed.now day) }
{
    one_number(calendar::is_open(Date { day }, mask, closed))
}

// The day adjusted by a convention; the days that it moved are written to the first place, as for a month end and an advance. A list with no
// place is 14, before all else, and a refusal leaves it as it was.
#[tactic(auto, unfolding(refusal::specs::Answer::then))]
pub fn heronspan_adjust(
    day: u32,
    convention: u8,
    mask: u8,
    closed: &[u32],
    moved: &mut [i32],
) -> i64
    ensures { MovePlace (then (convention_of convention) (λ c. adjust_move_of mask closed.now c day)) result moved.old moved.new }
{
    let date = Date { day };
    let adjusted = crossing::convention_of(convention).and_then(|convention| calendar::adjust(
        date, convention, mask, closed,
    ));
    put_count(adjusted, moved)
}

// The last open day of the day's month, moved from the month's last day.
pub fn heronspan_calendar_month_end(day: u32, mask: u8, closed: &[u32], moved: &mut [i32]) -> i64
    ensures { MovePlace (last_open_move_of mask closed.now day) result moved.old moved.new }
{
    put_count(calendar::month_end(Date { day }, mask, closed), moved)
}

// 1 where the day is the last open day of its month, or after it; 0 where it is not, as for day 0.
pub fn heronspan_is_month_end(day: u32, mask: u8, closed: &[u32]) -> i64
    ensures { result ≡ one_number_of yes (is_month_end_of mask closed.now day) }
{
    one_number(calendar::is_month_end(Date { day }, mask, closed))
}

#[tactic(auto, unfolding(refusal::specs::Answer::then))]
fn advanced(
    day: u32,
    tenor: i32,
    unit: u8,
    convention: u8,
    monthend: u8,
    mask: u8,
    closed: &[u32],
) -> Result<Moved, Refusal>
    ensures { moved result ≡ then (unit_of unit) (λ u. then (convention_of convention) (λ c. then (flag_of monthend) (λ m. advance_move_of mask closed.now tenor u c m day))) }
{
    let unit = crossing::unit_of(unit)?;
    let convention = crossing::convention_of(convention)?;
    let monthend = crossing::flag_of(monthend)?;
    let tenor = Period {
        length: tenor,
        unit,
    };
    calendar::advance(Date { day }, tenor, convention, monthend, mask, closed)
}

// The day moved by the tenor: days are open days, the other units are added and adjusted. The days moved are those from the sum, or from its
// month's last day where the month end is given.
pub fn heronspan_calendar_advance(
    day: u32,
    tenor: i32,
    unit: u8,
    convention: u8,
    monthend: u8,
    mask: u8,
    closed: &[u32],
    moved: &mut [i32],
) -> i64
    ensures { MovePlace (then (unit_of unit) (λ u. then (convention_of convention) (λ c. then (flag_of monthend) (λ m. advance_move_of mask closed.now tenor u c m day)))) result moved.old moved.new }
{
    put_count(
        advanced(day, tenor, unit, convention, monthend, mask, closed),
        moved,
    )
}
