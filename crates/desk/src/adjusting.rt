// The search for an open day over two lists that keep their rule, from a day of the book: the calendar's own, lent the run of a year. No
// search leaves the year that it starts in and the next one, so that each direction looks up two runs at most.
ghost use Rattle.std.specs.Prelude.{◌≡◌, true, ◌≤◌, ◌<◌};
ghost use Rattle.refusal.specs.Answer.{given, need, BOOK};
ghost use Rattle.date.specs.Date.{dated, in_book, step};
ghost use Rattle.calendar.specs.Moves.{moved, moved_from};
ghost use Rattle.calendar.specs.AnyCalendar.{in_span, first_open, found, modified, adjusted};
ghost use Rattle.desk.specs.Desk.{in_years, opens_over};
ghost use Rattle.desk.specs.Runs.{Within};

use crate::{Lists, runs, years};
use calendar::{Convention, Moved, months, moves, scan};
use date::{Date, civil, span};
use refusal::Refusal;

// How many days a search tries.
const TRIES: u32 = 31;

// Among days of one year.
fn first_in<'a>(
    day: u32,
    back: bool,
    tries: u32,
    year: u32,
    mask: u8,
    lists: Lists<'a>,
) -> Result<Date, Refusal>
    requires { (in_years year ≡ true) × (in_span day ≡ true) × (tries ≤ 31) × Within back day tries year }
    ensures { dated result ≡ first_open (opens_over mask lists.entry.desk.now lists.entry.house.now) back tries day }
{
    let run = runs::held(lists, year);
    scan::first_open(day, back, tries, mask, run)
}

// One further on, or back.
#[tactic(auto, unfolding(date::specs::Date::step))]
fn beside(n: u32, back: bool) -> u32
    requires { (1 ≤ n) × (n < 4294967295) }
    ensures { result ≡ step back n 1 }
{
    if back { n - 1 } else { n + 1 }
}

// The days that are left of the day's year, and then the rest among those of the year beside it.
fn first_over<'a>(day: u32, back: bool, mask: u8, lists: Lists<'a>) -> Result<Date, Refusal>
    requires { in_book day ≡ true }
    ensures { dated result ≡ first_open (opens_over mask lists.entry.desk.now lists.entry.house.now) back 31 day }
{
    let year = civil::fields_of(day).year;
    let end = years::end_of(year, back);
    let left = day.abs_diff(end) + 1;
    if TRIES <= left {
        return first_in(day, back, TRIES, year, mask, lists);
    }
    match first_in(day, back, left, year, mask, lists) {
        Ok(open) => Ok(open),
        Err(_) => {
            let on = beside(end, back);
            first_in(on, back, TRIES - left, beside(year, back), mask, lists)
        }
    }
}

#[tactic(auto, using(crate::proofs::Searching::book_span), unfolding(calendar::specs::AnyCalendar::found, refusal::specs::Answer::need, refusal::specs::Answer::then))]
fn look<'a>(day: u32, back: bool, mask: u8, lists: Lists<'a>) -> Result<Date, Refusal>
    requires { in_book day ≡ true }
    ensures { dated result ≡ need BOOK (in_span day) (found (opens_over mask lists.entry.desk.now lists.entry.house.now) back day) }
{
    let open = first_over(day, back, mask, lists)?;
    span::within(open.day as u64)
}

// The day found, or that of the search the other way where the month was left.
fn look_in_month<'a>(day: u32, back: bool, mask: u8, lists: Lists<'a>) -> Result<Date, Refusal>
    requires { in_book day ≡ true }
    ensures { dated result ≡ need BOOK (in_span day) (modified (opens_over mask lists.entry.desk.now lists.entry.house.now) back day) }
{
    let found = look(day, back, mask, lists)?;
    if months::same_month(day, found.day) {
        return Ok(found);
    }
    look(day, !back, mask, lists)
}

#[tactic(auto, using(calendar::specs::Laws::Search::span_need), unfolding(calendar::specs::AnyCalendar::adjusted, calendar::specs::AnyCalendar::by_convention, refusal::specs::Answer::need))]
fn by_convention<'a>(
    day: u32,
    convention: Convention,
    mask: u8,
    lists: Lists<'a>,
) -> Result<Date, Refusal>
    requires { in_book day ≡ true }
    ensures { dated result ≡ adjusted (opens_over mask lists.entry.desk.now lists.entry.house.now) convention day }
{
    match convention {
        Convention::Unadjusted => span::within(day as u64),
        Convention::Following => look(day, false, mask, lists),
        Convention::ModifiedFollowing => look_in_month(day, false, mask, lists),
        Convention::Preceding => look(day, true, mask, lists),
        Convention::ModifiedPreceding => look_in_month(day, true, mask, lists),
    }
}

// The date found, and the days that it moved.
pub(crate) fn moved<'a>(
    day: u32,
    convention: Convention,
    mask: u8,
    lists: Lists<'a>,
) -> Result<Moved, Refusal>
    requires { in_book day ≡ true }
    ensures { moved result ≡ moved_from (given day) (adjusted (opens_over mask lists.entry.desk.now lists.entry.house.now) convention day) }
{
    moves::to(day, by_convention(day, convention, mask, lists))
}
