// Open days by index: a list of 601 running counts beside a calendar, one for the start of each year from 1800 to 2400. It answers how
// many open days lie between two dates, and which is the n-th open day after a date, without a walk over the days.
#![tactic(auto)]

ghost use Rattle.std.specs.Prelude.{◌≡◌, ◌≤◌, true, IfOk, length};
ghost use Rattle.refusal.specs.Answer.{answered, given, need, BOOK};
ghost use Rattle.calendar.specs.Open.{calendar_ok};
ghost use Rattle.calendar.specs.Adjust.{in_span};
ghost use Rattle.opendays.specs.OpenDays.{indexed, Written, make_of, count_of, nth_of, add_of, remove_of};
ghost use Rattle.date.specs.Date.{dated};

use calendar::sound::Calendar;
use date::{Date, span};
use refusal::Refusal;

// The 601 counts, and what they say of a day.
mod counts;
// Closed dates of a stretch of days.
mod listed;
// Open days one after another, by the week and the list.
mod search;
// Days that are not weekly closed.
mod week;

// How many counts an index has: one for the start of each year from 1800 to 2400.
pub const PLACES: usize = 601;

const MOST_CLOSED: usize = 4096;

const MOST_ASKED: u32 = 366;

// A calendar that keeps its rule, with 601 counts.
#[derive(Clone, Copy)]
pub(crate) struct Index<'a, 'b> {
    pub(crate) calendar: Calendar<'a>,
    pub(crate) counts: &'b [u32],
    ghost sized: { length counts.now ≡ 601 },
}

// The rows that come first: a calendar that keeps its rule, and an index of 601 counts.
#[tactic(auto, unfolding(crate::specs::OpenDays::indexed, calendar::specs::Calendar::check_of, refusal::specs::Answer::need))]
fn check(mask: u8, closed: &[u32], index: &[u32]) -> Result<(), Refusal>
    ensures value { answered result ≡ indexed mask closed.now index.now (given tt) }
    ensures sound { IfOk result (λ _. (calendar_ok mask closed.now ≡ true) × (length index.now ≡ 601)) }
{
    calendar::check(mask, closed)?;
    if index.len() != PLACES {
        return Err(Refusal::Index);
    }
    Ok(())
}

// The day number, of a date that may be closed: one from 1800 to 2399.
#[tactic(auto, unfolding(calendar::specs::AnyCalendar::in_span, date::specs::Date::within_span, refusal::specs::Answer::need))]
fn spanned(date: Date) -> Result<u32, Refusal>
    ensures value { answered result ≡ need BOOK (in_span date.day) (given date.day) }
    ensures inside { IfOk result (λ day. (657072 ≤ day) × (day ≤ 876216)) }
{
    Ok(span::within(date.day as u64)?.day)
}

// The index of a calendar, into a lent list.
#[tactic(auto, unfolding(crate::specs::OpenDays::make_of, crate::specs::OpenDays::indexed, crate::specs::OpenDays::changed, crate::specs::OpenDays::index_after, refusal::specs::Answer::need))]
pub fn make(mask: u8, closed: &[u32], index: &mut [u32]) -> Result<(), Refusal>
    ensures { Written (make_of mask closed.now index.old) (answered result) index.old index.new }
{
    check(mask, closed, index)?;
    counts::fill(Calendar { mask, closed }, index);
    Ok(())
}

// The open days from the first date up to, and without, the last: none if that is not later.
#[tactic(auto, unfolding(crate::specs::OpenDays::count_of, crate::specs::OpenDays::indexed, refusal::specs::Answer::need))]
pub fn count(
    first: Date,
    last: Date,
    mask: u8,
    closed: &[u32],
    index: &[u32],
) -> Result<u32, Refusal>
    ensures { answered result ≡ count_of mask closed.now index.now first.day last.day }
{
    check(mask, closed, index)?; // before the first date, as document 01 has it
    let from = first.booked()?;
    let to = last.booked()?;
    let index = Index {
        calendar: Calendar { mask, closed },
        counts: index,
    };
    Ok(counts::between(index, from, to))
}

// The n-th open day after the date, n from 1 to 366.
#[tactic(auto, unfolding(crate::specs::OpenDays::nth_of, crate::specs::OpenDays::indexed, refusal::specs::Answer::need))]
pub fn nth(date: Date, n: u32, mask: u8, closed: &[u32], index: &[u32]) -> Result<Date, Refusal>
    ensures { dated result ≡ nth_of mask closed.now index.now date.day n }
{
    check(mask, closed, index)?; // before the date and the count of days
    let day = date.booked()?;
    if n < 1 || MOST_ASKED < n {
        return Err(Refusal::Tenor);
    }
    let index = Index {
        calendar: Calendar { mask, closed },
        counts: index,
    };
    search::nth_after(index, day, n)
}

// The index of the calendar with one closed date more; the list is that of before the change.
#[tactic(auto, using(crate::specs::Laws::Years::place_to, calendar::specs::Laws::Told::ok_closed), unfolding(crate::specs::OpenDays::add_of, crate::specs::OpenDays::indexed, crate::specs::OpenDays::changed, crate::specs::OpenDays::index_after, refusal::specs::Answer::need))]
pub fn add(date: Date, mask: u8, closed: &[u32], index: &mut [u32]) -> Result<(), Refusal>
    ensures { Written (add_of mask closed.now index.old date.day) (answered result) index.old index.new }
{
    check(mask, closed, index)?;
    let day = spanned(date)?;
    if !listed::is_open(mask, closed, day) {
        return Err(Refusal::Same);
    }
    if MOST_CLOSED <= closed.len() {
        return Err(Refusal::Full);
    }
    counts::step_from(index, counts::place_of(day) + 1, false);
    Ok(())
}

// The index of the calendar with one closed date less; the list is that of before the change.
#[tactic(auto, using(crate::specs::Laws::Years::place_to, calendar::specs::Laws::Told::ok_closed), unfolding(crate::specs::OpenDays::remove_of, crate::specs::OpenDays::unless_weekly, crate::specs::OpenDays::indexed, crate::specs::OpenDays::changed, crate::specs::OpenDays::index_after, refusal::specs::Answer::need))]
pub fn remove(date: Date, mask: u8, closed: &[u32], index: &mut [u32]) -> Result<(), Refusal>
    ensures { Written (remove_of mask closed.now index.old date.day) (answered result) index.old index.new }
{
    check(mask, closed, index)?;
    let day = spanned(date)?;
    if !listed::is_listed(closed, day) {
        return Err(Refusal::Same);
    }
    if week::is_weekly_closed(mask, day) {
        return Ok(());
    }
    counts::step_from(index, counts::place_of(day) + 1, true);
    Ok(())
}
