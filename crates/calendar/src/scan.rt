// Open days by the mask and the list of closed dates: a single day, and the first of thirty-one either way. It costs the logarithm of the
// list and at most thirty-one steps. A day's place is the first in the list whose date is at least the day, or the length.
ghost use Rattle.std.specs.Prelude.{◌≡◌, true, false, ◌≤◌};
ghost use Rattle.date.specs.Date.{dated, SPAN_FIRST, SPAN_LAST};
ghost use Rattle.calendar.specs.Open.{is_open_day, closed_ok};
ghost use Rattle.calendar.specs.Inner.Places.{LowerBound};
ghost use Rattle.calendar.specs.Adjust.{in_span, first_open, towards, adjusted};

use crate::{closed_dates, weekdays};
use date::{Date, span};
use refusal::Refusal;

// How many days a search tries.
const TRIES: u32 = 31;

#[tactic(auto, unfolding(crate::specs::AnyCalendar::in_span))]
pub(crate) fn in_span(day: u32) -> bool
    ensures { result ≡ in_span day }
{
    span::FIRST <= day && day <= span::LAST
}

// Whether a day is open, told at its place.
#[tactic(auto, using(crate::proofs::Ways::single_at, crate::proofs::Ways::single_end, crate::proofs::Ways::single_week))]
pub(crate) fn is_open_at(place: usize, day: u32, mask: u8, closed: &[u32]) -> bool
    requires { LowerBound closed.now day place }
    ensures { closed_ok closed.now ≡ true → result ≡ is_open_day mask closed.now day }
{
    if weekdays::weekly_closed(day, mask) {
        return false;
    }
    if place < closed.len() {
        return closed[place] != day;
    }
    true
}

pub(crate) fn is_open(day: u32, mask: u8, closed: &[u32]) -> bool
    ensures { closed_ok closed.now ≡ true → result ≡ is_open_day mask closed.now day }
{
    is_open_at(closed_dates::lower_bound(closed, day), day, mask, closed)
}

// The first open day of as many as are tried, from `day` on. The scan of the closed dates starts at its place and never goes back.

fn ahead(place: usize, day: u32, tries: u32, mask: u8, closed: &[u32]) -> Result<Date, Refusal>
    requires { (SPAN_FIRST ≤ day) × (day ≤ SPAN_LAST) × (tries ≤ 31) × LowerBound closed.now day place }
    ensures { closed_ok closed.now ≡ true → dated result ≡ first_open mask closed.now false tries day }
{
    let mut at = place;
    let mut d = day;
    let mut left = tries;
    let mut weekday = weekdays::weekday_of(day);
    // A loop that yields the day, over a scan that is left by label: 01 names this form.
    let open = 'days: loop {
        if left == 0 {
            return Err(Refusal::Closed);
        }
        let here = d;
        let shut = weekdays::is_masked(weekday, mask);
        d += 1;
        left -= 1;
        weekday = weekdays::weekday_after(weekday);
        if shut {
            continue 'days;
        }
        'scan: while at < closed.len() {
            let x = closed[at];
            if here < x {
                break 'scan;
            }
            at += 1;
            if x == here {
                continue 'days;
            }
        }
        break here;
    };
    Ok(Date { day: open })
}

// The mirror: the first open day of as many as are tried, from `day` back.

fn behind(place: usize, day: u32, tries: u32, mask: u8, closed: &[u32]) -> Result<Date, Refusal>
    requires { (SPAN_FIRST ≤ day) × (day ≤ SPAN_LAST) × (tries ≤ 31) × LowerBound closed.now day place }
    ensures { closed_ok closed.now ≡ true → dated result ≡ first_open mask closed.now true tries day }
{
    let mut at = closed_dates::place_after(closed, day, place);
    let mut d = day;
    let mut left = tries;
    let mut weekday = weekdays::weekday_of(day);
    // A loop that yields the day, over a scan that is left by label: 01 names this form.
    let open = 'days: loop {
        if left == 0 {
            return Err(Refusal::Closed);
        }
        let here = d;
        let shut = weekdays::is_masked(weekday, mask);
        d -= 1;
        left -= 1;
        weekday = weekdays::weekday_before(weekday);
        if shut {
            continue 'days;
        }
        'scan: while 0 < at {
            let x = closed[at - 1];
            if x < here {
                break 'scan;
            }
            at -= 1;
            if x == here {
                continue 'days;
            }
        }
        break here;
    };
    Ok(Date { day: open })
}

// The first open day of as many as are tried, from a day whose place is known, on or back.
#[tactic(auto, using(crate::proofs::Ways::this_way))]
fn first_from(
    place: usize,
    day: u32,
    back: bool,
    tries: u32,
    mask: u8,
    closed: &[u32],
) -> Result<Date, Refusal>
    requires { (SPAN_FIRST ≤ day) × (day ≤ SPAN_LAST) × (tries ≤ 31) × LowerBound closed.now day place }
    ensures { closed_ok closed.now ≡ true → dated result ≡ first_open mask closed.now back tries day }
{
    if back {
        behind(place, day, tries, mask, closed)
    } else {
        ahead(place, day, tries, mask, closed)
    }
}

// The first open day of at most thirty-one, from a day on, or back.
pub fn first_open(
    day: u32,
    back: bool,
    tries: u32,
    mask: u8,
    closed: &[u32],
) -> Result<Date, Refusal>
    ensures { closed_ok closed.now ≡ true → in_span day ≡ true → tries ≤ 31 → dated result ≡ first_open mask closed.now back tries day }
{
    if !in_span(day) {
        return Err(Refusal::Book);
    }
    if TRIES < tries {
        return Err(Refusal::Closed);
    }
    let place = closed_dates::lower_bound(closed, day);
    first_from(place, day, back, tries, mask, closed)
}

// Following, or Preceding, from a day whose place is known.
#[tactic(auto, using(crate::specs::Laws::Search::as_search), unfolding(crate::specs::AnyCalendar::in_span, refusal::specs::Answer::need, refusal::specs::Answer::then))]
pub(crate) fn look(
    place: usize,
    day: u32,
    back: bool,
    mask: u8,
    closed: &[u32],
) -> Result<Date, Refusal>
    requires { LowerBound closed.now day place }
    ensures { closed_ok closed.now ≡ true → dated result ≡ adjusted mask closed.now (towards back) day }
{
    if !in_span(day) {
        return Err(Refusal::Book);
    }
    let open = first_from(place, day, back, TRIES, mask, closed)?;
    span::within(open.day as u64)
}
