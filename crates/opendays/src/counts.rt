// The 601 counts: the years that they stand for, and what they say of a day.
ghost use Rattle.std.specs.Prelude.{◌≡◌, true, ◌+◌, ◌≤◌, ◌<◌, length, drop};
ghost use Rattle.date.specs.Date.{in_book};
ghost use Rattle.opendays.specs.Count.{tally, weekly_open, open_between};
ghost use Rattle.opendays.specs.Index.{place_of, year_start, index_of, count_in, rank_by, count_by, stepped, onwards};
ghost use Rattle.opendays.specs.Inner.Steps.{Rest, Stretch, Halved};

use crate::listed::Passed;
use crate::{Index, listed, week};
use calendar::closed_dates;
use calendar::sound::Calendar;
use date::{civil, span};

// The days of 600 years.
const MOST: u32 = 219145;

// The last year whose days may be answered stands at this place; the one after it ends the counts.
const LAST_PLACE: usize = 600;

// The place of the year that a day lies in.
#[tactic(auto, using(crate::proofs::Ranks::years))]
pub(crate) fn place_of(day: u32) -> usize
    requires { (657072 ≤ day) × (day ≤ 876216) }
    ensures { result ≡ place_of day }
{
    let f = civil::fields_of(day);
    (f.year - 1800) as usize
}

// 1 January of the year at a place.
#[tactic(auto, using(crate::proofs::Ranks::years))]
pub(crate) fn year_start(place: usize) -> u32
    requires { place ≤ 600 }
    ensures { result ≡ year_start place }
{
    let p = 1799 + place as u32;
    365 * p + p / 4 + p / 400 - p / 100 + 1
}

// A count as it is read: at most the days of 600 years.
#[tactic(auto, using(crate::proofs::Ranks::reading))]
pub(crate) fn count_in(index: &[u32], place: usize) -> u32
    requires { place < length index.now }
    ensures { result ≡ count_in index.now place }
{
    let count = index[place];
    if count < MOST { count } else { MOST }
}

// The open days from one day up to, and without, another, at most 400 days on: the days that are not weekly closed, less the closed dates
// among them. The place of the first day is given, and that of the other one answered.
fn count_stretch<'a>(calendar: Calendar<'a>, each: u32, place: usize, from: u32, to: u32) -> Passed
    requires { (each ≡ tally (weekly_open calendar.mask) 1 7) × (place ≤ length calendar.closed.now) × Rest calendar.closed.now (drop place calendar.closed.now) from × (from ≤ to) × (to ≤ from + 400) × (to ≤ 876217) }
    ensures { Stretch calendar.entry.mask calendar.entry.closed.now from to result }
{
    let weekly = week::count_weekly(calendar.mask, each, from, to - from);
    let passed = listed::pass(calendar.mask, calendar.closed, place, to);
    Passed {
        place: passed.place,
        count: weekly - passed.count,
    }
}

// The open days from the start of a year up to, and without, a day of it.
fn count_in_year<'a>(calendar: Calendar<'a>, start: u32, day: u32) -> u32
    requires { (657072 ≤ start) × (start ≤ day) × (day ≤ start + 400) × (day ≤ 876216) }
    ensures { result ≡ open_between calendar.entry.mask calendar.entry.closed.now start day }
{
    let each = week::open_weekdays(calendar.mask);
    let place = closed_dates::lower_bound(calendar.closed, start);
    let stretch = count_stretch(calendar, each, place, start, day);
    stretch.count
}

// The open days from 1800 on before a day, from the count of its year on.
#[tactic(auto, using(crate::proofs::Ranks::ranking))]
pub(crate) fn rank<'a, 'b>(index: Index<'a, 'b>, day: u32) -> u32
    requires { (657072 ≤ day) × (day ≤ 876216) }
    ensures { result ≡ rank_by index.entry.calendar.mask index.entry.calendar.closed.now index.entry.counts.now day }
{
    let place = place_of(day);
    count_in(index.counts, place) + count_in_year(index.calendar, year_start(place), day)
}

// The open days from one day up to, and without, another. Counts that fall, of another index, come to 0.
#[tactic(auto, using(crate::proofs::Ranks::counting))]
pub(crate) fn between<'a, 'b>(index: Index<'a, 'b>, first: u32, last: u32) -> u32
    requires { (in_book first ≡ true) × (in_book last ≡ true) }
    ensures { result ≡ count_by index.entry.calendar.mask index.entry.calendar.closed.now index.entry.counts.now first last }
{
    if last <= first {
        return 0;
    }
    let before = rank(index, first);
    let to = rank(index, last);
    if to < before {
        return 0;
    }
    to - before
}

// By halving, from a place whose count is below a rank: the last such, where counts rise. These very turns are promised (specs/Index,
// `year_before`) of every index, counts that fall among them: a search of the library's may try other places, so the loop stays.
pub(crate) fn year_before(index: &[u32], rank: u32, from: usize) -> usize
    requires { (length index.now ≡ 601) × (from < 600) × (count_in index.now from < rank) }
    ensures { Halved index.now rank from result }
{
    let mut lo = from;
    let mut hi = LAST_PLACE;
    while lo + 1 < hi {
        let mid = lo + (hi - lo) / 2;
        if count_in(index, mid) < rank {
            lo = mid;
        } else {
            hi = mid;
        }
    }
    lo
}

// The index of a calendar: year after year, and once through the closed dates.
pub(crate) fn fill<'a>(calendar: Calendar<'a>, index: &mut [u32])
    requires { length index.old ≡ 601 }
    ensures { index.new ≡ index_of calendar.entry.mask calendar.entry.closed.now }
{
    let each = week::open_weekdays(calendar.mask);
    let mut place = 0;
    let mut count = 0;
    let mut start = span::FIRST;
    for i in 0..LAST_PLACE {
        index[i] = count;
        let next = year_start(i + 1);
        let year = count_stretch(calendar, each, place, start, next);
        count += year.count;
        place = year.place;
        start = next;
    }
    index[LAST_PLACE] = count;
}

// One more or one less, but not past the days of 600 years and not below 0.
#[tactic(auto, using(crate::proofs::Ranks::step_one))]
fn step(count: u32, up: bool) -> u32
    ensures { result ≡ stepped up count }
{
    if up {
        if count < MOST { count + 1 } else { count }
    } else {
        if count == 0 { 0 } else { count - 1 }
    }
}

// The counts from a place on, each one more or one less.
#[tactic(auto, using(crate::proofs::Filling::stepping))]
pub(crate) fn step_from(index: &mut [u32], place: usize, up: bool)
    requires { place ≤ length index.old }
    ensures { index.new ≡ onwards up place index.old }
{
    for i in place..index.len() {
        index[i] = step(index[i], up);
    }
}
