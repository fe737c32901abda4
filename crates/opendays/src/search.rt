// The n-th open day after a day: the year by the counts, then on by the week, and over the closed dates on the way.
ghost use Rattle.std.specs.Prelude.{◌≡◌, true, ◌+◌, ◌-◌, ◌*◌, ◌≤◌, ◌<◌};
ghost use Rattle.date.specs.Date.{dated, in_book};
ghost use Rattle.opendays.specs.Count.{tally, weekly_open, nth_open};
ghost use Rattle.opendays.specs.Index.{nth_by};
ghost use Rattle.opendays.specs.Inner.Steps.{Found};

use crate::{Index, counts, week};
use calendar::closed_dates;
use calendar::sound::Calendar;
use date::{Date, span};
use refusal::Refusal;

// The k-th day from a day on that is not weekly closed.
#[tactic(auto, using(crate::proofs::Weeks::kth))]
fn kth_weekly(mask: u8, from: u32, k: u32) -> u32
    requires { (1 ≤ tally (weekly_open mask) 1 7) × (from ≤ 876216) × (1 ≤ k) × (k ≤ 300000) }
    ensures { Found (weekly_open mask) from (k - 1) (7 * k) result }
{
    let each = week::open_weekdays(mask);
    let before = k - 1;
    week::find_in_week(mask, from + before / each * 7, before % each)
}

// The k-th open day from a day on. Each closed date on the way, that is not weekly closed, moves it to the next day that is not.
fn kth_open<'a>(calendar: Calendar<'a>, from: u32, k: u32) -> Result<Date, Refusal>
    requires { (657072 ≤ from) × (from ≤ 876216) × (1 ≤ k) × (k ≤ 300000) }
    ensures { dated result ≡ nth_open calendar.entry.mask calendar.entry.closed.now from k }
{
    let mask = calendar.mask;
    let closed = calendar.closed;
    let mut day = kth_weekly(mask, from, k);
    for place in closed_dates::lower_bound(closed, from)..closed.len() {
        let x = closed[place];
        if day < x {
            return span::within(day as u64);
        }
        if week::is_weekly_closed(mask, x) {
            continue;
        }
        day = week::find_in_week(mask, day + 1, 0);
    }
    span::within(day as u64)
}

pub(crate) fn nth_after<'a, 'b>(index: Index<'a, 'b>, day: u32, n: u32) -> Result<Date, Refusal>
    requires { (in_book day ≡ true) × (1 ≤ n) × (n ≤ 366) }
    ensures { dated result ≡ nth_by index.entry.calendar.mask index.entry.calendar.closed.now index.entry.counts.now day n }
{
    let rank = counts::rank(index, day + 1) + n;
    let year = counts::year_before(index.counts, rank, counts::place_of(day + 1));
    let k = rank - counts::count_in(index.counts, year);
    kth_open(index.calendar, counts::year_start(year), k)
}
