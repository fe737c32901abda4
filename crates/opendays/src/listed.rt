// Closed dates of a stretch of days. A date that is weekly closed, too, is passed over: the week has it already.
ghost use Rattle.std.specs.Prelude.{◌≡◌, true, ◌≤◌, length, drop};
ghost use Rattle.calendar.specs.Open.{closed_ok, member, is_open_day};
ghost use Rattle.opendays.specs.Inner.Steps.{PassedBy};

use crate::week;
use calendar::closed_dates;

#[derive(Drop)]
pub(crate) struct Passed {
    pub(crate) place: usize,
    pub(crate) count: u32,
}

#[tactic(auto, using(crate::proofs::Places::listing))]
pub(crate) fn is_listed(closed: &[u32], x: u32) -> bool
    ensures { closed_ok closed.now ≡ true → result ≡ member x closed.now }
{
    let place = closed_dates::lower_bound(closed, x);
    if place < closed.len() {
        return closed[place] == x;
    }
    false
}

#[tactic(auto, using(crate::proofs::Places::listing))]
pub(crate) fn is_open(mask: u8, closed: &[u32], day: u32) -> bool
    ensures { closed_ok closed.now ≡ true → result ≡ is_open_day mask closed.now day }
{
    if week::is_weekly_closed(mask, day) {
        return false;
    }
    !is_listed(closed, day)
}

// The dates before a day, from a place on: how many of them are not weekly closed, and the place where they end.
pub(crate) fn pass(mask: u8, closed: &[u32], from: usize, to: u32) -> Passed
    requires { (from ≤ length closed.now) × (length closed.now ≤ 4096) }
    ensures { PassedBy mask to closed.now (drop from closed.now) result }
{
    let mut count = 0;
    for place in from..closed.len() {
        let x = closed[place];
        if to <= x {
            return Passed { place, count };
        }
        if week::is_weekly_closed(mask, x) {
            continue;
        }
        count += 1;
    }
    Passed {
        place: closed.len(),
        count,
    }
}
