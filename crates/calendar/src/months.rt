// Whether two days lie in one month, and where a month starts.
ghost use Rattle.std.specs.Prelude.{◌≡◌, ◌+◌, ◌-◌, ◌≤◌, ◌<◌};
ghost use Rattle.date.specs.Civil.{fields_of};
ghost use Rattle.calendar.specs.Adjust.{same_month};

use date::civil;

// Whether the later day's month has begun by the earlier day: a day is as far into its month as its day of the month says, so that
// one split tells. Nothing is said of day 0, which lies in no month.
#[tactic(auto, using(crate::proofs::OneMonth::begun))]
fn has_begun(later: u32, earlier: u32) -> bool
    requires { earlier < later }
    ensures { 1 ≤ earlier → result ≡ same_month earlier later }
{
    let f = civil::fields_of(later);
    later - earlier < f.day
}

#[tactic(auto, using(crate::proofs::OneMonth::one_day, crate::proofs::OneMonth::turned))]
pub fn same_month(a: u32, b: u32) -> bool
    ensures { 1 ≤ a → 1 ≤ b → result ≡ same_month a b }
{
    if a < b {
        return has_begun(b, a);
    }
    if b < a {
        return has_begun(a, b);
    }
    true
}

// The first day of a day's month. Day 0 lies in none.
#[tactic(auto, using(crate::proofs::OneMonth::start_fits))]
pub(crate) fn month_start(day: u32) -> u32
    ensures { 1 ≤ day → result ≡ day + 1 - (fields_of day).day }
{
    let f = civil::fields_of(day);
    if day < f.day {
        return 0;
    }
    day - f.day + 1
}
