// Days that are not weekly closed, by whole weeks and the rest of one.
ghost use Rattle.std.specs.Prelude.{◌≡◌, ◌+◌, ◌/◌, ◌%◌, ◌^◌, ◌≤◌, ◌<◌, eqb};
ghost use Rattle.calendar.specs.Open.{weekly_closed};
ghost use Rattle.opendays.specs.Count.{tally, weekly_open};
ghost use Rattle.opendays.specs.Inner.Steps.{Found};

use date::civil;

// The weekday's bit of the mask is set: Monday, 0, is the lowest bit.
fn is_masked(weekday: u32, mask: u8) -> bool
    requires { weekday < 7 }
    ensures { result ≡ eqb (mask / 2 ^ weekday % 2) 1 }
{
    (mask >> weekday) % 2 == 1
}

#[tactic(auto, using(crate::proofs::Weeks::masking))]
pub(crate) fn is_weekly_closed(mask: u8, day: u32) -> bool
    ensures { result ≡ weekly_closed mask day }
{
    is_masked(civil::weekday_of(day) - 1, mask)
}

// How many of a few days are not weekly closed.
fn count_few(mask: u8, from: u32, n: u32) -> u32
    requires { (from ≤ 4000000) × (n ≤ 7) }
    ensures { result ≡ tally (weekly_open mask) from n }
{
    let mut count = 0;
    for i in 0..n {
        if !is_weekly_closed(mask, from + i) {
            count += 1;
        }
    }
    count
}

// How many weekdays are not closed; the week is that of day 1.
pub(crate) fn open_weekdays(mask: u8) -> u32
    ensures { result ≡ tally (weekly_open mask) 1 7 }
{
    count_few(mask, 1, 7)
}

// How many of n days are not weekly closed, where `each` are in a week.
pub(crate) fn count_weekly(mask: u8, each: u32, from: u32, n: u32) -> u32
    requires { (each ≡ tally (weekly_open mask) 1 7) × (from ≤ 4000000) × (n ≤ 400) }
    ensures { result ≡ tally (weekly_open mask) from n }
{
    n / 7 * each + count_few(mask, from, n % 7)
}

// The day of the seven from a day on, that is not weekly closed, with so many such days before it. A `for` over the seven would need an answer
// after its end, which is never reached.
pub(crate) fn find_in_week(mask: u8, from: u32, before: u32) -> u32
    requires { (from ≤ 4000000) × (before < tally (weekly_open mask) 1 7) }
    ensures { Found (weekly_open mask) from before 7 result }
{
    let mut day = from;
    let mut left = before;
    loop {
        if is_weekly_closed(mask, day) {
            day += 1;
        } else {
            if left == 0 {
                return day;
            }
            left -= 1;
            day += 1;
        }
    }
}
