// Counts with a sign: they stand in the first place of a lent list, since an answer below zero is a refusal. A list with no
// place is 14, before all else, and a refusal leaves it as it was.
ghost use Rattle.refusal.specs.Answer.{then};
ghost use Rattle.period.specs.Period.{times_of};
ghost use Rattle.date.specs.Date.{difference_of};
ghost use Rattle.crossing.specs.Answers.{FirstPlace, length_in};
ghost use Rattle.crossing.specs.Numbers.{unit_of};

use crossing::counts::{self, put_count};
use date::Date;

// How many days the first day lies after the second.
pub fn heronspan_difference(a: u32, b: u32, days: &mut [i32]) -> i64
    ensures { FirstPlace (difference_of a b) result days.old days.new }
{
    put_count(Date { day: a }.difference(Date { day: b }), days)
}

// The length of a tenor that is taken `count` times; its unit stays.
pub fn heronspan_times(tenor: i32, unit: u8, count: i32, out: &mut [i32]) -> i64
    ensures { FirstPlace (then (unit_of unit) (λ u. length_in (times_of tenor u count))) result out.old out.new }
{
    put_count(counts::times(tenor, unit, count), out)
}
