// Counts with a sign: they stand in the first place of a lent list, since an answer below zero is a refusal. A list with no
// place is 14, before all else, and a refusal leaves it as it was.
ghost use Rattle.std.specs.Prelude.{◌≡◌, ℕ, ℤ};
ghost use Rattle.refusal.specs.Answer.{answered, answered_by, then};
ghost use Rattle.period.specs.Period.{times_of};
ghost use Rattle.crossing.specs.Answers.{CountPlace, length_in};
ghost use Rattle.crossing.specs.Numbers.{unit_of};

use crate::answers;
use calendar::Moved;
use period::Period;
use refusal::{Refusal, Refuses};

// What has a count with a sign, which crosses in a lent list, beside a number.
pub trait Counts {
    ghost number: { Self → ℕ };

    ghost count: { Self → ℤ };

    fn parts(self) -> (u32, i32)
        ensures number { result.0 ≡ number self }
        ensures count { result.1 ≡ count self };
}

// A count alone.
impl Counts for i32 {
    ghost number = { λ n. 0 };

    ghost count = { λ n. n };

    fn parts(self) -> (u32, i32) {
        (0, self)
    }
}

impl Counts for Moved {
    ghost number = { λ m. m.date.day };

    ghost count = { λ m. m.days };

    fn parts(self) -> (u32, i32) {
        (self.date.day, self.days)
    }
}

pub fn put_count<T: Counts + Drop, E: Refuses + Drop>(answer: Result<T, E>, list: &mut [i32]) -> i64
    ensures { CountPlace T.number T.count (answered_by E.numbered answer) result list.old list.new }
{
    if list.len() < 1 {
        return answers::refused(Refusal::Room);
    }
    match answer {
        Ok(value) => {
            let (number, count) = value.parts();
            list[0] = count;
            number as i64
        }
        Err(refusal) => answers::refused(refusal),
    }
}

// The length of a tenor that is taken `count` times.
#[tactic(auto, unfolding(crate::specs::Answers::length_in, refusal::specs::Answer::then))]
pub fn times(tenor: i32, unit: u8, count: i32) -> Result<i32, Refusal>
    ensures { answered result ≡ then (unit_of unit) (λ u. length_in (times_of tenor u count)) }
{
    let unit = crate::unit_of(unit)?;
    let period = Period {
        length: tenor,
        unit,
    };
    Ok(period.times(count)?.length)
}
