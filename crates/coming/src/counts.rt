// Whole tenors between a seed and a day: one division.
ghost use Rattle.std.specs.Prelude.{◌≡◌, ◌+◌, ◌-◌, ◌*◌, ◌/◌};
ghost use Rattle.steps.specs.Candidates.{is_past};
ghost use Rattle.plain.specs.Most.{day_or};
ghost use Rattle.coming.specs.Laws.Counted.{apart, most_months, most_from, tenors_from, Counts};
ghost use Rattle.date.specs.Date.{dated};

use date::{Date, Fields, civil, span};
use refusal::Refusal;
use steps::{Pace, Seed};

// How far it is from a back to b, or on to b.
#[tactic(auto, unfolding(crate::specs::Laws::Counted::apart))]
fn apart(back: bool, a: u32, b: u32) -> u32
    ensures { result ≡ apart back a b }
{
    if back {
        a.saturating_sub(b)
    } else {
        b.saturating_sub(a)
    }
}

#[tactic(auto, unfolding(steps::specs::Candidates::is_past))]
fn is_past(back: bool, exit: u32, day: u32) -> bool
    ensures { result ≡ is_past back exit day }
{
    if back { day < exit } else { exit < day }
}

pub(crate) fn day_or(d: Result<Date, Refusal>) -> u32
    ensures { result ≡ day_or (dated d) }
{
    match d {
        Ok(d) => d.day,
        Err(_) => 0,
    }
}

// The month of a day, as seeds count it.
pub(crate) fn month_of(f: Fields) -> u32
    requires { Counts f }
    ensures { result ≡ 12 * f.year + f.month - 1 }
{
    12 * f.year + f.month - 1
}

// The months between, one less where the seed's day of that month lies past the day.
#[tactic(auto, using(crate::proofs::Counting::months))]
fn most_months(back: bool, seed: Seed, near: u32) -> u32
    ensures { result ≡ most_months back seed near }
{
    let gap = apart(back, seed.month, month_of(civil::fields_of(near)));
    let day = day_or(span::months_from(seed.month, back, gap, seed.keep));
    if is_past(back, near, day) {
        return gap.saturating_sub(1);
    }
    gap
}

#[tactic(auto, unfolding(crate::specs::Laws::Counted::most_from))]
fn most(back: bool, monthly: bool, seed: Seed, near: u32) -> u32
    ensures { result ≡ most_from back monthly seed near }
{
    if monthly {
        return most_months(back, seed, near);
    }
    apart(back, seed.day, near)
}

// There is none of a length of 0.
fn whole(count: u32, size: u32) -> u32
    ensures { result ≡ count / size }
{
    if size == 0 {
        return 0;
    }
    count / size
}

// The whole tenors between a seed and a day.
pub(crate) fn tenors(back: bool, pace: Pace, seed: Seed, near: u32) -> u32
    ensures { result ≡ tenors_from back pace seed near }
{
    whole(most(back, pace.monthly, seed, near), pace.size)
}
