// The candidates of a build: whole tenors before or after a fixed seed.
ghost use Rattle.std.specs.Prelude.{◌≡◌, true, false};
ghost use Rattle.date.specs.Date.{dated};
ghost use Rattle.calendar.specs.Open.{closed_ok};
ghost use Rattle.steps.specs.Candidates.{candidate, is_past, unless_past};
ghost use Rattle.working.specs.Turning.{Knows, Compared, turn_on};
ghost use Rattle.working.specs.Paces.{pace};

use crate::{Adjusting, Course};
use calendar::search;
use calendar::search::Near;
use date::{Date, span};
use period::{Period, Unit, sign};
use refusal::Refusal;
use steps::{Pace, Seed};

// What the loop knows: the newest date, its adjusted date where that is known, else 0, and what is near.
#[derive(Clone, Copy)]
pub(crate) struct Known {
    pub(crate) newest: u32,
    pub(crate) front: u32,
    pub(crate) near: Near,
}

// What a candidate does: it ends the loop, is skipped, is kept as the newest date, or stops the build. A turn that goes on tells
// what is then known. The refusal is a case of its own: with a `Result` round the others the compiler packs what is near into a word in
// each turn, and 4,096 weekly dates take 15 in a hundred more instructions.
#[derive(Clone, Copy)]
pub(crate) enum Turn {
    Past,
    Skip(Known),
    Keep(Known),
    Stop(Refusal),
}

// The tenor as a count of days or of months; a longer one than any that passes the checks counts as one of 1,200 units.
#[tactic(auto, using(period::specs::Laws::Signed::same32), unfolding(crate::specs::Paces::pace, steps::specs::Rules::pace_by))]
pub fn pace_of(tenor: Period) -> Pace
    ensures { result ≡ pace tenor }
{
    let size = sign::size(tenor.length).min(1200);
    match tenor.unit {
        Unit::Days => Pace {
            monthly: false,
            size,
        },
        Unit::Weeks => Pace {
            monthly: false,
            size: 7 * size,
        },
        Unit::Months => Pace {
            monthly: true,
            size,
        },
        Unit::Years => Pace {
            monthly: true,
            size: 12 * size,
        },
    }
}

// The k-th candidate. Nothing of the span lies further from a seed than a u32 counts.
pub fn candidate(back: bool, pace: Pace, seed: Seed, k: u32) -> Result<Date, Refusal>
    ensures { dated result ≡ candidate back pace seed k }
{
    let n = k as u64 * pace.size as u64;
    if n > u32::MAX as u64 {
        return Err(Refusal::Book);
    }
    if pace.monthly {
        span::months_from(seed.month, back, n as u32, seed.keep)
    } else {
        span::shift_by(seed.day, back, n as u32, Unit::Days)
    }
}

fn is_past(back: bool, exit: u32, day: u32) -> bool
    ensures { result ≡ is_past back exit day }
{
    if back { day < exit } else { exit < day }
}

// What a candidate does that is not past the exit date. The known adjusted date is taken as it is, and not by a call like
// `front_of`, whose answer would go through memory for each candidate.
fn compare(day: u32, known: Known, adjusting: Adjusting, closed: &[u32]) -> Turn
    ensures { closed_ok closed.now ≡ true → Knows adjusting.mask closed.now adjusting.convention known → Compared adjusting.mask closed.now adjusting.convention known.newest (unless_past false adjusting.mask closed.now adjusting.convention known.newest day) result }
{
    let newest = known.newest;
    let mut held = known.front;
    if known.front == 0 {
        match adjusting.adjusted(newest, closed) {
            Err(refusal) => return Turn::Stop(refusal),
            Ok(a) => held = a,
        }
    }
    let convention = adjusting.convention;
    let told = search::adjust_near(day, known.near, convention, adjusting.mask, closed);
    let near = told.near;
    match told.moved {
        Err(refusal) => Turn::Stop(refusal),
        Ok(moved) => {
            let front = moved.date.day;
            if held == front {
                return Turn::Skip(Known {
                    newest,
                    front: held,
                    near,
                });
            }
            Turn::Keep(Known {
                newest: day,
                front,
                near,
            })
        }
    }
}

// What the k-th candidate does.
pub(crate) fn try_candidate(
    course: Course,
    adjusting: Adjusting,
    closed: &[u32],
    known: Known,
    k: u32,
) -> Turn
    ensures { closed_ok closed.now ≡ true → Knows adjusting.mask closed.now adjusting.convention known → Compared adjusting.mask closed.now adjusting.convention known.newest (turn_on course adjusting.mask closed.now adjusting.convention known.newest k) result }
{
    match candidate(course.back, course.pace, course.seed, k) {
        Err(refusal) => Turn::Stop(refusal),
        Ok(date) => {
            let day = date.day;
            if is_past(course.back, course.exit, day) {
                return Turn::Past;
            }
            compare(day, known, adjusting, closed)
        }
    }
}
