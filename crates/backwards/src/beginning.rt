// The first dates of a backward build: termination, and the next-to-last date where there is one.
ghost use Rattle.std.specs.Prelude.{true};
ghost use Rattle.refusal.specs.Answer.{then};
ghost use Rattle.steps.specs.Candidates.{seed_of};
ghost use Rattle.steps.specs.Generate.{nothing, put, put_penultimate};
ghost use Rattle.working.specs.Part.{working, Part, Placed, Fills};

use refusal::Refusal;
use steps::{Pace, Seed, flags, seeds};
use working::{candidates, lists};

// The next-to-last date, where there is one: regular if it is the first candidate.
fn put_penultimate(
    n: usize,
    room: usize,
    pace: Pace,
    seed: Seed,
    anchor: u32,
    work: &mut [u32],
    marks: &mut [u8],
) -> Result<usize, Refusal>
    ensures { Fills (Placed room) true room (put_penultimate pace seed room anchor) n (working work.old marks.old) result (working work.new marks.new) }
{
    if anchor == 0 {
        return Ok(n);
    }
    if room <= n {
        return Err(Refusal::Room);
    }
    let next = candidates::candidate(true, pace, seed, 1)?;
    let mark = flags::same_flag(next.day, anchor);
    lists::put(true, n, room, anchor, mark, work, marks)
}

// Termination, then the next-to-last date, for whose flag alone termination is a seed.
pub(crate) fn begin(
    termination: u32,
    anchor: u32,
    pace: Pace,
    monthend: bool,
    room: usize,
    work: &mut [u32],
    marks: &mut [u8],
) -> Result<usize, Refusal>
    ensures { Fills (Part room) true room (λ _. then (put room termination 1 nothing) (put_penultimate pace (seed_of monthend termination) room anchor)) 0 (working work.old marks.old) result (working work.new marks.new) }
{
    let n = lists::put_first(true, room, termination, 1, work, marks)?;
    if anchor == 0 {
        return Ok(n);
    }
    let seed = seeds::seed_of(monthend, termination);
    put_penultimate(n, room, pace, seed, anchor, work, marks)
}
