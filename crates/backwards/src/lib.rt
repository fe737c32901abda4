// Backward builds: from termination back to the effective date.
#![tactic(auto)]

ghost use Rattle.std.specs.Prelude.{◌≡◌, true, length};
ghost use Rattle.steps.specs.Rules.{pace_of};
ghost use Rattle.steps.specs.Generate.{backward_from, backward};
ghost use Rattle.working.specs.Part.{working, Begun, held};
ghost use Rattle.working.specs.Making.{Blank, Makes};

use refusal::Refusal;
use steps::{Pace, Request, Sure, seeds};
use working::{Adjusting, Begin, Course, Piece, Round, candidates, walks};

// Termination and the next-to-last date.
mod beginning;
// The first date and the effective one.
mod ending;

// The loop, and what is left after it.
fn backward_from(
    q: &Request,
    closed: &[u32],
    pace: Pace,
    n: usize,
    room: usize,
    work: &mut [u32],
    paid: &mut [u32],
    marks: &mut [u8],
) -> Result<Piece, Refusal>
    ensures { Makes ((pace ≡ pace_of q.now.tenor) × (Begun closed.now room n (working work.old marks.old) × (length paid.old ≡ 4096))) q.now closed.now room (backward_from q.now closed.now room (held true n (working work.old marks.old))) result (working work.new marks.new) paid.new }
{
    let day = seeds::anchor_or(q.penultimate.day, q.termination.day);
    let course = Course {
        back: true,
        pace,
        seed: seeds::seed_of(q.monthend, day),
        exit: seeds::anchor_or(q.first.day, q.effective.day),
    };
    let adjusting = Adjusting {
        convention: q.convention,
        mask: q.mask,
    };
    let begin = Begin {
        n,
        sure: Sure::NONE,
    };
    let walked = walks::walk(course, room, adjusting, closed, begin, work, paid, marks)?;
    let round = Round {
        tries: walked.tries,
        seed: day,
    };
    ending::backward_end(q, closed, walked.tip, room, round, work, paid, marks)
}

// The dates of a backward build.
pub fn backward(
    q: Request,
    closed: &[u32],
    room: usize,
    work: &mut [u32],
    paid: &mut [u32],
    marks: &mut [u8],
) -> Result<Piece, Refusal>
    ensures { Makes (Blank q closed.now room (working work.old marks.old) paid.old) q closed.now room (backward q closed.now room) result (working work.new marks.new) paid.new }
{
    let q = &q;
    let pace = candidates::pace_of(q.tenor);
    let termination = q.termination.day;
    let anchor = q.penultimate.day;
    let n = beginning::begin(termination, anchor, pace, q.monthend, room, work, marks)?;
    backward_from(q, closed, pace, n, room, work, paid, marks)
}
