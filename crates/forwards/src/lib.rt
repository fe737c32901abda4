// Forward builds, and those on twentieths and third Wednesdays: from the effective date on to termination.
#![tactic(auto)]

ghost use Rattle.calendar.specs.Adjust.{adjusted};
ghost use Rattle.steps.specs.Generate.{forward_from, forward};
ghost use Rattle.working.specs.Part.{working};
ghost use Rattle.working.specs.Turning.{Begins};
ghost use Rattle.opening.specs.Opening.{opening};
ghost use Rattle.working.specs.Making.{Checked, Blank, Makes};

use refusal::Refusal;
use steps::{Request, seeds};
use working::{Adjusting, Begin, Course, Piece, Round, candidates, walks};

// The next-to-last date and the last.
mod closing;

// The loop, and what is left after it.
fn forward_from(
    q: &Request,
    closed: &[u32],
    room: usize,
    begin: Begin,
    day: u32,
    work: &mut [u32],
    paid: &mut [u32],
    marks: &mut [u8],
) -> Result<Piece, Refusal>
    ensures { Makes (Checked q.now closed.now × Begins (adjusted q.now.mask closed.now q.now.convention) closed.now room begin (working work.old marks.old) paid.old) q.now closed.now room (forward_from q.now closed.now room (opening (working work.old marks.old) begin.n day)) result (working work.new marks.new) paid.new }
{
    let course = Course {
        back: false,
        pace: candidates::pace_of(q.tenor),
        seed: seeds::seed_of(q.monthend, day),
        exit: seeds::anchor_or(q.penultimate.day, q.termination.day),
    };
    let adjusting = Adjusting {
        convention: q.convention,
        mask: q.mask,
    };
    let walked = walks::walk(course, room, adjusting, closed, begin, work, paid, marks)?;
    let round = Round {
        tries: walked.tries,
        seed: day,
    };
    closing::forward_end(q, closed, room, walked.tip, round, work, paid, marks)
}

// The dates of a forward build.
pub fn forward(
    q: Request,
    closed: &[u32],
    room: usize,
    work: &mut [u32],
    paid: &mut [u32],
    marks: &mut [u8],
) -> Result<Piece, Refusal>
    ensures { Makes (Blank q closed.now room (working work.old marks.old) paid.old) q closed.now room (forward q closed.now room) result (working work.new marks.new) paid.new }
{
    let q = &q;
    let opened = opening::open_forward(*q, closed, room, work, marks)?;
    forward_from(
        q,
        closed,
        room,
        opened.begin,
        opened.seed,
        work,
        paid,
        marks,
    )
}
