// The last dates of a backward build: the first date where the loop ended at it, and the effective date.
ghost use Rattle.std.specs.Prelude.{true};
ghost use Rattle.steps.specs.Generate.{ended, backward_end};
ghost use Rattle.working.specs.Part.{working, held};
ghost use Rattle.working.specs.Turning.{Looped};
ghost use Rattle.working.specs.Adding.{Adds};
ghost use Rattle.working.specs.Making.{Makes};

use refusal::Refusal;
use steps::{Request, Sure};
use working::{Adjusting, Piece, Round, Tip, adds, lists};

// The first date where the loop ended at it, then the effective date.
fn end(
    q: &Request,
    closed: &[u32],
    tip: Tip,
    room: usize,
    work: &mut [u32],
    paid: &mut [u32],
    marks: &mut [u8],
) -> Result<Tip, Refusal>
    ensures { Adds (Looped q.now.mask closed.now q.now.convention true room) true (ended q.now closed.now room) tip (working work.old marks.old) paid.old result (working work.new marks.new) paid.new }
{
    let adjusting = Adjusting {
        convention: q.convention,
        mask: q.mask,
    };
    let anchored = adds::put_anchor(
        true,
        room,
        tip,
        q.first.day,
        adjusting,
        closed,
        work,
        paid,
        marks,
    )?;
    adds::put_new(
        true,
        room,
        anchored,
        q.effective.day,
        adjusting,
        closed,
        work,
        paid,
        marks,
    )
}

// What is left once the loop has ended.
pub(crate) fn backward_end(
    q: &Request,
    closed: &[u32],
    tip: Tip,
    room: usize,
    round: Round,
    work: &mut [u32],
    paid: &mut [u32],
    marks: &mut [u8],
) -> Result<Piece, Refusal>
    ensures { Makes (Looped q.now.mask closed.now q.now.convention true room (working work.old marks.old) paid.old tip) q.now closed.now room (backward_end q.now closed.now room round.tries round.seed (held true tip.n (working work.old marks.old))) result (working work.new marks.new) paid.new }
{
    let last = end(q, closed, tip, room, work, paid, marks)?;
    let from = lists::surplus(4096, last.n);
    Ok(Piece {
        from,
        marked: from,
        n: last.n,
        known: 0,
        beyond: lists::surplus(last.n, last.start),
        tries: round.tries,
        seed: round.seed,
        last: Sure::NONE,
    })
}
