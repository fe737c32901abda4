// The last dates of a forward build: the next-to-last date where the loop ended at it, and termination or its twentieth.
ghost use Rattle.std.specs.Prelude.{◌≡◌, true, false};
ghost use Rattle.refusal.specs.Answer.{answered};
ghost use Rattle.calendar.specs.Open.{closed_ok};
ghost use Rattle.calendar.specs.Adjust.{adjusted};
ghost use Rattle.steps.specs.Generate.{put_closing, forward_end};
ghost use Rattle.working.specs.Part.{working, Part, held, Fills};
ghost use Rattle.working.specs.Turning.{Front, Looped};
ghost use Rattle.working.specs.Making.{Makes};
ghost use Rattle.forwards.specs.Closing.{FrontServes, Closes};

use refusal::Refusal;
use steps::moves::is_same;
use steps::{Request, Sure, rules, twentieths};
use working::{Adjusting, Piece, Round, Tip, adds, lists};

// How many dates there are then, and what a day adjusts to by the convention of the last date.
#[derive(Clone, Copy)]
struct Closing {
    n: usize,
    last: Sure,
}

// Termination, or its twentieth for the rules on twentieths.
fn put_closing(
    q: &Request,
    room: usize,
    n: usize,
    work: &mut [u32],
    marks: &mut [u8],
) -> Result<usize, Refusal>
    ensures { Fills (Part room) false room (put_closing false q.now room) n (working work.old marks.old) result (working work.new marks.new) }
{
    let rule = q.rule;
    if rules::on_twentieths(rule) {
        let twentieth = twentieths::next(q.termination.day, rule)?.day;
        return lists::put(false, n, room, twentieth, 1, work, marks);
    }
    lists::put(false, n, room, q.termination.day, 0, work, marks)
}

// Whether the front is known by the convention of the last date too.
fn front_serves(q: &Request, front: u32) -> bool
    ensures { result ≡ true → FrontServes q.now front }
{
    let convention = q.convention;
    let terminal = q.terminal;
    front != 0 && is_same(terminal, convention)
}

// The newest date adjusted by the convention of the last date: the front, or a search where that does not serve.
fn newest_paid(q: &Request, closed: &[u32], front: u32, newest: u32) -> Result<u32, Refusal>
    ensures { closed_ok closed.now ≡ true → Front q.now.mask closed.now q.now.convention front newest → answered result ≡ adjusted q.now.mask closed.now q.now.terminal newest }
{
    if front_serves(q, front) {
        return Ok(front);
    }
    let adjusting = Adjusting {
        convention: q.terminal,
        mask: q.mask,
    };
    adjusting.adjusted(newest, closed)
}

// The last date, unless the newest adjusts to the same day as termination; with what that one of the two adjusts to.
fn close(
    q: &Request,
    closed: &[u32],
    room: usize,
    tip: Tip,
    work: &mut [u32],
    marks: &mut [u8],
) -> Result<Closing, Refusal>
    ensures { Closes q.now closed.now room tip (working work.old marks.old) result (working work.new marks.new) }
{
    let day = lists::newest(false, tip.n, work);
    let a = newest_paid(q, closed, tip.front, day)?;
    let end = q.termination.day;
    let adjusting = Adjusting {
        convention: q.terminal,
        mask: q.mask,
    };
    let b = adjusting.adjusted(end, closed)?;
    if a == b {
        return Ok(Closing {
            n: tip.n,
            last: Sure { day, paid: a },
        });
    }
    let n = put_closing(q, room, tip.n, work, marks)?;
    Ok(Closing {
        n,
        last: Sure { day: end, paid: b },
    })
}

// What is left once the loop has ended: the next-to-last date where it ended at it, then the last date.
pub(crate) fn forward_end(
    q: &Request,
    closed: &[u32],
    room: usize,
    tip: Tip,
    round: Round,
    work: &mut [u32],
    paid: &mut [u32],
    marks: &mut [u8],
) -> Result<Piece, Refusal>
    ensures { Makes (Looped q.now.mask closed.now q.now.convention false room (working work.old marks.old) paid.old tip) q.now closed.now room (forward_end q.now closed.now room round.tries round.seed (held false tip.n (working work.old marks.old))) result (working work.new marks.new) paid.new }
{
    let adjusting = Adjusting {
        convention: q.convention,
        mask: q.mask,
    };
    let anchored = adds::put_anchor(
        false,
        room,
        tip,
        q.penultimate.day,
        adjusting,
        closed,
        work,
        paid,
        marks,
    )?;
    let shut = close(q, closed, room, anchored, work, marks)?;
    Ok(Piece {
        from: 0,
        marked: 1,
        n: shut.n,
        known: anchored.start,
        beyond: anchored.n,
        tries: round.tries,
        seed: round.seed,
        last: shut.last,
    })
}
