// The first date of a forward build, for CDS and CDS2015 a twentieth with perhaps another one before it.
ghost use Rattle.std.specs.Prelude.{◌≡◌, true, false};
ghost use Rattle.refusal.specs.Answer.{answered, then};
ghost use Rattle.calendar.specs.Adjust.{adjusted};
ghost use Rattle.steps.specs.Generate.{put, put_earlier, credit_opening, opening};
ghost use Rattle.working.specs.Step.{seen};
ghost use Rattle.working.specs.Part.{working, Part, Fresh, Fills};
ghost use Rattle.opening.specs.First.{begin_with, Firsts};

use date::span;
use period::Unit;
use refusal::Refusal;
use steps::{Request, Sure, rules, twentieths};
use working::{Adjusting, Begin, lists};

// What was put, with what one of the dates is known to adjust to.
#[tactic(auto, unfolding(working::specs::Step::seen))]
fn with_sure(put: Result<usize, Refusal>, sure: Sure) -> Result<Begin, Refusal>
    ensures { answered result ≡ seen (begin_with sure) (answered put) }
{
    let n = put?;
    Ok(Begin { n, sure })
}

// The twentieth three months earlier, then the twentieth.
fn open_earlier(room: usize, day: u32, work: &mut [u32], marks: &mut [u8]) -> Result<usize, Refusal>
    ensures { Fills (Part room) false room (λ _. then (put_earlier true room day) (put room day 1)) 0 (working work.old marks.old) result (working work.new marks.new) }
{
    let earlier = span::shift_by(day, true, 3, Unit::Months)?;
    lists::put_two(false, room, earlier.day, day, work, marks)
}

// The previous twentieth, behind an earlier one where it adjusts past the effective date. What it adjusts to is handed on.
fn open_credit(
    q: &Request,
    closed: &[u32],
    room: usize,
    day: u32,
    work: &mut [u32],
    marks: &mut [u8],
) -> Result<Begin, Refusal>
    ensures { Firsts (adjusted q.now.mask closed.now q.now.convention) (Fresh closed.now room) room (λ _. credit_opening q.now closed.now room day) 0 (working work.old marks.old) result (working work.new marks.new) }
{
    let adjusting = Adjusting {
        convention: q.convention,
        mask: q.mask,
    };
    let paid = adjusting.adjusted(day, closed)?;
    let sure = Sure { day, paid };
    if q.effective.day < paid {
        return with_sure(open_earlier(room, day, work, marks), sure);
    }
    with_sure(lists::put_first(false, room, day, 1, work, marks), sure)
}

// The first date: the effective one, or a twentieth for CDS and CDS2015.
pub(crate) fn put_opening(
    q: &Request,
    closed: &[u32],
    room: usize,
    work: &mut [u32],
    marks: &mut [u8],
) -> Result<Begin, Refusal>
    ensures { Firsts (adjusted q.now.mask closed.now q.now.convention) (Fresh closed.now room) room (λ _. opening q.now closed.now room) 0 (working work.old marks.old) result (working work.new marks.new) }
{
    let rule = q.rule;
    if rules::is_credit(rule) {
        let twentieth = twentieths::previous(q.effective.day, rule)?;
        return open_credit(q, closed, room, twentieth.day, work, marks);
    }
    with_sure(
        lists::put_first(false, room, q.effective.day, 1, work, marks),
        Sure::NONE,
    )
}
