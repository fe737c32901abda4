// The loop over the candidates.
ghost use Rattle.std.specs.Prelude.{◌≡◌, true, ℕ};
ghost use Rattle.refusal.specs.Answer.{Answer};
ghost use Rattle.calendar.specs.Open.{closed_ok};
ghost use Rattle.calendar.specs.Adjust.{adjusted};
ghost use Rattle.steps.specs.Inner.Sure.{Surely};
ghost use Rattle.steps.specs.Generate.{last_try, walk};
ghost use Rattle.working.specs.Part.{working};
ghost use Rattle.working.specs.Paying.{Paid};
ghost use Rattle.working.specs.Turning.{Front, Sized, Starts, Started, turn_on, Walks};

use crate::candidates::{Known, Turn};
use crate::{Adjusting, Begin, Course, Tip, candidates, lists};
use calendar::search;
use calendar::search::Near;
use date::span;
use refusal::Refusal;
use steps::Sure;

// What the loop leaves, and the tries.
#[derive(Clone, Copy)]
pub struct Walked {
    pub tip: Tip,
    pub tries: u32,
}

// What the newest date adjusts to: as is known of it, or found. One that can't be adjusted is not known, and so 0: it refuses only where
// a candidate is compared with it.
fn first_front(newest: u32, sure: Sure, adjusting: Adjusting, closed: &[u32]) -> u32
    ensures { closed_ok closed.now ≡ true → Surely (adjusted adjusting.mask closed.now adjusting.convention) sure → Front adjusting.mask closed.now adjusting.convention result newest }
{
    if newest == sure.day {
        return sure.paid;
    }
    adjusting.adjusted(newest, closed).unwrap_or(0)
}

// The newest of n dates gets its paid date beside it where it is the sure one. The answer is from which on the dates are paid.
fn pay_sure(back: bool, n: usize, sure: Sure, work: &[u32], paid: &mut [u32]) -> usize
    ensures { (A : ℕ → Answer ℕ) → Surely A sure → Sized n work.now paid.old → Paid A back result n work.now paid.new }
{
    if sure.paid == 0 {
        return n;
    }
    if n == 0 {
        return n;
    }
    if lists::newest(back, n, work) != sure.day {
        return n;
    }
    lists::pay(back, n - 1, sure.paid, paid);
    n - 1
}

// What is known of the dates that are there. The newest gets its paid date beside it, and so does the one before it where that is sure.
fn first_tip(
    back: bool,
    begin: Begin,
    adjusting: Adjusting,
    closed: &[u32],
    work: &[u32],
    paid: &mut [u32],
) -> Tip
    ensures { closed_ok closed.now ≡ true → Starts (adjusted adjusting.mask closed.now adjusting.convention) begin work.now paid.old → Started adjusting.mask closed.now adjusting.convention back begin.n work.now paid.new result }
{
    let n = begin.n;
    let sure = begin.sure;
    let newest = lists::newest(back, n, work);
    let front = first_front(newest, sure, adjusting, closed);
    if front == 0 {
        return Tip { n, start: n, front };
    }
    let last = lists::surplus(n, 1);
    let start = pay_sure(back, last, sure, work, paid);
    lists::pay(back, last, front, paid);
    Tip { n, start, front }
}

// The loop, on lists that have their places.
fn turns(
    course: Course,
    room: usize,
    adjusting: Adjusting,
    closed: &[u32],
    begin: Begin,
    work: &mut [u32],
    paid: &mut [u32],
    marks: &mut [u8],
) -> Result<Walked, Refusal>
    ensures { Walks adjusting.mask closed.now adjusting.convention course.back room (walk (turn_on course adjusting.mask closed.now adjusting.convention) room last_try 1) begin (working work.old marks.old) paid.old result (working work.new marks.new) paid.new }
{
    let back = course.back;
    let convention = adjusting.convention;
    let mask = adjusting.mask;
    let way = Adjusting {
        convention: search::convention_on(convention, mask, closed),
        mask,
    };
    let mut n = begin.n;
    let first = first_tip(back, begin, way, closed, work, paid);
    let mut known = Known {
        newest: lists::newest(back, n, work),
        front: first.front,
        near: Near::NOTHING,
    };
    for k in 1..=span::LAST {
        let turn = candidates::try_candidate(course, way, closed, known, k);
        match turn {
            Turn::Stop(refusal) => {
                return Err(refusal);
            }
            Turn::Past => {
                return Ok(Walked {
                    tip: Tip {
                        n,
                        start: first.start,
                        front: known.front,
                    },
                    tries: k,
                });
            }
            Turn::Skip(next) => {
                known = next;
            }
            Turn::Keep(next) => {
                let m = lists::put(back, n, room, next.newest, 1, work, marks)?;
                lists::pay(back, n, next.front, paid);
                n = m;
                known = next;
            }
        }
    }
    Err(Refusal::Book)
}

// Candidates are put behind the dates that are there, and their adjusted dates into `paid`, up to the first beyond the exit
// date. No candidate beyond the number of the span's last day is a day of it, so 2 is what the loop would meet there.
pub fn walk(
    course: Course,
    room: usize,
    adjusting: Adjusting,
    closed: &[u32],
    begin: Begin,
    work: &mut [u32],
    paid: &mut [u32],
    marks: &mut [u8],
) -> Result<Walked, Refusal>
    ensures { Walks adjusting.mask closed.now adjusting.convention course.back room (walk (turn_on course adjusting.mask closed.now adjusting.convention) room last_try 1) begin (working work.old marks.old) paid.old result (working work.new marks.new) paid.new }
{
    if !lists::are_whole(work.len(), paid.len(), marks.len()) {
        return Err(Refusal::Room);
    }
    turns(course, room, adjusting, closed, begin, work, paid, marks)
}
