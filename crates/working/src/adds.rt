// Dates that are added unless they adjust to the same day as the newest one.
ghost use Rattle.std.specs.Prelude.{◌≡◌, true, length};
ghost use Rattle.refusal.specs.Answer.{answered};
ghost use Rattle.calendar.specs.Open.{closed_ok};
ghost use Rattle.calendar.specs.Adjust.{adjusted};
ghost use Rattle.steps.specs.Generate.{put, put_new, put_anchor};
ghost use Rattle.working.specs.Part.{working, Part, held};
ghost use Rattle.working.specs.Turning.{Front, Looped};
ghost use Rattle.working.specs.Adding.{Adds, PutFront};

use crate::{Adjusting, Tip, lists};
use refusal::Refusal;

// A date put behind those that are there, with mark 0, and its adjusted date beside it.
fn put_front(
    back: bool,
    room: usize,
    tip: Tip,
    day: u32,
    front: u32,
    work: &mut [u32],
    paid: &mut [u32],
    marks: &mut [u8],
) -> Result<Tip, Refusal>
    ensures { Part room tip.n (working work.old marks.old) → length paid.old ≡ 4096 → PutFront back room tip front paid.old (put room day 0 (held back tip.n (working work.old marks.old))) result (working work.new marks.new) paid.new }
{
    let n = lists::put(back, tip.n, room, day, 0, work, marks)?;
    lists::pay(back, tip.n, front, paid);
    Ok(Tip {
        n,
        start: tip.start,
        front,
    })
}

// The newest date adjusted: `front`, or a search where that is not known yet.
fn front_of(front: u32, newest: u32, adjusting: Adjusting, closed: &[u32]) -> Result<u32, Refusal>
    ensures { closed_ok closed.now ≡ true → Front adjusting.mask closed.now adjusting.convention front newest → answered result ≡ adjusted adjusting.mask closed.now adjusting.convention newest }
{
    if front == 0 {
        return adjusting.adjusted(newest, closed);
    }
    Ok(front)
}

// The day is put with mark 0 and its adjusted date beside it, unless it adjusts to the same day as the newest date. It has nine
// parameters, as `put_anchor`: a struct that held the lent lists would want a clause on each one's name in every function, which is no
// plainer.
pub fn put_new(
    back: bool,
    room: usize,
    tip: Tip,
    day: u32,
    adjusting: Adjusting,
    closed: &[u32],
    work: &mut [u32],
    paid: &mut [u32],
    marks: &mut [u8],
) -> Result<Tip, Refusal>
    ensures { Adds (Looped adjusting.mask closed.now adjusting.convention back room) back (put_new adjusting.mask closed.now adjusting.convention room day day 0) tip (working work.old marks.old) paid.old result (working work.new marks.new) paid.new }
{
    let newest = lists::newest(back, tip.n, work);
    let a = front_of(tip.front, newest, adjusting, closed)?;
    let b = adjusting.adjusted(day, closed)?;
    if a == b {
        return Ok(Tip { front: a, ..tip });
    }
    put_front(back, room, tip, day, b, work, paid, marks)
}

// The anchor at which the loop ended, where there is one.
pub fn put_anchor(
    back: bool,
    room: usize,
    tip: Tip,
    anchor: u32,
    adjusting: Adjusting,
    closed: &[u32],
    work: &mut [u32],
    paid: &mut [u32],
    marks: &mut [u8],
) -> Result<Tip, Refusal>
    ensures { Adds (Looped adjusting.mask closed.now adjusting.convention back room) back (put_anchor adjusting.mask closed.now adjusting.convention room anchor) tip (working work.old marks.old) paid.old result (working work.new marks.new) paid.new }
{
    if anchor == 0 {
        return Ok(tip);
    }
    put_new(
        back, room, tip, anchor, adjusting, closed, work, paid, marks,
    )
}
