// Dates moved one after the other, in place or into another list. The first that can't be moved refuses.
ghost use Rattle.std.specs.Prelude.{◌≡◌, ℕ, true, ◌+◌, ◌≤◌, ◌<◌, length};
ghost use Rattle.refusal.specs.Answer.{Answer};
ghost use Rattle.calendar.specs.Open.{closed_ok};
ghost use Rattle.steps.specs.Finish.{moved, each, between};
ghost use Rattle.finish.specs.Moving.{done, MovesAs};
ghost use Rattle.finish.specs.Paying.{pay_between};
ghost use Rattle.date.specs.Date.{dated};

use calendar::moves::date_of;
use calendar::search;
use date::Date;
use refusal::Refusal;
use steps::{Move, moves};

// A third Wednesday is asked for by itself, so that the compiler expands it in the loop, as it does not expand all that a date may become; so is
// an adjustment, which most single dates want.
fn moved(day: u32, what: Move, mask: u8, closed: &[u32]) -> Result<Date, Refusal>
    ensures { closed_ok closed.now ≡ true → dated result ≡ moved mask closed.now what day }
{
    match what {
        Move::ThirdWednesdays => moves::third_wednesday(day),
        Move::Adjust(convention) => date_of(search::adjust(day, convention, mask, closed)),
        _ => moves::moved(day, what, mask, closed),
    }
}

pub(crate) fn move_all(s: &mut [u32], what: Move, mask: u8, closed: &[u32]) -> Result<(), Refusal>
    ensures { closed_ok closed.now ≡ true → done result s.new ≡ each (moved mask closed.now what) s.old }
{
    for i in 0..s.len() {
        s[i] = moved(s[i], what, mask, closed)?.day;
    }
    Ok(())
}

// The dates from place a up to place b.
pub(crate) fn move_between(
    s: &mut [u32],
    a: usize,
    b: usize,
    what: Move,
    mask: u8,
    closed: &[u32],
) -> Result<(), Refusal>
    requires { (a ≤ b) × (b ≤ length s.old) }
    ensures { closed_ok closed.now ≡ true → done result s.new ≡ between (moved mask closed.now what) a b s.old }
{
    move_all(&mut s[a..b], what, mask, closed)
}

// What becomes of each date of one list, put into another.
fn pay_each<F: Fn(u32) -> Result<Date, Refusal>>(
    work: &[u32],
    paid: &mut [u32],
    to: F,
) -> Result<(), Refusal>
    requires even { length work.now ≡ length paid.old }
    requires calls { F.IsAlwaysCallable to }
    ensures { (f : ℕ → Answer ℕ) → MovesAs (F.post to) f work.now → done result paid.new ≡ each f work.now }
{
    for (i, day) in work.iter().enumerate() {
        paid[i] = to(*day)?.day;
    }
    Ok(())
}

// The dates of one list moved into another. An adjustment, which becomes of most dates, is asked for by itself.
fn pay_part(
    work: &[u32],
    paid: &mut [u32],
    what: Move,
    mask: u8,
    closed: &[u32],
) -> Result<(), Refusal>
    requires { length work.now ≡ length paid.old }
    ensures { closed_ok closed.now ≡ true → done result paid.new ≡ each (moved mask closed.now what) work.now }
{
    match what {
        Move::Adjust(convention) => {
            pay_each(
                work,
                paid,
                |day| moved(day, Move::Adjust(convention), mask, closed),
            )
        }
        _ => pay_each(work, paid, |day| moves::moved(day, what, mask, closed)),
    }
}

// The dates from place a up to place b moved into the same places of another list.
pub(crate) fn pay_between(
    work: &[u32],
    paid: &mut [u32],
    a: usize,
    b: usize,
    what: Move,
    mask: u8,
    closed: &[u32],
) -> Result<(), Refusal>
    requires { (a ≤ b) × (b ≤ length work.now) × (length work.now ≡ length paid.old) }
    ensures { closed_ok closed.now ≡ true → done result paid.new ≡ pay_between (moved mask closed.now what) a b work.now paid.old }
{
    pay_part(&work[a..b], &mut paid[a..b], what, mask, closed)
}

// The same where there may be none, as mostly there is not: what to make of no date is not asked.
pub(crate) fn pay_some(
    work: &[u32],
    paid: &mut [u32],
    a: usize,
    b: usize,
    what: Move,
    mask: u8,
    closed: &[u32],
) -> Result<(), Refusal>
    requires { (a ≤ b) × (b ≤ length work.now) × (length work.now ≡ length paid.old) }
    ensures { closed_ok closed.now ≡ true → done result paid.new ≡ pay_between (moved mask closed.now what) a b work.now paid.old }
{
    if a == b {
        return Ok(());
    }
    pay_between(work, paid, a, b, what, mask, closed)
}

// One date, moved into the same place of another list.
pub(crate) fn pay_at(
    work: &[u32],
    paid: &mut [u32],
    at: usize,
    what: Move,
    mask: u8,
    closed: &[u32],
) -> Result<(), Refusal>
    requires { (at < length work.now) × (length work.now ≡ length paid.old) }
    ensures { closed_ok closed.now ≡ true → done result paid.new ≡ pay_between (moved mask closed.now what) at (at + 1) work.now paid.old }
{
    paid[at] = moved(work[at], what, mask, closed)?.day;
    Ok(())
}
