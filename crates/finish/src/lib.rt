// A build's last steps: third Wednesdays, adjustments, merges, and writing out.
#![tactic(auto)]

ghost use Rattle.std.specs.Prelude.{◌≡◌, true, ◌≤◌, ◌<◌, length};
ghost use Rattle.refusal.specs.Answer.{answered, number};
ghost use Rattle.calendar.specs.Open.{closed_ok};
ghost use Rattle.calendar.specs.Adjust.{adjusted};
ghost use Rattle.steps.specs.Entries.{Written};
ghost use Rattle.steps.specs.Inner.Sure.{Surely};
ghost use Rattle.finish.specs.Finishing.{accepted_built, built_or_refused, Lent, lent_refusal, completed};
ghost use Rattle.finish.specs.Ends.{CopiedOut};
ghost use Rattle.finish.specs.Paying.{PaidAlready};

use crate::merges::Part;
use refusal::Refusal;
use steps::{Built, Request, Sure, refused, rules};

// Dates moved in place, or into another list.
mod moving;
// Third Wednesdays, and the paid dates of the first, the last and the middle dates.
mod adjusting;
// The merges at the end and at the front.
mod merges;
// Copying out.
mod copies;

// Which of the dates are paid already: those from a place up to another.
#[derive(Clone, Copy)]
pub struct Paid {
    pub from: usize,
    pub to: usize,
}

// What is known of the generated dates: the seed, the tries, which of them are paid, and what a day adjusts to by the convention of
// the last date.
#[derive(Clone, Copy)]
pub struct Made {
    pub seed: u32,
    pub tries: u32,
    pub paid: Paid,
    pub last: Sure,
}

fn accepted(q: &Request, count: u32, tries: u32, moved: u32) -> Built
    ensures { result ≡ accepted_built q.now count tries moved }
{
    Built {
        number: 0,
        count,
        tries,
        rule: rules::rule_in_force(*q),
        tenor: rules::tenor_in_force(*q),
        moved,
    }
}

// The schedule written out: the paid dates from a place up to another, the flags between them, and the dates as generated. Answered is
// how far apart the two dates of an entry are at most.
#[tactic(auto, unfolding(steps::specs::Build::over))]
fn copy_out(
    from: usize,
    to: usize,
    work: &[u32],
    paid: &[u32],
    marks: &[u8],
    dates: &mut [u32],
    flags: &mut [u8],
    unadjusted: &mut [u32],
) -> u32
    requires lent { Lent work.now paid.now marks.now dates.old flags.old unadjusted.old }
    requires from_lt_to { (from < to) × (to ≤ length work.now) }
    ensures { CopiedOut from to result work.now paid.now marks.now dates.old flags.old unadjusted.old dates.new flags.new unadjusted.new }
{
    let last = to - 1;
    copies::copy_over(&paid[from..to], dates);
    copies::copy_over(&marks[from..last], flags);
    copies::copy_over(&work[from..to], unadjusted);
    copies::farthest(&paid[from..to], &work[from..to])
}

// 1 where the lists do not belong together, 14 where the dates do not fit.
fn lent_refusal(
    work: usize,
    paid: usize,
    marks: usize,
    dates: usize,
    flags: usize,
    unadjusted: usize,
) -> Result<(), Refusal>
    ensures { number (answered result) ≡ lent_refusal work paid marks dates flags unadjusted }
{
    if dates != flags {
        return Err(Refusal::Uneven);
    }
    if dates != unadjusted {
        return Err(Refusal::Uneven);
    }
    if work != paid {
        return Err(Refusal::Uneven);
    }
    if work == 0 {
        return Err(Refusal::Uneven);
    }
    if work - 1 != marks {
        return Err(Refusal::Uneven);
    }
    if 4096 < work {
        return Err(Refusal::Room);
    }
    if dates < work {
        return Err(Refusal::Room);
    }
    Ok(())
}

// The last steps, up to a refusal.
fn finish_dates(
    q: &Request,
    closed: &[u32],
    made: Made,
    work: &mut [u32],
    paid: &mut [u32],
    marks: &mut [u8],
    dates: &mut [u32],
    flags: &mut [u8],
    unadjusted: &mut [u32],
) -> Result<Built, Refusal>
    ensures { closed_ok closed.now ≡ true → PaidAlready (adjusted q.now.mask closed.now q.now.convention) made.paid.from made.paid.to work.old paid.old → Surely (adjusted q.now.mask closed.now q.now.terminal) made.last → Written q.now (completed q.now closed.now made.seed made.tries work.old marks.old (length paid.old) (length dates.old) (length flags.old) (length unadjusted.old)) (built_or_refused result) dates.old flags.old unadjusted.old dates.new flags.new unadjusted.new }
{
    lent_refusal(
        work.len(),
        paid.len(),
        marks.len(),
        dates.len(),
        flags.len(),
        unadjusted.len(),
    )?;
    adjusting::pair_dates(q, closed, made, work, paid)?;
    let Part { from, to } = merges::merge(paid, marks)?;
    merges::follow(work, from, to);
    let moved = copy_out(from, to, work, paid, marks, dates, flags, unadjusted);
    let count = to - from;
    Ok(accepted(q, count as u32, made.tries, moved))
}

// From the generated dates, `work`, those of them that are paid, and the flags between them, `marks`, to what is answered and written
// out. It has nine parameters: each list is a part that is cut for this call alone, and a struct of them would be made for it and taken
// apart in it.
pub fn complete(
    q: Request,
    closed: &[u32],
    made: Made,
    work: &mut [u32],
    paid: &mut [u32],
    marks: &mut [u8],
    dates: &mut [u32],
    flags: &mut [u8],
    unadjusted: &mut [u32],
) -> Built
    ensures { closed_ok closed.now ≡ true → PaidAlready (adjusted q.mask closed.now q.convention) made.paid.from made.paid.to work.old paid.old → Surely (adjusted q.mask closed.now q.terminal) made.last → Written q (completed q closed.now made.seed made.tries work.old marks.old (length paid.old) (length dates.old) (length flags.old) (length unadjusted.old)) result dates.old flags.old unadjusted.old dates.new flags.new unadjusted.new }
{
    match finish_dates(
        &q, closed, made, work, paid, marks, dates, flags, unadjusted,
    ) {
        Ok(built) => built,
        Err(refusal) => refused(refusal.number()),
    }
}
