// Payment schedules, built in three working lists of 4,096 places.
#![tactic(auto)]

ghost use Rattle.std.specs.Prelude.{◌≡◌, true, not, ◌+◌, ◌-◌, ◌≤◌, eqb, length, take, drop};
ghost use Rattle.refusal.specs.Answer.{answered, number, then, UNEVEN};
ghost use Rattle.calendar.specs.Open.{closed_ok};
ghost use Rattle.steps.specs.Table.{number_or, first_row, input_rows};
ghost use Rattle.steps.specs.Entries.{Written, pairs_of, merged_entries, entry_steps, entries_of};
ghost use Rattle.working.specs.Part.{working, Part};
ghost use Rattle.working.specs.Making.{Checked, Laid};

use finish::{Made, Paid};
use refusal::Refusal;
use steps::{Built, Request};
use working::Piece;

// The dates of a build, by its rule.
mod generating;

// The last steps, on the n dates from a place on and the flags between them. It has nine parameters, as the calls above it: `build_in`,
// which docs/ name, is lent the lists one by one.
fn finish_part(
    q: Request,
    closed: &[u32],
    piece: Piece,
    work: &mut [u32],
    paid: &mut [u32],
    marks: &mut [u8],
    dates: &mut [u32],
    flags: &mut [u8],
    unadjusted: &mut [u32],
) -> Built
    requires closed_value { (closed_ok closed.now ≡ true) × (length work.old ≡ 4096) × (length marks.old ≡ 4096) }
    requires laid { Laid q closed.now (length dates.old) (working work.old marks.old) paid.old piece }
    requires dates_len { (length dates.old ≡ length flags.old) × (length dates.old ≡ length unadjusted.old) }
    ensures { Written q (then (pairs_of q closed.now piece.seed (take piece.n (drop piece.from work.old))) (merged_entries (take (piece.n - 1) (drop piece.marked marks.old)) piece.tries)) result dates.old flags.old unadjusted.old dates.new flags.new unadjusted.new }
{
    let from = piece.from;
    let end = from + piece.n;
    let marked = piece.marked;
    let last = marked + (piece.n - 1);
    let sure = piece.last;
    let made = Made {
        seed: piece.seed,
        tries: piece.tries,
        paid: Paid {
            from: piece.known,
            to: piece.beyond,
        },
        last: sure,
    };
    finish::complete(
        q,
        closed,
        made,
        &mut work[from..end],
        &mut paid[from..end],
        &mut marks[marked..last],
        dates,
        flags,
        unadjusted,
    )
}

// The steps of a request that has passed the checks, in working lists that hold anything.
fn run(
    q: Request,
    closed: &[u32],
    work: &mut [u32; 4096],
    paid: &mut [u32; 4096],
    marks: &mut [u8; 4096],
    dates: &mut [u32],
    flags: &mut [u8],
    unadjusted: &mut [u32],
) -> Built
    requires checked { Checked q closed.now }
    requires dates_len { (length dates.old ≡ length flags.old) × (length dates.old ≡ length unadjusted.old) }
    ensures { Written q (entry_steps q closed.now (length dates.old)) result dates.old flags.old unadjusted.old dates.new flags.new unadjusted.new }
{
    let q = &q;
    let room = dates.len().min(4096);
    match generating::generate(q, closed, room, work, paid, marks) {
        Ok(piece) => {
            finish_part(
                *q, closed, piece, work, paid, marks, dates, flags, unadjusted,
            )
        }
        Err(refusal) => steps::refused(refusal.number()),
    }
}

// The first refusal that the input meets, with lists of these lengths lent.
fn check_input(
    q: Request,
    closed: &[u32],
    dates: usize,
    flags: usize,
    unadjusted: usize,
) -> Result<(), Refusal>
    ensures { number (answered result) ≡ number_or (not (eqb dates unadjusted)) UNEVEN (first_row (input_rows q closed.now dates flags)) }
{
    if dates != unadjusted {
        return Err(Refusal::Uneven);
    }
    checks::check(q, closed, dates, flags)
}

// Builds a schedule: the paid dates into the start of one lent list, the flags of the periods between them (1 regular) into the start
// of another, the dates before adjustment into the start of the third. A refusal leaves all three as they were.
pub fn build(
    q: Request,
    closed: &[u32],
    dates: &mut [u32],
    flags: &mut [u8],
    unadjusted: &mut [u32],
) -> Built
    ensures { Written q (entries_of q closed.now (length dates.old) (length flags.old) (length unadjusted.old)) result dates.old flags.old unadjusted.old dates.new flags.new unadjusted.new }
{
    let q = &q;
    if let Err(refusal) = check_input(*q, closed, dates.len(), flags.len(), unadjusted.len()) {
        return steps::refused(refusal.number());
    }
    let mut work = [0u32; 4096];
    let mut paid = [0u32; 4096];
    let mut marks = [0u8; 4096];
    run(
        *q, closed, &mut work, &mut paid, &mut marks, dates, flags, unadjusted,
    )
}

// The same in three working lists that the caller lends, whatever they hold: for who builds many schedules. `build` is not this on lists
// of its own, since a refused request then cleared 36,864 bytes for nothing.
pub fn build_in(
    q: Request,
    closed: &[u32],
    work: &mut [u32; 4096],
    paid: &mut [u32; 4096],
    marks: &mut [u8; 4096],
    dates: &mut [u32],
    flags: &mut [u8],
    unadjusted: &mut [u32],
) -> Built
    ensures { Written q (entries_of q closed.now (length dates.old) (length flags.old) (length unadjusted.old)) result dates.old flags.old unadjusted.old dates.new flags.new unadjusted.new }
{
    let q = &q;
    if let Err(refusal) = check_input(*q, closed, dates.len(), flags.len(), unadjusted.len()) {
        return steps::refused(refusal.number());
    }
    run(*q, closed, work, paid, marks, dates, flags, unadjusted)
}
