// The dates after generating: third Wednesdays, then the paid dates of the first, the last and the middle ones.
ghost use Rattle.std.specs.Prelude.{◌≡◌, true, ◌+◌, ◌-◌, ◌≤◌, min, max, length};
ghost use Rattle.calendar.specs.Open.{closed_ok};
ghost use Rattle.calendar.specs.Adjust.{adjusted};
ghost use Rattle.steps.specs.Finish.{moved, on_last, on_middle, first_move, wednesdays, adjustments};
ghost use Rattle.steps.specs.Entries.{pairs_of};
ghost use Rattle.steps.specs.Inner.Sure.{Surely};
ghost use Rattle.finish.specs.Moving.{done, pairs};
ghost use Rattle.finish.specs.Paying.{pay_between, PaidAlready, Narrowed, FirstPaid, LastPaid, LastKnown, LastKept, still_paid, pay_last, pay_middle};

use crate::{Made, Paid, moving};
use calendar::{Convention, search};
use refusal::Refusal;
use steps::{Move, Request, Rule, Sure, moves, rules, seeds};

// All but the first and the last.
fn move_middle(dates: &mut [u32], what: Move, mask: u8, closed: &[u32]) -> Result<(), Refusal>
    ensures { closed_ok closed.now ≡ true → done result dates.new ≡ on_middle (moved mask closed.now what) dates.old }
{
    let n = dates.len();
    if n < 2 {
        return Ok(());
    }
    moving::move_between(dates, 1, n - 1, what, mask, closed)
}

fn move_last(dates: &mut [u32], what: Move, mask: u8, closed: &[u32]) -> Result<(), Refusal>
    requires { 1 ≤ length dates.old }
    ensures { closed_ok closed.now ≡ true → done result dates.new ≡ on_last (moved mask closed.now what) dates.old }
{
    let n = dates.len();
    moving::move_between(dates, n - 1, n, what, mask, closed)
}

fn third_wednesdays(rule: Rule, mask: u8, closed: &[u32], dates: &mut [u32]) -> Result<(), Refusal>
    ensures { closed_ok closed.now ≡ true → done result dates.new ≡ wednesdays rule mask closed.now dates.old }
{
    match rule {
        Rule::ThirdWednesday => move_middle(dates, Move::ThirdWednesdays, mask, closed),
        Rule::ThirdWednesdayInclusive => moving::move_all(
            dates,
            Move::ThirdWednesdays,
            mask,
            closed,
        ),
        _ => Ok(()),
    }
}

// Under a rule that moved the dates to third Wednesdays none is paid yet.
fn still_paid(rule: Rule, known: Paid) -> Paid
    ensures { result ≡ still_paid rule known }
{
    match rule {
        Rule::ThirdWednesday => Paid { from: 0, to: 0 },
        Rule::ThirdWednesdayInclusive => Paid { from: 0, to: 0 },
        _ => known,
    }
}

// Where the middle dates of n end.
fn middle_end(n: usize) -> usize
    ensures { result ≡ 1 + (n - 2) }
{
    if n < 2 { 1 } else { n - 1 }
}

// The paid ones among the middle dates of n; where there are none, an empty part behind them all.
fn narrow(known: Paid, n: usize) -> Paid
    ensures { Narrowed n known result }
{
    let last = middle_end(n);
    let from = known.from.max(1);
    let to = known.to.min(last);
    if from < to {
        return Paid { from, to };
    }
    Paid {
        from: last,
        to: last,
    }
}

// The middle dates that are not paid yet.
fn pay_unpaid(
    work: &[u32],
    paid: &mut [u32],
    known: Paid,
    what: Move,
    mask: u8,
    closed: &[u32],
) -> Result<(), Refusal>
    requires in_bounds { (1 ≤ length work.now) × (length work.now ≡ length paid.old) }
    requires le_from { (1 ≤ known.from) × (known.from ≤ known.to) × (known.to ≤ 1 + (length work.now - 2)) }
    ensures { closed_ok closed.now ≡ true → PaidAlready (moved mask closed.now what) known.from known.to work.now paid.old → done result paid.new ≡ pay_between (moved mask closed.now what) 1 (1 + (length work.now - 2)) work.now paid.old }
{
    let end = middle_end(work.len());
    moving::pay_some(work, paid, 1, known.from, what, mask, closed)?;
    moving::pay_some(work, paid, known.to, end, what, mask, closed)
}

fn pay_middle(
    q: &Request,
    closed: &[u32],
    seed: u32,
    known: Paid,
    work: &[u32],
    paid: &mut [u32],
) -> Result<(), Refusal>
    requires in_bounds { (1 ≤ length work.now) × (length work.now ≡ length paid.old) }
    requires le_from { (1 ≤ known.from) × (known.from ≤ known.to) × (known.to ≤ 1 + (length work.now - 2)) }
    ensures { closed_ok closed.now ≡ true → PaidAlready (adjusted q.now.mask closed.now q.now.convention) known.from known.to work.now paid.old → done result paid.new ≡ pay_middle q.now closed.now seed work.now paid.old }
{
    let convention = q.convention;
    let at_end = seeds::seed_at_end(q.monthend, seed, q.mask, closed)?;
    if at_end {
        let what = moves::middle_move(true, convention);
        return moving::pay_between(work, paid, 1, middle_end(work.len()), what, q.mask, closed);
    }
    let way = search::convention_on(convention, q.mask, closed);
    pay_unpaid(
        work,
        paid,
        known,
        moves::middle_move(false, way),
        q.mask,
        closed,
    )
}

// Whether the last of n dates, if it is moved so, stands among those that are paid by the convention.
fn is_last_paid(convention: Convention, what: Move, known: Paid, n: usize) -> bool
    ensures { result ≡ true → LastPaid convention what known n }
{
    match what {
        Move::Adjust(terminal) => {
            if n <= known.from {
                return false;
            }
            if known.to < n {
                return false;
            }
            moves::is_same(terminal, convention)
        }
        _ => false,
    }
}

// Whether a last date on the day, if it is moved so, is known to adjust.
fn is_last_known(what: Move, last: Sure, day: u32) -> bool
    ensures { result ≡ true → LastKnown what last day }
{
    match what {
        Move::Adjust(_) => last.paid != 0 && last.day == day,
        _ => false,
    }
}

// The last date, unless it is paid; where there is one date alone, what the first adjustment made of it.
fn pay_last(
    q: &Request,
    closed: &[u32],
    known: Paid,
    last: Sure,
    work: &[u32],
    paid: &mut [u32],
) -> Result<(), Refusal>
    requires { (1 ≤ length work.now) × (length work.now ≡ length paid.old) }
    ensures { closed_ok closed.now ≡ true → LastKept (adjusted q.now.mask closed.now q.now.convention) known work.now paid.old → Surely (adjusted q.now.mask closed.now q.now.terminal) last → done result paid.new ≡ pay_last q.now closed.now work.now paid.old }
{
    let n = work.len();
    let what = moves::last_move(*q);
    if n == 1 {
        return move_last(paid, what, q.mask, closed);
    }
    let convention = q.convention;
    if is_last_paid(convention, what, known, n) {
        return Ok(());
    }
    if is_last_known(what, last, work[n - 1]) {
        paid[n - 1] = last.paid;
        return Ok(());
    }
    moving::pay_at(work, paid, n - 1, what, q.mask, closed)
}

// Whether a first date that is moved so stands among the paid ones.
fn is_first_paid(what: Move, known: Paid) -> bool
    ensures { result ≡ true → FirstPaid what known }
{
    match what {
        Move::Adjust(_) => known.from == 0 && 0 < known.to,
        _ => false,
    }
}

// The first date, unless it is paid.
fn pay_first(
    q: &Request,
    closed: &[u32],
    known: Paid,
    work: &[u32],
    paid: &mut [u32],
) -> Result<(), Refusal>
    requires { (1 ≤ length work.now) × (length work.now ≡ length paid.old) }
    ensures { closed_ok closed.now ≡ true → PaidAlready (adjusted q.now.mask closed.now q.now.convention) known.from known.to work.now paid.old → done result paid.new ≡ pay_between (moved q.now.mask closed.now (first_move q.now)) 0 1 work.now paid.old }
{
    let what = moves::first_move(*q);
    if is_first_paid(what, known) {
        return Ok(());
    }
    moving::pay_at(work, paid, 0, what, q.mask, closed)
}

// The paid dates of what was generated. Those that are known stay.
fn pay_dates(
    q: &Request,
    closed: &[u32],
    seed: u32,
    known: Paid,
    last: Sure,
    work: &[u32],
    paid: &mut [u32],
) -> Result<(), Refusal>
    requires { (1 ≤ length work.now) × (length work.now ≡ length paid.old) }
    ensures { closed_ok closed.now ≡ true → PaidAlready (adjusted q.now.mask closed.now q.now.convention) known.from known.to work.now paid.old → Surely (adjusted q.now.mask closed.now q.now.terminal) last → done result paid.new ≡ adjustments q.now closed.now seed work.now }
{
    let among = narrow(known, work.len());
    pay_first(q, closed, known, work, paid)?;
    pay_last(q, closed, known, last, work, paid)?;
    pay_middle(q, closed, seed, among, work, paid)
}

// The two dates of each entry: third Wednesdays in the list of the dates, the paid dates beside them.
pub(crate) fn pair_dates(
    q: &Request,
    closed: &[u32],
    made: Made,
    work: &mut [u32],
    paid: &mut [u32],
) -> Result<(), Refusal>
    requires { (1 ≤ length work.old) × (length work.old ≡ length paid.old) }
    ensures { closed_ok closed.now ≡ true → PaidAlready (adjusted q.now.mask closed.now q.now.convention) made.paid.from made.paid.to work.old paid.old → Surely (adjusted q.now.mask closed.now q.now.terminal) made.last → done result (pairs work.new paid.new) ≡ pairs_of q.now closed.now made.seed work.old }
{
    let rule = rules::rule_in_force(*q);
    third_wednesdays(rule, q.mask, closed, work)?;
    let known = still_paid(rule, made.paid);
    pay_dates(q, closed, made.seed, known, made.last, work, paid)
}
