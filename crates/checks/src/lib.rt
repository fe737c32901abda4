// The input checks of a build: the rows 1 to 12 of document 01's table, in its order, and 27 behind them.
#![tactic(auto, unfolding(steps::specs::Table::number_or, steps::specs::Table::anchor_ok, steps::specs::Table::dates_ok, steps::specs::Table::first_outside, steps::specs::Table::last_outside, steps::specs::Table::monthend_allowed, steps::specs::Table::short_end, steps::specs::Table::first_rows, steps::specs::Table::last_rows, steps::specs::Rules::one_of, steps::specs::Rules::rule_number, refusal::specs::Answer::number))]

ghost use Rattle.std.specs.Prelude.{◌≡◌, not, false, ◌&&◌};
ghost use Rattle.refusal.specs.Answer.{answered, number};
ghost use Rattle.refusal.specs.Refusals.{number_of};
ghost use Rattle.steps.specs.Table.{number_or, first_row, anchor_ok, dates_ok, first_outside, last_outside, monthend_allowed, short_end, anchor_rows, first_rows, last_rows, rows_under, input_rows};

use date::in_book;
use refusal::Refusal;
use steps::{Request, Rule, rules};

// The lengths of tenors.
mod tenors;

// An anchor is absent, or lies in the book.
fn anchor_ok(anchor: u32) -> bool
    ensures { result ≡ anchor_ok anchor }
{
    anchor == 0 || in_book(anchor)
}

fn dates_ok(q: &Request) -> bool
    ensures { result ≡ dates_ok q.now }
{
    in_book(q.effective.day)
        && in_book(q.termination.day)
        && anchor_ok(q.first.day)
        && anchor_ok(q.penultimate.day)
}

fn first_outside(q: &Request) -> bool
    ensures { result ≡ first_outside q.now }
{
    q.first.day <= q.effective.day || q.termination.day < q.first.day
}

fn last_outside(q: &Request) -> bool
    ensures { result ≡ last_outside q.now }
{
    q.penultimate.day <= q.effective.day || q.termination.day <= q.penultimate.day
}

fn allows_month_end(rule: Rule) -> bool
    ensures { result ≡ monthend_allowed rule }
{
    matches!(rule, Rule::Zero | Rule::Backward | Rule::Forward)
}

// End of month is on, and the rule has none.
fn denies_month_end(q: &Request, rule: Rule) -> bool
    ensures { result ≡ (q.now.monthend && not (monthend_allowed rule)) }
{
    q.monthend && !allows_month_end(rule)
}

// End of month is on, with a tenor that counts days.
fn is_short_end(q: &Request, rule: Rule) -> bool
    ensures { result ≡ short_end q.now rule }
{
    q.monthend
        && tenors::is_positive(q.tenor)
        && tenors::is_in_days(q.tenor.unit)
        && !rules::is_zero(rule)
}

fn refuse_if(holds: bool, refusal: Refusal) -> Result<(), Refusal>
    ensures { number (answered result) ≡ number_or holds (number_of refusal) 0 }
{
    if holds { Err(refusal) } else { Ok(()) }
}

// The rows of one anchor: out of range, not an IMM date, wrong rule.
fn check_anchor(
    rule: Rule,
    anchor: u32,
    outside: bool,
    range: Refusal,
    not_imm: Refusal,
    wrong: Refusal,
) -> Result<(), Refusal>
    ensures { number (answered result) ≡ first_row (anchor_rows rule anchor outside (number_of range) (number_of not_imm) (number_of wrong)) }
{
    if anchor == 0 {
        return Ok(());
    }
    match rule {
        Rule::Backward | Rule::Forward => refuse_if(outside, range),
        Rule::ThirdWednesday => refuse_if(!imm::is_imm_day(anchor, false), not_imm),
        _ => Err(wrong),
    }
}

fn check_first(q: &Request, rule: Rule) -> Result<(), Refusal>
    ensures { number (answered result) ≡ first_row (first_rows q.now rule) }
{
    check_anchor(
        rule,
        q.first.day,
        first_outside(q),
        Refusal::FirstDate,
        Refusal::FirstNotImm,
        Refusal::FirstWrongRule,
    )
}

fn check_last(q: &Request, rule: Rule) -> Result<(), Refusal>
    ensures { number (answered result) ≡ first_row (last_rows q.now rule) }
{
    check_anchor(
        rule,
        q.penultimate.day,
        last_outside(q),
        Refusal::LastDate,
        Refusal::LastNotImm,
        Refusal::LastWrongRule,
    )
}

// The rows that read the rule in force, 6 to 12 and 27.
fn check_under(q: &Request, rule: Rule) -> Result<(), Refusal>
    ensures { number (answered result) ≡ first_row (rows_under q.now rule) }
{
    check_first(q, rule)?;
    check_last(q, rule)?;
    if denies_month_end(q, rule) {
        return Err(Refusal::MonthEnd);
    }
    if is_short_end(q, rule) {
        return Err(Refusal::ShortEnd);
    }
    Ok(())
}

// The first row that holds refuses: `dates` and `flags` are the lengths of the lent lists.
pub fn check(q: Request, closed: &[u32], dates: usize, flags: usize) -> Result<(), Refusal>
    ensures { number (answered result) ≡ first_row (input_rows q closed.now dates flags) }
{
    let q = &q;
    if dates != flags {
        return Err(Refusal::Uneven);
    }
    if !dates_ok(q) {
        return Err(Refusal::Book);
    }
    calendar::check(q.mask, closed)?;
    if tenors::is_negative(q.tenor) {
        return Err(Refusal::Negative);
    }
    if !tenors::is_short(q.tenor) {
        return Err(Refusal::Tenor);
    }
    check_under(q, rules::rule_in_force(*q))
}

// The number of the first row that holds, or 0: `check` for who wants the number, as docs/LAW.md names it.
pub fn input_refusal(q: Request, closed: &[u32], dates: usize, flags: usize) -> u8
    ensures { result ≡ first_row (input_rows q closed.now dates flags) }
{
    match check(q, closed, dates, flags) {
        Ok(()) => 0,
        Err(refusal) => refusal.number(),
    }
}
