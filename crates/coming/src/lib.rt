// The coming date of a trade without its list: the first date of its schedule after an asked day.
#![tactic(auto)]

ghost use Rattle.std.specs.Prelude.{◌≡◌, nat_abs};
ghost use Rattle.refusal.specs.Answer.{answered, number};
ghost use Rattle.refusal.specs.Refusals.{number_of};
ghost use Rattle.date.specs.Civil.{pick_n};
ghost use Rattle.calendar.specs.Calendar.{tenor_ok};
ghost use Rattle.steps.specs.Table.{first_row};
ghost use Rattle.coming.specs.Coming.{is_direct, is_answered, asked_rows, on_or, flag_by, comes_between, coming_of, said, meant};
ghost use Rattle.coming.specs.Laws.Counted.{behind_of, ahead_of, Booked, SeedIn};
ghost use Rattle.coming.specs.Inner.Checked.{is_early, left_rows, Passed};
ghost use Rattle.date.specs.Date.{dated};

use date::{Date, civil, in_book};
use period::{Period, sign};
use refusal::Refusal;
use steps::{Pace, Request, Rule, Seed, rules};
use working::candidates;

// Whole tenors between a seed and a day.
mod counts;

// What is answered of an asked day.
#[derive(Clone, Copy)]
pub enum Coming {
    // The effective date, which ends no period.
    Effective(Date),
    // A date, and whether the period that it ends is regular.
    Ending { date: Date, regular: bool },
    // No later date.
    Nothing,
}

// Backward or Forward.
#[tactic(auto, unfolding(crate::specs::Coming::is_direct, steps::specs::Rules::rule_number))]
fn is_direct(rule: Rule) -> bool
    ensures { result ≡ is_direct rule }
{
    matches!(rule, Rule::Backward | Rule::Forward)
}

fn is_answered(q: &Request) -> bool
    ensures { result ≡ is_answered q.now }
{
    is_direct(q.rule) && plain::is_straight(*q)
}

// A row of a build's table that is one of the question's too.
#[tactic(auto, using(crate::proofs::Ways::early_number))]
fn is_early(refusal: Refusal) -> bool
    ensures { result ≡ is_early (number_of refusal) }
{
    refusal.number() <= Refusal::Tenor.number()
}

fn is_short(tenor: Period) -> bool
    ensures { result ≡ tenor_ok (nat_abs tenor.length) tenor.unit }
{
    let unit = tenor.unit;
    calendar::is_short(sign::size(tenor.length), unit)
}

// What is left of the rows for a request that is answered, and an asked day of the book.
#[tactic(auto, unfolding(crate::specs::Inner::Checked::left_rows, steps::specs::Table::first_row, steps::specs::Table::number_or, calendar::specs::Calendar::check_of, refusal::specs::Answer::need, refusal::specs::Answer::number))]
fn check_left(q: &Request, closed: &[u32]) -> Result<(), Refusal>
    ensures { number (answered result) ≡ first_row (left_rows q.now closed.now) }
{
    if !in_book(q.effective.day) || !in_book(q.termination.day) {
        return Err(Refusal::Book);
    }
    calendar::check(q.mask, closed)?;
    if is_short(q.tenor) {
        Ok(())
    } else {
        Err(Refusal::Tenor)
    }
}

// The first row that holds refuses. The rows 2 to 5 are those of a build whose lent lists have one length.
#[tactic(auto, using(crate::proofs::Ways::asked_tests), unfolding(refusal::specs::Answer::number))]
fn check(q: &Request, closed: &[u32], asked: u32) -> Result<(), Refusal>
    ensures { number (answered result) ≡ first_row (asked_rows q.now closed.now asked) }
{
    if !in_book(asked) {
        return Err(Refusal::Book);
    }
    if is_answered(q) {
        return check_left(q, closed);
    }
    match checks::check(*q, closed, 0, 0) {
        Err(refusal) if is_early(refusal) => Err(refusal),
        _ => Err(Refusal::NotPlain),
    }
}

// Regular if one tenor more keeps from the effective date on.
#[tactic(auto, unfolding(crate::specs::Coming::flag_by))]
fn is_regular(earlier: Result<Date, Refusal>, effective: u32) -> bool
    ensures { pick_n result 1 0 ≡ flag_by (dated earlier) effective }
{
    match earlier {
        Ok(d) => effective <= d.day,
        Err(_) => false,
    }
}

// From termination back: as many tenors as keep after the asked day.
fn behind(pace: Pace, seed: Seed, effective: u32, asked: u32) -> Coming
    requires { Booked seed asked }
    ensures { said result ≡ behind_of pace seed effective asked }
{
    let k = counts::tenors(true, pace, seed, asked + 1);
    let day = counts::day_or(candidates::candidate(true, pace, seed, k));
    let earlier = candidates::candidate(true, pace, seed, k + 1);
    Coming::Ending {
        date: Date { day },
        regular: is_regular(earlier, effective),
    }
}

// A tenor more, or termination where that passes it.
#[tactic(auto, unfolding(crate::specs::Coming::on_or, crate::specs::Coming::said))]
fn on_or(later: Result<Date, Refusal>, termination: u32) -> Coming
    ensures { said result ≡ on_or (dated later) termination }
{
    match later {
        Ok(d) if d.day <= termination => Coming::Ending {
            date: d,
            regular: true,
        },
        _ => Coming::Ending {
            date: Date { day: termination },
            regular: false,
        },
    }
}

// From effective on: one tenor more than keep to the asked day.
#[tactic(auto, using(crate::proofs::Ways::from_seed))]
fn ahead(pace: Pace, seed: Seed, termination: u32, asked: u32) -> Coming
    requires { Booked seed asked }
    ensures { said result ≡ ahead_of pace seed termination asked }
{
    let k = counts::tenors(false, pace, seed, asked);
    on_or(candidates::candidate(false, pace, seed, k + 1), termination)
}

// A seed for candidates by days or by months; those by days need no month.
#[tactic(auto, using(crate::proofs::Ways::seed_ways))]
fn seed_in(monthly: bool, day: u32) -> Seed
    ensures { SeedIn monthly day result }
{
    if monthly {
        let f = civil::fields_of(day);
        return Seed {
            day,
            month: counts::month_of(f),
            keep: f.day,
        };
    }
    Seed {
        day,
        month: 0,
        keep: 0,
    }
}

// From effective on and before termination.
fn between(q: &Request, asked: u32) -> Coming
    requires { Passed q.now asked }
    ensures { said result ≡ comes_between q.now asked }
{
    let pace = candidates::pace_of(q.tenor);
    if rules::is_backward(q.rule) {
        let seed = seed_in(pace.monthly, q.termination.day);
        return behind(pace, seed, q.effective.day, asked);
    }
    let seed = seed_in(pace.monthly, q.effective.day);
    ahead(pace, seed, q.termination.day, asked)
}

// The first date of the schedule after an asked day, with the flag of the period that it ends, for a request that is Backward or
// Forward and straight. No list is made, so that neither its length nor room matters.

pub fn after(q: Request, closed: &[u32], asked: Date) -> Result<Coming, Refusal>
    ensures { meant result ≡ coming_of q closed.now asked.day }
{
    let effective = q.effective.day;
    let termination = q.termination.day;
    check(&q, closed, asked.day)?;
    if asked.day < effective {
        return Ok(Coming::Effective(Date { day: effective }));
    }
    if termination <= asked.day {
        return Ok(Coming::Nothing);
    }
    Ok(between(&q, asked.day))
}
