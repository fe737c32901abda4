// Twentieths of months, for days from 1800 to 2399.
#![tactic(auto, unfolding(crate::specs::Twentieths::twentieth_of, crate::specs::Twentieths::moved_if, crate::specs::Twentieths::skip_of, crate::specs::Twentieths::to_imm_month, crate::specs::Twentieths::next_twentieth, crate::specs::Twentieths::previous_twentieth, date::specs::Date::shifted, refusal::specs::Answer::then))]

ghost use Rattle.std.specs.Prelude.{◌≡◌};
ghost use Rattle.steps.specs.Twentieths.{twentieth_of, moved_if, skip_of, to_imm_month, next_twentieth, previous_twentieth};
ghost use Rattle.date.specs.Date.{dated};

use crate::{Rule, rules};
use date::{Date, civil, span};
use period::Unit;
use refusal::Refusal;

fn twentieth_of(day: u32) -> Result<Date, Refusal>
    ensures { dated result ≡ twentieth_of day }
{
    let f = civil::fields_of(day);
    Date::make(f.year, f.month, 20)
}

fn moved_if(moves: bool, back: bool, months: u32, day: u32) -> Result<Date, Refusal>
    ensures { dated result ≡ moved_if moves back months day }
{
    if moves {
        return span::shift_by(day, back, months, Unit::Months);
    }
    Ok(Date { day })
}

// How many months a month lies after the last IMM month, or before the next.
fn skip_of(back: bool, month: u32) -> u32
    ensures { result ≡ skip_of back month }
{
    if back {
        return month % 3;
    }
    (3 - month % 3) % 3
}

fn to_imm_month(rule: Rule, back: bool, day: u32) -> Result<Date, Refusal>
    ensures { dated result ≡ to_imm_month rule back day }
{
    let f = civil::fields_of(day);
    moved_if(
        rules::in_imm_months(rule),
        back,
        skip_of(back, f.month),
        day,
    )
}

// The first twentieth on or after the day.
pub fn next(day: u32, rule: Rule) -> Result<Date, Refusal>
    ensures { dated result ≡ next_twentieth rule day }
{
    let twentieth = twentieth_of(day)?;
    let coming = moved_if(twentieth.day < day, false, 1, twentieth.day)?;
    to_imm_month(rule, false, coming.day)
}

// The last twentieth on or before the day.
pub fn previous(day: u32, rule: Rule) -> Result<Date, Refusal>
    ensures { dated result ≡ previous_twentieth rule day }
{
    let twentieth = twentieth_of(day)?;
    let former = moved_if(day < twentieth.day, true, 1, twentieth.day)?;
    to_imm_month(rule, true, former.day)
}
