// What becomes of a date after generating.
#![tactic(auto, unfolding(calendar::specs::Adjust::convention_number, crate::specs::Inner::Same::same_convention, crate::specs::Finish::third_wednesday, crate::specs::Finish::unless, crate::specs::Finish::first_move, crate::specs::Finish::last_move, crate::specs::Finish::month_end_move, crate::specs::Finish::middle_move))]

ghost use Rattle.std.specs.Prelude.{◌≡◌, true};
ghost use Rattle.calendar.specs.Open.{closed_ok};
ghost use Rattle.calendar.specs.Adjust.{convention_number};
ghost use Rattle.steps.specs.Inner.Same.{same_convention};
ghost use Rattle.steps.specs.Finish.{third_wednesday, moved, unless, first_move, last_move, month_end_move, middle_move};
ghost use Rattle.date.specs.Date.{dated};

use crate::{Move, Request, rules};
use calendar::{Convention, month_ends, moves, search};
use date::{Date, civil, span};
use refusal::Refusal;

// Document 01's number of a convention.
pub fn convention_number(convention: Convention) -> u8
    ensures { result ≡ convention_number convention }
{
    convention as u8
}

pub fn is_same(a: Convention, b: Convention) -> bool
    ensures { result ≡ same_convention a b }
{
    a == b
}

pub fn third_wednesday(day: u32) -> Result<Date, Refusal>
    ensures { dated result ≡ third_wednesday day }
{
    let f = civil::fields_of(day);
    Date::nth_weekday(3, 3, f.month, f.year)
}

pub fn moved(day: u32, what: Move, mask: u8, closed: &[u32]) -> Result<Date, Refusal>
    ensures { closed_ok closed.now ≡ true → dated result ≡ moved mask closed.now what day }
{
    match what {
        Move::Stay => Ok(Date { day }),
        Move::ThirdWednesdays => third_wednesday(day),
        Move::Adjust(convention) => moves::date_of(search::adjust(day, convention, mask, closed)),
        Move::MonthEnds => span::last_of_month(day),
        Move::OpenMonthEnds => moves::date_of(month_ends::last_open(day, mask, closed)),
    }
}

fn adjust_unless(stays: bool, convention: Convention) -> Move
    ensures { result ≡ unless stays convention }
{
    if stays {
        return Move::Stay;
    }
    Move::Adjust(convention)
}

// OldCDS never adjusts the first date.
pub fn first_move(q: Request) -> Move
    ensures { result ≡ first_move q }
{
    let convention = q.convention;
    adjust_unless(rules::is_old_cds(rules::rule_in_force(q)), convention)
}

// CDS and CDS2015 never adjust the last date.
pub fn last_move(q: Request) -> Move
    ensures { result ≡ last_move q }
{
    let convention = q.terminal;
    adjust_unless(rules::is_credit(rules::rule_in_force(q)), convention)
}

fn month_end_move(convention: Convention) -> Move
    ensures { result ≡ month_end_move convention }
{
    match convention {
        Convention::Unadjusted => Move::MonthEnds,
        _ => Move::OpenMonthEnds,
    }
}

// `end`: end of month is on and the seed is at month end.
pub fn middle_move(end: bool, convention: Convention) -> Move
    ensures { result ≡ middle_move end convention }
{
    if end {
        return month_end_move(convention);
    }
    Move::Adjust(convention)
}
