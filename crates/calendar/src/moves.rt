// How far a date moved: what an adjustment answers, made from the date that a search found.
ghost use Rattle.std.specs.Prelude.{◌≡◌, ◌≤◌};
ghost use Rattle.std.proofs.Math.IntN.{sub_ℕ};
ghost use Rattle.refusal.specs.Answer.{given};
ghost use Rattle.date.specs.Date.{dated_by, SPAN_LAST, within_span};
ghost use Rattle.calendar.specs.Moves.{moved, moved_by, moved_from, date_of};
ghost use Rattle.calendar.specs.Inner.Reach.{UpTo};

use crate::Moved;
use date::{Date, span};
use refusal::{Refusal, Refuses};

// How many days a day lies after a base. Days after 2399 are never asked for.
fn days_from(base: u32, day: u32) -> i32
    ensures { base ≤ SPAN_LAST → day ≤ SPAN_LAST → result ≡ sub_ℕ day base }
{
    if span::LAST < base {
        return 0;
    }
    if span::LAST < day {
        return 0;
    }
    day as i32 - base as i32
}

// A date that does not move.
#[tactic(auto, unfolding(crate::specs::Moves::moved_from, refusal::specs::Answer::then))]
pub(crate) fn stay(day: u32) -> Result<Moved, Refusal>
    ensures { moved result ≡ moved_from (given day) (within_span day) }
{
    let date = span::within(day as u64)?;
    Ok(Moved { date, days: 0 })
}

// The date that a search found, from the day that it started at.
#[tactic(auto, unfolding(crate::specs::Moves::moved_from, refusal::specs::Answer::then))]
pub fn to<E: Refuses>(base: u32, found: Result<Date, E>) -> Result<Moved, E>
    ensures { UpTo base (dated_by E.numbered found) → moved_by E.numbered result ≡ moved_from (given base) (dated_by E.numbered found) }
{
    let date = found?;
    Ok(Moved {
        date,
        days: days_from(base, date.day),
    })
}

// The date alone.
#[tactic(auto, unfolding(crate::specs::Moves::date_of))]
pub fn date_of<E: Refuses>(m: Result<Moved, E>) -> Result<Date, E>
    ensures { dated_by E.numbered result ≡ date_of (moved_by E.numbered m) }
{
    Ok(m?.date)
}
