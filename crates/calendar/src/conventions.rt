// The five conventions, from a day's place in the list of closed dates.
ghost use Rattle.std.specs.Prelude.{◌≡◌, true};
ghost use Rattle.refusal.specs.Answer.{need, BOOK};
ghost use Rattle.calendar.specs.Open.{closed_ok};
ghost use Rattle.calendar.specs.Inner.Places.{LowerBound};
ghost use Rattle.calendar.specs.Adjust.{in_span, modified, adjusted};
ghost use Rattle.date.specs.Date.{dated};

use crate::{Convention, months, scan};
use date::{Date, span};
use refusal::Refusal;

// The day found, or that of the search the other way where the first one left the month.
fn modified(place: usize, day: u32, back: bool, mask: u8, closed: &[u32]) -> Result<Date, Refusal>
    requires { LowerBound closed.now day place }
    ensures { closed_ok closed.now ≡ true → dated result ≡ need BOOK (in_span day) (modified mask closed.now back day) }
{
    let found = scan::look(place, day, back, mask, closed)?;
    if months::same_month(day, found.day) {
        return Ok(found);
    }
    scan::look(place, day, !back, mask, closed)
}

#[tactic(auto, using(crate::specs::Laws::Search::span_need), unfolding(crate::specs::AnyCalendar::adjusted, crate::specs::AnyCalendar::by_convention, crate::specs::AnyCalendar::towards, refusal::specs::Answer::need))]
pub(crate) fn search_from(
    place: usize,
    day: u32,
    convention: Convention,
    mask: u8,
    closed: &[u32],
) -> Result<Date, Refusal>
    requires { LowerBound closed.now day place }
    ensures { closed_ok closed.now ≡ true → dated result ≡ adjusted mask closed.now convention day }
{
    match convention {
        Convention::Unadjusted => span::within(day as u64),
        Convention::Following => scan::look(place, day, false, mask, closed),
        Convention::ModifiedFollowing => modified(place, day, false, mask, closed),
        Convention::Preceding => scan::look(place, day, true, mask, closed),
        Convention::ModifiedPreceding => modified(place, day, true, mask, closed),
    }
}
