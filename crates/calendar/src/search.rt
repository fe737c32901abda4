// Adjusted days from 1800-01-01 to 2399-12-31, for the crates above: on a list of closed dates that the caller has checked. One day by itself, or
// one day after another, each with what the day before it told.
ghost use Rattle.std.specs.Prelude.{◌≡◌, true, ◌&&◌, leb};
ghost use Rattle.refusal.specs.Answer.{given};
ghost use Rattle.calendar.specs.Inner.Always.{convention_on};
ghost use Rattle.calendar.specs.declared.Convention.TheVariants.{ModifiedFollowing};
ghost use Rattle.calendar.specs.Open.{closed_ok};
ghost use Rattle.calendar.specs.Inner.Places.{LowerBound};
ghost use Rattle.calendar.specs.Adjust.{adjusted};
ghost use Rattle.calendar.specs.Moves.{moved, moved_from};
ghost use Rattle.calendar.specs.Inner.Near.{placed, OneMonth, Known, Adjusts, Measured, Tells};
ghost use Rattle.date.specs.Date.{dated};

use crate::{Convention, Moved, closed_dates, conventions, months, moves, scan};
use date::Date;
use refusal::Refusal;

// What is known beside a day that was adjusted: a guess at the place of a day near it, and the first and the last of days that lie in
// one month, none if the first is the later one.
#[derive(Clone, Copy)]
pub struct Near {
    pub place: usize,
    pub from: u32,
    pub to: u32,
}

impl Near {
    // Nothing is known, as where a caller begins: any place will do, and no days are said to lie in one month.
    pub const NOTHING: Near = Near {
        place: 0,
        from: 1,
        to: 0,
    };
}

// What an adjustment answers, and what is then known for a day near the one that was adjusted.
#[derive(Clone, Copy)]
pub struct Told {
    pub moved: Result<Moved, Refusal>,
    pub near: Near,
}

// The date that a search found, and what is then known.
#[derive(Clone, Copy)]
struct Placed {
    day: u32,
    near: Near,
}

// Whether two days, the earlier one first, are known to lie in one month.
fn is_known(near: Near, earlier: u32, later: u32) -> bool
    ensures { result ≡ (leb near.from earlier && leb later near.to) }
{
    near.from <= earlier && later <= near.to
}

#[tactic(auto, unfolding(crate::specs::Inner::Near::placed, crate::specs::Inner::Near::Known, refusal::specs::Answer::then))]
fn with_near(found: Result<Date, Refusal>, near: Near) -> Result<Placed, Refusal>
    ensures { (placed result ≡ dated found) × (OneMonth near.from near.to → Known result) }
{
    let date = found?;
    Ok(Placed {
        day: date.day,
        near,
    })
}

// The adjustment. An open day is its own adjusted date, so only a closed one is searched from.
pub fn adjust(day: u32, convention: Convention, mask: u8, closed: &[u32]) -> Result<Moved, Refusal>
    ensures { closed_ok closed.now ≡ true → moved result ≡ moved_from (given day) (adjusted mask closed.now convention day) }
{
    match convention {
        Convention::Unadjusted => moves::stay(day),
        _ => {
            let place = closed_dates::lower_bound(closed, day);
            if scan::is_open_at(place, day, mask, closed) {
                return moves::stay(day);
            }
            moves::to(
                day,
                conventions::search_from(place, day, convention, mask, closed),
            )
        }
    }
}

// Modified Following where days of one month may be known. Else the later day's month is split, and is then known up to that day.
fn follow_near(near: Near, day: u32, mask: u8, closed: &[u32]) -> Result<Placed, Refusal>
    requires { LowerBound closed.now day near.place }
    ensures { closed_ok closed.now ≡ true → OneMonth near.from near.to → Adjusts mask closed.now ModifiedFollowing day result }
{
    let place = near.place;
    let later = scan::look(place, day, false, mask, closed)?.day;
    if is_known(near, day, later) {
        return Ok(Placed { day: later, near });
    }
    let from = months::month_start(later);
    if from <= day {
        return Ok(Placed {
            day: later,
            near: Near {
                place,
                from,
                to: later,
            },
        });
    }
    with_near(scan::look(place, day, true, mask, closed), near)
}

// A search where something may be known. Modified Following is the common convention, and alone uses what is known of a month.
fn search_near(
    near: Near,
    day: u32,
    convention: Convention,
    mask: u8,
    closed: &[u32],
) -> Result<Placed, Refusal>
    requires { LowerBound closed.now day near.place }
    ensures { closed_ok closed.now ≡ true → OneMonth near.from near.to → Adjusts mask closed.now convention day result }
{
    match convention {
        Convention::ModifiedFollowing => follow_near(near, day, mask, closed),
        _ => with_near(
            conventions::search_from(near.place, day, convention, mask, closed),
            near,
        ),
    }
}

// How far the date that was found lies from the day that it was looked for from.
#[tactic(auto, using(crate::specs::Laws::Moved::unmoved), unfolding(crate::specs::Inner::Near::Known, crate::specs::Inner::Near::placed, refusal::specs::Answer::then))]
fn measure(day: u32, found: Result<Placed, Refusal>, near: Near) -> Told
    ensures { Measured day found near result }
{
    match found {
        Ok(placed) => Told {
            moved: moves::to(day, Ok(Date { day: placed.day })),
            near: placed.near,
        },
        Err(r) => Told {
            moved: Err(r),
            near,
        },
    }
}

// The adjustment for one day after another: the day's place is looked for from a guess, as the place that a day near it had.
pub fn adjust_near(day: u32, near: Near, convention: Convention, mask: u8, closed: &[u32]) -> Told
    ensures { closed_ok closed.now ≡ true → OneMonth near.from near.to → Tells mask closed.now convention day result }
{
    match convention {
        Convention::Unadjusted => Told {
            moved: moves::stay(day),
            near,
        },
        _ => {
            let place = closed_dates::place_near(closed, day, near.place);
            let here = Near {
                place,
                from: near.from,
                to: near.to,
            };
            if scan::is_open_at(place, day, mask, closed) {
                return Told {
                    moved: moves::stay(day),
                    near: here,
                };
            }
            measure(day, search_near(here, day, convention, mask, closed), here)
        }
    }
}

// The convention, or none where no day is closed, which comes to the same and needs no look at the calendar.
#[tactic(auto, unfolding(crate::specs::Inner::Always::convention_on))]
pub fn convention_on(convention: Convention, mask: u8, closed: &[u32]) -> Convention
    ensures { result ≡ convention_on mask closed.now convention }
{
    if mask == 0 {
        if closed.len() == 0 {
            return Convention::Unadjusted;
        }
    }
    convention
}
