// A desk's closed dates over the house's: for each year the desk's if it has any there, otherwise the house's.
#![tactic(auto)]

ghost use Rattle.std.specs.Prelude.{◌≡◌, true, ◌&&◌, IfOk};
ghost use Rattle.refusal.specs.Answer.{answered};
ghost use Rattle.calendar.specs.Open.{closed_ok};
ghost use Rattle.desk.specs.Desk.{in_years, asked_of, lookup_of, calendars_ok, adjust_over_move_of, Combines};
ghost use Rattle.desk.specs.Runs.{Tells, PlaceTold};
ghost use Rattle.calendar.specs.Moves.{moved};

use calendar::{Convention, Moved, closed_dates};
use date::Date;
use refusal::Refusal;

// The first and the last day of a year, and the place of a year's entries in a list and in the two.
mod runs;
mod years;
// The search over both lists, and the conventions.
mod adjusting;
// The two lists as one.
mod merging;

// The list that a run stands in: its number is told beside the place.
#[derive(Clone, Copy, Debug, PartialEq, Eq)]
pub enum Holder {
    Neither = 0,
    Desk = 1,
    House = 2,
}

// Where a run stands: in which list, from which place, and how many entries.
#[derive(Clone, Copy, Debug, PartialEq, Eq)]
pub struct Found {
    pub list: Holder,
    pub start: usize,
    pub count: usize,
}

impl Found {
    pub const NOWHERE: Found = Found {
        list: Holder::Neither,
        start: 0,
        count: 0,
    };
}

// The two lists, each of which keeps its rule.
#[derive(Clone, Copy)]
pub(crate) struct Lists<'a> {
    pub(crate) desk: &'a [u32],
    pub(crate) house: &'a [u32],
    ghost desk_kept: { closed_ok desk.now ≡ true },
    ghost house_kept: { closed_ok house.now ≡ true },
}

#[tactic(auto, unfolding(crate::specs::Desk::in_years))]
fn is_covered(year: u32) -> bool
    ensures { result ≡ in_years year }
{
    1800 <= year && year <= 2399
}

// Whether the year is answered: 3 for either list, then 2 for a year outside 1800 to 2399.
#[tactic(auto, unfolding(crate::specs::Desk::asked_of, refusal::specs::Answer::need))]
pub fn check(desk: &[u32], house: &[u32], year: u32) -> Result<(), Refusal>
    ensures value { answered result ≡ asked_of desk.now house.now year }
    ensures sound { IfOk result (λ _. (closed_ok desk.now ≡ true) × (closed_ok house.now ≡ true) × (in_years year ≡ true)) }
{
    if !closed_dates::keep_rule(desk) || !closed_dates::keep_rule(house) {
        return Err(Refusal::Calendar);
    }
    if !is_covered(year) {
        return Err(Refusal::Book);
    }
    Ok(())
}

// Where the run of a year stands; in no list where neither has an entry there.
#[tactic(auto, unfolding(crate::specs::Runs::Tells))]
pub fn place(desk: &[u32], house: &[u32], year: u32) -> Result<Found, Refusal>
    ensures { Tells desk.now house.now year result }
{
    check(desk, house, year)?;
    Ok(runs::find(Lists { desk, house }, year))
}

// The same into a lent list of two places, the list and the start, and how many entries the run has: 14 where the list is shorter, before all
// else. A refusal leaves it as it was.
pub fn write_place(desk: &[u32], house: &[u32], year: u32, out: &mut [u32]) -> Result<u32, Refusal>
    ensures { PlaceTold desk.now house.now year (answered result) out.old out.new }
{
    if out.len() < 2 {
        return Err(Refusal::Room);
    }
    let found = place(desk, house, year)?;
    Ok(runs::put(found, out))
}

// The run of a year: the part itself of the list that has it, and an empty part where the year is not answered.
#[tactic(auto, unfolding(crate::specs::Desk::lookup_of, crate::specs::Desk::handed_over))]
pub fn run<'a>(desk: &'a [u32], house: &'a [u32], year: u32) -> &'a [u32]
    ensures { result.now ≡ lookup_of desk.now house.now year }
{
    match check(desk, house, year) {
        Ok(()) => runs::held(Lists { desk, house }, year),
        Err(_) => &desk[0..0],
    }
}

fn keep_rules(desk: &[u32], house: &[u32]) -> bool
    ensures { result ≡ (closed_ok desk.now && closed_ok house.now) }
{
    closed_dates::keep_rule(desk) && closed_dates::keep_rule(house)
}

#[tactic(auto, unfolding(crate::specs::Desk::calendars_ok, calendar::specs::Open::calendar_ok))]
fn is_sound(mask: u8, desk: &[u32], house: &[u32]) -> bool
    ensures { result ≡ calendars_ok mask desk.now house.now }
{
    mask % 128 != 127 && keep_rules(desk, house)
}

// The adjusted date and the days that it moved, each day that is tried open or closed by the run of its own year.
#[tactic(auto, using(crate::proofs::Searching::sound_lists), unfolding(crate::specs::Desk::adjust_over_move_of, crate::specs::Desk::adjust_over_of, calendar::specs::Moves::moved_from, refusal::specs::Answer::need, refusal::specs::Answer::then))]
pub fn adjust<'a>(
    date: Date,
    convention: Convention,
    mask: u8,
    desk: &'a [u32],
    house: &'a [u32],
) -> Result<Moved, Refusal>
    ensures { moved result ≡ adjust_over_move_of mask desk.now house.now convention date.day }
{
    let day = date.booked()?;
    if !is_sound(mask, desk, house) {
        return Err(Refusal::Calendar);
    }
    adjusting::moved(day, convention, mask, Lists { desk, house })
}

// The combined list over the start of a lent list, and how many entries it has: 3 for either list, 23 where it has more than 4,096 entries, 14
// where the lent list is shorter. A refusal leaves the lent list as it was.
#[tactic(auto, unfolding(crate::specs::Desk::combine_of, crate::specs::Desk::lent_after, crate::specs::Runs::room_for, refusal::specs::Answer::need))]
pub fn combine(desk: &[u32], house: &[u32], out: &mut [u32]) -> Result<u32, Refusal>
    ensures { Combines desk.now house.now (answered result) out.old out.new }
{
    if !keep_rules(desk, house) {
        return Err(Refusal::Calendar);
    }
    let lists = Lists { desk, house };
    merging::room_for(lists, out.len())?;
    Ok(merging::write(lists, out) as u32)
}
