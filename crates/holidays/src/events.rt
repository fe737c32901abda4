// What a VEVENT says: its dates, and its days at its end.
ghost use Rattle.std.specs.Prelude.{◌≡◌, ◌≤◌, min, length};
ghost use Rattle.refusal.specs.Refusals.{number_of};
ghost use Rattle.holidays.specs.Import.{full};
ghost use Rattle.holidays.specs.Inner.Days.{WORDS, days_of};
ghost use Rattle.holidays.specs.Inner.Digits.{IsSmall};
ghost use Rattle.holidays.specs.Inner.Parameters.{LiesBefore};
ghost use Rattle.holidays.specs.Inner.Events.{past_of, Limits, Notes, Closes};

use crate::parameters::Value;
use crate::{dates, days};
use refusal::Refusal;

// A DTSTART or a DTEND, where `said` is the day that was said before.
#[tactic(auto, using(crate::proofs::EventWays::notings))]
pub(crate) fn note(file: &[u8], said: Option<u32>, value: Value) -> Result<u32, Refusal>
    requires { LiesBefore file.now value.place }
    ensures { Notes file.now said value result }
{
    if said.is_some() {
        return Err(Refusal::Ical);
    }
    match value.place {
        None => Err(Refusal::Ical),
        Some(place) => dates::read_date(file, place, value.kind),
    }
}

// The end that was said, or the next day.
#[tactic(auto, using(crate::proofs::EventWays::ends_are))]
fn past_of(start: u32, stop: Option<u32>) -> u32
    requires { start ≤ 5000000 }
    ensures { result ≡ past_of start stop }
{
    match stop {
        None => start + 1,
        Some(past) => past,
    }
}

fn limit_of(room: usize) -> u32
    ensures { Limits room result }
{
    room.min(4096) as u32
}

#[tactic(auto, using(crate::proofs::EventWays::ends_are))]
fn full_of(room: usize) -> Refusal
    ensures { number_of result ≡ full room }
{
    if room < 4096 {
        return Refusal::Room;
    }
    Refusal::Full
}

// At END:VEVENT: how many days there are then. Days are counted from 400 years before day 1 in `start` and `stop`, and from 1800 on in the map.
#[tactic(auto, using(crate::proofs::EventWays::closings))]
pub(crate) fn close(
    start: Option<u32>,
    stop: Option<u32>,
    count: u32,
    room: usize,
    map: &mut [u32],
) -> Result<u32, Refusal>
    requires start_bound { IsSmall start }
    requires map_len { length map.old ≡ WORDS }
    requires count_value { count ≡ length (days_of map.old) }
    requires count_bound { count ≤ min room 4096 }
    ensures { Closes start stop room map.old result map.new }
{
    let Some(first) = start else {
        return Err(Refusal::Ical);
    };
    let past = past_of(first, stop);
    if past <= first {
        return Err(Refusal::Ical);
    }
    if first < 803169 {
        return Err(Refusal::Book);
    }
    if 1022314 < past {
        return Err(Refusal::Book);
    }
    let limit = limit_of(room);
    match days::add_days(map, first - 803169, past - 803169, count, limit) {
        Some(n) => Ok(n),
        None => Err(full_of(room)),
    }
}
