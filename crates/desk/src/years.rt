// The first and the last day of a year from 1800 to 2399.
ghost use Rattle.std.specs.Prelude.{◌≡◌, true};
ghost use Rattle.date.specs.Civil.{day_number};
ghost use Rattle.desk.specs.Desk.{in_years};
ghost use Rattle.desk.specs.Runs.{day_or, end_of};
ghost use Rattle.date.specs.Date.{dated};

use date::Date;
use refusal::Refusal;

#[tactic(auto, unfolding(crate::specs::Runs::day_or))]
fn number_of(date: Result<Date, Refusal>) -> u32
    ensures { result ≡ day_or (dated date) }
{
    match date {
        Ok(d) => d.day,
        Err(_) => 0,
    }
}

pub(crate) fn first_of(year: u32) -> u32
    ensures { in_years year ≡ true → result ≡ day_number year 1 1 }
{
    number_of(Date::make(year, 1, 1))
}

pub(crate) fn last_of(year: u32) -> u32
    ensures { in_years year ≡ true → result ≡ day_number year 12 31 }
{
    number_of(Date::make(year, 12, 31))
}

// The last day of a year that a search that way comes to.
#[tactic(auto, unfolding(crate::specs::Runs::end_of))]
pub(crate) fn end_of(year: u32, back: bool) -> u32
    ensures { in_years year ≡ true → result ≡ end_of back year }
{
    if back { first_of(year) } else { last_of(year) }
}
