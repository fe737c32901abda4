// What a DTSTART or a DTEND says: a day, a day with a time, or neither.
ghost use Rattle.std.specs.Prelude.{◌≡◌, ◌+◌, ◌-◌, ◌*◌, ◌/◌, ◌≤◌};
ghost use Rattle.holidays.specs.Dated.{is_date_time};
ghost use Rattle.holidays.specs.Inner.Along.{Before, ahead};
ghost use Rattle.holidays.specs.Inner.Digits.{IsDigit, Paired, ReadsPair, Numbers, ReadsDay, ReadsClock, zone_in, time_in, SaysDate};

use crate::lines::Place;
use crate::parameters::Kind;
use crate::{lines, words};
use date::Date;
use refusal::Refusal;

// The numbers of no word, of T and of Z.
const NOTHING: u64 = 1;

const T: u64 = 52;

const Z: u64 = 58;

#[tactic(auto, using(crate::proofs::DateWays::digits_of))]
fn digit(b: u8) -> Option<u32>
    ensures { IsDigit b result }
{
    if b < 48 {
        return None;
    }
    if 57 < b {
        return None;
    }
    Some((b - 48) as u32)
}

// The number of two digits.
#[tactic(auto, using(crate::proofs::DateWays::digit_pairs))]
fn pair_of(a: u8, b: u8) -> Option<u32>
    ensures { Paired a b result }
{
    let tens = digit(a)?;
    let ones = digit(b)?;
    Some(tens * 10 + ones)
}

// The number of two digits, and the place behind them.
#[tactic(auto, using(crate::proofs::DateWays::pairs_of))]
fn read_pair(file: &[u8], from: Place) -> Option<(u32, Place)>
    requires { Before file.now from.at from.line }
    ensures { ReadsPair file.now from.at from.line result }
{
    let (a, second) = lines::next(file, from)?;
    let (b, behind) = lines::next(file, second)?;
    let number = pair_of(a, b)?;
    Some((number, behind))
}

// The calendar repeats itself after 400 years: a day of 2000 to 2399, as many cycles on as its year.
fn on_by_cycles(n: u32, year: u32) -> u32
    requires le_n { 657072 ≤ n }
    requires n_bound { n ≤ 876216 }
    requires year_bound { year ≤ 10100 }
    ensures { result ≡ n + year / 400 * 146097 - 584388 }
{
    n + year / 400 * 146097 - 584388
}

#[tactic(auto, using(crate::proofs::DateWays::number_ways))]
fn number_of(year: u32, month: u32, day: u32) -> Option<u32>
    requires { year ≤ 10100 }
    ensures { Numbers year month day result }
{
    match Date::make(2000 + year % 400, month, day) {
        Ok(d) => Some(on_by_cycles(d.day, year)),
        Err(_) => None,
    }
}

// A day, counted from 400 years before day 1, and the place behind it.
#[tactic(auto, using(crate::proofs::DateWays::day_ways))]
fn read_day(file: &[u8], from: Place) -> Option<(u32, Place)>
    requires { Before file.now from.at from.line }
    ensures { ReadsDay file.now from.at from.line result }
{
    let (century, after_century) = read_pair(file, from)?;
    let (year, after_year) = read_pair(file, after_century)?;
    let (month, after_month) = read_pair(file, after_year)?;
    let (day, behind) = read_pair(file, after_month)?;
    let number = number_of(century * 100 + year, month, day)?;
    Some((number, behind))
}

// The place behind a time.
#[tactic(auto, using(crate::proofs::DateWays::clocks_of))]
fn read_clock(file: &[u8], from: Place) -> Option<Place>
    requires { Before file.now from.at from.line }
    ensures { ReadsClock file.now from.at from.line result }
{
    let (hour, after_hour) = read_pair(file, from)?;
    if 23 < hour {
        return None;
    }
    let (minute, after_minute) = read_pair(file, after_hour)?;
    if 59 < minute {
        return None;
    }
    let (second, behind) = read_pair(file, after_minute)?;
    if 60 < second {
        return None;
    }
    Some(behind)
}

// Nothing or Z, to the line's end.
#[tactic(auto, using(crate::proofs::DateWays::time_ways))]
fn is_zone(file: &[u8], from: Place) -> bool
    requires { Before file.now from.at from.line }
    ensures { result ≡ zone_in (ahead file.now from.at from.line) }
{
    let word = words::word_at(file, from);
    if word == NOTHING {
        return true;
    }
    word == Z
}

// T, a time, then nothing or Z.
#[tactic(auto, using(crate::proofs::DateWays::time_ways))]
fn is_time(file: &[u8], from: Place) -> bool
    requires { Before file.now from.at from.line }
    ensures { result ≡ time_in (ahead file.now from.at from.line) }
{
    match lines::next(file, from) {
        None => false,
        Some((b, behind)) => {
            if words::packed(1, b) != T {
                return false;
            }
            match read_clock(file, behind) {
                None => false,
                Some(zone) => is_zone(file, zone),
            }
        }
    }
}

#[tactic(auto, using(crate::proofs::DateWays::said_ways))]
fn is_timed(file: &[u8], from: Place) -> bool
    requires { Before file.now from.at from.line }
    ensures { result ≡ is_date_time (ahead file.now from.at from.line) }
{
    match read_day(file, from) {
        None => false,
        Some((_, behind)) => is_time(file, behind),
    }
}

#[tactic(auto, using(crate::proofs::DateWays::said_ways))]
fn read_all_day(file: &[u8], from: Place) -> Result<u32, Refusal>
    requires { Before file.now from.at from.line }
    ensures { SaysDate Kind.Date (ahead file.now from.at from.line) result }
{
    match read_day(file, from) {
        None => Err(Refusal::Ical),
        Some((day, behind)) => {
            if lines::is_over(file, behind) {
                return Ok(day);
            }
            Err(Refusal::Ical)
        }
    }
}

// The day of an all-day date, by the parameter VALUE.
#[tactic(auto, using(crate::proofs::DateWays::kind_ways))]
pub(crate) fn read_date(file: &[u8], from: Place, kind: Kind) -> Result<u32, Refusal>
    requires { Before file.now from.at from.line }
    ensures { SaysDate kind (ahead file.now from.at from.line) result }
{
    match kind {
        Kind::Date => read_all_day(file, from),
        Kind::Strange => Err(Refusal::Ical),
        _ => {
            if is_timed(file, from) {
                return Err(Refusal::IcalKind);
            }
            Err(Refusal::Ical)
        }
    }
}
