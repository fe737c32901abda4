// Dates: a day number in, a day number or minus a refusal out.
ghost use Rattle.std.specs.Prelude.{◌≡◌};
ghost use Rattle.refusal.specs.Answer.{then};
ghost use Rattle.date.specs.Date.{make_of, fields_in, weekday_in, month_end_of, advance_of, next_weekday_of, nth_weekday_of, compare_of};
ghost use Rattle.crossing.specs.Answers.{one_number_of, itself, digits, place};
ghost use Rattle.crossing.specs.Numbers.{unit_of};

use crossing::answers::one_number;
use date::Date;

// The day number of a civil date.
pub fn heronspan_make(year: u32, month: u32, day: u32) -> i64
    ensures { result ≡ one_number_of itself (make_of year month day) }
{
    one_number(Date::make(year, month, day))
}

// The civil date, as year * 10000 + month * 100 + day.
pub fn heronspan_fields(day: u32) -> i64
    ensures { result ≡ one_number_of digits (fields_in day) }
{
    one_number(Date { day }.fields())
}

// 1 is Monday and 7 Sunday.
pub fn heronspan_weekday(day: u32) -> i64
    ensures { result ≡ one_number_of itself (weekday_in day) }
{
    one_number(Date { day }.weekday())
}

pub fn heronspan_month_end(day: u32) -> i64
    ensures { result ≡ one_number_of itself (month_end_of day) }
{
    one_number(Date { day }.month_end())
}

#[tactic(auto, unfolding(refusal::specs::Answer::then))]
pub fn heronspan_advance(day: u32, count: i32, unit: u8) -> i64
    ensures { result ≡ one_number_of itself (then (unit_of unit) (advance_of day count)) }
{
    one_number(crossing::unit_of(unit).and_then(|unit| Date { day }.advance(count, unit)))
}

// The first day with that weekday on or after the day.
pub fn heronspan_next_weekday(day: u32, weekday: u32) -> i64
    ensures { result ≡ one_number_of itself (next_weekday_of day weekday) }
{
    one_number(Date { day }.next_weekday(weekday))
}

// The nth day with that weekday in a month.
pub fn heronspan_nth_weekday(nth: u32, weekday: u32, month: u32, year: u32) -> i64
    ensures { result ≡ one_number_of itself (nth_weekday_of nth weekday month year) }
{
    one_number(Date::nth_weekday(nth, weekday, month, year))
}

// 0 where the first day lies before the second, 1 where they are the same, 2 where it lies after.
pub fn heronspan_compare(a: u32, b: u32) -> i64
    ensures { result ≡ one_number_of place (compare_of a b) }
{
    one_number(Date { day: a }.compare(Date { day: b }))
}
