// The weekly closed days. Monday is weekday 0, and the lowest bit of the mask.
ghost use Rattle.std.specs.Prelude.{◌≡◌, ◌+◌, ◌/◌, ◌%◌, ◌^◌, ◌<◌, eqb};
ghost use Rattle.calendar.specs.Open.{weekly_closed};

// The weekday, from 0 for a Monday; day 1 is one. With whole weeks added the sum has over 32 bits: the compiler divides less than that in 32
// bits, which takes three steps more.
pub(crate) fn weekday_of(day: u32) -> u32
    ensures { result ≡ (day + 6) % 7 }
{
    ((day as u64 + 30064771078) % 7) as u32
}

pub(crate) fn weekday_after(weekday: u32) -> u32
    requires { weekday < 7 }
    ensures { result ≡ (weekday + 1) % 7 }
{
    if weekday == 6 { 0 } else { weekday + 1 }
}

pub(crate) fn weekday_before(weekday: u32) -> u32
    requires { weekday < 7 }
    ensures { result ≡ (weekday + 6) % 7 }
{
    if weekday == 0 { 6 } else { weekday - 1 }
}

// The weekday's bit of the mask is set: Monday is the lowest bit.
pub(crate) fn is_masked(weekday: u32, mask: u8) -> bool
    requires { weekday < 7 }
    ensures { result ≡ eqb (mask / 2 ^ weekday % 2) 1 }
{
    (mask >> weekday) % 2 == 1
}

#[tactic(auto, unfolding(crate::specs::Open::weekly_closed))]
pub(crate) fn weekly_closed(day: u32, mask: u8) -> bool
    ensures { result ≡ weekly_closed mask day }
{
    is_masked(weekday_of(day), mask)
}
