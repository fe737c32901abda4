// The length of a tenor: whether it is negative, or too long.
ghost use Rattle.std.specs.Prelude.{◌≡◌, nat_abs};
ghost use Rattle.period.specs.Period.{is_negative, is_positive};
ghost use Rattle.calendar.specs.Calendar.{tenor_ok};
ghost use Rattle.steps.specs.Table.{in_days};

use period::{Period, Unit, sign};

pub(crate) fn is_negative(tenor: Period) -> bool
    ensures { result ≡ is_negative tenor.length }
{
    tenor.length < 0
}

pub(crate) fn is_positive(tenor: Period) -> bool
    ensures { result ≡ is_positive tenor.length }
{
    0 < tenor.length
}

#[tactic(auto, unfolding(steps::specs::Table::in_days))]
pub(crate) fn is_in_days(unit: Unit) -> bool
    ensures { result ≡ in_days unit }
{
    matches!(unit, Unit::Days | Unit::Weeks)
}

pub(crate) fn is_short(tenor: Period) -> bool
    ensures { result ≡ tenor_ok (nat_abs tenor.length) tenor.unit }
{
    calendar::is_short(sign::size(tenor.length), tenor.unit)
}
