// The length of a tenor: whether it is 0.
ghost use Rattle.std.specs.Prelude.{◌≡◌};
ghost use Rattle.steps.specs.Rules.{is_none};

use period::Period;

pub(crate) fn is_none(tenor: Period) -> bool
    ensures { result ≡ is_none tenor.length }
{
    tenor.length == 0
}
