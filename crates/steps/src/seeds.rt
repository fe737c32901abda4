// The seed that candidates are counted from.
ghost use Rattle.std.specs.Prelude.{◌≡◌, true, ◌&&◌, eqb};
ghost use Rattle.date.specs.Civil.{month_length};
ghost use Rattle.calendar.specs.Open.{closed_ok};
ghost use Rattle.refusal.specs.Answer.{answered};
ghost use Rattle.steps.specs.Candidates.{seed_of};
ghost use Rattle.steps.specs.Generate.{anchor_or};
ghost use Rattle.steps.specs.Finish.{seed_at_end};

use crate::Seed;
use calendar::month_ends;
use date::{Fields, civil};
use refusal::Refusal;

// An anchor, or the other date where it is absent.
#[tactic(auto, unfolding(crate::specs::Generate::anchor_or, crate::specs::Table::is_given))]
pub fn anchor_or(anchor: u32, other: u32) -> u32
    ensures { result ≡ anchor_or anchor other }
{
    if anchor == 0 { other } else { anchor }
}

// Whether end of month is on and a day with these fields is the last of its month.
fn keeps_month_end(monthend: bool, f: Fields) -> bool
    ensures { result ≡ (monthend && eqb f.day (month_length f.year f.month)) }
{
    monthend && f.day == civil::month_length(f.year, f.month)
}

// A seed at the end of its month keeps day 31, which no month exceeds.
#[tactic(auto, using(crate::proofs::Ways::year_fits, crate::proofs::Ways::month_from_one), unfolding(crate::specs::Candidates::seed_of, crate::specs::Candidates::last_day, date::specs::Date::month_index))]
pub fn seed_of(monthend: bool, day: u32) -> Seed
    ensures { result ≡ seed_of monthend day }
{
    let f = civil::fields_of(day);
    let keep = if keeps_month_end(monthend, f) {
        31
    } else {
        f.day
    };
    Seed {
        day,
        month: 12 * f.year + f.month - 1,
        keep,
    }
}

// Whether the middle dates are month ends: end of month is on, and the seed is at the given calendar's month end. 0 is no seed.
#[tactic(auto, using(crate::proofs::Ways::seed_off, crate::proofs::Ways::seed_none, crate::proofs::Ways::seed_some))]
pub fn seed_at_end(monthend: bool, seed: u32, mask: u8, closed: &[u32]) -> Result<bool, Refusal>
    ensures { closed_ok closed.now ≡ true → answered result ≡ seed_at_end monthend mask closed.now seed }
{
    if !monthend || seed == 0 {
        return Ok(false);
    }
    month_ends::at_month_end(seed, mask, closed)
}
