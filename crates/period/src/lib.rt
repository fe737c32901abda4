// A length of time: a signed count of days, weeks, months or years.
#![tactic(auto)]

ghost use Rattle.std.specs.Prelude.{◌≡◌};
ghost use Rattle.refusal.specs.Answer.{answered};
ghost use Rattle.period.specs.Period.{unit_of, times_of};

use refusal::Refusal;

// The sign and the size of a count.
pub mod sign;

#[derive(Clone, Copy, Debug, PartialEq, Eq)]
pub enum Unit {
    Days,
    Weeks,
    Months,
    Years,
}

// Units by their numbers, which are their places in document 01's list.
impl TryFrom<u8> for Unit {
    type Error = Refusal;

    ghost try_from_gives = { λ n r. answered r ≡ unit_of n };

    fn try_from(number: u8) -> Result<Unit, Refusal> {
        match number {
            0 => Ok(Unit::Days),
            1 => Ok(Unit::Weeks),
            2 => Ok(Unit::Months),
            3 => Ok(Unit::Years),
            _ => Err(Refusal::Request),
        }
    }
}

#[derive(Clone, Copy, Debug, PartialEq, Eq)]
pub struct Period {
    pub length: i32,
    pub unit: Unit,
}

impl Period {
    // The period taken `count` times, or refusal 5 where its length does not fit 32 bits.
    #[tactic(auto, using(crate::specs::Laws::Signed::same32, crate::specs::Laws::Times::times_fits, crate::specs::Laws::Times::times_unfit))]
    pub fn times(self, count: i32) -> Result<Period, Refusal>
        ensures { answered result ≡ times_of self.length self.unit count }
    {
        match self.length.checked_mul(count) {
            Some(length) => Ok(Period { length, ..self }),
            None => Err(Refusal::Tenor),
        }
    }
}
