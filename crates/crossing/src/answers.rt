// Answers in one number: what is given, or minus the number of the refusal.
ghost use Rattle.std.specs.Prelude.{◌≡◌, ℕ, pos, neg_ℤ, ◌+◌, ◌*◌};
ghost use Rattle.date.specs.Civil.{pick_n};
ghost use Rattle.refusal.specs.Answer.{answered_by};
ghost use Rattle.coming.specs.Coming.{said};
ghost use Rattle.crossing.specs.Answers.{one_number_of, digits, place, yes, two_bytes, marked};

use coming::Coming;
use date::{Date, Fields};
use imm::codes::Code;
use refusal::Refuses;
use std::cmp::Ordering;

// What crosses to other languages as a number.
pub trait Crosses {
    ghost crossing: { Self → ℕ };

    fn cross(self) -> i64
        ensures { result ≡ pos (crossing self) };
}

// Where nothing but the refusals is of interest.
impl Crosses for () {
    ghost crossing = { λ x. 0 };

    fn cross(self) -> i64 {
        0
    }
}

impl Crosses for u32 {
    ghost crossing = { λ n. n };

    fn cross(self) -> i64 {
        i64::from(self)
    }
}

impl Crosses for Date {
    ghost crossing = { λ d. d.day };

    fn cross(self) -> i64 {
        i64::from(self.day)
    }
}

impl Crosses for bool {
    ghost crossing = { yes };

    fn cross(self) -> i64 {
        self as i64
    }
}

impl Crosses for Ordering {
    ghost crossing = { place };

    fn cross(self) -> i64 {
        match self {
            Ordering::Less => 0,
            Ordering::Equal => 1,
            Ordering::Greater => 2,
        }
    }
}

// 20250319 is 19 March 2025.
impl Crosses for Fields {
    ghost crossing = { digits };

    fn cross(self) -> i64 {
        let n = self.year as u64 * 10000 + self.month as u64 * 100 + self.day as u64;
        n as i64
    }
}

// The two bytes of a code.
impl Crosses for Code {
    ghost crossing = { two_bytes };

    fn cross(self) -> i64 {
        let n = self.letter as u32 * 256 + self.digit as u32;
        n as i64
    }
}

// The day times 4, and 0 for an irregular period that ends there, 1 for a regular one, 2 for none; 0 where there is no later date.
impl Crosses for Coming {
    ghost crossing = { λ c. marked (said c) };

    #[tactic(auto, unfolding(coming::specs::Coming::said))]
    fn cross(self) -> i64 {
        match self {
            Coming::Effective(date) => with_mark(date.day, 2),
            Coming::Ending { date, regular } => with_mark(date.day, mark_of(regular)),
            Coming::Nothing => 0,
        }
    }
}

#[tactic(auto, unfolding(date::specs::Civil::pick_n))]
fn mark_of(regular: bool) -> u32
    ensures { result ≡ pick_n regular 1 0 }
{
    regular as u32
}

fn with_mark(day: u32, mark: u32) -> i64
    ensures { result ≡ pos (day * 4 + mark) }
{
    let n = day as u64 * 4 + mark as u64;
    n as i64
}

// The interface has no other way to refuse.
pub fn minus(n: u8) -> i64
    ensures { result ≡ neg_ℤ (pos n) }
{
    -(n as i64)
}

pub fn refused<E: Refuses>(refusal: E) -> i64
    ensures { result ≡ neg_ℤ (pos (E.numbered refusal)) }
{
    minus(refusal.number())
}

pub fn one_number<T: Crosses, E: Refuses>(answer: Result<T, E>) -> i64
    ensures { result ≡ one_number_of T.crossing (answered_by E.numbered answer) }
{
    match answer {
        Ok(value) => value.cross(),
        Err(refusal) => refused(refusal),
    }
}
