// A request for a schedule, and the steps that a build is made of.
#![tactic(auto, unfolding(crate::specs::Twentieths::next_twentieth_of, crate::specs::Twentieths::previous_twentieth_of, refusal::specs::Answer::need))]

ghost use Rattle.std.specs.Prelude.{◌≡◌};
ghost use Rattle.refusal.specs.Answer.{answered};
ghost use Rattle.steps.specs.Build.{refused_built};
ghost use Rattle.steps.specs.Rules.{rule_of};
ghost use Rattle.steps.specs.Twentieths.{next_twentieth_of, previous_twentieth_of};
ghost use Rattle.date.specs.Date.{dated};

use calendar::Convention;
use date::Date;
use period::{Period, Unit};
use refusal::Refusal;

// The groups of rules, and the rule and the tenor in force.
pub mod rules;
// The lengths of tenors.
mod tenors;
// The twentieths, for days that may lie beyond the book.
pub mod twentieths;
// What becomes of a date after generating.
pub mod moves;
// The flag of a period.
pub mod flags;
// The seed that candidates are counted from.
pub mod seeds;

// The date generation rules, in document 01's order, with its numbers.
#[derive(Clone, Copy, PartialEq, Eq)]
pub enum Rule {
    Zero = 0,
    Backward = 1,
    Forward = 2,
    Twentieth = 3,
    TwentiethIMM = 4,
    ThirdWednesday = 5,
    ThirdWednesdayInclusive = 6,
    OldCDS = 7,
    CDS = 8,
    CDS2015 = 9,
}

// Rules by their numbers.
impl TryFrom<u8> for Rule {
    type Error = Refusal;

    ghost try_from_gives = { λ n r. answered r ≡ rule_of n };

    #[tactic(auto, unfolding(crate::specs::Rules::rule_of, crate::specs::Rules::rules))]
    fn try_from(number: u8) -> Result<Rule, Refusal> {
        match number {
            0 => Ok(Rule::Zero),
            1 => Ok(Rule::Backward),
            2 => Ok(Rule::Forward),
            3 => Ok(Rule::Twentieth),
            4 => Ok(Rule::TwentiethIMM),
            5 => Ok(Rule::ThirdWednesday),
            6 => Ok(Rule::ThirdWednesdayInclusive),
            7 => Ok(Rule::OldCDS),
            8 => Ok(Rule::CDS),
            9 => Ok(Rule::CDS2015),
            _ => Err(Refusal::Request),
        }
    }
}

// What a schedule is asked for. An anchor of day 0 is no anchor, by document 01.
#[derive(Clone, Copy)]
pub struct Request {
    pub effective: Date,
    pub termination: Date,
    pub tenor: Period,
    pub rule: Rule,
    pub convention: Convention,
    // The convention of the last date.
    pub terminal: Convention,
    pub monthend: bool,
    // The anchors: the first date, and the next-to-last one.
    pub first: Date,
    pub penultimate: Date,
    // The weekly closed days, Monday the lowest bit.
    pub mask: u8,
}

// A tenor as a count of days or of months. Not an enum: definition `candidate` and laws of walks name both fields.
#[derive(Clone, Copy)]
pub struct Pace {
    pub monthly: bool,
    pub size: u32,
}

// The date that candidates are counted from: its day number, its month as 12 * year + month - 1, and the day of the month
// that candidates keep.
#[derive(Clone, Copy)]
pub struct Seed {
    pub day: u32,
    pub month: u32,
    pub keep: u32,
}

// What becomes of a date after generating.
#[derive(Clone, Copy)]
pub enum Move {
    Stay,
    ThirdWednesdays,
    Adjust(Convention),
    // The month's last day, and the calendar's month end.
    MonthEnds,
    OpenMonthEnds,
}

// A day and the date that it is known to adjust to; 0 where none is known, as `Surely` of specs reads it.
#[derive(Clone, Copy)]
pub struct Sure {
    pub day: u32,
    pub paid: u32,
}

impl Sure {
    pub const NONE: Sure = Sure { day: 0, paid: 0 };
}

// What a build answers: in a refusal the number, rule Zero, tenor 0 days, and 0 in all else. `moved` is the greatest number of days
// between the paid and the unadjusted date of an entry. A record with a number, and no Result: document 01, "What must change shape".
#[derive(Clone, Copy)]
pub struct Built {
    pub number: u8,
    pub count: u32,
    pub tries: u32,
    pub rule: Rule,
    pub tenor: Period,
    pub moved: u32,
}

// What a build that is refused answers.
pub fn refused(n: u8) -> Built
    ensures { result ≡ refused_built n }
{
    Built {
        number: n,
        count: 0,
        tries: 0,
        rule: Rule::Zero,
        tenor: Period {
            length: 0,
            unit: Unit::Days,
        },
        moved: 0,
    }
}

// The first twentieth on or after the date, for the rules of IMM months that of March, June, September or December.
pub fn next_twentieth(date: Date, rule: Rule) -> Result<Date, Refusal>
    ensures { dated result ≡ next_twentieth_of rule date.day }
{
    let day = date.booked()?;
    twentieths::next(day, rule)
}

// The last twentieth on or before the date, for the rules of IMM months that of March, June, September or December.
pub fn previous_twentieth(date: Date, rule: Rule) -> Result<Date, Refusal>
    ensures { dated result ≡ previous_twentieth_of rule date.day }
{
    let day = date.booked()?;
    twentieths::previous(day, rule)
}
