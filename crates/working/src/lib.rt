// The working lists of a build, and the loop over the candidates that fills them. On lists and calendars that are not
// as a build makes them, each function answers something; what it promises holds under the premises that it names.
#![tactic(auto)]

ghost use Rattle.std.specs.Prelude.{◌≡◌, true};
ghost use Rattle.refusal.specs.Answer.{answered};
ghost use Rattle.calendar.specs.Open.{closed_ok};
ghost use Rattle.calendar.specs.Adjust.{adjusted};

use calendar::{Convention, moves, search};
use refusal::Refusal;
use steps::{Pace, Seed, Sure};

// The working lists: dates and marks are put into them.
pub mod lists;
// Candidates: whole tenors before or after the seed.
pub mod candidates;
// The loop over the candidates.
pub mod walks;
// Dates that are added unless they adjust to the day of the newest.
pub mod adds;

// What dates are adjusted by, beside the closed dates: the convention, and the weekdays that are closed.
#[derive(Clone, Copy)]
pub struct Adjusting {
    pub convention: Convention,
    pub mask: u8,
}

impl Adjusting {
    // The number of the day that a day adjusts to.
    pub fn adjusted(self, day: u32, closed: &[u32]) -> Result<u32, Refusal>
        ensures { closed_ok closed.now ≡ true → answered result ≡ adjusted self.mask closed.now self.convention day }
    {
        let found = moves::date_of(search::adjust(day, self.convention, self.mask, closed))?;
        Ok(found.day)
    }
}

// The candidates that a loop looks at: whole tenors back or on from a seed, up to an exit date. Backward and forward builds each write
// theirs out: a function that made either would take as many parameters as there are fields.
#[derive(Clone, Copy)]
pub struct Course {
    pub back: bool,
    pub pace: Pace,
    pub seed: Seed,
    pub exit: u32,
}

// How many dates there are before a loop, and what one of them is known to adjust to.
#[derive(Clone, Copy)]
pub struct Begin {
    pub n: usize,
    pub sure: Sure,
}

// How many dates there are, from which on each has its paid date beside it, and the newest date's adjusted date where it is known,
// else 0: document 01's empty date, so that no Option says it twice.
#[derive(Clone, Copy)]
pub struct Tip {
    pub n: usize,
    pub start: usize,
    pub front: u32,
}

// A loop that has ended: the tries, and the seed that its candidates were counted from.
#[derive(Clone, Copy)]
pub struct Round {
    pub tries: u32,
    pub seed: u32,
}

// A part of the working lists: n dates from a place on, and the flags between them from another place on; with the tries and the seed.
// Those from the `known`-th up to the `beyond`-th have their paid dates beside them. `last` says what a day adjusts to by the
// convention of the last date.
#[derive(Clone, Copy)]
pub struct Piece {
    pub from: usize,
    pub marked: usize,
    pub n: usize,
    pub known: usize,
    pub beyond: usize,
    pub tries: u32,
    pub seed: u32,
    pub last: Sure,
}
