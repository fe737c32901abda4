// A calendar that was checked once, for many questions: the list is not looked through again.
ghost use Rattle.std.specs.Prelude.{◌≡◌, true, IfOk, IsErrOf, IsOk, ◌↔◌, false};
ghost use Rattle.refusal.specs.Answer.{answered};
ghost use Rattle.calendar.specs.Open.{calendar_ok};
ghost use Rattle.calendar.specs.Calendar.{is_open_of};
ghost use Rattle.calendar.specs.Moves.{moved, adjust_move_of};

use crate::{Convention, Moved, scan, search};
use date::Date;
use refusal::Refusal;

#[derive(Clone, Copy)]
pub struct Calendar<'a> {
    pub mask: u8,
    pub closed: &'a [u32],
    ghost sound: { calendar_ok mask closed.now ≡ true },
}

impl<'a> Calendar<'a> {
    pub fn new(mask: u8, closed: &'a [u32]) -> Result<Calendar<'a>, Refusal>
        ensures same { IfOk result (λ c. (c.mask ≡ mask) × (c.closed.now ≡ closed.now)) }
        ensures refused { IsErrOf result Refusal.Calendar ↔ (calendar_ok mask closed.now ≡ false) }
        ensures taken { IsOk result ↔ (calendar_ok mask closed.now ≡ true) }
    {
        if crate::is_sound(mask, closed) {
            Ok(Calendar { mask, closed })
        } else {
            Err(Refusal::Calendar)
        }
    }

    #[tactic(auto, using(crate::specs::Laws::Told::ok_closed), unfolding(crate::specs::Calendar::is_open_of, refusal::specs::Answer::need))]
    pub fn is_open(&self, date: Date) -> Result<bool, Refusal>
        ensures { answered result ≡ is_open_of self.now.mask self.now.closed.now date.day }
    {
        let day = date.booked()?;
        Ok(scan::is_open(day, self.mask, self.closed))
    }

    #[tactic(auto, using(crate::specs::Laws::Told::ok_closed), unfolding(crate::specs::Moves::adjust_move_of, crate::specs::Moves::moved_from, crate::specs::Calendar::adjust_of, refusal::specs::Answer::need, refusal::specs::Answer::then))]
    pub fn adjust(&self, date: Date, convention: Convention) -> Result<Moved, Refusal>
        ensures { moved result ≡ adjust_move_of self.now.mask self.now.closed.now convention date.day }
    {
        let day = date.booked()?;
        search::adjust(day, convention, self.mask, self.closed)
    }
}
