// What the stored bodies ask for: the fields up to FF, all sound, and nothing behind them.
ghost use Rattle.std.specs.Prelude.{length, ◌≤◌};
ghost use Rattle.request.specs.Decode.{Decodes};
ghost use Rattle.feeding.specs.Feed.{found};

use crate::{State, reading};
use refusal::Refusal;
use request::{Decoded, stored};

pub(crate) fn answer(state: State, buffer: &[u8], closed: &mut [u32]) -> Result<Decoded, Refusal>
    requires { 20000 ≤ length buffer.now }
    ensures { Decodes (found state buffer.now (length closed.old)) result closed.old closed.new }
{
    if state.sound == 0 {
        return Err(Refusal::Request);
    }
    if state.phase == reading::ENDED {
        let places = state.places;
        return stored::read(buffer, &places, state.size / 4, closed);
    }
    Err(Refusal::Request)
}
