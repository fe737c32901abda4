// The first two dates of a forward build.
#![tactic(auto)]

ghost use Rattle.calendar.specs.Adjust.{adjusted};
ghost use Rattle.steps.specs.Generate.{opened};
ghost use Rattle.working.specs.Part.{working, Fresh};
ghost use Rattle.opening.specs.Opening.{OpensForward};

use refusal::Refusal;
use steps::Request;
use working::Begin;

// The first date.
mod first;
// The second one.
mod second;

// How many dates there are after the second, and the seed.
#[derive(Clone, Copy)]
pub(crate) struct Opening {
    pub(crate) n: usize,
    pub(crate) seed: u32,
}

// How many dates there are then, what one of them is known to adjust to, and the seed.
#[derive(Clone, Copy)]
pub struct Opened {
    pub begin: Begin,
    pub seed: u32,
}

// The first two dates.
pub fn open_forward(
    q: Request,
    closed: &[u32],
    room: usize,
    work: &mut [u32],
    marks: &mut [u8],
) -> Result<Opened, Refusal>
    ensures { OpensForward (adjusted q.mask closed.now q.convention) (Fresh closed.now room) room (λ _. opened q closed.now room) 0 (working work.old marks.old) result (working work.new marks.new) }
{
    let q = &q;
    let begin = first::put_opening(q, closed, room, work, marks)?;
    let opening = second::put_second(q, closed, room, begin.n, work, marks)?;
    Ok(Opened {
        begin: Begin {
            n: opening.n,
            sure: begin.sure,
        },
        seed: opening.seed,
    })
}
