// The dates of a build, by the rule in force.
ghost use Rattle.std.specs.Prelude.{◌≡◌, length};
ghost use Rattle.steps.specs.Generate.{zero_dates, generate};
ghost use Rattle.working.specs.Part.{working, Part};
ghost use Rattle.working.specs.Making.{Checked, Generates, Zeroed};

use refusal::Refusal;
use steps::{Request, Sure, rules};
use working::{Piece, lists};

// Zero: the effective date and termination.
fn zero_dates(
    q: &Request,
    room: usize,
    work: &mut [u32],
    marks: &mut [u8],
) -> Result<Piece, Refusal>
    requires { Part room 0 (working work.old marks.old) }
    ensures { Zeroed room (zero_dates q.now room) result (working work.new marks.new) }
{
    let n = lists::put_two(true, room, q.termination.day, q.effective.day, work, marks)?;
    let from = 4096 - n;
    Ok(Piece {
        from,
        marked: from,
        n,
        known: 0,
        beyond: 0,
        tries: 0,
        seed: 0,
        last: Sure::NONE,
    })
}

pub(crate) fn generate(
    q: &Request,
    closed: &[u32],
    room: usize,
    work: &mut [u32],
    paid: &mut [u32],
    marks: &mut [u8],
) -> Result<Piece, Refusal>
    requires checked { Checked q.now closed.now }
    requires part { Part room 0 (working work.old marks.old) × (length paid.old ≡ 4096) }
    ensures { Generates q.now closed.now room (generate q.now closed.now room) result (working work.new marks.new) paid.new }
{
    let rule = rules::rule_in_force(*q);
    if rules::is_zero(rule) {
        return zero_dates(q, room, work, marks);
    }
    if rules::is_backward(rule) {
        return backwards::backward(*q, closed, room, work, paid, marks);
    }
    forwards::forward(*q, closed, room, work, paid, marks)
}
