// The second date of a forward build: the request's first date, or a twentieth.
ghost use Rattle.std.specs.Prelude.{◌≡◌, true, eqb};
ghost use Rattle.calendar.specs.Open.{closed_ok};
ghost use Rattle.steps.specs.Rules.{on_twentieths};
ghost use Rattle.steps.specs.Generate.{coming_twentieth, is_near, put_seed, put_coming, put_twentieth, put_first, tenor_on, second};
ghost use Rattle.working.specs.Part.{working, Part, Placed, Begun};
ghost use Rattle.opening.specs.Opening.{Opens};
ghost use Rattle.date.specs.Date.{dated};

use crate::Opening;
use calendar::{advances, moves};
use date::Date;
use period::sign;
use refusal::Refusal;
use steps::{Request, Rule, flags, rules, twentieths};
use working::lists;

// A date that becomes the seed. `lists::put` answers the count alone, since no other date that is put is one.
fn put_seed(
    n: usize,
    room: usize,
    day: u32,
    mark: u8,
    work: &mut [u32],
    marks: &mut [u8],
) -> Result<Opening, Refusal>
    ensures { Opens (Part room) room (put_seed room day mark) n (working work.old marks.old) result (working work.new marks.new) }
{
    let m = lists::put(false, n, room, day, mark, work, marks)?;
    Ok(Opening { n: m, seed: day })
}

// OldCDS passes over a twentieth under 30 days after the effective date.
#[tactic(auto, unfolding(steps::specs::Generate::is_near))]
fn is_near(rule: Rule, effective: u32, day: u32) -> bool
    ensures { result ≡ is_near rule effective day }
{
    rules::is_old_cds(rule) && day.saturating_sub(effective) < 30
}

fn coming_twentieth(rule: Rule, effective: u32) -> Result<Date, Refusal>
    ensures { dated result ≡ coming_twentieth rule effective }
{
    let coming = twentieths::next(effective, rule)?;
    if is_near(rule, effective, coming.day) {
        return twentieths::next(coming.day + 1, rule);
    }
    Ok(coming)
}

// The coming twentieth, unless it is the effective date itself.
fn put_coming(
    q: &Request,
    room: usize,
    day: u32,
    n: usize,
    work: &mut [u32],
    marks: &mut [u8],
) -> Result<Opening, Refusal>
    ensures { Opens (Placed room) room (put_coming (eqb day q.now.effective.day) q.now room day) n (working work.old marks.old) result (working work.new marks.new) }
{
    let rule = q.rule;
    if day == q.effective.day {
        return Ok(Opening {
            n,
            seed: lists::newest(false, n, work),
        });
    }
    if rules::is_credit(rule) {
        return put_seed(n, room, day, 1, work, marks);
    }
    put_seed(n, room, day, 0, work, marks)
}

// The second date of the rules on twentieths; the others have none.
fn put_twentieth(
    q: &Request,
    room: usize,
    n: usize,
    work: &mut [u32],
    marks: &mut [u8],
) -> Result<Opening, Refusal>
    ensures { Opens (Placed room) room (put_twentieth (on_twentieths q.now.rule) q.now room) n (working work.old marks.old) result (working work.new marks.new) }
{
    let rule = q.rule;
    if rules::on_twentieths(rule) {
        let coming = coming_twentieth(rule, q.effective.day)?;
        return put_coming(q, room, coming.day, n, work, marks);
    }
    Ok(Opening {
        n,
        seed: lists::newest(false, n, work),
    })
}

// The first date: regular if it is one tenor on the given calendar after the date before it.
fn put_first(
    q: &Request,
    closed: &[u32],
    room: usize,
    n: usize,
    work: &mut [u32],
    marks: &mut [u8],
) -> Result<Opening, Refusal>
    ensures { Opens (Begun closed.now room) room (put_first q.now closed.now room) n (working work.old marks.old) result (working work.new marks.new) }
{
    if room <= n {
        return Err(Refusal::Room);
    }
    let next = tenor_on(q, closed, lists::newest(false, n, work))?;
    let first = q.first.day;
    put_seed(
        n,
        room,
        first,
        flags::same_flag(next.day, first),
        work,
        marks,
    )
}

// One tenor on, on the given calendar.
fn tenor_on(q: &Request, closed: &[u32], day: u32) -> Result<Date, Refusal>
    ensures { closed_ok closed.now ≡ true → dated result ≡ tenor_on q.now closed.now day }
{
    let tenor = q.tenor;
    let unit = tenor.unit;
    let convention = q.convention;
    let size = sign::size(tenor.length);
    moves::date_of(advances::advance(
        day, false, size, unit, convention, q.monthend, q.mask, closed,
    ))
}

pub(crate) fn put_second(
    q: &Request,
    closed: &[u32],
    room: usize,
    n: usize,
    work: &mut [u32],
    marks: &mut [u8],
) -> Result<Opening, Refusal>
    ensures { Opens (Begun closed.now room) room (second q.now.first.day q.now closed.now room) n (working work.old marks.old) result (working work.new marks.new) }
{
    if q.first.day == 0 {
        return put_twentieth(q, room, n, work, marks);
    }
    put_first(q, closed, room, n, work, marks)
}
