// The combined list of two lists that keep their rule: the desk's entries, and the house's whose year has none of the desk's. It is merged by
// the desk's years, each found once from where the last one ended.
ghost use Rattle.std.specs.Prelude.{◌≡◌, true, ◌&&◌, ◌++◌, ◌+◌, ◌≤◌, ◌<◌, leb, length, drop, IfOk};
ghost use Rattle.std.proofs.Math.Seq.{paste};
ghost use Rattle.refusal.specs.Answer.{answered};
ghost use Rattle.desk.specs.Desk.{combined};
ghost use Rattle.desk.specs.Runs.{Turns, room_for};

use crate::{Lists, years};
use calendar::closed_dates;
use date::civil;
use refusal::Refusal;

// How many of the house's entries come before the desk's first year, how many of the desk's lie in it, and where the house's after it begin.
#[derive(Drop)]
struct Turn {
    front: usize,
    own: usize,
    next: usize,
}

fn first_year<'a>(lists: Lists<'a>) -> Turn
    requires { 0 < length lists.desk.now }
    ensures { Turns lists.entry.desk.now lists.entry.house.now result.front result.own result.next }
{
    let f = civil::fields_of(lists.desk[0]);
    let first = years::first_of(f.year);
    let after = years::last_of(f.year) + 1;
    let front = closed_dates::place_near(lists.house, first, 0);
    let own = closed_dates::place_near(lists.desk, after, 0);
    let next = closed_dates::place_near(lists.house, after, front);
    Turn { front, own, next }
}

// The two lists without so many entries at their front.
fn rest_of<'a>(lists: Lists<'a>, own: usize, next: usize) -> Lists<'a>
    requires { (own ≤ length lists.desk.now) × (next ≤ length lists.house.now) }
    ensures { (result.desk.now ≡ drop own lists.entry.desk.now) × (result.house.now ≡ drop next lists.entry.house.now) }
{
    Lists {
        desk: &lists.desk[own..],
        house: &lists.house[next..],
    }
}

// How many entries it has.
fn count<'a>(lists: Lists<'a>) -> usize
    ensures { result ≡ length (combined lists.entry.desk.now lists.entry.house.now) }
{
    let mut rest = lists;
    let mut n = 0;
    while !rest.desk.is_empty() {
        let t = first_year(rest);
        n += t.front + t.own;
        rest = rest_of(rest, t.own, t.next);
    }
    n + rest.house.len()
}

// Copies a list to a place of a lent one.
fn copy(list: &[u32], out: &mut [u32], at: usize)
    requires { at + length list.now ≤ length out.old }
    ensures { out.new ≡ paste out.old at list.now (length list.now) }
{
    for k in 0..list.len() {
        out[at + k] = list[k];
    }
}

// Whether both lists together have a place in so much room.
fn have_room(both: usize, room: usize) -> bool
    ensures { result ≡ (leb both 4096 && leb both room) }
{
    both <= 4096 && both <= room
}

// Whether it has a place in so much room: 23 for more than 4,096 entries, then 14. Its entries are counted only where those of both lists together
// might be too many, since nothing may be written before a refusal is known.
#[tactic(auto, using(crate::specs::Laws::Merged::combined_few), unfolding(crate::specs::Runs::room_for, refusal::specs::Answer::need))]
pub(crate) fn room_for<'a>(lists: Lists<'a>, room: usize) -> Result<(), Refusal>
    ensures value { answered result ≡ room_for (length (combined lists.entry.desk.now lists.entry.house.now)) room }
    ensures fits { IfOk result (λ _. (length (combined lists.entry.desk.now lists.entry.house.now) ≤ 4096) × (length (combined lists.entry.desk.now lists.entry.house.now) ≤ room)) }
{
    if have_room(lists.desk.len() + lists.house.len(), room) {
        return Ok(());
    }
    let n = count(lists);
    if 4096 < n {
        return Err(Refusal::Full);
    }
    if room < n {
        return Err(Refusal::Room);
    }
    Ok(())
}

// Writes it over the start of a lent list, and answers how many entries it has.
pub(crate) fn write<'a>(lists: Lists<'a>, out: &mut [u32]) -> usize
    requires { length (combined lists.desk.now lists.house.now) ≤ length out.old }
    ensures { (result ≡ length (combined lists.entry.desk.now lists.entry.house.now)) × (out.new ≡ combined lists.entry.desk.now lists.entry.house.now ++ drop (length (combined lists.entry.desk.now lists.entry.house.now)) out.old) }
{
    let mut rest = lists;
    let mut n = 0;
    while !rest.desk.is_empty() {
        let t = first_year(rest);
        copy(&rest.house[..t.front], out, n);
        copy(&rest.desk[..t.own], out, n + t.front);
        n += t.front + t.own;
        rest = rest_of(rest, t.own, t.next);
    }
    copy(rest.house, out, n);
    n + rest.house.len()
}
