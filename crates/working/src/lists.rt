// The working lists, dates and marks, and the paid dates beside the dates of the loop: filled from the far end in backward builds, from
// the near end in others.
ghost use Rattle.std.specs.Prelude.{◌≡◌, ◌&&◌, ◌-◌, ◌<◌, eqb, length, set};
ghost use Rattle.refusal.specs.Answer.{then};
ghost use Rattle.steps.specs.Generate.{nothing, put};
ghost use Rattle.working.specs.Part.{working, Part, last_day, has_place, place_of, Fills};

use refusal::Refusal;

// Whether lists of these lengths have their 4,096 places, and one of them is left when n dates are there.
#[tactic(auto, unfolding(crate::specs::Part::has_place))]
fn has_place(n: usize, dates: usize, marks: usize) -> bool
    ensures { result ≡ has_place n dates marks }
{
    n < 4096 && (dates == 4096 && marks == 4096)
}

// The lists are slices here and no arrays of 4,096: laws of `Part` name their lengths, and say what is answered of any others.
// Whether lists of these lengths have their 4,096 places: tested once before a loop, so that no turn of it tests a length.
pub(crate) fn are_whole(dates: usize, paid: usize, marks: usize) -> bool
    ensures { result ≡ (eqb dates 4096 && (eqb paid 4096 && eqb marks 4096)) }
{
    dates == 4096 && (paid == 4096 && marks == 4096)
}

// Where the next date goes when n are there.
fn place_of(back: bool, n: usize) -> usize
    requires { n < 4096 }
    ensures { (result ≡ place_of back n) × (result < 4096) }
{
    if back { 4095 - n } else { n }
}

// How many more a is than b; 0 where it is not more.
pub fn surplus(a: usize, b: usize) -> usize
    ensures { result ≡ a - b }
{
    a.saturating_sub(b)
}

// The date that was put last; 0 where there is none.
pub fn newest(back: bool, n: usize, work: &[u32]) -> u32
    ensures { length work.now ≡ 4096 → n < 4097 → result ≡ last_day back n work.now }
{
    if n == 0 {
        return 0;
    }
    if has_place(n - 1, work.len(), work.len()) {
        let at = place_of(back, n - 1);
        return work[at];
    }
    0
}

// A date and its mark put behind the n that are there, or refusal 14.
pub fn put(
    back: bool,
    n: usize,
    room: usize,
    day: u32,
    mark: u8,
    work: &mut [u32],
    marks: &mut [u8],
) -> Result<usize, Refusal>
    ensures { Fills (Part room) back room (put room day mark) n (working work.old marks.old) result (working work.new marks.new) }
{
    if room <= n || !has_place(n, work.len(), marks.len()) {
        return Err(Refusal::Room);
    }
    let at = place_of(back, n);
    work[at] = day;
    marks[at] = mark;
    Ok(n + 1)
}

// The paid date of what is put behind the n that are there.
pub fn pay(back: bool, n: usize, day: u32, paid: &mut [u32])
    ensures { length paid.old ≡ 4096 → n < 4096 → paid.new ≡ set paid.old (place_of back n) day }
{
    if has_place(n, paid.len(), paid.len()) {
        let at = place_of(back, n);
        paid[at] = day;
    }
}

// The first date of a list.
pub fn put_first(
    back: bool,
    room: usize,
    day: u32,
    mark: u8,
    work: &mut [u32],
    marks: &mut [u8],
) -> Result<usize, Refusal>
    ensures { Fills (Part room) back room (λ _. put room day mark nothing) 0 (working work.old marks.old) result (working work.new marks.new) }
{
    put(back, 0, room, day, mark, work, marks)
}

// Two dates, the first of a list.
pub fn put_two(
    back: bool,
    room: usize,
    one: u32,
    two: u32,
    work: &mut [u32],
    marks: &mut [u8],
) -> Result<usize, Refusal>
    ensures { Fills (Part room) back room (λ _. then (put room one 1 nothing) (put room two 1)) 0 (working work.old marks.old) result (working work.new marks.new) }
{
    let n = put_first(back, room, one, 1, work, marks)?;
    put(back, n, room, two, 1, work, marks)
}
