// A list of closed dates: at most 4,096, strictly ascending, from 1800-01-01 to 2399-12-31.
ghost use Rattle.std.specs.Prelude.{◌≡◌, true, ◌+◌, ◌≤◌, length};
ghost use Rattle.calendar.specs.Open.{closed_ok};
ghost use Rattle.calendar.specs.Inner.Places.{Bracket, LowerBound};

use date::span;

// Whether the list keeps its rule: one pass, without a branch for each date. As the dates ascend, the last alone is held against the
// upper bound.
pub fn keep_rule(closed: &[u32]) -> bool
    ensures { result ≡ closed_ok closed.now }
{
    if 4096 < closed.len() {
        return false;
    }
    if closed.len() == 0 {
        return true;
    }
    let mut keeps = span::FIRST <= closed[0];
    for i in 1..closed.len() {
        keeps = keeps & (closed[i - 1] < closed[i]);
    }
    keeps & (closed[closed.len() - 1] <= span::LAST)
}

// The first place whose date is at least x, or the length, known to lie from one place to another.
fn bisect(closed: &[u32], x: u32, from: usize, to: usize) -> usize
    requires { Bracket closed.now x from to }
    ensures { LowerBound closed.now x result }
{
    from + closed[from..to].partition_point(|date| *date < x)
}

// The same place, up to a place that is known, looked for from there in steps that double.
fn place_up_to(closed: &[u32], x: u32, to: usize) -> usize
    requires { Bracket closed.now x 0 to }
    ensures { LowerBound closed.now x result }
{
    let mut hi = to;
    let mut step = 1;
    // No range counts steps that double, and the library has no search from a guess.
    while step <= hi {
        let at = hi - step;
        if closed[at] < x {
            return bisect(closed, x, at + 1, hi);
        }
        hi = at;
        step += step;
    }
    bisect(closed, x, 0, hi)
}

// The mirror, from a place on.
fn place_from(closed: &[u32], x: u32, from: usize) -> usize
    requires { Bracket closed.now x from (length closed.now) }
    ensures { LowerBound closed.now x result }
{
    let mut lo = from;
    let mut step = 1;
    // As above: no range counts steps that double.
    while step < closed.len() - lo {
        let at = lo + step;
        if x <= closed[at] {
            return bisect(closed, x, lo, at);
        }
        lo = at + 1;
        step += step;
    }
    bisect(closed, x, lo, closed.len())
}

// The first place whose date is at least x, or the length.
pub fn lower_bound(closed: &[u32], x: u32) -> usize
    ensures { LowerBound closed.now x result }
{
    bisect(closed, x, 0, closed.len())
}

// The place, looked for from a guess, as that of a day near by: it costs the logarithm of how far the guess was off.
pub fn place_near(closed: &[u32], x: u32, guess: usize) -> usize
    ensures { LowerBound closed.now x result }
{
    if closed.len() == 0 {
        return 0;
    }
    if closed.len() <= guess {
        return place_up_to(closed, x, closed.len());
    }
    if closed[guess] < x {
        return place_from(closed, x, guess + 1);
    }
    if guess == 0 {
        return 0;
    }
    if closed[guess - 1] < x {
        return guess;
    }
    place_up_to(closed, x, guess - 1)
}

// The place of the next day, from that of a day.
pub(crate) fn place_after(closed: &[u32], x: u32, place: usize) -> usize
    requires { LowerBound closed.now x place }
    ensures { LowerBound closed.now (x + 1) result }
{
    if place < closed.len() {
        if closed[place] == x {
            return place + 1;
        }
    }
    place
}
