// Where the entries of a year stand, on lists that keep their rule and a year from 1800 to 2399.
ghost use Rattle.std.specs.Prelude.{◌≡◌, true, ◌≤◌, ◌<◌, length, set};
ghost use Rattle.calendar.specs.Open.{closed_ok};
ghost use Rattle.desk.specs.Desk.{in_years, entries_in, run_of};
ghost use Rattle.desk.specs.Runs.{PartOf, Stands, holder_number};

use crate::{Found, Holder, Lists, years};
use calendar::closed_dates;

#[derive(Drop)]
struct Stretch {
    start: usize,
    end: usize,
}

// The entries of a year lie from the first place whose date is at least 1 January to the first whose date is after 31 December, which is
// looked for from the former.
fn stretch_of(list: &[u32], year: u32) -> Stretch
    requires { (closed_ok list.now ≡ true) × (in_years year ≡ true) }
    ensures { PartOf list.now year result.start result.end }
{
    let start = closed_dates::lower_bound(list, years::first_of(year));
    let end = closed_dates::place_near(list, years::last_of(year) + 1, start);
    Stretch { start, end }
}

// The entries of a year.
fn entries(list: &[u32], year: u32) -> &[u32]
    requires { (closed_ok list.now ≡ true) × (in_years year ≡ true) }
    ensures { result.now ≡ entries_in year list.now }
{
    let at = stretch_of(list, year);
    let start = at.start;
    let end = at.end;
    &list[start..end]
}

// The run of a year.
pub(crate) fn held<'a>(lists: Lists<'a>, year: u32) -> &'a [u32]
    requires { in_years year ≡ true }
    ensures { result.now ≡ run_of lists.entry.desk.now lists.entry.house.now year }
{
    let own = entries(lists.desk, year);
    if 0 < own.len() {
        return own;
    }
    entries(lists.house, year)
}

// Where it stands.
pub(crate) fn find<'a>(lists: Lists<'a>, year: u32) -> Found
    requires { in_years year ≡ true }
    ensures { Stands (run_of lists.entry.desk.now lists.entry.house.now year) (entries_in year lists.entry.desk.now) lists.entry.desk.now lists.entry.house.now (holder_number result.list) result.start result.count }
{
    let own = stretch_of(lists.desk, year);
    if own.start < own.end {
        return Found {
            list: Holder::Desk,
            start: own.start,
            count: own.end - own.start,
        };
    }
    let other = stretch_of(lists.house, year);
    if other.start < other.end {
        return Found {
            list: Holder::House,
            start: other.start,
            count: other.end - other.start,
        };
    }
    Found::NOWHERE
}

// A place written into the first two of a list, and how many entries it has.
pub(crate) fn put(found: Found, out: &mut [u32]) -> u32
    requires { (2 ≤ length out.old) × (found.start < 4294967296) × (found.count < 4294967296) }
    ensures { (result ≡ found.count) × (out.new ≡ set (set out.old 0 (holder_number found.list)) 1 found.start) }
{
    out[0] = found.list as u32;
    out[1] = found.start as u32;
    found.count as u32
}
