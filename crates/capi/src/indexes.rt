// An index beside a calendar: 601 running counts of open days, one for the start of each year from 1800 to 2400.
ghost use Rattle.std.specs.Prelude.{◌≡◌};
ghost use Rattle.opendays.specs.OpenDays.{make_of, count_of, nth_of, add_of, remove_of};
ghost use Rattle.crossing.specs.Answers.{one_number_of, itself};
ghost use Rattle.crossing.specs.Indexes.{Indexed};

use crossing::answers::one_number;
use date::Date;

// 0, and the index of the calendar is written.
pub fn heronspan_index_make(mask: u8, closed: &[u32], index: &mut [u32]) -> i64
    ensures { Indexed (make_of mask closed.now index.old) result index.old index.new }
{
    one_number(opendays::make(mask, closed, index))
}

// How many open days lie from the first day up to, and without, the last.
pub fn heronspan_index_count(first: u32, last: u32, mask: u8, closed: &[u32], index: &[u32]) -> i64
    ensures { result ≡ one_number_of itself (count_of mask closed.now index.now first last) }
{
    one_number(opendays::count(Date { day: first }, Date { day: last }, mask, closed, index))
}

// The n-th open day after the day.
pub fn heronspan_index_nth(day: u32, n: u32, mask: u8, closed: &[u32], index: &[u32]) -> i64
    ensures { result ≡ one_number_of itself (nth_of mask closed.now index.now day n) }
{
    one_number(opendays::nth(Date { day }, n, mask, closed, index))
}

// 0, and the index is that of the calendar with one closed date more; the list is that of before the change.
pub fn heronspan_index_add(day: u32, mask: u8, closed: &[u32], index: &mut [u32]) -> i64
    ensures { Indexed (add_of mask closed.now index.old day) result index.old index.new }
{
    one_number(opendays::add(Date { day }, mask, closed, index))
}

// The same with one closed date less.
pub fn heronspan_index_remove(day: u32, mask: u8, closed: &[u32], index: &mut [u32]) -> i64
    ensures { Indexed (remove_of mask closed.now index.old day) result index.old index.new }
{
    one_number(opendays::remove(Date { day }, mask, closed, index))
}
