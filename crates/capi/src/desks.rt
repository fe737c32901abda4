// A desk's closed dates over the house's: for each year the desk's if it has any there, otherwise the house's.
ghost use Rattle.std.specs.Prelude.{◌≡◌, length};
ghost use Rattle.refusal.specs.Answer.{then};
ghost use Rattle.crossing.specs.Answers.{one_number_of, itself, done, MovePlace};
ghost use Rattle.crossing.specs.Numbers.{convention_of};
ghost use Rattle.desk.specs.Desk.{entries_in, run_of, asked_of, adjust_over_move_of, combined, combine_of, lent_after};
ghost use Rattle.desk.specs.Runs.{count_of, Written};

use crossing::answers::one_number;
use crossing::counts::put_count;
use date::Date;

// 0 where the run of the year is answered.
pub fn heronspan_desk_check(desk: &[u32], house: &[u32], year: u32) -> i64
    ensures { result ≡ one_number_of done (asked_of desk.now house.now year) }
{
    one_number(desk::check(desk, house, year))
}

// How many entries the run of the year has; the list that it stands in and where it starts are written to the first two places.
pub fn heronspan_desk_run(desk: &[u32], house: &[u32], year: u32, place: &mut [u32]) -> i64
    ensures { (result ≡ one_number_of itself (count_of desk.now house.now year (length place.old))) × Written (count_of desk.now house.now year (length place.old)) (run_of desk.now house.now year) (entries_in year desk.now) desk.now house.now place.old place.new }
{
    one_number(desk::write_place(desk, house, year, place))
}

// The day adjusted by a convention, each day that is tried open or closed by the run of its own year; the days that it moved are written to the
// first place.
#[tactic(auto, unfolding(refusal::specs::Answer::then))]
pub fn heronspan_desk_adjust<'a>(
    day: u32,
    convention: u8,
    mask: u8,
    desk: &'a [u32],
    house: &'a [u32],
    moved: &mut [i32],
) -> i64
    ensures { MovePlace (then (convention_of convention) (λ c. adjust_over_move_of mask desk.now house.now c day)) result moved.old moved.new }
{
    let date = Date { day };
    let adjusted = crossing::convention_of(convention).and_then(|convention| desk::adjust(
        date, convention, mask, desk, house,
    ));
    put_count(adjusted, moved)
}

// The combined list over the start of a lent list, and how many entries it has.
pub fn heronspan_desk_combine(desk: &[u32], house: &[u32], closed: &mut [u32]) -> i64
    ensures { (result ≡ one_number_of itself (combine_of desk.now house.now (length closed.old))) × (closed.new ≡ lent_after (combine_of desk.now house.now (length closed.old)) (combined desk.now house.now) closed.old) }
{
    one_number(desk::combine(desk, house, closed))
}
