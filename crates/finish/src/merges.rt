// The two merges that end a build, on the part of the working lists that holds the schedule, and the unadjusted dates that follow them.
ghost use Rattle.std.specs.Prelude.{◌≡◌, ◌+◌, ◌≤◌, ◌<◌, length};
ghost use Rattle.finish.specs.Ends.{EndMerged, FrontMerged, Merges};
ghost use Rattle.finish.specs.Following.{follow_end, follow_front};

use refusal::Refusal;
use steps::flags::same_flag;

// What is left after both merges: the dates from a place up to another, and the flags between them.
#[derive(Clone, Copy)]
pub(crate) struct Part {
    pub from: usize,
    pub to: usize,
}

// The last date takes the place of one that is not before it. Answers how many dates are left.
fn merge_end(dates: &mut [u32], flags: &mut [u8]) -> usize
    requires { length dates.old ≡ length flags.old + 1 }
    ensures { EndMerged dates.old flags.old result dates.new flags.new }
{
    let n = dates.len();
    if n < 2 {
        return n;
    }
    let last = dates[n - 1];
    let former = dates[n - 2];
    if former < last {
        return n;
    }
    dates[n - 2] = last;
    if n < 3 {
        return n - 1;
    }
    flags[n - 3] = same_flag(former, last);
    n - 1
}

// The first date takes the place of one that is not after it. Answers where the list then starts, or refusal 15.
fn merge_front(dates: &mut [u32], flags: &mut [u8]) -> Result<usize, Refusal>
    requires { length dates.old ≡ length flags.old + 1 }
    ensures { FrontMerged dates.old flags.old result dates.new flags.new }
{
    if dates.len() < 2 {
        return Ok(0);
    }
    let first = dates[0];
    let next = dates[1];
    if first < next {
        return Ok(0);
    }
    if dates.len() < 3 {
        return Err(Refusal::Collapsed);
    }
    flags[1] = same_flag(next, first);
    dates[1] = first;
    Ok(1)
}

// The merge at the end, then the one at the front.
pub(crate) fn merge(dates: &mut [u32], flags: &mut [u8]) -> Result<Part, Refusal>
    requires { length dates.old ≡ length flags.old + 1 }
    ensures { Merges dates.old flags.old result dates.new flags.new }
{
    let to = merge_end(dates, flags);
    let last = to - 1;
    let from = merge_front(&mut dates[..to], &mut flags[..last])?;
    Ok(Part { from, to })
}

// Where the merge at the end took a date away, what stands beside the last date takes its place.
fn follow_end(work: &mut [u32], to: usize)
    requires { 1 ≤ to }
    ensures { work.new ≡ follow_end to work.old }
{
    if to < work.len() {
        work[to - 1] = work[to];
    }
}

// The same with the first date.
fn follow_front(work: &mut [u32], from: usize)
    requires { from < length work.old }
    ensures { work.new ≡ follow_front from work.old }
{
    if from == 1 {
        work[1] = work[0];
    }
}

// The unadjusted dates after both merges, which left the dates from a place up to another.
pub(crate) fn follow(work: &mut [u32], from: usize, to: usize)
    requires { (from < to) × (to ≤ length work.old) }
    ensures { work.new ≡ follow_front from (follow_end to work.old) }
{
    follow_end(work, to);
    follow_front(work, from);
}
