// Open parts: a stack of places in the file where their names start.
ghost use Rattle.std.specs.Prelude.{◌≡◌, ◌+◌, ◌<◌, ◌≤◌, length, get_or};
ghost use Rattle.holidays.specs.Nesting.{may_end};
ghost use Rattle.holidays.specs.Inner.Along.{Before, ahead};
ghost use Rattle.holidays.specs.Inner.Parts.{may_begin_by, parts_of, NestIsOk, Opens};

use crate::lines::Place;
use crate::words;

// The number of VCALENDAR and that of VEVENT.
const CALENDAR: u64 = 59478189215794;

const EVENT: u64 = 1817908692;

// VCALENDAR alone stands outermost, and nowhere else; VEVENT second only.
#[tactic(auto, using(crate::proofs::PartWays::beginnings))]
fn may_begin(depth: usize, w: u64) -> bool
    ensures { result ≡ may_begin_by depth w }
{
    if depth == 0 {
        return w == CALENDAR;
    }
    if w == CALENDAR {
        return false;
    }
    if depth == 1 {
        return true;
    }
    w != EVENT
}

// Whether the part that opens is a VEVENT directly in a VCALENDAR, or the one before still says so; nothing if the nesting breaks.
// A list with its depth beside it: the memory is lent and fixed, and no heap.
#[tactic(auto, using(crate::proofs::PartWays::openings))]
pub(crate) fn open_part(
    file: &[u8],
    from: Place,
    depth: usize,
    event: bool,
    stack: &mut [u32],
) -> Option<bool>
    requires before { Before file.now from.at from.line }
    requires depth_in_bounds { depth < length stack.old }
    requires nest_ok { NestIsOk event (parts_of file.now stack.old depth) }
    ensures { Opens file.now from.at from.line depth event stack.old result stack.new }
{
    let w = words::word_at(file, from);
    if may_begin(depth, w) {
        stack[depth] = from.at as u32;
        if depth == 1 {
            return Some(w == EVENT);
        }
        return Some(event);
    }
    None
}

#[tactic(auto, using(crate::proofs::PartWays::endings))]
pub(crate) fn may_end(file: &[u8], from: Place, depth: usize, stack: &[u32]) -> bool
    requires before { Before file.now from.at from.line }
    requires depth_in_bounds { depth + 1 ≤ length stack.now }
    requires name_in_file { get_or stack.now depth 0 ≤ length file.now }
    ensures { result ≡ may_end (ahead file.now from.at from.line) (parts_of file.now stack.now (depth + 1)) }
{
    let begun = Place {
        at: stack[depth] as usize,
        line: 0,
    };
    words::same_words(file, from, begun)
}
